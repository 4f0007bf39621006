//! The ops of a script, one line an op in JSON. `WindowFacts` and `print_dump` of rd_dump and `generated` of rd_generate
//! are named here again, where their users look for them.
//!
//! The rules are in docs/RULES.md, "Scripts".
#![tactic(auto)]

mod asked;
mod buffer_name;
mod examples;
mod fault;
mod field;
mod form;
mod item;
mod law;
mod name;
mod object;
mod object_form;
mod object_row;
mod op;
mod place_field;
mod property_form;
mod property_row;
mod read;
mod row;
mod screen_row;
mod setting;
mod setting_field;
mod text_form;
mod text_row;
mod window_row;
mod word;

pub use buffer_name::BufferName;
pub use fault::OpFault;
pub use law::{generated_lines_are_ops, no_line_says_want_of_memory};
pub use object::{OpEntry, OpRun, OpSpec};
pub use op::Op;
pub use rd_dump::{WindowFacts, print_dump};
pub use rd_generate::generated;
pub use read::read_op;
pub use setting::Setting;
