//! The reading of the data files: each read whole and judged, in order.
//!
//! The rules are in docs/RULES.md, "The program" and "Data files".
#![tactic(auto)]

mod examples;
mod fault;
mod files;
mod law;

pub use fault::{BadFile, DataFault, DataFile, DataKind};
pub use files::{DataFiles, read_data};
pub use law::data_files_are_determined;
