//! A session as a program in another language holds it: its state is one value, and each call one op, one line or one question.
//!
//! What goes in: the bytes of the three data files at the beginning (`Embedded::open`); then lines of JSON (`line`), or the ops of an
//! editor without JSON (`insert`, `split` and their kin), whose arguments are numbers and bytes. What comes out: of each call a `Status`,
//! whose number a program keeps to (`code`), and of the last op, line or redisplay the report's words (`fault_text`); the terminal's bytes,
//! which wait until they are fetched in pieces of the caller's size (`pending`, `fetch`); and what is read back: windows, buffers with
//! their texts, rows of the screen, and what stands under a cell.
//!
//! A call takes these steps:
//!
//! 1. `asking`, `choices` and `ranges` read the arguments: a text is UTF-8, a number stands for a side, a kind or a setting, and each is in
//!    the range of the op's field. A buffer is named by its number. That gives an op, or says why there is none.
//! 2. The session applies the op (`Session::apply` of rd_session), or redisplays; its bytes go behind those that wait (`pending`).
//! 3. It is noted how the call ended (`ending`).
//!
//! After a refusal, a bad argument or want of memory the session is as it was, and the same call may be made again. Only a redisplay that
//! found no memory leaves a mark: nothing is known of the screen then, and the next redisplay paints all.
//!
//! What is read back is put into buffers of the caller (`fill`): as many elements as there is room for, and of texts as many characters as
//! fit whole (`spelling`). Structs that such a program sees have C's layout.
//!
//! The rules are in docs/RULES.md, "Scripts", "State" and "Hits and motion".
#![tactic(auto)]

mod asking;
mod choices;
mod embedded;
mod ending;
mod examples;
mod faces;
mod fill;
mod lent;
mod lines;
mod opening;
mod overlay_ops;
mod pending;
mod ranges;
mod screen;
mod shown;
mod spelling;
mod status;
mod text_ops;
mod texts;
mod told_cells;
mod window_ops;
mod windows;
mod words;

pub use choices::NONE;
pub use embedded::Embedded;
pub use ending::Ending;
pub use faces::{FACE_BYTES, FaceLook};
pub use opening::{BadData, OpenFault};
pub use pending::Pending;
pub use screen::SpotTold;
pub use shown::Shown;
pub use status::Status;
pub use texts::TextGiven;
pub use told_cells::CellTold;
pub use windows::{Place, WindowTold};
