//! Sources, files and sinks of bytes, in memory and of the system, each with a count of its faults; the lines of a source; and a piece
//! of fixed size, in which a text is made.
//!
//! docs/RULES.md, "Scripts", says what the lines of a script are; the choices about devices are in docs/DECISIONS.md,
//! "Devices".
#![tactic(auto)]

mod calls;
mod chunk;
mod copy;
mod file;
mod host;
mod lines;
mod memory_files;
mod memory_sink;
mod memory_source;
mod piece;
mod traits;

pub use file::{FileFault, read_file};
pub use host::{HostFiles, StdSink, StdSource, Unbuffered, host_words};
pub use lines::{LineFault, Lines, lines_are_cut_at_newlines};
pub use memory_files::MemFiles;
pub use memory_sink::MemSink;
pub use memory_source::MemSource;
pub use piece::{PIECE_BYTES, Piece};
pub use traits::{Failed, Files, Sink, Source, write_character, write_whole};
