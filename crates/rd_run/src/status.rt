//! `Status`, how a run ends, with the number that the process exits with, and `ScriptFault`, why a line of a script is bad.
ghost use Rattle.std.specs.Prelude.{◌≡◌};
ghost use Rattle.rd_run.specs.Statuses.{code_of};

use rd_files::{DataFile, DataKind};
use rd_script::OpFault;
use rd_state::Refused;
use thiserror::Error;

/// Why a line of a script is bad.
#[derive(Debug, Drop, Error)]
pub enum ScriptFault {
    /// The line has more than 1,048,576 bytes.
    #[error("the line is too long")]
    TooLong,
    /// The line is the 1,000,001st.
    #[error("there are too many lines")]
    TooMany,
    /// The line is no op.
    #[error("the line is no op")]
    Op(OpFault),
    /// The line's op was refused.
    #[error("the op was refused")]
    Refused(Refused),
}

/// How a run ended.
#[derive(Debug, Drop)]
pub enum Status {
    /// The script was run to its end, and every op was accepted.
    Done,
    /// The words are not those of the command.
    Usage,
    /// A data file is bad: which, the number of its first bad line from 1, and what is wrong; or 0, where the file is too large.
    BadData(DataFile, u32, DataKind),
    /// A line of the script is bad: its number, from 1, and what is wrong.
    BadScript(u32, ScriptFault),
    /// The script or a data file could not be read.
    ReadFault,
    /// The screen or the report could not be written.
    WriteFault,
    /// Memory was wanting, and the op in hand was given up.
    NoMemory,
}

impl Status {
    /// The exit status of the program.
    pub fn code(&self) -> u8
        ensures { result ≡ code_of self.now }
    {
        match self {
            Status::Done => 0,
            Status::Usage => 2,
            Status::BadData(_, _, _) => 3,
            Status::BadScript(_, _) => 4,
            Status::ReadFault => 5,
            Status::WriteFault => 6,
            Status::NoMemory => 7,
        }
    }
}
