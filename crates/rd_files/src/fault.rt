//! What can be wrong with the data files.
use rd_ucd::UcdFault;
use thiserror::Error;

/// One of the three data files.
#[derive(Clone, Copy, Debug, PartialEq, Eq)]
pub enum DataFile {
    /// The file of classes, in the form of `UnicodeData.txt`.
    ClassFile,
    /// The file of mirrored characters, in the form of `BidiMirroring.txt`.
    MirrorFile,
    /// The file of brackets, in the form of `BidiBrackets.txt`.
    BracketFile,
}

/// What is wrong with a data file.
#[derive(Clone, Copy, Debug, Drop, PartialEq, Eq, Error)]
pub enum DataKind {
    /// The file has more than 8,388,608 bytes.
    #[error("the file is too large")]
    TooLarge,
    /// A line of the file is bad. This is the file's first fault.
    #[error("a line is bad")]
    Bad(UcdFault),
}

/// A data file that is bad.
#[derive(Clone, Copy, Debug, Drop, PartialEq, Eq, Error)]
#[error("a data file is bad")]
pub struct BadFile {
    /// Which of the three data files is bad.
    pub file: DataFile,
    /// The number of the file's first bad line, from 1; 0 where the file is too large.
    pub line: u32,
    /// What is wrong with the file.
    pub kind: DataKind,
}

/// Why the data files were not read.
#[derive(Clone, Copy, Debug, Drop, PartialEq, Eq, Error)]
pub enum DataFault {
    /// A file is bad.
    #[error("a data file is bad")]
    Bad(BadFile),
    /// A file failed, or there is none of its name.
    #[error("a data file failed")]
    Read,
    /// Want of memory, which may be answered at any time.
    #[error("no memory")]
    Memory,
}
