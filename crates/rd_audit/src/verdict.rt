//! What an audit answers.
ghost use Rattle.std.specs.Prelude.{◌≡◌};
ghost use Rattle.rd_audit.specs.Verdicts.{code_of};

/// The first of what differs between the terminal and the dump.
#[derive(Clone, Copy, Debug)]
pub enum Difference {
    /// The terminal is confused.
    Confused,
    /// The cell of this row and column, from 0, is not known or is another.
    Cell(u32, u32),
    /// The cursor is not known or stands elsewhere.
    Cursor,
}

/// What an audit answers.
#[derive(Clone, Copy, Debug)]
pub enum Verdict {
    /// The stream shows the dump.
    Yes,
    /// The stream does not show the dump; this differs first.
    No(Difference),
    /// The command line has no word, or more than one.
    Usage,
    /// The first line of the file's last dump that is bad, from 1; 0 where there is no dump, or the file has more than 8,388,608
    /// bytes.
    BadDump(u32),
    /// The stream has more than 16,777,216 bytes.
    TooLong,
    /// The file or the stream could not be read.
    ReadFault,
    /// The report could not be written.
    WriteFault,
    /// Want of memory, which may be answered at any time where the command line has one word.
    NoMemory,
}

impl Verdict {
    /// The exit status of the program.
    pub fn code(&self) -> u8
        ensures { result ≡ code_of self.now }
    {
        match self {
            Verdict::Yes => 0,
            Verdict::No(_) => 1,
            Verdict::Usage => 2,
            Verdict::BadDump(_) => 3,
            Verdict::TooLong => 4,
            Verdict::ReadFault => 5,
            Verdict::WriteFault => 6,
            Verdict::NoMemory => 7,
        }
    }
}
