//! What can be wrong with a data file.
use rd_base::Memory;
use thiserror::Error;

/// The first fault of a data file, with the number of its line, from 1. In a line the first of them counts.
#[derive(Clone, Copy, Debug, Drop, PartialEq, Eq, Error)]
pub enum UcdFault {
    /// The line has too few fields, or, where their number is fixed, too many.
    #[error("line {0}: wrong number of fields")]
    BadLine(u64),
    /// A code is not 4 to 6 hexadecimal digits, or above 10FFFF.
    #[error("line {0}: no code")]
    BadCode(u64),
    /// The class is not one of the 23 names.
    #[error("line {0}: no bidirectional class")]
    BadClass(u64),
    /// The code is not greater than that of the entry before.
    #[error("line {0}: not ascending")]
    NotAscending(u64),
    /// The first line of a range without its last, a last without its first, or two of different classes.
    #[error("line {0}: no whole range")]
    BadRange(u64),
    /// Want of memory, which may be answered at any time.
    #[error("no memory")]
    Memory,
}

impl From<Memory> for UcdFault {
    ghost use Rattle.std.specs.Prelude.{◌≡◌};
    ghost use Rattle.rd_ucd.specs.declared.fault.UcdFault.TheVariants.{Memory};

    ghost from_gives = { λ _ fault. fault ≡ Memory };

    fn from(_none: Memory) -> UcdFault {
        UcdFault::Memory
    }
}
