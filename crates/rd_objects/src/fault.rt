//! Why an object was not made.
use rd_base::Memory;
use thiserror::Error;

/// Why an object was not made.
#[derive(Clone, Copy, Debug, Drop, PartialEq, Eq, Error)]
pub enum ObjectFault {
    /// As many objects of this sort were made as there may be.
    #[error("too many objects")]
    TooMany,
    /// The string has more than 4,096 characters.
    #[error("the string is too long")]
    TooLong,
    /// An object that was not made is named.
    #[error("no such object")]
    NoObject,
    /// A run doesn't lie in its string.
    #[error("a run out of range")]
    OutOfRange,
    /// Want of memory, which may be answered at any time; then nothing has changed.
    #[error("no memory")]
    Memory,
}

impl From<Memory> for ObjectFault {
    ghost use Rattle.std.specs.Prelude.{◌≡◌};
    ghost use Rattle.rd_objects.specs.declared.fault.ObjectFault.TheVariants.{Memory};

    ghost from_gives = { λ _ fault. fault ≡ Memory };

    fn from(_none: Memory) -> ObjectFault {
        ObjectFault::Memory
    }
}
