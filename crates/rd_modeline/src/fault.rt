//! Why a format gives no mode line.
use rd_base::Memory;
use thiserror::Error;

/// Why a format gives no mode line.
#[derive(Clone, Copy, Debug, Drop, PartialEq, Eq, Error)]
pub enum FormatFault {
    /// At this place of the format, counted from 0 in characters, stands a `%` that no code follows. It is the first such place.
    #[error("column {0}: no code of a mode line")]
    BadFormat(u64),
    /// Want of memory, which may be answered at any time where cells are made; the check of a format never answers it.
    #[error("no memory")]
    Memory,
}

impl From<Memory> for FormatFault {
    ghost use Rattle.std.specs.Prelude.{◌≡◌};
    ghost use Rattle.rd_modeline.specs.declared.fault.FormatFault.TheVariants.{Memory};

    ghost from_gives = { λ _ fault. fault ≡ Memory };

    fn from(_none: Memory) -> FormatFault {
        FormatFault::Memory
    }
}
