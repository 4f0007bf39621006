//! Why a call on overlays was refused.
use rd_base::Memory;
use thiserror::Error;

/// Why a call on overlays was refused.
#[derive(Clone, Copy, Debug, Drop, PartialEq, Eq, Error)]
pub enum OverlayFault {
    /// No overlay with this number lives.
    #[error("no such overlay")]
    NoOverlay,
    /// The start would stand behind the end.
    #[error("out of range")]
    OutOfRange,
    /// 65,536 overlays were made.
    #[error("too many overlays")]
    TooMany,
    /// Want of memory, which `make` and `move_to` may answer at any time; then nothing has changed.
    #[error("no memory")]
    Memory,
}

impl From<Memory> for OverlayFault {
    ghost use Rattle.std.specs.Prelude.{◌≡◌};
    ghost use Rattle.rd_overlays.specs.declared.fault.OverlayFault.TheVariants.{Memory};

    ghost from_gives = { λ _ fault. fault ≡ Memory };

    fn from(_none: Memory) -> OverlayFault {
        OverlayFault::Memory
    }
}
