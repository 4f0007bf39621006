//! Why a call on a window tree was refused.
use rd_base::Memory;
use thiserror::Error;

/// Why a call on a window tree was refused.
#[derive(Clone, Copy, Debug, Drop, PartialEq, Eq, Error)]
pub enum TreeFault {
    /// No window with this number lives.
    #[error("no such window")]
    NoWindow,
    /// A window would have fewer columns or rows than it needs.
    #[error("too small")]
    TooSmall,
    /// 64 windows live, or 4,294,967,295 were made.
    #[error("too many windows")]
    TooMany,
    /// The window is the only one that lives.
    #[error("last window")]
    LastWindow,
    /// Want of memory, which a split may answer at any time; then nothing has changed.
    #[error("no memory")]
    Memory,
}

impl From<Memory> for TreeFault {
    ghost use Rattle.std.specs.Prelude.{◌≡◌};
    ghost use Rattle.rd_tree.specs.declared.fault.TreeFault.TheVariants.{Memory};

    ghost from_gives = { λ _ fault. fault ≡ Memory };

    fn from(_none: Memory) -> TreeFault {
        TreeFault::Memory
    }
}
