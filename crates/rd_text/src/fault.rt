//! Why a call on a text is refused.
use thiserror::Error;

/// Why a call on a text is refused.
#[derive(Clone, Copy, Debug, PartialEq, Eq, Error)]
pub enum TextFault {
    /// A position or a range is not where the call asks it to be.
    #[error("out of range")]
    OutOfRange,
    /// The text would have more than 4,194,304 characters.
    #[error("text too large")]
    TooLarge,
    /// Want of memory, which may be answered at any time; then nothing has changed.
    #[error("no memory")]
    Memory,
}
