//! Want of memory, the one answer that no clause ties to a cause.
use std::alloc::{AllocError, AllocFailed};
use thiserror::Error;

/// Want of memory. A call that has this error may answer it at any time, whatever room there is. It is the error of the calls that
/// have no other.
#[derive(Clone, Copy, Debug, PartialEq, Eq, Error)]
#[error("no memory")]
pub struct Memory;

impl From<AllocError> for Memory {
    fn from(_none: AllocError) -> Memory {
        Memory
    }
}

impl<T: Drop> From<AllocFailed<T>> for Memory {
    fn from(_none: AllocFailed<T>) -> Memory {
        Memory
    }
}
