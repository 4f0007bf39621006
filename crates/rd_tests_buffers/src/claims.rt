//! Assertions that name what they are about; each message is made in one place alone, since its proof is long.
use std::process::Abort;

/// Asserts what is to hold of a case of this name.
pub fn assert_of(rt: &impl Abort, name: &str, holds: bool) {
    assert!(rt; holds, "{name}");
}

/// Asserts what is to hold of lists of a length.
pub fn assert_at_length(rt: &impl Abort, name: &str, length: usize, holds: bool) {
    assert!(rt; holds, "{name} at length {length}");
}
