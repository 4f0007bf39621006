//! Assertions that name what they are about; the message is made in one place alone, since its proof is long.
use std::process::Abort;

/// Asserts what is to hold of a case of this name.
pub fn assert_of(rt: &impl Abort, name: &str, holds: bool) {
    assert!(rt; holds, "{name}");
}
