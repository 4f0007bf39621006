//! Lines and what they say.
mod bad_fields;
mod first_faults;
mod limits;
mod missing_fields;
mod ops;
mod other_keys;
mod settings;

use crate::claims::assert_of;
use rd_base::Ch;
use rd_script::{OpFault, read_op};
use std::alloc::Global;
use std::process::Abort;

/// Whether a list has the characters of a text.
pub fn is_spelled(list: &[Ch], text: &str) -> bool {
    let mut i = 0;
    for c in text.chars() {
        if i >= list.len() || list[i] != Ch::scalar(c) {
            return false;
        }
        i += 1;
    }
    i == list.len()
}

/// The kind of a fault.
fn kind_of(fault: &OpFault) -> &'static str {
    match fault {
        OpFault::NotJson => "NotJson",
        OpFault::NotObject => "NotObject",
        OpFault::NoSuchOp => "NoSuchOp",
        OpFault::Memory => "Memory",
        OpFault::Missing(_) => "Missing",
        OpFault::BadField(_) => "BadField",
        OpFault::Extra(_) => "Extra",
    }
}

/// Whether a fault is at this key, where it is at one.
fn is_at(fault: &OpFault, key: &str) -> bool {
    match fault {
        OpFault::Missing(name) => is_spelled(name.as_slice(), key),
        OpFault::BadField(name) => is_spelled(name.as_slice(), key),
        OpFault::Extra(name) => is_spelled(name.as_slice(), key),
        _ => true,
    }
}

/// Whether a line has a fault of this kind, at this key.
pub fn faults(alloc: Global, line: &str, kind: &str, key: &str) -> bool {
    has_fault(alloc, line.as_bytes(), kind, key)
}

/// Whether a line of bytes has a fault of this kind, at this key.
pub fn has_fault(alloc: Global, line: &[u8], kind: &str, key: &str) -> bool {
    match read_op(alloc, line) {
        Ok(_op) => false,
        Err(fault) => kind_of(&fault) == kind && is_at(&fault, key),
    }
}

/// Asserts that each line of a table has a fault of this kind, at the key that stands beside it.
fn assert_faults(rt: &impl Abort, alloc: Global, kind: &str, table: &[(&str, &str, &str)]) {
    for (name, line, key) in table {
        assert_of(rt, name, faults(alloc, line, kind, key));
    }
}
