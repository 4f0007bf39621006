//! Lines with keys that the op does not have.
use super::ops::OPS;
use super::{assert_faults, has_fault};
use crate::claims::assert_each;
use std::alloc::{AllocError, Global};

/// Lines with keys that the op does not have, and the first of them in byte order.
const EXTRA: [(&'static str, &'static str, &'static str); 7] = [
    case!("a key of other ops" => r#"{"op":"buffer","name":"a","buffer":"a"}"#, "buffer"),
    case!("two other keys, against their order" => r#"{"op":"widen","y":1,"buffer":"a","x":1}"#, "x"),
    case!("three other keys around the buffer" => r#"{"op":"widen","b":1,"buffer":"a","é":1,"a":null}"#, "a"),
    case!("a key beyond ASCII" => r#"{"op":"widen","buffer":"a","é":1}"#, "é"),
    case!("an empty key" => r#"{"op":"widen","buffer":"a","":1}"#, ""),
    case!("a key with a capital" => r#"{"op":"wrap","window":0,"mode":"continue","Mode":1}"#, "Mode"),
    case!("a key beside one that may be left out" => r#"{"op":"redisplay","stop":0,"x":1}"#, "x"),
];

#[test]
fn the_first_other_key_is_told(rt: HostRuntime) {
    assert_faults(&rt, rt.alloc(), "Extra", &EXTRA);
}

/// A line with one member more.
fn with_member(alloc: Global, line: &[u8]) -> Result<Vec<u8>, AllocError> {
    let mut more = Vec::new(alloc);
    more.extend_from_slice(&line[..line.len().saturating_sub(1)])?;
    more.extend_from_slice(b",\"other\":1}")?;
    Ok(more)
}

/// Whether a line with one member more is refused for its key.
fn takes_no_other(alloc: Global, line: &str) -> bool {
    match with_member(alloc, line.as_bytes()) {
        Ok(more) => has_fault(alloc, more.as_slice(), "Extra", "other"),
        Err(_) => false,
    }
}

#[test]
fn no_op_takes_another_key(rt: HostRuntime) {
    assert_each(&rt, &OPS, |_name, line| takes_no_other(rt.alloc(), line));
}
