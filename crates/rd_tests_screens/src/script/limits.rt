//! How deep a line nests, and how long its texts are.
use super::faults;
use crate::claims::assert_of;
use rd_script::read_op;
use std::alloc::{AllocError, Global};

/// A line whose extra member is so many arrays deep.
fn nested(alloc: Global, arrays: usize) -> Result<String, AllocError> {
    let mut line = String::from_str(alloc, r#"{"op":"redisplay","x":"#)?;
    for _i in 0..arrays {
        line.push('[')?;
    }
    for _i in 0..arrays {
        line.push(']')?;
    }
    line.push('}')?;
    Ok(line)
}

/// Whether a line whose extra member is so many arrays deep has a fault of this kind, at this key.
fn nests_with(alloc: Global, arrays: usize, kind: &str, key: &str) -> bool {
    match nested(alloc, arrays) {
        Ok(line) => faults(alloc, line.as_str(), kind, key),
        Err(_) => false,
    }
}

#[test]
fn lines_nest_127_deep(rt: HostRuntime) {
    assert_of(
        &rt,
        "126 arrays within an object",
        nests_with(rt.alloc(), 126, "Extra", "x"),
    );
    assert_of(
        &rt,
        "127 arrays within an object",
        nests_with(rt.alloc(), 127, "NotJson", ""),
    );
}

/// A line that repeats a text so many times between its first part and its end.
fn repeated(alloc: Global, front: &str, part: &str, count: usize) -> Result<String, AllocError> {
    let mut line = String::from_str(alloc, front)?;
    for _i in 0..count {
        line.push_str(part)?;
    }
    line.push_str(r#""}"#)?;
    Ok(line)
}

/// Whether a line that repeats a text so many times is an op.
fn is_read(alloc: Global, front: &str, part: &str, count: usize) -> bool {
    match repeated(alloc, front, part, count) {
        Ok(line) => read_op(alloc, line.as_bytes()).is_ok(),
        Err(_) => false,
    }
}

/// Whether a line that repeats a text so many times is refused for the field of a key.
fn is_too_long(alloc: Global, front: &str, part: &str, count: usize, key: &str) -> bool {
    match repeated(alloc, front, part, count) {
        Ok(line) => faults(alloc, line.as_str(), "BadField", key),
        Err(_) => false,
    }
}

#[test]
fn texts_have_their_most_characters(rt: HostRuntime) {
    let name = r#"{"op":"buffer","name":""#;
    assert_of(
        &rt,
        "a name of 64 characters",
        is_read(rt.alloc(), name, "é", 64),
    );
    assert_of(
        &rt,
        "a name of 65 characters",
        is_too_long(rt.alloc(), name, "é", 65, "name"),
    );
    let echo = r#"{"op":"echo","text":""#;
    assert_of(
        &rt,
        "an echo of 4,096 characters",
        is_read(rt.alloc(), echo, "é", 4096),
    );
    assert_of(
        &rt,
        "an echo of 4,097 characters",
        is_too_long(rt.alloc(), echo, "é", 4097, "text"),
    );
    let format = r#"{"op":"mode_line","window":0,"format":""#;
    assert_of(
        &rt,
        "a format of 4,096 characters",
        is_read(rt.alloc(), format, "a", 4096),
    );
    assert_of(
        &rt,
        "a format of 4,097 characters",
        is_too_long(rt.alloc(), format, "a", 4097, "format"),
    );
}
