//! Lines with more than one fault, and lines that are no text.
use super::{faults, has_fault};
use crate::claims::assert_of;

/// Lines with more than one fault, and the first: its kind, and its key where it has one.
const FIRST: [(&'static str, &'static str, &'static str, &'static str); 27] = [
    case!("no character" => r#""#, "NotJson", ""),
    case!("a line that is cut off" => r#"{"op":"redi"#, "NotJson", ""),
    case!("a letter behind the object" => r#"{"op":"redisplay"} x"#, "NotJson", ""),
    case!("half of a surrogate pair" => r#"{"op":"type","text":"\ud800"}"#, "NotJson", ""),
    case!("a number without bounds, behind a bad op" => r#"{"op":1,"width":1e999}"#, "NotJson", ""),
    case!("an array" => r#"[]"#, "NotObject", ""),
    case!("a text" => r#""redisplay""#, "NotObject", ""),
    case!("a bad op, and another key" => r#"{"op":1,"x":1}"#, "BadField", "op"),
    case!("an op with a capital" => r#"{"op":"Frame"}"#, "NoSuchOp", ""),
    case!("an op with a blank, and another key" => r#"{"op":"redisplay ","x":1}"#, "NoSuchOp", ""),
    case!("a bad text, and another key" => r#"{"op":"echo","text":1,"x":1}"#, "BadField", "text"),
    case!("a bad buffer, missing fields, and another key" => r#"{"op":"insert","buffer":1,"x":1}"#, "BadField", "buffer"),
    case!("a missing position before a bad text" => r#"{"op":"insert","buffer":"a","text":1}"#, "Missing", "pos"),
    case!("a bad position before a missing text" => r#"{"op":"insert","buffer":"a","pos":-1}"#, "BadField", "pos"),
    case!("a missing buffer before a bad range" => r#"{"op":"delete","to":-1,"from":-1}"#, "Missing", "buffer"),
    case!("a missing window, and another key" => r#"{"op":"remove","x":1}"#, "Missing", "window"),
    case!("a bad mode, and another key, less in byte order" => r#"{"op":"wrap","window":0,"mode":1,"a":1}"#, "BadField", "mode"),
    case!("a bad buffer before missing fields" => r#"{"op":"put","buffer":1}"#, "BadField", "buffer"),
    case!("a bad value, and another key"
        => r#"{"op":"put","buffer":"a","from":1,"to":1,"kind":"face","value":-1,"x":1}"#, "BadField", "value"),
    case!("a missing overlay before a bad kind" => r#"{"op":"overlay_put","buffer":"a","kind":1}"#, "Missing", "overlay"),
    case!("a missing name before its value" => r#"{"op":"setting","buffer":"a","value":0}"#, "Missing", "name"),
    case!("a bad kind before a missing value" => r#"{"op":"spec","kind":1}"#, "BadField", "kind"),
    case!("bad entries before a bad border" => r#"{"op":"table","border":1,"entries":1}"#, "BadField", "entries"),
    case!("a missing side before a bad size" => r#"{"op":"split","window":0,"size":-1}"#, "Missing", "side"),
    case!("a bad window before missing fields" => r#"{"op":"margin","window":-1}"#, "BadField", "window"),
    case!("a bad stop, and another key" => r#"{"op":"redisplay","stop":201,"x":1}"#, "BadField", "stop"),
    case!("a stop, and another key" => r#"{"op":"redisplay","stop":200,"x":1}"#, "Extra", "x"),
];

#[test]
fn the_first_fault_is_told(rt: HostRuntime) {
    for (name, line, kind, key) in &FIRST {
        assert_of(&rt, name, faults(rt.alloc(), line, kind, key));
    }
}

#[test]
fn bytes_are_utf_8(rt: HostRuntime) {
    for (name, line) in [
        (
            "a byte of no character",
            b"{\"op\":\"type\",\"text\":\"\xff\"}",
        ),
        (
            "a byte that goes on",
            b"{\"op\":\"type\",\"text\":\"\x80\"}",
        ),
        ("a first byte alone", b"{\"op\":\"type\",\"text\":\"\xc3\"}"),
    ] {
        assert_of(
            &rt,
            name,
            has_fault(rt.alloc(), line.as_slice(), "NotJson", ""),
        );
    }
}
