//! Each op, and how it is read.
use super::is_spelled;
use crate::claims::assert_each;
use rd_base::{Ch, ListOf, Wrap};
use rd_objects::RunKind;
use rd_overlays::Kind;
use rd_script::{Op, OpEntry, OpRun, OpSpec, read_op};
use rd_tree::Side;
use std::alloc::Global;

/// Each op by its name, which a failure tells.
pub const OPS: [(&'static str, &'static str); 37] = [
    case!("frame" => r#"{"op":"frame","width":12,"height":200}"#),
    case!("buffer" => r#"{"op":"buffer","name":"b c"}"#),
    case!("insert" => r#"{"op":"insert","buffer":"main","pos":3,"text":"x\ny\ud83d\ude00"}"#),
    case!("insert_raw" => r#"{"op":"insert_raw","buffer":"a","pos":0,"bytes":[128,255]}"#),
    case!("type" => r#"{"op":"type","text":""}"#),
    case!("delete" => r#"{"op":"delete","buffer":"a","from":1,"to":18446744073709551615}"#),
    case!("narrow" => r#"{"op":"narrow","buffer":"a","from":2,"to":5}"#),
    case!("widen" => r#"{"op":"widen","buffer":"é"}"#),
    case!("put" => r#"{"op":"put","buffer":"a","from":1,"to":2,"kind":"line_prefix","value":18446744073709551615}"#),
    case!("overlay" => r#"{"op":"overlay","buffer":"a","from":2,"to":3,"priority":-1000000,"front":true,"rear":null}"#),
    case!("overlay_move" => r#"{"op":"overlay_move","buffer":"a","overlay":0,"from":1,"to":18446744073709551615}"#),
    case!("overlay_drop" => r#"{"op":"overlay_drop","buffer":"a","overlay":7}"#),
    case!("overlay_put" => r#"{"op":"overlay_put","buffer":"a","overlay":7,"kind":"before","value":null}"#),
    case!("margin_put" => r#"{"op":"margin_put","buffer":"a","overlay":7,"string":4096}"#),
    case!("setting" => r#"{"op":"setting","buffer":"a","name":"tab_width","value":32}"#),
    case!("string" => r#"{"op":"string","text":"ab","runs":[[0,1,"display",9]]}"#),
    case!("spec" => r#"{"op":"spec","kind":"align","value":400}"#),
    case!("face" => r#"{"op":"face","fg":7,"underline":true}"#),
    case!("table" => r#"{"op":"table","entries":[[97,""],[1114111,"b中"]],"ellipsis":null,"border":"|"}"#),
    case!("split" => r#"{"op":"split","window":0,"side":"below","size":18446744073709551615}"#),
    case!("remove" => r#"{"op":"remove","window":18446744073709551615}"#),
    case!("select" => r#"{"op":"select","window":1}"#),
    case!("show" => r#"{"op":"show","window":1,"buffer":"a"}"#),
    case!("point" => r#"{"op":"point","window":0,"pos":0}"#),
    case!("start" => r#"{"op":"start","window":2,"pos":3,"row":1000000}"#),
    case!("scroll" => r#"{"op":"scroll","window":0,"rows":-1000000}"#),
    case!("hscroll" => r#"{"op":"hscroll","window":0,"columns":1000000}"#),
    case!("wrap" => r#"{"op":"wrap","window":2,"mode":"word"}"#),
    case!("mode_line" => r#"{"op":"mode_line","window":0}"#),
    case!("go" => r#"{"op":"go","window":3,"side":"right"}"#),
    case!("hit" => r#"{"op":"hit","window":0,"row":199,"column":399}"#),
    case!("margin" => r#"{"op":"margin","window":0,"numbers":10,"strings":20}"#),
    case!("scrolling" => r#"{"op":"scrolling","margin":200,"conservatively":0}"#),
    case!("echo" => r#"{"op":"echo","text":"é\t"}"#),
    case!("redisplay" => r#"{"op":"redisplay","stop":200}"#),
    case!("shift" => r#"{"op":"shift","on":false}"#),
    case!("buffer with blanks" => " {\"name\" : \"b c\" ,\t\"op\":\"buffer\"}"),
];

#[test]
fn each_op_is_read(rt: HostRuntime) {
    assert_each(&rt, &OPS, |name, line| reads(rt.alloc(), line, name));
}

/// Whether a line is read as the op of a name.
fn reads(alloc: Global, line: &str, name: &str) -> bool {
    match read_op(alloc, line.as_bytes()) {
        Ok(op) => is_op(&op, name),
        Err(_fault) => false,
    }
}

/// Whether an op is the one that stands under its name in the table of ops above.
fn is_op(op: &Op, name: &str) -> bool {
    is_text_op(op, name)
        || is_property_op(op, name)
        || is_object_op(op, name)
        || is_window_op(op, name)
        || is_view_op(op, name)
        || is_screen_op(op, name)
}

/// Whether an op about a buffer and its text is the one that stands under its name.
fn is_text_op(op: &Op, name: &str) -> bool {
    match op {
        Op::Buffer { name: buffer } => name.starts_with("buffer") && buffer.as_str() == "b c",
        Op::Insert { buffer, pos, text } => {
            name == "insert"
                && buffer.as_str() == "main"
                && *pos == 3
                && is_spelled(text.as_slice(), "x\ny\u{1f600}")
        }
        Op::InsertRaw { buffer, pos, bytes } => {
            name == "insert_raw"
                && buffer.as_str() == "a"
                && *pos == 0
                && (bytes.len() == 2 && bytes.at(0) == 128 && bytes.at(1) == 255)
        }
        Op::TypeText { text } => name == "type" && text.is_empty(),
        Op::Delete { buffer, from, to } => {
            name == "delete" && buffer.as_str() == "a" && (*from, *to) == (1, u64::MAX)
        }
        Op::Narrow { buffer, from, to } => {
            name == "narrow" && buffer.as_str() == "a" && (*from, *to) == (2, 5)
        }
        Op::Widen { buffer } => name == "widen" && buffer.as_str() == "é",
        _ => false,
    }
}

/// Whether an op about properties, overlays or settings is the one that stands under its name.
fn is_property_op(op: &Op, name: &str) -> bool {
    match op {
        Op::Put {
            from,
            to,
            kind,
            value,
            ..
        } => {
            name == "put"
                && (*from, *to) == (1, 2)
                && *kind == Kind::LinePrefix
                && *value == Some(u64::MAX)
        }
        Op::Overlay {
            from,
            to,
            priority,
            front,
            rear,
            ..
        } => {
            name == "overlay" && (*from, *to, *priority) == (2, 3, -1_000_000) && *front && !*rear
        }
        Op::OverlayMove {
            overlay,
            from,
            to,
            ..
        } => name == "overlay_move" && (*overlay, *from, *to) == (0, 1, u64::MAX),
        Op::OverlayDrop { overlay, .. } => name == "overlay_drop" && *overlay == 7,
        Op::OverlayPut {
            overlay,
            kind,
            value,
            ..
        } => { name == "overlay_put" && *overlay == 7 && *kind == Kind::Before && value.is_none() }
        Op::MarginPut {
            overlay,
            string,
            ..
        } => name == "margin_put" && *overlay == 7 && *string == Some(4096),
        Op::Setting { buffer, .. } => name == "setting" && buffer.as_str() == "a",
        _ => false,
    }
}

/// Whether an op that makes an object is the one that stands under its name.
fn is_object_op(op: &Op, name: &str) -> bool {
    match op {
        Op::AddString { text, runs } => name == "string"
            && is_spelled(text.as_slice(), "ab")
            && is_run(runs),
        Op::AddSpec { spec } => name == "spec" && *spec == OpSpec::Align(400),
        Op::AddFace { face } => {
            name == "face" && (face.fg, face.bg) == (7, 8) && !face.bold && face.underline
        }
        Op::AddTable {
            entries,
            control,
            ellipsis,
            border,
            ..
        } => {
            name == "table"
                && are_entries(entries)
                && (control.is_none() && ellipsis.is_none())
                && *border == Some(Ch::scalar('|'))
        }
        _ => false,
    }
}

/// Whether the runs of a string are those of the table of ops.
fn is_run(runs: &ListOf<OpRun>) -> bool {
    if runs.len() != 1 {
        return false;
    }
    let run = runs.at(0);
    (run.from, run.to, run.value) == (0, 1, 9) && run.kind == RunKind::Display
}

/// Whether the entries of a display table are those of the table of ops.
fn are_entries(entries: &ListOf<OpEntry>) -> bool {
    if entries.len() != 2 {
        return false;
    }
    let (first, second) = (entries.get(0), entries.get(1));
    (first.code, second.code) == (97, 1_114_111)
        && first.text.is_empty()
        && is_spelled(second.text.as_slice(), "b中")
}

/// Whether an op that makes, takes away or places a window is the one that stands under its name.
fn is_window_op(op: &Op, name: &str) -> bool {
    match op {
        Op::Split { window, side, size } => {
            name == "split" && (*window, *size) == (0, u64::MAX) && *side == Side::Below
        }
        Op::Remove { window } => name == "remove" && *window == u64::MAX,
        Op::Select { window } => name == "select" && *window == 1,
        Op::Show { window, buffer } => name == "show" && *window == 1 && buffer.as_str() == "a",
        Op::Point { window, pos } => name == "point" && (*window, *pos) == (0, 0),
        Op::Start { window, pos, row } => {
            name == "start" && (*window, *pos, *row) == (2, 3, 1_000_000)
        }
        Op::Margin {
            window,
            numbers,
            strings,
        } => name == "margin" && (*window, *numbers, *strings) == (0, 10, 20),
        _ => false,
    }
}

/// Whether an op that says how a window shows its text, or asks for what it shows, is the one that stands under its name.
fn is_view_op(op: &Op, name: &str) -> bool {
    match op {
        Op::Scroll { window, rows } => name == "scroll" && (*window, *rows) == (0, -1_000_000),
        Op::Hscroll { window, columns } => {
            name == "hscroll" && (*window, *columns) == (0, 1_000_000)
        }
        Op::Wrap { window, mode } => name == "wrap" && *window == 2 && *mode == Wrap::Word,
        Op::ModeLine { window, format } => {
            name == "mode_line" && *window == 0 && format.is_none()
        }
        Op::Go { window, right } => name == "go" && *window == 3 && *right,
        Op::Hit {
            window,
            row,
            column,
        } => name == "hit" && (*window, *row, *column) == (0, 199, 399),
        _ => false,
    }
}

/// Whether an op about the whole screen is the one that stands under its name.
fn is_screen_op(op: &Op, name: &str) -> bool {
    match op {
        Op::Frame { width, height } => name == "frame" && (*width, *height) == (12, 200),
        Op::Scrolling {
            margin,
            conservatively,
        } => name == "scrolling" && (*margin, *conservatively) == (200, 0),
        Op::Echo { text } => name == "echo" && is_spelled(text.as_slice(), "é\t"),
        Op::Redisplay { stop } => name == "redisplay" && *stop == Some(200),
        Op::Shift { on } => name == "shift" && !*on,
        _ => false,
    }
}
