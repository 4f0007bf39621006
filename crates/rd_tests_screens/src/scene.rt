//! A state that each op had a part in, and what states answer to lines.
ghost use Rattle.rd_script.specs.Forms.{IsInForm};

use crate::script::is_spelled;
use rd_base::{Ch, ListOf, Memory, Wrap};
use rd_overlays::Overlay;
use rd_script::{Op, read_op};
use rd_state::{Effect, Refused, State, WindowState};
use rd_tree::Rect;
use std::alloc::Global;

/// What a state answers to an op; None where the op shows the frame or reads what was shown.
pub fn applied(state: &mut State, op: Op) -> Option<Result<Effect, Refused>>
    requires { IsInForm op }
{
    match op {
        Op::Redisplay { .. } => None,
        Op::Go { .. } => None,
        Op::Hit { .. } => None,
        op => Some(state.apply(op)),
    }
}

/// What a state answers to a line of a script; None where the line is no op that a state applies.
pub fn answer(state: &mut State, alloc: Global, line: &str) -> Option<Result<Effect, Refused>> {
    match read_op(alloc, line.as_bytes()) {
        Ok(op) => applied(state, op),
        Err(_fault) => None,
    }
}

/// Whether a state accepts a line, and then has changed this.
pub fn accepts(state: &mut State, alloc: Global, line: &str, effect: Effect) -> bool {
    answer(state, alloc, line) == Some(Ok(effect))
}

/// Whether a state refuses a line for this cause.
pub fn refuses(state: &mut State, alloc: Global, line: &str, refused: Refused) -> bool {
    answer(state, alloc, line) == Some(Err(refused))
}

/// Whether an answer says that an op was accepted.
pub fn is_done(answer: Option<Result<Effect, Refused>>) -> bool {
    match answer {
        Some(Ok(_effect)) => true,
        _ => false,
    }
}

/// Whether a state accepts a line.
pub fn is_accepted(state: &mut State, alloc: Global, line: &str) -> bool {
    is_done(answer(state, alloc, line))
}

/// Whether a state accepts lines one after the other.
pub fn runs(state: &mut State, alloc: Global, lines: &[&str]) -> bool {
    for line in lines {
        if !is_accepted(state, alloc, line) {
            return false;
        }
    }
    true
}

/// An edit of the buffer of a number.
fn edit(buffer: u32, from: u32, removed: u32, added: u32) -> Effect {
    Effect::Edit {
        buffer,
        from,
        removed,
        added,
    }
}

/// Each op that a state applies by its name, its line, and what it has changed.
pub fn ops() -> [(&'static str, &'static str, Effect); 39] {
    [
        case!("frame" => r#"{"op":"frame","width":60,"height":12}"#, Effect::Nothing),
        case!("buffer" => r#"{"op":"buffer","name":"é"}"#, Effect::Nothing),
        case!("insert" => r#"{"op":"insert","buffer":"main","pos":1,"text":"abc\nde"}"#, edit(0, 1, 0, 6)),
        case!("insert_raw" => r#"{"op":"insert_raw","buffer":"é","pos":1,"bytes":[128,200,255]}"#, edit(1, 1, 0, 3)),
        case!("type" => r#"{"op":"type","text":"xy"}"#, edit(0, 1, 0, 2)),
        case!("delete" => r#"{"op":"delete","buffer":"main","from":2,"to":4}"#, edit(0, 2, 2, 0)),
        case!("narrow: the second buffer" => r#"{"op":"narrow","buffer":"é","from":2,"to":3}"#, Effect::All { buffer: 1 }),
        case!("widen" => r#"{"op":"widen","buffer":"é"}"#, Effect::All { buffer: 1 }),
        case!("narrow: the first buffer" => r#"{"op":"narrow","buffer":"main","from":2,"to":6}"#, Effect::All { buffer: 0 }),
        case!("face" => r#"{"op":"face","fg":1,"bold":true}"#, Effect::Nothing),
        case!("spec" => r#"{"op":"spec","kind":"width","value":3}"#, Effect::Nothing),
        case!("string" => r#"{"op":"string","text":"hi!","runs":[[0,3,"face",0],[1,2,"display",0]]}"#, Effect::Nothing),
        case!("table" => r#"{"op":"table","entries":[[97,"bc"]],"control":"c","ellipsis":"中"}"#, Effect::Nothing),
        case!("put: a face" => r#"{"op":"put","buffer":"main","from":2,"to":4,"kind":"face","value":0}"#, edit(0, 2, 2, 2)),
        case!("put: an atom" => r#"{"op":"put","buffer":"main","from":3,"to":6,"kind":"invisible","value":65535}"#, edit(0, 3, 3, 3)),
        case!("put: no face" => r#"{"op":"put","buffer":"main","from":3,"to":4,"kind":"face"}"#, edit(0, 3, 1, 1)),
        case!("overlay" => r#"{"op":"overlay","buffer":"main","from":1,"to":3,"priority":-5,"rear":true}"#, edit(0, 1, 2, 2)),
        case!("overlay: no character" => r#"{"op":"overlay","buffer":"main","from":6,"to":6}"#, edit(0, 6, 0, 0)),
        case!("overlay_move"
            => r#"{"op":"overlay_move","buffer":"main","overlay":0,"from":3,"to":5}"#,
            Effect::Moved { buffer: 0, before: (1, 3), after: (3, 5) }),
        case!("overlay_put" => r#"{"op":"overlay_put","buffer":"main","overlay":0,"kind":"before","value":0}"#, edit(0, 3, 2, 2)),
        case!("margin_put" => r#"{"op":"margin_put","buffer":"main","overlay":0,"string":0}"#, Effect::Nothing),
        case!("overlay_drop" => r#"{"op":"overlay_drop","buffer":"main","overlay":1}"#, edit(0, 6, 0, 0)),
        case!("setting: the width of a tab"
            => r#"{"op":"setting","buffer":"main","name":"tab_width","value":4}"#, Effect::All { buffer: 0 }),
        case!("setting: a table" => r#"{"op":"setting","buffer":"main","name":"table","value":0}"#, Effect::All { buffer: 0 }),
        case!("split: right" => r#"{"op":"split","window":0,"side":"right","size":30}"#, Effect::Nothing),
        case!("split: below" => r#"{"op":"split","window":1,"side":"below","size":5}"#, Effect::Nothing),
        case!("remove" => r#"{"op":"remove","window":2}"#, Effect::Nothing),
        case!("select" => r#"{"op":"select","window":1}"#, Effect::Nothing),
        case!("show" => r#"{"op":"show","window":1,"buffer":"é"}"#, Effect::Window(1)),
        case!("point" => r#"{"op":"point","window":0,"pos":5}"#, Effect::Nothing),
        case!("start" => r#"{"op":"start","window":1,"pos":2,"row":7}"#, Effect::Nothing),
        case!("scroll" => r#"{"op":"scroll","window":0,"rows":-3}"#, Effect::Nothing),
        case!("hscroll" => r#"{"op":"hscroll","window":1,"columns":9}"#, Effect::Nothing),
        case!("wrap" => r#"{"op":"wrap","window":1,"mode":"word"}"#, Effect::Nothing),
        case!("mode_line" => r#"{"op":"mode_line","window":0,"format":"%b"}"#, Effect::Nothing),
        case!("margin" => r#"{"op":"margin","window":1,"numbers":3,"strings":2}"#, Effect::Nothing),
        case!("scrolling" => r#"{"op":"scrolling","margin":2,"conservatively":100}"#, Effect::Nothing),
        case!("echo" => r#"{"op":"echo","text":"hi"}"#, Effect::Nothing),
        case!("shift" => r#"{"op":"shift","on":true}"#, Effect::Nothing),
    ]
}

/// The state after the ops above.
pub fn scene(alloc: Global) -> Result<State, Memory> {
    let mut state = State::new(alloc)?;
    for (_name, line, _effect) in ops() {
        answer(&mut state, alloc, line);
    }
    Ok(state)
}

/// Whether a state is the one after the ops above.
pub fn is_scene(state: &State) -> bool {
    are_buffers(state)
        && are_objects(state)
        && are_marked(state)
        && is_left(state.window(0))
        && is_right(state.window(1))
        && is_frame(state)
}

/// Whether the buffer of a number has this name.
fn is_named(state: &State, number: u32, name: &str) -> bool {
    state.name(number) == Some(name) && state.number_of(name) == Some(number)
}

/// Whether the buffer of a number has so many characters and this accessible range, which begins with a character of this code.
fn has_text(state: &State, number: u32, length: u32, range: (u32, u32), code: u32) -> bool {
    match state.buffer(number) {
        Some(buffer) => {
            buffer.text.length() == length
                && (buffer.text.begin(), buffer.text.end()) == range
                && is_code(buffer.text.fetch(range.0), code)
        }
        None => false,
    }
}

/// Whether a character is there, and has this code.
fn is_code(ch: Option<Ch>, code: u32) -> bool {
    match ch {
        Some(ch) => ch.code() == code,
        None => false,
    }
}

/// Whether the buffers have their names and texts.
fn are_buffers(state: &State) -> bool {
    is_named(state, 0, "main")
        && is_named(state, 1, "é")
        && state.name(2).is_none()
        && has_text(state, 0, 6, (2, 6), 98)
        && has_text(state, 1, 3, (1, 4), 1_114_240)
}

/// Whether the objects were made, and no more.
fn are_objects(state: &State) -> bool {
    let objects = state.objects();
    (objects.string(0).is_some() && objects.string(1).is_none())
        && (objects.spec(0).is_some() && objects.spec(1).is_none())
        && (objects.face(0).is_some() && objects.face(1).is_none())
        && (objects.table(0).is_some() && objects.table(1).is_none())
}

/// Whether the first buffer has its properties, overlays and settings.
fn are_marked(state: &State) -> bool {
    match state.buffer(0) {
        Some(buffer) => {
            let (faces, atoms) = (&buffer.spans[0], &buffer.spans[2]);
            (faces.at(2) == Some(0) && faces.at(3).is_none())
                && (atoms.at(2).is_none() && atoms.at(5) == Some(65_535))
                && is_overlay(buffer.overlays.get(0))
                && (buffer.overlays.get(1).is_none() && buffer.overlays.get(2).is_none())
                && (buffer.settings.tab_width == 4 && buffer.settings.table == Some(0))
                && has_mark(state)
        }
        None => false,
    }
}

/// Whether an overlay is the first of the scene.
fn is_overlay(overlay: Option<&Overlay>) -> bool {
    match overlay {
        Some(o) => {
            (o.from, o.to, o.priority) == (3, 5, -5)
                && (!o.front && o.rear)
                && (o.values[0].is_none() && o.values[5] == Some(0))
        }
        None => false,
    }
}

/// Whether the first overlay of the first buffer has its margin string.
fn has_mark(state: &State) -> bool {
    match state.marks(0) {
        Some(marks) => marks.get(0) == Some(0) && marks.get(1).is_none(),
        None => false,
    }
}

/// Whether a window is the left one of the scene.
fn is_left(window: Option<&WindowState>) -> bool {
    match window {
        Some(w) => {
            (w.buffer, w.point) == (0, 5)
                && (w.anchor.pos, w.anchor.row) == (2, 0)
                && (w.forced && w.pending == -3)
                && (w.hscroll, w.numbers, w.strings) == (0, 0, 0)
                && w.wrap == Wrap::Truncate
                && is_format(&w.format)
        }
        None => false,
    }
}

/// Whether a format is that of the left window.
fn is_format(format: &Option<ListOf<Ch>>) -> bool {
    match format {
        Some(format) => is_spelled(format.as_slice(), "%b"),
        None => false,
    }
}

/// Whether a window is the right one of the scene.
fn is_right(window: Option<&WindowState>) -> bool {
    match window {
        Some(w) => {
            (w.buffer, w.point) == (1, 1)
                && (w.anchor.pos, w.anchor.row) == (2, 7)
                && (w.forced && w.pending == 0)
                && (w.hscroll, w.numbers, w.strings) == (9, 3, 2)
                && w.wrap == Wrap::Word
                && w.format.is_none()
        }
        None => false,
    }
}

/// Whether the frame is shared so, and what belongs to it is as it was said.
fn is_frame(state: &State) -> bool {
    state.window(2).is_none()
        && is_at(state.tree().rect(0), (0, 30))
        && is_at(state.tree().rect(1), (30, 30))
        && state.selected() == 1
        && (state.frame() == (60, 12) && state.scrolling() == (2, 100))
        && (is_spelled(state.echo(), "hi") && state.shifting())
}

/// Whether a rectangle has eleven rows from the top, and this first column and so many columns.
fn is_at(rect: Option<Rect>, columns: (u32, u32)) -> bool {
    match rect {
        Some(rect) => (rect.x, rect.width) == columns && (rect.y, rect.height) == (0, 11),
        None => false,
    }
}
