//! `StateParts::apply`: the one match over all ops. Each op's method stands in the module of its subject.
ghost use Rattle.std.specs.Prelude.{◌≡◌, IsTrue};
ghost use Rattle.rd_script.specs.Forms.{IsInForm};
ghost use Rattle.rd_state.specs.Answers.{IsApplied, Applies, takes_memory};
ghost use Rattle.rd_state.specs.Valid.{IsValid};

use crate::effect::Effect;
use crate::parts::StateParts;
use crate::refused::Refused;
use crate::table::TableParts;
use rd_script::Op;

impl StateParts {
    /// Applies one op other than those that show the frame or read what was shown. A refusal is the first that the op meets, and leaves
    /// all as it was.
    pub(crate) fn apply(&mut self, op: Op) -> Result<Effect, Refused>
        requires valid { IsValid self.old }
        requires form { IsInForm op }
        requires applied { IsApplied op }
        ensures applies { Applies result op self.old self.new }
        ensures free { result ≡ Err Refused.Memory → IsTrue (takes_memory op) }
    {
        match op {
            Op::Frame { width, height } => self.resize(width, height),
            Op::Buffer { name } => self.make(name),
            Op::Insert { buffer, pos, text } => self.insert(buffer.as_str(), pos, text.as_slice()),
            Op::InsertRaw { buffer, pos, bytes } => {
                self.insert_raw(buffer.as_str(), pos, bytes.as_slice())
            }
            Op::TypeText { text } => self.type_text(text.as_slice()),
            Op::Delete { buffer, from, to } => self.change_range(buffer.as_str(), from, to, true),
            Op::Narrow { buffer, from, to } => self.change_range(buffer.as_str(), from, to, false),
            Op::Widen { buffer } => self.widen(buffer.as_str()),
            Op::Put {
                buffer,
                from,
                to,
                kind,
                value,
            } => self.put(buffer.as_str(), from, to, kind, value),
            Op::Overlay {
                buffer,
                from,
                to,
                priority,
                front,
                rear,
            } => self.make_overlay(buffer.as_str(), from, to, priority, front, rear),
            Op::OverlayMove {
                buffer,
                overlay,
                from,
                to,
            } => self.move_overlay(buffer.as_str(), overlay, from, to),
            Op::OverlayDrop { buffer, overlay } => self.drop_overlay(buffer.as_str(), overlay),
            Op::OverlayPut {
                buffer,
                overlay,
                kind,
                value,
            } => self.put_on_overlay(buffer.as_str(), overlay, kind, value),
            Op::Setting { buffer, setting } => self.set(buffer.as_str(), setting),
            Op::AddString { text, runs } => self.add_string(text.as_slice(), runs.as_slice()),
            Op::AddSpec { spec } => self.add_spec(spec),
            Op::AddFace { face } => self.add_face(face),
            Op::AddTable {
                entries,
                truncation,
                continuation,
                escape,
                control,
                ellipsis,
                border,
            } => self.add_table(TableParts {
                entries,
                truncation,
                continuation,
                escape,
                control,
                ellipsis,
                border,
            }),
            Op::Split { window, side, size } => self.split(window, side, size),
            Op::Remove { window } => self.remove(window),
            Op::Select { window } => self.select(window),
            Op::Show { window, buffer } => self.show(window, buffer.as_str()),
            Op::Point { window, pos } => self.move_point(window, pos),
            Op::Start { window, pos, row } => self.start(window, pos, row),
            Op::Scroll { window, rows } => self.scroll(window, rows),
            Op::Hscroll { window, columns } => self.scroll_sideways(window, columns),
            Op::Wrap { window, mode } => self.wrap(window, mode),
            Op::ModeLine { window, format } => self.mode_line(window, format),
            Op::Scrolling {
                margin,
                conservatively,
            } => self.set_scrolling(margin, conservatively),
            Op::Echo { text } => self.show_echo(text),
            Op::Redisplay { .. } => unreachable!(),
            Op::Shift { on } => self.set_shifting(on),
            Op::Go { .. } => unreachable!(),
            Op::Hit { .. } => unreachable!(),
            Op::Margin {
                window,
                numbers,
                strings,
            } => self.set_margins(window, numbers, strings),
            Op::MarginPut {
                buffer,
                overlay,
                string,
            } => self.put_margin_string(buffer.as_str(), overlay, string),
        }
    }
}
