//! The ops on one window's view, as methods of `StateParts`: what it shows, from where on, and how long lines are cut.
ghost use Rattle.std.specs.Prelude.{◌≡◌, ◌≢◌, ◌<◌, Err, IfOk, IfErr, OnOk, IsSome, Some, is_ok, length, option_map, slice_get};
ghost use Rattle.rd_script.specs.declared.op.Op.TheVariants.{Select, Show, Point, Start, Scroll, Hscroll, Wrap as SetWrap};
ghost use Rattle.rd_script.specs.Forms.{IsInForm};
ghost use Rattle.rd_state.specs.declared.refused.Refused.TheVariants.{OutOfRange};
ghost use Rattle.rd_state.specs.States.{BufferValue, buffers_of};
ghost use Rattle.rd_state.specs.Answers.{Applies};
ghost use Rattle.rd_state.specs.Edits.{is_accessible};
ghost use Rattle.rd_state.specs.Steps.{held, placing, setting, settled};
ghost use Rattle.rd_state.specs.Valid.{IsValid};
ghost use Rattle.rd_state.specs.declared.window.WindowState.{WindowState};
ghost use Rattle.rd_state.specs.Windows.{place_in, window_of};

use crate::buffers::{self, Buffers, text_at};
use crate::effect::Effect;
use crate::numbered::under;
use crate::parts::StateParts;
use crate::refused::Refused;
use crate::window::WindowState;
use crate::windows::find;
use rd_base::limits::PENDING_ROWS;
use rd_base::{Anchor, Pos, Wrap};

/// How many rows may wait to be scrolled, up or down.
const MOST_PENDING: i64 = PENDING_ROWS as i64;

impl StateParts {
    /// Selects a window.
    #[tactic(auto, unfolding(crate::specs::Steps::step, crate::specs::Effects::effect_of))]
    pub(crate) fn select(&mut self, window: u64) -> Result<Effect, Refused>
        ensures applies { Applies result (Select window) self.old self.new }
        ensures free { result ≢ Err Refused.Memory }
    {
        let i = find(self.windows.as_slice(), window)?;
        self.selected = self.windows[i].0;
        Ok(Effect::Nothing)
    }

    /// Shows a buffer in a window, from its accessible beginning.
    #[tactic(auto, unfolding(crate::specs::Steps::step, crate::specs::Effects::effect_of))]
    pub(crate) fn show(&mut self, window: u64, name: &str) -> Result<Effect, Refused>
        requires valid { IsValid self.old }
        ensures applies { Applies result (Show window name.now) self.old self.new }
        ensures free { result ≢ Err Refused.Memory }
    {
        let i = find(self.windows.as_slice(), window)?;
        let buffer = buffers::find(&self.buffers, name)?;
        let begin = text_at(&self.buffers, buffer).begin();
        let shown = &mut self.windows[i];
        shown.1.buffer = buffer as u32;
        shown.1.point = begin;
        shown.1.anchor = Anchor { pos: begin, row: 0 };
        shown.1.forced = false;
        shown.1.pending = 0;
        Ok(Effect::Window(shown.0))
    }

    /// Moves a window's point.
    #[tactic(auto, unfolding(crate::specs::Steps::step, crate::specs::Effects::effect_of))]
    pub(crate) fn move_point(&mut self, window: u64, pos: u64) -> Result<Effect, Refused>
        requires valid { IsValid self.old }
        ensures applies { Applies result (Point window pos) self.old self.new }
        ensures free { result ≢ Err Refused.Memory }
    {
        let (i, point) = self.find_place(window, pos)?;
        self.windows[i].1.point = point;
        Ok(Effect::Nothing)
    }

    /// Forces a window's start: sets its anchor, and no rows are pending then.
    #[tactic(auto, unfolding(crate::specs::Steps::step, crate::specs::Effects::effect_of))]
    pub(crate) fn start(&mut self, window: u64, pos: u64, row: u32) -> Result<Effect, Refused>
        requires valid { IsValid self.old }
        ensures applies { Applies result (Start window pos row) self.old self.new }
        ensures free { result ≢ Err Refused.Memory }
    {
        let (i, pos) = self.find_place(window, pos)?;
        let view = &mut self.windows[i].1;
        view.anchor = Anchor { pos, row };
        view.forced = true;
        view.pending = 0;
        Ok(Effect::Nothing)
    }

    /// The place of a window, counted from 0, and a position in 32 bits, which is accessible in the buffer that the window shows. It is
    /// refused where the window does not live, or the position is not accessible there.
    fn find_place(&self, window: u64, pos: u64) -> Result<(usize, Pos), Refused>
        requires valid { IsValid self.now }
        ensures place { IfOk result (λ at. at.0 ≡ place_in window self.now.windows) }
        ensures inside { IfOk result (λ at. at.0 < length self.now.windows) }
        ensures same { IfOk result (λ at. at.1 ≡ pos) }
        ensures placed { OnOk result ((f : WindowState → WindowState) → placing self.now window pos f ≡ setting self.now window f) }
        ensures refused { IfErr result (λ e. (f : WindowState → WindowState) → placing self.now window pos f ≡ Err e) }
        ensures free { result ≢ Err Refused.Memory }
    {
        let i = find(self.windows.as_slice(), window)?;
        let place = accessible(&self.buffers, self.windows[i].1.buffer as usize, pos)?;
        Ok((i, place))
    }

    /// Scrolls a window by so many rows.
    #[tactic(auto, unfolding(crate::specs::Steps::step, crate::specs::Effects::effect_of))]
    pub(crate) fn scroll(&mut self, window: u64, rows: i64) -> Result<Effect, Refused>
        requires valid { IsValid self.old }
        requires form { IsInForm (Scroll window rows) }
        ensures applies { Applies result (Scroll window rows) self.old self.new }
        ensures free { result ≢ Err Refused.Memory }
    {
        let i = find(self.windows.as_slice(), window)?;
        let view = &mut self.windows[i].1;
        view.forced = true;
        view.pending = held(view.pending + rows);
        Ok(Effect::Nothing)
    }

    /// Scrolls a window sideways.
    #[tactic(auto, unfolding(crate::specs::Steps::step, crate::specs::Effects::effect_of))]
    pub(crate) fn scroll_sideways(&mut self, window: u64, columns: u32) -> Result<Effect, Refused>
        ensures applies { Applies result (Hscroll window columns) self.old self.new }
        ensures free { result ≢ Err Refused.Memory }
    {
        let i = find(self.windows.as_slice(), window)?;
        self.windows[i].1.hscroll = columns;
        Ok(Effect::Nothing)
    }

    /// Says what becomes of a window's lines that are longer than a row.
    #[tactic(auto, unfolding(crate::specs::Steps::step, crate::specs::Effects::effect_of))]
    pub(crate) fn wrap(&mut self, window: u64, mode: Wrap) -> Result<Effect, Refused>
        ensures applies { Applies result (SetWrap window mode) self.old self.new }
        ensures free { result ≢ Err Refused.Memory }
    {
        let i = find(self.windows.as_slice(), window)?;
        self.windows[i].1.wrap = mode;
        Ok(Effect::Nothing)
    }

    /// The window with a number; None exactly where it does not live.
    pub(crate) fn window(&self, number: u32) -> Option<&WindowState>
        ensures { option_map (λ w. w.now) result ≡ window_of number self.now.windows }
    {
        under(self.windows.as_slice(), number)
    }

    /// Sets the anchor and the point of a window that lives, as a layout found them; no rows are pending then, and the start is not forced.
    pub(crate) fn settle(&mut self, window: u32, anchor: Anchor, point: Pos)
        requires live { IsSome (window_of window self.old.windows) }
        ensures { self.new ≡ settled self.old window anchor point }
    {
        if let Ok(i) = find(self.windows.as_slice(), window as u64) {
            let view = &mut self.windows[i].1;
            view.anchor = anchor;
            view.point = point;
            view.forced = false;
            view.pending = 0;
        }
    }
}

/// The pending rows, which wait to be scrolled: at most 1,000,000,000 up or down.
fn held(rows: i64) -> i64
    ensures { result ≡ held rows }
{
    rows.min(MOST_PENDING).max(-MOST_PENDING)
}

/// A position in the text of the buffer with a number, which is refused where it is not accessible there.
fn accessible(buffers: &Buffers, i: usize, pos: u64) -> Result<Pos, Refused>
    requires { i < length (buffers_of buffers.now.entries) }
    ensures same { IfOk result (λ place. place ≡ pos) }
    ensures exact { (b : BufferValue) × (slice_get (buffers_of buffers.now.entries) i ≡ Some b) × (is_accessible b.content.text pos ≡ is_ok result) }
    ensures refused { IfErr result (λ e. e ≡ OutOfRange) }
{
    let text = text_at(buffers, i);
    if pos < text.begin() as u64 || (text.end() as u64) < pos {
        return Err(Refused::OutOfRange);
    }
    Ok(pos as u32)
}
