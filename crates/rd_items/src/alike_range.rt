//! Ranges of text that is shown alike, so that properties are looked up once for all of it.
ghost use Rattle.std.specs.Prelude.{◌≡◌, ◌+◌, ◌<◌, ◌≤◌, suc, drop, IfOk};
ghost use Rattle.rd_text.specs.Texts.{IsAccessible};
ghost use Rattle.rd_props.specs.Buffers.{meaning};
ghost use Rattle.rd_items.specs.AlikeRanges.{IsAlikeRange, IsStopBehind};
ghost use Rattle.rd_items.specs.Readings.{showing_at, reading};
ghost use Rattle.rd_items.specs.Pieces.{run_length};

use crate::showing::{Showing, showing_at, showing_by};
use rd_base::{Memory, Pos};
use rd_props::{
    Appearance, View, appearance_at, last_stop, next_stop, nothing_changes_before_the_next_stop,
    nothing_changes_behind_the_last_stop,
};
use std::alloc::Global;

/// How the positions from `from` to `until - 1` are shown; no string stands before any of them but the first.
#[derive(Clone, Copy, Debug, PartialEq, Eq)]
pub struct AlikeRange {
    pub from: Pos,
    pub until: Pos,
    pub showing: Showing,
}

impl AlikeRange {
    ghost use Rattle.std.specs.Prelude.{◌≡◌, ◌<◌, ◌≤◌, OnOk};
    ghost use Rattle.rd_text.specs.Texts.{IsAccessible};
    ghost use Rattle.rd_props.specs.Buffers.{meaning};
    ghost use Rattle.rd_props.specs.Appearance.{appearance_at};
    ghost use Rattle.rd_items.specs.AlikeRanges.{holds, IsAlikeRange};

    /// The range from an accessible position, or from the end of the accessible text, that looks like this, up to where a property
    /// changes or an overlay starts or ends.
    pub fn of(view: &View, pos: Pos, appearance: &Appearance) -> AlikeRange
        requires place { IsAccessible view.now.state.now.text pos }
        requires appearance { appearance.now ≡ appearance_at (meaning view.now.state.now) view.now.objects.now pos }
        ensures first { result.from ≡ pos }
        ensures some { pos < result.until }
        ensures within { pos < view.now.state.now.text.end → result.until ≤ view.now.state.now.text.end }
        ensures shown { IsAlikeRange (meaning view.now.state.now) view.now.objects.now result }
    {
        nothing_changes_before_the_next_stop();
        let settings = view.settings();
        AlikeRange {
            from: pos,
            until: stop_behind(view, pos),
            showing: showing_by(&settings.invisible, appearance),
        }
    }

    /// Whether a position is one of these.
    fn holds(&self, pos: Pos) -> bool
        ensures { result ≡ holds self.now pos }
    {
        self.from <= pos && pos < self.until
    }

    /// Becomes the range from a position, unless that is one of its own.
    pub fn reach(&mut self, alloc: Global, view: &View, pos: Pos) -> Result<(), Memory>
        requires accessible { IsAccessible view.now.state.now.text pos }
        requires range { IsAlikeRange (meaning view.now.state.now) view.now.objects.now self.old }
        ensures from { OnOk result (self.new.from ≤ pos) }
        ensures until { OnOk result (pos < self.new.until) }
        ensures range { OnOk result (IsAlikeRange (meaning view.now.state.now) view.now.objects.now self.new) }
    {
        if self.holds(pos) {
            return Ok(());
        }
        *self = alike_range_at(alloc, view, pos)?;
        Ok(())
    }
}

/// The range from an accessible position, or from the end of the accessible text, up to where a property changes or an overlay
/// starts or ends.
pub fn alike_range_at(alloc: Global, view: &View, pos: Pos) -> Result<AlikeRange, Memory>
    requires { IsAccessible view.now.state.now.text pos }
    ensures first { IfOk result (λ range. range.from ≡ pos) }
    ensures some { IfOk result (λ range. pos < range.until) }
    ensures within { pos < view.now.state.now.text.end → IfOk result (λ range. range.until ≤ view.now.state.now.text.end) }
    ensures shown { IfOk result (λ range. IsAlikeRange (meaning view.now.state.now) view.now.objects.now range) }
{
    let appearance = appearance_at(alloc, view, pos)?;
    Ok(AlikeRange::of(view, pos, &appearance))
}

/// The range before a position behind the beginning of the accessible text, from where a property changes or an overlay starts or
/// ends up to that position, which is not one of its own.
pub fn alike_range_before(alloc: Global, view: &View, until: Pos) -> Result<AlikeRange, Memory>
    requires first { view.now.state.now.text.begin < until }
    requires last { until ≤ view.now.state.now.text.end }
    ensures within { IfOk result (λ range. view.now.state.now.text.begin ≤ range.from) }
    ensures some { IfOk result (λ range. range.from < until) }
    ensures last { IfOk result (λ range. range.until ≡ until) }
    ensures shown { IfOk result (λ range. IsAlikeRange (meaning view.now.state.now) view.now.objects.now range) }
{
    nothing_changes_behind_the_last_stop();
    let showing = showing_at(alloc, view, until - 1)?;
    Ok(AlikeRange {
        from: last_stop(view, until - 1),
        until,
        showing,
    })
}

/// Where the range from a position ends.
fn stop_behind(view: &View, pos: Pos) -> Pos
    requires { IsAccessible view.now.state.now.text pos }
    ensures { IsStopBehind (meaning view.now.state.now) pos result }
{
    let state = view.state;
    if pos < state.text.end() {
        next_stop(view, pos)
    } else {
        pos + 1
    }
}

/// The first position behind one that doesn't belong to its run. The range goes on to it, so that none is looked up twice.
pub fn run_end(
    alloc: Global,
    view: &View,
    range: &mut AlikeRange,
    pos: Pos,
    showing: &Showing,
) -> Result<Pos, Memory>
    requires accessible { IsAccessible view.now.state.now.text pos }
    requires showing { showing.now ≡ showing_at (meaning view.now.state.now) view.now.objects.now pos }
    requires range { IsAlikeRange (meaning view.now.state.now) view.now.objects.now range.old }
    ensures range { IfOk result (λ to. IsAlikeRange (meaning view.now.state.now) view.now.objects.now range.new) }
    ensures end { IfOk result (λ to. to ≡ suc pos + run_length view.now.state.now.settings.invisible showing.now (drop 1 (reading (meaning view.now.state.now) view.now.objects.now pos))) }
{
    let state = view.state;
    let end = state.text.end();
    let mut to = pos + 1;
    if showing.is_open() {
        return Ok(to);
    }
    while to < end {
        range.reach(alloc, view, to)?;
        if !showing.goes_on(&range.showing) {
            return Ok(to);
        }
        to = range.until;
    }
    Ok(to)
}
