//! How far nothing changes.
ghost use Rattle.std.specs.Prelude.{◌<◌, ◌≤◌, []};
ghost use Rattle.rd_props.specs.Buffers.{meaning, values_of};
ghost use Rattle.rd_props.specs.Stops.{IsNextStop, IsLastStop, IsFirstChange, IsLastChange};

use crate::state::View;
use rd_base::Pos;
use rd_overlays::Overlays;
use rd_spans::Spans;

/// The first place behind a position where an overlay starts or ends, up to an end.
fn first_edge(overlays: &Overlays, pos: Pos, end: Pos) -> Pos
    requires { pos < end }
    ensures { IsFirstChange (values_of []) overlays.now end pos result }
{
    end.min(overlays.next_edge(pos).unwrap_or(end))
}

/// The first place behind a position where one of these properties changes or an overlay starts or ends, up to an end.
fn first_change(overlays: &Overlays, spans: &[Spans], pos: Pos, end: Pos) -> Pos
    requires { pos < end }
    ensures { IsFirstChange (values_of spans.now) overlays.now end pos result }
{
    let mut stop = first_edge(overlays, pos, end);
    let mut i = spans.len();
    while 0 < i {
        i -= 1;
        stop = stop.min(spans[i].next_change(pos).unwrap_or(stop));
    }
    stop
}

/// The least position behind an accessible one at which a text property has another value or an overlay starts or ends, and the
/// end of the accessible text where there is none before it. It costs a binary search in each of the five properties, and one more
/// for each further run up to there with the same value, as the place of the last edit can leave them; and the search of the
/// overlays for their next edge, which passes over the bounds of their batches and over the overlays of those batches alone that may
/// hold a nearer one.
pub fn next_stop(view: &View, pos: Pos) -> Pos
    requires first { view.now.state.now.text.begin ≤ pos }
    requires last { pos < view.now.state.now.text.end }
    ensures { IsNextStop (meaning view.now.state.now) pos result }
{
    let state = view.state;
    first_change(&state.overlays, &state.spans, pos, state.text.end())
}

/// The last place up to a position where an overlay starts or ends, from a beginning on.
fn last_edge(overlays: &Overlays, pos: Pos, begin: Pos) -> Pos
    requires { begin ≤ pos }
    ensures { IsLastChange (values_of []) overlays.now begin pos result }
{
    begin.max(overlays.last_edge(pos).unwrap_or(begin))
}

/// The last place up to a position where one of these properties changes from the place before or an overlay starts or ends, from a
/// beginning on.
fn last_change(overlays: &Overlays, spans: &[Spans], pos: Pos, begin: Pos) -> Pos
    requires { begin ≤ pos }
    ensures { IsLastChange (values_of spans.now) overlays.now begin pos result }
{
    let mut stop = last_edge(overlays, pos, begin);
    let mut i = spans.len();
    while 0 < i {
        i -= 1;
        stop = stop.max(spans[i].first_alike(pos));
    }
    stop
}

/// The greatest position up to an accessible one at which a text property has another value than right before it or an overlay
/// starts or ends, and the beginning of the accessible text where there is none behind it. It costs what `next_stop` costs, on the way
/// back.
pub fn last_stop(view: &View, pos: Pos) -> Pos
    requires first { view.now.state.now.text.begin ≤ pos }
    requires last { pos < view.now.state.now.text.end }
    ensures { IsLastStop (meaning view.now.state.now) pos result }
{
    let state = view.state;
    last_change(&state.overlays, &state.spans, pos, state.text.begin())
}
