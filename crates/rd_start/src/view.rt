//! Which rows of a strip suit as a window's start.
ghost use Rattle.std.specs.Prelude.{◌≡◌, ◌+◌, ◌<◌, ◌^◌, true, false, length, IfOk, IfSome};
ghost use Rattle.rd_start.specs.Chosen.{places_of};
ghost use Rattle.rd_start.specs.Starts.{both_at, is_inside, suits};
ghost use Rattle.rd_start.specs.Strips.{IsLaidOut, IsStrip, IsUnsuited, BeginsAbove, Finds, FindsNear, Reaches, ShowsPoint, count_in, first_row, hides_edge, row_at, wanted_at};

use crate::strip::Edge;
use crate::wanted::margin_of;
use crate::window::Window;
use rd_base::Memory;
use rd_matrix::BlockSource;
use std::alloc::Global;

/// Whether a row is one of those in view from a start on, at least so many below the first and so many above the last.
pub fn is_inside(height: usize, above: usize, below: usize, start: usize, row: usize) -> bool
    requires start { start + height < 2 ^ 64 }
    requires above { start + above < 2 ^ 64 }
    requires below { row + below + 1 < 2 ^ 64 }
    ensures { result ≡ is_inside height above below start row }
{
    start + above <= row && row + below < start + height
}

/// Whether the view that starts with a row of a window's strip does not have the strip's row at an edge: its first, or its last one.
fn hides_edge(window: &Window, start: usize, edge: Edge) -> bool
    requires { start < length window.now.strip.strip_rows.items }
    ensures { result ≡ hides_edge edge window.now.wanted window.now.strip start }
{
    match edge {
        Edge::Top => start > 0,
        Edge::Bottom => start + (window.wanted.height as usize) < window.strip.count(),
    }
}

/// The rows that are wanted between point's and an edge of the view that starts with a row of a window's strip, where the strip reaches
/// the view's end.
fn wanted_at<B: BlockSource>(
    alloc: Global,
    source: &mut B,
    window: &Window,
    start: usize,
    edge: Edge,
) -> Result<usize, Memory>
    requires strip { IsStrip (B.meaning source.old) window.now.strip }
    requires start { start < length window.now.strip.strip_rows.items }
    requires reached { Reaches (B.meaning source.old) window.now.strip (start + window.now.wanted.height) }
    ensures stays { B.meaning source.new ≡ B.meaning source.old }
    ensures value { IfOk result (λ rows. rows ≡ wanted_at edge window.now.wanted (count_in (B.meaning source.old) window.now.strip.sweep (B.meaning source.old).blocks) (first_row (B.meaning source.old) window.now.strip + start)) }
{
    let margin = margin_of(window.wanted) as usize;
    let hidden = hides_edge(window, start, edge);
    if margin == 0 || hidden {
        return Ok(margin);
    }
    match window.strip.beyond(alloc, source, edge)? {
        None => Ok(0),
        Some(_) => Ok(margin),
    }
}

/// Whether a row of a window's strip suits as the start, where the strip reaches the end of the view from there and has point's row.
fn suits<B: BlockSource>(
    alloc: Global,
    source: &mut B,
    window: &Window,
    row: usize,
    start: usize,
) -> Result<bool, Memory>
    requires shows { ShowsPoint (B.meaning source.old) window.now row }
    requires reached { Reaches (B.meaning source.old) window.now.strip (start + window.now.wanted.height) }
    ensures stays { B.meaning source.new ≡ B.meaning source.old }
    ensures value { IfOk result (λ fits. fits ≡ suits window.now.wanted (places_of (B.meaning source.old) window.now.strip.sweep.shape window.now.wanted) (first_row (B.meaning source.old) window.now.strip + start)) }
    ensures inside { IfOk result (λ fits. fits ≡ true → start < length window.now.strip.strip_rows.items) }
{
    if start >= window.strip.count() {
        return Ok(false);
    }
    let above = wanted_at(alloc, source, window, start, Edge::Top)?;
    let below = wanted_at(alloc, source, window, start, Edge::Bottom)?;
    Ok(is_inside(window.wanted.height as usize, above, below, start, row))
}

/// Whether the anchor's row suits as the start, where the strip reaches the end of the view from there.
pub(crate) fn home_suits<B: BlockSource>(
    alloc: Global,
    source: &mut B,
    window: &Window,
) -> Result<bool, Memory>
    requires laid { IsLaidOut (B.meaning source.old) window.now false }
    requires reached { Reaches (B.meaning source.old) window.now.strip (window.now.strip.home + window.now.wanted.height) }
    ensures stays { B.meaning source.new ≡ B.meaning source.old }
    ensures value { IfOk result (λ fits. fits ≡ suits window.now.wanted (places_of (B.meaning source.old) window.now.strip.sweep.shape window.now.wanted) (first_row (B.meaning source.old) window.now.strip + window.now.strip.home)) }
{
    match window.strip.point_row() {
        None => Ok(false),
        Some(row) => suits(alloc, source, window, row, window.strip.home()),
    }
}

/// The row at a place of a window's strip, where there is one and it suits as the start.
fn suiting<B: BlockSource>(
    alloc: Global,
    source: &mut B,
    window: &Window,
    row: usize,
    place: Option<usize>,
) -> Result<Option<usize>, Memory>
    requires shows { ShowsPoint (B.meaning source.old) window.now row }
    requires reached { IfSome place (λ start. Reaches (B.meaning source.old) window.now.strip (start + window.now.wanted.height)) }
    ensures stays { B.meaning source.new ≡ B.meaning source.old }
    ensures value { IfOk result (λ found. Finds (B.meaning source.old) window.now found
        (row_at (first_row (B.meaning source.old) window.now.strip) place)) }
    ensures inside { IfOk result (λ found. IfSome found (λ place. place < length window.now.strip.strip_rows.items)) }
{
    let Some(start) = place else {
        return Ok(None);
    };
    if suits(alloc, source, window, row, start)? {
        return Ok(Some(start));
    }
    Ok(None)
}

/// The first of the two rows at a distance from the anchor's that suits as the start, the lesser one first.
fn suiting_at<B: BlockSource>(
    alloc: Global,
    source: &mut B,
    window: &Window,
    row: usize,
    far: usize,
) -> Result<Option<usize>, Memory>
    requires shows { ShowsPoint (B.meaning source.old) window.now row }
    requires small { far < 2 ^ 32 }
    requires above { BeginsAbove (B.meaning source.old) window.now.strip far }
    requires reached { Reaches (B.meaning source.old) window.now.strip (window.now.strip.home + far + window.now.wanted.height) }
    ensures stays { B.meaning source.new ≡ B.meaning source.old }
    ensures value { IfOk result (λ found. Finds (B.meaning source.old) window.now found
        (both_at (first_row (B.meaning source.old) window.now.strip + window.now.strip.home) far)) }
    ensures inside { IfOk result (λ found. IfSome found (λ place. place < length window.now.strip.strip_rows.items)) }
{
    let home = window.strip.home();
    match suiting(alloc, source, window, row, home.checked_sub(far))? {
        Some(start) => Ok(Some(start)),
        None => suiting(alloc, source, window, row, Some(home + far)),
    }
}

/// The row nearest to the anchor's that suits as the start, the lesser first where two are equally near, and at most as far as the
/// start may be moved. The anchor's row does not suit, and the strip reaches the end of the view from each of these rows.
pub(crate) fn nearest<B: BlockSource>(
    alloc: Global,
    source: &mut B,
    window: &Window,
) -> Result<Option<usize>, Memory>
    requires moves { IsUnsuited (B.meaning source.old) window.now }
    requires above { BeginsAbove (B.meaning source.old) window.now.strip window.now.wanted.conservatively }
    requires below { Reaches (B.meaning source.old) window.now.strip (window.now.strip.home + window.now.wanted.conservatively + window.now.wanted.height + 1) }
    ensures stays { B.meaning source.new ≡ B.meaning source.old }
    ensures value { IfOk result (λ start. FindsNear (B.meaning source.old) window.now start) }
    ensures inside { IfOk result (λ start. IfSome start (λ place. place < length window.now.strip.strip_rows.items)) }
{
    let Some(row) = window.strip.point_row() else {
        return Ok(None);
    };
    for step in 0..window.wanted.conservatively as usize {
        let found = suiting_at(alloc, source, window, row, step + 1)?;
        if let Some(start) = found {
            return Ok(Some(start));
        }
    }
    Ok(None)
}
