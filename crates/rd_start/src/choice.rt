//! The choice of a window's start.
ghost use Rattle.std.specs.Prelude.{◌≡◌, ℕ, ◌+◌, ◌-◌, ◌*◌, ◌<◌, ◌≤◌, Bool, true, false, length, take, drop, MatchResult, IfOk};
ghost use Rattle.rd_matrix.specs.Blocks.{IsWithin};
ghost use Rattle.rd_matrix.specs.Entries.{all_rows};
ghost use Rattle.rd_matrix.specs.Sources.{SourceValues, IsSource};
ghost use Rattle.rd_start.specs.Chosen.{anchor_at, chosen_of, forced_point};
ghost use Rattle.rd_start.specs.Near.{near_costs};
ghost use Rattle.rd_start.specs.Strips.{Affords, IsStrip, IsLaidOut, IsUnsuited, IsPaid, Between, Reaches, all_costs, centred_chosen, first_row, point_row, rows_in, window_chosen};

use crate::strip::{Edge, PointSide, Strip, Sweep};
use crate::view::{home_suits, nearest};
use crate::wanted::{Chosen, Wanted};
use crate::window::Window;
use rd_base::{Anchor, Memory, Pos, Steps};
use rd_matrix::BlockSource;
use rd_rows::Shape;
use std::alloc::Global;
use std::sync::ledger::Ledger;

/// Chooses the start of a window, and its point, by the rows that the blocks of a source have at a shape. The anchor's row is that of
/// its block, held to the block's last, and the block's first where the anchor is not its start.
///
/// A forced start is the anchor's row, scrolled by the rows that are pending and held to the rows that there are. Point stays where
/// its row is in view. Else it moves to the least position that the first item covers, in order of position, which begins in view
/// and covers a position, or the last such item where its row is below the view; where there is no such item it stays.
///
/// A start that is not forced stays where it suits: where point's row is in view, at least the margin away from the view's first and
/// last rows, held to a quarter of the height; no row is wanted above it where the view starts with the first row, and none below where
/// it has the last one. If it does not suit it moves to the nearest row that does, the lesser one where two are equally near, and at
/// most `conservatively` rows away. If there is none, point's row comes to the middle: the start is half the height above it.
///
/// The anchor and point are positions of the source's blocks, and the height is at least 1. The one error is want of memory, behind
/// which the source is to be made anew. The steps that it takes, also where memory is wanting, are at most twice the costs of the
/// blocks that have a row near the window; of other blocks it asks for no rows.
pub fn choose<B: BlockSource, L: Ledger>(
    alloc: Global,
    source: &mut B,
    wanted: Wanted,
    shape: Shape,
    steps: &mut Steps<L>,
) -> Result<Chosen, Memory>
    requires anchor { IsWithin wanted.anchor.pos (B.meaning source.old).blocks }
    requires point { IsWithin wanted.point (B.meaning source.old).blocks }
    requires height { 1 ≤ wanted.height }
    ensures value { IfOk result (λ chosen. chosen ≡ chosen_of (B.meaning source.old) shape wanted) }
    ensures steps { steps.new ≤ steps.old + 2 * near_costs (B.meaning source.old) shape wanted }
    ensures source { IsSource (B.meaning source.old) }
    ensures stays { B.meaning source.new ≡ B.meaning source.old }
{
    let sweep = Sweep {
        anchor: wanted.anchor,
        point: wanted.point,
        shape,
    };
    let strip = Strip::around(alloc, source, sweep, steps)?;
    let window = Window { wanted, strip };
    if wanted.forced {
        return forced(alloc, source, window, steps);
    }
    following(alloc, source, window, steps)
}

/// The start and the point of a window whose start is forced.
fn forced<B: BlockSource, L: Ledger>(
    alloc: Global,
    source: &mut B,
    window: Window,
    steps: &mut Steps<L>,
) -> Result<Chosen, Memory>
    requires { IsLaidOut (B.meaning source.old) window true }
    ensures value { IfOk result (λ chosen. chosen ≡ window_chosen (B.meaning source.old) window) }
    ensures steps { Affords 1 (B.meaning source.old) window.strip.sweep.shape window.wanted window.strip steps.old steps.new }
    ensures stays { B.meaning source.new ≡ B.meaning source.old }
{
    let mut window = window;
    let start = window.strip.scroll(alloc, source, window.wanted, steps)?;
    let end = start + window.wanted.height as usize;
    window.strip.reach(alloc, source, Edge::Bottom, end, steps)?;
    Ok(Chosen {
        anchor: window.strip.anchor(start),
        point: forced_point(&window, start),
    })
}

/// Point where a row of a strip is a forced start, and the strip reaches the end of the view from there.
fn forced_point(window: &Window, start: usize) -> Pos
    requires strip { (m : SourceValues) × IsStrip m window.now.strip }
    requires start { start < length window.now.strip.strip_rows.items }
    ensures { (m : SourceValues) → IsStrip m window.now.strip → Reaches m window.now.strip (start + window.now.wanted.height)
        → result ≡ forced_point window.now.wanted (first_row m window.now.strip + start) (point_row m window.now.strip.sweep)
        (take window.now.wanted.height (drop (first_row m window.now.strip + start) (all_rows (rows_in m window.now.strip.sweep) m.blocks))) }
{
    let end = (start + window.wanted.height as usize).min(window.strip.count());
    let side = window.strip.side_of_point(start, end);
    match window.strip.span(start, end) {
        None => window.wanted.point,
        Some(span) => match side {
            PointSide::Above => span.first as Pos,
            PointSide::Within => window.wanted.point,
            PointSide::Below => span.last as Pos,
        },
    }
}

/// The start of a window that follows point.
fn following<B: BlockSource, L: Ledger>(
    alloc: Global,
    source: &mut B,
    window: Window,
    steps: &mut Steps<L>,
) -> Result<Chosen, Memory>
    requires { IsLaidOut (B.meaning source.old) window false }
    ensures value { IfOk result (λ chosen. chosen ≡ window_chosen (B.meaning source.old) window) }
    ensures steps { Affords 2 (B.meaning source.old) window.strip.sweep.shape window.wanted window.strip steps.old steps.new }
    ensures stays { B.meaning source.new ≡ B.meaning source.old }
{
    let mut window = window;
    let end = window.strip.home() + window.wanted.height as usize;
    window.strip.reach(alloc, source, Edge::Bottom, end, steps)?;
    if home_suits(alloc, source, &window)? {
        return Ok(starting_at(&window, window.strip.home()));
    }
    moving(alloc, source, window, steps)
}

/// The start of a window whose old start does not suit.
fn moving<B: BlockSource, L: Ledger>(
    alloc: Global,
    source: &mut B,
    window: Window,
    steps: &mut Steps<L>,
) -> Result<Chosen, Memory>
    requires { IsUnsuited (B.meaning source.old) window }
    ensures value { IfOk result (λ chosen. chosen ≡ window_chosen (B.meaning source.old) window) }
    ensures steps { Affords 2 (B.meaning source.old) window.strip.sweep.shape window.wanted window.strip steps.old steps.new }
    ensures stays { B.meaning source.new ≡ B.meaning source.old }
{
    let mut window = window;
    let far = window.wanted.conservatively as usize;
    window.strip.reach(alloc, source, Edge::Top, far, steps)?;
    let end = window.strip.home() + far + window.wanted.height as usize;
    window
        .strip
        .reach(alloc, source, Edge::Bottom, end + 1, steps)?;
    match nearest(alloc, source, &window)? {
        Some(start) => Ok(starting_at(&window, start)),
        None => centred(alloc, source, window, steps),
    }
}

/// The start that brings point's row to the middle.
fn centred<B: BlockSource, L: Ledger>(
    alloc: Global,
    source: &mut B,
    window: Window,
    steps: &mut Steps<L>,
) -> Result<Chosen, Memory>
    requires strip { IsStrip (B.meaning source.old) window.strip }
    requires point { window.strip.sweep.point ≡ window.wanted.point }
    ensures value { IfOk result (λ chosen. chosen ≡ centred_chosen (B.meaning source.old) window.strip.sweep.shape window.wanted) }
    ensures steps { (kind : ℕ → Bool) (base : ℕ) → IsPaid kind base (B.meaning source.old) window.strip steps.old
        → Between kind (point_row (B.meaning source.old) window.strip.sweep - window.wanted.height) (point_row (B.meaning source.old) window.strip.sweep + 1)
        → steps.new ≤ base + 2 * all_costs kind (B.meaning source.old) window.strip.sweep }
    ensures stays { B.meaning source.new ≡ B.meaning source.old }
{
    let wanted = window.wanted;
    let (strip, row) = with_point(alloc, source, window.strip, steps)?;
    let mut window = Window { wanted, strip };
    let half = wanted.height as usize / 2;
    let home = window.strip.home();
    let above = (home + half).saturating_sub(row);
    window.strip.reach(alloc, source, Edge::Top, above, steps)?;
    let row = row + (window.strip.home() - home);
    Ok(starting_at(&window, row.saturating_sub(half)))
}

/// A strip that has point's row, and the place of that row: this strip, or one round point's block.
fn with_point<B: BlockSource, L: Ledger>(
    alloc: Global,
    source: &mut B,
    strip: Strip,
    steps: &mut Steps<L>,
) -> Result<(Strip, usize), Memory>
    requires strip { IsStrip (B.meaning source.old) strip }
    ensures strip { IfOk result (λ found. IsStrip (B.meaning source.old) found.0
        × (found.0.sweep.point ≡ strip.sweep.point) × (found.0.sweep.shape ≡ strip.sweep.shape)) }
    ensures place { IfOk result (λ found. (found.1 < length found.0.strip_rows.items)
        × (first_row (B.meaning source.old) found.0 + found.1 ≡ point_row (B.meaning source.old) found.0.sweep)) }
    ensures paid { (kind : ℕ → Bool) (base : ℕ) → IsPaid kind base (B.meaning source.old) strip steps.old
        → kind (point_row (B.meaning source.old) strip.sweep) ≡ true
        → MatchResult result
        (λ found. IsPaid kind (base + all_costs kind (B.meaning source.old) strip.sweep) (B.meaning source.old) found.0 steps.new)
        (λ _. steps.new ≤ base + 2 * all_costs kind (B.meaning source.old) strip.sweep) }
    ensures stays { B.meaning source.new ≡ B.meaning source.old }
{
    if let Some(row) = strip.point_row() {
        return Ok((strip, row));
    }
    let sweep = strip.sweep();
    let anchor = Anchor {
        pos: sweep.point,
        row: 0,
    };
    let found = Strip::around(alloc, source, Sweep { anchor, ..sweep }, steps)?;
    match found.point_row() {
        Some(row) => Ok((found, row)),
        None => unreachable!(),
    }
}

/// The choice of the row at a place of a window's strip; point stays.
fn starting_at(window: &Window, place: usize) -> Chosen
    requires { place < length window.now.strip.strip_rows.items }
    ensures { (m : SourceValues) → IsStrip m window.now.strip → result ≡ record { anchor = anchor_at (all_rows (rows_in m window.now.strip.sweep) m.blocks) (first_row m window.now.strip + place); point = window.now.wanted.point } }
{
    Chosen {
        anchor: window.strip.anchor(place),
        point: window.wanted.point,
    }
}
