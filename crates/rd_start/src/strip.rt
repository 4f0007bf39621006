//! A strip of rows, laid out block by block.
ghost use Rattle.std.specs.Prelude.{◌≡◌, ◌-◌, ◌==◌, if◌then◌else◌, min};
ghost use Rattle.std.specs.List.{list_any};
ghost use Rattle.rd_matrix.specs.Columns.{covers};
ghost use Rattle.rd_start.specs.Strips.{strip_row_of};

use crate::span::{Span, span_of, span_of_both};
use crate::wanted::Wanted;
use rd_base::{Anchor, Memory, Pos, Steps};
use rd_matrix::{Block, BlockSource, covers};
use rd_rows::{Begin, Row, Shape};
use std::alloc::Global;
use std::collections::VecDeque;
use std::sync::ledger::Ledger;

/// From where rows are laid out, up and down: the block that holds the anchor's position. `point` is the position whose row is
/// looked for among them.
#[derive(Clone, Copy)]
pub(crate) struct Sweep {
    pub(crate) anchor: Anchor,
    pub(crate) point: Pos,
    pub(crate) shape: Shape,
}

/// What is kept of a row: the start of its block, its number there, whether an item that covers point begins in it, and the least
/// and the greatest of the positions at which the items begin that begin in it and cover a position.
#[derive(Clone, Copy)]
pub(crate) struct StripRow {
    start: Pos,
    number: u32,
    has_point: bool,
    span: Option<Span>,
}

/// The rows of blocks that stand one behind the other. Places in it count from its first row; `home` is that of the anchor's row.
#[derive(Drop)]
pub(crate) struct Strip {
    sweep: Sweep,
    blocks: VecDeque<Block>,
    strip_rows: VecDeque<StripRow>,
    home: usize,
}

/// An edge of rows that stand one below the other: above the first of them, or below the last.
#[derive(Clone, Copy)]
pub(crate) enum Edge {
    Top,
    Bottom,
}

/// Where point's row is, as seen from rows in view.
#[derive(Clone, Copy)]
pub(crate) enum PointSide {
    Above,
    Within,
    Below,
}

/// What is kept of a row of a block.
fn strip_row_of(point: Pos, start: Pos, number: u32, row: &Row) -> StripRow
    ensures { result ≡ strip_row_of point (record { start = start; number = number; row = row.now.shown }) }
{
    StripRow {
        start,
        number,
        has_point: has_point(point, start, row.begins()),
        span: span_of(start, row.begins()),
    }
}

/// Whether an item that covers a position is among those that begin in a row.
fn has_point(point: Pos, start: Pos, begins: &[Begin]) -> bool
    ensures { result ≡ list_any (covers start point) begins.now }
{
    begins.iter().any(|begin| covers(begin, start, point))
}

impl Strip {
    ghost use Rattle.std.specs.Prelude.{◌≡◌, ℕ, ◌+◌, ◌-◌, ◌^◌, ◌<◌, ◌≤◌, min, max, Bool, length, take, drop, MatchResult, OnOk, IfOk, slice_get, Some};
    ghost use Rattle.std.specs.List.{position};
    ghost use Rattle.rd_matrix.specs.Blocks.{IsWithin};
    ghost use Rattle.rd_matrix.specs.Entries.{all_rows};
    ghost use Rattle.rd_matrix.specs.Sources.{SourceValues, IsSource};
    ghost use Rattle.rd_rows.specs.Copies.{shown_rows};
    ghost use Rattle.rd_start.specs.Chosen.{anchor_at, first_positions};
    ghost use Rattle.rd_start.specs.Strips.{IsStrip, IsPaid, IsAsked, PaysOn, HasPoint, IsPushed, IsBeyond, GrowsAt, ReachesAt, AsksAt, Between, extent, rows_in, home_row, first_row, moved_row, side_in, all_costs, span_of};
    ghost use Rattle.rd_start.specs.declared.strip.Edge.TheVariants.{Bottom, Top};
    ghost use Rattle.rd_start.specs.declared.strip.StripRow.{StripRow};

    /// What the strip was swept for.
    pub(crate) fn sweep(&self) -> Sweep
        ensures { result ≡ self.now.sweep }
    {
        self.sweep
    }

    /// The place of the anchor's row.
    pub(crate) fn home(&self) -> usize
        ensures { result ≡ self.now.home }
    {
        self.home
    }

    /// How many rows the strip has.
    pub(crate) fn count(&self) -> usize
        ensures value { result ≡ length self.now.strip_rows.items }
        ensures bound { result < 2 ^ 63 }
    {
        self.strip_rows.len()
    }

    /// The first of the blocks whose rows the strip has.
    pub(crate) fn first(&self) -> Block
        requires { 0 < length self.now.blocks.items }
        ensures { slice_get self.now.blocks.items 0 ≡ Some result }
    {
        self.blocks[0]
    }

    /// The last of the blocks whose rows the strip has.
    pub(crate) fn last(&self) -> Block
        requires { 0 < length self.now.blocks.items }
        ensures { slice_get self.now.blocks.items (length self.now.blocks.items - 1) ≡ Some result }
    {
        self.blocks[self.blocks.len() - 1]
    }

    /// A strip of the rows of the block that holds its anchor's position. It takes no more steps than these rows cost.
    pub(crate) fn around<B: BlockSource, L: Ledger>(
        alloc: Global,
        source: &mut B,
        sweep: Sweep,
        steps: &mut Steps<L>,
    ) -> Result<Strip, Memory>
        requires anchor { IsWithin sweep.anchor.pos (B.meaning source.old).blocks }
        requires point { IsWithin sweep.point (B.meaning source.old).blocks }
        ensures stays { B.meaning source.new ≡ B.meaning source.old }
        ensures source { IsSource (B.meaning source.old) }
        ensures strip { IfOk result (λ strip. IsStrip (B.meaning source.old) strip × (strip.sweep ≡ sweep)) }
        ensures point { IfOk result (λ strip. sweep.anchor.pos ≡ sweep.point → HasPoint (B.meaning source.old) strip) }
        ensures paid { (kind : ℕ → Bool) → IsAsked kind (B.meaning source.old) sweep
            → MatchResult result (λ strip. IsPaid kind steps.old (B.meaning source.old) strip steps.new)
            (λ _. steps.new ≤ steps.old + all_costs kind (B.meaning source.old) sweep) }
    {
        let block = source.block_of(alloc, sweep.anchor.pos)?;
        let rows = source.rows(alloc, &block, sweep.shape, steps)?;
        let mut strip = Strip {
            sweep,
            blocks: VecDeque::new(alloc),
            strip_rows: VecDeque::new(alloc),
            home: row_in_block(sweep.anchor, block.start, rows.len()),
        };
        strip.push_below(block, rows.as_slice())?;
        Ok(strip)
    }

    /// Adds a block below the others, and its rows.
    fn push_below(&mut self, block: Block, rows: &[Row]) -> Result<(), Memory>
        requires { length rows.now < 2 ^ 32 }
        ensures { OnOk result (IsPushed Bottom self.old self.new block (shown_rows rows.now)) }
    {
        for number in 0..rows.len() {
            let row = strip_row_of(self.sweep.point, block.start, number as u32, &rows[number]);
            self.strip_rows.push_back(row)?;
        }
        self.blocks.push_back(block)?;
        Ok(())
    }

    /// Adds a block above the others, and its rows.
    fn push_above(&mut self, block: Block, rows: &[Row]) -> Result<(), Memory>
        requires few { length rows.now < 2 ^ 32 }
        requires home { self.old.home < length self.old.strip_rows.items }
        ensures { OnOk result (IsPushed Top self.old self.new block (shown_rows rows.now)) }
    {
        let mut number = rows.len();
        while number > 0 {
            number -= 1;
            let row = strip_row_of(self.sweep.point, block.start, number as u32, &rows[number]);
            self.strip_rows.push_front(row)?;
        }
        self.home += rows.len();
        self.blocks.push_front(block)?;
        Ok(())
    }

    /// Adds a block at an edge, and its rows.
    fn push(&mut self, edge: Edge, block: Block, rows: &[Row]) -> Result<(), Memory>
        requires few { length rows.now < 2 ^ 32 }
        requires home { self.old.home < length self.old.strip_rows.items }
        ensures { OnOk result (IsPushed edge self.old self.new block (shown_rows rows.now)) }
    {
        match edge {
            Edge::Top => self.push_above(block, rows),
            Edge::Bottom => self.push_below(block, rows),
        }
    }

    /// How far the strip reaches at an edge: at the top, how many rows stand above the anchor's; at the bottom, how many rows it has.
    fn extent(&self, edge: Edge) -> usize
        ensures { result ≡ extent edge self.now }
    {
        match edge {
            Edge::Top => self.home,
            Edge::Bottom => self.strip_rows.len(),
        }
    }

    /// The block beyond an edge, and None where the text ends there.
    pub(crate) fn beyond<B: BlockSource>(
        &self,
        alloc: Global,
        source: &mut B,
        edge: Edge,
    ) -> Result<Option<Block>, Memory>
        requires { IsStrip (B.meaning source.old) self.now }
        ensures stays { B.meaning source.new ≡ B.meaning source.old }
        ensures value { IfOk result (λ block. IsBeyond (B.meaning source.old) self.now edge block) }
    {
        match edge {
            Edge::Top => source.prev(alloc, &self.first()),
            Edge::Bottom => source.next(alloc, &self.last()),
        }
    }

    /// Lays out blocks beyond an edge until it reaches so many rows there, or the text ends.
    pub(crate) fn reach<B: BlockSource, L: Ledger>(
        &mut self,
        alloc: Global,
        source: &mut B,
        edge: Edge,
        count: usize,
        steps: &mut Steps<L>,
    ) -> Result<(), Memory>
        requires { IsStrip (B.meaning source.old) self.old }
        ensures stays { B.meaning source.new ≡ B.meaning source.old }
        ensures strip { OnOk result (IsStrip (B.meaning source.old) self.new) }
        ensures sweep { OnOk result (self.new.sweep ≡ self.old.sweep) }
        ensures grows { OnOk result (GrowsAt edge self.old self.new) }
        ensures reached { OnOk result (ReachesAt edge (B.meaning source.old) self.new count) }
        ensures paid { PaysOn (B.meaning source.old) (λ kind. AsksAt edge kind (B.meaning source.old) self.old count) self.old self.new steps.old steps.new result }
    {
        'growing: while self.extent(edge) < count {
            let Some(block) = self.beyond(alloc, source, edge)? else {
                return Ok(());
            };
            let rows = source.rows(alloc, &block, self.sweep.shape, steps)?;
            self.push(edge, block, rows.as_slice())?;
        }
        Ok(())
    }

    /// Lays out rows up to the one that is as far below the anchor's as rows are pending, or above it where their number is below 0,
    /// held to the rows that there are: its place.
    pub(crate) fn scroll<B: BlockSource, L: Ledger>(
        &mut self,
        alloc: Global,
        source: &mut B,
        wanted: Wanted,
        steps: &mut Steps<L>,
    ) -> Result<usize, Memory>
        requires { IsStrip (B.meaning source.old) self.old }
        ensures stays { B.meaning source.new ≡ B.meaning source.old }
        ensures strip { OnOk result (IsStrip (B.meaning source.old) self.new) }
        ensures sweep { OnOk result (self.new.sweep ≡ self.old.sweep) }
        ensures place { IfOk result (λ place. (place < length self.new.strip_rows.items) × (first_row (B.meaning source.old) self.new + place ≡ moved_row (B.meaning source.old) self.old.sweep wanted.pending)) }
        ensures paid { PaysOn (B.meaning source.old) (λ kind. Between kind
            (min (home_row (B.meaning source.old) self.old.sweep) (moved_row (B.meaning source.old) self.old.sweep wanted.pending))
            (max (home_row (B.meaning source.old) self.old.sweep) (moved_row (B.meaning source.old) self.old.sweep wanted.pending) + 1))
            self.old self.new steps.old steps.new result }
    {
        let rows = wanted.pending.unsigned_abs() as usize;
        if wanted.pending.is_negative() {
            self.reach(alloc, source, Edge::Top, rows, steps)?;
            return Ok(self.home.saturating_sub(rows));
        }
        let place = self.home + rows;
        self.reach(alloc, source, Edge::Bottom, place + 1, steps)?;
        Ok(place.min(self.strip_rows.len() - 1))
    }

    /// The place of point's row, where the strip has it.
    pub(crate) fn point_row(&self) -> Option<usize>
        ensures { result ≡ position (λ (r : StripRow). r.has_point) self.now.strip_rows.items }
    {
        self.strip_rows.iter().position(|row| row.has_point)
    }

    /// Where point's row is, as seen from the rows in view from one place up to another.
    pub(crate) fn side_of_point(&self, from: usize, to: usize) -> PointSide
        requires { 0 < length self.now.blocks.items }
        ensures { result ≡ side_in self.now from to }
    {
        match self.point_row() {
            None => {
                if self.sweep.point < self.first().start {
                    PointSide::Above
                } else {
                    PointSide::Below
                }
            }
            Some(row) => {
                if row < from {
                    PointSide::Above
                } else if row < to {
                    PointSide::Within
                } else {
                    PointSide::Below
                }
            }
        }
    }

    /// The block and the number of the row at a place.
    pub(crate) fn anchor(&self, place: usize) -> Anchor
        requires { place < length self.now.strip_rows.items }
        ensures { (m : SourceValues) → IsStrip m self.now → result ≡ anchor_at (all_rows (rows_in m self.now.sweep) m.blocks) (first_row m self.now + place) }
    {
        let row = self.strip_rows[place];
        Anchor {
            pos: row.start,
            row: row.number,
        }
    }

    /// The least and the greatest of the positions at which items begin in the rows from one place up to another.
    pub(crate) fn span(&self, from: usize, to: usize) -> Option<Span>
        requires { to ≤ length self.now.strip_rows.items }
        ensures { (m : SourceValues) → IsStrip m self.now → from ≤ to
            → result ≡ span_of (first_positions (take (to - from) (drop (first_row m self.now + from) (all_rows (rows_in m self.now.sweep) m.blocks)))) }
    {
        let mut span = None;
        for place in from..to {
            span = span_of_both(span, self.strip_rows[place].span);
        }
        span
    }
}

/// The number of an anchor's row in the block that starts at a position and has so many rows: that row, held to the last, and the
/// first where the anchor is not that start.
fn row_in_block(anchor: Anchor, start: Pos, count: usize) -> usize
    ensures { result ≡ (if anchor.pos == start then min anchor.row (count - 1) else 0) }
{
    if anchor.pos != start {
        return 0;
    }
    (anchor.row as usize).min(count.saturating_sub(1))
}
