//! How a maker makes a row.
ghost use Rattle.std.specs.Prelude.{◌≡◌, ◌<◌, ◌∷◌, length, IfOk};

use crate::filling::Filling;
use crate::maker::RowMaker;
use crate::prefix::Prefix;
use crate::row::Row;
use crate::spot::{ends_row, is_line_end};
use rd_base::{Element, Elements, Memory};
use std::alloc::Global;

/// A row that was made, and how many elements were placed in it.
#[derive(Drop)]
pub(crate) struct MadeRow {
    pub row: Row,
    pub weight: u64,
}

impl RowMaker {
    ghost use Rattle.std.specs.Prelude.{◌≡◌, ◌+◌, ◌-◌, ◌<◌, ◌≤◌, ◌∷◌, ◌++◌, [], false, List, length, IfOk, OnOk};
    ghost use Rattle.rd_base.specs.Elements.{AreSound};
    ghost use Rattle.rd_base.specs.declared.element.Element.{Element};
    ghost use Rattle.rd_base.specs.declared.limits.TheConstants.{FRAME_COLUMNS};
    ghost use Rattle.rd_rows.specs.declared.spot.Placed.{Placed};
    ghost use Rattle.rd_rows.specs.declared.spot.Spot.{Spot};
    ghost use Rattle.rd_rows.specs.Left.{IsLine, lead_of};
    ghost use Rattle.rd_rows.specs.Makers.{IsFilling, IsMaking, Leaves, Ends, Cuts};
    ghost use Rattle.rd_rows.specs.Placing.{next_row, columns_of};
    ghost use Rattle.rd_rows.specs.Cuts.{ends_some};
    ghost use Rattle.rd_rows.specs.Rows.{first_seen};
    ghost use Rattle.rd_rows.specs.Shapes.{room};

    /// The next row of a line whose end was not placed.
    pub(crate) fn make_row<E: Elements>(&mut self, elements: &mut E) -> Result<MadeRow, Memory>
        requires going_on { self.old.finished ≡ false }
        requires line { IsLine self.old.spot.column (self.old.held ++ E.left elements.old) }
        ensures { IfOk result (λ made. Cuts self.old self.new (E.left elements.old) (E.left elements.new) made.row made.weight) }
    {
        let mut filling = self.begin_row()?;
        loop {
            let element = self.take(elements)?;
            if !filling.has_room(self.cutting.shape, &element) {
                return self.leave(filling, element);
            }
            filling.place(self.cutting.shape, &element)?;
            if ends_row(element.look) {
                return self.end_row(filling, is_line_end(element.look));
            }
        }
    }

    /// The prefix of the next row.
    fn lead(&self) -> &Prefix
        ensures { result.now ≡ lead_of self.now }
    {
        if self.continued {
            return &self.cutting.wrap;
        }
        &self.cutting.first
    }

    /// Begins a row with its prefix.
    fn begin_row(&self) -> Result<Filling, Memory>
        ensures making { IsMaking self.now }
        ensures filling { IfOk result (λ filling. IsFilling self.now.cutting.shape (lead_of self.now) (next_row (columns_of (lead_of self.now)) self.now.spot) [] filling) }
    {
        Filling::behind(self.alloc, self.cutting.shape, self.spot, self.lead())
    }

    /// Takes the next element of those that wait, and then of those that are left.
    fn take<E: Elements>(&mut self, elements: &mut E) -> Result<Element, Memory>
        requires { 0 < length (self.old.held ++ E.left elements.old) }
        ensures next { IfOk result (λ element. self.old.held ++ E.left elements.old ≡ element ∷ (self.new.held ++ E.left elements.new)) }
        ensures rest { OnOk result (self.new ≡ record self.old { held = self.new.held }) }
        ensures making { IsMaking self.new }
        ensures less { length self.new.held ≡ length self.old.held - 1 }
    {
        if self.next < self.held.len() {
            let element = self.held.at(self.next);
            self.next += 1;
            return Ok(element);
        }
        pull(self.alloc, elements)
    }

    /// Leaves a row in which an element did not fit: behind its last break without a mark, or where there is none with the
    /// continuation mark. The elements behind the break and that element wait for the next row, at most 400.
    fn leave(&mut self, filling: Filling, element: Element) -> Result<MadeRow, Memory>
        requires sound { AreSound (filling.waiting ++ element ∷ self.old.held) }
        requires on { ends_some (filling.waiting ++ element ∷ self.old.held) ≡ false }
        requires few { length (filling.waiting ++ element ∷ self.old.held) ≤ FRAME_COLUMNS }
        requires cells { length filling.draft.cells ≤ self.old.cutting.shape.hscroll + room self.old.cutting.shape - first_seen self.old.cutting.shape }
        ensures { IfOk result (λ made. (lead : List Placed) (start : Spot) (xs : List Element) → IsFilling self.old.cutting.shape lead start xs filling
            → Leaves self.old self.new lead start xs element made.row made.weight) }
    {
        let Filling {
            mut draft,
            last_break,
            mut waiting,
            ..
        } = filling;
        let (_taken, left) = self.held.as_slice().split_at(self.next);
        waiting.push(element)?;
        waiting.extend_from_slice(left)?;
        draft.leave_at(last_break);
        let weight = draft.placed;
        self.spot = draft.spot;
        self.continued = true;
        self.held = waiting;
        self.next = 0;
        let row = draft.finish(self.alloc, &self.cutting, last_break.is_none(), false)?;
        Ok(MadeRow { row, weight })
    }

    /// Ends a row behind a row end or the line end.
    fn end_row(&mut self, filling: Filling, line_end: bool) -> Result<MadeRow, Memory>
        requires { length filling.draft.cells ≤ self.old.cutting.shape.hscroll + room self.old.cutting.shape - first_seen self.old.cutting.shape }
        ensures { IfOk result (λ made. (lead : List Placed) (start : Spot) (xs : List Element) → IsFilling self.old.cutting.shape lead start xs filling
            → Ends self.old self.new lead start xs line_end made.row made.weight) }
    {
        let draft = filling.draft;
        let weight = draft.placed;
        self.spot = draft.spot.next_line();
        self.continued = false;
        self.finished = line_end;
        let row = draft.finish(self.alloc, &self.cutting, false, line_end)?;
        Ok(MadeRow { row, weight })
    }
}

/// Takes the next element of those that are left.
fn pull<E: Elements>(alloc: Global, elements: &mut E) -> Result<Element, Memory>
    requires { 0 < length (E.left elements.old) }
    ensures { IfOk result (λ element. E.left elements.old ≡ element ∷ E.left elements.new) }
{
    match elements.next(alloc)? {
        Some(element) => Ok(element),
        None => unreachable!(),
    }
}
