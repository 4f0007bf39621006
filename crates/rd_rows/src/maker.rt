//! Makes the rows of a line, one at a time.
ghost use Rattle.std.specs.Prelude.{◌≡◌, ◌+◌};

use crate::cutting::Cutting;
use crate::prefix::Prefix;
use crate::row::Row;
use crate::shape::Shape;
use crate::spot::Spot;
use rd_base::{Element, Elements, Glyph, ListOf, Memory, Steps};
use std::alloc::Global;
use std::marker::Model;
use std::sync::ledger::Ledger;

/// Makes the rows of one line, each from the elements that come next. It holds the elements that wait for the next row, at most
/// 400, and the one that did not fit the row before is among them. Contracts know of it the rows that it is still to make by the
/// elements that are left, the columns that were reached and are held, and whether the line end was placed.
#[derive(Drop)]
pub struct RowMaker {
    pub(crate) alloc: Global,
    pub(crate) cutting: Cutting,
    /// Where the next row begins.
    pub(crate) spot: Spot,
    /// Whether the next row goes on with the line behind no row end.
    pub(crate) continued: bool,
    /// The elements that wait, of which those before `next` were taken.
    pub(crate) held: ListOf<Element>,
    pub(crate) next: usize,
    /// Whether the line end was placed.
    pub(crate) finished: bool,
}

impl Model for RowMaker {
    ghost use Rattle.std.specs.Prelude.{◌≤◌, length, drop};
    ghost use Rattle.rd_rows.specs.Left.{MakerValues};
    ghost use Rattle.rd_rows.specs.Makers.{IsMaking};

    ghost Value = { MakerValues };

    ghost view = { λ m. record { cutting = m.cutting; spot = m.spot; continued = m.continued; held = drop m.next m.held; finished = m.finished } };

    ghost invariant = { λ m. (m.next ≤ length m.held) × IsMaking (record { cutting = m.cutting; spot = m.spot; continued = m.continued; held = drop m.next m.held; finished = m.finished }) };
}

impl RowMaker {
    ghost use Rattle.std.specs.Prelude.{◌≡◌, ◌+◌, ◌^◌, ◌<◌, ◌≤◌, List, length, IfOk, OnOk};
    ghost use Rattle.rd_base.specs.Elements.{AreSound};
    ghost use Rattle.rd_base.specs.Glyphs.{AreMeasured};
    ghost use Rattle.rd_base.specs.declared.element.Element.{Element};
    ghost use Rattle.rd_rows.specs.Lines.{IsFresh, Asks, Makes, MakesWhole, rows_left};
    ghost use Rattle.rd_rows.specs.Prefixes.{IsPrefix};
    ghost use Rattle.rd_rows.specs.Copies.{made_rows};
    ghost use Rattle.rd_rows.specs.Rows.{cutting_of, weight_of};
    ghost use Rattle.rd_rows.specs.Whole.{AreWhole, IsMark, IsMeasuredPrefix};

    /// A maker of the rows of a line in a paragraph of base level `base`, 0 or 1, with the elements of the prefixes of the line's
    /// first row (and of each row behind a row end) and of its other rows, and the glyphs that mark a truncated and a continued
    /// row, of one column each. A prefix is shown as far as its elements fit whole in half of the shape's width. Where elements,
    /// prefixes and marks are measured, each row is whole.
    pub fn new(
        alloc: Global,
        shape: Shape,
        base: u8,
        first: &[Element],
        wrap: &[Element],
        truncation: Glyph,
        continuation: Glyph,
    ) -> Result<RowMaker, Memory>
        requires base { base ≤ 1 }
        requires first { IsPrefix first.now }
        requires wrap { IsPrefix wrap.now }
        requires truncation { truncation.width ≡ 1 }
        requires continuation { continuation.width ≡ 1 }
        ensures fresh { IfOk result (IsFresh (cutting_of shape base first.now wrap.now truncation continuation)) }
        ensures whole { IfOk result (λ maker. IsMeasuredPrefix first.now → IsMeasuredPrefix wrap.now → IsMark truncation → IsMark continuation
            → (es : List Element) → AreSound es → AreMeasured es → AreWhole shape.width (rows_left maker es)) }
    {
        let first = Prefix::of(alloc, shape, first)?;
        let wrap = Prefix::of(alloc, shape, wrap)?;
        let cutting = Cutting {
            shape,
            reversed: base == 1,
            first,
            wrap,
            truncation,
            continuation,
        };
        Ok(RowMaker {
            alloc,
            cutting,
            spot: Spot::line_start(),
            continued: false,
            held: ListOf::new(alloc),
            next: 0,
            finished: false,
        })
    }

    /// Makes the next row from the elements that are left, and counts a step for each element that it places: the row, and
    /// None exactly after the line end was placed. Until then the elements that are left are sound, their last and no other is
    /// the line end, and with those that it holds they come to fewer than 2^63 columns behind the column that was reached. In a
    /// truncated line all elements up to the row's end are placed. A row is whole where those that are left are. After want of
    /// memory the maker is to be made anew.
    pub fn next_row<E: Elements, L: Ledger>(
        &mut self,
        elements: &mut E,
        steps: &mut Steps<L>,
    ) -> Result<Option<Row>, Memory>
        requires { Asks self.old (E.left elements.old) }
        ensures row { Makes result self.old self.new (E.left elements.old) (E.left elements.new) steps.old steps.new }
        ensures whole { MakesWhole result self.old self.new (E.left elements.old) (E.left elements.new) }
    {
        if self.finished {
            return Ok(None);
        }
        let made = self.make_row(elements)?;
        count(made.weight, steps);
        Ok(Some(made.row))
    }

    /// Makes all rows that are left, where there are fewer than 2^32 of them; where there are more it wants memory. A step is
    /// counted for each element that is placed.
    pub fn make_all<E: Elements, L: Ledger>(
        mut self,
        elements: &mut E,
        steps: &mut Steps<L>,
    ) -> Result<Vec<Row>, Memory>
        requires { Asks self (E.left elements.old) }
        ensures rows { IfOk result (λ rows. rows.items ≡ made_rows (rows_left self (E.left elements.old))) }
        ensures few { IfOk result (λ rows. length rows.items < 2 ^ 32) }
        ensures steps { OnOk result (steps.new ≡ steps.old + weight_of (rows_left self (E.left elements.old))) }
        ensures bound { steps.new ≤ steps.old + weight_of (rows_left self (E.left elements.old)) }
    {
        let mut rows = Vec::new(self.alloc);
        while let Some(row) = self.next_row(elements, steps)? {
            if rows.len() >= u32::MAX as usize {
                return Err(Memory);
            }
            rows.push(row)?;
        }
        Ok(rows)
    }
}

/// Counts so many steps.
fn count<L: Ledger>(weight: u64, steps: &mut Steps<L>)
    ensures { steps.new ≡ steps.old + weight }
{
    for _k in 0..weight {
        steps.tick();
    }
}
