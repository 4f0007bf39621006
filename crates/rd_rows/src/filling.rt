//! A row that is filled with the elements of a line.
ghost use Rattle.std.specs.Prelude.{◌≡◌, ◌+◌, ◌^◌, ◌<◌, ◌≤◌, ◌++◌, ◌∷◌, [], false, List, OnOk, IfOk};
ghost use Rattle.rd_base.specs.Elements.{width_at_most};
ghost use Rattle.rd_base.specs.declared.element.Element.{Element};
ghost use Rattle.rd_rows.specs.declared.spot.Placed.{Placed};
ghost use Rattle.rd_rows.specs.declared.spot.Spot.{Spot};
ghost use Rattle.rd_rows.specs.Cuts.{is_break};
ghost use Rattle.rd_rows.specs.Makers.{IsDraft, IsNoted, IsFilling, has_room, reached};
ghost use Rattle.rd_rows.specs.Placing.{next_row, columns_of};

use crate::draft::{Break, Draft};
use crate::prefix::Prefix;
use crate::shape::Shape;
use crate::spot::Spot;
use rd_base::limits::PREFIX_COLUMNS;
use rd_base::{Element, ListOf, Look, Memory};
use std::alloc::Global;

/// A row that is being made. `empty` says that no element of the line stands in it yet. Where lines are wrapped between words,
/// `last_break` is the last place at which the row can be left, and `waiting` has the elements behind it.
#[derive(Drop)]
pub struct Filling {
    pub draft: Draft,
    pub empty: bool,
    pub last_break: Option<Break>,
    pub waiting: ListOf<Element>,
}

/// Whether a line can be wrapped behind an element of this look: behind a stretch of blanks or a space.
fn is_break(look: Look) -> bool
    ensures { result ≡ is_break look }
{
    match look {
        Look::Blank => true,
        Look::Glyph(glyph) => glyph.is_space(),
        Look::RowEnd | Look::LineEnd => false,
    }
}

impl Filling {
    /// A row of a line that goes on at a spot, in which a prefix stands.
    pub fn behind(
        alloc: Global,
        shape: Shape,
        spot: Spot,
        prefix: &Prefix,
    ) -> Result<Filling, Memory>
        ensures { IfOk result (λ filling. IsFilling shape prefix.now (next_row (columns_of prefix.now) spot) [] filling) }
    {
        Ok(Filling {
            draft: Draft::behind(alloc, shape, spot, prefix)?,
            empty: true,
            last_break: None,
            waiting: ListOf::new(alloc),
        })
    }

    /// Whether an element can stand in the row: the first in the row behind its prefix can in any case.
    pub fn has_room(&self, shape: Shape, element: &Element) -> bool
        requires column { self.now.draft.spot.column + width_at_most element.now.extent < 2 ^ 63 }
        requires used { self.now.draft.spot.used ≤ self.now.draft.spot.column + PREFIX_COLUMNS }
        ensures { (lead : List Placed) (start : Spot) (xs : List Element) → IsFilling shape lead start xs self.now → result ≡ has_room shape xs (reached shape start xs) element.now }
    {
        self.empty || self.draft.spot.fits(shape, element)
    }

    /// Places an element. Of a row that lacked memory nothing is known.
    pub fn place(&mut self, shape: Shape, element: &Element) -> Result<(), Memory>
        requires column { self.old.draft.spot.column + width_at_most element.now.extent < 2 ^ 63 }
        requires used { self.old.draft.spot.used ≤ self.old.draft.spot.column + PREFIX_COLUMNS }
        ensures { OnOk result ((lead : List Placed) (start : Spot) (xs : List Element) → IsFilling shape lead start xs self.old → IsFilling shape lead start (xs ++ element.now ∷ []) self.new) }
    {
        self.draft.place(shape, element)?;
        self.empty = false;
        self.note(shape, element)
    }

    /// Notes an element that was placed: as the last break, or as one behind it.
    fn note(&mut self, shape: Shape, element: &Element) -> Result<(), Memory>
        requires { self.old.empty ≡ false }
        ensures { OnOk result ((lead : List Placed) (start : Spot) (xs : List Element) → IsDraft shape lead start (xs ++ element.now ∷ []) self.old.draft
            → IsNoted shape lead start xs self.old.last_break self.old.waiting → IsFilling shape lead start (xs ++ element.now ∷ []) self.new) }
    {
        if !shape.wraps_words() {
            return Ok(());
        }
        if is_break(element.look) {
            self.last_break = Some(self.draft.here());
            self.waiting.clear();
            return Ok(());
        }
        if self.last_break.is_some() {
            self.waiting.push(*element)?;
        }
        Ok(())
    }
}
