//! A row that is being made.
ghost use Rattle.std.specs.Prelude.{◌≡◌, ◌+◌, ◌-◌, ◌^◌, ◌<◌, ◌≤◌, ◌++◌, [], List, length, OnOk, IfOk};
ghost use Rattle.rd_base.specs.Elements.{width_at_most};
ghost use Rattle.rd_base.specs.declared.element.Element.{Element};
ghost use Rattle.rd_rows.specs.declared.spot.Placed.{Placed};
ghost use Rattle.rd_rows.specs.declared.spot.Spot.{Spot};
ghost use Rattle.rd_rows.specs.Placing.{placed_at, next_row, columns_of};
ghost use Rattle.rd_rows.specs.Shapes.{room};
ghost use Rattle.rd_rows.specs.Rows.{seen_in, first_seen, front_mark, from_edge, mark, last_cell, begin_of, finished_row};
ghost use Rattle.rd_rows.specs.Makers.{Grows, IsDraft, IsBreak, IsNoted, kept_of};

use crate::begin::Begin;
use crate::cutting::Cutting;
use crate::mirror::mirror_image;
use crate::prefix::Prefix;
use crate::row::Row;
use crate::shape::Shape;
use crate::spot::{Placed, Spot};
use rd_base::limits::PREFIX_COLUMNS;
use rd_base::{Cell, Element, Face, Glyph, ListOf, Memory, push_look};
use std::alloc::Global;

/// The cells and the items of the elements that were placed in a row, where the next element comes, and how many elements
/// were placed.
#[derive(Drop)]
pub struct Draft {
    pub cells: ListOf<Cell>,
    pub begins: ListOf<Begin>,
    pub spot: Spot,
    pub placed: u64,
}

/// A place in a row at which it can be left: how many cells and items come before it, where the next element comes, and how
/// many elements were placed.
#[derive(Clone, Copy, Debug, PartialEq, Eq)]
pub struct Break {
    pub cells: usize,
    pub begins: usize,
    pub spot: Spot,
    pub placed: u64,
}

/// The cell of a glyph of one column in the plain face, as a mark and a border have it. A space gives a blank.
pub fn mark_cell(glyph: &Glyph) -> Cell
    ensures { result ≡ mark glyph.now }
{
    if glyph.is_space() {
        return Cell::Blank(Face::PLAIN);
    }
    Cell::First(*glyph, Face::PLAIN)
}

/// Adds what is seen of an element in the window.
fn add_seen(cells: &mut ListOf<Cell>, shape: Shape, placed: &Placed) -> Result<(), Memory>
    requires { placed.now.start + placed.now.columns < 2 ^ 64 }
    ensures { OnOk result (cells.new ≡ cells.old ++ seen_in shape placed.now) }
{
    let from = shape.first_seen();
    let to = shape.hscroll as u64 + shape.room();
    let end = placed.start + placed.columns;
    if from <= placed.start && end <= to {
        return push_look(
            cells,
            placed.columns,
            placed.element.look,
            placed.element.face,
        );
    }
    let columns = end.min(to).saturating_sub(placed.start.max(from));
    cells.push_copies(columns, Cell::Blank(placed.element.face))
}

/// Notes where an item begins.
fn add_begin(begins: &mut ListOf<Begin>, shape: Shape, placed: &Placed) -> Result<(), Memory>
    ensures { OnOk result (begins.new ≡ begins.old ++ begin_of shape placed.now) }
{
    if !placed.first {
        return Ok(());
    }
    let column = placed.start.saturating_sub(shape.hscroll as u64);
    begins.push(Begin {
        from: placed.element.origin.from,
        to: placed.element.origin.to,
        column: column.min(shape.room()) as u32,
    })
}

impl Draft {
    /// A row of a line that goes on at a spot, in which the elements of a prefix stand.
    pub fn behind(alloc: Global, shape: Shape, spot: Spot, prefix: &Prefix) -> Result<Draft, Memory>
        ensures { IfOk result (λ draft. IsDraft shape prefix.now (next_row (columns_of prefix.now) spot) [] draft) }
    {
        let mut cells = ListOf::new(alloc);
        for placed in prefix.placed() {
            add_seen(&mut cells, shape, placed)?;
        }
        Ok(Draft {
            cells,
            begins: ListOf::new(alloc),
            spot: spot.next_row(prefix.columns()),
            placed: prefix.placed().len() as u64,
        })
    }

    /// Places an element. Of a draft that lacked memory nothing is known.
    pub fn place(&mut self, shape: Shape, element: &Element) -> Result<(), Memory>
        requires column { self.old.spot.column + width_at_most element.now.extent < 2 ^ 63 }
        requires used { self.old.spot.used ≤ self.old.spot.column + PREFIX_COLUMNS }
        ensures { OnOk result (Grows shape (placed_at shape self.old.spot element.now) self.old self.new) }
    {
        if self.placed == u64::MAX {
            return Err(Memory);
        }
        let placed = self.spot.place(shape, element);
        add_seen(&mut self.cells, shape, &placed)?;
        add_begin(&mut self.begins, shape, &placed)?;
        self.spot = self.spot.behind(&placed);
        self.placed += 1;
        Ok(())
    }

    /// The place behind the elements that were placed.
    pub fn here(&self) -> Break
        ensures { (shape : _) (lead : List Placed) (start : Spot) (xs : List Element) → IsDraft shape lead start xs self.now → IsBreak shape lead start xs result }
    {
        Break {
            cells: self.cells.len(),
            begins: self.begins.len(),
            spot: self.spot,
            placed: self.placed,
        }
    }

    /// Takes the elements behind a place away.
    pub fn cut_back(&mut self, place: Break)
        ensures cut { (shape : _) (lead : List Placed) (start : Spot) (xs ys : List Element) → IsDraft shape lead start (xs ++ ys) self.old → IsBreak shape lead start xs place → IsDraft shape lead start xs self.new }
        ensures shorter { length self.new.cells ≤ length self.old.cells }
    {
        self.cells.truncate(place.cells);
        self.begins.truncate(place.begins);
        self.spot = place.spot;
        self.placed = place.placed;
    }

    /// Takes the elements behind the last break away, where there is one.
    pub fn leave_at(&mut self, last_break: Option<Break>)
        ensures left { (shape : _) (lead : List Placed) (start : Spot) (xs waiting : List Element) → IsDraft shape lead start xs self.old → IsNoted shape lead start xs last_break waiting
            → IsDraft shape lead start (kept_of shape xs) self.new }
        ensures shorter { length self.new.cells ≤ length self.old.cells }
    {
        if let Some(place) = last_break {
            self.cut_back(place);
        }
    }

    /// The row as it stands: filled with blanks, with the marks of a row that is scrolled sideways and of one whose line goes on,
    /// and as its mirror image where it is read from the right edge.
    pub fn finish(
        self,
        alloc: Global,
        cutting: &Cutting,
        continued: bool,
        ends_block: bool,
    ) -> Result<Row, Memory>
        requires { length self.cells ≤ cutting.now.shape.hscroll + room cutting.now.shape - first_seen cutting.now.shape }
        ensures { IfOk result (λ row. row ≡ record { shown = finished_row cutting.now self.spot.used self.cells self.begins continued ends_block; copies = 0 }) }
    {
        let Draft {
            cells,
            begins,
            spot,
            ..
        } = self;
        let mut cells = with_front_mark(alloc, cutting, spot.used, cells)?;
        let room = cutting.shape.room();
        let missing = room.saturating_sub(cells.len() as u64);
        cells.push_copies(missing, Cell::Blank(Face::PLAIN))?;
        cells.push(last_cell(cutting, spot.used, continued))?;
        let cells = from_edge(alloc, cutting.reversed, cells)?;
        Ok(Row::made(alloc, cells, begins, cutting.reversed, ends_block))
    }
}

/// The cells, behind the mark where the row is scrolled sideways and something was placed in it.
fn with_front_mark(
    alloc: Global,
    cutting: &Cutting,
    used: u64,
    cells: ListOf<Cell>,
) -> Result<ListOf<Cell>, Memory>
    ensures { IfOk result (λ marked. marked ≡ front_mark cutting.now used ++ cells) }
{
    if cutting.shape.hscroll == 0 || used == 0 {
        return Ok(cells);
    }
    let mut marked = ListOf::new(alloc);
    marked.push(mark_cell(&cutting.truncation))?;
    marked.extend_from_slice(cells.as_slice())?;
    Ok(marked)
}

/// The cells as they are shown: their mirror image where the row is read from the right edge.
fn from_edge(alloc: Global, reversed: bool, cells: ListOf<Cell>) -> Result<ListOf<Cell>, Memory>
    ensures { IfOk result (λ shown. shown ≡ from_edge reversed cells) }
{
    if reversed {
        return mirror_image(alloc, cells.as_slice());
    }
    Ok(cells)
}

/// The cell of the last column.
fn last_cell(cutting: &Cutting, used: u64, continued: bool) -> Cell
    ensures { result ≡ last_cell cutting.now used continued }
{
    if cutting.shape.truncates() {
        if used > cutting.shape.hscroll as u64 + cutting.shape.room() {
            return mark_cell(&cutting.truncation);
        }
        return Cell::Blank(Face::PLAIN);
    }
    if continued {
        return mark_cell(&cutting.continuation);
    }
    Cell::Blank(Face::PLAIN)
}
