//! Rows that are made with ample memory.
ghost use Rattle.std.specs.Prelude.{◌≡◌, ◌<◌, IfOk};
ghost use Rattle.rd_rows.specs.Lines.{columns_held};

use crate::claims::assert_of;
use rd_base::{Cell, Element, Elements, Extent, Face, Glyph, Look, Memory, Origin, Steps, Wrap};
use rd_rows::{Row, RowMaker, Shape};
use std::alloc::Global;
use std::marker::Brand;
use std::process::Abort;
use std::sync::ledger::{Blank, Ledger};
use std::test::Fail;

/// A line given as a slice.
#[derive(Drop)]
struct Listed<'a> {
    rest: &'a [Element],
}

impl Elements for Listed<'_> {
    ghost left = { λ s. s.rest.now };

    fn next(&mut self, _alloc: Global) -> Result<Option<Element>, Memory> {
        match self.rest {
            [] => Ok(None),
            [first, rest @ ..] => {
                let element = *first;
                self.rest = rest;
                Ok(Some(element))
            }
        }
    }
}

macro_rules! glyph {
    ($code:expr, $width:expr) => {
        Glyph {
            base: $code,
            marks: [0, 0, 0, 0, 0, 0],
            count: 0,
            width: $width,
        }
    };
}

macro_rules! element {
    ($item:expr, $columns:expr, $look:expr) => {
        Element {
            extent: Extent::Fixed($columns),
            look: $look,
            face: Face::PLAIN,
            origin: Origin {
                item: $item,
                from: $item,
                to: $item + 1,
            },
        }
    };
}

/// The base of the glyph in the last column, and 0 where there is none.
fn last_base(row: &Row) -> u32 {
    match row.cells().last() {
        Some(Cell::First(glyph, _)) => glyph.base,
        _ => 0,
    }
}

/// Eight blanks, a wide character and the line end.
const LINE: [Element; 3] = [
    element!(0, 8, Look::Blank),
    element!(1, 2, Look::Glyph(glyph!(20013, 2))),
    element!(2, 0, Look::LineEnd),
];

/// A maker of the rows of a line in ten columns.
fn maker(alloc: Global, wrap: Wrap) -> Result<RowMaker, Memory>
    ensures { IfOk result (λ maker. columns_held maker ≡ 0) }
{
    let shape = Shape {
        width: 10,
        wrap,
        hscroll: 0,
    };
    RowMaker::new(alloc, shape, 0, &[], &[], glyph!(36, 1), glyph!(92, 1))
}

/// Whether the first row that a maker makes of the line has this mark.
fn marks<L: Ledger>(maker: &mut RowMaker, mark: u32, steps: &mut Steps<L>) -> bool
    requires { columns_held maker.old ≡ 0 }
{
    let mut left = Listed { rest: &LINE };
    match maker.next_row(&mut left, steps) {
        Ok(Some(row)) => last_base(&row) == mark,
        _ => false,
    }
}

/// Whether the line's first row has this mark.
fn is_marked<L: Ledger>(alloc: Global, wrap: Wrap, mark: u32, blank: Blank) -> bool
    requires name { blank.name ≡ L.name }
    requires parts { blank.parts ≡ L.parts }
    requires some { 0 < L.parts }
{
    let mut steps = Steps::<L>::new(blank);
    match maker(alloc, wrap) {
        Ok(mut maker) => marks(&mut maker, mark, &mut steps),
        Err(_) => false,
    }
}

/// Whether a maker makes so many rows of the line.
fn makes<L: Ledger>(maker: RowMaker, count: usize, steps: &mut Steps<L>) -> bool
    requires { columns_held maker ≡ 0 }
{
    let mut left = Listed { rest: &LINE };
    match maker.make_all(&mut left, steps) {
        Ok(rows) => rows.len() == count,
        Err(_) => false,
    }
}

/// Whether the line has so many rows.
fn has_rows<L: Ledger>(alloc: Global, wrap: Wrap, count: usize, blank: Blank) -> bool
    requires name { blank.name ≡ L.name }
    requires parts { blank.parts ≡ L.parts }
    requires some { 0 < L.parts }
{
    let mut steps = Steps::<L>::new(blank);
    match maker(alloc, wrap) {
        Ok(maker) => makes(maker, count, &mut steps),
        Err(_) => false,
    }
}

#[test]
fn a_row_is_made(rt: HostRuntime) {
    assert_of(
        &rt,
        "a row that is continued",
        is_marked::<Brand>(rt.alloc(), Wrap::Continue, 92, Blank::new(1)),
    );
    assert_of(
        &rt,
        "a row that is truncated",
        is_marked::<Brand>(rt.alloc(), Wrap::Truncate, 36, Blank::new(1)),
    );
    assert_of(
        &rt,
        "a row that is continued by words",
        is_marked::<Brand>(rt.alloc(), Wrap::Word, 0, Blank::new(1)),
    );
}

#[test]
fn all_rows_are_made(rt: HostRuntime) {
    assert_of(
        &rt,
        "the rows of a line that is continued by words",
        has_rows::<Brand>(rt.alloc(), Wrap::Word, 2, Blank::new(1)),
    );
    assert_of(
        &rt,
        "the row of a line that is truncated",
        has_rows::<Brand>(rt.alloc(), Wrap::Truncate, 1, Blank::new(1)),
    );
}

/// Asserts that a copy of a blank row is as it is, and counts as one.
fn assert_copied(rt: &impl Abort, empty: &Row) -> Result<(), Memory> {
    let copy = empty.copy()?;
    assert!(rt; empty.copies() == 0);
    assert!(rt; copy.copies() == 1);
    assert!(rt; copy.cells().len() == 3);
    Ok(())
}

#[test]
fn a_blank_row_is_copied(rt: HostRuntime) -> Result<(), Fail> {
    let empty = Row::blank(rt.alloc(), 3)?;
    Ok(assert_copied(&rt, &empty)?)
}
