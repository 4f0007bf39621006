//! The rows of a buffer's blocks; motion from item to item as they are seen; and what cells show.
ghost use Rattle.std.specs.Prelude.{◌≡◌, ◌<◌, IfOk, OnOk, All};
ghost use Rattle.std.specs.Bool.{OnTrue};
ghost use Rattle.rd_text.specs.Texts.{IsAccessible};
ghost use Rattle.rd_matrix.specs.Entries.{shown_entries};
ghost use Rattle.rd_visual.specs.Hits.{AreInPositions, Fits};

use crate::claims::assert_of;
use crate::scenery::{Scenery, is_accessible, put_text};
use rd_base::{Cell, Memory, Pos, Steps, Wrap};
use rd_blocks::{Blocks, accessible_positions_lie_in_blocks};
use rd_matrix::{BlockSource, Entry, Matrix};
use rd_props::View;
use rd_rows::{Begin, Row, Shape};
use rd_visual::{cell_of, left, position_at, right};
use std::alloc::Global;
use std::marker::Brand;
use std::process::Abort;
use std::sync::ledger::{Blank, Ledger};
use std::test::Fail;

/// The classes of a blank, of two digits and of three letters that are read from the right. Other letters have class L.
const CLASSES: &'static [u8] =
    b"0020;;;;WS\n0031;;;;EN\n0032;;;;EN\n05D0;;;;R\n05D1;;;;R\n05D2;;;;R\n";

/// A buffer with a text, and the classes above.
fn scenery(alloc: Global, text: &str) -> Result<Scenery, Fail> {
    let mut scenery = Scenery::with_classes(alloc, CLASSES)?;
    put_text(&mut scenery.state, alloc, text)?;
    Ok(scenery)
}

/// Where a step to the right or to the left leads from a position, and 0 where it leads nowhere.
fn step(alloc: Global, view: &View, pos: Pos, to_right: bool) -> Result<Pos, Memory> {
    if !is_accessible(view, pos) {
        return Ok(0);
    }
    if to_right {
        Ok(right(alloc, view, pos)?.unwrap_or(0))
    } else {
        Ok(left(alloc, view, pos)?.unwrap_or(0))
    }
}

/// Whether a step from a position leads there.
fn leads(alloc: Global, view: &View, pos: Pos, to_right: bool, wanted: Pos) -> bool {
    match step(alloc, view, pos, to_right) {
        Ok(found) => found == wanted,
        Err(_) => false,
    }
}

/// In the line `aאבb`, in an empty one, in the line `א12`, which is read from the right edge, and at the end: each position, and where a
/// step to the right and one to the left lead.
const STEPS: [(&'static str, Pos, Pos, Pos); 11] = [
    ("a", 1, 3, 0),
    ("bet", 3, 2, 1),
    ("alef", 2, 4, 3),
    ("b", 4, 5, 2),
    ("the newline behind b", 5, 6, 4),
    ("the empty line", 6, 7, 5),
    ("alef at the right edge", 7, 6, 9),
    ("the digit 2", 9, 7, 8),
    ("the digit 1", 8, 9, 10),
    ("the newline behind the digits", 10, 8, 11),
    ("the end", 11, 10, 0),
];

/// Asserts what is to hold of the step to a side of a place of this name.
fn assert_step(rt: &impl Abort, side: &str, name: &str, holds: bool) {
    assert!(rt; holds, "{side} of {name}");
}

/// Asserts where steps lead in those lines.
fn assert_steps(rt: &impl Abort, alloc: Global, view: &View) {
    for (name, pos, to_right, to_left) in &STEPS {
        assert_step(rt, "right", name, leads(alloc, view, *pos, true, *to_right));
        assert_step(rt, "left", name, leads(alloc, view, *pos, false, *to_left));
    }
}

#[test]
fn steps_follow_what_is_seen(rt: HostRuntime) -> Result<(), Fail> {
    let scenery = scenery(rt.alloc(), "a\u{5d0}\u{5d1}b\n\n\u{5d0}12\n")?;
    assert_steps(&rt, rt.alloc(), &scenery.view());
    Ok(())
}

#[test]
fn no_step_leaves_an_empty_text(rt: HostRuntime) -> Result<(), Fail> {
    let scenery = scenery(rt.alloc(), "")?;
    let view = scenery.view();
    assert_step(
        &rt,
        "right",
        "an empty text",
        leads(rt.alloc(), &view, 1, true, 0),
    );
    assert_step(
        &rt,
        "left",
        "an empty text",
        leads(rt.alloc(), &view, 1, false, 0),
    );
    Ok(())
}

/// The rows of the block that holds a position, in a window of twelve columns.
fn rows_at<L: Ledger>(
    alloc: Global,
    view: &View,
    pos: Pos,
    wrap: Wrap,
    blank: Blank,
) -> Result<Vec<Row>, Memory>
    requires place { IsAccessible view.now.state.now.text pos }
    requires name { blank.name ≡ L.name }
    requires parts { blank.parts ≡ L.parts }
    requires some { 0 < L.parts }
{
    accessible_positions_lie_in_blocks();
    let mut steps = Steps::<L>::new(blank);
    let mut source = Blocks::new(*view);
    let block = source.block_of(alloc, pos)?;
    let shape = Shape {
        width: 12,
        wrap,
        hscroll: 0,
    };
    source.rows(alloc, &block, shape, &mut steps)
}

/// The rows of the block that holds a position, and no row where the position is not accessible.
fn rows_of<L: Ledger>(
    alloc: Global,
    view: &View,
    pos: Pos,
    wrap: Wrap,
    blank: Blank,
) -> Result<Vec<Row>, Memory>
    requires name { blank.name ≡ L.name }
    requires parts { blank.parts ≡ L.parts }
    requires some { 0 < L.parts }
{
    if !is_accessible(view, pos) {
        return Ok(Vec::new(alloc));
    }
    rows_at::<L>(alloc, view, pos, wrap, blank)
}

/// Whether a cell shows a character of one column.
fn is_shown(cell: Cell, c: char) -> bool {
    match cell {
        Cell::First(glyph, _face) => glyph.base == c as u32,
        Cell::Blank(_face) => c == ' ',
        _ => false,
    }
}

/// Whether cells show these characters, each of one column.
fn show(cells: &[Cell], text: &str) -> bool {
    let mut i = 0;
    for c in text.chars() {
        if i >= cells.len() || !is_shown(cells[i], c) {
            return false;
        }
        i += 1;
    }
    i == cells.len()
}

/// Whether rows show these texts.
fn are_shown(rows: &[Row], texts: &[&str]) -> bool {
    if rows.len() != texts.len() {
        return false;
    }
    for (row, text) in rows.iter().zip(texts) {
        if !show(row.cells(), text) {
            return false;
        }
    }
    true
}

/// Whether the first block of a look is shown as these texts.
fn shows<L: Ledger>(alloc: Global, view: &View, wrap: Wrap, texts: &[&str], blank: Blank) -> bool
    requires name { blank.name ≡ L.name }
    requires parts { blank.parts ≡ L.parts }
    requires some { 0 < L.parts }
{
    match rows_of::<L>(alloc, view, 1, wrap, blank) {
        Ok(rows) => are_shown(rows.as_slice(), texts),
        Err(_) => false,
    }
}

/// The rows of a line of 15 characters where it is cut.
const CUT: [&'static str; 1] = ["the quick b$"];

/// The rows of a line of 15 characters where it is continued.
const CONTINUED: [&'static str; 2] = ["the quick b\\", "rown        "];

/// The rows of a line of 15 characters where it is continued by words.
const BY_WORDS: [&'static str; 2] = ["the quick   ", "brown       "];

#[test]
fn long_lines_are_cut(rt: HostRuntime) -> Result<(), Fail> {
    let scenery = scenery(rt.alloc(), "the quick brown\nfox")?;
    let view = scenery.view();
    assert_of(
        &rt,
        "a line that is truncated",
        shows::<Brand>(rt.alloc(), &view, Wrap::Truncate, &CUT, Blank::new(1)),
    );
    assert_of(
        &rt,
        "a line that is continued",
        shows::<Brand>(rt.alloc(), &view, Wrap::Continue, &CONTINUED, Blank::new(1)),
    );
    assert_of(
        &rt,
        "a line that is continued by words",
        shows::<Brand>(rt.alloc(), &view, Wrap::Word, &BY_WORDS, Blank::new(1)),
    );
    Ok(())
}

/// Whether each of these items of a block that starts at a position ends at a position.
fn fit(start: Pos, begins: &[Begin]) -> bool
    ensures { OnTrue result (All (Fits start) begins.now) }
{
    begins
        .iter()
        .all(|begin| start.checked_add(begin.to).is_some())
}

/// Adds a row of a block that starts at a position, where its items end at positions and there are few rows.
fn add(matrix: &mut Matrix, start: Pos, row: Row) -> Result<(), Memory>
    requires { AreInPositions (shown_entries matrix.old) }
    ensures { OnOk result (AreInPositions (shown_entries matrix.new)) }
{
    let number = matrix.len();
    if number >= 100 || !fit(start, row.begins()) {
        return Ok(());
    }
    matrix.push(Entry {
        start,
        number: number as u32,
        row,
    })
}

/// Rows of a block that starts at a position, one below the other.
fn matrix_of(alloc: Global, start: Pos, rows: Vec<Row>) -> Result<Matrix, Memory>
    ensures { IfOk result (λ matrix. AreInPositions (shown_entries matrix)) }
{
    let mut matrix = Matrix::new(alloc)?;
    for row in rows {
        add(&mut matrix, start, row)?;
    }
    Ok(matrix)
}

/// The rows of the first block of a look.
fn first_rows<L: Ledger>(
    alloc: Global,
    view: &View,
    wrap: Wrap,
    blank: Blank,
) -> Result<Matrix, Memory>
    requires name { blank.name ≡ L.name }
    requires parts { blank.parts ≡ L.parts }
    requires some { 0 < L.parts }
    ensures { IfOk result (λ matrix. AreInPositions (shown_entries matrix)) }
{
    let rows = rows_of::<L>(alloc, view, 1, wrap, blank)?;
    matrix_of(alloc, 1, rows)
}

/// Whether a cell of the rows shows a position, and 0 where it shows none.
fn hits(matrix: &Matrix, row: u32, column: u32, pos: Pos) -> bool
    requires { AreInPositions (shown_entries matrix.now) }
{
    position_at(matrix, row, column).unwrap_or(0) == pos
}

/// Whether the item of a position begins in a cell of the rows.
fn begins(matrix: &Matrix, pos: Pos, row: u32, column: u32) -> bool {
    match cell_of(matrix, pos) {
        Some(cell) => cell == (row, column),
        None => false,
    }
}

/// The columns of the row of `אב 12`, which is read from the right edge, each with the position that it shows.
const COLUMNS: [(&'static str, u32, Pos); 13] = [
    ("the left edge", 0, 6),
    ("the sixth column behind the text", 1, 6),
    ("the fifth column behind the text", 2, 6),
    ("the fourth column behind the text", 3, 6),
    ("the third column behind the text", 4, 6),
    ("the second column behind the text", 5, 6),
    ("the first column behind the text", 6, 6),
    ("the digit 1", 7, 4),
    ("the digit 2", 8, 5),
    ("the blank", 9, 3),
    ("bet", 10, 2),
    ("alef", 11, 1),
    ("a column behind the right edge", 12, 0),
];

/// Asserts that each cell of that row shows its position.
fn assert_hit(rt: &impl Abort, matrix: &Matrix)
    requires { AreInPositions (shown_entries matrix.now) }
{
    for (name, column, pos) in &COLUMNS {
        assert_of(rt, name, hits(matrix, 0, *column, *pos));
    }
    assert_of(rt, "a cell below the row", hits(matrix, 1, 11, 0));
}

/// Asserts that each position of that row begins in the last of the cells from the left that show it.
fn assert_found(rt: &impl Abort, matrix: &Matrix) {
    for (name, column, pos) in &COLUMNS[6..12] {
        assert_of(rt, name, begins(matrix, *pos, 0, *column));
    }
    assert!(rt; !matrix.shows(7));
}

/// Asserts that steps lead between the cells of that row that show the end and the digits.
fn assert_steps_between(rt: &impl Abort, alloc: Global, view: &View) {
    assert_step(rt, "right", "the end", leads(alloc, view, 6, true, 4));
    assert_step(rt, "right", "the digit 1", leads(alloc, view, 4, true, 5));
    assert_step(rt, "left", "the digit 2", leads(alloc, view, 5, false, 4));
}

#[test]
fn cells_show_positions(rt: HostRuntime) -> Result<(), Fail> {
    let scenery = scenery(rt.alloc(), "\u{5d0}\u{5d1} 12")?;
    let view = scenery.view();
    let matrix = first_rows::<Brand>(rt.alloc(), &view, Wrap::Truncate, Blank::new(1))?;
    assert_hit(&rt, &matrix);
    assert_found(&rt, &matrix);
    assert_steps_between(&rt, rt.alloc(), &view);
    Ok(())
}
