//! The terminal and the screen on worked streams.
use crate::claims::assert_of;
use rd_base::{Cell, Face, Glyph, Memory};
use rd_term::{Screen, Terminal};
use std::alloc::Global;
use std::process::Abort;
use std::test::Fail;

/// A face in red.
const RED: Face = Face {
    fg: 1,
    ..Face::PLAIN
};

/// Whether a cell stands at a place; None says that it is not known there, or that the place is off the screen.
fn shows(terminal: &Terminal, row: u32, column: u32, cell: Option<Cell>) -> bool {
    if row < terminal.height() && column < terminal.width() {
        terminal.cell(row, column) == cell
    } else {
        cell.is_none()
    }
}

/// Whether a letter stands at a place.
fn shows_letter(terminal: &Terminal, row: u32, column: u32, code: u8) -> bool {
    let cell = Cell::First(Glyph::single(code as u32, 1), Face::PLAIN);
    shows(terminal, row, column, Some(cell))
}

/// Whether the cursor stands at a place; None says that it is not known.
fn points_at(terminal: &Terminal, place: Option<(u32, u32)>) -> bool {
    terminal.cursor() == place
}

/// Asserts that letters stand at these places.
fn assert_letters(rt: &impl Abort, terminal: &Terminal, letters: &[(&str, u32, u32, u8)]) {
    for (name, row, column, code) in letters {
        let shown = shows_letter(terminal, *row, *column, *code);
        assert_of(rt, name, shown);
    }
}

/// Asserts that an update that stopped in the middle of a control is gone on with, and that after a resize nothing is known.
fn assert_gone_on_with(rt: &impl Abort, terminal: &mut Terminal) {
    terminal.feed(b"\x1b[0m\x1b[2J\x1b[1;1Ha\x1b[2;1Hb");
    assert_of(
        rt,
        "the cursor before the update",
        points_at(terminal, Some((1, 1))),
    );
    terminal.feed(b"\x1b[1;1HXa\x1b[3;1Hc\x1b[4");
    terminal.feed(b";1Hd\x1b[5;1He\x1b[1;1H");
    assert!(rt; !terminal.confused());
    assert_of(
        rt,
        "the cursor behind the update",
        points_at(terminal, Some((0, 0))),
    );
    let letters = [
        ("what stands over a", 0, 0, b'X'),
        ("a, a column on", 0, 1, b'a'),
        ("a row that stayed", 1, 0, b'b'),
        ("a row before the stop", 2, 0, b'c'),
        ("a row behind the stop", 4, 0, b'e'),
    ];
    assert_letters(rt, terminal, &letters);
    assert_of(
        rt,
        "a row that stayed blank",
        shows(terminal, 5, 0, Some(Cell::Blank(Face::PLAIN))),
    );
    assert!(rt; terminal.resize(12, 6).is_ok());
    assert_of(rt, "a cell after the resize", shows(terminal, 0, 0, None));
    assert_of(rt, "the cursor after the resize", points_at(terminal, None));
}

#[test]
fn an_update_that_stopped_is_gone_on_with(rt: HostRuntime) -> Result<(), Fail> {
    let mut terminal = Terminal::new(rt.alloc(), 12, 6)?;
    assert_gone_on_with(&rt, &mut terminal);
    Ok(())
}

/// Asserts that rows of a region are moved up, and that after a resize the region is not known, so that no row can be moved.
fn assert_moved(rt: &impl Abort, terminal: &mut Terminal) {
    terminal.feed(b"\x1b[0m\x1b[2J\x1b[1;1Ha\x1b[2;1Hb\x1b[5;1He\x1b[6;1H!");
    terminal.feed(b"\x1b[1;5r\x1b[1;1H\x1b[1M\x1b[1;6r\x1b[5;1Hf\x1b[1;1H");
    let letters = [
        ("the first row that moved", 0, 0, b'b'),
        ("the last row that moved", 3, 0, b'e'),
        ("a row that was filled", 4, 0, b'f'),
        ("the row below the region", 5, 0, b'!'),
    ];
    assert_letters(rt, terminal, &letters);
    assert!(rt; !terminal.confused());
    assert!(rt; terminal.resize(12, 6).is_ok());
    terminal.feed(b"\x1b[0m\x1b[1;1H\x1b[1M");
    assert!(rt; terminal.confused());
}

#[test]
fn a_region_is_moved_and_forgotten(rt: HostRuntime) -> Result<(), Fail> {
    let mut terminal = Terminal::new(rt.alloc(), 12, 6)?;
    assert_moved(&rt, &mut terminal);
    Ok(())
}

/// A red cell.
fn red(glyph: Glyph) -> Option<Cell> {
    Some(Cell::First(glyph, RED))
}

/// Asserts that these cells stand in the first row of a terminal.
fn assert_cells(rt: &impl Abort, terminal: &Terminal, cells: &[(&str, u32, Option<Cell>)]) {
    for (name, column, cell) in cells {
        assert_of(rt, name, shows(terminal, 0, *column, *cell));
    }
}

/// Asserts how many columns are taken by a letter with an acute accent, a character of two columns that is cut between two feeds, and
/// one of three.
fn assert_columns(rt: &impl Abort, terminal: &mut Terminal) {
    terminal.feed(b"\x1b[0;31m\x1b[1;1He\xcc\x81\xe4\xb8");
    terminal.feed(b"\xad\xe1\x9f\x98x");
    let accented = Glyph {
        marks: [0x301, 0, 0, 0, 0, 0],
        count: 1,
        ..Glyph::single(101, 1)
    };
    let cells = [
        ("an accented letter", 0, red(accented)),
        ("two columns", 1, red(Glyph::single(0x4e2d, 2))),
        ("the second of two columns", 2, Some(Cell::Rest)),
        ("three columns", 3, red(Glyph::single(0x17d8, 3))),
        ("a letter behind them", 6, red(Glyph::single(120, 1))),
        ("a column without a character", 7, None),
    ];
    assert_cells(rt, terminal, &cells);
    assert!(rt; !terminal.confused());
}

#[test]
fn characters_take_their_columns(rt: HostRuntime) -> Result<(), Fail> {
    let mut terminal = Terminal::new(rt.alloc(), 8, 1)?;
    assert_columns(&rt, &mut terminal);
    Ok(())
}

/// A blank screen of three columns and two rows in which one cell was set, two cells at once, and the cursor.
fn written(alloc: Global) -> Result<Screen, Memory> {
    let mut screen = Screen::blank(alloc, 3, 2)?;
    screen.set(1, 2, Cell::Blank(RED));
    screen.set_cells(0, 1, &[Cell::Blank(RED), Cell::Blank(Face::PLAIN)]);
    screen.place(1, 0);
    Ok(screen)
}

/// Whether a blank of a face stands at a place of a screen.
fn is_blank(screen: &Screen, row: u32, column: u32, face: Face) -> bool {
    row < screen.height()
        && column < screen.width()
        && screen.cell(row, column) == Cell::Blank(face)
}

/// Asserts what stands in the screen above.
fn assert_written(rt: &impl Abort, screen: &Screen) {
    assert!(rt; screen.cursor() == (1, 0));
    assert_of(
        rt,
        "the first of two cells that were set at once",
        is_blank(screen, 0, 1, RED),
    );
    assert_of(
        rt,
        "the second of two cells that were set at once",
        is_blank(screen, 0, 2, Face::PLAIN),
    );
    assert_of(
        rt,
        "a cell that was not set",
        is_blank(screen, 1, 1, Face::PLAIN),
    );
    assert_of(rt, "a cell that was set alone", is_blank(screen, 1, 2, RED));
    assert!(rt; (screen.width(), screen.height()) == (3, 2));
}

#[test]
fn a_screen_is_written(rt: HostRuntime) -> Result<(), Fail> {
    let screen = written(rt.alloc())?;
    assert_written(&rt, &screen);
    Ok(())
}
