//! The dump of a screen and of the windows on it.
ghost use Rattle.std.specs.Prelude.{◌++◌, Some};
ghost use Rattle.rd_base.specs.Glyphs.{glyph_bytes};
ghost use Rattle.rd_io.specs.Devices.{Prints};
ghost use Rattle.rd_dump.specs.Dumps.{dump_text, windows_text, window_line, place_text, rows_text, row_line, cells_text, cell_text};

use crate::at_once::{Printed, print_at_once};
use crate::print::{Token, print_between, print_each, print_tokens};
use crate::runs::print_runs;
use rd_base::{Anchor, Cell, Glyph, Pos};
use rd_io::{Failed, Sink, write_character};
use rd_term::Screen;
use rd_tree::Rect;

/// What a dump says of a window: its number, its rectangle, the start of its view, its point, and the row and column of its
/// cursor in it, from 0.
#[derive(Clone, Copy, Debug, PartialEq, Eq)]
pub struct WindowFacts {
    pub window: u32,
    pub rect: Rect,
    pub start: Anchor,
    pub point: Pos,
    pub cursor: Option<(u32, u32)>,
}

/// A line of a dump: that of a window, of a row with its number and cells, or of the cursor with its row and column.
#[derive(Clone, Copy)]
enum DumpLine<'a> {
    Window(&'a WindowFacts),
    Row(u32, &'a [Cell]),
    Cursor((u32, u32)),
}

/// Writes the dump of a screen: a line for each window in the order given, a line for each row of the screen, and a line for its
/// cursor. It takes no memory, and each line of a screen of at most 400 columns is one write. After a failure a front of the dump
/// was written.
pub fn print_dump<K: Sink>(
    sink: &mut K,
    screen: &Screen,
    windows: &[WindowFacts],
) -> Result<(), Failed>
    ensures { Prints (K.written sink.old) (K.written sink.new) (K.faults sink.old) (K.faults sink.new) (dump_text screen.now windows.now) result }
{
    print_windows(sink, windows)?;
    print_rows(sink, screen)?;
    print_at_once(sink, &DumpLine::Cursor(screen.cursor()))
}

impl Printed for DumpLine<'_> {
    ghost use Rattle.rd_dump.specs.Dumps.{line_text};

    ghost text = { line_text };

    fn print<K: Sink>(&self, sink: &mut K) -> Result<(), Failed> {
        match self {
            DumpLine::Window(facts) => print_window_tokens(sink, facts),
            DumpLine::Row(row, cells) => print_row_tokens(sink, *row, cells),
            DumpLine::Cursor(place) => print_placed(sink, "cursor ", *place),
        }
    }
}

/// Writes a line for each window.
fn print_windows<K: Sink>(sink: &mut K, windows: &[WindowFacts]) -> Result<(), Failed>
    ensures { Prints (K.written sink.old) (K.written sink.new) (K.faults sink.old) (K.faults sink.new) (windows_text windows.now) result }
{
    print_each(sink, windows, print_window)
}

/// Writes the line of a window.
fn print_window<K: Sink>(sink: &mut K, facts: &WindowFacts) -> Result<(), Failed>
    ensures { Prints (K.written sink.old) (K.written sink.new) (K.faults sink.old) (K.faults sink.new) (window_line facts.now) result }
{
    print_at_once(sink, &DumpLine::Window(facts))
}

/// Writes the tokens of a window's line.
fn print_window_tokens<K: Sink>(sink: &mut K, facts: &WindowFacts) -> Result<(), Failed>
    ensures { Prints (K.written sink.old) (K.written sink.new) (K.faults sink.old) (K.faults sink.new) (window_line facts.now) result }
{
    let tokens = [
        Token::Text("window "),
        Token::Number(facts.window as u64),
        Token::Text(" at "),
        Token::Number(facts.rect.y as u64),
        Token::Text(","),
        Token::Number(facts.rect.x as u64),
        Token::Text(" size "),
        Token::Number(facts.rect.width as u64),
        Token::Text("x"),
        Token::Number(facts.rect.height as u64),
        Token::Text(" start "),
        Token::Number(facts.start.pos as u64),
        Token::Text("."),
        Token::Number(facts.start.row as u64),
        Token::Text(" point "),
        Token::Number(facts.point as u64),
        Token::Text(" cursor "),
    ];
    print_tokens(sink, &tokens)?;
    print_place(sink, facts.cursor)
}

/// Writes the place of a cursor, and the end of its line.
fn print_place<K: Sink>(sink: &mut K, place: Option<(u32, u32)>) -> Result<(), Failed>
    ensures { Prints (K.written sink.old) (K.written sink.new) (K.faults sink.old) (K.faults sink.new) (place_text place) result }
{
    match place {
        Some(place) => print_placed(sink, "", place),
        None => print_tokens(sink, &[Token::Text("none\n")]),
    }
}

/// Writes a word, the row and the column of a place, and the end of the line.
pub fn print_placed<K: Sink>(sink: &mut K, word: &str, place: (u32, u32)) -> Result<(), Failed>
    ensures { Prints (K.written sink.old) (K.written sink.new) (K.faults sink.old) (K.faults sink.new) (word.now ++ place_text (Some place)) result }
{
    let tokens = [
        Token::Text(word),
        Token::Number(place.0 as u64),
        Token::Text(","),
        Token::Number(place.1 as u64),
        Token::Text("\n"),
    ];
    print_tokens(sink, &tokens)
}

/// Writes a line for each row of a screen.
fn print_rows<K: Sink>(sink: &mut K, screen: &Screen) -> Result<(), Failed>
    ensures { Prints (K.written sink.old) (K.written sink.new) (K.faults sink.old) (K.faults sink.new) (rows_text 0 screen.now.rows) result }
{
    for row in 0..screen.height() {
        print_at_once(sink, &DumpLine::Row(row, screen.row(row)))?;
    }
    Ok(())
}

/// Writes the tokens of a row's line: its text between two bytes `|`, and the runs of its faces.
fn print_row_tokens<K: Sink>(sink: &mut K, row: u32, cells: &[Cell]) -> Result<(), Failed>
    ensures { Prints (K.written sink.old) (K.written sink.new) (K.faults sink.old) (K.faults sink.new) (row_line row cells.now) result }
{
    print_between(sink, "row ", row as u64, " |")?;
    print_cells(sink, cells)?;
    print_tokens(sink, &[Token::Text("|")])?;
    print_runs(sink, cells)?;
    print_tokens(sink, &[Token::Text("\n")])
}

/// Writes the text of cells.
fn print_cells<K: Sink>(sink: &mut K, cells: &[Cell]) -> Result<(), Failed>
    ensures { Prints (K.written sink.old) (K.written sink.new) (K.faults sink.old) (K.faults sink.new) (cells_text cells.now) result }
{
    print_each(sink, cells, print_cell)
}

/// Writes the text of a cell.
fn print_cell<K: Sink>(sink: &mut K, cell: &Cell) -> Result<(), Failed>
    ensures { Prints (K.written sink.old) (K.written sink.new) (K.faults sink.old) (K.faults sink.new) (cell_text cell.now) result }
{
    match cell {
        Cell::Blank(_face) => print_tokens(sink, &[Token::Text(" ")]),
        Cell::First(glyph, _face) => print_glyph(sink, glyph),
        Cell::Rest => Ok(()),
    }
}

/// Writes a character and its marks.
fn print_glyph<K: Sink>(sink: &mut K, glyph: &Glyph) -> Result<(), Failed>
    ensures { Prints (K.written sink.old) (K.written sink.new) (K.faults sink.old) (K.faults sink.new) (glyph_bytes glyph.now) result }
{
    write_character(sink, glyph.base)?;
    print_each(sink, glyph.joining(), |sink, mark| {
        write_character(sink, *mark)
    })
}
