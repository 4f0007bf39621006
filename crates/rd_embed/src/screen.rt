//! What is told of the screen: its rows, and what stands under a cell.
ghost use Rattle.std.specs.Prelude.{◌≡◌, option_map};
ghost use Rattle.rd_layout.specs.Spots.{spot_at};
ghost use Rattle.rd_embed.specs.Screens.{GivesRow, part_of, position_shown, row_of, row_texts, told_spot};
ghost use Rattle.rd_embed.specs.Fills.{GivesWhole};

use crate::choices::NONE;
use crate::embedded::Embedded;
use crate::fill::fill_whole;
use crate::spelling::Cells;
use crate::told_cells::{CellTold, fill_cells};
use rd_base::Cell;
use rd_session::{Shows, Spot};

/// What stands under a cell of the frame: 0 a window's text, 1 its margin, 2 its mode line, 3 its border, 4 the echo area; the window
/// (`NONE` of the echo area); and of a text the position (`NONE` where the cell shows none) and the row and column within it.
#[repr(C)]
#[derive(Clone, Copy, Debug, PartialEq, Eq)]
pub struct SpotTold {
    pub part: u32,
    pub window: u32,
    pub position: u32,
    pub row: u32,
    pub column: u32,
}

impl Embedded {
    /// Puts the first cells of a row of the screen into a buffer of the caller, as many as there is room for, and answers how many; None
    /// exactly where nothing is known of the screen or it has no such row, and then nothing is put in.
    pub fn row(&self, row: u32, cells: &mut [CellTold]) -> Option<usize>
        ensures { GivesRow result (row_of self.now.session.current row) cells.old cells.new }
    {
        match self.screen_row(row) {
            Some(shown) => Some(fill_cells(cells, shown)),
            None => None,
        }
    }

    /// Puts the characters of a row of the screen with their marks into a buffer of the caller in UTF-8, as many as fit whole, and answers
    /// how many bytes; None exactly where `row` answers it.
    pub fn row_text(&self, row: u32, out: &mut [u8]) -> Option<usize>
        ensures { GivesWhole result (row_texts self.now.session.current row) out.old out.new }
    {
        match self.screen_row(row) {
            Some(cells) => Some(fill_whole(out, &Cells { cells }).bytes),
            None => None,
        }
    }

    /// The cells of a row of the screen, where it is known and has the row.
    fn screen_row(&self, row: u32) -> Option<&[Cell]>
        ensures { option_map (λ cells. cells.now) result ≡ row_of self.now.session.current row }
    {
        let screen = self.session.screen()?;
        if row < screen.height() {
            Some(screen.row(row))
        } else {
            None
        }
    }

    /// What stands under a cell of the frame; None exactly outside of it. Point stays.
    pub fn under(&self, row: u32, column: u32) -> Option<SpotTold>
        ensures { result ≡ option_map told_spot (spot_at self.now.session row column) }
    {
        let spot = self.session.under(row, column)?;
        Some(told_spot(spot))
    }
}

/// What is told of what stands under a cell.
fn told_spot(spot: Spot) -> SpotTold
    ensures { result ≡ told_spot spot }
{
    match spot {
        Spot::Text {
            window,
            row,
            column,
            shows,
        } => SpotTold {
            part: 0,
            window,
            position: position_shown(shows),
            row,
            column,
        },
        Spot::Margin { window } => part_of(1, window),
        Spot::ModeLine { window } => part_of(2, window),
        Spot::Border { window } => part_of(3, window),
        Spot::EchoArea => part_of(4, NONE),
    }
}

/// What is told of a part that shows no position.
fn part_of(part: u32, window: u32) -> SpotTold
    ensures { result ≡ part_of part window }
{
    SpotTold {
        part,
        window,
        position: NONE,
        row: 0,
        column: 0,
    }
}

/// The position that a cell shows.
fn position_shown(shows: Shows) -> u32
    ensures { result ≡ position_shown shows }
{
    match shows {
        Shows::Position(pos) => pos,
        Shows::NoPosition => NONE,
        Shows::Unknown => NONE,
    }
}
