//! What is told of the frame, the windows and the cursor.
ghost use Rattle.std.specs.Prelude.{◌≡◌, length};
ghost use Rattle.rd_layout.specs.Facts.{facts_of};
ghost use Rattle.rd_embed.specs.Windows.{cursor_of, frame_of, place_of, told_window, window_at};

use crate::choices::NONE;
use crate::embedded::Embedded;
use crate::lent::buffer_in;
use rd_dump::WindowFacts;

/// A row and a column, or how many there are.
#[repr(C)]
#[derive(Clone, Copy, Debug, PartialEq, Eq)]
pub struct Place {
    pub row: u32,
    pub column: u32,
}

/// A window: its number, that of its buffer, its rectangle with margins, mode line and border, its start, its point, and the place of its
/// cursor in its text, which is `NONE` and `NONE` where no row shows point.
#[repr(C)]
#[derive(Clone, Copy, Debug, PartialEq, Eq)]
pub struct WindowTold {
    pub number: u32,
    pub buffer: u32,
    pub row: u32,
    pub column: u32,
    pub height: u32,
    pub width: u32,
    pub start: u32,
    pub start_row: u32,
    pub point: u32,
    pub cursor_row: u32,
    pub cursor_column: u32,
    pub selected: bool,
}

impl Embedded {
    /// The frame's rows and columns.
    pub fn frame_size(&self) -> Place
        ensures { result ≡ frame_of self.now.session }
    {
        let (column, row) = self.session.frame();
        Place { row, column }
    }

    /// The place of the terminal's cursor; None exactly where nothing is known of the screen.
    pub fn cursor(&self) -> Option<Place>
        ensures { result ≡ cursor_of self.now.session }
    {
        let (row, column) = self.session.screen()?.cursor();
        Some(Place { row, column })
    }

    /// How many windows live.
    pub fn windows(&self) -> u32
        ensures { result ≡ length (facts_of self.now.session) }
    {
        let mut count = 0;
        'each_window: while let Some(_facts) = self.session.facts(count) {
            count += 1;
        }
        count
    }

    /// The window at a place in leaf order, from 0; None exactly past the last.
    pub fn window(&self, index: u32) -> Option<WindowTold>
        ensures { result ≡ window_at self.now.session index }
    {
        let facts = self.session.facts(index)?;
        Some(self.told(facts))
    }

    /// What is told of a window.
    fn told(&self, facts: WindowFacts) -> WindowTold
        ensures { result ≡ told_window self.now.session facts }
    {
        let cursor = place_of(facts.cursor);
        WindowTold {
            number: facts.window,
            buffer: buffer_in(&self.session, facts.window),
            row: facts.rect.y,
            column: facts.rect.x,
            height: facts.rect.height,
            width: facts.rect.width,
            start: facts.start.pos,
            start_row: facts.start.row,
            point: facts.point,
            cursor_row: cursor.row,
            cursor_column: cursor.column,
            selected: facts.window == self.session.selected(),
        }
    }

    /// The number of the selected window.
    pub fn selected(&self) -> u32
        ensures { result ≡ self.now.session.state.selected }
    {
        self.session.selected()
    }
}

/// The place of a window's cursor.
fn place_of(cursor: Option<(u32, u32)>) -> Place
    ensures { result ≡ place_of cursor }
{
    match cursor {
        Some((row, column)) => Place { row, column },
        None => Place {
            row: NONE,
            column: NONE,
        },
    }
}
