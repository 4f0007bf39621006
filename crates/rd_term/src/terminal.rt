//! The terminal: what it shows, by the bytes that it reads.
ghost use Rattle.std.specs.Prelude.{◌≡◌, ◌<◌, OnOk, OnErr, IfOk, length, slice_index_or};
ghost use Rattle.rd_base.specs.Cells.{row_at};
ghost use Rattle.rd_term.specs.Pictures.{IsFrameSize, width_of};
ghost use Rattle.rd_term.specs.Terminals.{IsTerminal, unknown, feed_byte, feed_bytes, perform, obey};

use crate::control::Control;
use crate::reading::{Reading, Step};
use crate::rows::filled;
use crate::shifting::RowMove;
use rd_base::{Cell, Face, ListOf, Memory};
use std::alloc::Global;
use std::marker::Model;

/// A terminal of up to 200 rows of one width, up to 400 columns. It begins with nothing known. It reads characters in UTF-8 and
/// these control sequences, with numbers from 1: `ESC [ r ; c H` (cursor position), `ESC [ 2 J` (erase in page), `ESC [ K` (erase
/// in line), `ESC [ n L` (insert line), `ESC [ n M` (delete line) and `ESC [ a ; b ; .. m` (select graphic rendition, with 0, 1, 4,
/// 7, 30 to 37 and 40 to 47) of ECMA-48, and `ESC [ t ; b r` (set top and bottom margins) of the VT100. A character of no column
/// joins the one that was put directly before it. What else the terminal reads makes it confused, and then it stays as it is.
#[derive(Drop)]
pub struct Terminal {
    pub(crate) rows: Vec<ListOf<Option<Cell>>>,
    pub(crate) region: Option<(u32, u32)>,
    pub(crate) cursor: Option<(u32, u32)>,
    pub(crate) wait: bool,
    pub(crate) pen: Option<Face>,
    pub(crate) latest: Option<(u32, u32)>,
    reading: Reading,
    pub(crate) confused: bool,
}

impl Model for Terminal {
    ghost use Rattle.rd_term.specs.Terminals.{Tty, IsWhole};

    ghost Value = { Tty };

    ghost view = { λ t. record {
      rows = t.rows.items;
      region = t.region;
      cursor = t.cursor;
      wait = t.wait;
      pen = t.pen;
      latest = t.latest;
      reading = t.reading;
      confused = t.confused;
    } };

    ghost invariant = { λ t. IsWhole t.rows.items t.cursor t.latest t.region };
}

impl Terminal {
    /// A terminal of which nothing is known.
    pub fn new(alloc: Global, width: u32, height: u32) -> Result<Terminal, Memory>
        requires { IsFrameSize width height }
        ensures { IfOk result (λ terminal. terminal ≡ unknown width height) }
    {
        Ok(Terminal {
            rows: filled(alloc, width, height, None)?,
            region: None,
            cursor: None,
            wait: false,
            pen: None,
            latest: None,
            reading: Reading::Between,
            confused: false,
        })
    }

    /// Becomes a terminal of another size of which nothing is known. Where memory is wanting nothing changes.
    pub fn resize(&mut self, width: u32, height: u32) -> Result<(), Memory>
        requires { IsFrameSize width height }
        ensures ok { OnOk result (self.new ≡ unknown width height) }
        ensures err { OnErr result (self.new ≡ self.old) }
    {
        let alloc = *self.rows.allocator();
        *self = Terminal::new(alloc, width, height)?;
        Ok(())
    }

    /// Reads bytes, one after another. They may be cut anywhere, also within a sequence.
    pub fn feed(&mut self, bytes: &[u8])
        ensures { self.new ≡ feed_bytes self.old bytes.now }
    {
        for byte in bytes {
            self.read(*byte);
        }
    }

    /// What stands at a place on the screen, and None exactly where that is not known.
    pub fn cell(&self, row: u32, column: u32) -> Option<Cell>
        requires row { row < length self.now.rows }
        requires column { column < width_of self.now.rows }
        ensures { result ≡ slice_index_or (row_at self.now.rows row) column None }
    {
        self.rows[row as usize].at(column as usize)
    }

    /// The cursor's row and column, from 0, and None exactly where they are not known.
    pub fn cursor(&self) -> Option<(u32, u32)>
        ensures { result ≡ self.now.cursor }
    {
        self.cursor
    }

    /// Whether the terminal has read what it could not obey.
    pub fn confused(&self) -> bool
        ensures { result ≡ self.now.confused }
    {
        self.confused
    }

    /// How many columns each row has. Its clause `terminal` says which terminals there are: at least one row and one
    /// column, at most 200 and 400, and a known cursor on them.
    pub fn width(&self) -> u32
        ensures value { result ≡ width_of self.now.rows }
        ensures terminal { IsTerminal self.now.rows self.now.cursor }
    {
        self.rows[0].len() as u32
    }

    /// How many rows there are.
    pub fn height(&self) -> u32
        ensures { result ≡ length self.now.rows }
    {
        self.rows.len() as u32
    }

    /// Reads one byte.
    fn read(&mut self, byte: u8)
        ensures { self.new ≡ feed_byte self.old byte }
    {
        if self.confused {
            return;
        }
        let reading = std::mem::replace(&mut self.reading, Reading::Between);
        self.perform(reading.next(byte));
    }

    /// Does what was read.
    fn perform(&mut self, step: Step)
        ensures { self.new ≡ perform step self.old }
    {
        match step {
            Step::Begins => {
                self.reading = Reading::Escaped;
                self.latest = None;
            }
            Step::GoesOn(reading) => self.reading = reading,
            Step::Prints(code) => self.show(code),
            Step::Obeys(control, numbers) => self.obey(control, numbers.as_slice()),
            Step::Fails => self.confused = true,
        }
    }

    /// Obeys a control function.
    fn obey(&mut self, control: Control, numbers: &[u32])
        ensures { self.new ≡ obey control numbers.now self.old }
    {
        match control {
            Control::MoveTo => self.move_to(numbers),
            Control::ClearAll => self.clear(numbers),
            Control::EraseToEnd => self.erase(numbers),
            Control::InsertRows => self.shift_rows(RowMove::Down, numbers),
            Control::DeleteRows => self.shift_rows(RowMove::Up, numbers),
            Control::ChangePen => self.dress(numbers),
            Control::SetRegion => self.set_region(numbers),
        }
    }
}
