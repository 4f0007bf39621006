//! What a terminal does by a control function.
ghost use Rattle.std.specs.Prelude.{◌≡◌, ◌≤◌, IfSome, length};
ghost use Rattle.rd_term.specs.Shifts.{rows_moved};
ghost use Rattle.rd_term.specs.Terminals.{move_to, on_screen, clear, erase, dress, set_region, shift_rows, may_move, writes_plain};

use crate::overwriting::erase_from;
use crate::pen::{are_renditions, pen_by};
use crate::shifting::{RowMove, clear_all, move_rows};
use crate::terminal::Terminal;
use rd_base::Face;

impl Terminal {
    /// Moves the cursor to a row and a column, counted from 1.
    pub(crate) fn move_to(&mut self, numbers: &[u32])
        ensures { self.new ≡ move_to numbers.now self.old }
    {
        match numbers {
            [row, column] if self.has(*row, *column) => {
                self.cursor = Some((*row - 1, *column - 1));
                self.wait = false;
            }
            _ => self.confused = true,
        }
    }

    /// Whether a row and a column, counted from 1, are on the screen.
    fn has(&self, row: u32, column: u32) -> bool
        ensures { result ≡ on_screen self.now.rows row column }
    {
        if row == 0 || row as usize > self.rows.len() {
            return false;
        }
        column > 0 && column as usize <= self.rows[row as usize - 1].len()
    }

    /// Makes all cells blank.
    pub(crate) fn clear(&mut self, numbers: &[u32])
        ensures { self.new ≡ clear numbers.now self.old }
    {
        match numbers {
            [2] if writes_plain(self.pen) => clear_all(&mut self.rows),
            _ => self.confused = true,
        }
    }

    /// Makes the cells from the cursor to its row's end blank.
    pub(crate) fn erase(&mut self, numbers: &[u32])
        ensures { self.new ≡ erase numbers.now self.old }
    {
        if !numbers.is_empty() || self.wait || !writes_plain(self.pen) {
            self.confused = true;
            return;
        }
        match self.cursor {
            Some((row, column)) => {
                let cells = &mut self.rows[row as usize];
                erase_from(cells, column as usize);
            }
            None => self.confused = true,
        }
    }

    /// Changes the pen.
    pub(crate) fn dress(&mut self, numbers: &[u32])
        ensures { self.new ≡ dress numbers.now self.old }
    {
        if numbers.is_empty() || !are_renditions(numbers) {
            self.confused = true;
            return;
        }
        self.pen = pen_by(numbers, self.pen);
    }

    /// Makes rows, from one to a lower one and counted from 1, the region. The cursor is not known then.
    pub(crate) fn set_region(&mut self, numbers: &[u32])
        ensures { self.new ≡ set_region numbers.now self.old }
    {
        match numbers {
            [top, bottom] if *top > 0 && *top < *bottom && *bottom as usize <= self.rows.len() => {
                self.region = Some((*top - 1, *bottom - 1));
                self.cursor = None;
                self.wait = false;
            }
            _ => self.confused = true,
        }
    }

    /// Moves the rows from the cursor's to the region's last down, as rows that are inserted do, or up, as deleted ones do. Blank ones come
    /// in their place.
    pub(crate) fn shift_rows(&mut self, way: RowMove, numbers: &[u32])
        ensures { self.new ≡ shift_rows way numbers.now self.old }
    {
        match (numbers, self.rows_moved()) {
            ([count], Some((from, end))) if self.may_move(*count) => {
                move_rows(
                    &mut self.rows,
                    from as usize,
                    end as usize,
                    way,
                    *count as usize,
                );
                self.cursor = None;
            }
            _ => self.confused = true,
        }
    }

    /// The rows from the cursor's to the region's last, from one to before another. None where the cursor is not in the region.
    fn rows_moved(&self) -> Option<(u32, u32)>
        ensures value { result ≡ rows_moved self.now.region self.now.cursor }
        ensures within { IfSome result (λ part. (part.0 ≤ part.1) × (part.1 ≤ length self.now.rows)) }
    {
        match (self.region, self.cursor) {
            (Some((first, last)), Some((row, _))) if first <= row && row <= last => {
                Some((row, last + 1))
            }
            _ => None,
        }
    }

    /// Whether rows may be moved by so many.
    fn may_move(&self, count: u32) -> bool
        ensures { result ≡ may_move count self.now }
    {
        count > 0 && writes_plain(self.pen) && !self.wait
    }
}

/// Whether the pen is known to be plain.
fn writes_plain(pen: Option<Face>) -> bool
    ensures { result ≡ writes_plain pen }
{
    match pen {
        None => false,
        Some(face) => face.is_same(Face::PLAIN),
    }
}
