//! An update that is prepared before any of it is sent, so that sending takes no memory.
ghost use Rattle.std.specs.Prelude.{◌≡◌, ℕ, ◌<◌, ◌≤◌, ◌++◌, ◌-◌, length, Option, IfSome, IfOk, OnOk, OnErr, take, drop, replicate, slice_index_or};
ghost use Rattle.rd_base.specs.Cells.{row_at};
ghost use Rattle.rd_base.specs.Glyphs.{IsRowAfter};
ghost use Rattle.rd_base.specs.declared.limits.TheConstants.{SEQUENCE_VALUE};
ghost use Rattle.rd_io.specs.Devices.{Rose};
ghost use Rattle.rd_term.specs.Pictures.{Picture, IsScreen, IsWellFormed, blank_row, width_of};
ghost use Rattle.rd_update.specs.Updates.{Update, update, opening as opening_of, start, row_bytes, rows_bytes, blank_like, differs};
ghost use Rattle.rd_update.specs.Plans.{Prepared, planned, shown, HaveOneSize, Sends, sent_of, parts_from, old_row as old_row_of, IsRowOf, no_part, front_within, part_if, bytes_if};

use crate::bytes::{push_move, push_row};
use crate::span::differences;
use crate::words::PairWords;
use rd_base::limits::{FRAME_COLUMNS, FRAME_ROWS};
use rd_base::{Cell, Face, ListOf, Memory};
use rd_io::{Sink, write_whole};
use rd_term::{Screen, first_blanks};
use std::alloc::Global;
use std::marker::Model;
use thiserror::Error;

/// The number of a row that differs, from 0, and how many bytes stand before it.
#[derive(Clone, Copy)]
pub(crate) struct ChangedRow {
    row: u32,
    start: usize,
}

/// How many rows were sent, and whether the target is reached: these are all the rows that differ, and the cursor's move too.
#[derive(Clone, Copy, Debug, PartialEq, Eq)]
pub struct Sent {
    pub rows: u32,
    pub done: bool,
}

/// The sink failed. A front of the bytes was written, not all of them.
#[derive(Clone, Copy, Debug, PartialEq, Eq, Error)]
#[error("write fault")]
pub struct WriteFault;

/// The bytes of an update and where each row that differs begins in them.
#[derive(Drop)]
pub struct Plan {
    bytes: ListOf<u8>,
    parts: ListOf<ChangedRow>,
}

impl Model for Plan {
    ghost use Rattle.std.specs.Prelude.{length, ◌≤◌};
    ghost use Rattle.rd_update.specs.Plans.{Prepared, ArePartsOf};

    ghost Value = { Prepared };

    ghost view = { λ p. record { bytes = p.bytes; parts = p.parts } };

    ghost invariant = { λ p. ArePartsOf p.bytes p.parts };
}

impl Plan {
    /// Prepares the update from the current screen, None where nobody knows it, to the target. Both have one size, and in
    /// both each glyph stands whole. Its one error is want of memory. It looks at each cell of both a fixed number of times.
    pub fn prepare(alloc: Global, current: Option<&Screen>, target: &Screen) -> Result<Plan, Memory>
        requires size { HaveOneSize (shown current) target.now }
        requires current { IfSome (shown current) (λ screen. IsWellFormed screen) }
        requires target { IsWellFormed target.now }
        ensures { IfOk result (λ plan. plan ≡ planned (shown current.entry) target.now) }
    {
        let blank = ListOf::filled(alloc, target.width() as usize, Cell::Blank(Face::PLAIN))?;
        let mut bytes = opening(alloc, current)?;
        let mut parts = ListOf::new(alloc);
        push_parts(
            alloc,
            &mut bytes,
            &mut parts,
            current,
            target,
            blank.as_slice(),
        )?;
        let (row, column) = target.cursor();
        push_move(&mut bytes, row, column)?;
        Ok(Plan { bytes, parts })
    }

    /// How many rows of the target differ from the current screen, which counts as blank where it is unknown.
    pub fn rows(&self) -> u32
        ensures { (current : Option Picture) (target : Picture) → self.now ≡ planned current target → result ≡ (update current target None).rows }
    {
        self.parts.len() as u32
    }

    /// Sends the bytes of the rows that differ, from the top, at most so many of them, and then the move of the cursor where
    /// these were all. It takes no memory. A fault comes only where the sink's count of faults rose, and a front of the bytes
    /// was then written.
    pub fn send<K: Sink>(&self, sink: &mut K, rows_at_most: Option<u32>) -> Result<Sent, WriteFault>
        ensures sends { (current : Option Picture) (target : Picture) → self.now ≡ planned current target
            → Sends (K.written sink.old) (K.written sink.new) (update current target rows_at_most) result }
        ensures never_falls { K.faults sink.old ≤ K.faults sink.new }
        ensures kept { OnOk result (K.faults sink.new ≡ K.faults sink.old) }
        ensures failed { OnErr result (Rose (K.faults sink.old) (K.faults sink.new)) }
    {
        let (length, sent) = self.front(rows_at_most);
        send_front(sink, &self.bytes.as_slice()[..length], sent)
    }

    /// The new current screen, of the screens that were prepared and of what `send` answered: the target's cells in the rows that
    /// were sent and the old cells elsewhere, and the target's cursor where the update is done, else the old one. An unknown
    /// screen counts as blank, with its cursor at row 0 and column 0.
    pub fn after(self, current: Option<Screen>, target: Screen, sent: Sent) -> Screen
        requires plan { self ≡ planned current target }
        requires size { HaveOneSize current target }
        requires sent { (limit : Option ℕ) × (sent ≡ sent_of (update current target limit)) }
        ensures { (limit : Option ℕ) → sent ≡ sent_of (update current target limit) → result ≡ (update current target limit).screen }
    {
        if sent.done {
            return target;
        }
        let from = self.row_of(sent.rows);
        match current {
            Some(screen) => with_rows_of(screen, target, from),
            None => with_blanks(target, from),
        }
    }

    /// The number of the row that differs after so many of them.
    fn row_of(&self, rows: u32) -> u32
        requires { rows < length self.now.parts }
        ensures { result ≡ (slice_index_or self.now.parts rows no_part).row }
    {
        self.parts.at(rows as usize).row
    }

    /// How many bytes are sent under a limit of rows, and what `send` answers then.
    fn front(&self, rows_at_most: Option<u32>) -> (usize, Sent)
        ensures value { result ≡ front_within self.now rows_at_most }
        ensures within { result.0 ≤ length self.now.bytes }
    {
        if let Some(limit) = rows_at_most {
            if (limit as usize) < self.parts.len() {
                let sent = Sent {
                    rows: limit,
                    done: false,
                };
                return (self.parts.at(limit as usize).start, sent);
            }
        }
        let sent = Sent {
            rows: self.parts.len() as u32,
            done: true,
        };
        (self.bytes.len(), sent)
    }
}

/// The bytes before those of the rows: an unknown screen is made blank and plain.
fn opening(alloc: Global, current: Option<&Screen>) -> Result<ListOf<u8>, Memory>
    ensures { IfOk result (λ bytes. bytes ≡ opening_of (shown current.entry)) }
{
    match current {
        None => ListOf::from_slice(alloc, b"\x1b[0m\x1b[2J"),
        Some(_screen) => Ok(ListOf::new(alloc)),
    }
}

/// The cells of a row of a screen in which each glyph stands whole.
fn whole_cells_of(screen: &Screen, row: u32) -> &[Cell]
    requires row { row < length screen.now.rows }
    requires form { IsWellFormed screen.now }
    ensures cells { result.now ≡ row_at screen.now.rows row }
    ensures width { length result.now ≡ width_of screen.now.rows }
    ensures narrow { width_of screen.now.rows ≤ FRAME_COLUMNS }
    ensures whole { IsRowAfter 0 result.now }
{
    let _width = screen.width();
    screen.row(row)
}

/// The row of the current screen, where an unknown one has this row everywhere.
fn old_row<'a>(current: Option<&'a Screen>, blank: &'a [Cell], row: u32) -> &'a [Cell]
    requires row { IsRowOf (shown current) (length blank.now) row }
    requires form { IfSome (shown current) (λ screen. IsWellFormed screen) }
    requires blank { IsRowAfter 0 blank.now }
    ensures cells { result.now ≡ old_row_of (shown current.entry) blank.now row }
    ensures width { length result.now ≡ length blank.now }
    ensures whole { IsRowAfter 0 result.now }
{
    match current {
        None => blank,
        Some(screen) => whole_cells_of(screen, row),
    }
}

/// Adds the bytes of a row, if it differs, and where they begin.
fn push_part(
    bytes: &mut ListOf<u8>,
    parts: &mut ListOf<ChangedRow>,
    words: &mut PairWords,
    row: u32,
    old: &[Cell],
    new: &[Cell],
) -> Result<(), Memory>
    requires row { row < SEQUENCE_VALUE }
    requires width { length new.now ≤ FRAME_COLUMNS }
    requires length { length old.now ≡ length new.now }
    requires old { IsRowAfter 0 old.now }
    requires new { IsRowAfter 0 new.now }
    ensures bytes { OnOk result (bytes.new ≡ bytes.old ++ bytes_if (differs old.now new.now) (row_bytes row old.now new.now)) }
    ensures parts { OnOk result (parts.new ≡ parts.old ++ part_if (differs old.now new.now) row (length bytes.old)) }
{
    let Some(differing) = differences(words, old, new)? else {
        return Ok(());
    };
    parts.push(ChangedRow {
        row,
        start: bytes.len(),
    })?;
    push_row(bytes, row, old, new, differing)
}

/// Adds the bytes of each row that differs, and where they begin. `blank` is a blank row of the target's width.
fn push_parts(
    alloc: Global,
    bytes: &mut ListOf<u8>,
    parts: &mut ListOf<ChangedRow>,
    current: Option<&Screen>,
    target: &Screen,
    blank: &[Cell],
) -> Result<(), Memory>
    requires size { HaveOneSize (shown current) target.now }
    requires blank { blank.now ≡ blank_row (width_of target.now.rows) }
    requires current { IfSome (shown current) (λ screen. IsWellFormed screen) }
    requires target { IsWellFormed target.now }
    ensures bytes { OnOk result (bytes.new ≡ bytes.old ++ rows_bytes 0 None (start (shown current.entry) target.now).rows target.now.rows) }
    ensures parts { OnOk result (parts.new ≡ parts.old ++ parts_from 0 (length bytes.old) (start (shown current.entry) target.now).rows target.now.rows) }
    ensures few { length target.now.rows ≤ FRAME_ROWS }
{
    let _width = target.width();
    let mut words = PairWords::none(alloc);
    for row in 0..target.height() {
        let old = old_row(current, blank, row);
        let new = whole_cells_of(target, row);
        push_part(bytes, parts, &mut words, row, old, new)?;
    }
    Ok(())
}

/// Sends the bytes of an update, and where all were written gives `sent` back, which is what that update answers.
fn send_front<K: Sink>(sink: &mut K, bytes: &[u8], sent: Sent) -> Result<Sent, WriteFault>
    ensures sends { (u : Update) → bytes.now ≡ u.bytes → sent ≡ sent_of u → Sends (K.written sink.old) (K.written sink.new) u result }
    ensures never_falls { K.faults sink.old ≤ K.faults sink.new }
    ensures kept { OnOk result (K.faults sink.new ≡ K.faults sink.old) }
    ensures failed { OnErr result (Rose (K.faults sink.old) (K.faults sink.new)) }
{
    let Ok(()) = write_whole(sink, bytes) else {
        return Err(WriteFault);
    };
    Ok(sent)
}

/// A screen with the target's rows before a row.
fn with_rows_of(screen: Screen, target: Screen, from: u32) -> Screen
    requires row { from ≤ length target.rows }
    requires height { length screen.rows ≡ length target.rows }
    requires width { width_of screen.rows ≡ width_of target.rows }
    ensures { result ≡ record screen { rows = take from target.rows ++ drop from screen.rows } }
{
    let mut after = screen;
    for row in 0..from {
        after.set_row(row, target.row(row));
    }
    after
}

/// A target with blank rows from a row on and its cursor at its first cell.
fn with_blanks(target: Screen, from: u32) -> Screen
    requires { from ≤ length target.rows }
    ensures { result ≡ record { rows = take from target.rows ++ drop from (blank_like target.rows); row = 0; column = 0 } }
{
    let blanks = [Cell::Blank(Face::PLAIN); FRAME_COLUMNS as usize];
    let mut after = target;
    let blank = first_blanks(&blanks, after.width());
    fill_from(&mut after, from, blank);
    after.place(0, 0);
    after
}

/// Puts these cells in place of those of each row from a row on.
fn fill_from(screen: &mut Screen, from: u32, cells: &[Cell])
    requires row { from ≤ length screen.old.rows }
    requires width { length cells.now ≡ width_of screen.old.rows }
    ensures screen { screen.new ≡ record screen.old { rows = take from screen.old.rows ++ replicate (length screen.old.rows - from) cells.now } }
    ensures picture { IsScreen screen.old }
{
    let _width = screen.width();
    for row in from..screen.height() {
        screen.set_row(row, cells);
    }
}
