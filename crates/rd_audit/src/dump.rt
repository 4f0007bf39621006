//! The dump of a file.
ghost use Rattle.std.specs.Prelude.{◌≡◌, ◌≤◌, ◌+◌, [], None, option_map, IfOk, IfSome, length};
ghost use Rattle.rd_base.specs.declared.limits.TheConstants.{FILE_BYTES, LEAST_FRAME_ROWS};
ghost use Rattle.rd_io.specs.Lines.{lines_of};
ghost use Rattle.rd_audit.specs.Dumps.{last_group, picture_from, ended_by, dump_in};
ghost use Rattle.rd_audit.specs.Results.{IsReadAs, IsShape, lines_from};
ghost use Rattle.rd_audit.specs.Rows.{cursor_place};

use crate::cuts::{next_line, stripped};
use crate::row::{ROW, cursor_place, is_cursor, is_row, next_row};
use rd_base::{Cell, ListOf, Memory};
use std::alloc::Global;
use thiserror::Error;

/// The rows of a dump and the place of its cursor, from 0.
#[derive(Drop)]
pub struct Dump {
    pub rows: ListOf<ListOf<Cell>>,
    pub row: u32,
    pub column: u32,
}

/// Why a file gave no dump.
#[derive(Clone, Copy, Debug, Error)]
pub enum DumpFault {
    /// The line of this number is bad; 0 where there is no dump.
    #[error("line {0} of the dump is bad")]
    Bad(u32),
    /// Want of memory, which may be answered at any time.
    #[error("no memory")]
    Memory,
}

impl From<Memory> for DumpFault {
    ghost use Rattle.std.specs.Prelude.{◌≡◌};
    ghost use Rattle.rd_audit.specs.declared.dump.DumpFault.TheVariants as faults;

    ghost from_gives = { λ _ e. e ≡ faults.Memory };

    fn from(_none: Memory) -> DumpFault {
        DumpFault::Memory
    }
}

/// The last dump of a file. Its cost is linear in the file's bytes.
pub fn read_dump(alloc: Global, file: &[u8]) -> Result<Dump, DumpFault>
    requires { length file.now ≤ FILE_BYTES }
    ensures read { IsReadAs result (dump_in file.now) }
    ensures shape { IfOk result (λ dump. IsShape dump.rows × (LEAST_FRAME_ROWS ≤ length dump.rows)) }
{
    match last_group(file) {
        Some(start) => read_group(alloc, start.number, file.split_at(start.from).1),
        None => Err(DumpFault::Bad(0)),
    }
}

/// Where a line begins: its number, from 1, and how many bytes stand before it.
#[derive(Clone, Copy)]
pub struct LineStart {
    number: u32,
    from: usize,
}

/// Where the last group of row lines begins that the line of a cursor follows.
fn last_group(file: &[u8]) -> Option<LineStart>
    requires { length file.now ≤ FILE_BYTES }
    ensures value { option_map (lines_from file.now) result ≡ last_group 1 None None (lines_of file.now) }
    ensures within { IfSome result (λ start. (start.from ≤ length file.now) × (start.number ≤ length file.now + 1)) }
{
    let mut groups = Groups {
        begun: None,
        found: None,
    };
    let mut number = 1;
    let mut rest = file;
    while let Some((line, more)) = next_line(rest) {
        let here = LineStart {
            number,
            from: file.len() - rest.len(),
        };
        groups = groups.after(here, line);
        number += 1;
        rest = more;
    }
    groups.found
}

/// Where the group begins that goes on at a line, and the last whole group before it.
#[derive(Clone, Copy)]
struct Groups {
    begun: Option<LineStart>,
    found: Option<LineStart>,
}

impl Groups {
    ghost use Rattle.std.specs.Prelude.{◌≡◌, Some, None, if◌then◌else◌};
    ghost use Rattle.std.specs.Option.{option_or};
    ghost use Rattle.rd_audit.specs.Rows.{is_row, is_cursor};

    /// The groups that were found, behind a line that begins here.
    fn after(self, here: LineStart, line: &[u8]) -> Groups
        ensures begun { result.begun ≡ (if is_row line.now then option_or self.begun (Some here) else None) }
        ensures found { result.found ≡ (if is_row line.now then self.found else if is_cursor line.now then option_or self.begun self.found else self.found) }
    {
        if is_row(line) {
            Groups {
                begun: self.begun.or(Some(here)),
                found: self.found,
            }
        } else if is_cursor(line) {
            Groups {
                begun: None,
                found: self.begun.or(self.found),
            }
        } else {
            Groups {
                begun: None,
                found: self.found,
            }
        }
    }
}

/// The dump of a group, whose first line has this number.
fn read_group(alloc: Global, number: u32, lines: &[u8]) -> Result<Dump, DumpFault>
    requires { number ≤ FILE_BYTES + 1 }
    ensures read { IsReadAs result (picture_from number [] (lines_of lines.now)) }
    ensures shape { IfOk result (λ dump. IsShape dump.rows × (LEAST_FRAME_ROWS ≤ length dump.rows)) }
{
    let mut rows = ListOf::new(alloc);
    let mut rest = lines;
    loop {
        let line_number = number + rows.len() as u32;
        let Some((line, more)) = next_line(rest) else {
            return Err(DumpFault::Bad(line_number));
        };
        let Some(behind) = stripped(ROW, line) else {
            return ended(line_number, rows, line);
        };
        match next_row(alloc, rows.as_slice(), behind)? {
            Some(cells) => rows.push(cells)?,
            None => return Err(DumpFault::Bad(line_number)),
        }
        rest = more;
    }
}

/// The dump of these rows by the line of the cursor, which has this number.
fn ended(number: u32, rows: ListOf<ListOf<Cell>>, line: &[u8]) -> Result<Dump, DumpFault>
    ensures read { IsReadAs result (ended_by number rows (cursor_place rows line.now)) }
    ensures rows { IfOk result (λ dump. (dump.rows ≡ rows) × (LEAST_FRAME_ROWS ≤ length rows)) }
{
    match cursor_place(rows.as_slice(), line) {
        Some((row, column)) => Ok(Dump { rows, row, column }),
        None => Err(DumpFault::Bad(number)),
    }
}
