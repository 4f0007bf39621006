//! Files that list codes with something each.
ghost use Rattle.std.specs.Prelude.{◌≡◌, IfOk, ◌<◌};
ghost use Rattle.rd_base.specs.declared.limits.TheConstants.{CODE_POINTS};
ghost use Rattle.rd_ucd.specs.Codes.{code_of};
ghost use Rattle.rd_ucd.specs.ListFile.{both};
ghost use Rattle.rd_ucd.specs.Pieces.{trimmed};

use crate::codes::read_code;
use crate::fault::UcdFault;
use crate::lines::{LineReader, read_lines};
use crate::pieces::{before_comment, trim, without_return};
use crate::search::{Covers, entry_at};
use rd_base::ListOf;
use std::alloc::Global;
use std::marker::Model;

/// An entry of such a file, which is made of the fields of a line.
pub trait Listed: Covers + Copy {
    ghost use Rattle.std.specs.Prelude.{◌≡◌, ◌<◌, ℕ, List, Result, IfOk};
    ghost use Rattle.rd_base.specs.declared.limits.TheConstants.{CODE_POINTS};
    ghost use Rattle.rd_ucd.specs.declared.fault.UcdFault.{UcdFault};
    ghost use Rattle.rd_ucd.specs.Lines.{fields_of};

    ghost of_fields: { ℕ → List (List ℕ) → Result Self UcdFault };

    /// Reads the line of a number, without its comment. The entry covers one code.
    fn read(line: &[u8], number: u64) -> Result<Self, UcdFault>
        ensures value { result ≡ of_fields number (fields_of line.now) }
        ensures bound { IfOk result (λ entry. (Self.first entry < CODE_POINTS) × (Self.last entry ≡ Self.first entry)) };
}

/// The entries of the lines that were read, and one more than the code of the last of them.
#[derive(Drop)]
struct ListingReader<E> {
    entries: ListOf<E>,
    least: u32,
}

impl<E: Listed> LineReader for ListingReader<E> {
    ghost use Rattle.rd_ucd.specs.Lookup.{AreBelow, IsAscending};
    ghost use Rattle.rd_ucd.specs.ListFile.{listed_from};
    ghost use Rattle.rd_ucd.specs.Results.{behind};

    type Value = E;

    ghost is_reading = { λ s. IsAscending E.first E.last s.entries × AreBelow E.last s.least s.entries };

    ghost whole = { λ s lines. behind s.entries (listed_from E.first E.of_fields s.least lines) };

    fn read_line(&mut self, number: u64, line: &[u8]) -> Result<(), UcdFault> {
        let line = before_comment(without_return(line));
        if trim(line).is_empty() {
            return Ok(());
        }
        let entry = E::read(line, number)?;
        let code = entry.first();
        if code < self.least {
            return Err(UcdFault::NotAscending(number));
        }
        self.entries.push(entry)?;
        self.least = code + 1;
        Ok(())
    }
}

/// The entries that a file gives. Contracts see them in ascending order of their codes.
#[derive(Drop)]
pub struct Listing<E: Covers> {
    entries: ListOf<E>,
}

impl<E: Covers> Model for Listing<E> {
    ghost use Rattle.std.specs.Prelude.{List};
    ghost use Rattle.rd_ucd.specs.Lookup.{IsAscending};

    ghost Value = { List E };

    ghost view = { λ listing. listing.entries };

    ghost invariant = { λ listing. IsAscending E.first E.last listing.entries };
}

impl<E: Covers + Copy> Listing<E> {
    ghost use Rattle.std.specs.Prelude.{◌≡◌};
    ghost use Rattle.rd_ucd.specs.Lookup.{IsAscending, entry_in};

    /// The listing of entries that ascend.
    pub(crate) fn of(entries: ListOf<E>) -> Listing<E>
        requires { IsAscending E.first E.last entries }
        ensures { result ≡ entries }
    {
        Listing { entries }
    }

    /// The entry that covers a code, if there is one. It costs the logarithm of the number of entries.
    pub(crate) fn entry(&self, code: u32) -> Option<E>
        ensures { result ≡ entry_in E.first E.last self.now code }
    {
        entry_at(self.entries.as_slice(), code)
    }
}

impl<E: Listed> Listing<E> {
    ghost use Rattle.std.specs.Prelude.{◌≡◌, []};
    ghost use Rattle.rd_ucd.specs.ListFile.{listed_in};
    ghost use Rattle.rd_ucd.specs.Results.{Answers};

    /// No entry at all, as an empty file gives them. It takes no memory.
    pub fn none(alloc: Global) -> Listing<E>
        ensures { result ≡ [] }
    {
        Listing::of(ListOf::new(alloc))
    }

    /// Reads a file. Its lines end at byte 10, before which one byte 13 is dropped; the last may lack it. From `#` on a line is a
    /// comment, and a line of nothing but spaces and tabs before that is passed over. Else it has as many fields as the form says, cut
    /// by `;`, with spaces and tabs round them dropped, of which the first two are codes. The first codes ascend. Each fault comes
    /// exactly at the first line that has one, with its number from 1, and in a line in the order of `UcdFault`. Want of memory may
    /// come at any line. The cost is linear in the file, and so is the memory.
    pub fn read(alloc: Global, bytes: &[u8]) -> Result<Listing<E>, UcdFault>
        ensures { Answers result (listed_in E.first E.of_fields bytes.now) }
    {
        let empty = ListingReader {
            entries: ListOf::new(alloc),
            least: 0,
        };
        Ok(Listing::of(read_lines(empty, bytes)?.entries))
    }
}

/// The two codes that a line begins with: that of its entry, and the other one, which the entry gives for it.
#[derive(Clone, Copy)]
pub struct Codes {
    pub code: u32,
    pub other: u32,
}

/// Reads the two codes that the first two fields of a line are.
pub fn read_codes(first: &[u8], second: &[u8], number: u64) -> Result<Codes, UcdFault>
    ensures value { result ≡ both number (code_of (trimmed first.now)) (code_of (trimmed second.now)) }
    ensures bound { IfOk result (λ both. both.code < CODE_POINTS) }
{
    let code = read_code(trim(first)).ok_or(UcdFault::BadCode(number))?;
    let other = read_code(trim(second)).ok_or(UcdFault::BadCode(number))?;
    Ok(Codes { code, other })
}
