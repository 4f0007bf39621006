//! The lines of a source.
ghost use Rattle.std.specs.Prelude.{◌≡◌, ◌≤◌, ◌+◌, ◌⊎◌, ◌++◌, [], ℕ, List, None, IfOk, IfSome, IsErrOf, MatchOption, ◌==◌, position};
ghost use Rattle.std.specs.List.{AllByRecursion};
ghost use Rattle.std.specs.Io.KnownBytes.{Consumes};
ghost use Rattle.rd_io.specs.Devices.{Rose};
ghost use Rattle.rd_io.specs.Lines.{Answers, Keeps, lines_of, text_of_lines, IsUnbroken, last_of};
ghost use Rattle.rd_io.specs.Pieces.{BreaksAt, IsLeft, PutsPiece, ReadsOn, TakesPiece, Gathers};

use crate::chunk::Chunk;
use crate::copy::put_within;
use crate::traits::Source;
use rd_base::Memory;
use rd_base::limits::{LINE_BYTES, LINES};
use std::alloc::Global;
use std::marker::Model;
use thiserror::Error;

/// Why there is no further line.
#[derive(Clone, Copy, Debug, PartialEq, Eq, Error)]
pub enum LineFault {
    /// The source failed.
    #[error("the source failed")]
    Failed,
    /// A line has more than 1,048,576 bytes.
    #[error("a line is too long")]
    TooLong,
    /// The source has more than 1,000,000 lines.
    #[error("there are too many lines")]
    TooMany,
    /// Want of memory, which may be answered at any time.
    #[error("no memory")]
    Memory,
}

/// The lines of a source, one at a time: its bytes are cut at each newline, byte 10, and what follows the last newline is a
/// line where it is not empty.
#[derive(Drop)]
pub struct Lines {
    chunk: Chunk,
    line: Vec<u8>,
    given: u32,
    ended: bool,
    fault: Option<LineFault>,
}

impl Model for Lines {
    ghost use Rattle.std.specs.Prelude.{◌≡◌, [], true};
    ghost use Rattle.rd_io.specs.Lines.{Reading};

    ghost Value = { Reading };

    ghost view = { λ s. record { held = s.chunk; line = s.line.items; given = s.given; ended = s.ended; fault = s.fault } };

    ghost invariant = { λ s. s.ended ≡ true → s.chunk ≡ [] };
}

impl Lines {
    ghost use Rattle.std.specs.Prelude.{◌≡◌, ◌≤◌, ◌⊎◌, ℕ, List, None, true, false, IfOk, IfSome, IsErrOf};
    ghost use Rattle.std.specs.Io.KnownBytes.{Consumes};
    ghost use Rattle.rd_io.specs.Devices.{Rose};
    ghost use Rattle.rd_io.specs.Lines.{unread, Answers, Keeps, IsUnbroken};
    ghost use Rattle.rd_io.specs.Pieces.{ReadsOn};

    /// A reader that has read nothing.
    pub fn new(alloc: Global) -> Result<Lines, Memory>
        ensures { IfOk result (λ lines. lines ≡ unread) }
    {
        Ok(Lines {
            chunk: Chunk::new(alloc)?,
            line: Vec::new(alloc),
            given: 0,
            ended: false,
            fault: None,
        })
    }

    /// Reads the next line of the bytes that are held followed by those of the source, and answers whether there is one. It
    /// answers false exactly at the end of input. After a fault every call answers that fault, and reads nothing. The source
    /// is read only while the bytes that are held have no newline, at most 8,192 bytes at a time. Its count of faults rises where it
    /// fails, and else stays as it was. A line's bytes are looked through once and copied twice.
    pub fn next<S: Source>(&mut self, source: &mut S) -> Result<bool, LineFault>
        ensures stuck { IfSome self.old.fault (λ fault. (result ≡ Err fault) × (self.new ≡ self.old) × (source.new ≡ source.old)) }
        ensures answers { self.old.fault ≡ None → (bytes : List ℕ) × Consumes (S.left source.old) (S.left source.new) bytes
            × Answers result self.old self.new bytes (S.left source.new) × ReadsOn self.old.held bytes }
        ensures over { self.old.fault ≡ None → self.old.ended ≡ true → (result ≡ Ok false) × (source.new ≡ source.old) }
        ensures reads { (source.new ≡ source.old) ⊎ IsUnbroken self.old.held }
        ensures never_falls { S.faults source.old ≤ S.faults source.new }
        ensures kept { Keeps result (S.faults source.old) (S.faults source.new) }
        ensures failed { self.old.fault ≡ None → IsErrOf result LineFault.Failed → Rose (S.faults source.old) (S.faults source.new) }
    {
        if let Some(fault) = self.fault {
            return Err(fault);
        }
        if self.ended {
            self.line.clear();
            return Ok(false);
        }
        match gather(&mut self.chunk, &mut self.line, self.given, source) {
            Ok(Found::Whole) => {
                self.given += 1;
                Ok(true)
            }
            Ok(Found::Last) => {
                self.given += 1;
                self.ended = true;
                Ok(true)
            }
            Ok(Found::Over) => {
                self.ended = true;
                Ok(false)
            }
            Err(fault) => {
                self.chunk.clear();
                self.line.clear();
                self.fault = Some(fault);
                Err(fault)
            }
        }
    }

    /// The line that `next` gave, without its newline. After another answer than true it is empty.
    pub fn line(&self) -> &[u8]
        ensures { result.now ≡ self.now.line }
    {
        self.line.as_slice()
    }
}

/// What the bytes held and taken begin with.
enum Found {
    Whole,
    Last,
    Over,
}

/// Takes one line out of the bytes held and those of the source.
fn gather<S: Source>(
    chunk: &mut Chunk,
    line: &mut Vec<u8>,
    given: u32,
    source: &mut S,
) -> Result<Found, LineFault>
    ensures gathers { (bytes : List ℕ) × Consumes (S.left source.old) (S.left source.new) bytes
        × Gathers result (chunk.old ++ bytes) line.new.items chunk.new given (S.left source.new) × ReadsOn chunk.old bytes }
    ensures reads { (source.new ≡ source.old) ⊎ IsUnbroken chunk.old }
    ensures never_falls { S.faults source.old ≤ S.faults source.new }
    ensures kept { Keeps result (S.faults source.old) (S.faults source.new) }
    ensures failed { IsErrOf result LineFault.Failed → Rose (S.faults source.old) (S.faults source.new) }
{
    line.clear();
    loop {
        if let Some(n) = take_piece(line, chunk.rest(), given)? {
            chunk.skip(n);
            return Ok(Found::Whole);
        }
        if let Err(_) = chunk.refill(source) {
            return Err(LineFault::Failed);
        }
        if chunk.rest().is_empty() {
            return Ok(what_is_left(line));
        }
    }
}

/// What is found at the source's end: a last line, or none.
fn what_is_left(line: &[u8]) -> Found
    ensures { IsLeft result line.now }
{
    if line.is_empty() {
        Found::Over
    } else {
        Found::Last
    }
}

/// Adds to a line what the bytes have of it, up to their first newline. The answer is how many bytes that are, the newline
/// among them, and None where there is no newline and all bytes were added.
fn take_piece(line: &mut Vec<u8>, bytes: &[u8], given: u32) -> Result<Option<usize>, LineFault>
    ensures { TakesPiece result line.old.items line.new.items bytes.now given }
{
    if bytes.is_empty() {
        return Ok(None);
    }
    if given >= LINES {
        return Err(LineFault::TooMany);
    }
    match newline_in(bytes) {
        Some(i) => {
            put_piece(line, bytes.split_at(i).0)?;
            Ok(Some(i + 1))
        }
        None => {
            put_piece(line, bytes)?;
            Ok(None)
        }
    }
}

/// Adds bytes to a line, if it is not too long then.
fn put_piece(line: &mut Vec<u8>, piece: &[u8]) -> Result<(), LineFault>
    ensures { PutsPiece result line.old.items line.new.items piece.now }
{
    match put_within(line, piece, LINE_BYTES as usize) {
        Ok(true) => Ok(()),
        Ok(false) => Err(LineFault::TooLong),
        Err(_) => Err(LineFault::Memory),
    }
}

/// The place of the first newline, counted from 0.
fn newline_in(bytes: &[u8]) -> Option<usize>
    ensures { MatchOption result (IsUnbroken bytes.now) (λ i. BreaksAt bytes.now i) }
{
    position_of_newline(bytes)
}

/// The place of the first newline, by the definition of the first place at which a test passes.
fn position_of_newline(bytes: &[u8]) -> Option<usize>
    ensures { result ≡ position (λ b. b == 10) bytes.now }
{
    bytes.iter().position(|b| *b == 10)
}

/// The law of lines: those of lines without a newline, each with one behind it, and of a rest without one, are these lines and
/// the rest where it is not empty. The call does nothing.
pub fn lines_are_cut_at_newlines()
    ensures { (lines : List (List ℕ)) (rest : List ℕ) → AllByRecursion IsUnbroken lines → IsUnbroken rest
        → lines_of (text_of_lines lines ++ rest) ≡ lines ++ last_of rest }
{}
