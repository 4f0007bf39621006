//! Reading a class file, line by line.
ghost use Rattle.std.specs.Prelude.{◌≡◌};
ghost use Rattle.rd_ucd.specs.ClassFile.{fault_of, span_by, opened_by, closes};

use crate::entries::{DataEntry, EntryKind, Opened, read_entry};
use crate::fault::UcdFault;
use crate::lines::LineReader;
use crate::names::same_class;
use crate::pieces::without_return;
use crate::spans::Span;
use rd_base::ListOf;
use std::alloc::Global;

/// The ranges of the lines that were read, one more than the code of the last entry, and the First that waits for its Last.
#[derive(Drop)]
pub struct Reader {
    pub spans: ListOf<Span>,
    pub least: u32,
    pub opened: Option<Opened>,
}

impl Reader {
    ghost use Rattle.std.specs.Prelude.{◌≡◌, [], None, ◌<◌};
    ghost use Rattle.rd_base.specs.declared.limits.TheConstants.{CODE_POINTS};
    ghost use Rattle.rd_ucd.specs.Reading.{IsReading, TakesEntry};

    /// Nothing was read.
    pub fn new(alloc: Global) -> Reader
        ensures reading { IsReading result }
        ensures spans { result.spans ≡ [] }
        ensures least { result.least ≡ 0 }
        ensures opened { result.opened ≡ None }
    {
        Reader {
            spans: ListOf::new(alloc),
            least: 0,
            opened: None,
        }
    }

    /// Takes the entry of a line.
    fn take(&mut self, number: u64, entry: DataEntry) -> Result<(), UcdFault>
        requires reading { IsReading self.old }
        requires code { entry.code < CODE_POINTS }
        ensures reading { IsReading self.new }
        ensures entry { TakesEntry result self.old self.new number entry }
    {
        if let Some(fault) = fault(self.least, self.opened, number, entry) {
            return Err(fault);
        }
        self.spans.push_some(span(self.opened, entry))?;
        self.opened = opened(number, entry);
        self.least = entry.code + 1;
        Ok(())
    }
}

impl LineReader for Reader {
    ghost use Rattle.rd_ucd.specs.Reading.{IsReading, whole_lines};

    type Value = Span;

    ghost is_reading = { IsReading };

    ghost whole = { whole_lines };

    fn read_line(&mut self, number: u64, line: &[u8]) -> Result<(), UcdFault> {
        let line = without_return(line);
        if line.len() == 0 {
            return Ok(());
        }
        self.take(number, read_entry(line, number)?)
    }
}

/// The fault of an entry among those before it.
fn fault(least: u32, opened: Option<Opened>, number: u64, entry: DataEntry) -> Option<UcdFault>
    ensures { result ≡ fault_of least opened number entry }
{
    if entry.code < least {
        return Some(UcdFault::NotAscending(number));
    }
    if is_in_place(opened, entry) {
        return None;
    }
    Some(UcdFault::BadRange(number))
}

/// Whether an entry stands behind a First exactly where it is a Last of the same class.
fn is_in_place(opened: Option<Opened>, entry: DataEntry) -> bool
    ensures { result ≡ closes opened entry }
{
    match (opened, entry.kind) {
        (Some(first), EntryKind::Last) => same_class(first.class, entry.class),
        (Some(_), _) => false,
        (None, EntryKind::Last) => false,
        (None, _) => true,
    }
}

/// The range that an entry gives.
fn span(opened: Option<Opened>, entry: DataEntry) -> Option<Span>
    ensures { result ≡ span_by entry.kind opened entry }
{
    let first = match entry.kind {
        EntryKind::Alone => entry.code,
        EntryKind::First => return None,
        EntryKind::Last => opened?.code,
    };
    Some(Span {
        first,
        last: entry.code,
        class: entry.class,
    })
}

/// The range that an entry opens, where it is the first of one.
fn opened(number: u64, entry: DataEntry) -> Option<Opened>
    ensures { result ≡ opened_by entry.kind number entry }
{
    match entry.kind {
        EntryKind::First => Some(Opened {
            number,
            code: entry.code,
            class: entry.class,
        }),
        _ => None,
    }
}
