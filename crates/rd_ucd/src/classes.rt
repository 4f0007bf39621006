//! The bidirectional classes of all characters.
ghost use Rattle.rd_ucd.specs.ClassFile.{ended};
ghost use Rattle.rd_ucd.specs.Results.{behind, Answers};
ghost use Rattle.rd_ucd.specs.Reading.{IsReading};

use crate::fault::UcdFault;
use crate::lines::read_lines;
use crate::listing::Listing;
use crate::reader::Reader;
use crate::spans::Span;
use rd_base::limits::CODE_POINTS;
use rd_base::{Ch, Class};
use std::alloc::Global;

/// The classes that a file gives. Contracts see them as ranges of codes with a class, in ascending order.
pub type Classes = Listing<Span>;

impl Classes {
    ghost use Rattle.std.specs.Prelude.{◌≡◌};
    ghost use Rattle.rd_ucd.specs.Lookup.{class_of};
    ghost use Rattle.rd_ucd.specs.ClassFile.{classes_of};
    ghost use Rattle.rd_ucd.specs.Results.{Answers};

    /// Reads a file in the form of `UnicodeData.txt`. Lines end at byte 10, before which one byte 13 is dropped; the last may
    /// lack it, and empty lines are passed over. A line has at least five fields cut by `;`: the first is a code, the fifth the
    /// name of a class. Codes ascend. Where the second field ends in `, First>` the next entry is one of the same class whose
    /// second field ends in `, Last>`, and the two stand for all codes between them. Each fault comes exactly at the first line
    /// that has one, with its number from 1, and in a line in the order of `UcdFault`; a First that is the last entry is a fault
    /// of its own line. Want of memory may come at any line. The cost is linear in the file, and so is the memory.
    pub fn read(alloc: Global, bytes: &[u8]) -> Result<Classes, UcdFault>
        ensures { Answers result (classes_of bytes.now) }
    {
        finish(read_lines(Reader::new(alloc), bytes)?)
    }

    /// The class of a character: L for a code that the file doesn't list, and for a raw byte. It costs the logarithm of the
    /// number of ranges.
    pub fn class(&self, ch: Ch) -> Class
        ensures { result ≡ class_of self.now ch }
    {
        let code = ch.code();
        if code >= CODE_POINTS {
            return Class::L;
        }
        self.entry(code).map_or(Class::L, |span| span.class)
    }
}

/// The classes, where all lines were read.
fn finish(reader: Reader) -> Result<Classes, UcdFault>
    requires { IsReading reader }
    ensures { Answers result (behind reader.spans (ended reader.opened)) }
{
    match reader.opened {
        None => Ok(Listing::of(reader.spans)),
        Some(first) => Err(UcdFault::BadRange(first.number)),
    }
}
