//! The entries of a class file.
ghost use Rattle.std.specs.Prelude.{◌≡◌, ◌<◌, IfOk};
ghost use Rattle.rd_base.specs.declared.limits.TheConstants.{CODE_POINTS};
ghost use Rattle.rd_ucd.specs.Lines.{fields_of};
ghost use Rattle.rd_ucd.specs.ClassFile.{entry_of_fields, kind_of_name};

use crate::codes::read_code;
use crate::fault::UcdFault;
use crate::names::class_named;
use crate::pieces::field;
use rd_base::Class;

/// Whether an entry stands for its own code, or is the first or the last of a range.
#[derive(Clone, Copy, Debug, PartialEq, Eq)]
pub enum EntryKind {
    Alone,
    First,
    Last,
}

/// A line of the file that was read.
#[derive(Clone, Copy, Debug)]
pub struct DataEntry {
    pub code: u32,
    pub kind: EntryKind,
    pub class: Class,
}

/// The first entry of a range that waits for its last.
#[derive(Clone, Copy, Debug)]
pub struct Opened {
    pub number: u64,
    pub code: u32,
    pub class: Class,
}

/// Reads a line, which is not empty, of this number.
pub fn read_entry(line: &[u8], number: u64) -> Result<DataEntry, UcdFault>
    ensures value { result ≡ entry_of_fields number (fields_of line.now) }
    ensures bound { IfOk result (λ entry. entry.code < CODE_POINTS) }
{
    let class = field(line, 4).ok_or(UcdFault::BadLine(number))?;
    let name = field(line, 1).ok_or(UcdFault::BadLine(number))?;
    let digits = field(line, 0).ok_or(UcdFault::BadLine(number))?;
    let code = read_code(digits).ok_or(UcdFault::BadCode(number))?;
    let class = class_named(class).ok_or(UcdFault::BadClass(number))?;
    Ok(DataEntry {
        code,
        kind: kind_of_name(name),
        class,
    })
}

/// What the name of an entry says.
fn kind_of_name(name: &[u8]) -> EntryKind
    ensures { result ≡ kind_of_name name.now }
{
    if name.ends_with(b", First>") {
        EntryKind::First
    } else if name.ends_with(b", Last>") {
        EntryKind::Last
    } else {
        EntryKind::Alone
    }
}
