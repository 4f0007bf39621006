//! The opening of a session over the bytes of the data files.
ghost use Rattle.std.specs.Prelude.{◌≡◌, ◌≤◌, ◌<◌, Ok, length, take, drop};
ghost use Rattle.rd_files.specs.DataFiles.{data_of, meaning};
ghost use Rattle.rd_embed.specs.Openings.{Opens, ReadsGiven, file_number, given_bytes, kind_number, told_bad};

use crate::embedded::Embedded;
use crate::ending::Ending;
use crate::fill::fill;
use crate::pending::Pending;
use rd_files::{
    BadFile, DataFault, DataFile, DataFiles, DataKind, data_files_are_determined, read_data,
};
use rd_io::{Failed, Files};
use rd_session::Session;
use rd_ucd::UcdFault;
use std::alloc::Global;

/// The first bad line of the data files: which file (0 the classes, 1 the mirrored characters, 2 the brackets), the number of the line
/// from 1, and what is wrong with it (1 BadLine, 2 BadCode, 3 BadClass, 4 NotAscending, 5 BadRange; 6 the file has more than 8,388,608
/// bytes, and then the line is 0).
#[repr(C)]
#[derive(Clone, Copy, Debug, PartialEq, Eq)]
pub struct BadData {
    pub file: u32,
    pub line: u32,
    pub kind: u32,
}

/// Why a session was not opened.
#[derive(Clone, Copy, Debug, Drop, PartialEq, Eq)]
pub enum OpenFault {
    /// A data file is bad.
    Bad(BadData),
    /// Want of memory.
    Memory,
}

/// The data files as bytes in memory, by the names below.
#[derive(Drop)]
struct GivenFiles<'a> {
    classes: &'a [u8],
    mirrors: &'a [u8],
    brackets: &'a [u8],
}

const CLASSES: &str = "classes";

const MIRRORS: &str = "mirrors";

const BRACKETS: &str = "brackets";

impl Files for GivenFiles<'_> {
    ghost use Rattle.std.specs.Prelude.{Some};
    ghost use Rattle.rd_embed.specs.Openings.{given_bytes};

    ghost contents = { λ f name. Some (given_bytes f.classes.now f.mirrors.now f.brackets.now name) };

    ghost faults = { λ f name. 0 };

    fn fetch(&mut self, name: &str, from: u64, buf: &mut [u8]) -> Result<usize, Failed> {
        Ok(copy_from(self.bytes(name), from, buf))
    }
}

impl GivenFiles<'_> {
    /// The bytes of the file of a name; any other name stands for the file of brackets.
    fn bytes(&self, name: &str) -> &[u8]
        ensures { result.now ≡ given_bytes self.now.classes.now self.now.mirrors.now self.now.brackets.now name.now }
    {
        if name == CLASSES {
            self.classes
        } else if name == MIRRORS {
            self.mirrors
        } else {
            self.brackets
        }
    }
}

/// Copies bytes from an offset on, as many as there is room for, and answers how many.
fn copy_from(bytes: &[u8], from: u64, buf: &mut [u8]) -> usize
    ensures bound { result ≤ length buf.new }
    ensures copied { take result buf.new ≡ take result (drop from bytes.now) }
    ensures end { result ≡ 0 → 0 < length buf.new → length bytes.now ≤ from }
{
    let start = (from as usize).min(bytes.len());
    fill(buf, &bytes[start..])
}

/// Opens a session over the bytes of the data files.
pub(crate) fn open(
    alloc: Global,
    classes: &[u8],
    mirrors: &[u8],
    brackets: &[u8],
) -> Result<Embedded, OpenFault>
    ensures { Opens result (data_of classes.now mirrors.now brackets.now) }
{
    match read_given(alloc, classes, mirrors, brackets) {
        Ok(files) => begun(alloc, files),
        Err(fault) => Err(fault),
    }
}

/// Reads the data files from their bytes.
fn read_given(
    alloc: Global,
    classes: &[u8],
    mirrors: &[u8],
    brackets: &[u8],
) -> Result<DataFiles, OpenFault>
    ensures { ReadsGiven result (data_of classes.now mirrors.now brackets.now) }
{
    data_files_are_determined();
    let mut files = GivenFiles {
        classes,
        mirrors,
        brackets,
    };
    match read_data(alloc, &mut files, CLASSES, MIRRORS, Some(BRACKETS)) {
        Ok(files) => Ok(files),
        Err(DataFault::Bad(bad)) => Err(OpenFault::Bad(told_bad(bad))),
        Err(DataFault::Read) => unreachable!(),
        Err(DataFault::Memory) => Err(OpenFault::Memory),
    }
}

/// A session over data files of which nothing is pending.
fn begun(alloc: Global, files: DataFiles) -> Result<Embedded, OpenFault>
    ensures { Opens result (Ok (meaning files)) }
{
    match Session::new(alloc, files.classes, files.mirrors, files.brackets) {
        Ok(session) => Ok(Embedded {
            session,
            pending: Pending::new(alloc),
            ending: Ending::Done,
        }),
        Err(_none) => Err(OpenFault::Memory),
    }
}

/// What is told of a bad data file.
fn told_bad(bad: BadFile) -> BadData
    ensures { result ≡ told_bad bad }
{
    BadData {
        file: file_number(bad.file),
        line: bad.line,
        kind: kind_number(bad.kind),
    }
}

/// The number of a data file.
fn file_number(file: DataFile) -> u32
    ensures { result ≡ file_number file }
{
    match file {
        DataFile::ClassFile => 0,
        DataFile::MirrorFile => 1,
        DataFile::BracketFile => 2,
    }
}

/// The number of what is wrong with a data file.
fn kind_number(kind: DataKind) -> u32
    ensures { result ≡ kind_number kind }
{
    match kind {
        DataKind::TooLarge => 6,
        DataKind::Bad(UcdFault::BadLine(_)) => 1,
        DataKind::Bad(UcdFault::BadCode(_)) => 2,
        DataKind::Bad(UcdFault::BadClass(_)) => 3,
        DataKind::Bad(UcdFault::NotAscending(_)) => 4,
        DataKind::Bad(UcdFault::BadRange(_)) => 5,
        DataKind::Bad(UcdFault::Memory) => 0,
    }
}
