//! The reading of the data files.
ghost use Rattle.std.specs.Prelude.{◌≡◌, ◌≤◌, ◌<◌, ◌^◌, ℕ, List, Result, option_map};
ghost use Rattle.rd_ucd.specs.declared.fault.UcdFault.{UcdFault};
ghost use Rattle.rd_files.specs.DataFiles.{FailedAt, FailedAtSome, Judges, Keeps, LinesFit, ReadsBytes, ReadsData, ReadsFile, brackets_in, fault_of, judged, line_of, told_or_empty};

use crate::fault::{BadFile, DataFault, DataFile, DataKind};
use rd_io::{FileFault, Files, read_file};
use rd_ucd::{Brackets, Classes, Mirrors, UcdFault};
use std::alloc::Global;

/// What the three files stand for.
#[derive(Drop)]
pub struct DataFiles {
    /// The classes of characters.
    pub classes: Classes,
    /// The mirrored characters.
    pub mirrors: Mirrors,
    /// The brackets; none without a bracket file.
    pub brackets: Brackets,
}

/// Reads the class file, the mirror file and the bracket file, where there is one, by their names. Each is read whole and judged
/// before the next one is read, so the first fault in this order is answered, whatever the later files are.
///
/// `Bad` comes exactly at a file of more than 8,388,608 bytes, with line 0, and at one with a bad line, with the first such line.
/// `Read` comes only where the count of faults of the file that was to be read rose in the call, as at a file that isn't there; with
/// every other answer all counts are as they were.
/// Want of memory may come at any file. The contents of the files that contracts know stay the same. The cost is linear in the
/// bytes that are read, and so is the memory.
pub fn read_data<F: Files>(
    alloc: Global,
    files: &mut F,
    class_file: &str,
    mirror_file: &str,
    bracket_file: Option<&str>,
) -> Result<DataFiles, DataFault>
    ensures read { ReadsData (F.contents files.old) (F.faults files.old) (F.faults files.new) (record { class_file = class_file.now; mirror_file = mirror_file.now; bracket_file = option_map (λ name. name.now) bracket_file.entry }) result }
    ensures contents { (file : List ℕ) → F.contents files.new file ≡ F.contents files.old file }
    ensures never_falls { (file : List ℕ) → F.faults files.old file ≤ F.faults files.new file }
    ensures kept { (file : List ℕ) → Keeps result (F.faults files.old file) (F.faults files.new file) }
{
    let classes = read_judged(alloc, files, class_file, DataFile::ClassFile, Classes::read)?;
    let mirrors = read_judged(
        alloc,
        files,
        mirror_file,
        DataFile::MirrorFile,
        Mirrors::read,
    )?;
    let brackets = read_brackets(alloc, files, bracket_file)?;
    Ok(DataFiles {
        classes,
        mirrors,
        brackets,
    })
}

/// Reads and judges the bracket file, where there is one.
fn read_brackets<F: Files>(
    alloc: Global,
    files: &mut F,
    name: Option<&str>,
) -> Result<Brackets, DataFault>
    ensures read { ReadsFile brackets_in (told_or_empty (F.contents files.old) (option_map (λ n. n.now) name.entry)) (FailedAtSome (F.faults files.old) (F.faults files.new) (option_map (λ n. n.now) name.entry)) result }
    ensures contents { (file : List ℕ) → F.contents files.new file ≡ F.contents files.old file }
    ensures never_falls { (file : List ℕ) → F.faults files.old file ≤ F.faults files.new file }
    ensures kept { (file : List ℕ) → Keeps result (F.faults files.old file) (F.faults files.new file) }
{
    match name {
        Some(name) => read_judged(alloc, files, name, DataFile::BracketFile, Brackets::read),
        None => Ok(Brackets::none(alloc)),
    }
}

/// Reads a file, and judges its bytes by their form.
fn read_judged<F: Files, T: Drop, J: FnOnce(Global, &[u8]) -> Result<T, UcdFault>>(
    alloc: Global,
    files: &mut F,
    name: &str,
    file: DataFile,
    judge: J,
) -> Result<T, DataFault>
    requires callable { J.IsAlwaysCallable judge }
    requires lines { LinesFit (J.post judge alloc) }
    ensures read { (form : List ℕ → Result T UcdFault) → Judges form (J.post judge alloc) → ReadsFile (judged file form) (F.contents files.old name.now) (FailedAt (F.faults files.old) (F.faults files.new) name.now) result }
    ensures contents { (file : List ℕ) → F.contents files.new file ≡ F.contents files.old file }
    ensures never_falls { (file : List ℕ) → F.faults files.old file ≤ F.faults files.new file }
    ensures kept { (file : List ℕ) → Keeps result (F.faults files.old file) (F.faults files.new file) }
{
    let bytes = read_bytes(alloc, files, name, file)?;
    judge(alloc, &bytes).map_err(|fault| fault_of(file, fault))
}

/// Reads a file whole, without judging it.
fn read_bytes<F: Files>(
    alloc: Global,
    files: &mut F,
    name: &str,
    file: DataFile,
) -> Result<Vec<u8>, DataFault>
    ensures read { ReadsBytes file (F.contents files.old name.now) (FailedAt (F.faults files.old) (F.faults files.new) name.now) result }
    ensures contents { (file : List ℕ) → F.contents files.new file ≡ F.contents files.old file }
    ensures never_falls { (file : List ℕ) → F.faults files.old file ≤ F.faults files.new file }
    ensures kept { (file : List ℕ) → Keeps result (F.faults files.old file) (F.faults files.new file) }
{
    match read_file(alloc, files, name) {
        Ok(bytes) => Ok(bytes),
        Err(FileFault::Failed) => Err(DataFault::Read),
        Err(FileFault::TooLarge) => Err(DataFault::Bad(BadFile {
            file,
            line: 0,
            kind: DataKind::TooLarge,
        })),
        Err(FileFault::Memory) => Err(DataFault::Memory),
    }
}

/// The fault of the data files that a fault in this file's lines is.
fn fault_of(file: DataFile, fault: UcdFault) -> DataFault
    requires { line_of fault < 2 ^ 32 }
    ensures { result ≡ fault_of file fault }
{
    match fault {
        UcdFault::Memory => DataFault::Memory,
        bad => DataFault::Bad(BadFile {
            file,
            line: line_of(bad) as u32,
            kind: DataKind::Bad(bad),
        }),
    }
}

/// The number of the bad line, and 0 for want of memory.
fn line_of(fault: UcdFault) -> u64
    ensures { result ≡ line_of fault }
{
    match fault {
        UcdFault::BadLine(n) => n,
        UcdFault::BadCode(n) => n,
        UcdFault::BadClass(n) => n,
        UcdFault::NotAscending(n) => n,
        UcdFault::BadRange(n) => n,
        UcdFault::Memory => 0,
    }
}
