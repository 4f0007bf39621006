//! The top call.
ghost use Rattle.std.specs.Prelude.{◌≡◌, ◌≢◌, ◌≤◌, ◌⊎◌, ℕ, List, length, map, string_bytes};
ghost use Rattle.std.specs.Io.KnownBytes.{Consumes};
ghost use Rattle.rd_io.specs.Devices.{Rose};
ghost use Rattle.rd_base.specs.declared.limits.TheConstants.{FILE_BYTES, LEAST_FRAME_ROWS};
ghost use Rattle.rd_audit.specs.Results.{IsShape, JudgesBytes, picture_in};
ghost use Rattle.rd_audit.specs.Verdicts.{Answers, Comes, JudgesFile, JudgesDump, IsSound, IsJudged, Keeps, ReadFails};

use crate::compare::answer;
use crate::dump::{Dump, DumpFault, read_dump};
use crate::report::tell;
use crate::stream::{StreamFault, feed_stream};
use crate::verdict::Verdict;
use rd_io::{FileFault, Files, Sink, Source, read_file};
use rd_term::Terminal;
use std::alloc::Global;

/// Judges by the last dump of a report whether a recorded stream of a terminal shows it, and writes the verdict as a line
/// to `report`.
///
/// `words` are those after the program's name: one, the name of the report's file. The file is read first, and then the stream to its
/// end, which is that since the last accepted `frame`: the terminal has the dump's size, and nothing of it is known. A sequence or a
/// character that the stream's end cuts counts as unread.
///
/// `answers` says what holds where each verdict comes and what was written then. ReadFault comes only where the count of `stream` or
/// that of the file's name rose, WriteFault only where that of `report` did, and then a front of the line was written that would have come.
/// Where neither comes the counts of `stream` and of all files are as they were (`kept`, `kept_files`). So is that of `report`, where
/// WriteFault does not come (`kept_report`).
/// NoMemory may come at any time where there is one word, and tells nothing of the file or the stream. With one word, a file with a
/// dump and a stream that is not too long, and where no count rose, nothing else comes besides yes and no (`complete`). The cost is linear
/// in the bytes of the file and of the stream.
pub fn audit<S: Source, F: Files, R: Sink>(
    alloc: Global,
    words: Vec<String>,
    stream: &mut S,
    files: &mut F,
    report: &mut R,
) -> Verdict
    ensures answers { (bytes : List ℕ) × Consumes (S.left stream.old) (S.left stream.new) bytes
        × Answers result (map string_bytes words.items) (F.contents files.old) bytes (S.left stream.new) (R.written report.old) (R.written report.new) }
    ensures read { result ≡ Verdict.ReadFault → ReadFails S.faults stream.old stream.new F.faults files.old files.new (map string_bytes words.items) }
    ensures write { result ≡ Verdict.WriteFault → Rose (R.faults report.old) (R.faults report.new) }
    ensures complete { IsSound (map string_bytes words.items) (F.contents files.old) (S.left stream.old)
        → IsJudged result ⊎ (ReadFails S.faults stream.old stream.new F.faults files.old files.new (map string_bytes words.items)
        ⊎ Rose (R.faults report.old) (R.faults report.new)) }
    ensures stream { S.faults stream.old ≤ S.faults stream.new }
    ensures kept { Keeps result (S.faults stream.old) (S.faults stream.new) }
    ensures files { (name : List ℕ) → F.faults files.old name ≤ F.faults files.new name }
    ensures kept_files { (name : List ℕ) → Keeps result (F.faults files.old name) (F.faults files.new name) }
    ensures contents { (name : List ℕ) → F.contents files.new name ≡ F.contents files.old name }
    ensures report { R.faults report.old ≤ R.faults report.new }
    ensures kept_report { result ≢ Verdict.WriteFault → R.faults report.new ≡ R.faults report.old }
{
    let verdict = judge(alloc, words.as_slice(), stream, files);
    match tell(report, verdict) {
        Ok(()) => verdict,
        Err(_failed) => Verdict::WriteFault,
    }
}

/// The verdict by the words.
fn judge<S: Source, F: Files>(
    alloc: Global,
    words: &[String],
    stream: &mut S,
    files: &mut F,
) -> Verdict
    ensures comes { (bytes : List ℕ) × Consumes (S.left stream.old) (S.left stream.new) bytes
        × Comes result (map string_bytes words.now) (F.contents files.old) bytes (S.left stream.new) }
    ensures read { result ≡ Verdict.ReadFault → ReadFails S.faults stream.old stream.new F.faults files.old files.new (map string_bytes words.now) }
    ensures stream { S.faults stream.old ≤ S.faults stream.new }
    ensures kept { Keeps result (S.faults stream.old) (S.faults stream.new) }
    ensures files { (name : List ℕ) → F.faults files.old name ≤ F.faults files.new name }
    ensures kept_files { (name : List ℕ) → Keeps result (F.faults files.old name) (F.faults files.new name) }
    ensures contents { (name : List ℕ) → F.contents files.new name ≡ F.contents files.old name }
{
    match words {
        [name] => judge_file(alloc, name.as_str(), stream, files),
        _ => Verdict::Usage,
    }
}

/// The verdict by the file of a name.
fn judge_file<S: Source, F: Files>(
    alloc: Global,
    name: &str,
    stream: &mut S,
    files: &mut F,
) -> Verdict
    ensures comes { (bytes : List ℕ) × Consumes (S.left stream.old) (S.left stream.new) bytes
        × JudgesFile result (F.contents files.old name.now) bytes (S.left stream.new) }
    ensures read { result ≡ Verdict.ReadFault → Rose (S.faults stream.old) (S.faults stream.new) ⊎ Rose (F.faults files.old name.now) (F.faults files.new name.now) }
    ensures stream { S.faults stream.old ≤ S.faults stream.new }
    ensures kept { Keeps result (S.faults stream.old) (S.faults stream.new) }
    ensures files { (file : List ℕ) → F.faults files.old file ≤ F.faults files.new file }
    ensures kept_files { (file : List ℕ) → Keeps result (F.faults files.old file) (F.faults files.new file) }
    ensures contents { (file : List ℕ) → F.contents files.new file ≡ F.contents files.old file }
{
    match read_file(alloc, files, name) {
        Ok(file) => judge_bytes(alloc, file.as_slice(), stream),
        Err(FileFault::Failed) => Verdict::ReadFault,
        Err(FileFault::TooLarge) => Verdict::BadDump(0),
        Err(FileFault::Memory) => Verdict::NoMemory,
    }
}

/// The verdict by the bytes of the file.
fn judge_bytes<S: Source>(alloc: Global, file: &[u8], stream: &mut S) -> Verdict
    requires { length file.now ≤ FILE_BYTES }
    ensures comes { (bytes : List ℕ) × Consumes (S.left stream.old) (S.left stream.new) bytes
        × JudgesBytes result file.now bytes (S.left stream.new) }
    ensures read { result ≡ Verdict.ReadFault → Rose (S.faults stream.old) (S.faults stream.new) }
    ensures stream { S.faults stream.old ≤ S.faults stream.new }
    ensures kept { Keeps result (S.faults stream.old) (S.faults stream.new) }
{
    match read_dump(alloc, file) {
        Ok(dump) => judge_stream(alloc, &dump, stream),
        Err(DumpFault::Bad(number)) => Verdict::BadDump(number),
        Err(DumpFault::Memory) => Verdict::NoMemory,
    }
}

/// The verdict by a dump, on a terminal of its size.
fn judge_stream<S: Source>(alloc: Global, dump: &Dump, stream: &mut S) -> Verdict
    requires shape { IsShape dump.now.rows }
    requires rows { LEAST_FRAME_ROWS ≤ length dump.now.rows }
    ensures comes { (bytes : List ℕ) × Consumes (S.left stream.old) (S.left stream.new) bytes
        × JudgesDump result (picture_in dump.now) bytes (S.left stream.new) }
    ensures read { result ≡ Verdict.ReadFault → Rose (S.faults stream.old) (S.faults stream.new) }
    ensures stream { S.faults stream.old ≤ S.faults stream.new }
    ensures kept { Keeps result (S.faults stream.old) (S.faults stream.new) }
{
    let width = dump.rows.get(0).len() as u32;
    let height = dump.rows.len() as u32;
    let Ok(mut terminal) = Terminal::new(alloc, width, height) else {
        return Verdict::NoMemory;
    };
    match feed_stream(&mut terminal, stream) {
        Ok(()) => answer(dump, &terminal),
        Err(StreamFault::TooLong) => Verdict::TooLong,
        Err(StreamFault::Failed) => Verdict::ReadFault,
    }
}
