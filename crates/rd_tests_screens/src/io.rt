//! Sources, files, sinks and lines on plain cases, at their limits, and over the system's streams and files.
use crate::claims::assert_of;
use rd_io::{
    Failed, FileFault, Files, HostFiles, LineFault, Lines, MemFiles, MemSink, MemSource,
    PIECE_BYTES, Piece, Sink, Source, StdSink, StdSource, read_file, write_whole,
};
use std::alloc::Global;
use std::fs;
use std::process::Abort;
use std::test::Fail;

/// A source in memory, of whose calls those with these numbers fail.
fn source(alloc: Global, bytes: &[u8], failing: &[u64]) -> Result<MemSource, Fail> {
    let calls = Vec::from_slice(alloc, failing)?;
    Ok(MemSource::new(Vec::from_slice(alloc, bytes)?).failing(calls))
}

/// Whether a reader takes these lines from a source, and then gives this answer again and again.
fn reads(
    reader: &mut Lines,
    source: &mut MemSource,
    lines: &[&[u8]],
    end: Result<bool, LineFault>,
) -> bool {
    for line in lines {
        if reader.next(source) != Ok(true) || reader.line() != *line {
            return false;
        }
    }
    reader.next(source) == end && reader.next(source) == end
}

/// Whether a source gives these lines, and then this answer again and again.
fn gives(
    alloc: Global,
    source: &mut MemSource,
    lines: &[&[u8]],
    end: Result<bool, LineFault>,
) -> bool {
    match Lines::new(alloc) {
        Ok(mut reader) => reads(&mut reader, source, lines, end),
        Err(_) => false,
    }
}

/// Whether bytes, from a source of whose calls those with these numbers fail, are these lines and this end.
fn are_lines(
    alloc: Global,
    bytes: &[u8],
    failing: &[u64],
    lines: &[&[u8]],
    end: Result<bool, LineFault>,
) -> Result<bool, Fail> {
    let mut source = source(alloc, bytes, failing)?;
    Ok(gives(alloc, &mut source, lines, end))
}

/// Whether a reader takes so many lines from a source, and then fails for this fault.
fn fails_after(reader: &mut Lines, source: &mut MemSource, lines: u32, fault: LineFault) -> bool {
    for _line in 0..lines {
        if reader.next(source) != Ok(true) {
            return false;
        }
    }
    reader.next(source) == Err(fault)
}

#[test]
fn lines_of_sources(rt: HostRuntime) -> Result<(), Fail> {
    let alloc = rt.alloc();
    let lines: [&[u8]; 3] = [b"ab", b"", b"cd"];
    assert_of(
        &rt,
        "an empty line, and a last line without a newline",
        are_lines(alloc, b"ab\n\ncd", &[], &lines, Ok(false))?,
    );
    assert_of(
        &rt,
        "a source whose second call fails",
        are_lines(alloc, b"ab\ncd", &[2], &[b"ab"], Err(LineFault::Failed))?,
    );
    Ok(())
}

/// So many bytes of a line.
fn letters(alloc: Global, count: usize) -> Result<Vec<u8>, Fail> {
    Ok(Vec::from_elem(alloc, 97, count)?)
}

/// Whether so many bytes without a newline are one line.
fn is_line(alloc: Global, count: usize) -> Result<bool, Fail> {
    let bytes = letters(alloc, count)?;
    let line = bytes.as_slice();
    are_lines(alloc, line, &[], &[line], Ok(false))
}

/// Whether so many bytes without a newline are too long.
fn is_too_long(alloc: Global, count: usize) -> Result<bool, Fail> {
    let bytes = letters(alloc, count)?;
    are_lines(alloc, bytes.as_slice(), &[], &[], Err(LineFault::TooLong))
}

#[test]
fn the_longest_line(rt: HostRuntime) -> Result<(), Fail> {
    assert_of(
        &rt,
        "a line of the largest length",
        is_line(rt.alloc(), 1_048_576)?,
    );
    assert_of(
        &rt,
        "a line of one byte more",
        is_too_long(rt.alloc(), 1_048_577)?,
    );
    Ok(())
}

/// Whether a source gives 1,000,000 lines, and then fails since there are more.
fn has_too_many(alloc: Global, source: &mut MemSource) -> bool {
    match Lines::new(alloc) {
        Ok(mut reader) => fails_after(&mut reader, source, 1_000_000, LineFault::TooMany),
        Err(_) => false,
    }
}

#[test]
fn the_most_lines(rt: HostRuntime) -> Result<(), Fail> {
    let mut source = MemSource::new(Vec::from_elem(rt.alloc(), 10, 1_000_001)?);
    assert!(rt; has_too_many(rt.alloc(), &mut source));
    Ok(())
}

/// A sink with so much room, of whose calls those with these numbers fail.
fn sink(alloc: Global, room: u64, failing: &[u64]) -> Result<MemSink, Fail> {
    let calls = Vec::from_slice(alloc, failing)?;
    Ok(MemSink::with_room(alloc, room)?.failing(calls))
}

/// Whether a sink gives these answers to texts, and holds these bytes in the end.
fn takes(sink: &mut MemSink, writes: &[(&[u8], Result<(), Failed>)], held: &[u8]) -> bool {
    for (text, answer) in writes {
        if write_whole(sink, text) != *answer {
            return false;
        }
    }
    sink.bytes() == held
}

/// Asserts that a sink of five bytes takes what fits.
fn assert_filled(rt: &impl Abort, small: &mut MemSink) {
    let writes: [(&[u8], Result<(), Failed>); 2] = [(b"abc", Ok(())), (b"defg", Err(Failed))];
    assert_of(rt, "a sink of five bytes", takes(small, &writes, b"abcde"));
}

/// Asserts that a sink whose second call fails takes what comes before and after.
fn assert_broken(rt: &impl Abort, broken: &mut MemSink) {
    let writes: [(&[u8], Result<(), Failed>); 3] = [
        (b"a", Ok(())),
        (b"b", Err(Failed)),
        (b"c", Ok(())),
    ];
    assert_of(
        rt,
        "a sink whose second call fails",
        takes(broken, &writes, b"ac"),
    );
}

#[test]
fn a_sink_takes_what_fits(rt: HostRuntime) -> Result<(), Fail> {
    assert_filled(&rt, &mut sink(rt.alloc(), 5, &[])?);
    assert_broken(&rt, &mut sink(rt.alloc(), 5, &[2])?);
    Ok(())
}

/// Asserts that a piece holds these bytes and then no more.
fn assert_full(rt: &impl Abort, bytes: &[u8]) {
    let mut piece = Piece::new();
    assert!(rt; write_whole(&mut piece, bytes).is_ok());
    assert!(rt; piece.write(b"x").is_err());
    assert!(rt; piece.bytes() == bytes);
}

#[test]
fn a_piece_holds_as_many_bytes_as_it_says(rt: HostRuntime) -> Result<(), Fail> {
    let bytes = letters(rt.alloc(), PIECE_BYTES)?;
    assert_full(&rt, bytes.as_slice());
    Ok(())
}

/// Files of a name and bytes.
type Held = Vec<(String, Vec<u8>)>;

/// Adds a file.
fn hold(alloc: Global, held: &mut Held, name: &str, bytes: &[u8]) -> Result<(), Fail> {
    held.push((
        String::from_str(alloc, name)?,
        Vec::from_slice(alloc, bytes)?,
    ))?;
    Ok(())
}

/// Adds a file of so many letters.
fn hold_letters(alloc: Global, held: &mut Held, name: &str, count: usize) -> Result<(), Fail> {
    hold(alloc, held, name, letters(alloc, count)?.as_slice())
}

/// Adds a small file, one of the largest size, and one that is larger.
fn hold_all(alloc: Global, held: &mut Held) -> Result<(), Fail> {
    hold(alloc, held, "small", b"abc")?;
    hold_letters(alloc, held, "full", 8_388_608)?;
    hold_letters(alloc, held, "over", 8_388_609)
}

/// These files, of whose fetches those with these numbers fail.
fn files(alloc: Global, failing: &[u64]) -> Result<MemFiles, Fail> {
    let mut held = Vec::new(alloc);
    hold_all(alloc, &mut held)?;
    Ok(MemFiles::new(held).failing(Vec::from_slice(alloc, failing)?))
}

/// How many bytes a file has, or why it is not read.
fn length(alloc: Global, files: &mut MemFiles, name: &str) -> Result<usize, FileFault> {
    Ok(read_file(alloc, files, name)?.len())
}

/// Whether a file has so many bytes, or is not read for this fault.
fn answers(
    alloc: Global,
    files: &mut MemFiles,
    name: &str,
    answer: Result<usize, FileFault>,
) -> bool {
    length(alloc, files, name) == answer
}

/// Whether a file has these bytes.
fn holds<F: Files>(alloc: Global, files: &mut F, name: &str, bytes: &[u8]) -> bool {
    match read_file(alloc, files, name) {
        Ok(read) => read.as_slice() == bytes,
        Err(_) => false,
    }
}

/// Files by what they are and by their names, and how many bytes each has, or why it is not read, where the second fetch fails.
const LENGTHS: [(&'static str, &'static str, Result<usize, FileFault>); 5] = [
    ("a file whose fetch fails", "small", Err(FileFault::Failed)),
    ("the same file, read again", "small", Ok(3)),
    ("a file of the largest size", "full", Ok(8_388_608)),
    ("a file that is too large", "over", Err(FileFault::TooLarge)),
    ("a file that is not there", "none", Err(FileFault::Failed)),
];

/// Asserts how each file is read.
fn assert_read(rt: &impl Abort, files: &mut MemFiles, alloc: Global) {
    for (case, name, answer) in &LENGTHS {
        assert_of(rt, case, answers(alloc, files, name, *answer));
    }
    assert!(rt; holds(alloc, files, "small", b"abc"));
}

#[test]
fn files_are_read_whole(rt: HostRuntime) -> Result<(), Fail> {
    let mut files = files(rt.alloc(), &[2])?;
    assert_read(&rt, &mut files, rt.alloc());
    Ok(())
}

/// Standard input is empty where tests run.
#[test]
fn standard_streams(rt: HostRuntime) {
    let mut source = StdSource::new(rt.stdin());
    assert!(rt; source.read(&mut [1, 2, 3]) == Ok(0));
    let mut sink = StdSink::new(rt.stdout());
    assert!(rt; write_whole(&mut sink, b"written\n") == Ok(()));
}

#[test]
fn a_file_of_the_system_is_read(rt: HostRuntime) -> Result<(), Fail> {
    fs::write(&rt, "three", "abc")?;
    let mut files = HostFiles::new(&rt);
    assert!(rt; holds(rt.alloc(), &mut files, "three", b"abc"));
    assert!(rt; read_file(rt.alloc(), &mut files, "none").is_err());
    Ok(())
}
