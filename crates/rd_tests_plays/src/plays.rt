//! Scripts from their bytes to the screen, the report and the status.

mod devices;
mod every_op;
mod reuse;

ghost use Rattle.std.specs.Prelude.{◌≡◌, ◌<◌};

use rd_base::Steps;
use rd_io::{Failed, MemFiles, MemSink, MemSource, PIECE_BYTES, Source};
use rd_player::play;
use std::alloc::Global;
use std::marker::Brand;
use std::process::Abort;
use std::sync::ledger::{Blank, Ledger};
use std::test::Fail;

/// A script by what it is about, and what it sends, reports and answers.
struct Case {
    name: &'static str,
    script: &'static [u8],
    screen: &'static [u8],
    report: &'static [u8],
    code: u8,
}

const CASES: [Case; 9] = [
    Case {
        name: "an empty text",
        script: b"{\"op\":\"frame\",\"width\":12,\"height\":2}\n{\"op\":\"redisplay\"}\n",
        screen: b"\x1b[0m\x1b[2J\x1b[1;1H",
        report: b"2: shown 0 rows\ndone 2 lines\n",
        code: 0,
    },
    Case {
        name: "a redisplay of what is shown",
        script: b"{\"op\":\"frame\",\"width\":12,\"height\":2}\n{\"op\":\"insert\",\"buffer\":\"main\",\"pos\":1,\"text\":\"abc\"}\n{\"op\":\"redisplay\"}\n{\"op\":\"redisplay\"}\n",
        screen: b"\x1b[0m\x1b[2J\x1b[1;1Habc\x1b[1;1H\x1b[1;1H",
        report: b"3: shown 1 rows\n4: shown 0 rows\ndone 4 lines\n",
        code: 0,
    },
    Case {
        name: "a row that is continued once it grows",
        script: b"{\"op\":\"frame\",\"width\":12,\"height\":4}\n{\"op\":\"wrap\",\"window\":0,\"mode\":\"continue\"}\n{\"op\":\"type\",\"text\":\"abcdefghijk\"}\n{\"op\":\"redisplay\"}\n{\"op\":\"type\",\"text\":\"l\"}\n{\"op\":\"redisplay\"}",
        screen: b"\x1b[0m\x1b[2J\x1b[1;1Habcdefghijk\x1b[1;12H\x1b[1;12H\\\x1b[2;1Hl\x1b[2;2H",
        report: b"4: shown 1 rows\n6: shown 2 rows\ndone 6 lines\n",
        code: 0,
    },
    Case {
        name: "a row that is truncated",
        script: b"{\"op\":\"frame\",\"width\":12,\"height\":3}\n{\"op\":\"insert\",\"buffer\":\"main\",\"pos\":1,\"text\":\"abcdefghijkl\\nx\"}\n{\"op\":\"redisplay\"}\n",
        screen: b"\x1b[0m\x1b[2J\x1b[1;1Habcdefghijk$\x1b[2;1Hx\x1b[1;1H",
        report: b"3: shown 2 rows\ndone 3 lines\n",
        code: 0,
    },
    Case {
        name: "a line break before a shown row",
        script: b"{\"op\":\"frame\",\"width\":12,\"height\":3}\n{\"op\":\"insert\",\"buffer\":\"main\",\"pos\":1,\"text\":\"abc\"}\n{\"op\":\"redisplay\"}\n{\"op\":\"insert\",\"buffer\":\"main\",\"pos\":1,\"text\":\"\\n\"}\n{\"op\":\"redisplay\"}\n",
        screen: b"\x1b[0m\x1b[2J\x1b[1;1Habc\x1b[1;1H\x1b[1;1H\x1b[K\x1b[2;1Habc\x1b[1;1H",
        report: b"3: shown 1 rows\n5: shown 2 rows\ndone 5 lines\n",
        code: 0,
    },
    Case {
        name: "a point below the rows that fit",
        script: b"{\"op\":\"frame\",\"width\":12,\"height\":5}\n{\"op\":\"insert\",\"buffer\":\"main\",\"pos\":1,\"text\":\"a\\nb\\nc\\nd\\ne\\nf\\ng\\nh\\ni\\nj\"}\n{\"op\":\"point\",\"window\":0,\"pos\":19}\n{\"op\":\"redisplay\"}\n",
        screen: b"\x1b[0m\x1b[2J\x1b[1;1Hh\x1b[2;1Hi\x1b[3;1Hj\x1b[3;1H",
        report: b"4: shown 3 rows\ndone 4 lines\n",
        code: 0,
    },
    Case {
        name: "a text that is narrowed and widened",
        script: b"{\"op\":\"frame\",\"width\":12,\"height\":3}\n{\"op\":\"insert\",\"buffer\":\"main\",\"pos\":1,\"text\":\"ab\\ncd\"}\n{\"op\":\"narrow\",\"buffer\":\"main\",\"from\":2,\"to\":5}\n{\"op\":\"redisplay\"}\n{\"op\":\"widen\",\"buffer\":\"main\"}\n{\"op\":\"redisplay\"}\n",
        screen: b"\x1b[0m\x1b[2J\x1b[1;1Hb\x1b[2;1Hc\x1b[1;1H\x1b[1;1Hab\x1b[2;2Hd\x1b[1;2H",
        report: b"4: shown 2 rows\n6: shown 2 rows\ndone 6 lines\n",
        code: 0,
    },
    Case {
        name: "an update that stops after two rows",
        script: b"{\"op\":\"frame\",\"width\":12,\"height\":6}\n{\"op\":\"insert\",\"buffer\":\"main\",\"pos\":1,\"text\":\"a\\nb\\nc\\nd\\ne\"}\n{\"op\":\"redisplay\",\"stop\":2}\n{\"op\":\"insert\",\"buffer\":\"main\",\"pos\":1,\"text\":\"X\"}\n{\"op\":\"redisplay\"}\n",
        screen: b"\x1b[0m\x1b[2J\x1b[1;1Ha\x1b[2;1Hb\x1b[1;1HXa\x1b[3;1Hc\x1b[4;1Hd\x1b[5;1He\x1b[1;1H",
        report: b"3: stopped 2 rows\n5: shown 4 rows\ndone 5 lines\n",
        code: 0,
    },
    Case {
        name: "a script of no line",
        script: b"",
        screen: b"",
        report: b"done 0 lines\n",
        code: 0,
    },
];

/// Scripts by what is refused before they show anything, and the report.
const REFUSED: [(&'static str, &'static [u8], &'static [u8]); 15] = [
    (
        "an insertion behind the end of the text",
        b"{\"op\":\"insert\",\"buffer\":\"main\",\"pos\":2,\"text\":\"a\"}",
        b"script:1: OutOfRange\n",
    ),
    (
        "an unknown construct of a mode line",
        b"{\"op\":\"mode_line\",\"window\":0,\"format\":\"a%q\"}",
        b"script:1: BadFormat 1\n",
    ),
    (
        "a hit in a window that was not shown",
        b"{\"op\":\"hit\",\"window\":0,\"row\":0,\"column\":0}",
        b"script:1: NotShown\n",
    ),
    (
        "a hit in a window that is not there",
        b"{\"op\":\"hit\",\"window\":1,\"row\":0,\"column\":0}",
        b"script:1: NoWindow\n",
    ),
    (
        "a step in a window that is not there",
        b"{\"op\":\"go\",\"window\":1,\"side\":\"left\"}",
        b"script:1: NoWindow\n",
    ),
    (
        "a name that a buffer has",
        b"{\"op\":\"buffer\",\"name\":\"main\"}",
        b"script:1: NameTaken\n",
    ),
    (
        "a buffer that is not there",
        b"{\"op\":\"show\",\"window\":0,\"buffer\":\"x\"}",
        b"script:1: NoBuffer\n",
    ),
    (
        "a deletion up to the largest number of 64 bits",
        b"{\"op\":\"delete\",\"buffer\":\"main\",\"from\":1,\"to\":18446744073709551615}",
        b"script:1: OutOfRange\n",
    ),
    (
        "a position of more than 64 bits",
        b"{\"op\":\"point\",\"window\":0,\"pos\":18446744073709551616}",
        b"script:1: BadField pos\n",
    ),
    (
        "a last line that is cut off",
        b" \t\r\n\n{\"op\":\"widen\",\"buffer\":\"main\"}\n{\"op\":\"redi",
        b"script:4: NotJson\n",
    ),
    (
        "a deletion in an empty text",
        b"{\"op\":\"delete\",\"buffer\":\"main\",\"from\":1,\"to\":2}",
        b"script:1: OutOfRange\n",
    ),
    (
        "a key that is missing",
        b"{\"op\":\"point\",\"window\":0}",
        b"script:1: Missing pos\n",
    ),
    (
        "a key that the op does not have",
        b"{\"op\":\"widen\",\"buffer\":\"main\",\"x\":1}",
        b"script:1: Extra x\n",
    ),
    ("a line that is no object", b"[]", b"script:1: NotObject\n"),
    (
        "a removal of the last window",
        b"{\"op\":\"remove\",\"window\":0}",
        b"script:1: LastWindow\n",
    ),
];

/// The numbers of the calls of each device that are to fail; 0 where none is.
#[derive(Clone, Copy)]
struct Calls {
    source: u64,
    files: u64,
    screen: u64,
    report: u64,
}

const NONE: Calls = Calls {
    source: 0,
    files: 0,
    screen: 0,
    report: 0,
};

/// The calls of which one read fails.
fn read(call: u64) -> Calls {
    Calls {
        source: call,
        ..NONE
    }
}

/// The calls of which one fetch fails.
fn fetch(call: u64) -> Calls {
    Calls {
        files: call,
        ..NONE
    }
}

/// The calls of which one write of the screen fails.
fn send(call: u64) -> Calls {
    Calls {
        screen: call,
        ..NONE
    }
}

/// The calls of which one write of the report fails.
fn tell(call: u64) -> Calls {
    Calls {
        report: call,
        ..NONE
    }
}

/// Room that is enough for the bytes of a screen or of a report here, a line that is longer than a piece included.
const AMPLE: u64 = PIECE_BYTES as u64 + 12_288;

/// What a run left.
#[derive(Drop)]
struct Trace {
    screen: MemSink,
    report: MemSink,
    code: u8,
}

/// A source that gives its bytes one at a time.
#[derive(Drop)]
struct OneByOne {
    source: MemSource,
}

impl Source for OneByOne {
    ghost left = { λ s. ⟦<MemSource as Source>⟧.left s.source };

    ghost faults = { λ s. ⟦<MemSource as Source>⟧.faults s.source };

    fn read(&mut self, buf: &mut [u8]) -> Result<usize, Failed> {
        if buf.is_empty() {
            return self.source.read(buf);
        }
        self.source.read(&mut buf[..1])
    }
}

/// A class file and a mirror file.
const CLASSES: &[u8] =
    b"0000;<control>;Cc;0;BN\n0009;<control>;Cc;0;S\n000A;<control>;Cc;0;B\n0020;SPACE;Zs;0;WS\n0028;LEFT PARENTHESIS;Ps;0;ON\n0029;RIGHT PARENTHESIS;Pe;0;ON\n0030;<Digit, First>;Nd;0;EN\n0039;<Digit, Last>;Nd;0;EN\n05D0;<Hebrew, First>;Lo;0;R\n05EA;<Hebrew, Last>;Lo;0;R\n";

const MIRRORS: &[u8] = b"0028; 0029\n0029; 0028\n";

/// Files in memory of the names D and M, of whose fetches the one of a number fails.
fn files(alloc: Global, call: u64) -> Result<MemFiles, Fail> {
    let mut files = Vec::new(alloc);
    files.push((
        String::from_str(alloc, "D")?,
        Vec::from_slice(alloc, CLASSES)?,
    ))?;
    files.push((
        String::from_str(alloc, "M")?,
        Vec::from_slice(alloc, MIRRORS)?,
    ))?;
    let calls = Vec::from_slice(alloc, &[call])?;
    Ok(MemFiles::new(files).failing(calls))
}

/// A source in memory, of whose calls the one of a number fails.
fn source(alloc: Global, script: &[u8], call: u64) -> Result<MemSource, Fail> {
    let calls = Vec::from_slice(alloc, &[call])?;
    Ok(MemSource::new(Vec::from_slice(alloc, script)?).failing(calls))
}

/// A sink in memory with so much room, of whose calls the one of a number fails.
fn sink(alloc: Global, room: u64, call: u64) -> Result<MemSink, Fail> {
    let calls = Vec::from_slice(alloc, &[call])?;
    Ok(MemSink::with_room(alloc, room)?.failing(calls))
}

/// The words of a command line, behind those that name the data files.
fn words_of(alloc: Global, words: &[&str]) -> Result<Vec<String>, Fail> {
    let mut given = Vec::new(alloc);
    for word in ["--data", "D", "--mirror", "M"] {
        given.push(String::from_str(alloc, word)?)?;
    }
    for word in words {
        given.push(String::from_str(alloc, word)?)?;
    }
    Ok(given)
}

/// Runs a script in memory.
fn played(alloc: Global, words: &[&str], script: &[u8], calls: Calls) -> Result<Trace, Fail> {
    played_from(
        alloc,
        words,
        &mut source(alloc, script, calls.source)?,
        AMPLE,
        calls,
    )
}

/// Runs the script that a source gives over a screen with so much room, on a new ledger.
fn played_from<S: Source>(
    alloc: Global,
    words: &[&str],
    script: &mut S,
    room: u64,
    calls: Calls,
) -> Result<Trace, Fail> {
    let words = words_of(alloc, words)?;
    let mut files = files(alloc, calls.files)?;
    let mut screen = sink(alloc, room, calls.screen)?;
    let mut report = sink(alloc, AMPLE, calls.report)?;
    let code = answered::<Brand, S>(
        Blank::new(1),
        alloc,
        words,
        script,
        &mut files,
        &mut screen,
        &mut report,
    );
    Ok(Trace {
        screen,
        report,
        code,
    })
}

/// Runs the script that a source gives over sinks, and answers the exit status.
fn answered<L: Ledger, S: Source>(
    blank: Blank,
    alloc: Global,
    words: Vec<String>,
    script: &mut S,
    files: &mut MemFiles,
    screen: &mut MemSink,
    report: &mut MemSink,
) -> u8
    requires name { blank.name ≡ L.name }
    requires parts { blank.parts ≡ L.parts }
    requires some { 0 < L.parts }
{
    let mut steps = Steps::<L>::new(blank);
    let status = play(alloc, words, script, files, screen, report, &mut steps);
    status.code()
}

/// Asserts what is to hold of a case of this name.
fn assert_of(rt: &impl Abort, name: &str, holds: bool) {
    assert!(rt; holds, "{name}");
}

/// Asserts that a device of a run of this name has these bytes. A failure tells both.
fn assert_bytes(rt: &impl Abort, name: &str, device: &MemSink, bytes: &[u8]) {
    assert_eq!(rt; device.bytes(), bytes, "{name}");
}

/// Asserts what a run of this name left.
fn assert_trace(rt: &impl Abort, name: &str, run: &Trace, screen: &[u8], report: &[u8], code: u8) {
    assert_bytes(rt, name, &run.report, report);
    assert_bytes(rt, name, &run.screen, screen);
    assert_eq!(rt; run.code, code, "{name}");
}

#[test]
fn scripts_are_run(rt: HostRuntime) -> Result<(), Fail> {
    for case in &CASES {
        let run = played(rt.alloc(), &[], case.script, NONE)?;
        assert_trace(&rt, case.name, &run, case.screen, case.report, case.code);
    }
    for (name, script, report) in &REFUSED {
        let run = played(rt.alloc(), &[], script, NONE)?;
        assert_trace(&rt, name, &run, b"", report, 4);
    }
    Ok(())
}

/// A text that has so many letters between two others.
fn with_letters(alloc: Global, front: &[u8], count: usize, back: &[u8]) -> Result<Vec<u8>, Fail> {
    let mut text = Vec::from_slice(alloc, front)?;
    for _i in 0..count {
        text.push(b'k')?;
    }
    text.extend_from_slice(back)?;
    Ok(text)
}

/// What a report says before a key that the op of the first line does not have.
const EXTRA: &[u8] = b"script:1: Extra ";

/// The letters of the longest such key whose line, with its newline, has room in a piece.
const KEY_LETTERS: usize = PIECE_BYTES - EXTRA.len() - 1;

/// Asserts that a key of so many letters, which the op does not have, is told whole.
fn assert_key(rt: &impl Abort, alloc: Global, name: &str, count: usize) -> Result<(), Fail> {
    let script = with_letters(alloc, b"{\"op\":\"redisplay\",\"", count, b"\":1}\n")?;
    let told = with_letters(alloc, EXTRA, count, b"\n")?;
    let run = played(alloc, &[], script.as_slice(), NONE)?;
    assert_trace(rt, name, &run, b"", told.as_slice(), 4);
    Ok(())
}

#[test]
fn a_key_may_be_longer_than_a_piece(rt: HostRuntime) -> Result<(), Fail> {
    assert_key(&rt, rt.alloc(), "a line as long as a piece", KEY_LETTERS)?;
    assert_key(
        &rt,
        rt.alloc(),
        "a line longer than a piece",
        KEY_LETTERS + 1,
    )
}

/// Runs a script that comes byte by byte.
fn played_slowly(alloc: Global, script: &[u8]) -> Result<Trace, Fail> {
    let source = source(alloc, script, 0)?;
    played_from(alloc, &[], &mut OneByOne { source }, AMPLE, NONE)
}

#[test]
fn a_script_may_come_byte_by_byte(rt: HostRuntime) -> Result<(), Fail> {
    for case in &CASES {
        let run = played_slowly(rt.alloc(), case.script)?;
        assert_trace(&rt, case.name, &run, case.screen, case.report, case.code);
    }
    Ok(())
}

/// Words behind those that name the data files, by what they ask for, and what the first script then sends, reports and answers.
struct Words {
    name: &'static str,
    words: &'static [&'static str],
    sent: &'static [u8],
    told: &'static [u8],
    code: u8,
}

const WORDS: [Words; 4] = [
    Words {
        name: "the usage",
        words: &["--help"],
        sent: b"",
        told: b"usage: redisplay --data FILE --mirror FILE [--brackets FILE] [--generate N] [--dump]\n",
        code: 2,
    },
    Words {
        name: "a dump",
        words: &["--dump"],
        sent: b"\x1b[0m\x1b[2J\x1b[1;1H",
        told: b"2: shown 0 rows\nwindow 0 at 0,0 size 12x1 start 1.0 point 1 cursor 0,0\nrow 0 |            |\nrow 1 |            |\ncursor 0,0\ndone 2 lines\n",
        code: 0,
    },
    Words {
        name: "a file of brackets that is not there",
        words: &["--brackets", "none"],
        sent: b"",
        told: b"read fault\n",
        code: 5,
    },
    Words {
        name: "a file of brackets that has classes",
        words: &["--brackets", "D"],
        sent: b"",
        told: b"brackets:1: BadLine\n",
        code: 3,
    },
];

#[test]
fn words_are_known(rt: HostRuntime) -> Result<(), Fail> {
    for given in &WORDS {
        let run = played(rt.alloc(), given.words, CASES[0].script, NONE)?;
        assert_trace(&rt, given.name, &run, given.sent, given.told, given.code);
    }
    Ok(())
}

/// What the script that is made from 7 reports.
const SUMMARY: &[u8] = b"lines 605\nredisplays 301\ncharacters 75220\nstart 27645.0\n";

/// Runs the script that is made from 7, and answers the report and the status.
fn generated(alloc: Global) -> Result<(MemSink, u8), Fail> {
    let words = words_of(alloc, &["--generate", "7"])?;
    let mut script = source(alloc, b"{}", 1)?;
    let mut files = files(alloc, 0)?;
    let mut screen = MemSink::with_room(alloc, 4_194_304)?;
    let mut report = sink(alloc, AMPLE, 0)?;
    let code = answered::<Brand, MemSource>(
        Blank::new(1),
        alloc,
        words,
        &mut script,
        &mut files,
        &mut screen,
        &mut report,
    );
    Ok((report, code))
}

#[test]
fn a_generated_script_is_summed_up(rt: HostRuntime) -> Result<(), Fail> {
    let (report, code) = generated(rt.alloc())?;
    assert_eq!(rt; report.bytes(), SUMMARY);
    assert_eq!(rt; code, 0);
    Ok(())
}
