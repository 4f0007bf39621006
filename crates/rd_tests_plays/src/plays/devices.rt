//! Runs whose devices fail: the script, the files, the screen or the report, at each of their calls.

use super::{
    CASES, Calls, NONE, Trace, assert_trace, fetch, played, played_from, read, send, source, tell,
};
use std::alloc::Global;
use std::process::Abort;
use std::test::Fail;

/// What the first redisplay of the second script sends.
const FIRST: &[u8] = b"\x1b[0m\x1b[2J\x1b[1;1Habc\x1b[1;1H";

/// What both redisplays of the second script send.
const BOTH: &[u8] = b"\x1b[0m\x1b[2J\x1b[1;1Habc\x1b[1;1H\x1b[1;1H";

/// What the second script reports where no call fails.
const DONE: &[u8] = b"3: shown 1 rows\n4: shown 0 rows\ndone 4 lines\n";

/// A call that fails, by what it is for, and its number, and what the second script then sends, reports and answers.
type Failing = (&'static str, u64, &'static [u8], &'static [u8], u8);

/// Reads that fail.
const READS: [Failing; 3] = [
    ("the first read", 1, b"", b"read fault\n", 5),
    (
        "the read at the end",
        2,
        BOTH,
        b"3: shown 1 rows\n4: shown 0 rows\nread fault\n",
        5,
    ),
    ("a read behind the end", 3, BOTH, DONE, 0),
];

/// Fetches that fail.
const FETCHES: [Failing; 5] = [
    ("the classes", 1, b"", b"read fault\n", 5),
    ("the end of the classes", 2, b"", b"read fault\n", 5),
    ("the mirrors", 3, b"", b"read fault\n", 5),
    ("the end of the mirrors", 4, b"", b"read fault\n", 5),
    ("a fetch behind the mirrors", 5, BOTH, DONE, 0),
];

/// Writes of the screen that fail.
const SENDS: [Failing; 3] = [
    ("the first redisplay", 1, b"", b"write fault\n", 6),
    (
        "the second redisplay",
        2,
        FIRST,
        b"3: shown 1 rows\nwrite fault\n",
        6,
    ),
    ("a write behind both redisplays", 3, BOTH, DONE, 0),
];

/// Writes of the report that fail.
const TELLS: [Failing; 4] = [
    ("the line of the first redisplay", 1, FIRST, b"", 6),
    (
        "the line of the second redisplay",
        2,
        BOTH,
        b"3: shown 1 rows\n",
        6,
    ),
    (
        "the last line",
        3,
        BOTH,
        b"3: shown 1 rows\n4: shown 0 rows\n",
        6,
    ),
    ("a line behind the last", 4, BOTH, DONE, 0),
];

/// The calls of two devices that fail in one run of the second script and their numbers, and what it then sends, reports and answers: a
/// report that fails at the last line turns every status into the write fault.
const PAIRS: [(&'static str, Calls, &'static [u8], &'static [u8], u8); 4] = [
    (
        "the first fetch, and the line that tells it",
        Calls {
            source: 0,
            files: 1,
            screen: 0,
            report: 1,
        },
        b"",
        b"",
        6,
    ),
    (
        "the read at the end, and the line that tells it",
        Calls {
            source: 2,
            files: 0,
            screen: 0,
            report: 3,
        },
        BOTH,
        b"3: shown 1 rows\n4: shown 0 rows\n",
        6,
    ),
    (
        "the first redisplay, and the line that tells it",
        Calls {
            source: 0,
            files: 0,
            screen: 1,
            report: 1,
        },
        b"",
        b"",
        6,
    ),
    (
        "the second redisplay, and the line that tells it",
        Calls {
            source: 0,
            files: 0,
            screen: 2,
            report: 2,
        },
        FIRST,
        b"3: shown 1 rows\n",
        6,
    ),
];

/// Asserts what the second script leaves where a call of a table fails; `calls` says of which device it is.
fn assert_each<F: Fn(u64) -> Calls>(
    rt: &impl Abort,
    alloc: Global,
    table: &[Failing],
    calls: F,
) -> Result<(), Fail>
    requires { F.IsAlwaysCallable calls }
{
    for (name, call, sent, told, code) in table {
        let run = played(alloc, &[], CASES[1].script, calls(*call))?;
        assert_trace(rt, name, &run, sent, told, *code);
    }
    Ok(())
}

#[test]
fn each_read_may_fail(rt: HostRuntime) -> Result<(), Fail> {
    assert_each(&rt, rt.alloc(), &READS, read)
}

#[test]
fn each_fetch_may_fail(rt: HostRuntime) -> Result<(), Fail> {
    assert_each(&rt, rt.alloc(), &FETCHES, fetch)
}

#[test]
fn each_write_of_the_screen_may_fail(rt: HostRuntime) -> Result<(), Fail> {
    assert_each(&rt, rt.alloc(), &SENDS, send)
}

#[test]
fn each_write_of_the_report_may_fail(rt: HostRuntime) -> Result<(), Fail> {
    assert_each(&rt, rt.alloc(), &TELLS, tell)
}

#[test]
fn two_devices_may_fail(rt: HostRuntime) -> Result<(), Fail> {
    for (name, calls, sent, told, code) in &PAIRS {
        let run = played(rt.alloc(), &[], CASES[1].script, *calls)?;
        assert_trace(&rt, name, &run, sent, told, *code);
    }
    Ok(())
}

/// What the script of the stopped update sends to a screen with room for 30 bytes: the 22 of the first update, and the front of
/// the second.
const FITS: &[u8] = b"\x1b[0m\x1b[2J\x1b[1;1Ha\x1b[2;1Hb\x1b[1;1HXa";

/// Runs a script over a screen with so much room.
fn played_in(alloc: Global, script: &[u8], room: u64) -> Result<Trace, Fail> {
    played_from(alloc, &[], &mut source(alloc, script, 0)?, room, NONE)
}

#[test]
fn a_screen_may_have_too_little_room(rt: HostRuntime) -> Result<(), Fail> {
    let run = played_in(rt.alloc(), CASES[7].script, 30)?;
    assert_trace(
        &rt,
        "room for 30 bytes",
        &run,
        FITS,
        b"3: stopped 2 rows\nwrite fault\n",
        6,
    );
    Ok(())
}
