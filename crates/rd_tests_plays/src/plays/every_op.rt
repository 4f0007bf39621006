//! A script with every op whose devices fail at each of their calls.

use super::{
    AMPLE, Calls, NONE, OneByOne, Trace, assert_trace, fetch, played, played_from, send, source,
    tell,
};
use std::alloc::Global;
use std::process::Abort;
use std::test::Fail;

/// A script with every op, and what it does. A line that begins with a brace is one of the script. Behind it stands what it writes, a line
/// for each write, in order: behind `>` what is sent to the screen, with `~` in the place of ESC, and else a line of the report.
const TRANSCRIPT: &str = r#"{"op":"frame","width":12,"height":7}
{"op":"shift","on":true}
{"op":"scrolling","margin":0,"conservatively":0}
{"op":"type","text":"one\ntwo\nthree\nfour\nfive\nsix\nseven\n"}
{"op":"point","window":0,"pos":1}
{"op":"echo","text":"hi"}
{"op":"redisplay"}
>~[0m~[2J~[1;1Hone~[2;1Htwo~[3;1Hthree~[4;1Hfour~[5;1Hfive~[6;1Hsix~[7;1Hhi~[1;1H
7: shown 7 rows
window 0 at 0,0 size 12x6 start 1.0 point 1 cursor 0,0
row 0 |one         |
row 1 |two         |
row 2 |three       |
row 3 |four        |
row 4 |five        |
row 5 |six         |
row 6 |hi          |
cursor 0,0
{"op":"scroll","window":0,"rows":3}
{"op":"redisplay"}
>~[1;6r~[1;1H~[3M~[1;7r
>~[4;1Hseven~[1;1H
9: shown 1 rows
window 0 at 0,0 size 12x6 start 15.0 point 15 cursor 0,0
row 0 |four        |
row 1 |five        |
row 2 |six         |
row 3 |seven       |
row 4 |            |
row 5 |            |
row 6 |hi          |
cursor 0,0
{"op":"go","window":0,"side":"right"}
{"op":"hit","window":0,"row":1,"column":2}
{"op":"redisplay"}
>~[2;3H
12: shown 0 rows
window 0 at 0,0 size 12x6 start 15.0 point 22 cursor 1,2
row 0 |four        |
row 1 |five        |
row 2 |six         |
row 3 |seven       |
row 4 |            |
row 5 |            |
row 6 |hi          |
cursor 1,2
{"op":"insert","buffer":"main","pos":15,"text":"X"}
{"op":"insert_raw","buffer":"main","pos":21,"bytes":[200]}
{"op":"redisplay","stop":1}
>~[1;1HXfour
15: stopped 1 rows
{"op":"redisplay"}
>~[2;1H\310five~[2;7H
16: shown 1 rows
window 0 at 0,0 size 12x6 start 15.0 point 24 cursor 1,6
row 0 |Xfour       |
row 1 |\310five    |
row 2 |six         |
row 3 |seven       |
row 4 |            |
row 5 |            |
row 6 |hi          |
cursor 1,6
{"op":"delete","buffer":"main","from":21,"to":22}
{"op":"face","bold":true}
{"op":"put","buffer":"main","from":15,"to":16,"kind":"face","value":0}
{"op":"string","text":"ab"}
{"op":"spec","kind":"string","value":0}
{"op":"overlay","buffer":"main","from":21,"to":25}
{"op":"overlay_put","buffer":"main","overlay":0,"kind":"before","value":0}
{"op":"margin","window":0,"numbers":0,"strings":1}
{"op":"margin_put","buffer":"main","overlay":0,"string":0}
{"op":"redisplay"}
>~[1;1H ~[0;1mX~[0mfour~[2;1Haabfive~[K~[3;1H six~[4;1H seven~[2;6H
26: shown 4 rows
window 0 at 0,0 size 12x6 start 15.0 point 23 cursor 1,4
row 0 | Xfour      | 1-1:1
row 1 |aabfive     |
row 2 | six        |
row 3 | seven      |
row 4 |            |
row 5 |            |
row 6 |hi          |
cursor 1,5
{"op":"overlay_move","buffer":"main","overlay":0,"from":26,"to":29}
{"op":"redisplay"}
>~[2;1H five~[K~[3;1Haabsix~[2;4H
28: shown 2 rows
window 0 at 0,0 size 12x6 start 15.0 point 23 cursor 1,2
row 0 | Xfour      | 1-1:1
row 1 | five       |
row 2 |aabsix      |
row 3 | seven      |
row 4 |            |
row 5 |            |
row 6 |hi          |
cursor 1,3
{"op":"overlay_drop","buffer":"main","overlay":0}
{"op":"setting","buffer":"main","name":"tab_width","value":4}
{"op":"table","truncation":">"}
{"op":"margin","window":0,"numbers":0,"strings":0}
{"op":"wrap","window":0,"mode":"continue"}
{"op":"hscroll","window":0,"columns":1}
{"op":"redisplay"}
>~[1;1H$our~[K~[2;1H$ve~[K~[3;1H$x~[K~[4;1H$ven~[K~[2;2H
35: shown 4 rows
window 0 at 0,0 size 12x6 start 15.0 point 23 cursor 1,1
row 0 |$our        |
row 1 |$ve         |
row 2 |$x          |
row 3 |$ven        |
row 4 |            |
row 5 |            |
row 6 |hi          |
cursor 1,1
{"op":"hscroll","window":0,"columns":0}
{"op":"split","window":0,"side":"below","size":2}
{"op":"mode_line","window":1,"format":"%b"}
{"op":"buffer","name":"aux"}
{"op":"show","window":1,"buffer":"aux"}
{"op":"select","window":1}
{"op":"type","text":"abc\ndef"}
{"op":"redisplay"}
>~[1;1H~[0;1mX~[0mfour~[2;1Hfive~[3;1Habc~[4;1Hdef~[K~[6;1H~[0;7maux         ~[0m~[4;4H
43: shown 5 rows
window 0 at 0,0 size 12x2 start 15.0 point 23 cursor 1,2
window 1 at 2,0 size 12x4 start 1.0 point 8 cursor 1,3
row 0 |Xfour       | 0-0:1
row 1 |five        |
row 2 |abc         |
row 3 |def         |
row 4 |            |
row 5 |aux         | 0-11:7
row 6 |hi          |
cursor 3,3
{"op":"narrow","buffer":"aux","from":1,"to":4}
{"op":"start","window":0,"pos":9,"row":0}
{"op":"redisplay"}
>~[1;1Hthree~[2;1H~[0;1mX~[0mfour~[4;1H~[K~[3;4H
46: shown 3 rows
window 0 at 0,0 size 12x2 start 9.0 point 20 cursor 1,5
window 1 at 2,0 size 12x4 start 1.0 point 4 cursor 0,3
row 0 |three       |
row 1 |Xfour       | 0-0:1
row 2 |abc         |
row 3 |            |
row 4 |            |
row 5 |aux         | 0-11:7
row 6 |hi          |
cursor 2,3
{"op":"widen","buffer":"aux"}
{"op":"remove","window":0}
{"op":"redisplay"}
>~[1;1Habc~[K~[2;1Hdef~[K~[3;1H~[K~[1;4H
49: shown 3 rows
window 1 at 0,0 size 12x6 start 1.0 point 4 cursor 0,3
row 0 |abc         |
row 1 |def         |
row 2 |            |
row 3 |            |
row 4 |            |
row 5 |aux         | 0-11:7
row 6 |hi          |
cursor 0,3
done 49 lines"#;

/// How many lines the transcript has.
const ALL: usize = 165;

/// How many lines the script has.
const LINES: u64 = 49;

/// How many writes the screen gets: one for each redisplay, and one more for the shift.
const SENDS: u64 = 12;

/// How many writes the report gets: one for each of its lines.
const TELLS: u64 = 104;

/// The fetches that the two data files take, by what they are for, and their numbers.
const FETCHES: [(&'static str, u64); 4] = [
    ("the classes", 1),
    ("the end of the classes", 2),
    ("the mirrors", 3),
    ("the end of the mirrors", 4),
];

/// A device that a line of the transcript comes from or goes to.
#[derive(Clone, Copy, PartialEq, Eq)]
enum Device {
    Script,
    Screen,
    Report,
}

/// The device that a line of the transcript comes from or goes to.
fn device_of(line: &str) -> Device {
    match line.as_bytes().first() {
        Some(b'{') => Device::Script,
        Some(b'>') => Device::Screen,
        _ => Device::Report,
    }
}

/// How many lines of the transcript stand before the one of a device with this number, from 1.
fn lines_before(device: Device, number: u64) -> usize {
    let mut left = number;
    for (lines, line) in TRANSCRIPT.lines().enumerate() {
        if device_of(line) == device {
            left = left.saturating_sub(1);
            if left == 0 {
                return lines;
            }
        }
    }
    ALL
}

/// Adds a line of the transcript, as the device has it.
fn add_line(bytes: &mut Vec<u8>, line: &str) -> Result<(), Fail> {
    match line.strip_prefix(">") {
        Some(sent) => {
            for b in sent.bytes() {
                bytes.push(if b == b'~' { 0x1b } else { b })?;
            }
        }
        None => {
            bytes.extend_from_slice(line.as_bytes())?;
            bytes.push(b'\n')?;
        }
    }
    Ok(())
}

/// Adds what a device has of the first lines of the transcript.
fn add_lines(bytes: &mut Vec<u8>, device: Device, lines: usize) -> Result<(), Fail> {
    for line in TRANSCRIPT.lines().take(lines) {
        if device_of(line) == device {
            add_line(bytes, line)?;
        }
    }
    Ok(())
}

/// What a device has of the first lines of the transcript.
fn bytes_of(alloc: Global, device: Device, lines: usize) -> Result<Vec<u8>, Fail> {
    let mut bytes = Vec::new(alloc);
    add_lines(&mut bytes, device, lines)?;
    Ok(bytes)
}

/// The bytes of the script.
fn script(alloc: Global) -> Result<Vec<u8>, Fail> {
    bytes_of(alloc, Device::Script, ALL)
}

/// Runs the script, with dumps.
fn run(alloc: Global, calls: Calls) -> Result<Trace, Fail> {
    played(alloc, &["--dump"], script(alloc)?.as_slice(), calls)
}

/// Runs the script, with dumps, from a source that gives a byte at a time and fails at the first byte of a line.
fn run_up_to(alloc: Global, number: u64) -> Result<Trace, Fail> {
    let before = bytes_of(alloc, Device::Script, lines_before(Device::Script, number))?;
    let source = source(alloc, script(alloc)?.as_slice(), before.len() as u64 + 1)?;
    played_from(alloc, &["--dump"], &mut OneByOne { source }, AMPLE, NONE)
}

/// The line of the transcript behind so many.
fn line_behind(lines: usize) -> &'static str {
    for (before, line) in TRANSCRIPT.lines().enumerate() {
        if before == lines {
            return line;
        }
    }
    "the end"
}

/// Asserts that a run left what the first lines of the transcript write, this last line and this status. The line behind them is the
/// case's name.
fn assert_lines(
    rt: &impl Abort,
    alloc: Global,
    run: &Trace,
    lines: usize,
    last: &[u8],
    code: u8,
) -> Result<(), Fail> {
    let sent = bytes_of(alloc, Device::Screen, lines)?;
    let mut told = bytes_of(alloc, Device::Report, lines)?;
    told.extend_from_slice(last)?;
    assert_trace(
        rt,
        line_behind(lines),
        run,
        sent.as_slice(),
        told.as_slice(),
        code,
    );
    Ok(())
}

#[test]
fn every_op_is_run(rt: HostRuntime) -> Result<(), Fail> {
    let left = run(rt.alloc(), NONE)?;
    assert_lines(&rt, rt.alloc(), &left, ALL, b"", 0)
}

#[test]
fn each_read_may_fail(rt: HostRuntime) -> Result<(), Fail> {
    for number in 1..=LINES + 1 {
        let left = run_up_to(rt.alloc(), number)?;
        let lines = lines_before(Device::Script, number).min(ALL - 1);
        assert_lines(&rt, rt.alloc(), &left, lines, b"read fault\n", 5)?;
    }
    Ok(())
}

#[test]
fn each_fetch_may_fail(rt: HostRuntime) -> Result<(), Fail> {
    for (name, call) in &FETCHES {
        let left = run(rt.alloc(), fetch(*call))?;
        assert_trace(&rt, name, &left, b"", b"read fault\n", 5);
    }
    Ok(())
}

#[test]
fn each_write_of_the_screen_may_fail(rt: HostRuntime) -> Result<(), Fail> {
    for call in 1..=SENDS {
        let left = run(rt.alloc(), send(call))?;
        let lines = lines_before(Device::Screen, call);
        assert_lines(&rt, rt.alloc(), &left, lines, b"write fault\n", 6)?;
    }
    Ok(())
}

#[test]
fn each_write_of_the_report_may_fail(rt: HostRuntime) -> Result<(), Fail> {
    for call in 1..=TELLS {
        let left = run(rt.alloc(), tell(call))?;
        let lines = lines_before(Device::Report, call);
        assert_lines(&rt, rt.alloc(), &left, lines, b"", 6)?;
    }
    Ok(())
}
