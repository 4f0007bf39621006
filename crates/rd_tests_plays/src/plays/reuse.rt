//! What redisplays keep of the rows that were shown before, as the counts of their copies tell. That what is kept takes no step is a
//! clause of `Session::redisplay`: the counter of steps takes no bytes, so no run can read it.
ghost use Rattle.std.specs.Prelude.{◌≡◌, ◌<◌};
ghost use Rattle.rd_script.specs.Forms.{IsInForm};

use super::{AMPLE, CLASSES, MIRRORS, assert_of, sink};
use rd_base::Steps;
use rd_io::MemSink;
use rd_layout::Outcome;
use rd_matrix::Matrix;
use rd_script::{Op, read_op};
use rd_session::Session;
use rd_ucd::{Brackets, Classes, Mirrors};
use std::alloc::Global;
use std::marker::Brand;
use std::sync::ledger::{Blank, Ledger};
use std::test::Fail;

/// Scripts by what changes, line by line. Behind a redisplay stands how often each row of each window was copied, in a digit each: a row
/// that nothing changed stays as it is where its whole window rests, and has a copy more where only other rows changed. A row that is
/// laid out anew was not copied.
const SCRIPTS: [(&'static str, &'static [&'static [u8]]); 4] = [
    (
        "a letter in the last row",
        &[
            br#"{"op":"frame","width":12,"height":4}"#,
            br#"{"op":"insert","buffer":"main","pos":1,"text":"a\nb\nc"}"#,
            br#"{"op":"redisplay"}"#,
            b"000",
            br#"{"op":"redisplay"}"#,
            b"000",
            br#"{"op":"insert","buffer":"main","pos":5,"text":"x"}"#,
            br#"{"op":"redisplay"}"#,
            b"110",
        ],
    ),
    (
        "a letter of the other direction at the start",
        &[
            br#"{"op":"frame","width":12,"height":8}"#,
            br#"{"op":"insert","buffer":"main","pos":1,"text":"a\nb\nc\nd\ne\n\nf"}"#,
            br#"{"op":"redisplay"}"#,
            b"0000000",
            br#"{"op":"insert","buffer":"main","pos":1,"text":"\u05d0"}"#,
            br#"{"op":"redisplay"}"#,
            b"0000001",
        ],
    ),
    (
        "a line before what two windows show",
        &[
            br#"{"op":"frame","width":24,"height":5}"#,
            br#"{"op":"insert","buffer":"main","pos":1,"text":"1\n2\n3\n4\n5\n6\n7\n8"}"#,
            br#"{"op":"mode_line","window":0,"format":"%b %l %p"}"#,
            br#"{"op":"split","window":0,"side":"right","size":12}"#,
            br#"{"op":"start","window":0,"pos":5,"row":0}"#,
            br#"{"op":"start","window":1,"pos":5,"row":0}"#,
            br#"{"op":"point","window":0,"pos":5}"#,
            br#"{"op":"point","window":1,"pos":5}"#,
            br#"{"op":"redisplay"}"#,
            b"000",
            br#"{"op":"insert","buffer":"main","pos":1,"text":"0\n"}"#,
            br#"{"op":"redisplay"}"#,
            b"111",
        ],
    ),
    (
        "another width",
        &[
            br#"{"op":"frame","width":12,"height":4}"#,
            br#"{"op":"insert","buffer":"main","pos":1,"text":"a\nb\nc"}"#,
            br#"{"op":"redisplay"}"#,
            b"000",
            br#"{"op":"frame","width":24,"height":4}"#,
            br#"{"op":"redisplay"}"#,
            b"000",
        ],
    ),
];

/// A session of no op.
fn session(alloc: Global) -> Result<Session, Fail> {
    Ok(Session::new(
        alloc,
        Classes::read(alloc, CLASSES)?,
        Mirrors::read(alloc, MIRRORS)?,
        Brackets::read(alloc, b"")?,
    )?)
}

/// Whether a window has as many rows as there are digits, each copied so often.
fn has_copies(matrix: &Matrix, copies: &[u8]) -> bool {
    for row in 0..matrix.len() {
        let count = matrix.entry(row).row.copies();
        match copies.get(row) {
            Some(digit) if u32::from(*digit) == count.saturating_add(48) => {}
            _ => return false,
        }
    }
    matrix.len() == copies.len()
}

/// Whether the rows of each window were copied so often.
fn are_copied(session: &Session, copies: &[u8]) -> bool {
    for window in 0..2 {
        if let Some(matrix) = session.matrix(window) {
            if !has_copies(matrix, copies) {
                return false;
            }
        }
    }
    true
}

/// Whether an op is accepted, or the frame is shown.
fn is_done<L: Ledger>(
    session: &mut Session,
    op: Op,
    screen: &mut MemSink,
    steps: &mut Steps<L>,
) -> bool
    requires { IsInForm op }
{
    match op {
        Op::Redisplay { stop } => match session.redisplay(screen, stop, steps) {
            Outcome::Shown(_) => true,
            _ => false,
        },
        op => session.apply(op).is_ok(),
    }
}

/// Whether a line is an op that is accepted, or shows the frame, or says how often rows were copied.
fn holds<L: Ledger>(
    alloc: Global,
    session: &mut Session,
    line: &[u8],
    screen: &mut MemSink,
    steps: &mut Steps<L>,
) -> bool {
    if line.first() != Some(&b'{') {
        return are_copied(session, line);
    }
    match read_op(alloc, line) {
        Ok(op) => is_done(session, op, screen, steps),
        Err(_) => false,
    }
}

/// Whether each line of a script holds.
fn all_hold<L: Ledger>(
    alloc: Global,
    session: &mut Session,
    script: &[&[u8]],
    screen: &mut MemSink,
    steps: &mut Steps<L>,
) -> bool {
    for line in script {
        if !holds(alloc, session, line, screen, steps) {
            return false;
        }
    }
    true
}

/// Whether each line of a script holds, over a new session and on a new ledger.
fn keeps<L: Ledger>(blank: Blank, alloc: Global, script: &[&[u8]]) -> Result<bool, Fail>
    requires name { blank.name ≡ L.name }
    requires parts { blank.parts ≡ L.parts }
    requires some { 0 < L.parts }
{
    let mut session = session(alloc)?;
    let mut screen = sink(alloc, AMPLE, 0)?;
    let mut steps = Steps::<L>::new(blank);
    Ok(all_hold(alloc, &mut session, script, &mut screen, &mut steps))
}

/// Whether each line of a script holds, over a new session and on a ledger of its own.
fn is_kept(alloc: Global, script: &[&[u8]]) -> Result<bool, Fail> {
    keeps::<Brand>(Blank::new(1), alloc, script)
}

#[test]
fn rows_that_nothing_changed_are_kept(rt: HostRuntime) -> Result<(), Fail> {
    for (name, script) in &SCRIPTS {
        assert_of(&rt, name, is_kept(rt.alloc(), script)?);
    }
    Ok(())
}
