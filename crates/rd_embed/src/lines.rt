//! What a line of JSON does, and the redisplay.
ghost use Rattle.std.specs.Prelude.{◌≡◌, ◌≤◌, ◌+◌, Result, Option, Ok, None};
ghost use Rattle.rd_layout.specs.Redisplays.{allowed};
ghost use Rattle.rd_run.specs.Runs.{asked, is_blank};
ghost use Rattle.rd_script.specs.Forms.{IsInForm};
ghost use Rattle.rd_script.specs.declared.op.Op.{Op as OpValue};
ghost use Rattle.rd_embed.specs.Calls.{IsLineStop, LineDoes, OpDoes, Shows, asked_line, ending_of_outcome, rows_of};
ghost use Rattle.rd_embed.specs.declared.ending.Ending.{Ending as EndingValue};

use crate::embedded::Embedded;
use crate::ending::Ending;
use crate::shown::Shown;
use rd_base::Steps;
use rd_base::limits::LINE_BYTES;
use rd_layout::Outcome;
use rd_script::{Op, read_op};
use std::alloc::Global;
use std::sync::ledger::Ledger;

/// Does what a line says.
pub(crate) fn do_line<L: Ledger>(
    held: &mut Embedded,
    alloc: Global,
    line: &[u8],
    steps: &mut Steps<L>,
) -> Shown
    ensures does { LineDoes result (asked_line line.now) held.old held.new }
    ensures steps { steps.new ≤ steps.old + allowed held.old.session }
{
    if line.len() > LINE_BYTES as usize {
        return stop_line(held, Ending::TooLong);
    }
    if is_blank(line) {
        return pass_over(held);
    }
    match read_op(alloc, line) {
        Ok(op) => do_op(held, op, steps),
        Err(fault) => stop_line(held, Ending::no_op(fault)),
    }
}

/// Does what an op says that a line gave.
fn do_op<L: Ledger>(held: &mut Embedded, op: Op, steps: &mut Steps<L>) -> Shown
    requires form { IsInForm op }
    ensures does { OpDoes (asked op) result op held.old held.new }
    ensures steps { steps.new ≤ steps.old + allowed held.old.session }
{
    match asked(&op) {
        None => apply(held, op),
        Some(stop) => redisplay(held, stop, steps),
    }
}

/// Applies an op that a line gave.
fn apply(held: &mut Embedded, op: Op) -> Shown
    requires form { IsInForm op }
    requires applied { asked op ≡ None }
    ensures { OpDoes None result op held.old held.new }
{
    let status = held.perform(op);
    Shown { status, rows: 0 }
}

/// Redisplays, whole or up to so many rows.
pub(crate) fn redisplay<L: Ledger>(
    held: &mut Embedded,
    stop: Option<u32>,
    steps: &mut Steps<L>,
) -> Shown
    ensures shows { Shows result stop held.old held.new }
    ensures steps { steps.new ≤ steps.old + allowed held.old.session }
{
    let outcome = held.session.redisplay(&mut held.pending, stop, steps);
    let rows = rows_of(&outcome);
    let ending = ending_of(outcome);
    let status = ending.status();
    held.ending = ending;
    Shown { status, rows }
}

/// How a redisplay ended.
fn ending_of(outcome: Outcome) -> Ending
    ensures { result ≡ ending_of_outcome outcome }
{
    match outcome {
        Outcome::Shown(_) => Ending::Done,
        Outcome::Stopped(_) => Ending::Stopped,
        Outcome::NoMemory => Ending::NoMemory,
        Outcome::WriteFault => Ending::NoMemory,
    }
}

/// How many rows a redisplay sent.
fn rows_of(outcome: &Outcome) -> u32
    ensures { result ≡ rows_of outcome.now }
{
    match outcome {
        Outcome::Shown(rows) => *rows,
        Outcome::Stopped(rows) => *rows,
        Outcome::NoMemory => 0,
        Outcome::WriteFault => 0,
    }
}

/// Ends a line that is no op.
fn stop_line(held: &mut Embedded, ending: Ending) -> Shown
    ensures { (asked : Result (Option OpValue) EndingValue) → IsLineStop ending asked → LineDoes result asked held.old held.new }
{
    let status = held.end(ending);
    Shown { status, rows: 0 }
}

/// Passes a blank line over.
fn pass_over(held: &mut Embedded) -> Shown
    ensures { LineDoes result (Ok None) held.old held.new }
{
    let status = held.end(Ending::Done);
    Shown { status, rows: 0 }
}

/// Whether a line has only spaces, tabs and bytes 13.
fn is_blank(line: &[u8]) -> bool
    ensures { result ≡ is_blank line.now }
{
    line.iter()
        .all(|b| *b == b' ' || *b == b'\t' || *b == b'\r')
}

/// The stop that a redisplay asks for, and None of every other op.
fn asked(op: &Op) -> Option<Option<u32>>
    ensures { result ≡ asked op.now }
{
    match op {
        Op::Redisplay { stop } => Some(*stop),
        _ => None,
    }
}
