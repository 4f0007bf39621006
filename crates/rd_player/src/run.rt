//! The run over the lines of a source, and over those of a generated script, up to what stops it.
ghost use Rattle.std.specs.Prelude.{◌≡◌, ℕ, ◌≤◌, length, List, None, Option, Some};
ghost use Rattle.std.specs.Io.KnownBytes.{Consumes};
ghost use Rattle.rd_generate.specs.Generated.{script};
ghost use Rattle.rd_player.specs.Acts.{ComesTo, IsNew, MadeComeTo, ended_by, halted_by, mode_of};
ghost use Rattle.rd_player.specs.Devices.{drawn_by, sunk_by};
ghost use Rattle.rd_run.specs.Ends.{placed};
ghost use Rattle.rd_run.specs.Given.{Given, IsMode, NoneFailed};
ghost use Rattle.rd_run.specs.Runs.{Input};

use crate::act::Playing;
use crate::halt::{Ending, Halt};
use rd_base::limits::LINES;
use rd_base::{ListOf, Steps};
use rd_generate::generated;
use rd_io::{LineFault, Lines, Sink, Source};
use rd_run::{ScriptFault, Status};
use std::alloc::Global;
use std::sync::ledger::Ledger;

/// Runs the lines of a script, one after another, until one ends the run or none is left.
pub fn run_script<S: Source, K: Sink, R: Sink, L: Ledger>(
    alloc: Global,
    run: &mut Playing,
    script: &mut S,
    screen: &mut K,
    report: &mut R,
    steps: &mut Steps<L>,
) -> Ending
    requires read { run.old.generated ≡ None }
    requires begun { IsNew run.old }
    ensures comes { (given : Given) → IsMode given (mode_of run.old) → NoneFailed given → (inputs : List Input) × (bytes : List ℕ) × Consumes (S.left script.old) (S.left script.new) bytes
        × ComesTo result given (Some (mode_of run.old)) inputs bytes (drawn_by S.left S.faults script.old script.new) (sunk_by K.written K.faults screen.old screen.new) (sunk_by R.written R.faults report.old report.new)
        (placed steps.old steps.new) }
    ensures script { S.faults script.old ≤ S.faults script.new }
    ensures screen { K.faults screen.old ≤ K.faults screen.new }
    ensures report { R.faults report.old ≤ R.faults report.new }
{
    let Ok(mut lines) = Lines::new(alloc) else {
        return Ending::Ends(Status::NoMemory, 0);
    };
    'each_line: loop {
        match lines.next(script) {
            Ok(true) => {}
            Ok(false) => return Ending::Ends(Status::Done, run.lines),
            Err(fault) => return ended_by(fault, run.lines),
        }
        let before = run.lines;
        match run.line(alloc, lines.line(), screen, report, steps) {
            Ok(()) => {}
            Err(halt) => return halted_by(halt, before),
        }
    }
}

/// Runs the lines of the script that is made from a number, one after another, until one ends the run or none is left.
pub fn run_generated<K: Sink, R: Sink, L: Ledger>(
    alloc: Global,
    number: u32,
    run: &mut Playing,
    screen: &mut K,
    report: &mut R,
    steps: &mut Steps<L>,
) -> Ending
    requires generated { run.old.generated ≡ Some number }
    requires begun { IsNew run.old }
    ensures comes { (given : Given) (left : Option (List ℕ)) (faults : ℕ) → IsMode given (mode_of run.old) → NoneFailed given
        → MadeComeTo result given (mode_of run.old) left faults (sunk_by K.written K.faults screen.old screen.new) (sunk_by R.written R.faults report.old report.new) (placed steps.old steps.new) }
    ensures screen { K.faults screen.old ≤ K.faults screen.new }
    ensures report { R.faults report.old ≤ R.faults report.new }
{
    match generated(alloc, number) {
        Ok(lines) => run_lines(alloc, lines.as_slice(), run, screen, report, steps),
        Err(_) => Ending::Ends(Status::NoMemory, 0),
    }
}

/// Runs the lines of a generated script, which are given whole.
fn run_lines<K: Sink, R: Sink, L: Ledger>(
    alloc: Global,
    lines: &[ListOf<u8>],
    run: &mut Playing,
    screen: &mut K,
    report: &mut R,
    steps: &mut Steps<L>,
) -> Ending
    requires few { length lines.now ≤ LINES }
    requires begun { IsNew run.old }
    ensures comes { (given : Given) (number : ℕ) (left : Option (List ℕ)) (faults : ℕ) → IsMode given (mode_of run.old) → NoneFailed given → run.old.generated ≡ Some number → lines.now ≡ script number
        → MadeComeTo result given (mode_of run.old) left faults (sunk_by K.written K.faults screen.old screen.new) (sunk_by R.written R.faults report.old report.new) (placed steps.old steps.new) }
    ensures screen { K.faults screen.old ≤ K.faults screen.new }
    ensures report { R.faults report.old ≤ R.faults report.new }
{
    'each_line: for line in lines {
        let before = run.lines;
        match run.line(alloc, line.as_slice(), screen, report, steps) {
            Ok(()) => {}
            Err(halt) => return halted_by(halt, before),
        }
    }
    Ending::Sums(run.summary())
}

/// How a run ends whose reader answers a fault, behind so many lines.
fn ended_by(fault: LineFault, lines: u32) -> Ending
    requires { lines ≤ LINES }
    ensures { result ≡ ended_by fault lines }
{
    match fault {
        LineFault::Failed => Ending::Ends(Status::ReadFault, lines),
        LineFault::TooLong => Ending::Ends(
            Status::BadScript(lines + 1, ScriptFault::TooLong),
            lines,
        ),
        LineFault::TooMany => Ending::Ends(
            Status::BadScript(lines + 1, ScriptFault::TooMany),
            lines,
        ),
        LineFault::Memory => Ending::Ends(Status::NoMemory, lines),
    }
}

/// How a run ends that halts at a line, behind so many others.
fn halted_by(halt: Halt, lines: u32) -> Ending
    requires { lines ≤ LINES }
    ensures { result ≡ halted_by halt lines }
{
    match halt {
        Halt::Bad(fault) => Ending::Ends(Status::BadScript(lines + 1, fault), lines + 1),
        Halt::NoMemory => Ending::Ends(Status::NoMemory, lines),
        Halt::ScreenBroke => Ending::ScreenBroke,
        Halt::ReportBroke => Ending::ReportBroke,
    }
}
