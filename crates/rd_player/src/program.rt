//! `run_program`: the whole program over its devices, of which the screen and the report can't be mixed up, down to the exit status.
ghost use Rattle.std.specs.Prelude.{◌≡◌, Result};
ghost use Rattle.rd_player.specs.Devices.{drawn_by, given_by, sunk_by};
ghost use Rattle.rd_player.specs.Programs.{Answered, words_in};
ghost use Rattle.rd_run.specs.Statuses.{code_of};
ghost use Rattle.rd_run.specs.declared.status.Status.{Status as StatusValue};

use crate::top::{play, tell_status};
use rd_base::Steps;
use rd_io::{Files, Sink, Source, StdSink};
use rd_run::Status;
use std::alloc::Global;
use std::io::{Stderr, Stdout};
use std::sync::ledger::Ledger;

/// A sink for the terminal's bytes: of the system's streams standard output alone.
pub trait ToScreen {}

/// A sink for the report: of the system's streams standard error alone.
pub trait ToReport {}

impl ToScreen for StdSink<Stdout> {}

impl ToReport for StdSink<Stderr> {}

/// Runs `play` on the words behind the program's name, and answers the exit status: the code of the status that `play` answers. Where
/// the words could not be had, memory was wanting: nothing is read or sent, and the report gets the line of NoMemory.
pub fn run_program<S: Source, F: Files, K: Sink + ToScreen, R: Sink + ToReport, E: Drop, L: Ledger>(
    alloc: Global,
    words: Result<Vec<String>, E>,
    script: &mut S,
    files: &mut F,
    screen: &mut K,
    report: &mut R,
    steps: &mut Steps<L>,
) -> u8
    ensures answered { (status : StatusValue) × (result ≡ code_of status) × Answered words (given_by (words_in words) F.contents F.faults files.old files.new) status
        (S.left script.old) (drawn_by S.left S.faults script.old script.new) (sunk_by K.written K.faults screen.old screen.new)
        (sunk_by R.written R.faults report.old report.new) steps.old steps.new }
{
    match words {
        Ok(words) => {
            let status = play(alloc, words, script, files, screen, report, steps);
            status.code()
        }
        Err(_starved) => tell_status(report, Status::NoMemory, 0).code(),
    }
}
