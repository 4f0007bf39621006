//! Strings and display specs, made as ops say them, with the refusals of each in order.
ghost use Rattle.std.specs.Prelude.{◌≡◌, if◌then◌else◌, min};
ghost use Rattle.rd_objects.specs.Things.{string_fault, string_added};
ghost use Rattle.rd_script.specs.Forms.{IsSpecInForm};
ghost use Rattle.rd_objects.specs.Sound.{AreObjects};
ghost use Rattle.rd_state.specs.Answers.{Answers};
ghost use Rattle.rd_state.specs.Held.{capped_run};
ghost use Rattle.rd_state.specs.Making.{unless_fault, string_making, spec_making};

use crate::made::capped;
use crate::refused::Refused;
use rd_base::{Ch, mapped};
use rd_objects::{Objects, Run, Spec};
use rd_script::{OpRun, OpSpec};
use std::alloc::Global;

/// Makes a string with runs of faces and display specs.
pub(crate) fn add_string(
    alloc: Global,
    objects: &mut Objects,
    text: &[Ch],
    runs: &[OpRun],
) -> Result<(), Refused>
    requires { AreObjects objects.old }
    ensures { Answers result (string_making objects.old text.now runs.now) objects.old objects.new }
{
    let size = text.len();
    let runs = mapped(alloc, runs, |run| capped_run(size, *run))?;
    add_runs(objects, text, runs.as_slice())
}

/// Makes a string with runs of 32 bits.
fn add_runs(objects: &mut Objects, text: &[Ch], runs: &[Run]) -> Result<(), Refused>
    ensures { Answers result (unless_fault (string_fault objects.old text.now runs.now) (string_added objects.old text.now runs.now)) objects.old objects.new }
{
    objects.add_string(text, runs)?;
    Ok(())
}

/// A run in 32 bits. One that does not lie in a string of this length lies in none, and one of an object that was not made is of none.
fn capped_run(size: usize, run: OpRun) -> Run
    ensures { result ≡ capped_run size run }
{
    let inside = run.from <= run.to && run.to <= size as u64;
    Run {
        from: if_inside(inside, run.from, 1),
        to: if_inside(inside, run.to, 0),
        kind: run.kind,
        value: capped(run.value),
    }
}

/// A place of a run that lies in its string, in 32 bits, or another where it does not.
fn if_inside(inside: bool, place: u64, other: u32) -> u32
    ensures { result ≡ (if inside then min place 4294967295 else other) }
{
    if inside {
        place.min(u32::MAX as u64) as u32
    } else {
        other
    }
}

/// Makes a display spec.
pub(crate) fn add_spec(objects: &mut Objects, spec: OpSpec) -> Result<(), Refused>
    requires form { IsSpecInForm spec }
    requires few { AreObjects objects.old }
    ensures { Answers result (spec_making objects.old spec) objects.old objects.new }
{
    let spec = match spec {
        OpSpec::Text(number) => Spec::Text(capped(number)),
        OpSpec::Width(columns) => Spec::Width(columns),
        OpSpec::Align(column) => Spec::Align(column),
    };
    objects.add_spec(spec)?;
    Ok(())
}
