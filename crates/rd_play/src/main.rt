//! Runs a script: standard input is the script, the terminal's bytes go to standard output, the report to standard error, and the
//! status ends the process. The words name the data files; with `--generate N` a script that is made from N takes the place of
//! standard input, which is not read. With `--dump` the report has a dump behind each redisplay that is shown, unless the script is
//! generated.
//!
//! The rules are in docs/RULES.md, "The program".
#![tactic(auto)]

ghost use Rattle.std.specs.Prelude.{◌≡◌, ◌<◌};

use rd_base::Steps;
use rd_io::{HostFiles, StdSink, StdSource, host_words};
use rd_player::run_program;
use std::io;
use std::marker::Brand;
use std::process::ExitCode;
use std::sync::ledger::{Blank, Ledger};

fn main(rt: HostRuntime) -> io::Result<ExitCode> {
    Ok(ExitCode::from(start::<Brand>(&rt, Blank::new(1))))
}

/// Runs the program on the system's devices and a new ledger, and answers the exit status.
fn start<L: Ledger>(rt: &HostRuntime, blank: Blank) -> u8
    requires name { blank.name ≡ L.name }
    requires parts { blank.parts ≡ L.parts }
    requires some { 0 < L.parts }
{
    run_program(
        rt.alloc(),
        host_words(rt),
        &mut StdSource::new(rt.stdin()),
        &mut HostFiles::new(rt),
        &mut StdSink::new(rt.stdout()),
        &mut StdSink::new(rt.stderr()),
        &mut Steps::<L>::new(blank),
    )
}
