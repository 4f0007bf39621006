//! Judges a recorded terminal stream from standard input by the last dump of a report, FILE: whether the stream shows that dump. The
//! answer is a line on standard error and the exit status.
//!
//! The rules are in docs/RULES.md, "The auditor".
#![tactic(auto)]

mod audit;
mod compare;
mod cuts;
mod dump;
mod examples;
mod law;
mod number;
mod report;
mod row;
mod run;
mod stream;
mod text;
mod verdict;

use crate::report::tell;
use crate::verdict::Verdict;
use rd_io::{HostFiles, StdSink, StdSource, host_words};
use std::io;
use std::process::ExitCode;

fn main(rt: HostRuntime) -> io::Result<ExitCode> {
    let mut report = StdSink::new(rt.stderr());
    let verdict = match host_words(&rt) {
        Ok(words) => audit::audit(
            rt.alloc(),
            words,
            &mut StdSource::new(rt.stdin()),
            &mut HostFiles::new(&rt),
            &mut report,
        ),
        Err(_starved) => match tell(&mut report, Verdict::NoMemory) {
            Ok(()) => Verdict::NoMemory,
            Err(_failed) => Verdict::WriteFault,
        },
    };
    Ok(ExitCode::from(verdict.code()))
}
