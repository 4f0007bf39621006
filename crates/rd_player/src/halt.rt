//! How a run ends: `Halt`, why a line was not run to its end; `Ending`, what ends the run; `Summary`, what the report says at the end of a
//! generated script.
use rd_base::Anchor;
use rd_run::{ScriptFault, Status};

/// Why a line was not run to its end.
#[derive(Debug, Drop)]
pub enum Halt {
    /// The line is bad.
    Bad(ScriptFault),
    /// Memory was wanting, and the op was given up: nothing of it stands.
    NoMemory,
    /// The screen failed at the update.
    ScreenBroke,
    /// The report failed at the lines of the redisplay.
    ReportBroke,
}

/// What the report says at the end of a generated script.
#[derive(Clone, Copy, Debug, Drop)]
pub struct Summary {
    /// How many lines were run.
    pub lines: u32,
    /// How many redisplays were shown.
    pub shown: u32,
    /// How many characters the buffer `main` has.
    pub characters: u32,
    /// Where the selected window starts.
    pub start: Anchor,
}

/// What ends a run: a status whose line is still to be written to the report, with how many lines were run; the end of a
/// generated script; or a sink that failed.
#[derive(Debug, Drop)]
pub enum Ending {
    Ends(Status, u32),
    Sums(Summary),
    ScreenBroke,
    ReportBroke,
}
