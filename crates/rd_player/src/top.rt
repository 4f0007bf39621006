//! `play`: the words, the data files, the lines of the script, and the last line of the report. Its clause `ran` is the promise of the
//! README.
//!
//! `begun` answers a run of no line, or the status that comes before the first line. `run_whole` runs the lines (`run`), each of them by
//! `Playing::line` (`act`), and `finish` writes the last line.
ghost use Rattle.std.specs.Prelude.{◌≡◌, ℕ, ◌≤◌, IsSome, Some, List, Option};
ghost use Rattle.rd_files.specs.DataFiles.{meaning as files_meaning};
ghost use Rattle.rd_io.specs.Devices.{Prints};
ghost use Rattle.rd_player.specs.Acts.{Begins, Finishes, IsOpened, IsNew, Tells, mode_of, status_of};
ghost use Rattle.rd_player.specs.Devices.{drawn_by, given_by, sunk_by};
ghost use Rattle.rd_player.specs.Played.{CountsFaults, HasReadFault, Played};
ghost use Rattle.rd_run.specs.Ends.{sunk};
ghost use Rattle.rd_run.specs.Given.{Given, IsMode, NoneFailed};
ghost use Rattle.rd_run.specs.Reports.{last_line};
ghost use Rattle.rd_run.specs.Statuses.{TellsNoMemory};
ghost use Rattle.rd_words.specs.Command.{meaning, texts};
ghost use Rattle.rd_words.specs.Words.{WordValues, values_of};

use crate::act::Playing;
use crate::halt::Ending;
use crate::last_line::LastLine;
use crate::run::{run_generated, run_script};
use rd_base::Steps;
use rd_dump::print_at_once;
use rd_files::{DataFault, DataFiles, read_data};
use rd_io::{Failed, Files, Sink, Source};
use rd_run::{Status, each_redisplay_is_shown, each_slice_is_known};
use rd_words::{Words, WordsFault, read_words};
use std::alloc::Global;
use std::sync::ledger::Ledger;

/// Runs a script from its bytes to the terminal's bytes and the report.
///
/// `words` are those after the program's name: `--data FILE` and `--mirror FILE`, and where they are wanted `--brackets FILE`,
/// `--generate N` and `--dump`, by which each redisplay that is shown is followed by its dump in the report. Other words give Usage,
/// and nothing is read. Then the files of these names are read from `files` in this order, each whole; the first bad line of one, or
/// that it is too large, gives BadData. The lines of `script` are run in turn and count from 1. With `--generate N` those of the
/// script that is made from N take their place, and `script` is not read; then the report has no line of a redisplay but of one
/// without memory, and at the end says how many lines were run, how many redisplays shown, how many characters `main` has and where
/// the selected window starts. A line of only spaces, tabs and bytes 13 is passed over. The first line that is too long, one too
/// many, no op, or refused gives BadScript.
///
/// A redisplay sends its bytes to `screen` before the report gets its line. One that finds no memory is reported, and the run goes
/// on; want of memory anywhere else gives NoMemory, and nothing of the op in hand stands. ReadFault comes where the count of
/// `script` rose, or that of a file that the words name, and WriteFault where that of `screen` or `report` did. With every other
/// status no count rose: a fault ends the run (`faults`). After a fault of the screen the report still gets its last line, and after
/// one of the report nothing more is written. No line of the report takes memory.
///
/// `ran` says, by the lines that were run and the bytes that were taken from `script`, what holds where each status comes, what was
/// written then, that behind each redisplay that was shown the written terminal shows what the rules give from nothing, that behind
/// each that was shown or stopped the terminal's cells are those of the current screen, and that the steps rise by no more than the
/// redisplays that were begun may place. Of bytes it speaks only where they are known: those of devices that tell theirs. It says too
/// that under valid words, over good files whose bytes are known, a script without a bad line ends Done or NoMemory, where no count
/// rose. A script has no bad line if each op is accepted for some choice of redisplays without memory that is the run's own as far as
/// it went: want of memory at a redisplay can make a later hit be refused. Its bytes are to be known too, unless it is generated.
/// `no_memory_told` says that want of memory is no kind of a bad data file, nor of a line that is no op, nor of an op that is refused.
///
/// Each file and each line is read once.
pub fn play<S: Source, F: Files, K: Sink, R: Sink, L: Ledger>(
    alloc: Global,
    words: Vec<String>,
    script: &mut S,
    files: &mut F,
    screen: &mut K,
    report: &mut R,
    steps: &mut Steps<L>,
) -> Status
    ensures ran { Played (given_by (values_of (texts words.items)) F.contents F.faults files.old files.new) result (S.left script.old)
        (drawn_by S.left S.faults script.old script.new) (sunk_by K.written K.faults screen.old screen.new) (sunk_by R.written R.faults report.old report.new) steps.old steps.new }
    ensures read { HasReadFault (given_by (values_of (texts words.items)) F.contents F.faults files.old files.new) result (drawn_by S.left S.faults script.old script.new) }
    ensures faults { CountsFaults (given_by (values_of (texts words.items)) F.contents F.faults files.old files.new) result
        (drawn_by S.left S.faults script.old script.new) (sunk_by K.written K.faults screen.old screen.new) (sunk_by R.written R.faults report.old report.new) }
    ensures no_memory_told { TellsNoMemory result }
    ensures unread { (w : WordValues) → values_of (texts words.items) ≡ Some w → IsSome w.generate → script.new ≡ script.old }
    ensures script { S.faults script.old ≤ S.faults script.new }
    ensures contents { (file : List ℕ) → F.contents files.new file ≡ F.contents files.old file }
    ensures files { (file : List ℕ) → F.faults files.old file ≤ F.faults files.new file }
    ensures screen { K.faults screen.old ≤ K.faults screen.new }
    ensures report { R.faults report.old ≤ R.faults report.new }
{
    each_redisplay_is_shown();
    match begun(alloc, words, files) {
        Ok(mut run) => run_whole(alloc, &mut run, script, screen, report, steps),
        Err(status) => finish(report, Ending::Ends(status, 0)),
    }
}

/// Reads the words and the files that they name, and answers a run of no line, or the status that comes before the first line.
fn begun<F: Files>(alloc: Global, words: Vec<String>, files: &mut F) -> Result<Playing, Status>
    ensures begins { Begins result (given_by (values_of (texts words.items)) F.contents F.faults files.old files.new) }
    ensures contents { (file : List ℕ) → F.contents files.new file ≡ F.contents files.old file }
    ensures never_falls { (file : List ℕ) → F.faults files.old file ≤ F.faults files.new file }
{
    match read_words(alloc, words.as_slice()) {
        Ok(words) => begun_with(alloc, &words, files),
        Err(WordsFault::Usage) => Err(Status::Usage),
        Err(WordsFault::Memory) => Err(Status::NoMemory),
    }
}

/// Reads the files that the words name, and answers a run of no line, or the status that comes before the first line.
fn begun_with<F: Files>(alloc: Global, words: &Words, files: &mut F) -> Result<Playing, Status>
    ensures begins { Begins result (given_by (Some (meaning words.now)) F.contents F.faults files.old files.new) }
    ensures contents { (file : List ℕ) → F.contents files.new file ≡ F.contents files.old file }
    ensures never_falls { (file : List ℕ) → F.faults files.old file ≤ F.faults files.new file }
{
    match read_data(
        alloc,
        files,
        words.class_file,
        words.mirror_file,
        words.bracket_file,
    ) {
        Ok(data) => new_run(alloc, data, words),
        Err(fault) => Err(status_of(fault)),
    }
}

/// The status that a fault of the data files gives.
fn status_of(fault: DataFault) -> Status
    ensures { result ≡ status_of fault }
{
    match fault {
        DataFault::Bad(bad) => Status::BadData(bad.file, bad.line, bad.kind),
        DataFault::Read => Status::ReadFault,
        DataFault::Memory => Status::NoMemory,
    }
}

/// A run of no line over the data files, as the words ask for it.
fn new_run(alloc: Global, files: DataFiles, words: &Words) -> Result<Playing, Status>
    ensures { IsOpened result (files_meaning files) (meaning words.now) }
{
    match Playing::new(alloc, files, words.dumps, words.generate) {
        Ok(run) => Ok(run),
        Err(_) => Err(Status::NoMemory),
    }
}

/// Runs the lines of the script that is read, or of a generated one in its place, and writes the last line.
fn run_whole<S: Source, K: Sink, R: Sink, L: Ledger>(
    alloc: Global,
    run: &mut Playing,
    script: &mut S,
    screen: &mut K,
    report: &mut R,
    steps: &mut Steps<L>,
) -> Status
    requires { IsNew run.old }
    ensures played { (given : Given) → IsMode given (mode_of run.old) → NoneFailed given → Played given result (S.left script.old) (drawn_by S.left S.faults script.old script.new) (sunk_by K.written K.faults screen.old screen.new) (sunk_by R.written R.faults report.old report.new) steps.old steps.new }
    ensures unread { IsSome run.old.generated → script.new ≡ script.old }
    ensures script { S.faults script.old ≤ S.faults script.new }
    ensures screen { K.faults screen.old ≤ K.faults screen.new }
    ensures report { R.faults report.old ≤ R.faults report.new }
{
    each_redisplay_is_shown();
    each_slice_is_known();
    match run.generated {
        Some(number) => {
            let ending = run_generated(alloc, number, run, screen, report, steps);
            finish(report, ending)
        }
        None => {
            let ending = run_script(alloc, run, script, screen, report, steps);
            finish(report, ending)
        }
    }
}

/// Tells the last line, unless the report failed before.
fn finish<R: Sink>(report: &mut R, ending: Ending) -> Status
    ensures finishes { Finishes ending result (sunk_by R.written R.faults report.old report.new) }
    ensures report { R.faults report.old ≤ R.faults report.new }
{
    match ending {
        Ending::Ends(status, lines) => tell_status(report, status, lines),
        Ending::Sums(summary) => told_last(print_at_once(report, &summary), Status::Done),
        Ending::ScreenBroke => tell_status(report, Status::WriteFault, 0),
        Ending::ReportBroke => Status::WriteFault,
    }
}

/// Writes the last line, and answers its status, or the write fault where the report fails.
pub fn tell_status<R: Sink>(report: &mut R, status: Status, lines: u32) -> Status
    ensures tells { Tells status (last_line status lines) result (sunk_by R.written R.faults report.old report.new) }
    ensures report { R.faults report.old ≤ R.faults report.new }
{
    told_last(print_at_once(report, &LastLine(&status, lines)), status)
}

/// The status that is answered behind a last line: that of the run, or the write fault where the report failed.
fn told_last(printed: Result<(), Failed>, status: Status) -> Status
    ensures { (old new : Option (List ℕ)) (before after : ℕ) (line : List ℕ) → Prints old new before after line printed → Tells status line result (sunk old new before after) }
{
    match printed {
        Ok(()) => status,
        Err(_) => Status::WriteFault,
    }
}
