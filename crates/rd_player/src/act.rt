//! `Playing`, a run in progress, and `Playing::line`, which does what one line says: it reads an op, applies it, or redisplays and
//! writes the lines of the report.
ghost use Rattle.std.specs.Prelude.{◌≡◌, ℕ, ◌≤◌, true, false, None, List, IfOk, OnErr, Option, if◌then◌else◌, unwrap_or};
ghost use Rattle.rd_io.specs.Devices.{Prints};
ghost use Rattle.rd_layout.specs.Copies.{without_copies};
ghost use Rattle.rd_layout.specs.Facts.{facts_of};
ghost use Rattle.rd_layout.specs.Sessions.{length_of, session_step};
ghost use Rattle.rd_state.specs.States.{main_name};
ghost use Rattle.rd_state.specs.Windows.{selected_window};
ghost use Rattle.rd_player.specs.Acts.{Acts, BearsIt, CanGoOn, GivesUp, IsNew, IsTold, Places, mode_of, standing, summary_of};
ghost use Rattle.rd_player.specs.Devices.{sunk_by};
ghost use Rattle.rd_run.specs.Ends.{summary, sunk};
ghost use Rattle.rd_run.specs.Runs.{asked, dump_lines, effect, effect_of_op, is_blank, redisplayed, stepped, told_of, unshown, input_of};
ghost use Rattle.rd_script.specs.Forms.{IsInForm};

use crate::halt::{Halt, Summary};
use crate::report::{tell_no_memory, tell_rows};
use crate::windows::Windows;
use rd_base::{Anchor, Memory, Steps};
use rd_dump::print_dump;
use rd_files::DataFiles;
use rd_io::{Failed, Sink};
use rd_layout::{
    Outcome, copies_change_no_allowance, copies_change_no_op, sent_redisplays_are_determined,
};
use rd_run::ScriptFault;
use rd_script::{Op, OpFault, read_op};
use rd_session::Session;
use rd_state::Refused;
use std::alloc::Global;
use std::sync::ledger::Ledger;

/// A run: whether dumps are asked for, the number of a generated script where it stands in place of the one that is read, the
/// session, room for what a dump says of the windows, and how many lines were run and redisplays shown.
#[derive(Drop)]
pub struct Playing {
    dumps: bool,
    pub generated: Option<u32>,
    session: Session,
    windows: Windows,
    pub lines: u32,
    shown: u32,
}

impl Playing {
    /// A run of no line, over the data files.
    pub fn new(
        alloc: Global,
        files: DataFiles,
        dumps: bool,
        generated: Option<u32>,
    ) -> Result<Playing, Memory>
        ensures mode { IfOk result (λ run. mode_of run ≡ record { files = record { classes = files.classes; mirrors = files.mirrors; brackets = files.brackets }; dumps = dumps; generated = generated }) }
        ensures begun { IfOk result (λ run. IsNew run) }
    {
        Ok(Playing {
            dumps,
            generated,
            session: Session::new(alloc, files.classes, files.mirrors, files.brackets)?,
            windows: Windows::new(alloc)?,
            lines: 0,
            shown: 0,
        })
    }

    /// Runs one line. A redisplay's bytes are sent before its line is written to the report.
    #[tactic(auto, unfolding(rd_run::specs::Runs::effect))]
    pub fn line<K: Sink, R: Sink, L: Ledger>(
        &mut self,
        alloc: Global,
        line: &[u8],
        screen: &mut K,
        report: &mut R,
        steps: &mut Steps<L>,
    ) -> Result<(), Halt>
        requires run { CanGoOn self.old }
        ensures acts { Acts result (λ starved. effect (standing self.old) (input_of line.now starved)) (standing self.new)
            (sunk_by K.written K.faults screen.old screen.new) (sunk_by R.written R.faults report.old report.new) }
        ensures places { Places result (effect (standing self.old) (input_of line.now false)) steps.old steps.new }
        ensures counted { self.new.shown ≤ self.new.lines }
        ensures screen { K.faults screen.old ≤ K.faults screen.new }
        ensures report { R.faults report.old ≤ R.faults report.new }
    {
        if is_blank(line) {
            self.lines += 1;
            return Ok(());
        }
        match read_op(alloc, line) {
            Ok(op) => self.act(op, screen, report, steps),
            Err(OpFault::Memory) => Err(Halt::NoMemory),
            Err(fault) => Err(Halt::Bad(ScriptFault::Op(fault))),
        }
    }

    /// Runs an op. Want of memory ends the run only at one that takes memory, and at no redisplay.
    fn act<K: Sink, R: Sink, L: Ledger>(
        &mut self,
        op: Op,
        screen: &mut K,
        report: &mut R,
        steps: &mut Steps<L>,
    ) -> Result<(), Halt>
        requires run { CanGoOn self.old }
        requires form { IsInForm op }
        ensures acts { Acts result (λ starved. effect_of_op starved (standing self.old) op) (standing self.new)
            (sunk_by K.written K.faults screen.old screen.new) (sunk_by R.written R.faults report.old report.new) }
        ensures places { Places result (effect_of_op false (standing self.old) op) steps.old steps.new }
        ensures free { GivesUp result op }
        ensures counted { self.new.shown ≤ self.new.lines }
        ensures screen { K.faults screen.old ≤ K.faults screen.new }
        ensures report { R.faults report.old ≤ R.faults report.new }
    {
        match asked(&op) {
            None => self.apply(op),
            Some(stop) => self.show(stop, screen, report, steps),
        }
    }

    /// Applies an op other than redisplay.
    fn apply(&mut self, op: Op) -> Result<(), Halt>
        requires run { CanGoOn self.old }
        requires form { IsInForm op }
        requires applied { asked op ≡ None }
        ensures acts { (sent told : Option (List ℕ)) (m n : ℕ) → Acts result (λ starved. stepped (standing self.old) op (session_step (without_copies self.old.session) op)) (standing self.new)
            (sunk sent sent m m) (sunk told told n n) }
        ensures free { GivesUp result op }
        ensures counted { self.new.shown ≤ self.new.lines }
    {
        copies_change_no_op();
        match self.session.apply(op) {
            Ok(()) => {
                self.lines += 1;
                Ok(())
            }
            Err(Refused::Memory) => Err(Halt::NoMemory),
            Err(refused) => Err(Halt::Bad(ScriptFault::Refused(refused))),
        }
    }

    /// Redisplays, up to so many rows where a stop is given, and writes its lines to the report. Want of memory is reported and does
    /// not end the run.
    fn show<K: Sink, R: Sink, L: Ledger>(
        &mut self,
        stop: Option<u32>,
        screen: &mut K,
        report: &mut R,
        steps: &mut Steps<L>,
    ) -> Result<(), Halt>
        requires run { CanGoOn self.old }
        ensures acts { Acts result (λ starved. if starved then unshown (standing self.old) else redisplayed (standing self.old) stop) (standing self.new)
            (sunk_by K.written K.faults screen.old screen.new) (sunk_by R.written R.faults report.old report.new) }
        ensures places { Places result (redisplayed (standing self.old) stop) steps.old steps.new }
        ensures free { BearsIt result }
        ensures counted { self.new.shown ≤ self.new.lines }
        ensures screen { K.faults screen.old ≤ K.faults screen.new }
        ensures report { R.faults report.old ≤ R.faults report.new }
    {
        copies_change_no_allowance();
        copies_change_no_op();
        sent_redisplays_are_determined();
        self.lines += 1;
        match self.session.redisplay(screen, stop, steps) {
            Outcome::Shown(rows) => {
                self.shown += 1;
                told(self.tell_redisplayed(report, true, rows))
            }
            Outcome::Stopped(rows) => told(self.tell_redisplayed(report, false, rows)),
            Outcome::NoMemory => told(tell_no_memory(report, self.lines)),
            Outcome::WriteFault => Err(Halt::ScreenBroke),
        }
    }

    /// Writes that the redisplay of the last line was shown, with its dump where that is asked for, or that it was stopped; of a
    /// generated script it writes nothing.
    fn tell_redisplayed<R: Sink>(
        &mut self,
        report: &mut R,
        shown: bool,
        rows: u32,
    ) -> Result<(), Failed>
        ensures printed { Prints (R.written report.old) (R.written report.new) (R.faults report.old) (R.faults report.new)
            (told_of (mode_of self.old) self.old.lines shown rows self.old.session) result }
        ensures read { OnErr result (self.old.generated ≡ None) }
        ensures same { standing self.new ≡ standing self.old }
    {
        match (self.generated, shown) {
            (Some(_), _) => Ok(()),
            (None, true) => {
                tell_rows(report, self.lines, ": shown ", rows)?;
                tell_dump(report, &self.session, &mut self.windows, self.dumps)
            }
            (None, false) => tell_rows(report, self.lines, ": stopped ", rows),
        }
    }

    /// What the report says at the end of a generated script.
    pub fn summary(&self) -> Summary
        ensures { summary_of result ≡ summary (standing self.now) }
    {
        Summary {
            lines: self.lines,
            shown: self.shown,
            characters: characters_of(&self.session),
            start: start_of(&self.session),
        }
    }
}

/// How many characters the buffer `main` has.
fn characters_of(session: &Session) -> u32
    ensures { result ≡ unwrap_or (length_of main_name session.now.state.buffers) 0 }
{
    session.length("main").unwrap_or(0)
}

/// Where the selected window starts.
fn start_of(session: &Session) -> Anchor
    ensures { result ≡ (selected_window session.now.state).anchor }
{
    session
        .start(session.selected())
        .unwrap_or(Anchor { pos: 1, row: 0 })
}

/// Writes the dump of the screen where it is asked for.
#[tactic(auto, unfolding(rd_run::specs::Runs::dump_lines))]
fn tell_dump<R: Sink>(
    report: &mut R,
    session: &Session,
    windows: &mut Windows,
    dumps: bool,
) -> Result<(), Failed>
    ensures { Prints (R.written report.old) (R.written report.new) (R.faults report.old) (R.faults report.new) (dump_lines dumps session.now.current (facts_of session.now)) result }
{
    if !dumps {
        return Ok(());
    }
    match session.screen() {
        Some(screen) => print_dump(report, screen, windows.of(session)),
        None => Ok(()),
    }
}

/// A report that failed ends the run.
fn told(answer: Result<(), Failed>) -> Result<(), Halt>
    ensures { IsTold answer result }
{
    match answer {
        Ok(()) => Ok(()),
        Err(_) => Err(Halt::ReportBroke),
    }
}

/// Whether a line has only spaces, tabs and bytes 13.
fn is_blank(line: &[u8]) -> bool
    ensures { result ≡ is_blank line.now }
{
    line.iter()
        .all(|b| *b == b' ' || *b == b'\t' || *b == b'\r')
}

/// The stop that a redisplay asks for, and None of every other op.
pub fn asked(op: &Op) -> Option<Option<u32>>
    ensures { result ≡ asked op.now }
{
    match op {
        Op::Redisplay { stop } => Some(*stop),
        _ => None,
    }
}
