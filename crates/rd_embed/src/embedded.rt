//! `Embedded`, a session as a program in another language holds it: what opens it, what a line does, and the redisplay with its bytes.
ghost use Rattle.std.specs.Prelude.{◌≡◌, ◌≤◌, ◌+◌, Ok, Err, IsTrue, length, drop, Result};
ghost use Rattle.rd_files.specs.DataFiles.{data_of};
ghost use Rattle.rd_layout.specs.Redisplays.{allowed};
ghost use Rattle.rd_layout.specs.Sessions.{IsStep};
ghost use Rattle.rd_script.specs.Forms.{IsInForm};
ghost use Rattle.rd_script.specs.declared.op.Op.{Op as OpValue};
ghost use Rattle.rd_embed.specs.Calls.{Asks, Does, Ends, Fetches, IsStop, LineDoes, Performs, Shows, asked_line};
ghost use Rattle.rd_embed.specs.Endings.{status_of, words_of};
ghost use Rattle.rd_embed.specs.Fills.{Fills};
ghost use Rattle.rd_embed.specs.Openings.{Opens};
ghost use Rattle.rd_embed.specs.declared.ending.Ending.{Ending as EndingValue};

use crate::ending::Ending;
use crate::lines::{do_line, redisplay};
use crate::opening::{OpenFault, open};
use crate::pending::Pending;
use crate::shown::Shown;
use crate::status::Status;
use crate::words::fill_words;
use rd_base::Steps;
use rd_script::Op;
use rd_session::Session;
use std::alloc::Global;
use std::sync::ledger::Ledger;

/// A session; the terminal's bytes that its holder has not fetched yet; and how the last op, line or redisplay ended.
#[derive(Drop)]
pub struct Embedded {
    pub(crate) session: Session,
    pub(crate) pending: Pending,
    pub(crate) ending: Ending,
}

impl Embedded {
    /// A session over the bytes of the three data files, with nothing pending.
    pub fn open(
        alloc: Global,
        classes: &[u8],
        mirrors: &[u8],
        brackets: &[u8],
    ) -> Result<Embedded, OpenFault>
        ensures { Opens result (data_of classes.now mirrors.now brackets.now) }
    {
        open(alloc, classes, mirrors, brackets)
    }

    /// Does what a line of JSON says, an op or a redisplay, and nothing at a blank line. NoMemory may be told at any time, and then nothing
    /// but the ending has changed, unless a redisplay tells it: see `update`.
    pub fn line<L: Ledger>(&mut self, alloc: Global, line: &[u8], steps: &mut Steps<L>) -> Shown
        ensures does { LineDoes result (asked_line line.now) self.old self.new }
        ensures steps { steps.new ≤ steps.old + allowed self.old.session }
    {
        do_line(self, alloc, line, steps)
    }

    /// Redisplays, whole or up to so many rows. The terminal's bytes are pending then. After NoMemory nothing is known of the screen, and
    /// the next redisplay paints all; what is pending is to be sent all the same.
    pub fn update<L: Ledger>(&mut self, stop: Option<u32>, steps: &mut Steps<L>) -> Shown
        ensures shows { Shows result stop self.old self.new }
        ensures steps { steps.new ≤ steps.old + allowed self.old.session }
    {
        redisplay(self, stop, steps)
    }

    /// How many bytes are pending.
    pub fn pending(&self) -> usize
        ensures { result ≡ length self.now.pending.bytes }
    {
        self.pending.len()
    }

    /// Moves the first pending bytes to the front of a buffer, as many as it has room for, and answers how many.
    pub fn fetch(&mut self, out: &mut [u8]) -> usize
        ensures { Fetches result out.old out.new self.old self.new }
    {
        self.pending.fetch(out)
    }

    /// How the last op, line or redisplay ended.
    pub fn fault(&self) -> Status
        ensures { result ≡ status_of self.now.ending }
    {
        self.ending.status()
    }

    /// How the last op, line or redisplay ended in the report's words, put into the front of a buffer as far as there is room.
    pub fn fault_text(&self, out: &mut [u8]) -> usize
        ensures { Fills result (words_of self.now.ending) out.old out.new }
    {
        fill_words(&self.ending, out)
    }

    /// Applies an op that was asked for.
    pub(crate) fn perform(&mut self, op: Op) -> Status
        requires form { IsInForm op }
        requires applied { IsStep op }
        ensures performs { Performs result op self.old self.new }
        ensures does { (asked : Result OpValue EndingValue) → asked ≡ Ok op → Does result asked self.old self.new }
        ensures asks { (asked : Result OpValue EndingValue) → asked ≡ Ok op → Asks result asked self.old self.new }
    {
        match self.session.apply(op) {
            Ok(()) => self.end(Ending::Done),
            Err(refused) => self.end(Ending::refusal(refused)),
        }
    }

    /// Ends a call before an op is applied.
    pub(crate) fn stop(&mut self, ending: Ending) -> Status
        ensures does { (asked : Result OpValue EndingValue) → asked ≡ Err ending → Does result asked self.old self.new }
        ensures asks { (asked : Result OpValue EndingValue) → IsStop ending asked → Asks result asked self.old self.new }
    {
        self.end(ending)
    }

    /// Notes how a call ended, and answers the status that tells it.
    pub(crate) fn end(&mut self, ending: Ending) -> Status
        ensures { Ends result ending self.old self.new }
    {
        let status = ending.status();
        self.ending = ending;
        status
    }
}
