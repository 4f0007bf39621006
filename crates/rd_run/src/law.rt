//! The laws of a run: what stands behind its lines, what the terminal shows behind each redisplay, when two ends are alike, and how runs
//! over valid scripts end.
ghost use Rattle.std.specs.Prelude.{ℕ, List, Option};
ghost use Rattle.rd_run.specs.Alike.{AreAlike, AreFedAlike, AreGivenAlike, AreStarvedAlikeIn, End, IsFaultless, IsFed, IsUndisturbed};
ghost use Rattle.rd_run.specs.Ends.{Comes, Drawn};
ghost use Rattle.rd_run.specs.Given.{Given, IsMode};
ghost use Rattle.rd_run.specs.Runs.{Input, KnowsEach, Mode, ShowsEach, StandLaws, opened};
ghost use Rattle.rd_run.specs.Statuses.{TellsNoMemory};
ghost use Rattle.rd_run.specs.Validity.{EndsWell, IsValidScript};
ghost use Rattle.rd_run.specs.declared.status.Status.{Status};

use rd_layout::{
    redisplays_keep_states, redisplays_lead_on, sessions_stay_known, targets_are_sound,
};
use rd_lineshift::{shift_law, shifted_updates_reach_their_targets};

/// Behind any lines of a run stands a session: its state is valid, and a known screen is the frame's and sound (`session`). The run is in
/// the mode in which it began (`in_mode`). The next line leads on from there: the frame keeps its size unless a new terminal begins, and
/// the screen behind a redisplay that is shown or stopped is known and on the terminal (`leads`). The call does nothing.
pub fn a_session_stands_behind_each_line()
    ensures { StandLaws }
{
    redisplays_keep_states();
    redisplays_lead_on();
    sessions_stay_known();
    shift_law();
    shifted_updates_reach_their_targets();
    targets_are_sound();
}

/// Over all runs: behind each redisplay that was shown, the written terminal, which reads the bytes since the last
/// accepted frame, shows exactly what the rules give from nothing for the state before that redisplay. The call does nothing.
pub fn each_redisplay_is_shown()
    ensures { (mode : Mode) (inputs : List Input) → ShowsEach (opened mode) inputs }
{
    a_session_stands_behind_each_line();
}

/// Behind each redisplay that was shown or stopped, with whatever edits between the slices of an update, the written terminal is not
/// confused and its cells are those of the current screen. The call does nothing.
pub fn each_slice_is_known()
    ensures { (mode : Mode) (inputs : List Input) → KnowsEach (opened mode) inputs }
{
    a_session_stands_behind_each_line();
}

/// The run is determined. Take two ends of runs with the same words and the same bytes of the files that these name, over the bytes of one
/// script, in which no device failed and of which none came for want of memory. Where of the redisplays that both have run the same found
/// no memory, both ends have the same status, and the same bytes went to both screens and to both reports. The call does nothing.
pub fn two_runs_of_one_script_end_alike()
    ensures { (script : List ℕ) (a b : End) → AreGivenAlike a.given b.given → IsUndisturbed script a → IsUndisturbed script b
        → AreStarvedAlikeIn a.mode a.inputs b.inputs → AreAlike a b }
{}

/// The run is determined where what it reads fails, too. Take two ends of runs as above, in which no sink failed, but files or the source
/// may have: files in both or in none, and the source in both behind the same bytes, or in none. Both ends have the same status, and the
/// same bytes went to both screens and to both reports. The call does nothing.
pub fn runs_that_are_fed_alike_end_alike()
    ensures { (script : List ℕ) (a b : End) → AreGivenAlike a.given b.given → IsFed script a → IsFed script b → AreFedAlike a b
        → AreStarvedAlikeIn a.mode a.inputs b.inputs → AreAlike a b }
{}

/// Where the words are those of the command, the files are good, each line of the script passes the limits and each op is accepted, as its
/// redisplays find memory, a run in which no device failed ends Done, or for want of memory. The call does nothing.
pub fn valid_scripts_end_well()
    ensures { (script : List ℕ) (mode : Mode) (e : End) → IsMode e.given mode → IsValidScript mode e.inputs script → IsFaultless script e → EndsWell e.status }
{}

/// Want of memory is no kind of a bad data file, nor of a line that is no op, nor of an op that is refused. The call does nothing.
pub fn no_kind_is_want_of_memory()
    ensures { (given : Given) (mode : Option Mode) (status : Status) (inputs : List Input) (bytes : List ℕ) (source : Drawn) → Comes given mode status inputs bytes source
        → TellsNoMemory status }
{}
