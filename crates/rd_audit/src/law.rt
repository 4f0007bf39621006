//! What was printed is read back, and the streams of runs show their dumps. The calls do nothing.
ghost use Rattle.std.specs.Prelude.{◌≡◌, ◌≢◌, ◌↔◌, ℕ, ◌<◌, ◌≤◌, ◌++◌, ◌∷◌, [], List, Ok, Option, Some, length};
ghost use Rattle.std.specs.Io.KnownBytes.{Consumes};
ghost use Rattle.rd_base.specs.declared.limits.TheConstants.{STREAM_BYTES};
ghost use Rattle.rd_io.specs.Lines.{lines_of};
ghost use Rattle.rd_term.specs.Pictures.{Picture};
ghost use Rattle.rd_term.specs.Terminals.{Shows, feed_bytes, unknown};
ghost use Rattle.rd_dump.specs.Dumps.{dump_text};
ghost use Rattle.rd_dump.specs.declared.dump.WindowFacts.{WindowFacts};
ghost use Rattle.rd_run.specs.Alike.{End};
ghost use Rattle.rd_run.specs.Ends.{Ran, Took};
ghost use Rattle.rd_run.specs.Runs.{Input, Mode, opened, run, run_line};
ghost use Rattle.rd_audit.specs.Dumps.{dump_in};
ghost use Rattle.rd_audit.specs.Printed.{HasDump, HasNoCursor};
ghost use Rattle.rd_audit.specs.Recorded.{HaveNoFrame, IsRecording, IsReported, recorded, screen_behind};
ghost use Rattle.rd_audit.specs.Verdicts.{Comes, IsSound, terminal_after};
ghost use Rattle.rd_audit.specs.declared.verdict.Verdict.{Verdict};
ghost use Rattle.rd_audit.specs.declared.verdict.Verdict.TheVariants.{NoMemory, ReadFault, Yes};

use rd_run::a_session_stands_behind_each_line;

/// A dump that is printed of a sound screen of 12 to 400 columns and 2 to 200 rows is read back as that screen (`alone`), also where
/// lines follow of which none begins as a cursor's does (`first`). It is the last dump of a report where it stands behind a newline,
/// whatever comes before that, since the line of a window stands before its rows (`last`).
pub fn printed_dumps_are_read_back()
    ensures alone { (picture : Picture) (windows : List WindowFacts) → HasDump picture → dump_in (dump_text picture windows) ≡ Ok picture }
    ensures first { (picture : Picture) (windows : List WindowFacts) (after : List ℕ) → HasDump picture → HasNoCursor (lines_of after)
        → dump_in (dump_text picture windows ++ after) ≡ Ok picture }
    ensures last { (picture : Picture) (windows : List WindowFacts) (before after : List ℕ) → HasDump picture → 0 < length windows → HasNoCursor (lines_of after)
        → dump_in (before ++ 10 ∷ (dump_text picture windows ++ after)) ≡ Ok picture }
{}

/// What a run leaves gets yes, where it ran a script with dumps and ended with a shown redisplay, whatever its status is, but for writes
/// that broke before its last line: the bytes since the last accepted frame are the end of what the screen took (`screen`), a new terminal
/// that reads them is the one of the run's laws (`terminal`), the report has a dump (`sound`), and yes comes of both (`yes`). Whatever part
/// of the stream is read, nothing else comes of them but a read fault and want of memory (`only`). The call does nothing.
pub fn recorded_runs_get_yes()
    ensures terminal { (mode : Mode) (inputs : List Input) → Ran mode inputs → (run (opened mode) inputs).terminal
        ≡ feed_bytes (unknown (run (opened mode) inputs).now.session.state.width (run (opened mode) inputs).now.session.state.height) (recorded mode inputs) }
    ensures screen { (e : End) (mode : Mode) (stream file : List ℕ) → IsRecording e mode stream file → (earlier : List ℕ) × Took e.screen (earlier ++ stream) }
    ensures sound { (e : End) (mode : Mode) (stream file name : List ℕ) (told : List ℕ → Option (List ℕ)) → IsRecording e mode stream file → told name ≡ Some file
        → IsSound (name ∷ []) told (Some stream) }
    ensures yes { (e : End) (mode : Mode) (stream file name : List ℕ) (told : List ℕ → Option (List ℕ)) → IsRecording e mode stream file → told name ≡ Some file
        → Comes Yes (name ∷ []) told stream (Some []) }
    ensures only { (e : End) (mode : Mode) (stream file name : List ℕ) (told : List ℕ → Option (List ℕ)) (verdict : Verdict) (bytes : List ℕ) (left : Option (List ℕ))
        → IsRecording e mode stream file → told name ≡ Some file → Consumes (Some stream) left bytes → Comes verdict (name ∷ []) told bytes left
        → verdict ≢ ReadFault → verdict ≢ NoMemory → verdict ≡ Yes }
{
    a_session_stands_behind_each_line();
}

/// However a run with dumps went on behind its last redisplay that was shown, and however it ended, but for a report that broke within the
/// lines of a redisplay: the last dump of its report is that of this redisplay, the screen that the rules give from nothing (`dump`). Of
/// a short enough stream yes comes exactly where a terminal of the dump's size, having read it, shows this screen (`yes`, `judged`). This
/// is the terminal of the run's laws where the stream is that since the last accepted frame, and none was accepted behind the dump
/// (`terminal`). The call does nothing.
pub fn last_dumps_are_judged()
    ensures dump { (e : End) (mode : Mode) (file : List ℕ) (h : IsReported e mode file) → dump_in file ≡ Ok (screen_behind mode h.last.before) }
    ensures yes { (e : End) (mode : Mode) (stream file name : List ℕ) (told : List ℕ → Option (List ℕ)) (h : IsReported e mode file) → told name ≡ Some file
        → length stream ≤ STREAM_BYTES → Shows (terminal_after (screen_behind mode h.last.before) stream) (screen_behind mode h.last.before)
        → Comes Yes (name ∷ []) told stream (Some []) }
    ensures judged { (e : End) (mode : Mode) (stream file name : List ℕ) (told : List ℕ → Option (List ℕ)) (verdict : Verdict) (bytes : List ℕ) (left : Option (List ℕ))
        → (h : IsReported e mode file) → told name ≡ Some file → length stream ≤ STREAM_BYTES → Consumes (Some stream) left bytes
        → Comes verdict (name ∷ []) told bytes left → verdict ≢ ReadFault → verdict ≢ NoMemory
        → ((verdict ≡ Yes) ↔ Shows (terminal_after (screen_behind mode h.last.before) stream) (screen_behind mode h.last.before)) }
    ensures terminal { (e : End) (mode : Mode) (file : List ℕ) (h : IsReported e mode file)
        → HaveNoFrame (run_line (run (opened mode) h.last.before) h.last.redisplay) h.last.behind
        → terminal_after (screen_behind mode h.last.before) (recorded mode e.inputs) ≡ (run (opened mode) e.inputs).terminal }
{
    a_session_stands_behind_each_line();
}
