//! The definitions of a dump and of a recording, computed on worked files and on a short run.
ghost use Rattle.std.specs.Prelude.{◌≡◌, ◌∷◌, [], ◌++◌, replicate, codes, true, false, Ok, Err, None, Some};
ghost use Rattle.rd_base.specs.Cells.{single};
ghost use Rattle.rd_base.specs.Faces.{plain};
ghost use Rattle.rd_base.specs.declared.cell.Cell.TheVariants.{Blank, First};
ghost use Rattle.rd_run.specs.Ends.{last_in, told_in};
ghost use Rattle.rd_run.specs.declared.status.Status.TheVariants.{Done};
ghost use Rattle.rd_audit.specs.Cuts.{cut_last};
ghost use Rattle.rd_audit.specs.Dumps.{dump_in};
ghost use Rattle.rd_audit.specs.Examples.{report_without_dumps, short_end, short_inputs, short_mode, short_report, short_stream};
ghost use Rattle.rd_audit.specs.Numbers.{number_of};
ghost use Rattle.rd_audit.specs.Recorded.{IsRecording};
ghost use Rattle.rd_audit.specs.Rows.{place_in};
ghost use Rattle.rd_audit.specs.FaceRuns.{face_of, face_run};

/// A dump of two rows, of which the last in the file counts, and files whose dump is bad or missing.
#[tactic(auto, unfolding(crate::proofs::OnDumps::on_dumps))]
fn worked_files()
    ensures two { dump_in (codes "row 0 |abc         |\nrow 1 |            |\ncursor 0,0\n") ≡ Ok (record {
      rows = (First (single 97 1) plain ∷ First (single 98 1) plain ∷ First (single 99 1) plain ∷ replicate 9 (Blank plain)) ∷ replicate 12 (Blank plain) ∷ [];
      row = 0;
      column = 0;
    }) }
    ensures last { dump_in (codes "row 0 |x|\ncursor 9,9\nrow 0 |            |\nrow 1 |            |\ncursor 1,11\ndone 2 lines") ≡ Ok (record {
      rows = replicate 12 (Blank plain) ∷ replicate 12 (Blank plain) ∷ [];
      row = 1;
      column = 11;
    }) }
    ensures none { dump_in (codes "done 2 lines\n") ≡ Err 0 }
    ensures narrow { dump_in (codes "row 0 |abc|\nrow 1 |            |\ncursor 0,0\n") ≡ Err 1 }
    ensures one { dump_in (codes "row 0 |            |\ncursor 0,0\n") ≡ Err 2 }
    ensures order { dump_in (codes "row 0 |            |\nrow 2 |            |\ncursor 0,0\n") ≡ Err 2 }
    ensures outside { dump_in (codes "row 0 |            |\nrow 1 |            |\ncursor 2,0\n") ≡ Err 3 }
{}

/// A text ends at the last `|`.
fn worked_cuts()
    ensures last { cut_last 124 (codes "a|b| 1-1:1") ≡ Some (codes "a|b", codes " 1-1:1") }
    ensures none { cut_last 124 (codes "ab") ≡ None }
{}

/// Runs with their faces, and numbers.
fn worked_runs()
    ensures run { face_run (codes "1-11:1;31") ≡ Some (record { first = 1; last = 11; face = record plain { bold = true; fg = 1 } }) }
    ensures order { face_of (codes "31;1") ≡ None }
    ensures twice { face_of (codes "31;32") ≡ None }
    ensures none { face_of [] ≡ None }
    ensures zero { number_of (codes "01") ≡ None }
    ensures place { place_in (codes "cursor 10,2") ≡ Some (10, 2) }
{}

/// The stream and the report of a short run with dumps are a recording. Those of the run without dumps are none: its report has no dump.
fn worked_recordings()
    ensures dumped { IsRecording (short_end true short_report) (short_mode true) short_stream short_report }
    ensures told { told_in (Some (short_mode false)) short_inputs ++ last_in (Some (short_mode false)) Done short_inputs ≡ report_without_dumps }
    ensures bare { ¬ IsRecording (short_end false report_without_dumps) (short_mode false) short_stream report_without_dumps }
    ensures dumpless { dump_in report_without_dumps ≡ Err 0 }
{}
