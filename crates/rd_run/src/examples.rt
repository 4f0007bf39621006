//! The definitions on worked examples. They have no body: what they promise is computed from the definitions.
ghost use Rattle.std.specs.Prelude.{◌≡◌, ◌∷◌, [], false, true, codes, None, Some};
ghost use Rattle.rd_files.specs.declared.fault.DataFile.TheVariants.{BracketFile, ClassFile, MirrorFile};
ghost use Rattle.rd_files.specs.declared.fault.DataKind.TheVariants.{Bad, TooLarge};
ghost use Rattle.rd_run.specs.Examples.{fault_by, told_by};
ghost use Rattle.rd_run.specs.Reports.{last_line, no_memory_line, summary_lines};
ghost use Rattle.rd_run.specs.declared.status.ScriptFault.TheVariants.{Op, Refused, TooLong, TooMany};
ghost use Rattle.rd_run.specs.declared.status.Status.TheVariants.{BadData, BadScript, Done, NoMemory, ReadFault, Usage, WriteFault};
ghost use Rattle.rd_script.specs.declared.fault.OpFault.TheVariants.{Missing, NotJson};
ghost use Rattle.rd_script.specs.declared.op.Op.TheVariants.{Frame, Hit, Insert, Redisplay, Split, TypeText};
ghost use Rattle.rd_state.specs.States.{main_name};
ghost use Rattle.rd_state.specs.declared.refused.Refused.TheVariants.{BadFormat, NotShown};
ghost use Rattle.rd_tree.specs.declared.side.Side.TheVariants.{Right};
ghost use Rattle.rd_ucd.specs.declared.fault.UcdFault.TheVariants.{BadLine};

/// The last line of each status, and the line of a redisplay without memory.
fn last_lines_are_told()
    ensures done { last_line Done 4 ≡ codes "done 4 lines\n" }
    ensures usage { last_line Usage 0 ≡ codes "usage: redisplay --data FILE --mirror FILE [--brackets FILE] [--generate N] [--dump]\n" }
    ensures bad_line { last_line (BadData ClassFile 1 (Bad (BadLine 1))) 0 ≡ codes "data:1: BadLine\n" }
    ensures too_large { last_line (BadData MirrorFile 0 TooLarge) 0 ≡ codes "mirror:0: TooLarge\n" }
    ensures brackets { last_line (BadData BracketFile 12 (Bad (BadLine 12))) 0 ≡ codes "brackets:12: BadLine\n" }
    ensures too_long { last_line (BadScript 1 TooLong) 0 ≡ codes "script:1: TooLong\n" }
    ensures too_many { last_line (BadScript 1000001 TooMany) 1000000 ≡ codes "script:1000001: TooMany\n" }
    ensures no_json { last_line (BadScript 3 (Op NotJson)) 3 ≡ codes "script:3: NotJson\n" }
    ensures missing { last_line (BadScript 2 (Op (Missing (codes "window")))) 2 ≡ codes "script:2: Missing window\n" }
    ensures format { last_line (BadScript 2 (Refused (BadFormat 7))) 2 ≡ codes "script:2: BadFormat 7\n" }
    ensures read { last_line ReadFault 2 ≡ codes "read fault\n" }
    ensures write { last_line WriteFault 2 ≡ codes "write fault\n" }
    ensures memory { last_line NoMemory 2 ≡ codes "no memory\n" }
    ensures no_memory { no_memory_line 12 ≡ codes "12: no memory\n" }
{}

/// What stands in place of the last line, where a generated script was run.
fn a_generated_run_is_summed_up()
    ensures { summary_lines 605 301 75220 (record { pos = 74001; row = 0 }) ≡ codes "lines 605\nredisplays 301\ncharacters 75220\nstart 74001.0\n" }
{}

/// A window that was never laid out is not hit, and one whose redisplay found no memory was not laid out.
fn nothing_is_hit_before_a_redisplay()
    ensures refused { fault_by false (Hit 0 0 0 ∷ []) ≡ Some (Refused NotShown) }
    ensures accepted { fault_by false (Frame 12 2 ∷ Redisplay None ∷ Hit 0 0 0 ∷ []) ≡ None }
    ensures starved { fault_by true (Frame 12 2 ∷ Redisplay None ∷ Hit 0 0 0 ∷ []) ≡ Some (Refused NotShown) }
    ensures line { last_line (BadScript 1 (Refused NotShown)) 1 ≡ codes "script:1: NotShown\n" }
{}

/// A stopped redisplay, and the one that makes it good.
fn redisplays_are_told()
    ensures { told_by false (Frame 12 2 ∷ Insert main_name 1 (codes "abc") ∷ Redisplay (Some 0) ∷ Redisplay None ∷ []) ≡ codes "3: stopped 0 rows\n4: shown 1 rows\n" }
{}

/// A dump stands behind the line of a shown redisplay: of one window, and of two.
fn dumps_are_told()
    ensures one { told_by true (Frame 12 2 ∷ TypeText (codes "ab") ∷ Redisplay None ∷ [])
        ≡ codes "3: shown 1 rows\nwindow 0 at 0,0 size 12x1 start 1.0 point 3 cursor 0,2\nrow 0 |ab          |\nrow 1 |            |\ncursor 0,2\n" }
    ensures two { told_by true (Frame 24 2 ∷ Split 0 Right 12 ∷ Redisplay None ∷ [])
        ≡ codes "3: shown 1 rows\nwindow 0 at 0,0 size 12x1 start 1.0 point 1 cursor 0,0\nwindow 1 at 0,12 size 12x1 start 1.0 point 1 cursor 0,0\nrow 0 |           |            |\nrow 1 |                        |\ncursor 0,0\n" }
{}
