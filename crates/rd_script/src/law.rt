//! The laws of the reading of lines. The calls do nothing.
ghost use Rattle.std.specs.Prelude.{◌≡◌, ◌≢◌, ℕ, List, Ok, Err, map};
ghost use Rattle.std.specs.List.{AllByRecursion};
ghost use Rattle.rd_generate.specs.Generated.{script};
ghost use Rattle.rd_script.specs.declared.fault.OpFault.TheVariants as faults;
ghost use Rattle.rd_script.specs.Forms.{IsInForm};
ghost use Rattle.rd_script.specs.GeneratedOps.{generated_ops};
ghost use Rattle.rd_script.specs.Reading.{reading};

/// Want of memory is never what a line says: it is no reason for which a line is no op.
pub fn no_line_says_want_of_memory()
    ensures { (line : List ℕ) → reading line ≢ Err faults.Memory }
{}

/// Each line of every generated script is read as the op that it spells (`read`), and so as one in form (`form`).
pub fn generated_lines_are_ops()
    ensures read { (number : ℕ) → map reading (script number) ≡ map Ok (generated_ops number) }
    ensures form { (number : ℕ) → AllByRecursion IsInForm (generated_ops number) }
{}
