//! The law of the data files.
ghost use Rattle.std.specs.Prelude.{◌≡◌, ℕ, List, Option, Some, Result, Err};
ghost use Rattle.rd_ucd.specs.Data.{Data};
ghost use Rattle.rd_files.specs.declared.fault.BadFile.{BadFile};
ghost use Rattle.rd_files.specs.DataFiles.{GivesData, Named, classes_in, data_of, told_or_empty};

/// The known contents of the files determine what is answered of them: where those of all three are known, it is what they stand
/// for, or their first fault; and where the class file is known and bad it is its fault, whatever the others are. The call does
/// nothing.
pub fn data_files_are_determined()
    ensures whole { (told : List ℕ → Option (List ℕ)) (names : Named) (classes mirrors brackets : List ℕ) (answer : Result Data BadFile) → told names.class_file ≡ Some classes → told names.mirror_file ≡ Some mirrors → told_or_empty told names.bracket_file ≡ Some brackets → GivesData told names answer → answer ≡ data_of classes mirrors brackets }
    ensures first { (told : List ℕ → Option (List ℕ)) (names : Named) (classes : List ℕ) (fault : BadFile) (answer : Result Data BadFile) → told names.class_file ≡ Some classes → classes_in classes ≡ Err fault → GivesData told names answer → answer ≡ Err fault }
{}
