//! The words of the command line on worked examples.
ghost use Rattle.std.specs.Prelude.{◌≡◌, ◌∷◌, [], false, true, None, Some, codes};
ghost use Rattle.rd_words.specs.Words.{is_flag, is_number, named_in, values_of};

/// What one word is: a name with a value, which the first `=` ends, or without one; and a flag, which no value is. The call does
/// nothing.
fn words_of_their_own()
    ensures name { named_in (codes "--data") ≡ Some (codes "data", None) }
    ensures value { named_in (codes "--mirror=M=N") ≡ Some (codes "mirror", Some (codes "M=N")) }
    ensures empty_value { named_in (codes "--mirror=") ≡ Some (codes "mirror", Some []) }
    ensures no_name { named_in (codes "--=M") ≡ Some ([], Some (codes "M")) }
    ensures one_hyphen { named_in (codes "-data") ≡ None }
    ensures hyphens_alone { named_in (codes "--") ≡ None }
    ensures flag { is_flag (codes "-D") ≡ true }
    ensures hyphen { is_flag (codes "-") ≡ false }
    ensures no_flag { is_flag (codes "D-") ≡ false }
{}

/// The numbers of generated scripts, and what is none. The call does nothing.
fn numbers_of_scripts()
    ensures zero { is_number (codes "0") ≡ true }
    ensures plus { is_number (codes "+007") ≡ true }
    ensures most { is_number (codes "2147483647") ≡ true }
    ensures too_great { is_number (codes "2147483648") ≡ false }
    ensures no_digits { is_number (codes "+") ≡ false }
    ensures empty { is_number [] ≡ false }
    ensures two_signs { is_number (codes "++7") ≡ false }
    ensures minus { is_number (codes "-7") ≡ false }
    ensures letter { is_number (codes "7x") ≡ false }
{}

/// Words that are read: the least of them; all of them, joined to their values or not, and a last `--`; and values that are a
/// hyphen, empty, or like a name. The call does nothing.
fn words_that_are_read()
    ensures least { values_of (codes "--data" ∷ codes "D" ∷ codes "--mirror" ∷ codes "M" ∷ []) ≡ Some (record { class_file = codes "D"; mirror_file = codes "M"; bracket_file = None; generate = None; dumps = false }) }
    ensures all { values_of (codes "--dump" ∷ codes "--generate=+007" ∷ codes "--mirror=M=N" ∷ codes "--brackets" ∷ codes "B" ∷ codes "--data" ∷ codes "D" ∷ codes "--" ∷ []) ≡ Some (record { class_file = codes "D"; mirror_file = codes "M=N"; bracket_file = Some (codes "B"); generate = Some 7; dumps = true }) }
    ensures odd { values_of (codes "--data" ∷ codes "-" ∷ codes "--mirror=" ∷ codes "--brackets=--data" ∷ []) ≡ Some (record { class_file = codes "-"; mirror_file = []; bracket_file = Some (codes "--data"); generate = None; dumps = false }) }
    ensures most { values_of (codes "--data=D" ∷ codes "--mirror=M" ∷ codes "--generate=2147483647" ∷ []) ≡ Some (record { class_file = codes "D"; mirror_file = codes "M"; bracket_file = None; generate = Some 2147483647; dumps = false }) }
{}

/// Faulty words: none at all; no mirror file; a file or the flag twice; a number that is too great, or is none; a value for the
/// flag; no value; a flag where a value is wanted; help; a word of its own, and one behind `--`. The call does nothing.
fn words_that_are_faulty()
    ensures none { values_of [] ≡ None }
    ensures no_mirror { values_of (codes "--data" ∷ codes "D" ∷ []) ≡ None }
    ensures twice { values_of (codes "--data=D" ∷ codes "--mirror=M" ∷ codes "--data=D" ∷ []) ≡ None }
    ensures flag_twice { values_of (codes "--data=D" ∷ codes "--mirror=M" ∷ codes "--dump" ∷ codes "--dump" ∷ []) ≡ None }
    ensures too_great { values_of (codes "--data=D" ∷ codes "--mirror=M" ∷ codes "--generate" ∷ codes "2147483648" ∷ []) ≡ None }
    ensures no_number { values_of (codes "--data=D" ∷ codes "--mirror=M" ∷ codes "--generate=7x" ∷ []) ≡ None }
    ensures flag_value { values_of (codes "--data=D" ∷ codes "--mirror=M" ∷ codes "--dump=true" ∷ []) ≡ None }
    ensures no_value { values_of (codes "--mirror=M" ∷ codes "--data" ∷ []) ≡ None }
    ensures flag_as_value { values_of (codes "--data" ∷ codes "-D" ∷ codes "--mirror=M" ∷ []) ≡ None }
    ensures help { values_of (codes "--data=D" ∷ codes "--mirror=M" ∷ codes "--help" ∷ []) ≡ None }
    ensures stray { values_of (codes "--data=D" ∷ codes "--mirror=M" ∷ codes "x" ∷ []) ≡ None }
    ensures behind { values_of (codes "--data=D" ∷ codes "--mirror=M" ∷ codes "--" ∷ codes "--dump" ∷ []) ≡ None }
{}
