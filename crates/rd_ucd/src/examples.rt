//! The bracket file on worked examples.
ghost use Rattle.std.specs.Prelude.{◌≡◌, [], ◌∷◌, ◌++◌, None, Some, Ok, Err, codes};
ghost use Rattle.rd_ucd.specs.declared.fault.UcdFault.TheVariants.{BadLine, BadCode, BadClass, NotAscending};
ghost use Rattle.rd_ucd.specs.declared.spans.Bracket.TheVariants.{Opens, Closes};
ghost use Rattle.rd_ucd.specs.BracketFile.{brackets_of};
ghost use Rattle.rd_ucd.specs.Lookup.{bracket_in};

/// Two lines of a bracket file, and what they say of three codes. The call does nothing.
fn brackets_of_two_lines()
    ensures file { brackets_of (codes "0028; 0029; o # LEFT" ++ 10 ∷ codes " 0029;0028 ;c") ≡ Ok (record { code = 40; bracket = Opens 41 } ∷ record { code = 41; bracket = Closes 40 } ∷ []) }
    ensures opens { bracket_in (record { code = 40; bracket = Opens 41 } ∷ record { code = 41; bracket = Closes 40 } ∷ []) 40 ≡ Some (Opens 41) }
    ensures closes { bracket_in (record { code = 40; bracket = Opens 41 } ∷ record { code = 41; bracket = Closes 40 } ∷ []) 41 ≡ Some (Closes 40) }
    ensures none { bracket_in (record { code = 40; bracket = Opens 41 } ∷ record { code = 41; bracket = Closes 40 } ∷ []) 42 ≡ None }
{}

/// The faults of a bracket file, in the order in which a line is judged. The call does nothing.
fn faults_of_bracket_files()
    ensures empty { brackets_of [] ≡ Ok [] }
    ensures fields { brackets_of (codes "0028; 0029") ≡ Err (BadLine 1) }
    ensures more { brackets_of (codes "0028; 0029; o; o") ≡ Err (BadLine 1) }
    ensures code { brackets_of (codes "0028; 29; x") ≡ Err (BadCode 1) }
    ensures class { brackets_of (codes "0028; 0029; x") ≡ Err (BadClass 1) }
    ensures ascending { brackets_of (codes "0028; 0029; o" ++ 10 ∷ 10 ∷ codes "0028; 0029; c") ≡ Err (NotAscending 3) }
{}
