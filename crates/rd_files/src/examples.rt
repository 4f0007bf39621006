//! The data files on worked examples.
ghost use Rattle.std.specs.Prelude.{◌≡◌, ◌∷◌, ◌++◌, [], Ok, Err, codes};
ghost use Rattle.rd_base.specs.declared.class.Class.TheVariants.{L};
ghost use Rattle.rd_ucd.specs.declared.fault.UcdFault.TheVariants.{BadLine, BadCode, BadClass, NotAscending, BadRange};
ghost use Rattle.rd_files.specs.declared.fault.DataFile.TheVariants.{ClassFile, MirrorFile, BracketFile};
ghost use Rattle.rd_files.specs.declared.fault.DataKind.TheVariants.{Bad};
ghost use Rattle.rd_files.specs.DataFiles.{data_of};

/// Files that are good: three empty ones, and a class file of one line. The call does nothing.
fn files_that_are_good()
    ensures empty { data_of [] [] [] ≡ Ok (record { classes = []; mirrors = []; brackets = [] }) }
    ensures class { data_of (codes "0041;A;Lu;0;L") [] [] ≡ Ok (record { classes = record { first = 65; last = 65; class = L } ∷ []; mirrors = []; brackets = [] }) }
{}

/// Class files that are bad, with the line and what is wrong. The call does nothing.
fn class_files_that_are_bad()
    ensures line { data_of (codes "0041;A;Lu;0") [] [] ≡ Err (record { file = ClassFile; line = 1; kind = Bad (BadLine 1) }) }
    ensures code { data_of (codes "41;A;Lu;0;L") [] [] ≡ Err (record { file = ClassFile; line = 1; kind = Bad (BadCode 1) }) }
    ensures class { data_of (codes "0041;A;Lu;0;X") [] [] ≡ Err (record { file = ClassFile; line = 1; kind = Bad (BadClass 1) }) }
    ensures range { data_of (codes "0041;<A, First>;Lu;0;L") [] [] ≡ Err (record { file = ClassFile; line = 1; kind = Bad (BadRange 1) }) }
    ensures ascending { data_of (codes "0041;A;Lu;0;L" ++ 10 ∷ codes "0040;B;Lu;0;L") [] [] ≡ Err (record { file = ClassFile; line = 2; kind = Bad (NotAscending 2) }) }
{}

/// Of several bad files the first is told: the class file, then the mirror file, then the bracket file. The call does nothing.
fn first_bad_file()
    ensures classes { data_of (codes "x") (codes "y") (codes "z") ≡ Err (record { file = ClassFile; line = 1; kind = Bad (BadLine 1) }) }
    ensures mirrors { data_of [] (10 ∷ codes "28; 0029") (codes "z") ≡ Err (record { file = MirrorFile; line = 2; kind = Bad (BadCode 2) }) }
    ensures brackets { data_of [] [] (codes "0028; 0029; x") ≡ Err (record { file = BracketFile; line = 1; kind = Bad (BadClass 1) }) }
{}
