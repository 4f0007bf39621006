//! The definition of the generated script, computed on worked numbers.
ghost use Rattle.std.specs.Prelude.{◌≡◌, ◌∷◌, [], ◌++◌, codes, length, get_or, map};
ghost use Rattle.std.specs.List.{range_with_len};
ghost use Rattle.rd_generate.specs.Generated.{number, choice, templates, text_line, spelling, insertion};

/// The numbers of 7, and the templates that they choose.
#[tactic(auto, unfolding(crate::specs::Generated::number))]
fn worked_numbers()
    ensures first { number 7 1 ≡ 1282168116 }
    ensures second { number 7 2 ≡ 642666333 }
    ensures greatest { number 4294967295 1 ≡ 1043980748 }
    ensures chosen { choice (number 7 1) ≡ 4 }
{}

/// The lines of a text, and an op that puts one in.
#[tactic(auto, unfolding(crate::specs::Generated::encode_utf8, crate::specs::Generated::digits, crate::specs::Generated::number))]
fn worked_lines()
    ensures templates { map length templates ≡ 20 ∷ 20 ∷ 20 ∷ 20 ∷ 20 ∷ 20 ∷ 20 ∷ 20 ∷ [] }
    ensures hebrew { get_or templates 3 [] ≡ 47 ∷ 47 ∷ 32 ∷ range_with_len 1488 17 }
    ensures indented { length (text_line 4 (number 7 5)) ≡ 29 }
    ensures spelled { spelling (97 ∷ 9 ∷ 233 ∷ 10 ∷ []) ≡ codes "a\\t" ++ 195 ∷ 169 ∷ codes "\\n" }
    ensures op { insertion 2 (97 ∷ 10 ∷ []) ≡ codes "{\"op\":\"insert\",\"buffer\":\"main\",\"pos\":5001,\"text\":\"a\\n\"}" }
{}
