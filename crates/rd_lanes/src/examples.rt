//! Worked examples of the definitions.
ghost use Rattle.std.specs.Prelude.{◌≡◌, ◌==◌, None, Some, [], ◌∷◌};
ghost use Rattle.std.specs.List.{position};
ghost use Rattle.rd_lanes.specs.Kernels.{last_position, first_difference, last_difference};

/// Places of 7, and of differences.
fn places()
    ensures first { position (λ y. y == 7) (5 ∷ 7 ∷ 6 ∷ 7 ∷ []) ≡ Some 1 }
    ensures last { last_position (λ y. y == 7) (5 ∷ 7 ∷ 6 ∷ 7 ∷ 8 ∷ []) ≡ Some 3 }
    ensures front { last_position (λ y. y == 7) (7 ∷ 5 ∷ []) ≡ Some 0 }
    ensures absent { last_position (λ y. y == 7) (5 ∷ []) ≡ None }
    ensures first_difference { first_difference (1 ∷ 2 ∷ 3 ∷ 4 ∷ []) (1 ∷ 5 ∷ 3 ∷ 6 ∷ []) ≡ Some 1 }
    ensures last_difference { last_difference (1 ∷ 2 ∷ 3 ∷ 4 ∷ []) (1 ∷ 5 ∷ 6 ∷ 4 ∷ []) ≡ Some 2 }
    ensures equal { last_difference (1 ∷ 2 ∷ []) (1 ∷ 2 ∷ []) ≡ None }
{}
