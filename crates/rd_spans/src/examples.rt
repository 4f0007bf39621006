//! Worked examples of the definitions.
ghost use Rattle.std.specs.Prelude.{◌≡◌, ◌∷◌, [], None, Some};
ghost use Rattle.rd_spans.specs.Values.{value_at, values_put, values_opened, values_closed};

/// Positions 1 to 3 have the value 7: after a value is put, after positions are opened between them, and after some are taken away.
fn values_of_three_positions()
    ensures at { value_at (None ∷ Some 7 ∷ Some 7 ∷ Some 7 ∷ []) 3 ≡ Some 7 }
    ensures past { value_at (None ∷ Some 7 ∷ Some 7 ∷ Some 7 ∷ []) 4 ≡ None }
    ensures put { values_put (value_at (None ∷ Some 7 ∷ Some 7 ∷ Some 7 ∷ [])) 2 3 (Some 9) 2 ≡ Some 9 }
    ensures kept { values_put (value_at (None ∷ Some 7 ∷ Some 7 ∷ Some 7 ∷ [])) 2 3 (Some 9) 3 ≡ Some 7 }
    ensures opened { values_opened (value_at (None ∷ Some 7 ∷ Some 7 ∷ Some 7 ∷ [])) 2 2 3 ≡ None }
    ensures moved { values_opened (value_at (None ∷ Some 7 ∷ Some 7 ∷ Some 7 ∷ [])) 2 2 5 ≡ Some 7 }
    ensures closed { values_closed (value_at (None ∷ Some 7 ∷ Some 8 ∷ Some 9 ∷ [])) 1 3 1 ≡ Some 9 }
{}
