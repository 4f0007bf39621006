//! The definitions on worked examples.
ghost use Rattle.std.specs.Prelude.{◌≡◌, true, false, pos, ◌∷◌, [], Some, None};
ghost use Rattle.rd_overlays.specs.Overlays.{new_overlay, grown, covering, starting, ending, next_edge, last_edge};

/// How an overlay moves with one character that is inserted.
fn insertions_at_edges()
    ensures start_stays { grown 2 1 (new_overlay 2 3 (pos 0) false false) ≡ new_overlay 2 4 (pos 0) false false }
    ensures start_moves { grown 2 1 (new_overlay 2 3 (pos 0) true false) ≡ new_overlay 3 4 (pos 0) true false }
    ensures end_stays { grown 3 1 (new_overlay 2 3 (pos 0) false false) ≡ new_overlay 2 3 (pos 0) false false }
    ensures end_moves { grown 3 1 (new_overlay 2 3 (pos 0) false true) ≡ new_overlay 2 4 (pos 0) false true }
    ensures start_never_past_the_end { grown 2 1 (new_overlay 2 2 (pos 0) true false) ≡ new_overlay 2 2 (pos 0) true false }
    ensures empty_grows { grown 2 1 (new_overlay 2 2 (pos 0) false true) ≡ new_overlay 2 3 (pos 0) false true }
    ensures empty_moves { grown 2 1 (new_overlay 2 2 (pos 0) true true) ≡ new_overlay 3 3 (pos 0) true true }
{}

/// What stands at a position where five overlays meet, one of them empty.
fn overlays_that_meet()
    ensures covering { covering 2 (Some (new_overlay 1 2 (pos 1) false false) ∷ Some (new_overlay 1 2 (pos 2) false false) ∷ Some (new_overlay 2 3 (pos 2) false false) ∷ Some (new_overlay 2 3 (pos 1) false false) ∷ Some (new_overlay 2 2 (pos 0) false false) ∷ []) ≡ 3 ∷ 2 ∷ [] }
    ensures starting { starting 2 (Some (new_overlay 1 2 (pos 1) false false) ∷ None ∷ Some (new_overlay 2 3 (pos 1) false false) ∷ Some (new_overlay 2 3 (pos 1) false false) ∷ Some (new_overlay 2 2 (pos 0) false false) ∷ []) ≡ 4 ∷ 2 ∷ 3 ∷ [] }
    ensures ending { ending 2 (Some (new_overlay 1 2 (pos 1) false false) ∷ Some (new_overlay 1 2 (pos 2) false false) ∷ Some (new_overlay 2 3 (pos 1) false false) ∷ Some (new_overlay 2 2 (pos 0) false false) ∷ []) ≡ 3 ∷ 0 ∷ 1 ∷ [] }
    ensures next { next_edge 2 (Some (new_overlay 1 2 (pos 1) false false) ∷ None ∷ Some (new_overlay 2 7 (pos 1) false false) ∷ Some (new_overlay 5 9 (pos 1) false false) ∷ []) ≡ Some 5 }
    ensures last { last_edge 4 (Some (new_overlay 1 2 (pos 1) false false) ∷ None ∷ Some (new_overlay 2 7 (pos 1) false false) ∷ Some (new_overlay 5 9 (pos 1) false false) ∷ []) ≡ Some 2 }
{}
