//! The definitions on worked examples.
ghost use Rattle.std.specs.Prelude.{◌≡◌, [], ◌∷◌, true, replicate, slice_index};
ghost use Rattle.rd_base.specs.declared.class.Class.TheVariants.{L, R, EN, ES, ET, NSM, WS, ON, PDF, PDI};
ghost use Rattle.rd_levels.specs.Levels.{line_levels};
ghost use Rattle.rd_levels.specs.Examples.{round, paired_classes, paired_codes, embedded};

/// Numbers and spaces without brackets, and a line of no character. The call does nothing.
fn levels_without_brackets()
    ensures numbers { line_levels [] 1 (EN ∷ ET ∷ ES ∷ EN ∷ []) (replicate 4 0) ≡ 2 ∷ 2 ∷ 1 ∷ 2 ∷ [] }
    ensures spaces { line_levels [] 0 (R ∷ WS ∷ R ∷ WS ∷ []) (replicate 4 0) ≡ 1 ∷ 1 ∷ 1 ∷ 0 ∷ [] }
    ensures nothing { line_levels [] 0 [] [] ≡ [] }
{}

/// Lines whose nesting ends at level 125, and PDIs that match no initiator. The call does nothing.
fn levels_of_nested_embeddings()
    ensures most { slice_index (line_levels [] 0 (embedded true 125 (L ∷ [])) (replicate 126 0)) 125 ≡ 126 }
    ensures more { slice_index (line_levels [] 0 (embedded true 126 (L ∷ [])) (replicate 127 0)) 126 ≡ 126 }
    ensures popped { slice_index (line_levels [] 0 (embedded true 125 (PDF ∷ L ∷ [])) (replicate 127 0)) 126 ≡ 124 }
    ensures overflowed { slice_index (line_levels [] 0 (embedded true 126 (PDF ∷ L ∷ [])) (replicate 128 0)) 127 ≡ 126 }
    ensures closed { line_levels [] 0 (R ∷ PDI ∷ R ∷ []) (replicate 3 0) ≡ 1 ∷ 1 ∷ 1 ∷ [] }
    ensures ended { line_levels [] 0 (R ∷ PDI ∷ []) (replicate 2 0) ≡ 1 ∷ 0 ∷ [] }
{}

/// A bracket and the mark behind it take the direction of the embedding that stands inside the pair. The call does nothing.
fn levels_of_a_pair()
    ensures { line_levels round 0 (R ∷ ON ∷ L ∷ ON ∷ NSM ∷ R ∷ []) (0 ∷ 40 ∷ 0 ∷ 41 ∷ 769 ∷ 0 ∷ []) ≡ 1 ∷ 0 ∷ 0 ∷ 0 ∷ 0 ∷ 1 ∷ [] }
{}

/// Where 63 brackets stand open they are paired, and where 64 do there is no pair. The call does nothing.
fn levels_of_many_pairs()
    ensures most { slice_index (line_levels round 0 (paired_classes 63) (paired_codes 63)) 65 ≡ 0 }
    ensures more { slice_index (line_levels round 0 (paired_classes 64) (paired_codes 64)) 66 ≡ 1 }
{}
