//! The definitions on worked examples.
ghost use Rattle.std.specs.Prelude.{◌≡◌, [], ◌∷◌, ◌++◌, replicate};
ghost use Rattle.rd_base.specs.declared.class.Class.TheVariants.{L, R, EN, AN, NSM, WS, ON};
ghost use Rattle.rd_brackets.specs.declared.role.Role.TheVariants.{Opening, Closing};
ghost use Rattle.rd_brackets.specs.Pairs.{roles, bd16_pairs_of};
ghost use Rattle.rd_brackets.specs.Sides.{n0_bracket_types};
ghost use Rattle.rd_brackets.specs.Examples.{some_brackets, pair};

/// Pairs in the order of their closing brackets: of two that open, the last that fits is taken; one that nothing opened changes
/// nothing; and a pair that closes ends those that opened inside it. The call does nothing.
fn pairs_of_some_brackets()
    ensures nested { bd16_pairs_of (roles some_brackets (ON ∷ ON ∷ ON ∷ ON ∷ []) (40 ∷ 91 ∷ 93 ∷ 41 ∷ [])) ≡ pair 1 2 ∷ pair 0 3 ∷ [] }
    ensures crossed { bd16_pairs_of (roles some_brackets (ON ∷ ON ∷ ON ∷ ON ∷ []) (40 ∷ 91 ∷ 41 ∷ 93 ∷ [])) ≡ pair 0 2 ∷ [] }
    ensures unopened { bd16_pairs_of (roles some_brackets (ON ∷ ON ∷ ON ∷ []) (41 ∷ 40 ∷ 41 ∷ [])) ≡ pair 1 2 ∷ [] }
    ensures typed { bd16_pairs_of (roles some_brackets (ON ∷ L ∷ ON ∷ []) (40 ∷ 41 ∷ 41 ∷ [])) ≡ pair 0 2 ∷ [] }
    ensures canonical { roles some_brackets (ON ∷ ON ∷ ON ∷ ON ∷ []) (9001 ∷ 12297 ∷ 12296 ∷ 9002 ∷ []) ≡ Opening 12297 ∷ Closing 12297 ∷ Opening 12297 ∷ Closing 12297 ∷ [] }
{}

/// The pairs of a sequence in which 63 brackets open before one closes, and none where 64 do. The call does nothing.
fn most_open_brackets()
    ensures most { bd16_pairs_of (replicate 63 (Opening 41) ++ Closing 41 ∷ []) ≡ pair 62 63 ∷ [] }
    ensures more { bd16_pairs_of (replicate 64 (Opening 41) ++ Closing 41 ∷ []) ≡ [] }
    ensures late { bd16_pairs_of (Opening 41 ∷ Closing 41 ∷ replicate 64 (Opening 41)) ≡ [] }
{}

/// The types of paired brackets: that of the embedding direction where it stands inside, else the opposite one where it stands inside
/// and before the pair, else that of the embedding; and a pair with nothing strong inside stays. The call does nothing.
fn types_of_pairs()
    ensures embedding { n0_bracket_types some_brackets L R (replicate 4 ON) (40 ∷ 0 ∷ 0 ∷ 41 ∷ []) (ON ∷ L ∷ R ∷ ON ∷ []) ≡ L ∷ L ∷ R ∷ L ∷ [] }
    ensures opposite { n0_bracket_types some_brackets L L (replicate 4 ON) (0 ∷ 40 ∷ 0 ∷ 41 ∷ []) (R ∷ ON ∷ R ∷ ON ∷ []) ≡ R ∷ R ∷ R ∷ R ∷ [] }
    ensures start { n0_bracket_types some_brackets L R (replicate 3 ON) (40 ∷ 0 ∷ 41 ∷ []) (ON ∷ EN ∷ ON ∷ []) ≡ R ∷ EN ∷ R ∷ [] }
    ensures unlike { n0_bracket_types some_brackets L R (replicate 4 ON) (0 ∷ 40 ∷ 0 ∷ 41 ∷ []) (L ∷ ON ∷ AN ∷ ON ∷ []) ≡ L ∷ L ∷ AN ∷ L ∷ [] }
    ensures nothing { n0_bracket_types some_brackets R R (replicate 3 ON) (40 ∷ 0 ∷ 41 ∷ []) (ON ∷ WS ∷ ON ∷ []) ≡ ON ∷ WS ∷ ON ∷ [] }
    ensures order { n0_bracket_types some_brackets R R (replicate 6 ON) (91 ∷ 40 ∷ 0 ∷ 41 ∷ 93 ∷ 0 ∷ []) (ON ∷ ON ∷ L ∷ ON ∷ ON ∷ WS ∷ []) ≡ R ∷ R ∷ L ∷ R ∷ R ∷ WS ∷ [] }
    ensures before { n0_bracket_types some_brackets R L (replicate 6 ON) (40 ∷ 0 ∷ 41 ∷ 40 ∷ 0 ∷ 41 ∷ []) (ON ∷ R ∷ ON ∷ ON ∷ L ∷ ON ∷ []) ≡ R ∷ R ∷ R ∷ R ∷ L ∷ R ∷ [] }
{}

/// Marks behind brackets that took a direction take it too, and others don't. The call does nothing.
fn types_of_marks()
    ensures behind { n0_bracket_types some_brackets L L (R ∷ ON ∷ L ∷ ON ∷ NSM ∷ NSM ∷ ON ∷ NSM ∷ R ∷ []) (0 ∷ 40 ∷ 0 ∷ 41 ∷ 769 ∷ 769 ∷ 0 ∷ 769 ∷ 0 ∷ []) (R ∷ ON ∷ L ∷ ON ∷ ON ∷ ON ∷ ON ∷ ON ∷ R ∷ []) ≡ R ∷ L ∷ L ∷ L ∷ L ∷ L ∷ ON ∷ ON ∷ R ∷ [] }
    ensures inside { n0_bracket_types some_brackets L L (ON ∷ NSM ∷ L ∷ ON ∷ []) (40 ∷ 769 ∷ 0 ∷ 41 ∷ []) (ON ∷ ON ∷ L ∷ ON ∷ []) ≡ L ∷ L ∷ L ∷ L ∷ [] }
    ensures stays { n0_bracket_types some_brackets L L (ON ∷ NSM ∷ ON ∷ []) (40 ∷ 769 ∷ 41 ∷ []) (ON ∷ ON ∷ ON ∷ []) ≡ ON ∷ ON ∷ ON ∷ [] }
{}
