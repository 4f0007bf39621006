//! The visual order of worked lines.
ghost use Rattle.std.specs.Prelude.{◌≡◌, [], ◌∷◌};
ghost use Rattle.rd_order.specs.Order.{l2_visual_order};

/// Lines in visual order, from the left edge at base 0 and from the right edge at base 1. The call does nothing.
fn worked_orders()
    ensures numbers { l2_visual_order 1 (2 ∷ 2 ∷ 1 ∷ 2 ∷ []) ≡ 1 ∷ 0 ∷ 2 ∷ 3 ∷ [] }
    ensures words { l2_visual_order 0 (1 ∷ 1 ∷ 1 ∷ 0 ∷ []) ≡ 2 ∷ 1 ∷ 0 ∷ 3 ∷ [] }
    ensures mixed { l2_visual_order 1 (1 ∷ 1 ∷ 1 ∷ 2 ∷ 2 ∷ []) ≡ 0 ∷ 1 ∷ 2 ∷ 4 ∷ 3 ∷ [] }
    ensures nested { l2_visual_order 0 (0 ∷ 2 ∷ 4 ∷ 4 ∷ 3 ∷ 1 ∷ 2 ∷ 0 ∷ 6 ∷ []) ≡ 0 ∷ 6 ∷ 5 ∷ 1 ∷ 4 ∷ 2 ∷ 3 ∷ 7 ∷ 8 ∷ [] }
    ensures nothing { l2_visual_order 0 [] ≡ [] }
{}
