//! Worked examples of the definitions.
ghost use Rattle.std.specs.Prelude.{◌≡◌, true, false, Some, Ok, Err, [], ◌∷◌, replicate};
ghost use Rattle.rd_tree.specs.declared.fault.TreeFault.TheVariants.{NoWindow, TooSmall, LastWindow};
ghost use Rattle.rd_tree.specs.declared.side.Side.TheVariants.{Below, Right};
ghost use Rattle.rd_tree.specs.Windows.{Window, Split, first_leaf, sibling, resized};
ghost use Rattle.rd_tree.specs.Calls.{opening, frame, split_tree, remove_tree, resize_tree, mode_tree, margins_tree, rect_of};
ghost use Rattle.rd_tree.specs.Compositions.{composed};

/// A tree of 24 columns and 5 rows is split, and its first window removed.
#[tactic(auto, unfolding(crate::specs::Calls::split_tree, crate::specs::Calls::remove_tree))]
fn a_split_and_a_removal()
    ensures small { split_tree (opening 24 5) 0 Right 10 ≡ Err TooSmall }
    ensures split { split_tree (opening 24 5) 0 Right 11 ≡ Ok (record { windows = Split Right 11 (Window 0 false 0) (Window 1 false 0); width = 24; height = 5; made = 2 }) }
    ensures place { rect_of 1 (record { windows = Split Right 11 (Window 0 false 0) (Window 1 false 0); width = 24; height = 5; made = 2 }) ≡ Some (record { x = 11; y = 0; width = 13; height = 5 }) }
    ensures heir { first_leaf (sibling 0 (Split Right 11 (Window 0 false 0) (Window 1 false 0))) ≡ 1 }
    ensures removed { remove_tree (record { windows = Split Right 11 (Window 0 false 0) (Window 1 false 0); width = 24; height = 5; made = 2 }) 0 ≡ Ok (record { windows = Window 1 false 0; width = 24; height = 5; made = 2 }) }
    ensures filled { rect_of 1 (record { windows = Window 1 false 0; width = 24; height = 5; made = 2 }) ≡ Some (record { x = 0; y = 0; width = 24; height = 5 }) }
    ensures last { remove_tree (record { windows = Window 1 false 0; width = 24; height = 5; made = 2 }) 1 ≡ Err LastWindow }
    ensures unknown { remove_tree (record { windows = Window 1 false 0; width = 24; height = 5; made = 2 }) 0 ≡ Err NoWindow }
{}

/// How two windows share other rectangles, and when mode lines leave room.
#[tactic(auto, unfolding(crate::specs::Calls::resize_tree, crate::specs::Calls::mode_tree))]
fn shared_anew()
    ensures wider { resized (Split Right 11 (Window 0 false 0) (Window 1 false 0)) (frame 30 5) ≡ Split Right 11 (Window 0 false 0) (Window 1 false 0) }
    ensures narrower { resized (Split Right 15 (Window 0 false 0) (Window 1 false 0)) (frame 23 5) ≡ Split Right 12 (Window 0 false 0) (Window 1 false 0) }
    ensures lower { resized (Split Below 3 (Window 0 true 0) (Window 1 true 0)) (frame 24 4) ≡ Split Below 2 (Window 0 true 0) (Window 1 true 0) }
    ensures least { resize_tree (record { windows = Split Right 12 (Window 0 false 0) (Window 1 false 0); width = 24; height = 5; made = 2 }) 21 5 ≡ Err TooSmall }
    ensures mode { mode_tree (record { windows = Split Below 1 (Window 0 false 0) (Window 1 false 0); width = 24; height = 5; made = 2 }) 0 true ≡ Err TooSmall }
    ensures shown { mode_tree (record { windows = Split Below 1 (Window 0 false 0) (Window 1 false 0); width = 24; height = 5; made = 2 }) 1 true ≡ Ok (record { windows = Split Below 1 (Window 0 false 0) (Window 1 true 0); width = 24; height = 5; made = 2 }) }
{}

/// Margins of 3 columns of numbers and 3 of strings want 17 columns. A split copies them, so both windows need them.
#[tactic(auto, unfolding(crate::specs::Calls::split_tree, crate::specs::Calls::margins_tree))]
fn margins_take_room()
    ensures small { margins_tree (opening 16 3) 0 6 ≡ Err TooSmall }
    ensures taken { margins_tree (opening 16 3) 0 4 ≡ Ok (record { windows = Window 0 false 4; width = 16; height = 3; made = 1 }) }
    ensures least { margins_tree (opening 16 3) 0 5 ≡ Ok (record { windows = Window 0 false 5; width = 16; height = 3; made = 1 }) }
    ensures unknown { margins_tree (opening 16 3) 1 400 ≡ Err NoWindow }
    ensures split { split_tree (record { windows = Window 0 true 4; width = 30; height = 5; made = 1 }) 0 Right 15 ≡ Ok (record { windows = Split Right 15 (Window 0 true 4) (Window 1 true 4); width = 30; height = 5; made = 2 }) }
    ensures narrow { split_tree (record { windows = Window 0 true 4; width = 29; height = 5; made = 1 }) 0 Right 15 ≡ Err TooSmall }
{}

/// A window of numbers 0 above two windows of numbers 1 and 2 side by side, where each fills its rectangle with its number.
fn windows_on_a_frame()
    ensures { composed (λ window. replicate window.rect.height (replicate window.rect.width window.number)) (Split Below 1 (Window 0 false 0) (Split Right 2 (Window 1 false 0) (Window 2 false 0))) (frame 3 3) ≡ (0 ∷ 0 ∷ 0 ∷ []) ∷ (1 ∷ 1 ∷ 2 ∷ []) ∷ (1 ∷ 1 ∷ 2 ∷ []) ∷ [] }
{}
