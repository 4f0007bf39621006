//! The definitions on worked examples.
#![tactic(auto, unfolding(crate::specs::Steps::step, crate::specs::Effects::effect_of, rd_tree::specs::Calls::split_tree, rd_tree::specs::Calls::remove_tree, rd_tree::specs::Calls::resize_tree, rd_tree::specs::Calls::mode_tree, rd_tree::specs::Calls::margins_tree))]

ghost use Rattle.std.specs.Prelude.{◌≡◌, true, false, ◌∷◌, [], None, Some, Ok, Err, pos, negsuc, codes, map};
ghost use Rattle.rd_overlays.specs.declared.overlay.Kind.TheVariants.{Face};
ghost use Rattle.rd_script.specs.declared.op.Op.TheVariants.{Frame, Buffer, Insert, InsertRaw, TypeText, Delete, Narrow, Widen, Put, Overlay as MakeOverlay, OverlayMove, OverlayDrop, OverlayPut, Split, Remove, Select, Show, Start, Scroll, ModeLine, Echo, Margin, MarginPut};
ghost use Rattle.rd_tree.specs.declared.side.Side.TheVariants.{Below, Right};
ghost use Rattle.rd_tree.specs.Windows.{leaves};
ghost use Rattle.rd_state.specs.declared.effect.Effect.TheVariants.{Nothing, Edit, Moved, Window};
ghost use Rattle.rd_state.specs.declared.refused.Refused.TheVariants.{NoBuffer, NoWindow, NoOverlay, NoObject, OutOfRange, NameTaken, TooSmall, LastWindow, BadFormat};
ghost use Rattle.rd_state.specs.States.{main_name};
ghost use Rattle.rd_state.specs.Windows.{selected_window, shown_content};
ghost use Rattle.rd_state.specs.Answers.{takes_memory};
ghost use Rattle.rd_state.specs.Effects.{effect_of};
ghost use Rattle.rd_state.specs.Examples.{after, told, shown_text};

/// A text is put in and narrowed: the point is brought into the range, and stays there when the whole text is accessible again.
fn narrowing_brings_points_in()
    ensures text { told shown_text (after (Insert main_name 1 (codes "abcde") ∷ Narrow main_name 2 5 ∷ [])) ≡ Ok (record { text = codes "abcde"; begin = 2; end = 5 }) }
    ensures point { told (λ s. (selected_window s).point) (after (Insert main_name 1 (codes "abcde") ∷ Narrow main_name 2 5 ∷ Widen main_name ∷ [])) ≡ Ok 2 }
    ensures anchor { told (λ s. (selected_window s).anchor.pos) (after (Insert main_name 1 (codes "abcde") ∷ Narrow main_name 2 5 ∷ Widen main_name ∷ [])) ≡ Ok 2 }
{}

/// What typing moves, and that what stands at the place of an insertion stays.
fn points_move_with_the_text()
    ensures typed { told (λ s. (selected_window s).point) (after (TypeText (codes "abc") ∷ [])) ≡ Ok 4 }
    ensures stays { told (λ s. (selected_window s).point) (after (TypeText (codes "abc") ∷ Insert main_name 4 (codes "d") ∷ [])) ≡ Ok 4 }
    ensures moves { told (λ s. (selected_window s).point) (after (TypeText (codes "abc") ∷ Insert main_name 1 (codes "de") ∷ [])) ≡ Ok 6 }
    ensures deleted { told (λ s. (selected_window s).point) (after (TypeText (codes "abc") ∷ Delete main_name 2 3 ∷ [])) ≡ Ok 3 }
    ensures other { told (λ s. map (λ e. e.1.point) s.windows) (after (TypeText (codes "abc") ∷ Split 0 Below 5 ∷ TypeText (codes "d") ∷ [])) ≡ Ok (5 ∷ 4 ∷ []) }
    ensures all { told (λ s. map (λ e. e.1.point) s.windows) (after (TypeText (codes "abc") ∷ Split 0 Below 5 ∷ Insert main_name 1 (codes "d") ∷ [])) ≡ Ok (5 ∷ 5 ∷ []) }
    ensures modified { told (λ s. (shown_content s (selected_window s)).settings.modified) (after (InsertRaw main_name 1 (200 ∷ []) ∷ [])) ≡ Ok true }
    ensures untouched { told (λ s. (shown_content s (selected_window s)).settings.modified) (after (Insert main_name 1 [] ∷ [])) ≡ Ok false }
{}

/// Refusals, each the first of its op's.
fn refusals_come_in_order()
    ensures name { after (Buffer main_name ∷ []) ≡ Err NameTaken }
    ensures buffer { after (Show 0 (codes "x") ∷ []) ≡ Err NoBuffer }
    ensures window { after (Show 1 (codes "x") ∷ []) ≡ Err NoWindow }
    ensures range { after (Delete main_name 1 18446744073709551615 ∷ []) ≡ Err OutOfRange }
    ensures put_range { after (Put main_name 1 2 Face (Some 0) ∷ []) ≡ Err OutOfRange }
    ensures put_object { after (Put main_name 1 1 Face (Some 0) ∷ []) ≡ Err NoObject }
    ensures overlay { after (OverlayPut main_name 0 Face (Some 0) ∷ []) ≡ Err NoOverlay }
    ensures overlay_object { after (MakeOverlay main_name 1 1 (pos 0) false false ∷ OverlayPut main_name 0 Face (Some 0) ∷ []) ≡ Err NoObject }
    ensures mark { after (MakeOverlay main_name 1 1 (pos 0) false false ∷ MarginPut main_name 0 (Some 0) ∷ []) ≡ Err NoObject }
    ensures format { after (ModeLine 0 (Some (codes "a%q")) ∷ []) ≡ Err (BadFormat 1) }
    ensures last { after (Remove 0 ∷ []) ≡ Err LastWindow }
    ensures small { after (Frame 24 6 ∷ Split 0 Right 10 ∷ []) ≡ Err TooSmall }
    ensures frame { after (Split 0 Right 40 ∷ Frame 21 6 ∷ []) ≡ Err TooSmall }
    ensures margins { after (Frame 16 2 ∷ Margin 0 3 3 ∷ []) ≡ Err TooSmall }
    ensures gone { after (Frame 24 6 ∷ Split 0 Right 11 ∷ Remove 0 ∷ Select 0 ∷ []) ≡ Err NoWindow }
{}

/// A window is split, and its part removed.
fn windows_are_split_and_removed()
    ensures heir { told (λ s. s.selected) (after (Frame 24 6 ∷ Split 0 Right 11 ∷ Remove 0 ∷ [])) ≡ Ok 1 }
    ensures left { told (λ s. leaves s.tree.windows) (after (Frame 24 6 ∷ Split 0 Right 11 ∷ Remove 0 ∷ [])) ≡ Ok (1 ∷ []) }
    ensures forced { told (λ s. map (λ e. e.1.forced) s.windows) (after (Start 0 1 0 ∷ Split 0 Below 5 ∷ [])) ≡ Ok (true ∷ false ∷ []) }
    ensures pending { told (λ s. map (λ e. e.1.pending) s.windows) (after (Scroll 0 (pos 1000000) ∷ Scroll 0 (negsuc 0) ∷ Split 0 Below 5 ∷ [])) ≡ Ok (pos 999999 ∷ pos 0 ∷ []) }
    ensures copied { told (λ s. map (λ e. e.1.numbers) s.windows) (after (Margin 0 4 3 ∷ Split 0 Below 5 ∷ [])) ≡ Ok (4 ∷ 4 ∷ []) }
    ensures mode { told (λ s. map (λ e. e.1.format) s.windows) (after (ModeLine 0 (Some (codes "%b")) ∷ Split 0 Below 5 ∷ ModeLine 0 None ∷ [])) ≡ Ok (None ∷ Some (codes "%b") ∷ []) }
{}

/// The effects of ops.
fn effects_tell_changes()
    ensures typed { told (λ s. effect_of s (TypeText (codes "de"))) (after (TypeText (codes "abc") ∷ [])) ≡ Ok (Edit 0 4 0 2) }
    ensures deleted { told (λ s. effect_of s (Delete main_name 2 4)) (after (TypeText (codes "abc") ∷ [])) ≡ Ok (Edit 0 2 2 0) }
    ensures put { told (λ s. effect_of s (Put main_name 1 3 Face None)) (after (TypeText (codes "abc") ∷ [])) ≡ Ok (Edit 0 1 2 2) }
    ensures moved { told (λ s. effect_of s (OverlayMove main_name 0 1 2)) (after (TypeText (codes "abc") ∷ MakeOverlay main_name 2 4 (pos 0) false false ∷ [])) ≡ Ok (Moved 0 (2, 4) (1, 2)) }
    ensures shown { told (λ s. effect_of s (Show 0 main_name)) (after []) ≡ Ok (Window 0) }
    ensures echoed { told (λ s. effect_of s (Echo (codes "hi"))) (after []) ≡ Ok Nothing }
{}

/// Which ops can take memory.
fn some_ops_take_no_memory()
    ensures inserted { takes_memory (Insert main_name 1 (codes "a")) ≡ true }
    ensures deleted { takes_memory (Delete main_name 1 2) ≡ false }
    ensures narrowed { takes_memory (Narrow main_name 1 2) ≡ false }
    ensures put { takes_memory (Put main_name 1 2 Face None) ≡ true }
    ensures moved { takes_memory (OverlayMove main_name 0 1 2) ≡ true }
    ensures dropped { takes_memory (OverlayDrop main_name 0) ≡ false }
    ensures split { takes_memory (Split 0 Below 5) ≡ true }
    ensures removed { takes_memory (Remove 0) ≡ false }
    ensures marked { takes_memory (MarginPut main_name 0 (Some 0)) ≡ true }
    ensures unmarked { takes_memory (MarginPut main_name 0 None) ≡ false }
{}
