//! Laws of the definitions, for the layers above.
ghost use Rattle.std.specs.Prelude.{◌≡◌, ℕ, Some, Ok, slice_get};
ghost use Rattle.rd_base.specs.declared.settings.Anchor.{Anchor};
ghost use Rattle.rd_script.specs.declared.op.Op.{Op};
ghost use Rattle.rd_script.specs.Forms.{IsInForm};
ghost use Rattle.rd_text.specs.Texts.{IsAccessible};
ghost use Rattle.rd_tree.specs.Windows.{Windows, window_at};
ghost use Rattle.rd_tree.specs.declared.placed.Placed.{Placed};
ghost use Rattle.rd_tree.specs.declared.rect.Rect.{Rect};
ghost use Rattle.rd_state.specs.declared.window.WindowState.{WindowState};
ghost use Rattle.rd_state.specs.States.{BufferValue, StateValue, opening};
ghost use Rattle.rd_state.specs.Windows.{window_of, leaf_at};
ghost use Rattle.rd_state.specs.Valid.{IsValid, IsWindow};
ghost use Rattle.rd_state.specs.Steps.{step, settled};
ghost use Rattle.rd_state.specs.Effects.{effect_of};
ghost use Rattle.rd_state.specs.Changes.{LeavesTheRest};

/// The opening is a valid state, and an op in form leads from a valid state to a valid one. The call does nothing.
pub fn steps_keep_states()
    ensures opening { IsValid opening }
    ensures step { (s t : StateValue) (op : Op) → IsValid s → IsInForm op → step s op ≡ Ok t → IsValid t }
{}

/// Where a layout settles a window's view and its point at accessible positions, a valid state stays valid. The call does nothing.
pub fn settling_keeps_states()
    ensures { (s : StateValue) (number : ℕ) (anchor : Anchor) (point : ℕ) → IsValid s → ((w : WindowState) (b : BufferValue) → window_of number s.windows ≡ Some w → slice_get s.buffers w.buffer ≡ Some b → IsAccessible b.content.text anchor.pos × IsAccessible b.content.text point) → IsValid (settled s number anchor point) }
{}

/// What is seen of a buffer before and behind an op is the same outside the change that the op's effect names, and so are its settings but
/// for `modified` and `read_only`; objects were only made, and no buffer was taken away. A window that lives before and behind the op
/// shows the same buffer, unless the effect names it. The call does nothing.
pub fn ops_leave_the_rest()
    ensures { (s t : StateValue) (op : Op) → IsValid s → IsInForm op → step s op ≡ Ok t → LeavesTheRest s t (effect_of s op) }
{}

/// What a window tree says of a window is what its placed windows say, and each window that lives is valid. The call does nothing.
pub fn windows_are_leaves()
    ensures placed { (number : ℕ) (windows : Windows) (rect : Rect) (window : Placed) → window_at number windows rect ≡ Some window → leaf_at number windows ≡ Some (window.mode, window.margins) }
    ensures found { (s : StateValue) (number : ℕ) (w : WindowState) → IsValid s → window_of number s.windows ≡ Some w → IsWindow s.buffers w }
{}
