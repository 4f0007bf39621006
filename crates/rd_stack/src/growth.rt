//! The law of growth: objects that are made later change no line.
ghost use Rattle.std.specs.Prelude.{◌≡◌, ◌<◌, ℕ, List, length};
ghost use Rattle.rd_objects.specs.Sound.{IsClosed};
ghost use Rattle.rd_props.specs.Seen.{Seen};
ghost use Rattle.rd_items.specs.Growing.{ReadsMade, GoesOnFrom};
ghost use Rattle.rd_items.specs.Pieces.{Scene};
ghost use Rattle.rd_stack.specs.Lines.{line_elements};
ghost use Rattle.rd_stack.specs.Shown.{prefix};

/// Objects that are made later change no element of the line of what names none of them, and none of the prefix that is a string which
/// was made, nor do the flags of modified and of read-only text. The call does nothing.
pub fn objects_that_are_made_change_no_line()
    ensures lines { (old new : Scene) (base : ℕ) (es : List Seen) → GoesOnFrom old new → IsClosed old.objects → ReadsMade old.objects es → line_elements new base es ≡ line_elements old base es }
    ensures prefixes { (old new : Scene) (base number : ℕ) → GoesOnFrom old new → IsClosed old.objects → number < length old.objects.strings → prefix new base number ≡ prefix old base number }
{}
