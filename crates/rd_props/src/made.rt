//! The laws of made objects: edits name no object that was not made, and none is seen.
ghost use Rattle.std.specs.Prelude.{ℕ};
ghost use Rattle.rd_objects.specs.Things.{ObjectLists};
ghost use Rattle.rd_props.specs.Buffers.{BufferValue};
ghost use Rattle.rd_props.specs.Made.{AreMade, MadeLaws, SeesMade};
ghost use Rattle.rd_props.specs.Seen.{seen_at};

/// A buffer that names made objects alone still does after an edit which names no other one, and after more objects were made. The
/// call does nothing.
pub fn edits_keep_what_is_made()
    ensures { MadeLaws }
{}

/// In a buffer whose properties and overlays name made objects alone, what is seen at a position names made objects alone. The call
/// does nothing.
pub fn made_objects_alone_are_seen()
    ensures { (s : BufferValue) (objects : ObjectLists) (p : ℕ) → AreMade s objects → SeesMade objects (seen_at s objects p) }
{}
