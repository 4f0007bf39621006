//! The laws of kept rows: the rows of a block depend on what is read of it alone, so that older rows can be kept.
ghost use Rattle.std.specs.Prelude.{◌≡◌, ℕ, List, take, drop};
ghost use Rattle.rd_text.specs.Texts.{IsText};
ghost use Rattle.rd_ucd.specs.Data.{Data};
ghost use Rattle.rd_objects.specs.Sound.{IsClosed, Extends};
ghost use Rattle.rd_objects.specs.Things.{ObjectLists};
ghost use Rattle.rd_props.specs.Buffers.{BufferValue};
ghost use Rattle.rd_props.specs.Made.{AreMade};
ghost use Rattle.rd_base.specs.Settings.{without_flags};
ghost use Rattle.rd_items.specs.Readings.{reading};
ghost use Rattle.rd_matrix.specs.Entries.{shown_entries};
ghost use Rattle.rd_matrix.specs.Sources.{SourceValues, rows_at};
ghost use Rattle.rd_matrix.specs.declared.block.Block.{Block};
ghost use Rattle.rd_matrix.specs.declared.matrix.Entry.{Entry};
ghost use Rattle.rd_reuse.specs.Changes.{all};
ghost use Rattle.rd_reuse.specs.Keeping.{AreRight};
ghost use Rattle.rd_reuse.specs.declared.change.Change.{Change};
ghost use Rattle.rd_rows.specs.Shapes.{ShapeValues, IsShape};
ghost use Rattle.rd_blocks.specs.Kept.{Follows, AreRowsAt};
ghost use Rattle.rd_blocks.specs.Sources.{rows_in, text_source};

use crate::laws::buffers_are_sources;
use rd_items::{blocks_are_listed, made_objects_alone_are_read};
use rd_reuse::all_keeps_no_block;

/// Two blocks have equal rows at a shape where the same is read of them, their base levels and the settings are the same, but for the
/// flags of modified and of read-only text, and so are the data files and the objects that are named: wherever the blocks stand, and
/// however many objects were made since. The call does nothing.
pub fn rows_are_local()
    ensures { (old new : BufferValue) (made objects : ObjectLists) (files : Data) (a b : Block) (shape : ShapeValues)
        → without_flags new.settings ≡ without_flags old.settings → IsClosed made → AreMade old made → Extends made objects
        → a.base ≡ b.base → reading old made a.start ≡ reading new objects b.start
        → rows_in new objects files b shape ≡ rows_in old made files a shape }
{
    made_objects_alone_are_read();
}

/// Rows of an older state of a buffer that its blocks keep are the rows that they have now, where the change since is right: through
/// base levels that flip, hidden and replaced runs and strings across the change, and blocks that join or split. Where anything may have
/// changed no block keeps any. Rows that stand one behind the other in a text are rows of it. The call does nothing.
pub fn kept_rows_are_fresh()
    ensures changed { (old new : BufferValue) (made objects : ObjectLists) (files : Data) (change : Change) (shape : ShapeValues) (rows : List Entry)
        → IsText old.text → IsText new.text → IsShape shape → Follows old made new objects change → AreRowsAt (text_source old made files) shape rows
        → AreRight (text_source new objects files) rows change shape }
    ensures all { (s : BufferValue) (objects : ObjectLists) (files : Data) (shape : ShapeValues) (rows : List Entry)
        → IsText s.text → AreRight (text_source s objects files) rows all shape }
    ensures rows { (m : SourceValues) (shape : ShapeValues) (rows : List Entry) (first height : ℕ)
        → shown_entries rows ≡ take height (drop first (rows_at m shape)) → AreRowsAt m shape rows }
{
    all_keeps_no_block();
    blocks_are_listed();
    buffers_are_sources();
    made_objects_alone_are_read();
}
