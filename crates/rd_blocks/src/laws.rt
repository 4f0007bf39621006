//! What holds of the blocks of every buffer and of their rows, proved of the definitions.
ghost use Rattle.std.specs.Prelude.{ℕ, ◌≡◌, ◌+◌, ◌≤◌, Bool, true, false, [], length, All};
ghost use Rattle.rd_base.specs.declared.limits.TheConstants.{TAB_COLUMNS};
ghost use Rattle.rd_base.specs.Cells.{IsColoured};
ghost use Rattle.rd_base.specs.Faces.{Attributes};
ghost use Rattle.rd_base.specs.declared.element.Origin.{Origin};
ghost use Rattle.rd_text.specs.Texts.{IsText, IsAccessible};
ghost use Rattle.rd_ucd.specs.Data.{Data};
ghost use Rattle.rd_objects.specs.Sound.{AreCodes, AreObjects};
ghost use Rattle.rd_objects.specs.Things.{ObjectLists};
ghost use Rattle.rd_props.specs.Buffers.{BufferValue};
ghost use Rattle.rd_items.specs.Items.{kind_gives};
ghost use Rattle.rd_items.specs.Pieces.{Scene};
ghost use Rattle.rd_items.specs.declared.item.ItemKind.{ItemKind};
ghost use Rattle.rd_rows.specs.Shapes.{ShapeValues, IsShape};
ghost use Rattle.rd_rows.specs.Whole.{IsWhole};
ghost use Rattle.rd_stack.specs.Lines.{put_kind};
ghost use Rattle.rd_stack.specs.Shown.{kind_elements};
ghost use Rattle.rd_matrix.specs.declared.block.Block.{Block};
ghost use Rattle.rd_matrix.specs.Blocks.{IsWithin, end_from, first_start};
ghost use Rattle.rd_matrix.specs.Sources.{EndersBeginLast, IsSource, rows_at};
ghost use Rattle.rd_blocks.specs.Sources.{text_source};

use rd_glyphs::elements_are_sound;
use rd_items::{blocks_are_listed, blocks_are_read_whole, items_cover_their_block};
use rd_levels::enders_come_last;
use rd_rows::{rows_are_coloured, rows_are_whole, rows_behind_quiet_prefixes};
use rd_stack::{
    lines_are_coloured, lines_are_sound, lines_end_once, prefixes_are_sound, prefixes_end_no_line,
    readings_have_codes, scenes_are_sound,
};

/// Each buffer is a source of blocks, whatever objects and data files there are: it has blocks in order, and the rows of a block
/// at a shape are at least one, of which the last and no other ends the block; and each position of a block is covered by exactly
/// one item that begins in its rows. The call does nothing.
pub fn buffers_are_sources()
    ensures { (s : BufferValue) (objects : ObjectLists) (files : Data) → IsText s.text → IsSource (text_source s objects files) }
{
    blocks_are_listed();
    blocks_are_read_whole();
    items_cover_their_block();
    rows_behind_quiet_prefixes();
    items_that_give_have_elements();
    lines_end_once();
    prefixes_end_no_line();
}

/// An item that is no overlay's string has at least one element in its line where it is said to give one, as each item that covers
/// positions does, and else it has none: at every base level and place, in every face. The call does nothing.
pub fn items_that_give_have_elements()
    ensures some { (s : Scene) (base : ℕ) (kind : ItemKind) (odd : Bool) (face : Attributes) (origin : Origin)
        → kind_gives s kind ≡ true → 1 ≤ length (put_kind kind_elements s base kind false odd face origin) }
    ensures none { (s : Scene) (base : ℕ) (kind : ItemKind) (odd : Bool) (face : Attributes) (origin : Origin)
        → kind_gives s kind ≡ false → put_kind kind_elements s base kind false odd face origin ≡ [] }
{
    elements_are_sound();
}

/// Each accessible position of a buffer, and the end of its accessible text, lies within its blocks. The call does nothing.
pub fn accessible_positions_lie_in_blocks()
    ensures { (s : BufferValue) (objects : ObjectLists) (files : Data) (pos : ℕ) → IsAccessible s.text pos → IsWithin pos (text_source s objects files).blocks }
{
    blocks_are_listed();
}

/// The first block of a buffer starts where its accessible text begins, and the last one ends behind the end of that. The item of each
/// block's last position begins in the block's last row. The call does nothing.
pub fn blocks_fill_the_text()
    ensures begin { (s : BufferValue) (objects : ObjectLists) (files : Data) → IsText s.text → first_start (text_source s objects files).blocks ≡ s.text.begin }
    ensures end { (s : BufferValue) (objects : ObjectLists) (files : Data) → IsText s.text → end_from 0 (text_source s objects files).blocks ≡ s.text.end + 1 }
    ensures last { (s : BufferValue) (objects : ObjectLists) (files : Data) → IsText s.text → EndersBeginLast (text_source s objects files) }
{
    blocks_are_listed();
    blocks_are_read_whole();
    items_cover_their_block();
    enders_come_last();
}

/// In each row of a block of a buffer, at a shape of 10 to 400 columns, each glyph stands whole, and the row has the shape's columns, where
/// the objects are sound, a tab has 1 to 32 columns and each character of the text has a code. So it is in the rows of all blocks. The
/// call does nothing.
pub fn rows_of_buffers_are_whole()
    ensures block { (s : BufferValue) (objects : ObjectLists) (files : Data) (b : Block) (shape : ShapeValues)
        → AreObjects objects → 1 ≤ s.settings.tab_width → s.settings.tab_width ≤ TAB_COLUMNS → AreCodes s.text.text → IsShape shape
        → All (IsWhole shape.width) ((text_source s objects files).rows_of b shape) }
    ensures all { (s : BufferValue) (objects : ObjectLists) (files : Data) (shape : ShapeValues)
        → AreObjects objects → 1 ≤ s.settings.tab_width → s.settings.tab_width ≤ TAB_COLUMNS → AreCodes s.text.text → IsShape shape
        → All (λ e. IsWhole shape.width e.row) (rows_at (text_source s objects files) shape) }
{
    rows_are_whole();
    lines_are_sound();
    prefixes_are_sound();
    readings_have_codes();
    scenes_are_sound();
}

/// Each cell in the rows of a block of a buffer has its colours in range, where the objects are sound. So it is in the rows of all blocks.
/// The call does nothing.
pub fn rows_of_buffers_are_coloured()
    ensures block { (s : BufferValue) (objects : ObjectLists) (files : Data) (b : Block) (shape : ShapeValues)
        → AreObjects objects → All (λ r. All IsColoured r.cells) ((text_source s objects files).rows_of b shape) }
    ensures all { (s : BufferValue) (objects : ObjectLists) (files : Data) (shape : ShapeValues)
        → AreObjects objects → All (λ e. All IsColoured e.row.cells) (rows_at (text_source s objects files) shape) }
{
    rows_are_coloured();
    lines_are_coloured();
}
