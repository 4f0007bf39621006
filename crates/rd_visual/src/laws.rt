//! Laws of hits, over rows of every source, and of motion. The calls do nothing.
ghost use Rattle.std.specs.Prelude.{◌≡◌, ℕ, ◌+◌, ◌<◌, ◌≤◌, Bool, true, List, All, count_by, slice_get, Some};
ghost use Rattle.rd_base.specs.declared.element.Element.{Element};
ghost use Rattle.rd_matrix.specs.Columns.{covers, shown_column};
ghost use Rattle.rd_matrix.specs.Cursors.{cursor_in};
ghost use Rattle.rd_matrix.specs.Entries.{EntryMeaning};
ghost use Rattle.rd_matrix.specs.Sources.{SourceValues, IsSource};
ghost use Rattle.rd_rows.specs.Rows.{rows_of};
ghost use Rattle.rd_rows.specs.Shapes.{ShapeValues, IsShape};
ghost use Rattle.rd_rows.specs.declared.begin.Begin.{Begin};
ghost use Rattle.rd_rows.specs.declared.cutting.Cutting.{Cutting};
ghost use Rattle.rd_text.specs.Texts.{IsText};
ghost use Rattle.rd_ucd.specs.Data.{Data};
ghost use Rattle.rd_objects.specs.Things.{ObjectLists};
ghost use Rattle.rd_props.specs.Buffers.{BufferValue};
ghost use Rattle.rd_matrix.specs.Blocks.{IsAmong};
ghost use Rattle.rd_matrix.specs.declared.block.Block.{Block};
ghost use Rattle.rd_blocks.specs.Bases.{blocks_in};
ghost use Rattle.rd_blocks.specs.Sources.{text_source};
ghost use Rattle.rd_visual.specs.Motion.{all_ranges, backward, base_in, block_ranges, forward, least, left_of, right_of};
ghost use Rattle.rd_visual.specs.Tiles.{AreTiled, CoverOnce};
ghost use Rattle.rd_visual.specs.Order.{EndsWithEnder, StandBetween, block_items, ordered_ranges};
ghost use Rattle.rd_visual.specs.declared.range.Range.{Range};
ghost use Rattle.rd_visual.specs.Hits.{AreAdjacentRows, begins_at, hit_in};

use rd_blocks::buffers_are_sources;
use rd_items::{blocks_are_listed, blocks_are_read_whole, items_cover_their_block};
use rd_levels::enders_come_last;

/// Where a cell shows a position, the item of that position begins in a cell of the same row, which shows that position too.
pub fn a_hit_comes_back()
    ensures { (m : SourceValues) (shape : ShapeValues) (es : List EntryMeaning) (row column point : ℕ) → IsSource m → IsShape shape → AreAdjacentRows m shape es
        → hit_in es row column ≡ Some point
        → (there : ℕ) × (cursor_in point es ≡ Some (row, there)) × (hit_in es row there ≡ Some point) }
{}

/// The cell in which the item of a position begins, and no other item that covers a position, shows the least position of that
/// item, in rows of each buffer.
pub fn a_cell_shows_its_item()
    ensures { (s : BufferValue) (objects : ObjectLists) (files : Data) (shape : ShapeValues) (es : List EntryMeaning) (row column point : ℕ) (e : EntryMeaning) (k : ℕ) (b : Begin)
        → IsText s.text → IsShape shape → AreAdjacentRows (text_source s objects files) shape es
        → cursor_in point es ≡ Some (row, column)
        → slice_get es row ≡ Some e → slice_get e.row.begins k ≡ Some b → covers e.start point b ≡ true
        → count_by (begins_at (shown_column e.row column)) e.row.begins ≤ 1
        → hit_in es row column ≡ Some (e.start + b.from) }
{
    buffers_are_sources();
}

/// Each item of a line begins in a column of its row's window, whatever the line is and however it is cut.
pub fn items_begin_in_the_window()
    ensures { (c : Cutting) (line : List Element) → 1 ≤ c.shape.width → All (λ r. All (λ b. b.column < c.shape.width) r.row.begins) (rows_of c line) }
{}

/// The blocks of a text stand one behind the other, and items tile each of them.
pub fn blocks_are_tiled()
    ensures { (s : BufferValue) → IsText s.text → AreTiled s }
{
    blocks_are_listed();
    blocks_are_read_whole();
    items_cover_their_block();
}

/// Each accessible position, and the accessible end, is covered by exactly one of the items among which one moves, and it is one of
/// the block that holds it.
pub fn ranges_cover_once()
    ensures { (s : BufferValue) (objects : ObjectLists) (files : Data) → IsText s.text → CoverOnce s objects files }
{
    blocks_are_tiled();
}

/// A step forward and a step backward, in either order, lead to the least position of the item from which they began. So left undoes
/// right, and right left, wherever both blocks have one base level.
pub fn left_undoes_right()
    ensures forward { (s : BufferValue) (objects : ObjectLists) (files : Data) (pos next : ℕ) → IsText s.text
        → forward s objects files pos ≡ Some next → backward s objects files next ≡ least pos (all_ranges s objects files) }
    ensures backward { (s : BufferValue) (objects : ObjectLists) (files : Data) (pos next : ℕ) → IsText s.text
        → backward s objects files pos ≡ Some next → forward s objects files next ≡ least pos (all_ranges s objects files) }
    ensures right { (s : BufferValue) (objects : ObjectLists) (files : Data) (pos next : ℕ) → IsText s.text → base_in s files next ≡ base_in s files pos
        → right_of s objects files pos ≡ Some next → left_of s objects files next ≡ least pos (all_ranges s objects files) }
    ensures left { (s : BufferValue) (objects : ObjectLists) (files : Data) (pos next : ℕ) → IsText s.text → base_in s files next ≡ base_in s files pos
        → left_of s objects files pos ≡ Some next → right_of s objects files next ≡ least pos (all_ranges s objects files) }
{
    blocks_are_tiled();
}

/// The ranges of a block's items in visual order are those in order of position, each as often, and these stand one behind the other
/// from the block's start to its end.
pub fn ranges_are_reordered()
    ensures stand { (s : BufferValue) (objects : ObjectLists) (files : Data) (b : Block) → IsText s.text → IsAmong (blocks_in files.classes s) b
        → StandBetween b.start b.end (ordered_ranges s objects files b) }
    ensures same { (s : BufferValue) (objects : ObjectLists) (files : Data) (b : Block) (test : Range → Bool)
        → count_by test (block_ranges s objects files b) ≡ count_by test (ordered_ranges s objects files b) }
{
    blocks_are_tiled();
}

/// The last of a block's ranges is that of its ender, in order of position and in visual order too. It ends with the block.
pub fn enders_have_the_last_range()
    ensures order { (s : BufferValue) (objects : ObjectLists) (files : Data) (b : Block) → IsText s.text → IsAmong (blocks_in files.classes s) b
        → EndsWithEnder b.start b.end (block_items s objects files b) (ordered_ranges s objects files b) }
    ensures visual { (s : BufferValue) (objects : ObjectLists) (files : Data) (b : Block) → IsText s.text → IsAmong (blocks_in files.classes s) b
        → EndsWithEnder b.start b.end (block_items s objects files b) (block_ranges s objects files b) }
{
    blocks_are_tiled();
    enders_come_last();
}
