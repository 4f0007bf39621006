//! Laws of the definitions, for the layers above.
ghost use Rattle.std.specs.Prelude.{◌≡◌, [], Option};
ghost use Rattle.rd_base.specs.declared.settings.Anchor.{Anchor};
ghost use Rattle.rd_matrix.specs.Blocks.{IsAmong, IsWithin};
ghost use Rattle.rd_matrix.specs.Sources.{IsSource, SourceValues};
ghost use Rattle.rd_matrix.specs.declared.block.Block.{Block};
ghost use Rattle.rd_reuse.specs.Keeping.{AreRight};
ghost use Rattle.rd_reuse.specs.declared.change.Change.{Change};
ghost use Rattle.rd_rows.specs.Shapes.{IsShape, ShapeValues};
ghost use Rattle.rd_start.specs.Chosen.{chosen_of};
ghost use Rattle.rd_start.specs.declared.wanted.Wanted.{Wanted};
ghost use Rattle.rd_window.specs.Layouts.{IsLaidOut, Stands};
ghost use Rattle.rd_window.specs.declared.layout.Layout.{Layout};

/// Without older rows no block keeps any, whatever changed, so that each window can be laid out without an older layout. The call does
/// nothing.
pub fn no_rows_are_kept()
    ensures { (m : SourceValues) (c : Change) (shape : ShapeValues) → AreRight m [] c shape }
{}

/// The layout that a window has after it was laid out stands for the start that was chosen. The call does nothing.
pub fn new_layouts_stand()
    ensures { (last : Option Layout) (m : SourceValues) (shape : ShapeValues) (w : Wanted) (new : Layout) → IsSource m → IsShape shape → IsWithin w.point m.blocks
        → IsLaidOut last m shape w new → Stands m (chosen_of m shape w).anchor new }
{}

/// A layout that stands over a source stands over each one with the same blocks, whose rows are the same at the layout's shape. The
/// call does nothing.
pub fn layouts_stand_over_equal_rows()
    ensures { (m n : SourceValues) (anchor : Anchor) (l : Layout) → n.blocks ≡ m.blocks → ((b : Block) → IsAmong m.blocks b → n.rows_of b l.shape ≡ m.rows_of b l.shape)
        → Stands m anchor l → Stands n anchor l }
{}
