//! Laws of changes and of rows that are kept, over all changes and sources. The calls do nothing.
ghost use Rattle.std.specs.Prelude.{◌≡◌, ℕ, ◌^◌, ◌<◌, ◌≤◌, false, List};
ghost use Rattle.rd_base.specs.Lists.{moved};
ghost use Rattle.rd_matrix.specs.Blocks.{IsAmong};
ghost use Rattle.rd_matrix.specs.Sources.{SourceValues, IsSource};
ghost use Rattle.rd_matrix.specs.declared.block.Block.{Block};
ghost use Rattle.rd_matrix.specs.declared.matrix.Entry.{Entry};
ghost use Rattle.rd_reuse.specs.Changes.{IsChange, all, edit, join, none};
ghost use Rattle.rd_reuse.specs.Keeping.{AreRight, fresh_cost, is_kept, kept_source};
ghost use Rattle.rd_reuse.specs.declared.change.Change.{Change};
ghost use Rattle.rd_rows.specs.Shapes.{ShapeValues};

/// Joined with a change of anything each change is one.
pub fn combined_with_all()
    ensures first { (c : Change) → join all c ≡ all }
    ensures last { (c : Change) → join c all ≡ all }
{}

/// Joined with none a change stays as it is: before it, where no more was added than what stands before the tail, as in each edit.
pub fn combined_with_none()
    ensures first { (c : Change) → IsChange c → moved c.added 0 ≤ c.tail → join none c ≡ c }
    ensures last { (c : Change) → IsChange c → join c none ≡ c }
{}

/// The change of an edit adds no more than what stands before its tail, so joined with none before it, it stays as it is.
pub fn edits_add_less_than_stands_before()
    ensures change { (from removed added : ℕ) → from < 2 ^ 32 → IsChange (edit from removed added) }
    ensures low { (from removed added : ℕ) → moved (edit from removed added).added 0 ≤ (edit from removed added).tail }
{}

/// Where anything may have changed no block keeps its older rows, whatever these are.
pub fn all_keeps_no_block()
    ensures block { (old : List Entry) (b : Block) → b.start < b.end → b.end < 2 ^ 32 → is_kept old all b ≡ false }
    ensures source { (m : SourceValues) (old : List Entry) (shape : ShapeValues) → IsSource m → ((b : Block) → IsAmong m.blocks b → b.end < 2 ^ 32) → AreRight m old all shape }
{}

/// At the shape of its kept rows a source with such rows costs what its blocks cost that do not keep them.
pub fn kept_rows_cost_nothing()
    ensures { (m : SourceValues) (old : List Entry) (c : Change) (shape : ShapeValues) (b : Block) → (kept_source m old c shape).cost_of b shape ≡ fresh_cost m old c shape b }
{}
