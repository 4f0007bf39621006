//! The border beside a window.
ghost use Rattle.std.specs.Prelude.{◌≡◌};
ghost use Rattle.rd_items.specs.Pieces.{table_in};
ghost use Rattle.rd_layout.specs.Panes.{border_in};

use rd_base::Glyph;
use rd_objects::{Objects, Slot};

/// The border slot of a buffer's display table; None where the buffer has no table, and where the table has nothing in the slot.
pub(crate) fn border_slot(objects: &Objects, table: Option<u32>) -> Option<Glyph>
    ensures { result ≡ border_in (table_in objects.now table) }
{
    let table = objects.table(table?)?;
    table.slot(Slot::Border)
}
