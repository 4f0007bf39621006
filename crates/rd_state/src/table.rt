//! Display tables, as ops say them.
ghost use Rattle.std.specs.Prelude.{◌≡◌, ◌++◌, ◌∷◌, [], All, IsTrue, Some, IfOk, OnOk, map, option_map};
ghost use Rattle.rd_objects.specs.Tables.{is_glyph_character, is_glyph_text as are_glyph_characters, with_slot};
ghost use Rattle.rd_script.specs.Forms.{is_glyph, is_glyph_text, IsSlot, IsEllipsis, IsEntryInForm};
ghost use Rattle.rd_state.specs.Making.{glyph_of, table_entry, table_of};

use rd_base::{Ch, Glyph, ListOf, Memory, mapped};
use rd_objects::{Slot, Table, columns};
use rd_script::OpEntry;
use std::alloc::Global;

/// What the op that makes a display table says.
#[derive(Drop)]
pub(crate) struct TableParts {
    pub entries: ListOf<OpEntry>,
    pub truncation: Option<Ch>,
    pub continuation: Option<Ch>,
    pub escape: Option<Ch>,
    pub control: Option<Ch>,
    pub ellipsis: Option<ListOf<Ch>>,
    pub border: Option<Ch>,
}

/// A display table of these parts.
pub(crate) fn make_table(alloc: Global, parts: &TableParts) -> Result<Table, Memory>
    requires entries { All IsEntryInForm parts.now.entries }
    requires truncation { IsSlot parts.now.truncation }
    requires continuation { IsSlot parts.now.continuation }
    requires escape { IsSlot parts.now.escape }
    requires control { IsSlot parts.now.control }
    requires ellipsis { IsEllipsis parts.now.ellipsis }
    requires border { IsSlot parts.now.border }
    ensures { IfOk result (λ table. table ≡ table_of parts.now.entries parts.now.truncation parts.now.continuation parts.now.escape parts.now.control parts.now.ellipsis parts.now.border) }
{
    let mut table = Table::new(alloc)?;
    put_entries(alloc, &mut table, parts.entries.as_slice())?;
    put_slot(&mut table, Slot::Truncation, parts.truncation);
    put_slot(&mut table, Slot::Continuation, parts.continuation);
    put_slot(&mut table, Slot::Escape, parts.escape);
    put_slot(&mut table, Slot::Control, parts.control);
    put_slot(&mut table, Slot::Border, parts.border);
    if let Some(text) = &parts.ellipsis {
        put_ellipsis(alloc, &mut table, text.as_slice())?;
    }
    Ok(table)
}

/// Puts entries, one after the other.
fn put_entries(alloc: Global, table: &mut Table, entries: &[OpEntry]) -> Result<(), Memory>
    requires { All IsEntryInForm entries.now }
    ensures { OnOk result (table.new ≡ record table.old { entries = table.old.entries ++ map table_entry entries.now }) }
{
    for entry in entries {
        put_entry(alloc, table, entry)?;
    }
    Ok(())
}

/// Puts an entry of an op behind those of a display table.
fn put_entry(alloc: Global, table: &mut Table, entry: &OpEntry) -> Result<(), Memory>
    requires { IsEntryInForm entry.now }
    ensures { OnOk result (table.new ≡ record table.old { entries = table.old.entries ++ table_entry entry.now ∷ [] }) }
{
    let text = glyphs(alloc, entry.text.as_slice())?;
    table.put_entry(entry.code, text.as_slice())
}

/// Puts what stands for hidden text.
fn put_ellipsis(alloc: Global, table: &mut Table, text: &[Ch]) -> Result<(), Memory>
    requires { IsTrue (is_glyph_text text.now) }
    ensures { OnOk result (table.new ≡ record table.old { ellipsis = Some (map glyph_of text.now) }) }
{
    let text = glyphs(alloc, text)?;
    table.put_ellipsis(text.as_slice())
}

/// Puts the glyph of a slot, where there is one.
fn put_slot(table: &mut Table, slot: Slot, ch: Option<Ch>)
    requires { IsSlot ch }
    ensures { table.new ≡ with_slot slot (option_map glyph_of ch) table.old }
{
    match ch {
        Some(ch) => table.put_slot(slot, Some(glyph(ch))),
        None => table.put_slot(slot, None),
    }
}

/// The glyphs of a text.
fn glyphs(alloc: Global, text: &[Ch]) -> Result<ListOf<Glyph>, Memory>
    requires { IsTrue (is_glyph_text text.now) }
    ensures value { IfOk result (λ list. list ≡ map glyph_of text.now) }
    ensures right { IfOk result (λ list. IsTrue (are_glyph_characters list)) }
{
    mapped(alloc, text, |ch| glyph(*ch))
}

/// The glyph of a glyph character, in its own columns.
fn glyph(ch: Ch) -> Glyph
    requires { IsTrue (is_glyph ch) }
    ensures value { result ≡ glyph_of ch }
    ensures right { IsTrue (is_glyph_character result) }
{
    let code = ch.code();
    Glyph::single(code, columns(code))
}
