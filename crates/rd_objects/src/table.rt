//! Display tables: what a buffer shows in place of characters, and its marks.
ghost use Rattle.std.specs.Prelude.{◌≡◌, ◌==◌, option_map, reverse};
ghost use Rattle.std.specs.List.{find};

use crate::run::Slot;
use rd_base::{Glyph, ListOf, Memory};
use std::alloc::Global;
use std::marker::Model;

/// What is shown in place of a code.
#[derive(Drop)]
pub struct TableEntry {
    pub code: u32,
    pub text: ListOf<Glyph>,
}

/// A display table: entries, and slots for marks and for the ellipsis. They hold glyph characters: scalar values that have 1 to 3
/// columns and no code below 32 or from 127 to 159, without marks and in their own columns, as `glyph_character` makes them.
#[derive(Drop)]
pub struct Table {
    alloc: Global,
    entries: ListOf<TableEntry>,
    truncation: Option<Glyph>,
    continuation: Option<Glyph>,
    escape: Option<Glyph>,
    control: Option<Glyph>,
    border: Option<Glyph>,
    ellipsis: Option<ListOf<Glyph>>,
}

impl Model for Table {
    ghost use Rattle.rd_objects.specs.Tables.{TableValue, IsTable};

    ghost Value = { TableValue };

    ghost use Rattle.rd_objects.specs.Held.{table_value};

    ghost view = { table_value };

    ghost invariant = { λ t. IsTable (table_value t) };
}

impl Table {
    ghost use Rattle.std.specs.Prelude.{◌≡◌, ◌<◌, ◌++◌, ◌∷◌, [], Some, None, IsTrue, IfOk, OnOk, OnErr, MatchOption, IfSome};
    ghost use Rattle.rd_base.specs.declared.limits.TheConstants.{CODE_POINTS};
    ghost use Rattle.rd_objects.specs.Tables.{empty_table, entry_glyphs, slot_of, with_slot, is_glyph_text, is_slot_glyph, IsTable};

    /// A table that holds nothing. It takes no memory.
    pub fn new(alloc: Global) -> Result<Table, Memory>
        ensures { IfOk result (λ table. table ≡ empty_table) }
    {
        Ok(Table {
            alloc,
            entries: ListOf::new(alloc),
            truncation: None,
            continuation: None,
            escape: None,
            control: None,
            border: None,
            ellipsis: None,
        })
    }

    /// Puts what a code shows: at most 16 glyph characters. A later entry of a code wins over an earlier one.
    /// It costs a copy of the glyphs.
    pub fn put_entry(&mut self, code: u32, text: &[Glyph]) -> Result<(), Memory>
        requires code { code < CODE_POINTS }
        requires text { IsTrue (is_glyph_text text.now) }
        ensures ok { OnOk result (self.new ≡ record self.old { entries = self.old.entries ++ record { code = code; text = text.now } ∷ [] }) }
        ensures err { OnErr result (self.new ≡ self.old) }
    {
        let text = ListOf::from_slice(self.alloc, text)?;
        self.entries.push(TableEntry { code, text })
    }

    /// Puts the glyph of a slot, a glyph character of one column, or takes it away. The cost is constant.
    pub fn put_slot(&mut self, slot: Slot, glyph: Option<Glyph>)
        requires { IfSome glyph (λ g. IsTrue (is_slot_glyph g)) }
        ensures { self.new ≡ with_slot slot glyph self.old }
    {
        match slot {
            Slot::Truncation => self.truncation = glyph,
            Slot::Continuation => self.continuation = glyph,
            Slot::Escape => self.escape = glyph,
            Slot::Control => self.control = glyph,
            Slot::Border => self.border = glyph,
        }
    }

    /// Puts what stands for hidden text: at most 16 glyph characters. It costs a copy of them.
    pub fn put_ellipsis(&mut self, text: &[Glyph]) -> Result<(), Memory>
        requires { IsTrue (is_glyph_text text.now) }
        ensures ok { OnOk result (self.new ≡ record self.old { ellipsis = Some text.now }) }
        ensures err { OnErr result (self.new ≡ self.old) }
    {
        self.ellipsis = Some(ListOf::from_slice(self.alloc, text)?);
        Ok(())
    }

    /// What a code shows, and None exactly where nothing was put. It costs a look at each entry.
    pub fn entry(&self, code: u32) -> Option<&[Glyph]>
        ensures value { MatchOption result (entry_glyphs self.now.entries code ≡ None) (λ text. entry_glyphs self.now.entries code ≡ Some text.now) }
        ensures text { IfSome result (λ text. IsTrue (is_glyph_text text.now)) }
    {
        self.tables_are_valid();
        Some(last_entry(self.entries.as_slice(), code)?.text.as_slice())
    }

    /// The glyph of a slot, and None exactly where none was put or None was put last. The cost is constant.
    pub fn slot(&self, slot: Slot) -> Option<Glyph>
        ensures value { result ≡ slot_of slot self.now }
        ensures glyph { IfSome result (λ g. IsTrue (is_slot_glyph g)) }
    {
        match slot {
            Slot::Truncation => self.truncation,
            Slot::Continuation => self.continuation,
            Slot::Escape => self.escape,
            Slot::Control => self.control,
            Slot::Border => self.border,
        }
    }

    /// What stands for hidden text, and None exactly where nothing was put. The cost is constant.
    pub fn ellipsis(&self) -> Option<&[Glyph]>
        ensures value { MatchOption result (self.now.ellipsis ≡ None) (λ text. self.now.ellipsis ≡ Some text.now) }
        ensures text { IfSome result (λ text. IsTrue (is_glyph_text text.now)) }
    {
        Some(self.ellipsis.as_ref()?.as_slice())
    }

    /// Each table holds glyph characters, at most 16 for a code and for hidden text, and in its slots such of one column.
    /// The call does nothing.
    pub fn tables_are_valid(&self)
        ensures { IsTable self.now }
    {
        let _entries = &self.entries;
    }
}

/// The last entry of a code.
fn last_entry(entries: &[TableEntry], code: u32) -> Option<&TableEntry>
    ensures { option_map (λ entry. entry.now) result ≡ find (λ entry. entry.code == code) (reverse entries.now) }
{
    entries.iter().rev().find(|entry| entry.code == code)
}
