//! The elements of a character.
ghost use Rattle.std.specs.Prelude.{◌≡◌, ◌≤◌, map, length, All, None, IsOk, IfOk};
ghost use Rattle.std.specs.Borrow.{Bor};
ghost use Rattle.rd_base.specs.declared.element.Element.{Element};
ghost use Rattle.rd_base.specs.declared.limits.TheConstants.{ENTRY_GLYPHS};
ghost use Rattle.rd_base.specs.Elements.{AreSound};
ghost use Rattle.rd_base.specs.Glyphs.{AreMeasured};
ghost use Rattle.rd_glyphs.specs.Characters.{element_of, glyph_elements, tab_of, glyphs_for, elements_of, IsShort};

use crate::looks::{Looks, look_columns, looks_of};
use crate::shown::{Shown, mirrored, shown_as};
use rd_base::{Ch, Element, Extent, Face, Glyph, Look, Memory, Origin, Settings};
use rd_objects::{Slot, Table};
use rd_ucd::{Classes, Mirrors};
use smallvec::SmallVec;
use std::alloc::Global;
use std::marker::Model;

/// What the elements of a character depend on: the buffer's display table, where it has one, its settings, and the Unicode
/// data.
#[derive(Drop)]
pub struct Parts<'a> {
    pub table: Option<&'a Table>,
    pub settings: &'a Settings,
    pub classes: &'a Classes,
    pub mirrors: &'a Mirrors,
}

impl<'a> Model for Parts<'a> {
    ghost use Rattle.std.specs.Prelude.{option_map};
    ghost use Rattle.rd_glyphs.specs.Characters.{PartValues};

    ghost Value = { PartValues };

    ghost view = { λ p. record {
      table = option_map (λ table. table.now) p.table;
      settings = p.settings.now;
      classes = p.classes.now;
      mirrors = p.mirrors.now;
    } };
}

impl<'a> Parts<'a> {
    ghost use Rattle.std.specs.Prelude.{◌≡◌, ◌≤◌, length, MatchOption, None, Some};
    ghost use Rattle.rd_glyphs.specs.Characters.{AreSoundParts, glyphs_for, slot_or, own_shown, own_looks};
    ghost use Rattle.rd_glyphs.specs.Looks.{list_of};

    /// The table holds glyph characters, and a tab has 1 to 32 columns. The call does nothing.
    pub fn parts_are_sound(&self)
        ensures { AreSoundParts self.now }
    {
        let settings = self.settings;
        let _tab_width = settings.tab_width;
        if let Some(table) = self.table {
            table.tables_are_valid();
        }
    }

    /// What the table puts for a code, and None where it puts nothing.
    pub(crate) fn glyphs_for(&self, code: u32) -> Option<&[Glyph]>
        ensures { MatchOption result (glyphs_for self.now.table code ≡ None) (λ text. glyphs_for self.now.table code ≡ Some text.now) }
    {
        self.table?.entry(code)
    }

    /// The glyph of a slot, and where the table has none this character of one column.
    pub fn slot(&self, slot: Slot, default: u32) -> Glyph
        ensures value { result ≡ slot_or slot self.now.table default }
        ensures columns { result.width ≡ 1 }
    {
        match self.table {
            Some(table) => match table.slot(slot) {
                Some(glyph) => glyph,
                None => Glyph::single(default, 1),
            },
            None => Glyph::single(default, 1),
        }
    }

    /// How a character is shown that no table shows and that is no tab.
    pub(crate) fn shown(&self, ch: Ch, odd: bool) -> Shown
        ensures { result ≡ own_shown self.now ch odd }
    {
        let class = self.classes.class(ch);
        let settings = self.settings;
        let upright = shown_as(settings.ctl_arrow, class, ch.code());
        mirrored(self.mirrors, odd, upright)
    }

    /// The looks of a character that no table shows and that is no tab.
    pub(crate) fn own_looks(&self, ch: Ch, odd: bool) -> Looks
        ensures value { list_of result ≡ own_looks self.now ch odd }
        ensures count { length (list_of result) ≤ 4 }
    {
        looks_of(
            self.slot(Slot::Escape, '\\' as u32),
            self.slot(Slot::Control, '^' as u32),
            self.shown(ch, odd),
        )
    }
}

/// The elements of a character, at an odd embedding level or not, in the order in which they stand from the reading edge. A
/// table's entry for its code comes first, whose elements are its glyphs. Else a tab is blanks up to the next stop. A control
/// character is the control slot and a letter where `ctl_arrow` is set, and else the escape slot and three octal digits, as
/// raw bytes and the codes 128 to 159 are. A character that only steers the order is one blank column. One of no columns is a
/// mark on a blank. Any other is itself in its columns, and at an odd level its mirror, where one of the same width is listed.
///
/// Each element is sound, and takes 1 to 3 columns or up to the next stop; each glyph has the columns that Unicode gives it,
/// and its marks have none. There are at most 16, and without an entry at most four, for which no memory is taken.
/// It costs a look at each entry of the table and the logarithms of the lengths of the data.
pub fn expand(
    alloc: Global,
    parts: &Parts,
    ch: Ch,
    odd: bool,
    face: Face,
    origin: Origin,
) -> Result<SmallVec<Element, 4>, Memory>
    ensures value { IfOk result (λ elements. elements.items ≡ elements_of parts.now ch odd face origin) }
    ensures sound { IfOk result (λ elements. AreSound elements.items) }
    ensures columns { IfOk result (λ elements. All (λ e. IsShort e.extent) elements.items) }
    ensures measured { IfOk result (λ elements. AreMeasured elements.items) }
    ensures count { IfOk result (λ elements. length elements.items ≤ ENTRY_GLYPHS) }
    ensures few { glyphs_for parts.now.table ch ≡ None → IfOk result (λ elements. length elements.items ≤ 4) }
    ensures inline { glyphs_for parts.now.table ch ≡ None → IsOk result }
{
    parts.parts_are_sound();
    let expansion = parts.expansion(alloc, ch, odd, face, origin)?;
    expansion.into_list(alloc)
}

/// The element of a look.
pub fn element_of(look: Look, face: Face, origin: Origin) -> Element
    ensures { result ≡ element_of face origin look }
{
    Element {
        extent: Extent::Fixed(look_columns(look) as u32),
        look,
        face,
        origin,
    }
}

/// The element of a tab, whose stops stand so many columns apart.
pub(crate) fn tab_element(stop: u8, face: Face, origin: Origin) -> Element
    ensures { result ≡ tab_of stop face origin }
{
    Element {
        extent: Extent::Tab(stop as u32),
        look: Look::Blank,
        face,
        origin,
    }
}

/// The elements of glyphs, as an entry of a table and an ellipsis have them.
pub fn of_glyphs(
    alloc: Global,
    text: &[Glyph],
    face: Face,
    origin: Origin,
) -> Result<SmallVec<Element, 4>, Memory>
    ensures { IfOk result (λ elements. elements.items ≡ glyph_elements face origin text.now) }
{
    made_of(
        alloc,
        text,
        |glyph| element_of(Look::Glyph(*glyph), face, origin),
    )
}

/// The elements of at most four looks.
pub(crate) fn of_looks(
    alloc: Global,
    looks: &[Look],
    face: Face,
    origin: Origin,
) -> Result<SmallVec<Element, 4>, Memory>
    requires { length looks.now ≤ 4 }
    ensures value { IfOk result (λ elements. elements.items ≡ map (element_of face origin) looks.now) }
    ensures inline { IsOk result }
{
    made_of(alloc, looks, |look| element_of(*look, face, origin))
}

/// The element that `make` makes of each item, in the order of the items. For at most four of them no memory is taken.
fn made_of<T, F: Fn(&T) -> Element>(
    alloc: Global,
    items: &[T],
    make: F,
) -> Result<SmallVec<Element, 4>, Memory>
    requires { F.IsAlwaysCallable make }
    ensures value { (made : T → Element) → ((x : Bor T) (e : Element) → F.post make x e → e ≡ made x.now) → IfOk result (λ elements. elements.items ≡ map made items.now) }
    ensures inline { length items.now ≤ 4 → IsOk result }
{
    let mut elements = SmallVec::new(alloc);
    for item in items {
        elements.push(make(item))?;
    }
    Ok(elements)
}
