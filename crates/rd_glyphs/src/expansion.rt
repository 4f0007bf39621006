//! What a character expands to, before a list is made of it.

use crate::looks::Looks;
use crate::parts::{Parts, element_of, of_glyphs, of_looks, tab_element};
use rd_base::{Ch, Element, Face, Memory, Origin};
use smallvec::SmallVec;
use std::alloc::Global;

/// What a character expands to: one element, for which no list is made, or a list.
#[derive(Drop)]
pub enum Expansion {
    One(Element),
    Several(SmallVec<Element, 4>),
}

impl Expansion {
    ghost use Rattle.std.specs.Prelude.{◌≡◌, IsOk, IfOk};
    ghost use Rattle.rd_glyphs.specs.Looks.{expanded};

    /// The list of it, for which no memory is taken.
    pub(crate) fn into_list(self, alloc: Global) -> Result<SmallVec<Element, 4>, Memory>
        ensures value { IfOk result (λ elements. elements.items ≡ expanded self) }
        ensures inline { IsOk result }
    {
        match self {
            Expansion::One(element) => Ok(SmallVec::from_slice(alloc, &[element])?),
            Expansion::Several(elements) => Ok(elements),
        }
    }
}

impl<'a> Parts<'a> {
    ghost use Rattle.std.specs.Prelude.{◌≡◌, None, IsOk, IfOk};
    ghost use Rattle.rd_glyphs.specs.Characters.{elements_of, glyphs_for};
    ghost use Rattle.rd_glyphs.specs.Looks.{expanded};

    /// What a character expands to, at an odd embedding level or not: the elements that `expand` lists, with its costs. Where no table's
    /// entry shows it, a tab or a character of one look is one element, and for it no list is made.
    pub fn expansion(
        &self,
        alloc: Global,
        ch: Ch,
        odd: bool,
        face: Face,
        origin: Origin,
    ) -> Result<Expansion, Memory>
        ensures value { IfOk result (λ expansion. expanded expansion ≡ elements_of self.now ch odd face origin) }
        ensures inline { glyphs_for self.now.table ch ≡ None → IsOk result }
    {
        if let Some(text) = self.glyphs_for(ch.code()) {
            return Ok(Expansion::Several(of_glyphs(alloc, text, face, origin)?));
        }
        if ch.code() == 9 {
            let settings = self.settings;
            return Ok(Expansion::One(tab_element(settings.tab_width, face, origin)));
        }
        let looks = self.own_looks(ch, odd);
        if let Looks::One(look) = &looks {
            return Ok(Expansion::One(element_of(*look, face, origin)));
        }
        Ok(Expansion::Several(of_looks(alloc, looks.as_slice(), face, origin)?))
    }
}
