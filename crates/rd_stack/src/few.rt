//! A few elements that are given in turn.
ghost use Rattle.std.specs.Prelude.{◌≡◌};

use rd_base::{Element, Face, Glyph, Memory, Origin};
use rd_glyphs::of_glyphs;
use smallvec::SmallVec;
use std::alloc::Global;
use std::marker::Model;

/// A few elements that are given one at a time. Contracts see those that are left.
#[derive(Drop)]
pub struct Few {
    elements: SmallVec<Element, 4>,
    given: usize,
}

impl Model for Few {
    ghost use Rattle.std.specs.Prelude.{List, drop};
    ghost use Rattle.rd_base.specs.declared.element.Element.{Element};

    ghost Value = { List Element };

    ghost view = { λ few. drop few.given few.elements.items };
}

impl Few {
    ghost use Rattle.std.specs.Prelude.{◌≡◌, ◌∷◌, [], MatchOption, OnOk};
    ghost use Rattle.rd_glyphs.specs.Characters.{glyph_elements};

    /// No elements.
    pub fn none(alloc: Global) -> Few
        ensures { result ≡ [] }
    {
        Few {
            elements: SmallVec::new(alloc),
            given: 0,
        }
    }

    /// Becomes these elements.
    pub fn put(&mut self, elements: SmallVec<Element, 4>)
        ensures { self.new ≡ elements.items }
    {
        self.elements = elements;
        self.given = 0;
    }

    /// Becomes the elements of glyphs.
    pub fn put_glyphs(
        &mut self,
        alloc: Global,
        text: &[Glyph],
        face: Face,
        origin: Origin,
    ) -> Result<(), Memory>
        ensures { OnOk result (self.new ≡ glyph_elements face origin text.now) }
    {
        self.put(of_glyphs(alloc, text, face, origin)?);
        Ok(())
    }

    /// The next element, and None exactly where none is left.
    pub fn next(&mut self) -> Option<Element>
        ensures { MatchOption result ((self.old ≡ []) × (self.new ≡ [])) (λ e. self.old ≡ e ∷ self.new) }
    {
        let elements = self.elements.as_slice();
        if self.given >= elements.len() {
            return None;
        }
        let element = elements[self.given];
        self.given += 1;
        Some(element)
    }
}
