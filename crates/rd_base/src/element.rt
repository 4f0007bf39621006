//! The elements of a line, and where they come from one at a time.
ghost use Rattle.rd_base.specs.Elements.{Takes};

use crate::cell::Glyph;
use crate::face::Face;
use crate::memory::Memory;
use std::alloc::Global;

/// How many columns an element takes: a number of them, those up to the next stop of a tab, or those up to a column.
#[derive(Clone, Copy, Debug, PartialEq, Eq)]
pub enum Extent {
    Fixed(u32),
    Tab(u32),
    Column(u32),
}

/// What an element shows: blanks, a glyph, or nothing, where it ends a row or a whole line.
#[derive(Clone, Copy, Debug, PartialEq, Eq)]
pub enum Look {
    Blank,
    Glyph(Glyph),
    RowEnd,
    LineEnd,
}

/// An item's number in its block, and the range that it covers as offsets from the block's start, `to` not included. In a
/// prefix the item is `u32::MAX` and both offsets are 0.
#[derive(Clone, Copy, Debug, PartialEq, Eq)]
pub struct Origin {
    pub item: u32,
    pub from: u32,
    pub to: u32,
}

/// A piece of a line that is placed whole: a glyph, a stretch of blanks, the end of a row or of the line.
#[derive(Clone, Copy, Debug, PartialEq, Eq)]
pub struct Element {
    pub extent: Extent,
    pub look: Look,
    pub face: Face,
    pub origin: Origin,
}

/// A blank of no columns in the plain face, of the first item.
impl Default for Element {
    fn default() -> Element {
        Element {
            extent: Extent::Fixed(0),
            look: Look::Blank,
            face: Face::PLAIN,
            origin: Origin {
                item: 0,
                from: 0,
                to: 0,
            },
        }
    }
}

/// Elements that are given one at a time.
pub trait Elements {
    ghost use Rattle.std.specs.Prelude.{List};
    ghost use Rattle.rd_base.specs.declared.element.Element.{Element};

    // the elements that are left
    ghost left: { Self → List Element };

    /// Takes the next element, and None exactly where none is left. After want of memory nothing is known of what is left.
    fn next(&mut self, alloc: Global) -> Result<Option<Element>, Memory>
        ensures { Takes result (left self.old) (left self.new) };
}
