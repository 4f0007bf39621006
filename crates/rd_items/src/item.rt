//! What an item is.
ghost use Rattle.std.specs.Prelude.{◌≡◌};

use rd_base::{Ch, Class, Face, Glyph};
use rd_objects::Spec;

/// The code of what is no bracket.
const UNLISTED: u32 = u32::MAX;

/// What an item shows.
#[derive(Clone, Copy, Debug, PartialEq, Eq)]
pub enum ItemKind {
    /// A character that no mark has joined.
    Char(Ch),
    /// A character with the marks that joined it, or a mark on a blank with others.
    Marked(Glyph),
    /// The string of a number: an overlay's, or that of a display spec.
    Text(u32),
    /// The space of a display spec.
    Space(Spec),
    /// The ellipsis of hidden text.
    Ellipsis,
    /// The newline that ends the block, or the end of the accessible text.
    Ender,
}

impl ItemKind {
    ghost use Rattle.std.specs.Prelude.{◌≡◌};
    ghost use Rattle.rd_items.specs.Items.{bracket_code};

    /// The code by which an item of this kind may be a bracket: that of its character, or of the base of its marks; and
    /// `u32::MAX`, which is none, where it shows no character.
    pub fn bracket_code(&self) -> u32
        ensures { result ≡ bracket_code self.now }
    {
        match self {
            ItemKind::Char(ch) => ch.code(),
            ItemKind::Marked(glyph) => glyph.base,
            _ => UNLISTED,
        }
    }
}

/// An item of a line. It covers the positions at the offsets from `from` to `to - 1` in its block; an overlay's string, and one
/// that shows no element, covers none. Its face is the buffer's at the position that it stands at, which is its character's own,
/// or the first of the text that it is shown for. It is an `overlay` exactly where it is an overlay's string.
#[derive(Clone, Copy, Debug, PartialEq, Eq)]
pub struct Item {
    pub class: Class,
    pub kind: ItemKind,
    pub face: Face,
    pub overlay: bool,
    pub from: u32,
    pub to: u32,
}
