//! How characters stand towards marks.
ghost use Rattle.std.specs.Prelude.{◌≡◌, None};
ghost use Rattle.rd_glyphs.specs.MarkRoles.{mark_role_by};
ghost use Rattle.rd_glyphs.specs.Marks.{marked_glyph};

use crate::looks::on_blank;
use crate::parts::Parts;
use crate::shown::{Shown, shown_as};
use rd_base::{Ch, Glyph};

/// How a character stands towards marks that join glyphs. A character that a display table shows joins no mark, nor is it one.
#[derive(Clone, Copy, Debug, PartialEq, Eq)]
pub enum MarkRole {
    /// The table shows nothing for the character, so it has no element.
    Empty,
    /// No mark joins the character.
    Alone,
    /// The character is shown itself, as this glyph, which marks may join.
    Base(Glyph),
    /// The character is a mark, which stands on a blank where it joins nothing.
    Mark(u32),
}

impl MarkRole {
    ghost use Rattle.std.specs.Prelude.{◌≡◌};
    ghost use Rattle.rd_glyphs.specs.MarkRoles.{base_of, mark_of};

    /// The glyph that marks may join: the character, or the blank that it stands on as a mark.
    pub fn base(self) -> Option<Glyph>
        ensures { result ≡ base_of self }
    {
        match self {
            MarkRole::Base(glyph) => Some(glyph),
            MarkRole::Mark(code) => Some(on_blank(code)),
            _ => None,
        }
    }

    /// The mark that a character is.
    pub fn mark(self) -> Option<u32>
        ensures { result ≡ mark_of self }
    {
        match self {
            MarkRole::Mark(code) => Some(code),
            _ => None,
        }
    }
}

/// The glyph that a mark joins, with the mark, where it joins it.
pub fn marked_glyph(base: Option<Glyph>, mark: Option<u32>) -> Option<Glyph>
    ensures { result ≡ marked_glyph base mark }
{
    match (base, mark) {
        (Some(glyph), Some(code)) => glyph.joined(code),
        _ => None,
    }
}

impl<'a> Parts<'a> {
    ghost use Rattle.std.specs.Prelude.{◌≡◌};
    ghost use Rattle.rd_glyphs.specs.Characters.{glyphs_for};
    ghost use Rattle.rd_glyphs.specs.MarkRoles.{is_empty_entry, mark_role_of, IsMeasuredRole};

    /// Whether a table shows nothing for a character, so that it has no element. It costs a look at each entry of the table.
    pub fn is_empty(&self, ch: Ch) -> bool
        ensures { result ≡ is_empty_entry (glyphs_for self.now.table ch) }
    {
        match self.glyphs_for(ch.code()) {
            Some(text) => text.is_empty(),
            None => false,
        }
    }

    /// How a character stands towards marks. It costs a look at each entry of the table and the logarithms of the lengths of the
    /// data.
    pub fn mark_role(&self, ch: Ch) -> MarkRole
        ensures value { result ≡ mark_role_of self.now ch }
        ensures measured { IsMeasuredRole result }
    {
        if let Some(text) = self.glyphs_for(ch.code()) {
            return if text.is_empty() {
                MarkRole::Empty
            } else {
                MarkRole::Alone
            };
        }
        let settings = self.settings;
        mark_role_of_shown(shown_as(settings.ctl_arrow, self.classes.class(ch), ch.code()))
    }
}

/// How a character that no table shows stands towards marks.
fn mark_role_of_shown(shown: Shown) -> MarkRole
    ensures { result ≡ mark_role_by None shown }
{
    match shown {
        Shown::Itself(code, width) => MarkRole::Base(Glyph::single(code, width)),
        Shown::Mark(code) => MarkRole::Mark(code),
        _ => MarkRole::Alone,
    }
}
