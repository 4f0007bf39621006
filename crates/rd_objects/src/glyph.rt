//! Glyph characters: what display tables hold.
ghost use Rattle.std.specs.Prelude.{◌≡◌, ◌≤◌, ◌↔◌, IsNone, IfSome, IsTrue};
ghost use Rattle.rd_base.specs.Cells.{single};
ghost use Rattle.rd_objects.specs.Widths.{columns};
ghost use Rattle.rd_objects.specs.Tables.{is_control, is_glyph_character, has_no_glyph};

use rd_base::{Glyph, columns_of};

/// The columns of a scalar value in a terminal, by Unicode's widths with ambiguous characters narrow; 0 for a mark, and for a
/// number that is no scalar value. It costs a look into the tables of widths.
pub fn columns(code: u32) -> u8
    ensures value { result ≡ columns code }
    ensures bound { result ≤ 3 }
{
    columns_of(code).unwrap_or(0)
}

/// The glyph character of a scalar value: in its own columns and without marks. None exactly where the code is below 32 or from
/// 127 to 159, or has no columns. One of `width` 1 may stand in a slot. It costs a look into the tables of widths.
pub fn glyph_character(c: char) -> Option<Glyph>
    ensures none { IsNone result ↔ IsTrue (has_no_glyph c) }
    ensures some { IfSome result (λ g. (g ≡ single c (columns c)) × IsTrue (is_glyph_character g)) }
{
    let code = c as u32;
    let width = columns(code);
    if is_control(code) || width == 0 {
        return None;
    }
    Some(Glyph::single(code, width))
}

/// Whether this code is below 32, or from 127 to 159.
pub fn is_control(code: u32) -> bool
    ensures { result ≡ is_control code }
{
    code < 32 || 127 <= code && code <= 159
}
