//! Where a line of blanks alone begins.
ghost use Rattle.std.specs.Prelude.{◌≡◌, ℕ, ◌-◌, ◌<◌, ◌≤◌, ◌&&◌, ◌||◌, ◌++◌, ◌∷◌, true, false, List, length, drop, slice_index};
ghost use Rattle.rd_text.specs.Texts.{is_newline};
ghost use Rattle.rd_text.specs.Stretches.{opens, closes, separated};

use crate::stretch::{NEWLINE, is_blank};

/// The place behind the last newline with blanks alone between it and the next one. `opened` says whether what stands behind the
/// codes begins with blanks and a newline.
pub(crate) fn last_opening(codes: &[u32], opened: bool) -> usize
    requires { (separated codes.now || (closes codes.now && opened)) ≡ true }
    ensures some { 0 < result }
    ensures bound { result ≤ length codes.now }
    ensures newline { is_newline (slice_index codes.now (result - 1)) ≡ true }
    ensures opens { (rest : List ℕ) → opens rest ≡ opened → opens (drop result codes.now ++ rest) ≡ true }
    ensures clear { (rest : List ℕ) → opens rest ≡ opened → separated rest ≡ false → separated (drop result codes.now ++ rest) ≡ false }
{
    let mut at = codes.len();
    let mut follows = opened;
    while 0 < at {
        if starts_line(codes[at - 1], follows) {
            return at;
        }
        follows = opens_before(codes[at - 1], follows);
        at -= 1;
    }
    at
}

/// Whether a code is a newline with blanks and a newline behind it.
fn starts_line(code: u32, opened: bool) -> bool
    ensures { result ≡ (is_newline code && opened) }
{
    code == NEWLINE && opened
}

/// Whether a code and what stands behind it begin with blanks and a newline.
fn opens_before(code: u32, opened: bool) -> bool
    ensures { (rest : List ℕ) → opens rest ≡ opened → opens (code ∷ rest) ≡ result }
{
    code == NEWLINE || (is_blank(code) && opened)
}
