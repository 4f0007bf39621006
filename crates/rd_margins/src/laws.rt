//! What holds of all margins.
ghost use Rattle.std.specs.Prelude.{ℕ, ◌+◌, ◌^◌, ◌<◌, ◌≡◌, IsTrue, List, All, Option, None, Some};
ghost use Rattle.std.specs.FinMap.{get};
ghost use Rattle.rd_base.specs.Chars.{is_code};
ghost use Rattle.rd_ucd.specs.declared.spans.Span.{Span};
ghost use Rattle.rd_margins.specs.declared.rows.Widths.{Widths};
ghost use Rattle.rd_overlays.specs.declared.overlay.Overlay.{Overlay};
ghost use Rattle.rd_overlays.specs.Values.{Gives, IsGreatest};
ghost use Rattle.rd_margins.specs.Cells.{IsMargin, row_margin};
ghost use Rattle.rd_margins.specs.Marks.{MarkValues, margin_string};

use rd_glyphs::plain_lines_are_whole;
use rd_overlays::last_values_are_the_greatest_overlays;

/// The margins beside a row have exactly their columns. In them each glyph stands whole, and each colour is in its range. The call
/// does nothing.
pub fn margins_are_whole()
    ensures { (classes : List Span) (widths : Widths) (row line : ℕ) (text : List ℕ) → line < 2 ^ 64 → All (λ c. IsTrue (is_code c)) text → IsMargin (widths.numbers + widths.strings) (row_margin classes widths row line text) }
{
    plain_lines_are_whole();
}

/// The margin string at a position is that of an overlay which covers the position, has a margin string, and which comes behind all
/// other such overlays, by priority and where these are equal by number. Where there is no such overlay there is no string. The call
/// does nothing.
pub fn margin_strings_are_the_greatest_overlays()
    ensures some { (marks : MarkValues) (slots : List (Option Overlay)) (pos string : ℕ) → margin_string marks slots pos ≡ Some string
        → (number : ℕ) × (overlay : Overlay) × IsGreatest (get marks) slots pos number overlay string }
    ensures none { (marks : MarkValues) (slots : List (Option Overlay)) (pos number string : ℕ) (overlay : Overlay) → margin_string marks slots pos ≡ None → Gives (get marks) slots pos number overlay string → ⊥ }
{
    last_values_are_the_greatest_overlays();
}
