//! What the levels and turns of lines always are.
ghost use Rattle.std.specs.Prelude.{◌≡◌, ℕ, ◌<◌, ◌==◌, Bool, true, List, [], ◌∷◌, ◌++◌, length, replicate, count_by};
ghost use Rattle.rd_base.specs.declared.class.Class.{Class};
ghost use Rattle.rd_base.specs.declared.class.Class.TheVariants.{B};
ghost use Rattle.rd_ucd.specs.declared.spans.BracketEntry.{BracketEntry};
ghost use Rattle.rd_levels.specs.Levels.{are_leveled, line_levels};
ghost use Rattle.rd_levels.specs.Turns.{turns_of, ComesLast};

/// A line at base 0 whose classes are all L, EN, ES, ET, CS, NSM, BN, B, S, WS or ON has all levels 0, whatever brackets are listed. The
/// call does nothing.
pub fn lines_read_from_the_left()
    ensures { (entries : List BracketEntry) (classes : List Class) (codes : List ℕ) → are_leveled classes ≡ true → line_levels entries 0 classes codes ≡ replicate (length classes) 0 }
{}

/// A line has as many levels as places. The call does nothing.
pub fn lines_have_a_level_each()
    ensures { (entries : List BracketEntry) (base : ℕ) (classes : List Class) (codes : List ℕ) → length (line_levels entries base classes codes) ≡ length classes }
{}

/// A separator of paragraphs at the end of a line, as the ender of a block is, comes last in visual order. The call does nothing.
pub fn enders_come_last()
    ensures { (entries : List BracketEntry) (reorder : Bool) (base : ℕ) (classes : List Class) (codes : List ℕ) → ComesLast (turns_of entries reorder base (classes ++ B ∷ []) codes) (length classes) }
{}

/// Each place of a line, counted from 0, comes exactly once in the line's visual order. The call does nothing.
pub fn each_place_has_one_turn()
    ensures { (entries : List BracketEntry) (reorder : Bool) (base : ℕ) (classes : List Class) (codes : List ℕ) (place : ℕ)
        → place < length classes → count_by (λ t. place == t.index) (turns_of entries reorder base classes codes) ≡ 1 }
{}
