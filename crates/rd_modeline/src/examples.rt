//! The definitions on worked examples.
ghost use Rattle.std.specs.Prelude.{◌≡◌, ◌∷◌, [], codes, Ok, Err};
ghost use Rattle.rd_modeline.specs.declared.piece.Field.TheVariants.{Name, Line};
ghost use Rattle.rd_modeline.specs.declared.piece.Piece.TheVariants.{Literal, Value, Dashes};
ghost use Rattle.rd_modeline.specs.Formats.{pieces_of};
ghost use Rattle.rd_modeline.specs.Values.{FactValues, share};
ghost use Rattle.rd_modeline.specs.Lines.{line_text};

/// A name, a line in five columns and dashes; and where a format is bad: a letter that is no code, four digits, a width before
/// dashes, and a percent sign at the end.
fn formats_are_read()
    ensures good { pieces_of (codes "%5l|%-") ≡ Ok (Value Line 5 ∷ Literal 124 ∷ Dashes ∷ []) }
    ensures sign { pieces_of (codes "%%%b") ≡ Ok (Literal 37 ∷ Value Name 0 ∷ []) }
    ensures letter { pieces_of (codes "a%q") ≡ Err 1 }
    ensures digits { pieces_of (codes "%0005l") ≡ Err 0 }
    ensures dashes { pieces_of (codes "%%%5-") ≡ Err 2 }
    ensures end { pieces_of (codes "ab%12") ≡ Err 2 }
{}

/// The fourth line of eleven characters, four of which stand above the view.
fn values_are_told()
    ensures share { share 4 15 ≡ 27 }
    ensures none { share 0 0 ≡ 0 }
    ensures most { share 1000 1000 ≡ 99 }
    ensures line { (f : FactValues) → line_text [] (record f { line = 12 }) 10 (Value Line 5 ∷ Literal 124 ∷ Dashes ∷ []) ≡ codes "   12|----------" }
{}
