//! Laws of terminals. The calls do nothing.
ghost use Rattle.std.specs.Prelude.{◌≡◌, ℕ, List, ◌++◌, true, false, ◌==◌, encode_utf8};
ghost use Rattle.rd_base.specs.Chars.{is_scalar, columns_of};
ghost use Rattle.rd_term.specs.Terminals.{Tty, feed_bytes, show};
ghost use Rattle.rd_term.specs.declared.reading.Reading.TheVariants.{Between};

/// However bytes are cut, what they do to a terminal is the same.
pub fn a_cut_makes_no_difference()
    ensures { (t : Tty) (xs ys : List ℕ) → feed_bytes t (xs ++ ys) ≡ feed_bytes (feed_bytes t xs) ys }
{}

/// The bytes of a character, but the escape, show it by its columns.
pub fn characters_are_read()
    ensures { (t : Tty) (code : ℕ) → t.confused ≡ false → t.reading ≡ Between → is_scalar code ≡ true → (code == 27) ≡ false
        → feed_bytes t (encode_utf8 code) ≡ show code (columns_of code) t }
{}
