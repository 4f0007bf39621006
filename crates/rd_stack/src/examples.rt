//! The definitions on worked examples.
ghost use Rattle.std.specs.Prelude.{◌≡◌, ◌∷◌, [], true};
ghost use Rattle.rd_base.specs.declared.element.Extent.TheVariants.{Fixed, Column};
ghost use Rattle.rd_base.specs.declared.element.Look.TheVariants.{RowEnd, LineEnd};
ghost use Rattle.rd_base.specs.declared.settings.Invisible.TheVariants.{Every, Listed};
ghost use Rattle.rd_props.specs.Examples.{put_once, meeting, red};
ghost use Rattle.rd_items.specs.Examples.{no_columns};
ghost use Rattle.rd_stack.specs.Shown.{prefix};
ghost use Rattle.rd_stack.specs.Examples.{plain_look, letter, stretch, buffer, coloured, outside_letter, six_strings, nested_strings, string_before, coloured_strings, arrow, scene, line_at, paired_line_at};

/// A line where five overlays with strings meet between two characters. The call does nothing.
fn line_where_overlays_meet()
    ensures { let s = buffer (120 ∷ 121 ∷ []) [] meeting Every in line_at s six_strings 0 1 ≡ letter 120 0 0 1 ∷ letter 66 1 1 1 ∷ letter 65 2 1 1 ∷ letter 69 3 1 1 ∷ letter 70 4 1 1 ∷ letter 67 5 1 1 ∷ letter 68 6 1 1 ∷ letter 121 7 1 2 ∷ plain_look LineEnd 8 2 3 ∷ [] }
{}

/// A line with an overlay's string of two rows, in which a display string stands for a character; and the same string as a display
/// string, whose own display run is not used. The call does nothing.
fn line_with_nested_strings()
    ensures overlay { let s = buffer (120 ∷ 121 ∷ []) [] string_before Every in line_at s nested_strings 0 1 ≡ letter 120 0 0 1 ∷ letter 80 1 1 1 ∷ letter 122 1 1 1 ∷ letter 122 1 1 1 ∷ plain_look RowEnd 1 1 1 ∷ letter 82 1 1 1 ∷ letter 121 2 1 2 ∷ plain_look LineEnd 3 2 3 ∷ [] }
    ensures display { let s = buffer (120 ∷ 121 ∷ []) ([] ∷ put_once 2 3 1 ∷ []) [] Every in line_at s nested_strings 0 1 ≡ letter 120 0 0 1 ∷ letter 80 1 1 2 ∷ letter 81 1 1 2 ∷ plain_look RowEnd 1 1 2 ∷ letter 82 1 1 2 ∷ plain_look LineEnd 2 2 3 ∷ [] }
    ensures right { let s = buffer (120 ∷ []) ([] ∷ put_once 1 2 1 ∷ []) [] Every in line_at s nested_strings 1 1 ≡ letter 81 0 0 1 ∷ letter 80 0 0 1 ∷ plain_look RowEnd 0 0 1 ∷ letter 82 0 0 1 ∷ plain_look LineEnd 1 1 2 ∷ [] }
{}

/// Lines with a stretch up to a column, behind three characters and behind nine, which have passed it. The call does nothing.
fn line_with_a_stretch()
    ensures short { let s = buffer (97 ∷ 98 ∷ 99 ∷ 45 ∷ 100 ∷ []) ([] ∷ put_once 4 5 2 ∷ []) [] Every in line_at s nested_strings 0 1 ≡ letter 97 0 0 1 ∷ letter 98 1 1 2 ∷ letter 99 2 2 3 ∷ stretch (Column 8) 3 3 4 ∷ letter 100 4 4 5 ∷ plain_look LineEnd 5 5 6 ∷ [] }
    ensures passed { let s = buffer (97 ∷ 98 ∷ 99 ∷ 100 ∷ 101 ∷ 102 ∷ 103 ∷ 104 ∷ 105 ∷ 45 ∷ 106 ∷ []) ([] ∷ put_once 10 11 2 ∷ []) [] Every in line_at s nested_strings 0 1 ≡ letter 97 0 0 1 ∷ letter 98 1 1 2 ∷ letter 99 2 2 3 ∷ letter 100 3 3 4 ∷ letter 101 4 4 5 ∷ letter 102 5 5 6 ∷ letter 103 6 6 7 ∷ letter 104 7 7 8 ∷ letter 105 8 8 9 ∷ stretch (Column 8) 9 9 10 ∷ letter 106 10 10 11 ∷ plain_look LineEnd 11 11 12 ∷ [] }
{}

/// A line whose three characters are replaced by a space of no columns, which stands as one blank element. The call does nothing.
fn line_of_a_space_of_no_columns()
    ensures { let s = buffer (97 ∷ 98 ∷ 99 ∷ []) ([] ∷ put_once 1 4 0 ∷ []) [] Every in line_at s no_columns 0 1 ≡ stretch (Fixed 0) 0 0 3 ∷ plain_look LineEnd 1 3 4 ∷ [] }
{}

/// Lines with hidden text, with an ellipsis and without. The call does nothing.
fn lines_of_hidden_text()
    ensures ellipsis { let s = buffer (97 ∷ 98 ∷ 10 ∷ 99 ∷ 100 ∷ []) ([] ∷ [] ∷ put_once 2 5 1 ∷ []) [] (Listed ((1, true) ∷ [])) in line_at s six_strings 0 1 ≡ letter 97 0 0 1 ∷ letter 46 1 1 4 ∷ letter 46 1 1 4 ∷ letter 46 1 1 4 ∷ letter 100 2 4 5 ∷ plain_look LineEnd 3 5 6 ∷ [] }
    ensures nothing { let s = buffer (97 ∷ 98 ∷ 10 ∷ 99 ∷ 100 ∷ []) ([] ∷ [] ∷ put_once 2 5 1 ∷ []) [] Every in line_at s six_strings 0 1 ≡ letter 97 0 0 1 ∷ letter 100 1 1 5 ∷ plain_look LineEnd 2 5 6 ∷ [] }
    ensures shown { let s = buffer (97 ∷ 98 ∷ 10 ∷ 99 ∷ 100 ∷ []) ([] ∷ [] ∷ put_once 2 5 1 ∷ []) [] (Listed []) in line_at s six_strings 0 1 ≡ letter 97 0 0 1 ∷ letter 98 1 1 2 ∷ plain_look LineEnd 2 2 3 ∷ [] }
{}

/// Lines with letters that are read from the right and a bracket among them, in visual order from the reading edge at both bases. The
/// bracket is mirrored at an odd level alone. The call does nothing.
fn lines_in_visual_order()
    ensures left { let s = buffer (97 ∷ 32 ∷ 114 ∷ 40 ∷ 116 ∷ 32 ∷ 98 ∷ []) [] [] Every in line_at s six_strings 0 1 ≡ letter 97 0 0 1 ∷ letter 32 1 1 2 ∷ letter 116 4 4 5 ∷ letter 41 3 3 4 ∷ letter 114 2 2 3 ∷ letter 32 5 5 6 ∷ letter 98 6 6 7 ∷ plain_look LineEnd 7 7 8 ∷ [] }
    ensures right { let s = buffer (114 ∷ 32 ∷ 97 ∷ 40 ∷ 98 ∷ []) [] [] Every in line_at s six_strings 1 1 ≡ letter 114 0 0 1 ∷ letter 32 1 1 2 ∷ letter 98 4 4 5 ∷ letter 40 3 3 4 ∷ letter 97 2 2 3 ∷ plain_look LineEnd 5 5 6 ∷ [] }
{}

/// Brackets around letters that are read from the right, behind one that is read from the left: where no pair is known the closing
/// bracket goes with the letters on both sides, and where they are a pair both stand with the line. The call does nothing.
fn lines_with_brackets()
    ensures unpaired { let s = buffer (97 ∷ 40 ∷ 114 ∷ 41 ∷ 32 ∷ 116 ∷ []) [] [] Every in line_at s six_strings 0 1 ≡ letter 97 0 0 1 ∷ letter 40 1 1 2 ∷ letter 116 5 5 6 ∷ letter 32 4 4 5 ∷ letter 41 3 3 4 ∷ letter 114 2 2 3 ∷ plain_look LineEnd 6 6 7 ∷ [] }
    ensures paired { let s = buffer (97 ∷ 40 ∷ 114 ∷ 41 ∷ 32 ∷ 116 ∷ []) [] [] Every in paired_line_at s six_strings 0 1 ≡ letter 97 0 0 1 ∷ letter 40 1 1 2 ∷ letter 114 2 2 3 ∷ letter 41 3 3 4 ∷ letter 32 4 4 5 ∷ letter 116 5 5 6 ∷ plain_look LineEnd 6 6 7 ∷ [] }
{}

/// The faces of strings, one inside the other, over the face of the position where they stand, and that of an ellipsis. The call
/// does nothing.
fn faces_of_strings_and_ellipses()
    ensures strings { let s = buffer (120 ∷ 121 ∷ []) (put_once 2 3 0 ∷ []) string_before Every in line_at s coloured_strings 0 1 ≡ letter 120 0 0 1 ∷ coloured (record red { bg = 2 }) 80 1 1 1 ∷ coloured (record red { bg = 2; bold = true }) 122 1 1 1 ∷ coloured red 121 2 1 2 ∷ plain_look LineEnd 3 2 3 ∷ [] }
    ensures ellipsis { let s = buffer (120 ∷ 121 ∷ []) (put_once 2 3 0 ∷ [] ∷ put_once 2 3 1 ∷ []) [] (Listed ((1, true) ∷ [])) in line_at s coloured_strings 0 1 ≡ letter 120 0 0 1 ∷ coloured red 46 1 1 2 ∷ coloured red 46 1 1 2 ∷ coloured red 46 1 1 2 ∷ plain_look LineEnd 2 2 3 ∷ [] }
{}

/// A prefix up to its first newline, and one of a number that names no string. The call does nothing.
fn prefixes_of_one_row()
    ensures row { let s = buffer [] [] [] Every in prefix (scene s arrow) 0 0 ≡ outside_letter 62 ∷ outside_letter 32 ∷ [] }
    ensures missing { let s = buffer [] [] [] Every in prefix (scene s arrow) 0 7 ≡ [] }
{}
