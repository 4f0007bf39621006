//! The definitions on worked examples.
ghost use Rattle.std.specs.Prelude.{◌≡◌, true, false, None, Some, ◌∷◌, []};
ghost use Rattle.rd_base.specs.Faces.{plain};
ghost use Rattle.rd_base.specs.declared.settings.Invisible.TheVariants.{Every, Listed};
ghost use Rattle.rd_objects.specs.Things.{nothing_made};
ghost use Rattle.rd_props.specs.Faces.{face_at};
ghost use Rattle.rd_props.specs.Shown.{hidden};
ghost use Rattle.rd_props.specs.Strings.{strings_at};
ghost use Rattle.rd_props.specs.Seen.{seen_at, Agree};
ghost use Rattle.rd_props.specs.Edits.{with_more, with_less};
ghost use Rattle.rd_props.specs.declared.hiding.Hidden.TheVariants.{No, Plain, Ellipsis};
ghost use Rattle.rd_props.specs.Examples.{enclosed, three_characters, coloured, two_faces, meeting, partly_invisible, red};

/// A face of the text that an overlay's is laid over. A number that names no face is the plain one, and the face of the end is
/// plain.
fn faces_that_merge()
    ensures before { face_at (coloured 1) two_faces 1 ≡ red }
    ensures merged { face_at (coloured 1) two_faces 2 ≡ record red { bg = 2 } }
    ensures behind { face_at (coloured 1) two_faces 3 ≡ red }
    ensures end { face_at (coloured 1) two_faces 4 ≡ plain }
    ensures missing { face_at (coloured 9) two_faces 2 ≡ red }
{}

/// The order of the strings where five overlays meet, one of them empty.
fn strings_that_meet()
    ensures { strings_at (three_characters [] [] [] meeting) 2 ≡ 1 ∷ 0 ∷ 4 ∷ 5 ∷ 2 ∷ 3 ∷ [] }
{}

/// Which of three characters are hidden, where the first two have one atom and the second has a display spec.
fn atoms_that_hide()
    ensures every { hidden (partly_invisible Every) 1 ≡ Plain }
    ensures replaced { hidden (partly_invisible Every) 2 ≡ No }
    ensures without_atom { hidden (partly_invisible Every) 3 ≡ No }
    ensures listed { hidden (partly_invisible (Listed ((8, false) ∷ (7, true) ∷ (7, false) ∷ []))) 1 ≡ Ellipsis }
    ensures first_pair { hidden (partly_invisible (Listed ((7, false) ∷ (7, true) ∷ []))) 1 ≡ Plain }
    ensures not_listed { hidden (partly_invisible (Listed ((8, true) ∷ []))) 1 ≡ No }
{}

/// Before the third of three characters stands the after-string of an overlay on the second.
fn what_is_seen_of_three_characters()
    ensures character { (seen_at (enclosed false) nothing_made 3).character ≡ Some 99 }
    ensures strings { (seen_at (enclosed false) nothing_made 3).strings ≡ 5 ∷ [] }
    ensures end { (seen_at (enclosed false) nothing_made 4).character ≡ None }
{}

/// A character is put in where an overlay starts. The overlay's before-string stays at the place, so it no longer stands before the
/// character that it stood before: the position directly behind the new character is changed, and no other of the old ones.
fn a_string_stays_at_the_place_of_an_insertion()
    ensures before { Agree (enclosed false) nothing_made 1 (with_more (enclosed false) 2 (120 ∷ [])) nothing_made 1 }
    ensures old { strings_at (enclosed false) 2 ≡ 4 ∷ [] }
    ensures place { strings_at (with_more (enclosed false) 2 (120 ∷ [])) 2 ≡ 4 ∷ [] }
    ensures directly_behind { strings_at (with_more (enclosed false) 2 (120 ∷ [])) 3 ≡ [] }
    ensures behind { Agree (enclosed false) nothing_made 3 (with_more (enclosed false) 2 (120 ∷ [])) nothing_made 4 }
    ensures end { Agree (enclosed false) nothing_made 4 (with_more (enclosed false) 2 (120 ∷ [])) nothing_made 5 }
{}

/// Where the overlay's start moves with the new character, its before-string goes with it.
fn a_string_moves_with_an_insertion()
    ensures place { strings_at (with_more (enclosed true) 2 (120 ∷ [])) 2 ≡ [] }
    ensures directly_behind { Agree (enclosed true) nothing_made 2 (with_more (enclosed true) 2 (120 ∷ [])) nothing_made 3 }
{}

/// The character that an overlay covers is taken away. Both its strings then stand where it was, before the character behind it.
fn strings_meet_where_text_is_deleted()
    ensures before { Agree (enclosed false) nothing_made 1 (with_less (enclosed false) 2 3) nothing_made 1 }
    ensures place { strings_at (with_less (enclosed false) 2 3) 2 ≡ 4 ∷ 5 ∷ [] }
    ensures behind { Agree (enclosed false) nothing_made 4 (with_less (enclosed false) 2 3) nothing_made 3 }
{}
