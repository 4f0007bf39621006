//! Worked examples. They have no body: what they promise is computed from the definitions.
ghost use Rattle.std.specs.Prelude.{◌≡◌, ◌∷◌, [], false};
ghost use Rattle.rd_base.specs.Faces.{plain};
ghost use Rattle.rd_base.specs.declared.class.Class.TheVariants.{L, S, ON, NSM};
ghost use Rattle.rd_base.specs.declared.settings.Invisible.TheVariants.{Every, Listed};
ghost use Rattle.rd_objects.specs.Things.{nothing_made};
ghost use Rattle.rd_objects.specs.declared.run.Spec.TheVariants.{Width};
ghost use Rattle.rd_props.specs.Examples.{three_characters, put_once, meeting, coloured, red, two_faces};
ghost use Rattle.rd_items.specs.declared.item.ItemKind.TheVariants.{Marked, Text, Space, Ellipsis};
ghost use Rattle.rd_base.specs.Cells.{single, with_mark};
ghost use Rattle.rd_items.specs.Blocks.{blocks_of};
ghost use Rattle.rd_items.specs.Pieces.{string_piece};
ghost use Rattle.rd_items.specs.Examples.{items_at, no_columns, two_strings, two_characters, around_the_second, with_ellipsis, folded, an_e, a_grave, items_of_pieces, string, letter, ender};

/// Five overlays meet between two characters, one of them empty.
fn strings_where_overlays_meet()
    ensures { items_at (two_characters meeting) nothing_made 1 ≡ letter 0 120 ∷ string 1 1 ∷ string 1 0 ∷ string 1 4 ∷ string 1 5 ∷ string 1 2 ∷ string 1 3 ∷ letter 1 121 ∷ ender 2 3 ∷ [] }
{}

/// An overlay's strings stand at both ends of its text.
fn strings_at_both_ends()
    ensures { items_at (two_characters around_the_second) nothing_made 1 ≡ letter 0 120 ∷ string 1 0 ∷ letter 1 121 ∷ string 2 1 ∷ ender 2 3 ∷ [] }
{}

/// Three characters that are hidden without an ellipsis hand their range to the ender, and two that are hidden with one have one
/// ellipsis.
fn hidden_text()
    ensures without { items_at (three_characters [] [] (put_once 1 4 7) []) nothing_made 1 ≡ ender 0 4 ∷ [] }
    ensures with { items_at with_ellipsis nothing_made 1 ≡ letter 0 97 ∷ record { class = ON; kind = Ellipsis; face = plain; overlay = false; from = 1; to = 3 } ∷ ender 3 4 ∷ [] }
{}

/// One space of no columns replaces three characters, and one string two of them; an empty string hands its range on.
fn replaced_text()
    ensures space { items_at (three_characters [] (put_once 1 4 0) [] []) no_columns 1 ≡ record { class = S; kind = Space (Width 0); face = plain; overlay = false; from = 0; to = 3 } ∷ ender 3 4 ∷ [] }
    ensures string { items_at (three_characters [] (put_once 1 3 0) [] []) two_strings 1 ≡ record { class = ON; kind = Text 0; face = plain; overlay = false; from = 0; to = 2 } ∷ letter 2 99 ∷ ender 3 4 ∷ [] }
    ensures empty { items_at (three_characters [] (put_once 1 3 1) [] []) two_strings 1 ≡ record { class = ON; kind = Text 1; face = plain; overlay = false; from = 0; to = 0 } ∷ record (letter 2 99) { from = 0 } ∷ ender 3 4 ∷ [] }
{}

/// A mark joins the character before it, but not across an overlay's string.
fn marks_that_join()
    ensures joins { items_of_pieces (an_e ∷ a_grave ∷ []) ≡ record { class = L; kind = Marked (with_mark (single 101 1) 768); face = plain; overlay = false; from = 0; to = 2 } ∷ [] }
    ensures across { items_of_pieces (an_e ∷ string_piece 1 plain 0 ∷ a_grave ∷ []) ≡ letter 0 101 ∷ string 1 0 ∷ record (letter 1 768) { class = NSM } ∷ [] }
{}

/// Each item has the face of the position that it stands at.
fn faces_of_items()
    ensures { items_at (coloured 1) two_faces 1 ≡ record (letter 0 97) { face = red } ∷ record (letter 1 98) { face = record red { bg = 2 } } ∷ record (letter 2 99) { face = red } ∷ ender 3 4 ∷ [] }
{}

/// A newline that is not hidden cuts two lines into two blocks, and one that is hidden leaves one block.
fn blocks_of_two_lines()
    ensures cut { blocks_of (folded (Listed [])) ≡ (1, 3) ∷ (3, 5) ∷ [] }
    ensures whole { blocks_of (folded Every) ≡ (1, 5) ∷ [] }
    ensures first { items_at (folded (Listed [])) nothing_made 1 ≡ letter 0 97 ∷ ender 1 2 ∷ [] }
    ensures second { items_at (folded (Listed [])) nothing_made 3 ≡ letter 0 98 ∷ ender 1 2 ∷ [] }
    ensures one { items_at (folded Every) nothing_made 1 ≡ letter 0 97 ∷ record (letter 2 98) { from = 1 } ∷ ender 3 4 ∷ [] }
{}
