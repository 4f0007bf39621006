//! What holds of all lines, proved of the definitions.
ghost use Rattle.std.specs.Prelude.{◌≡◌, ◌≤◌, ◌<◌, ◌*◌, ◌^◌, ℕ, List, length, All, true};
ghost use Rattle.rd_base.specs.declared.limits.TheConstants.{OVERLAYS, TAB_COLUMNS};
ghost use Rattle.rd_base.specs.Cells.{HasColours};
ghost use Rattle.rd_base.specs.Elements.{AreSound, columns_at_most, ends_once};
ghost use Rattle.rd_base.specs.Glyphs.{AreMeasured};
ghost use Rattle.rd_base.specs.Settings.{SettingValues};
ghost use Rattle.rd_text.specs.Texts.{IsText, IsAccessible};
ghost use Rattle.rd_ucd.specs.Data.{Data};
ghost use Rattle.rd_objects.specs.Sound.{AreCodes, AreObjects};
ghost use Rattle.rd_objects.specs.Things.{ObjectLists};
ghost use Rattle.rd_glyphs.specs.Characters.{AreSoundParts};
ghost use Rattle.rd_props.specs.Buffers.{BufferValue};
ghost use Rattle.rd_props.specs.Seen.{Seen};
ghost use Rattle.rd_items.specs.Readings.{IsReading, HaveCodes, reading};
ghost use Rattle.rd_items.specs.Pieces.{Scene, scene_in};
ghost use Rattle.rd_items.specs.Items.{items_of, AreMeasuredItems};
ghost use Rattle.rd_stack.specs.Shown.{prefix, AreOpen, AreInside, AreOfOneRow, AreColoured};
ghost use Rattle.rd_stack.specs.Lines.{line_elements, AreCodedItems};
ghost use Rattle.rd_stack.specs.Limits.{AreFew, AreRightWithin, most_columns, most_display_columns, most_overlay_columns};

use rd_glyphs::{elements_are_sound, glyph_texts_are_sound, marks_join_measured_glyphs};
use rd_items::{items_are_measured, items_cover_their_block};
use rd_levels::enders_come_last;
use rd_objects::strings_have_colours;
use rd_props::{merged_faces_have_their_colours, overlays_have_two_strings};

/// The last element of a block's line is the line's end, and no other is. The call does nothing.
pub fn lines_end_once()
    ensures { (scene : Scene) (base : ℕ) (es : List Seen) → IsReading scene.parts.settings.invisible es → ends_once (line_elements scene base es) ≡ true }
{
    items_cover_their_block();
    enders_come_last();
}

/// The elements of a line and of a prefix are sound and measured, where the objects and what characters depend on are sound, and the
/// items of the line are measured and coded. A line takes at most the columns of so many overlays' strings as there are items, and a
/// prefix those of a display string. The call does nothing.
pub fn elements_are_right()
    ensures line { (scene : Scene) (base : ℕ) (es : List Seen) → AreObjects scene.objects → AreSoundParts scene.parts → AreMeasuredItems (items_of scene es) → AreCodedItems (items_of scene es) → AreRightWithin (length (items_of scene es) * most_overlay_columns) (line_elements scene base es) }
    ensures prefix { (scene : Scene) (base number : ℕ) → AreObjects scene.objects → AreSoundParts scene.parts → AreRightWithin most_display_columns (prefix scene base number) }
{
    elements_are_sound();
    glyph_texts_are_sound();
    marks_join_measured_glyphs();
}

/// The elements of a line are sound, and its glyphs have the columns that Unicode gives them, where the objects are sound, a tab has 1
/// to 32 columns and each character that is read has a code. They take fewer than 2^60 columns, a tab counted as its stop's width and a
/// stretch up to a column as that column, where no more is read than a text and its overlays have. The call does nothing.
pub fn lines_are_sound()
    ensures sound { (scene : Scene) (base : ℕ) (es : List Seen) → AreObjects scene.objects → AreSoundParts scene.parts → HaveCodes es → AreSound (line_elements scene base es) }
    ensures measured { (scene : Scene) (base : ℕ) (es : List Seen) → AreObjects scene.objects → AreSoundParts scene.parts → HaveCodes es → AreMeasured (line_elements scene base es) }
    ensures most { (scene : Scene) (base : ℕ) (es : List Seen) → AreObjects scene.objects → AreSoundParts scene.parts → HaveCodes es → AreFew es → columns_at_most (line_elements scene base es) ≤ most_columns }
    ensures columns { (scene : Scene) (base : ℕ) (es : List Seen) → AreObjects scene.objects → AreSoundParts scene.parts → HaveCodes es → AreFew es → columns_at_most (line_elements scene base es) < 2 ^ 60 }
{
    elements_are_right();
    items_are_measured();
}

/// No element of a prefix ends the line. The call does nothing.
pub fn prefixes_end_no_line()
    ensures { (scene : Scene) (base number : ℕ) → AreOpen (prefix scene base number) }
{}

/// The elements of a prefix are sound, and its glyphs have the columns that Unicode gives them, where the objects are sound and a tab
/// has 1 to 32 columns. They take at most the columns of a display string. None of them ends a row or the line. The call does nothing.
pub fn prefixes_are_sound()
    ensures inside { (scene : Scene) (base number : ℕ) → AreObjects scene.objects → AreSoundParts scene.parts → AreInside (prefix scene base number) }
    ensures columns { (scene : Scene) (base number : ℕ) → AreObjects scene.objects → AreSoundParts scene.parts → columns_at_most (prefix scene base number) ≤ most_display_columns }
    ensures row { (scene : Scene) (base number : ℕ) → AreOfOneRow (prefix scene base number) }
{
    elements_are_right();
}

/// The faces of a line's elements have their colours in range where those of what is read have, and where the objects are sound; those of
/// a prefix have where the objects are. What is read of a buffer has such faces. The call does nothing.
pub fn lines_are_coloured()
    ensures line { (scene : Scene) (base : ℕ) (es : List Seen) → AreObjects scene.objects → All (λ e. HasColours e.appearance.face) es → AreColoured (line_elements scene base es) }
    ensures prefix { (scene : Scene) (base number : ℕ) → AreObjects scene.objects → AreColoured (prefix scene base number) }
    ensures reading { (s : BufferValue) (objects : ObjectLists) (p : ℕ) → AreObjects objects → All (λ e. HasColours e.appearance.face) (reading s objects p) }
{
    merged_faces_have_their_colours();
    strings_have_colours();
}

/// What is read of a buffer has codes where its characters have. The call does nothing.
pub fn readings_have_codes()
    ensures { (s : BufferValue) (objects : ObjectLists) (p : ℕ) → AreCodes s.text.text → HaveCodes (reading s objects p) }
{}

/// No more is read of a buffer, from an accessible position on, than one position for each character of a text, the end, and both strings
/// of each overlay. The call does nothing.
pub fn readings_are_few()
    ensures { (s : BufferValue) (objects : ObjectLists) (p : ℕ) → IsText s.text → IsAccessible s.text p → length s.overlays ≤ OVERLAYS → AreFew (reading s objects p) }
{
    overlays_have_two_strings();
}

/// What the elements of characters depend on is sound where the objects are and a tab has 1 to 32 columns. The call does nothing.
pub fn scenes_are_sound()
    ensures { (settings : SettingValues) (objects : ObjectLists) (files : Data) → AreObjects objects → 1 ≤ settings.tab_width → settings.tab_width ≤ TAB_COLUMNS → AreSoundParts (scene_in settings objects files).parts }
{}
