//! What holds of blocks and of their items, proved of the definitions.
ghost use Rattle.std.specs.Prelude.{◌≡◌, ℕ, ◌+◌, ◌≤◌, List, length};
ghost use Rattle.rd_base.specs.Settings.{SettingValues, without_flags};
ghost use Rattle.rd_ucd.specs.Data.{Data};
ghost use Rattle.rd_objects.specs.Sound.{IsClosed, Extends};
ghost use Rattle.rd_objects.specs.Things.{ObjectLists};
ghost use Rattle.rd_props.specs.Buffers.{BufferValue};
ghost use Rattle.rd_props.specs.Made.{AreMade, SettingsMade};
ghost use Rattle.rd_props.specs.Seen.{Seen};
ghost use Rattle.rd_items.specs.Readings.{reading, IsReading, HaveCodes};
ghost use Rattle.rd_items.specs.Blocks.{IsBlock, ListedLaw};
ghost use Rattle.rd_items.specs.Pieces.{Scene, table_in, scene_in};
ghost use Rattle.rd_items.specs.Items.{items_of, AreMeasuredItems};
ghost use Rattle.rd_items.specs.Covers.{CoverBlock};
ghost use Rattle.rd_items.specs.Growing.{ReadsMade, ShowMade, GoesOnFrom};

use rd_glyphs::marks_join_measured_glyphs;
use rd_props::made_objects_alone_are_seen;

/// Where the accessible range of a text is in order, its blocks are those of its list, which stand one behind the other from the
/// beginning of the accessible text to its end, which counts as a position. The call does nothing.
pub fn blocks_are_listed()
    ensures { ListedLaw }
{}

/// What is read from an accessible position on, the end of the accessible text included, ends with its ender and has none before,
/// and of a block it has one entry for each of its positions. The call does nothing.
pub fn blocks_are_read_whole()
    ensures reading { (s : BufferValue) (objects : ObjectLists) (p : ℕ) → p ≤ s.text.end → IsReading s.settings.invisible (reading s objects p) }
    ensures length { (s : BufferValue) (objects : ObjectLists) (from to : ℕ) → IsBlock s from to → from + length (reading s objects from) ≡ to }
{}

/// The items of what is read of a block cover each of its positions once: each covers none, or goes on where the last that covers
/// any ended, from the first position to the ender. An item covers any exactly where it is no overlay's string and gives an
/// element. The last item is the ender, and no other is. The call does nothing.
pub fn items_cover_their_block()
    ensures { (scene : Scene) (es : List Seen) → IsReading scene.parts.settings.invisible es → CoverBlock scene 0 (length es) (items_of scene es) }
{}

/// The glyphs of the items of characters are measured: each has the columns that Unicode gives it. The call does nothing.
pub fn items_are_measured()
    ensures { (scene : Scene) (es : List Seen) → HaveCodes es → AreMeasuredItems (items_of scene es) }
{
    marks_join_measured_glyphs();
}

/// Objects that are made later change no item of what names none of them, nor do the flags of modified and of read-only text.
/// The call does nothing.
pub fn objects_that_are_made_change_no_item()
    ensures items { (old new : Scene) (es : List Seen) → GoesOnFrom old new → IsClosed old.objects → ReadsMade old.objects es → items_of new es ≡ items_of old es }
    ensures table { (o n : ObjectLists) (settings : SettingValues) → Extends o n → SettingsMade o settings → table_in n settings.table ≡ table_in o settings.table }
    ensures scenes { (o n : ObjectLists) (a b : SettingValues) (files : Data) → Extends o n → SettingsMade o a → without_flags b ≡ without_flags a → GoesOnFrom (scene_in a o files) (scene_in b n files) }
{}

/// In a buffer whose properties and overlays name made objects alone, what is read of a block names made objects alone; and the items
/// of what names made objects alone show strings alone that were made, where no spec names another. The call does nothing.
pub fn made_objects_alone_are_read()
    ensures reading { (s : BufferValue) (objects : ObjectLists) (p : ℕ) → AreMade s objects → ReadsMade objects (reading s objects p) }
    ensures items { (scene : Scene) (es : List Seen) → IsClosed scene.objects → ReadsMade scene.objects es → ShowMade scene.objects (items_of scene es) }
{
    made_objects_alone_are_seen();
}
