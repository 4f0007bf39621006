//! Laws of the definitions, for the layers above.
ghost use Rattle.std.specs.Prelude.{ℕ, ◌≡◌, ◌<◌, length, slice_get, Some};
ghost use Rattle.rd_base.specs.Cells.{HasColours};
ghost use Rattle.rd_objects.specs.declared.run.Spec.TheVariants.{Text};
ghost use Rattle.rd_objects.specs.Texts.{TextValue, spec_of, face_of};
ghost use Rattle.rd_objects.specs.Things.{ObjectLists};
ghost use Rattle.rd_objects.specs.Sound.{IsString, IsClosed, Extends, SoundLaws, ClosedLaws, GrowLaws};

/// Where nothing is made all objects are sound, and they stay sound where one more is made: a string of characters, a spec of at most
/// 400 columns, a face with colours in their range, a table. The call does nothing.
pub fn objects_stay_sound()
    ensures { SoundLaws }
{}

/// Where nothing is made each object that is named was made, and so it stays where one more is made. The call does nothing.
pub fn objects_stay_closed()
    ensures { ClosedLaws }
{}

/// One more object extends the objects, and extensions follow one another. An object that was made is the same in each extension, and so
/// is what the objects name. The call does nothing.
pub fn extensions_keep_objects()
    ensures more { GrowLaws }
    ensures further { (old more new : ObjectLists) → Extends old more → Extends more new → Extends old new }
    ensures strings { (old new : ObjectLists) (number : ℕ) → Extends old new → number < length old.strings → slice_get new.strings number ≡ slice_get old.strings number }
    ensures specs { (old new : ObjectLists) (number : ℕ) → Extends old new → number < length old.specs → slice_get new.specs number ≡ slice_get old.specs number }
    ensures faces { (old new : ObjectLists) (number : ℕ) → Extends old new → number < length old.faces → slice_get new.faces number ≡ slice_get old.faces number }
    ensures tables { (old new : ObjectLists) (number : ℕ) → Extends old new → number < length old.tables → slice_get new.tables number ≡ slice_get old.tables number }
    ensures named_specs { (o : ObjectLists) (string i number : ℕ) (text : TextValue) → IsClosed o → slice_get o.strings string ≡ Some text → spec_of text i ≡ Some number → number < length o.specs }
    ensures named_strings { (o : ObjectLists) (spec number : ℕ) → IsClosed o → slice_get o.specs spec ≡ Some (Text number) → number < length o.strings }
{}

/// The face at each place of a sound string has colours in their range. The call does nothing.
pub fn strings_have_colours()
    ensures { (text : TextValue) (i : ℕ) → IsString text → HasColours (face_of text i) }
{}
