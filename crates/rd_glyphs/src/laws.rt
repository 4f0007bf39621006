//! Laws of the definitions, for the layers above.
ghost use Rattle.std.specs.Prelude.{ℕ, ◌≡◌, ◌≤◌, Bool, false, IsTrue, List, length, All};
ghost use Rattle.rd_base.specs.Cells.{HasColours, IsColoured};
ghost use Rattle.rd_base.specs.Chars.{is_code};
ghost use Rattle.rd_base.specs.Faces.{Attributes};
ghost use Rattle.rd_base.specs.Glyphs.{IsRowAfter};
ghost use Rattle.rd_base.specs.declared.cell.Glyph.{Glyph};
ghost use Rattle.rd_base.specs.declared.element.Origin.{Origin};
ghost use Rattle.rd_ucd.specs.declared.spans.Span.{Span};
ghost use Rattle.rd_objects.specs.Tables.{is_glyph_text};
ghost use Rattle.rd_glyphs.specs.Characters.{PartValues, AreSoundParts, elements_of, glyphs_for, glyph_elements, AreOfCharacter};
ghost use Rattle.rd_glyphs.specs.MarkRoles.{is_empty_entry, MarkLaws};
ghost use Rattle.rd_glyphs.specs.Lines.{plain_cells};

/// The elements of a character are sound, their glyphs are measured, and each takes 1 to 3 columns or is a tab of at most 32. They
/// have the face and the origin that are given. There are at most 16, of at most 48 columns together, and at least one where the
/// table does not show the character as nothing. The call does nothing.
pub fn elements_are_sound()
    ensures elements { (parts : PartValues) (ch : ℕ) (odd : Bool) (face : Attributes) (origin : Origin) → AreSoundParts parts → IsTrue (is_code ch) → AreOfCharacter face origin (elements_of parts ch odd face origin) }
    ensures some { (parts : PartValues) (ch : ℕ) (odd : Bool) (face : Attributes) (origin : Origin) → is_empty_entry (glyphs_for parts.table ch) ≡ false → 1 ≤ length (elements_of parts ch odd face origin) }
{}

/// The elements of at most 16 glyph characters, as an entry of a table and an ellipsis have them, are sound, measured and of the face
/// and the origin that are given, of at most 48 columns together. The call does nothing.
pub fn glyph_texts_are_sound()
    ensures { (face : Attributes) (origin : Origin) (text : List Glyph) → IsTrue (is_glyph_text text) → AreOfCharacter face origin (glyph_elements face origin text) }
{}

/// The glyphs that marks join are measured before and after, and so is a mark on a blank. The call does nothing.
pub fn marks_join_measured_glyphs()
    ensures { MarkLaws }
{}

/// A plain line has exactly its columns. In it each glyph stands whole, and its colours are in their range where those of its face
/// are. The call does nothing.
pub fn plain_lines_are_whole()
    ensures width { (classes : List Span) (face : Attributes) (width : ℕ) (text : List ℕ) → length (plain_cells classes face width text) ≡ width }
    ensures whole { (classes : List Span) (face : Attributes) (width : ℕ) (text : List ℕ) → All (λ c. IsTrue (is_code c)) text → IsRowAfter 0 (plain_cells classes face width text) }
    ensures coloured { (classes : List Span) (face : Attributes) (width : ℕ) (text : List ℕ) → HasColours face → All IsColoured (plain_cells classes face width text) }
{}
