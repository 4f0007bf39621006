//! The margins beside the rows of a window.
ghost use Rattle.std.specs.Prelude.{◌≡◌, All, IfOk, List, Some, map, slice_get, option_and_then};
ghost use Rattle.rd_base.specs.Faces.{plain};
ghost use Rattle.rd_frame.specs.Held.{glyph_row, glyph_rows};
ghost use Rattle.rd_glyphs.specs.Lines.{plain_cells};
ghost use Rattle.rd_layout.specs.Panes.{margin_of, margin_text, text_of};
ghost use Rattle.rd_margins.specs.Cells.{number_cells, row_margin};
ghost use Rattle.rd_margins.specs.Marks.{margin_string};
ghost use Rattle.rd_matrix.specs.Entries.{EntryMeaning, shown_entries};
ghost use Rattle.rd_text.specs.Texts.{IsAccessible, line_of};
ghost use Rattle.rd_ucd.specs.declared.spans.Span.{Span};
ghost use Rattle.rd_paint.specs.Shown.{of_classes};

use crate::content::Content;
use rd_base::{Cell, Ch, ListOf, Memory, Pos};
use rd_frame::panes_show_their_matrix;
use rd_glyphs::plain_lines_are_whole;
use rd_margins::{Marks, Widths, row_margin};
use rd_matrix::Matrix;
use rd_objects::Objects;
use rd_overlays::Overlays;
use rd_text::Buffer;
use rd_ucd::Classes;
use std::alloc::Global;

/// The margins of a window: what they show, and how many columns they take.
#[derive(Drop)]
pub(crate) struct WindowMargins<'a> {
    pub alloc: Global,
    pub classes: &'a Classes,
    pub objects: &'a Objects,
    pub content: &'a Content<'a>,
    pub widths: Widths,
}

impl<'a> WindowMargins<'a> {
    /// The margins beside the rows of a matrix, at each row's place, and an empty list where the margins take no columns. The number of a
    /// line is counted once for each block that the matrix has the first row of, and costs the stretches of the text before it, as
    /// `Buffer::line_of` does.
    pub(crate) fn beside_rows(&self, matrix: &Matrix) -> Result<Vec<ListOf<Cell>>, Memory>
        requires { All (λ (e : EntryMeaning). IsAccessible self.now.content.now.content.text e.start) (shown_entries matrix.now) }
        ensures { IfOk result (λ lists. glyph_rows lists.items matrix.now ≡ map (glyph_row (margin_of (of_classes self.now.classes.now) self.now.objects.now self.now.content.now.content self.now.widths)) (shown_entries matrix.now)) }
    {
        panes_show_their_matrix();
        if self.widths.numbers == 0 && self.widths.strings == 0 {
            plain_lines_are_whole();
            return Ok(Vec::new(self.alloc));
        }
        self.beside_each(matrix)
    }

    /// The margins beside each row of a matrix.
    fn beside_each(&self, matrix: &Matrix) -> Result<Vec<ListOf<Cell>>, Memory>
        requires { All (λ (e : EntryMeaning). IsAccessible self.now.content.now.content.text e.start) (shown_entries matrix.now) }
        ensures { IfOk result (λ lists. lists.items ≡ map (margin_of (of_classes self.now.classes.now) self.now.objects.now self.now.content.now.content self.now.widths) (shown_entries matrix.now)) }
    {
        let mut lists = Vec::with_capacity(self.alloc, matrix.len())?;
        for row in 0..matrix.len() {
            let entry = matrix.entry(row);
            let cells = self.beside(entry.start, entry.number)?;
            lists.push(cells)?;
        }
        Ok(lists)
    }

    /// The margins beside a row of the block that starts at a position; `number` is the row's number in the block, from 0.
    fn beside(&self, start: Pos, number: u32) -> Result<ListOf<Cell>, Memory>
        requires { IsAccessible self.now.content.now.content.text start }
        ensures { IfOk result (λ cells. cells ≡ row_margin self.now.classes.now self.now.widths number (line_of self.now.content.now.content.text start) (margin_text self.now.objects.now self.now.content.now.content start)) }
    {
        if number > 0 {
            return row_margin(self.alloc, self.classes, self.widths, number, 1, &[]);
        }
        let content = self.content;
        let line = line_beside(&content.buffer.text, self.widths.numbers, start);
        let text = self.text_beside(start)?;
        row_margin(
            self.alloc,
            self.classes,
            self.widths,
            number,
            line,
            text.as_slice(),
        )
    }

    /// The text of the margin string at a position, as its columns show it; where there are none it is not looked for.
    fn text_beside(&self, pos: Pos) -> Result<ListOf<Ch>, Memory>
        ensures { IfOk result (λ text. (classes : List Span) → plain_cells classes plain self.now.widths.strings text ≡ plain_cells classes plain self.now.widths.strings (margin_text self.now.objects.now self.now.content.now.content pos)) }
    {
        if self.widths.strings == 0 {
            plain_lines_are_whole();
            return Ok(ListOf::new(self.alloc));
        }
        let content = self.content;
        string_at(
            self.alloc,
            self.objects,
            content.marks,
            &content.buffer.overlays,
            pos,
        )
    }
}

/// The line of a position, as so many columns show it; where there are none it is not counted.
fn line_beside(text: &Buffer, columns: u32, pos: Pos) -> u32
    requires { IsAccessible text.now pos }
    ensures { number_cells columns (Some result) ≡ number_cells columns (Some (line_of text.now pos)) }
{
    if columns == 0 {
        return 1;
    }
    text.line_of(pos)
}

/// The text of the margin string at a position, empty where there is none.
fn string_at(
    alloc: Global,
    objects: &Objects,
    marks: &Marks,
    overlays: &Overlays,
    pos: Pos,
) -> Result<ListOf<Ch>, Memory>
    ensures { IfOk result (λ text. text ≡ text_of (option_and_then (λ n. slice_get objects.now.strings n) (margin_string marks.now overlays.now pos))) }
{
    let covering = overlays.covering(pos)?;
    match marks.last_of(covering.as_slice()) {
        Some(number) => string_of(alloc, objects, number),
        None => Ok(ListOf::new(alloc)),
    }
}

/// The text of the string with a number, empty where none was made.
fn string_of(alloc: Global, objects: &Objects, number: u32) -> Result<ListOf<Ch>, Memory>
    ensures { IfOk result (λ text. text ≡ text_of (slice_get objects.now.strings number)) }
{
    match objects.string(number) {
        Some(string) => ListOf::from_slice(alloc, string.chars()),
        None => Ok(ListOf::new(alloc)),
    }
}
