//! Base levels.
ghost use Rattle.std.specs.Prelude.{◌≡◌, ◌+◌, ◌<◌, ◌≤◌, false, unwrap_or};
ghost use Rattle.std.specs.List.{slice_split};
ghost use Rattle.rd_text.specs.Texts.{IsAccessible, between, is_newline, is_separator, next_newline};
ghost use Rattle.rd_para.specs.Paragraphs.{base_at, decided, own_level};
ghost use Rattle.rd_para.specs.Known.{IsKnown, IsParagraph};

use crate::line::{is_blank_line, p2_p3_level_of_line};
use crate::paragraph::Paragraph;
use rd_base::{Direction, Pos};
use rd_text::Buffer;
use rd_ucd::Classes;

/// The base level at an accessible position or the accessible end, with reordering on: `Left` gives 0, `Right` 1, and `Auto` goes by the
/// paragraph of the position's line. A line of only spaces, tabs and form feeds separates paragraphs and has the level of the line before,
/// else 0. The first line of a paragraph in which UAX 9 P2 finds a strong character gives its level (P3), else it is 0.
///
/// With `Auto` it costs what `paragraph_at` does, else the cost is constant. It takes no memory.
pub fn base_level(text: &Buffer, classes: &Classes, direction: Direction, pos: Pos) -> u8
    requires { IsAccessible text.now pos }
    ensures { result ≡ base_at classes.now text.now direction pos }
{
    own_level(direction).unwrap_or_else(|| paragraph_at(text, classes, pos).base)
}

/// The base level that a direction gives by itself; None where the text decides.
pub fn own_level(direction: Direction) -> Option<u8>
    ensures { result ≡ own_level direction }
{
    match direction {
        Direction::Auto => None,
        Direction::Left => Some(0),
        Direction::Right => Some(1),
    }
}

/// The paragraph by which the text decides the base level at an accessible position or the accessible end, up to the end of
/// the position's line.
///
/// The way back to the paragraph's start passes over stretches of the text, and then the paragraph is read from there up to its
/// first strong character. It takes no memory.
pub fn paragraph_at(text: &Buffer, classes: &Classes, pos: Pos) -> Paragraph
    requires { IsAccessible text.now pos }
    ensures { IsParagraph classes.now text.now pos result }
{
    let begin = text.begin();
    let to = text.next_newline(pos);
    let place = begin.max(text.prev_ink(to) - 1);
    let from = text.paragraph_start(place);
    let base = p2_p3_level_of_paragraph(text, classes, from);
    Paragraph { from, to, base }
}

/// The paragraph of the line behind a known one: the known one, up to this line's end, unless a text line follows a separator.
/// So whoever reads a text line by line asks for one paragraph, and then goes on from it.
///
/// It reads as much of the two lines as decides whether they are separators, and a paragraph that begins here up to its first
/// strong character.
pub fn next_line(text: &Buffer, classes: &Classes, known: &Paragraph) -> Paragraph
    requires known { IsKnown classes.now text.now known.now }
    requires more { known.now.to < text.now.end }
    ensures known { IsKnown classes.now text.now result }
    ensures low { result.from ≤ known.now.to + 1 }
    ensures high { result.to ≡ next_newline text.now (known.now.to + 1) }
{
    let begin = text.begin();
    let from = known.to + 1;
    let to = text.next_newline(from);
    if is_blank_line(text, from, to) || text.prev_newline(known.to) < text.prev_ink(known.to) {
        return Paragraph {
            from: known.from,
            to,
            base: known.base,
        };
    }
    let base = p2_p3_level_from_line(text, classes, from, to);
    Paragraph { from, to, base }
}

/// The level of a paragraph that begins at a position (P2, P3).
fn p2_p3_level_of_paragraph(text: &Buffer, classes: &Classes, from: Pos) -> u8
    requires { IsAccessible text.now from }
    ensures { result ≡ unwrap_or (decided classes.now (slice_split is_newline (between text.now from text.now.end))) 0 }
{
    let _end = text.end();
    let to = text.next_newline(from);
    if is_blank_line(text, from, to) {
        0
    } else {
        p2_p3_level_from_line(text, classes, from, to)
    }
}

/// The level of a paragraph (P2, P3) by its first line, which is no separator, and the lines behind it.
fn p2_p3_level_from_line(text: &Buffer, classes: &Classes, from: Pos, to: Pos) -> u8
    requires place { IsAccessible text.now from }
    requires end { to ≡ next_newline text.now from }
    requires text { is_separator (between text.now from to) ≡ false }
    ensures { result ≡ unwrap_or (decided classes.now (slice_split is_newline (between text.now from text.now.end))) 0 }
{
    let end = text.end();
    let mut from = from;
    let mut to = to;
    'lines: loop {
        if let Some(level) = p2_p3_level_of_line(text, classes, from, to) {
            return level;
        }
        if to >= end {
            return 0;
        }
        from = to + 1;
        to = text.next_newline(from);
        if is_blank_line(text, from, to) {
            return 0;
        }
    }
}
