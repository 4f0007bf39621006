//! What one line of a text says of its paragraph.
ghost use Rattle.std.specs.Prelude.{◌≡◌, ◌≤◌, ◌+◌, ◌-◌, length, slice_index};
ghost use Rattle.rd_text.specs.Texts.{IsText, IsAccessible, between, is_separator, next_newline};
ghost use Rattle.rd_para.specs.Paragraphs.{p2_p3_level_of_line};

use rd_base::{Ch, Pos};
use rd_text::Buffer;
use rd_ucd::Classes;

/// Whether the line from a position to its end is only spaces, tabs and form feeds.
pub fn is_blank_line(text: &Buffer, from: Pos, to: Pos) -> bool
    requires right { IsText text.now }
    requires place { IsAccessible text.now from }
    requires end { to ≡ next_newline text.now from }
    ensures { result ≡ is_separator (between text.now from to) }
{
    text.prev_ink(to) <= from
}

/// The level, 0 or 1, that rules P2 and P3 find in the characters from one position to another, that one not included;
/// None where they find no strong character.
pub fn p2_p3_level_of_line(text: &Buffer, classes: &Classes, from: Pos, to: Pos) -> Option<u8>
    requires first { 1 ≤ from }
    requires order { from ≤ to }
    requires last { to ≤ length text.now.text + 1 }
    ensures { result ≡ p2_p3_level_of_line classes.now (between text.now from to) }
{
    let mut pos = from;
    let mut depth = 0;
    while pos < to {
        let class = classes.class(char_at(text, pos));
        if let Some(level) = class.p2_p3_strong_level(depth) {
            return Some(level);
        }
        depth = class.p2_depth_after(depth);
        pos += 1;
    }
    None
}

/// The character at a position of the text.
fn char_at(text: &Buffer, pos: Pos) -> Ch
    requires first { 1 ≤ pos }
    requires last { pos ≤ length text.now.text }
    ensures { result ≡ slice_index text.now.text (pos - 1) }
{
    match text.fetch(pos) {
        Some(ch) => ch,
        None => unreachable!(),
    }
}
