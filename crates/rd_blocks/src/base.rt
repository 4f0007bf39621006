//! The base levels of blocks that are asked for one after the other.
ghost use Rattle.std.specs.Prelude.{◌≡◌, ◌≤◌, IfSome};
ghost use Rattle.rd_text.specs.Texts.{IsAccessible};
ghost use Rattle.rd_para.specs.Known.{IsKnown};
ghost use Rattle.rd_props.specs.Buffers.{meaning};
ghost use Rattle.rd_blocks.specs.Bases.{IsParagraphAt, block_base};

use rd_base::Pos;
use rd_para::{Paragraph, next_line, own_level, paragraph_at};
use rd_props::View;

/// The base level of a block that starts at a position. Where the text decides it, it is that of the position's paragraph, which is
/// then the one that is known. The paragraph that was known is continued, line by line, where it reaches `near`, a position before
/// the block or its start, and so a paragraph is asked for once, however many of its blocks are asked for in order.
pub(crate) fn base_of(view: View, known: &mut Option<Paragraph>, near: Pos, start: Pos) -> u8
    requires known { IfSome known.old (λ p. IsKnown view.classes.now view.state.now.text p) }
    requires place { IsAccessible view.state.now.text start }
    ensures known { IfSome known.new (λ p. IsKnown view.entry.classes.now view.entry.state.now.text p) }
    ensures base { result ≡ block_base view.entry.classes.now (meaning view.entry.state.now) start }
{
    let settings = &view.state.settings;
    if !settings.reorder {
        return 0;
    }
    if let Some(level) = own_level(settings.direction) {
        return level;
    }
    known.insert(paragraph_of(view, *known, near, start)).base
}

/// The paragraph of a position: continued from the known one where that reaches `near`, and else found in the text.
fn paragraph_of(view: View, known: Option<Paragraph>, near: Pos, pos: Pos) -> Paragraph
    requires known { IfSome known (λ p. IsKnown view.classes.now view.state.now.text p) }
    requires place { IsAccessible view.state.now.text pos }
    ensures { IsParagraphAt view.entry.classes.now view.entry.state.now.text pos result }
{
    let state = view.state;
    match known {
        Some(paragraph) if paragraph.from <= pos && near <= paragraph.to => {
            further(view, paragraph, pos)
        }
        _ => paragraph_at(&state.text, view.classes, pos),
    }
}

/// The paragraph that holds a position, found from a known one by going on line by line.
fn further(view: View, known: Paragraph, pos: Pos) -> Paragraph
    requires known { IsKnown view.classes.now view.state.now.text known }
    requires from { known.from ≤ pos }
    requires place { IsAccessible view.state.now.text pos }
    ensures { IsParagraphAt view.entry.classes.now view.entry.state.now.text pos result }
{
    let state = view.state;
    let mut paragraph = known;
    while paragraph.to < pos {
        paragraph = next_line(&state.text, view.classes, &paragraph);
    }
    paragraph
}
