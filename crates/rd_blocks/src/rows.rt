//! The rows of a block of a buffer.
ghost use Rattle.std.specs.Prelude.{◌≡◌, ◌+◌, ◌^◌, ◌<◌, ◌≤◌, length, IfOk};
ghost use Rattle.std.specs.Option.{option_or};
ghost use Rattle.rd_text.specs.Texts.{IsAccessible};
ghost use Rattle.rd_props.specs.Buffers.{meaning};
ghost use Rattle.rd_items.specs.Pieces.{scene_of};
ghost use Rattle.rd_items.specs.Readings.{reading};
ghost use Rattle.rd_rows.specs.Copies.{shown_rows};
ghost use Rattle.rd_rows.specs.Laws.{seen_rows};
ghost use Rattle.rd_rows.specs.Prefixes.{IsPrefix};
ghost use Rattle.rd_rows.specs.Rows.{weight_of};
ghost use Rattle.rd_blocks.specs.Rows.{block_rows, prefix_elements, truncation_mark, continuation_mark};

use rd_base::{Element, Glyph, ListOf, Memory, Pos, Steps};
use rd_items::parts_of;
use rd_matrix::Block;
use rd_objects::Slot;
use rd_props::{View, appearance_at};
use rd_rows::{Row, RowMaker, Shape};
use rd_stack::{Walker, string_line};
use std::alloc::Global;
use std::sync::ledger::Ledger;

/// The rows of a block at a shape: its line, cut behind the prefixes that are effective at its first position, which is looked up once
/// for both and for the line. A step is counted for each element that is placed in them.
pub(crate) fn rows_of<L: Ledger>(
    alloc: Global,
    view: View,
    block: &Block,
    shape: Shape,
    steps: &mut Steps<L>,
) -> Result<Vec<Row>, Memory>
    requires place { IsAccessible view.state.now.text block.now.start }
    requires base { block.now.base ≤ 1 }
    ensures rows { IfOk result (λ rows. shown_rows rows.items ≡ seen_rows (block_rows (scene_of view.entry) block.now.base shape (reading (meaning view.entry.state.now) view.entry.objects.now block.now.start))) }
    ensures few { IfOk result (λ rows. length rows.items < 2 ^ 32) }
    ensures steps { steps.new ≤ steps.old + weight_of (block_rows (scene_of view.entry) block.now.base shape (reading (meaning view.entry.state.now) view.entry.objects.now block.now.start)) }
{
    let state = view.state;
    let settings = &state.settings;
    let seen = appearance_at(alloc, &view, block.start)?;
    let base = block.base;
    let first = prefix_elements(alloc, &view, seen.line_prefix, settings.line_prefix, base)?;
    let wrap = prefix_elements(alloc, &view, seen.wrap_prefix, settings.wrap_prefix, base)?;
    let mut line = Walker::with_appearance(alloc, view, block.start, base, &seen)?;
    let maker = RowMaker::new(
        alloc,
        shape,
        base,
        first.as_slice(),
        wrap.as_slice(),
        truncation_mark(&view),
        continuation_mark(&view, base),
    )?;
    maker.make_all(&mut line, steps)
}

/// The elements of a block's line prefix or wrap prefix: of its own number where it has one, else of the buffer's setting, and none
/// without either.
fn prefix_elements(
    alloc: Global,
    view: &View,
    own: Option<u32>,
    setting: Option<u32>,
    base: u8,
) -> Result<ListOf<Element>, Memory>
    requires { base ≤ 1 }
    ensures value { IfOk result (λ elements. elements ≡ prefix_elements (scene_of view.now) base (option_or own setting)) }
    ensures prefix { IfOk result (λ elements. IsPrefix elements) }
{
    match own.or(setting) {
        None => Ok(ListOf::new(alloc)),
        Some(number) => string_line(alloc, view, number, base),
    }
}

/// The mark of a truncated row.
fn truncation_mark(view: &View) -> Glyph
    ensures value { result ≡ truncation_mark (scene_of view.now) }
    ensures columns { result.width ≡ 1 }
{
    parts_of(view).slot(Slot::Truncation, '$' as u32)
}

/// The mark of a continued row, in a line of this base.
fn continuation_mark(view: &View, base: u8) -> Glyph
    ensures value { result ≡ continuation_mark (scene_of view.now) base }
    ensures columns { result.width ≡ 1 }
{
    let default = if base == 1 { '/' } else { '\\' };
    parts_of(view).slot(Slot::Continuation, default as u32)
}
