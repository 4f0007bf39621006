//! Where blocks begin and end.
ghost use Rattle.std.specs.Prelude.{◌≡◌, ◌-◌, ◌<◌, ◌≤◌, true, IfOk};
ghost use Rattle.rd_text.specs.Texts.{IsAccessible};
ghost use Rattle.rd_props.specs.Buffers.{meaning};
ghost use Rattle.rd_items.specs.Blocks.{is_shown_newline, StartsBlock, IsBlock, IsBlockAt, IsLastStart, IsFirstEnd};

use crate::alike_range::{alike_range_at, alike_range_before};
use rd_base::{Memory, Pos};
use rd_props::View;
use std::alloc::Global;

/// The first position of the block that holds a position. Properties are looked up for newlines alone, and once for all of a
/// range that hides or replaces them.
fn block_start(alloc: Global, view: &View, pos: Pos) -> Result<Pos, Memory>
    requires { IsAccessible view.now.state.now.text pos }
    ensures { IfOk result (λ from. IsLastStart (meaning view.now.state.now) pos from) }
{
    let state = view.state;
    let begin = state.text.begin();
    let mut from = state.text.prev_newline(pos);
    while begin < from {
        let before = alike_range_before(alloc, view, from)?;
        if before.showing.is_open() {
            return Ok(from);
        }
        from = state.text.prev_newline(before.from);
    }
    Ok(from)
}

/// The position behind the ender of the block that holds a position. Properties are looked up for newlines alone, and once for
/// all of a range that hides or replaces them.
fn block_end(alloc: Global, view: &View, pos: Pos) -> Result<Pos, Memory>
    requires { IsAccessible view.now.state.now.text pos }
    ensures { IfOk result (λ to. IsFirstEnd (meaning view.now.state.now) pos to) }
{
    let state = view.state;
    let end = state.text.end();
    let mut newline = state.text.next_newline(pos);
    while newline < end {
        let range = alike_range_at(alloc, view, newline)?;
        if range.showing.is_open() {
            return Ok(newline + 1);
        }
        newline = state.text.next_newline(range.until);
    }
    Ok(newline + 1)
}

/// The block that holds an accessible position, or the end of the accessible text: its first position, and the position behind
/// its ender. It costs a pass over the block's characters, and a look-up of the properties at its newlines, and once for all of a
/// range that hides or replaces them.
pub fn block_at(alloc: Global, view: &View, pos: Pos) -> Result<(Pos, Pos), Memory>
    requires { IsAccessible view.now.state.now.text pos }
    ensures { IfOk result (λ block. IsBlockAt (meaning view.now.state.now) pos block.0 block.1) }
{
    let from = block_start(alloc, view, pos)?;
    let to = block_end(alloc, view, pos)?;
    Ok((from, to))
}

/// The position behind the ender of the block that starts at a position: the beginning of the accessible text, or one right
/// behind a newline that is neither replaced nor hidden. It reads that block alone.
pub fn block_from(alloc: Global, view: &View, start: Pos) -> Result<Pos, Memory>
    requires accessible { IsAccessible view.now.state.now.text start }
    requires start { StartsBlock (meaning view.now.state.now) start }
    ensures { IfOk result (λ end. IsBlock (meaning view.now.state.now) start end) }
{
    block_end(alloc, view, start)
}

/// The first position of the block that ends right before a position, which is behind a newline that is neither replaced nor
/// hidden. It reads that block alone.
pub fn block_before(alloc: Global, view: &View, end: Pos) -> Result<Pos, Memory>
    requires first { view.now.state.now.text.begin < end }
    requires last { end ≤ view.now.state.now.text.end }
    requires newline { is_shown_newline (meaning view.now.state.now) (end - 1) ≡ true }
    ensures { IfOk result (λ start. IsBlock (meaning view.now.state.now) start end) }
{
    block_start(alloc, view, end - 1)
}
