//! The windows of a frame in leaf order, with what is painted of their buffers.
ghost use Rattle.std.specs.Prelude.{◌<◌, ◌≤◌, MatchOption, length};
ghost use Rattle.rd_layout.specs.Windows.{places};
ghost use Rattle.rd_paint.specs.Shown.{IsLeaf};

use crate::content::{Content, content_of};
use rd_state::{State, WindowState};
use rd_tree::Placed;

/// A window of a frame with its place, and what is painted of the buffer that it shows.
#[derive(Drop)]
pub(crate) struct Leaf<'a> {
    pub place: Placed,
    pub window: &'a WindowState,
    pub content: Content<'a>,
}

/// The window at a place of the leaf order, counted from 0.
pub(crate) fn leaf_at(state: &State, i: u32) -> Leaf<'_>
    requires { i < length (places state.now) }
    ensures { IsLeaf state.now i result.place result.window.now result.content }
{
    match found_leaf(state, i) {
        Some(leaf) => leaf,
        None => unreachable!(),
    }
}

/// The window at a place of leaf order, with its place on the frame; None exactly where there are not so many windows.
fn found_leaf(state: &State, i: u32) -> Option<Leaf<'_>>
    ensures { MatchOption result (length (places state.now) ≤ i) (λ leaf. IsLeaf state.now i leaf.place leaf.window.now leaf.content) }
{
    state.states_are_valid();
    let place = state.tree().placed_leaf(i)?;
    let window = state.window(place.number)?;
    let content = content_of(state, window.buffer)?;
    Some(Leaf {
        place,
        window,
        content,
    })
}
