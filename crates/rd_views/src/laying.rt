//! The layout of one window of a state.
ghost use Rattle.std.specs.Prelude.{◌≡◌, ◌+◌, ◌≤◌, ◌<◌, IfOk, IfSome, IsSome, Some, slice_get};
ghost use Rattle.rd_base.specs.declared.limits.TheConstants.{WINDOWS};
ghost use Rattle.rd_layout.specs.Redisplays.{allowance_by};
ghost use Rattle.rd_layout.specs.Sessions.{layout_of};
ghost use Rattle.rd_layout.specs.Windows.{place_of, places, wanted_of};
ghost use Rattle.rd_props.specs.Buffers.{meaning};
ghost use Rattle.rd_state.specs.Windows.{window_of};
ghost use Rattle.rd_tree.specs.Calls.{frame_of};
ghost use Rattle.rd_tree.specs.Places.{StandsIn};
ghost use Rattle.rd_views.specs.Layings.{IsDesiredBy, layout_in, window_in};

use crate::looking::shape_of;
use crate::views::Views;
use rd_base::{Memory, Steps};
use rd_blocks::{
    Blocks, accessible_positions_lie_in_blocks, blocks_fill_the_text, buffers_are_sources,
};
use rd_frame::body_height;
use rd_layout::sessions_stay_known;
use rd_props::View;
use rd_start::Wanted;
use rd_state::{State, WindowState};
use rd_tree::Placed;
use rd_window::{Laying, TextEnds, lay_out_again};
use std::sync::ledger::Ledger;

/// What laying a window out again gave, and where its text begins and ends.
#[derive(Drop)]
pub(crate) struct TextLaying {
    pub(crate) laying: Laying,
    pub(crate) ends: TextEnds,
}

impl Views {
    /// The window at a place in leaf order, from 0, and its rectangle; None exactly past the last.
    pub(crate) fn place(&self, i: u32) -> Option<Placed>
        ensures place { result ≡ slice_get (places self.now.state) i }
        ensures found { IfSome result (λ place. place_of place.number self.now.state ≡ Some place) }
        ensures stands { IfSome result (λ place. StandsIn place (frame_of self.now.state.tree)) }
        ensures few { IsSome result → i < WINDOWS }
    {
        self.state.tree().placed_leaf(i)
    }

    /// Lays out the window in a place over its last layout. The steps that it takes, also where memory is wanting, are at most the
    /// window's allowance.
    pub(crate) fn lay_out_window<L: Ledger>(
        &self,
        place: Placed,
        steps: &mut Steps<L>,
    ) -> Result<TextLaying, Memory>
        requires found { place_of place.number self.now.state ≡ Some place }
        requires stands { StandsIn place (frame_of self.now.state.tree) }
        ensures laid { IfOk result (λ laid. IsDesiredBy self.now.files self.now.state (layout_of place.number self.now.layouts) place (window_of place.number self.now.state.windows) (window_in laid) (place.number, layout_in laid)) }
        ensures steps { steps.new ≤ steps.old + allowance_by self.now.files self.now.state (layout_of place.number self.now.layouts) place (window_of place.number self.now.state.windows) }
    {
        accessible_positions_lie_in_blocks();
        blocks_fill_the_text();
        buffers_are_sources();
        sessions_stay_known();
        self.views_are_known();
        let Some(window) = self.state.window(place.number) else {
            unreachable!()
        };
        let look = self.look_at(window);
        let ends = ends_of(&look);
        let source = Blocks::new(look);
        let last = self.layout(place.number);
        let wanted = wanted_of(&self.state, window, place);
        let shape = shape_of(&self.state, window, place);
        let laying = lay_out_again(self.alloc, source, ends, last, wanted, shape, steps)?;
        Ok(TextLaying { laying, ends })
    }
}

/// Where the text of a buffer begins and ends.
fn ends_of(look: &View<'_>) -> TextEnds
    ensures begin { result.begin ≡ (meaning look.now.state.now).text.begin }
    ensures end { result.end ≡ (meaning look.now.state.now).text.end }
{
    let text = &look.state.text;
    TextEnds {
        begin: text.begin(),
        end: text.end(),
    }
}

/// What a window in its place wants of its start.
fn wanted_of(state: &State, window: &WindowState, place: Placed) -> Wanted
    requires { StandsIn place (frame_of state.now.tree) }
    ensures { result ≡ wanted_of state.now window.now place }
{
    let (margin, conservatively) = state.scrolling();
    Wanted {
        anchor: window.anchor,
        forced: window.forced,
        pending: window.pending,
        point: window.point,
        height: body_height(place),
        margin,
        conservatively,
    }
}
