//! What stands at a cell of the frame.
ghost use Rattle.std.specs.Prelude.{◌≡◌, ◌≤◌, IfSome, Some, find};
ghost use Rattle.rd_layout.specs.Spots.{body_spot, held_spot, shows_in, spot_at, window_spot, window_under};
ghost use Rattle.rd_tree.specs.Calls.{frame_of};
ghost use Rattle.rd_tree.specs.Places.{StandsIn, is_from, lies_in};
ghost use Rattle.rd_tree.specs.Windows.{placed};
ghost use Rattle.rd_tree.specs.declared.placed.Placed.{Placed};

use crate::looking::shape_of;
use crate::pointing::is_shown;
use crate::views::Views;
use rd_frame::{body_height, body_width};
use rd_layout::{Shows, Spot, sessions_stay_known};
use rd_tree::{Placed, Rect, Tree};
use rd_visual::position_at;

impl Views {
    /// What stands at a row and a column of the frame, both from 0: the echo area or a part of a window, with the position that a cell of
    /// its text shows. None exactly outside of the frame. No point moves, and it takes no memory.
    pub fn under(&self, row: u32, column: u32) -> Option<Spot>
        ensures { result ≡ spot_at self.now row column }
    {
        let (width, height) = self.state.frame();
        if row < height && column < width {
            Some(self.held_spot(row, column))
        } else {
            None
        }
    }

    /// What stands at a cell of the frame, by the window that holds it.
    fn held_spot(&self, row: u32, column: u32) -> Spot
        ensures { result ≡ held_spot self.now row column (window_under row column self.now.state) }
    {
        match window_under(self.state.tree(), row, column) {
            Some(place) => self.spot_in(place, row - place.rect.y, column - place.rect.x),
            None => Spot::EchoArea,
        }
    }

    /// What stands at a row and a column of a window's rectangle.
    fn spot_in(&self, place: Placed, row: u32, column: u32) -> Spot
        requires { StandsIn place (frame_of self.now.state.tree) }
        ensures { result ≡ window_spot self.now place row column }
    {
        let window = place.number;
        if row >= body_height(place) {
            return Spot::ModeLine { window };
        }
        if column < place.margins {
            return Spot::Margin { window };
        }
        self.body_spot(place, row, column - place.margins)
    }

    /// What stands in a row of a window's text, at a column behind its margins.
    fn body_spot(&self, place: Placed, row: u32, column: u32) -> Spot
        requires { StandsIn place (frame_of self.now.state.tree) }
        ensures { result ≡ body_spot self.now place row column }
    {
        self.state.states_are_valid();
        let window = place.number;
        let (width, _height) = self.state.frame();
        if column >= body_width(width, place) {
            return Spot::Border { window };
        }
        Spot::Text {
            window,
            row,
            column,
            shows: self.shows_in(place, row, column),
        }
    }

    /// What a row and a column of a window's text show.
    fn shows_in(&self, place: Placed, row: u32, column: u32) -> Shows
        requires { StandsIn place (frame_of self.now.state.tree) }
        ensures { result ≡ shows_in self.now place row column }
    {
        sessions_stay_known();
        let Some(window) = self.state.window(place.number) else {
            return Shows::Unknown;
        };
        let Some(layout) = self.layout(place.number) else {
            return Shows::Unknown;
        };
        let shape = shape_of(&self.state, window, place);
        if !is_shown(layout, shape, body_height(place)) {
            return Shows::Unknown;
        }
        match position_at(&layout.matrix, row, column) {
            Some(pos) => Shows::Position(pos),
            None => Shows::NoPosition,
        }
    }
}

/// The window of a tree in whose rectangle a cell of the frame lies.
fn window_under(tree: &Tree, row: u32, column: u32) -> Option<Placed>
    ensures found { result ≡ find (λ (place : Placed). lies_in column row place.rect) (placed tree.now.windows (frame_of tree.now)) }
    ensures stands { IfSome result (λ place. StandsIn place (frame_of tree.now)) }
    ensures behind { IfSome result (λ place. (place.rect.y ≤ row) × (place.rect.x ≤ column)) }
{
    let mut i = 0u32;
    while let Some(place) = tree.placed_leaf(i) {
        if holds(place.rect, row, column) {
            return Some(place);
        }
        i += 1;
    }
    None
}

/// Whether a cell of the frame lies in a rectangle.
fn holds(rect: Rect, row: u32, column: u32) -> bool
    ensures { result ≡ lies_in column row rect }
{
    is_from(rect.x, rect.width, column) && is_from(rect.y, rect.height, row)
}

/// Whether a place is one of so many from the first on.
fn is_from(first: u32, size: u32, place: u32) -> bool
    ensures { result ≡ is_from first size place }
{
    first <= place && place - first < size
}
