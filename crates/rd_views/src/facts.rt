//! What a dump says of the windows.
ghost use Rattle.std.specs.Prelude.{◌≡◌, ◌<◌, IsSome, option_map, slice_get};
ghost use Rattle.rd_base.specs.declared.limits.TheConstants.{WINDOWS};
ghost use Rattle.rd_layout.specs.Facts.{cursor_since, facts_of};

use crate::views::Views;
use rd_base::Pos;
use rd_dump::WindowFacts;
use rd_window::Layout;

impl Views {
    /// What a dump says of the window at a place in leaf order, counted from 0: its place on the frame, its start, its point, and where
    /// point's item begins among the rows of its last layout. None exactly past the last window, of which there are at most
    /// 64. It takes no memory.
    pub fn facts(&self, i: u32) -> Option<WindowFacts>
        ensures told { result ≡ slice_get (facts_of self.now) i }
        ensures few { IsSome result → i < WINDOWS }
    {
        self.state.states_are_valid();
        let place = self.place(i)?;
        let window = self.state.window(place.number)?;
        let cursor = cursor_since(self.layout(place.number), window.point);
        Some(WindowFacts {
            window: place.number,
            rect: place.rect,
            start: window.anchor,
            point: window.point,
            cursor,
        })
    }
}

/// Where the item of a position begins among the rows of a window's last layout, as a row and a column of its text, from 0.
fn cursor_since(last: Option<&Layout>, point: Pos) -> Option<(u32, u32)>
    ensures { result ≡ cursor_since (option_map (λ l. l.now) last.entry) point }
{
    last?.matrix.cursor(point)
}
