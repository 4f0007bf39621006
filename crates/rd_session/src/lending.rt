//! What a session lends: its windows, its buffers, its frame and its screen, and what stands at a cell.
ghost use Rattle.std.specs.Prelude.{◌≡◌, ◌<◌, IsSome, not, is_some, option_map, slice_get};
ghost use Rattle.rd_base.specs.declared.limits.TheConstants.{WINDOWS};
ghost use Rattle.rd_layout.specs.Facts.{cursor_since, facts_of, rows_of};
ghost use Rattle.rd_layout.specs.Readings.{buffer_shown, text_named};
ghost use Rattle.rd_layout.specs.Sessions.{layout_of, length_of};
ghost use Rattle.rd_layout.specs.Spots.{spot_at};
ghost use Rattle.rd_state.specs.Windows.{window_of};
ghost use Rattle.rd_tree.specs.Calls.{rect_of};
ghost use Rattle.rd_tree.specs.Windows.{leaves};

use crate::session::Session;
use rd_base::{Anchor, Pos};
use rd_dump::WindowFacts;
use rd_layout::Spot;
use rd_matrix::Matrix;
use rd_term::Screen;
use rd_text::Buffer;
use rd_tree::Rect;

impl Session {
    /// Where the view of the window with a number begins; None exactly where no such window lives.
    pub fn start(&self, w: u32) -> Option<Anchor>
        ensures { result ≡ option_map (λ window. window.anchor) (window_of w self.now.state.windows) }
    {
        self.views.state().window(w).map(|window| window.anchor)
    }

    /// The point of the window with a number; None exactly where no such window lives.
    pub fn point(&self, w: u32) -> Option<Pos>
        ensures { result ≡ option_map (λ window. window.point) (window_of w self.now.state.windows) }
    {
        self.views.state().window(w).map(|window| window.point)
    }

    /// The rows of the last redisplay, shown or stopped, that held the window with a number, and none before the first; None exactly
    /// where no such window lives.
    pub fn matrix(&self, w: u32) -> Option<&Matrix>
        ensures { option_map (λ matrix. matrix.now) result ≡ option_map (λ _. rows_of (layout_of w self.now.layouts)) (window_of w self.now.state.windows) }
    {
        self.views.state().window(w)?;
        Some(self.rows_since(w))
    }

    /// The place of the cursor, at the present point, among the rows of the last redisplay that held the window with a number, as a row
    /// and a column of the window's text from 0. None exactly where no such window lives; `Some(None)` where no row holds the cursor.
    pub fn cursor(&self, w: u32) -> Option<Option<(u32, u32)>>
        ensures { result ≡ option_map (λ window. cursor_since (layout_of w self.now.layouts) window.point) (window_of w self.now.state.windows) }
    {
        let point = self.point(w)?;
        Some(self.rows_since(w).cursor(point))
    }

    /// The rows of the last layout of a window, and none before the first.
    fn rows_since(&self, w: u32) -> &Matrix
        ensures { result.now ≡ rows_of (layout_of w self.now.layouts) }
    {
        match self.views.layout(w) {
            Some(layout) => &layout.matrix,
            None => &self.nothing,
        }
    }

    /// What the terminal shows; None exactly where the frame is garbaged.
    pub fn screen(&self) -> Option<&Screen>
        ensures { option_map (λ screen. screen.now) result ≡ self.now.current }
    {
        self.screen.as_ref()
    }

    /// Whether nothing is known of what the terminal shows, so that the next redisplay repaints it whole.
    pub fn garbaged(&self) -> bool
        ensures { result ≡ not (is_some self.now.current) }
    {
        self.screen.is_none()
    }

    /// The frame's columns and rows.
    pub fn frame(&self) -> (u32, u32)
        ensures width { result.0 ≡ self.now.state.width }
        ensures height { result.1 ≡ self.now.state.height }
    {
        self.views.state().frame()
    }

    /// The window at a place in leaf order, from 0; None exactly past the last.
    pub fn leaf(&self, i: u32) -> Option<u32>
        ensures { result ≡ slice_get (leaves self.now.state.tree.windows) i }
    {
        self.views.state().tree().leaf(i)
    }

    /// The place on the frame of the window with a number, its margins, its mode line and its border included; None exactly where no such
    /// window lives.
    pub fn rect(&self, w: u32) -> Option<Rect>
        ensures { result ≡ rect_of w self.now.state.tree }
    {
        self.views.state().tree().rect(w)
    }

    /// The number of the selected window.
    pub fn selected(&self) -> u32
        ensures { result ≡ self.now.state.selected }
    {
        self.views.state().selected()
    }

    /// What a dump says of the window at a place in leaf order, from 0; None exactly past the last. At most 64 windows live.
    pub fn facts(&self, i: u32) -> Option<WindowFacts>
        ensures facts { result ≡ slice_get (facts_of self.now) i }
        ensures few { IsSome result → i < WINDOWS }
    {
        self.views.facts(i)
    }

    /// How many characters the buffer with a name has; None exactly where no buffer has it.
    pub fn length(&self, buffer: &str) -> Option<u32>
        ensures { result ≡ length_of buffer.now self.now.state.buffers }
    {
        let state = self.views.state();
        let number = state.number_of(buffer)?;
        state.buffer(number).map(|found| found.text.length())
    }

    /// The name of the buffer that the window with a number shows; None exactly where no such window lives.
    pub fn buffer(&self, w: u32) -> Option<&str>
        ensures { option_map (λ name. name.now) result ≡ buffer_shown w self.now.state }
    {
        let state = self.views.state();
        state.states_are_valid();
        let window = state.window(w)?;
        state.name(window.buffer)
    }

    /// The name of the buffer with a number, from 0 in order of making; None exactly past the last.
    pub fn buffer_name(&self, i: u32) -> Option<&str>
        ensures { option_map (λ name. name.now) result ≡ option_map (λ b. b.name) (slice_get self.now.state.buffers i) }
    {
        self.views.state().name(i)
    }

    /// The text of the buffer with a name; None exactly where no buffer has it.
    pub fn text(&self, buffer: &str) -> Option<&Buffer>
        ensures { option_map (λ text. text.now) result ≡ text_named buffer.now self.now.state.buffers }
    {
        let state = self.views.state();
        let number = state.number_of(buffer)?;
        let found = state.buffer(number)?;
        Some(&found.text)
    }

    /// The number of the buffer that the window with a number shows, from 0 in order of making; None exactly where no such window lives.
    pub fn buffer_number(&self, w: u32) -> Option<u32>
        ensures { result ≡ option_map (λ window. window.buffer) (window_of w self.now.state.windows) }
    {
        self.views.state().window(w).map(|window| window.buffer)
    }

    /// The text of the buffer with a number, from 0 in order of making; None exactly past the last.
    pub fn numbered_text(&self, i: u32) -> Option<&Buffer>
        ensures { option_map (λ text. text.now) result ≡ option_map (λ b. b.content.text) (slice_get self.now.state.buffers i) }
    {
        let found = self.views.state().buffer(i)?;
        Some(&found.text)
    }

    /// What stands at a row and a column of the frame, both from 0: the echo area or a part of a window, with the position that a cell of
    /// its text shows, to which the op `hit` would move the window's point. None exactly outside of the frame. No point moves.
    pub fn under(&self, row: u32, column: u32) -> Option<Spot>
        ensures { result ≡ spot_at self.now row column }
    {
        self.views.under(row, column)
    }
}
