//! What a window of a state is laid out from: the view of its buffer, and its shape.
ghost use Rattle.std.specs.Prelude.{◌≡◌, ◌<◌, length};
ghost use Rattle.rd_layout.specs.Windows.{window_shape};
ghost use Rattle.rd_props.specs.Buffers.{files_of, meaning};
ghost use Rattle.rd_state.specs.States.{seen};
ghost use Rattle.rd_state.specs.Windows.{shown_content};
ghost use Rattle.rd_tree.specs.Calls.{frame_of};
ghost use Rattle.rd_tree.specs.Places.{StandsIn};

use crate::views::Views;
use rd_frame::body_width;
use rd_props::View;
use rd_rows::Shape;
use rd_state::{State, WindowState};
use rd_tree::Placed;

impl Views {
    /// What a look at the buffer that a window shows needs. The window shows a buffer that was made.
    pub(crate) fn look_at<'a>(&'a self, window: &WindowState) -> View<'a>
        requires { window.now.buffer < length self.now.state.buffers }
        ensures content { meaning result.state.now ≡ seen (shown_content self.now.state window.now) }
        ensures objects { result.objects.now ≡ self.now.state.objects }
        ensures files { files_of result ≡ self.now.files }
    {
        match self.state.buffer(window.buffer) {
            Some(state) => View {
                state,
                objects: self.state.objects(),
                classes: &self.classes,
                mirrors: &self.mirrors,
                brackets: &self.brackets,
            },
            None => unreachable!(),
        }
    }
}

/// How the lines of a window are cut that stands at a place of the frame.
pub(crate) fn shape_of(state: &State, window: &WindowState, place: Placed) -> Shape
    requires { StandsIn place (frame_of state.now.tree) }
    ensures { result ≡ window_shape state.now window.now place }
{
    state.states_are_valid();
    let (width, _height) = state.frame();
    Shape {
        width: body_width(width, place),
        wrap: window.wrap,
        hscroll: window.hscroll,
    }
}
