//! The ops that move a window's point by what is seen.
ghost use Rattle.std.specs.Prelude.{◌≡◌, ◌≢◌, IfErr, IfOk, OnErr, None};
ghost use Rattle.rd_layout.specs.Pointing.{going, hitting, is_shown, stepped_to};
ghost use Rattle.rd_layout.specs.Sessions.{Applied, layout_of};
ghost use Rattle.rd_script.specs.declared.op.Op.TheVariants.{Go, Hit};
ghost use Rattle.rd_state.specs.Valid.{IsWindow};
ghost use Rattle.rd_state.specs.Windows.{window_of};
ghost use Rattle.rd_state.specs.declared.refused.Refused.TheVariants.{NoWindow};
ghost use Rattle.rd_views.specs.Answers.{Points};

use crate::looking::shape_of;
use crate::views::Views;
use rd_base::{Memory, Pos};
use rd_frame::body_height;
use rd_layout::sessions_stay_known;
use rd_rows::Shape;
use rd_script::Op;
use rd_state::{Refused, State, WindowState};
use rd_visual::{left, position_at, right};
use rd_window::Layout;

impl Views {
    /// Moves a window's point one step right or left in visual order; point stays where there is no such step. NoWindow comes exactly
    /// where no such window lives.
    pub(crate) fn go(&mut self, window: u64, to_the_right: bool) -> Result<(), Refused>
        ensures { Applied result (Go window to_the_right) self.old self.new }
    {
        let pos = self.beside(window, to_the_right)?;
        self.pass_on(Op::Point {
            window,
            pos: u64::from(pos),
        })
    }

    /// Moves a window's point to what is shown in a row and a column of its text, both from 0; point stays where that shows no position.
    /// NoWindow comes exactly where no such window lives, and NotShown where the window may not show its last layout any more.
    pub(crate) fn hit(&mut self, window: u64, row: u32, column: u32) -> Result<(), Refused>
        ensures applies { Applied result (Hit window row column) self.old self.new }
        ensures free { result ≢ Err Refused.Memory }
    {
        let pos = self.position_shown(window, row, column)?;
        self.pass_on(Op::Point {
            window,
            pos: u64::from(pos),
        })
    }

    /// The position one step right or left of a window's point, and point itself where there is no such step.
    fn beside(&self, window: u64, to_the_right: bool) -> Result<Pos, Refused>
        ensures { Points result window self.now.state (going self.now.files self.now.state window to_the_right) }
    {
        self.state.states_are_valid();
        let number = number_of(&self.state, window)?;
        let Some(shown) = self.state.window(number) else {
            return Err(Refused::NoWindow);
        };
        let pos = self.stepped_to(shown, to_the_right)?;
        Ok(pos)
    }

    /// The least position of the item beside that which covers the point of a valid window, and point itself where there is none.
    fn stepped_to(&self, window: &WindowState, to_the_right: bool) -> Result<Pos, Memory>
        requires { IsWindow self.now.state.buffers window.now }
        ensures { IfOk result (λ pos. pos ≡ stepped_to self.now.files self.now.state window.now to_the_right) }
    {
        let view = self.look_at(window);
        let beside = if to_the_right {
            right(self.alloc, &view, window.point)?
        } else {
            left(self.alloc, &view, window.point)?
        };
        Ok(beside.unwrap_or(window.point))
    }

    /// The position that is shown in a row and a column of a window's text, and its point where they show none.
    fn position_shown(&self, window: u64, row: u32, column: u32) -> Result<Pos, Refused>
        ensures points { Points result window self.now.state (hitting self.now.state window (layout_of window self.now.layouts) row column) }
        ensures free { result ≢ Err Refused.Memory }
    {
        sessions_stay_known();
        let number = number_of(&self.state, window)?;
        let Some(shown) = self.state.window(number) else {
            return Err(Refused::NoWindow);
        };
        let Some(layout) = self.layout(number) else {
            return Err(Refused::NotShown);
        };
        let Some(place) = self.state.tree().placed(number) else {
            return Err(Refused::NotShown);
        };
        let shape = shape_of(&self.state, shown, place);
        if !is_shown(layout, shape, body_height(place)) {
            return Err(Refused::NotShown);
        }
        let pos = position_at(&layout.matrix, row, column);
        Ok(pos.unwrap_or(shown.point))
    }
}

/// The number of a window, as the state counts windows. It is refused only where no such window lives.
fn number_of(state: &State, window: u64) -> Result<u32, Refused>
    ensures same { IfOk result (λ number. number ≡ window) }
    ensures absent { OnErr result (window_of window state.now.windows ≡ None) }
    ensures refused { IfErr result (λ refused. refused ≡ NoWindow) }
{
    state.states_are_valid();
    if window > u64::from(u32::MAX) {
        return Err(Refused::NoWindow);
    }
    Ok(window as u32)
}

/// Whether a layout is what a window still shows: nothing changed since, and it has the window's shape and height.
pub(crate) fn is_shown(layout: &Layout, shape: Shape, height: u32) -> bool
    ensures { result ≡ is_shown layout.now shape height }
{
    layout.change.is_none() && layout.shape.is_same(shape) && layout.height == height
}
