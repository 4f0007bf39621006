//! What laying out all windows gave is kept.
ghost use Rattle.std.specs.Prelude.{◌≡◌, length, None};
ghost use Rattle.rd_layout.specs.Redisplays.{AreLaidOut};
ghost use Rattle.rd_layout.specs.Screens.{laid_out};
ghost use Rattle.rd_layout.specs.Windows.{places};
ghost use Rattle.rd_views.specs.Layings.{AreOnce, CanSettle, IsDesired, all_settled, layouts_taken};

use crate::desired::{Desired, LaidWindow};
use crate::lasts::take_last;
use crate::views::Views;
use rd_layout::{redisplays_keep_states, redisplays_lead_on};
use rd_state::State;
use rd_window::Layout;

impl Views {
    /// Keeps what laying out all windows gave: each window has the start and the point that were chosen for it, and its new layout.
    /// It takes no memory.
    pub fn adopt(&mut self, desired: Desired)
        requires { IsDesired self.old desired }
        ensures files { self.new.files ≡ self.old.files }
        ensures state { self.new.state ≡ (laid_out self.old.files self.old.state).state }
        ensures layouts { AreLaidOut self.old (places self.old.state) self.new.layouts }
        ensures current { self.new.current ≡ None }
    {
        redisplays_keep_states();
        redisplays_lead_on();
        let Desired {
            windows,
            mut layouts,
        } = desired;
        settle(&mut self.state, windows.as_slice(), layouts.as_slice());
        take_lasts(windows.as_slice(), &mut layouts, &mut self.layouts);
        self.layouts = layouts;
    }
}

/// Gives windows the starts and the points that were chosen for them.
fn settle(state: &mut State, windows: &[LaidWindow], layouts: &[(u32, Layout)])
    requires same { length layouts.now ≡ length windows.now }
    requires can { CanSettle state.old windows.now layouts.now }
    ensures { state.new ≡ all_settled windows.now layouts.now state.old }
{
    for i in 0..windows.len() {
        let chosen = windows[i].chosen;
        state.settle(layouts[i].0, chosen.anchor, chosen.point);
    }
}

/// Puts the last layouts in place of those of windows that were not laid out anew.
fn take_lasts(windows: &[LaidWindow], layouts: &mut [(u32, Layout)], lasts: &mut [(u32, Layout)])
    requires same { length layouts.old ≡ length windows.now }
    requires once { AreOnce layouts.old }
    ensures { layouts.new ≡ layouts_taken lasts.old windows.now layouts.old }
{
    for i in 0..windows.len() {
        take_last(windows[i], layouts, i, lasts);
    }
}
