//! The last layouts of windows, each under its window's number.
ghost use Rattle.std.specs.Prelude.{◌≡◌, ◌≢◌, ℕ, ◌<◌, length, slice_index_or, slice_set, unwrap_or};
ghost use Rattle.rd_layout.specs.Sessions.{layout_of};
ghost use Rattle.rd_views.specs.Layings.{nobody, taken_at};

use crate::desired::LaidWindow;
use rd_state::place_of;
use rd_window::Layout;
use std::mem;

/// Exchanges a layout for the last one of the window with a number, where there is one.
pub(crate) fn exchange(layouts: &mut [(u32, Layout)], window: u32, layout: &mut Layout)
    ensures taken { layout.new ≡ unwrap_or (layout_of window layouts.old) layout.old }
    ensures others { (n : ℕ) → n ≢ window → layout_of n layouts.new ≡ layout_of n layouts.old }
{
    if let Some(i) = place_of(layouts, window as u64) {
        mem::swap(&mut layouts[i].1, layout);
    }
}

/// Puts the last layout of a window in place of that at a place, where the window was not laid out anew and has one.
pub(crate) fn take_last(
    window: LaidWindow,
    layouts: &mut [(u32, Layout)],
    i: usize,
    lasts: &mut [(u32, Layout)],
)
    requires { i < length layouts.old }
    ensures taken { layouts.new ≡ slice_set layouts.old i (taken_at lasts.old window (slice_index_or layouts.old i nobody)) }
    ensures others { (n : ℕ) → n ≢ (slice_index_or layouts.old i nobody).0 → layout_of n lasts.new ≡ layout_of n lasts.old }
{
    if !window.anew {
        let number = layouts[i].0;
        exchange(lasts, number, &mut layouts[i].1);
    }
}
