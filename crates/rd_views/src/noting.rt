//! What ops can have changed of what windows show since their last layouts.
ghost use Rattle.std.specs.Prelude.{◌≡◌, option_map};
ghost use Rattle.rd_layout.specs.Changes.{change_by, change_in, if_shown, later, layouts_after, restyled};

use rd_base::{Pos, change_each};
use rd_reuse::Change;
use rd_state::{Effect, State, WindowState};
use rd_window::Layout;

/// Joins what an op can have changed to what changed since the last layouts. The state is the one that the op led to. It takes no memory.
pub(crate) fn note(layouts: &mut Vec<(u32, Layout)>, effect: Effect, state: &State)
    ensures { layouts.new.items ≡ layouts_after effect state.now layouts.old.items }
{
    change_each(&mut layouts[..], |layout| note_in(layout, effect, state));
}

/// Notes in the last layout of one window what an effect changed of what it shows.
fn note_in(layout: &mut (u32, Layout), effect: Effect, state: &State)
    ensures { layout.new ≡ later effect state.now layout.old }
{
    let change = change_in(effect, layout.0, state.window(layout.0));
    layout.1.change = layout.1.change.join(change);
}

/// The change that an effect is for the window with a number: none where it does not live.
fn change_in(effect: Effect, number: u32, window: Option<&WindowState>) -> Change
    ensures { result ≡ change_in effect number (option_map (λ w. w.now) window.entry) }
{
    match window {
        Some(window) => change_by(effect, number, window.buffer),
        None => Change::none(),
    }
}

/// The change that an effect is for the window with a number, which shows a buffer.
fn change_by(effect: Effect, number: u32, shown: u32) -> Change
    ensures { result ≡ change_by effect number shown }
{
    match effect {
        Effect::Nothing => Change::none(),
        Effect::Edit {
            buffer,
            from,
            removed,
            added,
        } => if_shown(buffer, shown, Change::edit(from, removed, added)),
        Effect::Moved {
            buffer,
            before,
            after,
        } => if_shown(buffer, shown, restyled(before).join(restyled(after))),
        Effect::All { buffer } => if_shown(buffer, shown, Change::all()),
        Effect::Window(window) => if_shown(window, number, Change::all()),
    }
}

/// A change of what shows one thing, where that is what is shown, and else none.
fn if_shown(changed: u32, shown: u32, change: Change) -> Change
    ensures { result ≡ if_shown changed shown change }
{
    if changed == shown {
        change
    } else {
        Change::none()
    }
}

/// The change that the text of a range may look otherwise.
fn restyled(range: (Pos, Pos)) -> Change
    ensures { result ≡ restyled range }
{
    let count = range.1.saturating_sub(range.0);
    Change::edit(range.0, count, count)
}
