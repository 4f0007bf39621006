//! The windows that live, each under its number, in order of making.
ghost use Rattle.std.specs.Prelude.{◌≡◌, ◌<◌, length, IfOk, OnOk, None, ◌++◌, ◌∷◌, []};
ghost use Rattle.std.specs.Vec.{vec_len, vec_capacity};
ghost use Rattle.rd_state.specs.Windows.{place_in, window_of};
ghost use Rattle.rd_state.specs.Answers.{Finds};
ghost use Rattle.rd_state.specs.declared.refused.Refused.TheVariants.{NoWindow};

use crate::numbered::place_of;
use crate::refused::Refused;
use crate::window::WindowState;
use rd_base::{Ch, ListOf, Memory};
use std::alloc::Global;

/// The place of the window with a number, counted from 0. It is refused exactly where the window does not live.
pub(crate) fn find(windows: &[(u32, WindowState)], number: u64) -> Result<usize, Refused>
    ensures { Finds result (λ i. (i ≡ place_in number windows.now) × (i < length windows.now)) (window_of number windows.now ≡ None) NoWindow }
{
    place_of(windows, number).ok_or(Refused::NoWindow)
}

/// A window with all that another one has.
pub(crate) fn copy(alloc: Global, window: &WindowState) -> Result<WindowState, Memory>
    ensures { IfOk result (λ copy. copy ≡ window.now) }
{
    Ok(WindowState {
        buffer: window.buffer,
        point: window.point,
        anchor: window.anchor,
        forced: window.forced,
        pending: window.pending,
        hscroll: window.hscroll,
        wrap: window.wrap,
        format: copy_format(alloc, &window.format)?,
        numbers: window.numbers,
        strings: window.strings,
    })
}

/// A copy of a mode line's format, where there is one.
fn copy_format(alloc: Global, format: &Option<ListOf<Ch>>) -> Result<Option<ListOf<Ch>>, Memory>
    ensures { IfOk result (λ copy. copy ≡ format.now) }
{
    match format {
        Some(format) => Ok(Some(ListOf::from_slice(alloc, format.as_slice())?)),
        None => Ok(None),
    }
}

/// Makes room for one more window.
pub(crate) fn make_room(windows: &mut Vec<(u32, WindowState)>) -> Result<(), Memory>
    ensures same { windows.new.items ≡ windows.old.items }
    ensures room { OnOk result (vec_len windows.new < vec_capacity windows.new) }
{
    windows.reserve(1)?;
    Ok(())
}

/// Adds a window, for which there is room.
pub(crate) fn add(windows: &mut Vec<(u32, WindowState)>, number: u32, window: WindowState)
    requires { vec_len windows.old < vec_capacity windows.old }
    ensures { windows.new.items ≡ windows.old.items ++ (number, window) ∷ [] }
{
    if windows.push((number, window)).is_err() {
        unreachable!()
    }
}
