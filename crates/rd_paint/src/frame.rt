//! `paint_frame`: the windows one after the other, the echo area and the cursor.
ghost use Rattle.std.specs.Prelude.{◌≡◌, ◌+◌, IfOk, OnOk, length};
ghost use Rattle.rd_frame.specs.Frames.{frame_cursor, rows_of, selected_window};
ghost use Rattle.rd_frame.specs.Paints.{painted};
ghost use Rattle.rd_layout.specs.Screens.{cursor_at, frame_in, laid_out};
ghost use Rattle.rd_layout.specs.Windows.{places, views_in};
ghost use Rattle.rd_term.specs.Pictures.{width_of};
ghost use Rattle.rd_tree.specs.Compositions.{HasSize};
ghost use Rattle.rd_ucd.specs.Data.{Data};
ghost use Rattle.rd_paint.specs.Shown.{AreShown};

use crate::laws::paint_laws;
use crate::leaf::leaf_at;
use crate::pane::paint_leaf;
use rd_base::{Face, Memory};
use rd_frame::{paint_echo, place_cursor, windows_are_painted_in_order};
use rd_glyphs::plain_line;
use rd_layout::{ShownWindow, targets_fit_their_frames};
use rd_state::State;
use rd_term::Screen;
use rd_ucd::Classes;
use std::alloc::Global;

/// Paints the target screen of a frame from what its windows show: each window's rows behind their margins, its border and its mode
/// line, the echo area, and the cursor where the selected window has it. `windows` has what each window shows, in leaf order, and
/// `classes` is for the plain lines (margins, mode lines, echo area). It takes memory for the screen, and at one time for the
/// margins of one window's rows and its mode line. It costs the screen's cells; where a window shows line numbers, also a count of
/// lines for each block that it has the first row of, and where it shows margin strings a listing of the overlays there.
///
/// # Errors
/// Want of memory alone.
pub fn paint_frame(
    alloc: Global,
    classes: &Classes,
    state: &State,
    windows: &[ShownWindow<'_>],
) -> Result<Screen, Memory>
    requires { (files : Data) × AreShown files classes.now state.now windows.now }
    ensures { IfOk result (λ screen. (files : Data) → AreShown files classes.now state.now windows.now → screen ≡ (laid_out files state.now).picture) }
{
    state.states_are_valid();
    targets_fit_their_frames();
    windows_are_painted_in_order();
    let (width, height) = state.frame();
    let mut screen = Screen::blank(alloc, width, height)?;
    paint_windows(&mut screen, alloc, classes, state, windows)?;
    let echo = plain_line(alloc, state.echo(), classes, Face::PLAIN, width)?;
    paint_echo(&mut screen, echo.as_slice());
    place_selected(&mut screen, state, windows);
    Ok(screen)
}

/// Paints all windows of a frame over a screen of its size, in leaf order.
fn paint_windows(
    screen: &mut Screen,
    alloc: Global,
    classes: &Classes,
    state: &State,
    windows: &[ShownWindow<'_>],
) -> Result<(), Memory>
    requires shown { (files : Data) × AreShown files classes.now state.now windows.now }
    requires size { HasSize state.now.tree.width (state.now.tree.height + 1) screen.old.rows }
    ensures size { OnOk result (HasSize state.now.tree.width (state.now.tree.height + 1) screen.new.rows) }
    ensures painted { OnOk result ((files : Data) → AreShown files classes.now state.now windows.now → screen.new ≡ record screen.old { rows = painted (rows_of (frame_in files state.now)) (places state.now) screen.old.rows }) }
{
    state.states_are_valid();
    paint_laws();
    for (i, shown) in windows.iter().enumerate() {
        let leaf = leaf_at(state, i as u32);
        paint_leaf(screen, alloc, classes, state.objects(), &leaf, shown)?;
    }
    Ok(())
}

/// Places the cursor of a screen by that of the selected window.
fn place_selected(screen: &mut Screen, state: &State, windows: &[ShownWindow<'_>])
    requires shown { (files : Data) × (windows.now ≡ views_in files state.now) }
    requires columns { width_of screen.old.rows ≡ state.now.tree.width }
    requires rows { length screen.old.rows ≡ state.now.tree.height + 1 }
    ensures { (files : Data) → windows.now ≡ views_in files state.now → let place = frame_cursor (selected_window (frame_in files state.now)) (cursor_at files state.now state.now.selected) in screen.new ≡ record screen.old { row = place.0; column = place.1 } }
{
    state.states_are_valid();
    targets_fit_their_frames();
    let selected = state.selected();
    match state.tree().placed(selected) {
        Some(place) => place_cursor(screen, place, cursor_of(state, windows, selected)),
        None => unreachable!(),
    }
}

/// The row and the column of the cursor in the text of the window with a number, from 0; None where the window has none.
fn cursor_of(state: &State, windows: &[ShownWindow<'_>], number: u32) -> Option<(u32, u32)>
    requires { (files : Data) × (windows.now ≡ views_in files state.now) }
    ensures { (files : Data) → windows.now ≡ views_in files state.now → result ≡ cursor_at files state.now number }
{
    state.states_are_valid();
    for (i, shown) in windows.iter().enumerate() {
        if leaf_at(state, i as u32).place.number == number {
            return shown.layout.matrix.cursor(shown.chosen.point);
        }
    }
    None
}
