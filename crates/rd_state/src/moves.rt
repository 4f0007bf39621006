//! Where the points and the views of windows move when the text that they show changes.
ghost use Rattle.std.specs.Prelude.{◌≡◌, ℕ, ◌+◌, ◌≤◌, Some, map, slice_get};
ghost use Rattle.rd_base.specs.declared.limits.TheConstants.{LAST_POSITION};
ghost use Rattle.rd_state.specs.Moves.{point_after_insertion, place_after, moved, moved_in};
ghost use Rattle.rd_state.specs.Movable.{IsMovable, CanMove};
ghost use Rattle.rd_state.specs.Windows.{NumberedWindow};

use crate::window::WindowState;
use rd_base::{Pos, change_each};
use rd_overlays::after_deletion;

/// What happened to a text: so many characters were put in before a position, a range was taken away, or a range was made the
/// accessible one.
#[derive(Clone, Copy, Debug, PartialEq, Eq)]
pub enum Move {
    Inserted(Pos, u32),
    Deleted(Pos, Pos),
    Narrowed(Pos, Pos),
}

/// Moves the windows that show the buffer with this number.
pub(crate) fn move_windows(windows: &mut Vec<(u32, WindowState)>, buffer: u32, how: Move)
    requires { (k : ℕ) (e : NumberedWindow) → slice_get windows.old.items k ≡ Some e → CanMove buffer how e }
    ensures { windows.new.items ≡ map (moved_in buffer how) windows.old.items }
{
    change_each(&mut windows[..], |window| move_in(window, buffer, how));
}

/// Moves a window, where it shows the buffer with this number.
fn move_in(window: &mut (u32, WindowState), buffer: u32, how: Move)
    requires { CanMove buffer how window.old }
    ensures { window.new ≡ moved_in buffer how window.old }
{
    if window.1.buffer == buffer {
        move_window(&mut window.1, how);
    }
}

/// Moves the point and the view of a window.
fn move_window(window: &mut WindowState, how: Move)
    requires point { IsMovable how window.old.point }
    requires anchor { IsMovable how window.old.anchor.pos }
    ensures { window.new ≡ moved how window.old }
{
    window.point = place_after(how, window.point);
    window.anchor.pos = place_after(how, window.anchor.pos);
}

/// Where a position stands after a change of its text.
fn place_after(how: Move, p: Pos) -> Pos
    requires { IsMovable how p }
    ensures { result ≡ place_after how p }
{
    match how {
        Move::Inserted(pos, count) => point_after_insertion(pos, count, p),
        Move::Deleted(from, to) => after_deletion(from, to, p),
        Move::Narrowed(from, to) => from.max(p.min(to)),
    }
}

/// Where a point or an anchor stands after an insertion of so many characters.
fn point_after_insertion(pos: Pos, count: u32, p: Pos) -> Pos
    requires { p + count ≤ LAST_POSITION }
    ensures { result ≡ point_after_insertion pos count p }
{
    if pos < p { p + count } else { p }
}
