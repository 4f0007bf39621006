//! Rows that are cleared, and rows that are moved within a part of the screen.
ghost use Rattle.std.specs.Prelude.{◌≡◌, ◌≤◌, length, map};
ghost use Rattle.rd_term.specs.Shifts.{cleared, moved, moved_down, moved_up, changed_between};

use rd_base::{Cell, Face, ListOf, change_each};

/// The way that rows are moved.
#[derive(Clone, Copy)]
pub(crate) enum RowMove {
    Down,
    Up,
}

/// Makes the cells of a row blank and plain.
fn clear(row: &mut ListOf<Option<Cell>>)
    ensures { row.new ≡ cleared row.old }
{
    let end = row.len();
    row.fill(0, end, Some(Cell::Blank(Face::PLAIN)));
}

/// Makes the cells of these rows blank and plain.
fn clear_rows(rows: &mut [ListOf<Option<Cell>>])
    ensures { rows.new ≡ map cleared rows.old }
{
    change_each(rows, clear);
}

/// Makes the cells of all rows blank and plain.
pub(crate) fn clear_all(rows: &mut Vec<ListOf<Option<Cell>>>)
    ensures { rows.new.items ≡ map cleared rows.old.items }
{
    clear_rows(&mut rows[..]);
}

/// Moves the rows from one to before another down or up by so many.
pub(crate) fn move_rows(
    rows: &mut Vec<ListOf<Option<Cell>>>,
    from: usize,
    end: usize,
    way: RowMove,
    count: usize,
)
    requires order { from ≤ end }
    requires end { end ≤ length rows.old.items }
    ensures { rows.new.items ≡ changed_between from end (moved way count) rows.old.items }
{
    push(&mut rows[from..end], way, count);
}

/// Moves rows down or up by so many, and blank ones come in their place.
fn push(rows: &mut [ListOf<Option<Cell>>], way: RowMove, count: usize)
    ensures { rows.new ≡ moved way count rows.old }
{
    match way {
        RowMove::Down => push_down(rows, count),
        RowMove::Up => push_up(rows, count),
    }
}

/// Moves rows down by so many: the last ones are lost, and blank ones come before the others.
fn push_down(rows: &mut [ListOf<Option<Cell>>], count: usize)
    ensures { rows.new ≡ moved_down count rows.old }
{
    let kept = rows.len().saturating_sub(count);
    let lost = rows.len() - kept;
    rows.rotate_left(kept);
    clear_rows(&mut rows[..lost]);
}

/// Moves rows up by so many: the first ones are lost, and blank ones come behind the others.
fn push_up(rows: &mut [ListOf<Option<Cell>>], count: usize)
    ensures { rows.new ≡ moved_up count rows.old }
{
    let lost = count.min(rows.len());
    let kept = rows.len() - lost;
    rows.rotate_left(lost);
    clear_rows(&mut rows[kept..]);
}
