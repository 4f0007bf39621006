//! Which shift is taken.
ghost use Rattle.std.specs.Prelude.{◌≡◌, ◌+◌, ◌-◌, ◌<◌, ◌≤◌, length, map, pos, neg_ℤ, Some, IfSome, if◌then◌else◌};
ghost use Rattle.std.specs.List.{flat_map};
ghost use Rattle.rd_term.specs.Pictures.{IsWellFormed, blank_row, width_of};
ghost use Rattle.rd_update.specs.Plans.{HaveOneSize};
ghost use Rattle.rd_lineshift.specs.Choices.{AreWithin, choice, cheapest, shift_by, shifts_of};
ghost use Rattle.rd_lineshift.specs.Numbers.{gained, lesser, number_cost, number_in, priced, unlike_moved};

use crate::band::{Band, Shift};
use crate::numbers::{Numbers, unlike, unlike_one};
use crate::rows::{differing, number_of_blank, numbers_of, prints_of};
use rd_base::limits::FRAME_ROWS;
use rd_term::Screen;

/// How many rows a shift must spare.
pub(crate) const GAIN: u32 = 3;

/// A shift, and how many rows differ after it.
#[derive(Clone, Copy)]
pub(crate) struct Priced {
    shift: Shift,
    cost: u32,
}

/// The numbers of the rows of a current screen and of a target, and that of a blank row: rows of the same number are the same,
/// where one is the target's.
#[derive(Drop)]
struct Numbered {
    old: Numbers,
    new: Numbers,
    blank: u64,
}

/// The shift that brings the current screen nearest to the target. Of all shifts of all bands it is the first that leaves the
/// fewest rows that differ: the bands are taken in order, then the shifts by the number of their rows from 1 on, then the one
/// upward. None comes exactly where that many are not at least three fewer than differ without a shift. It takes no memory. Where
/// there is no band it looks at nothing. Else it compares the rows that stand in the same place, and goes on only where at least
/// three of them differ. Then it looks at each cell of both screens a fixed number of times, where it compares two rows cell by cell
/// only if their prints are equal, and at the numbers of all rows once for each shift.
pub fn shift_of(current: &Screen, target: &Screen, bands: &[Band]) -> Option<Shift>
    requires size { HaveOneSize (Some current.now) target.now }
    requires current { IsWellFormed current.now }
    requires target { IsWellFormed target.now }
    requires bands { AreWithin (length target.now.rows) bands.now }
    ensures { result ≡ choice (Some current.now) target.now bands.now }
{
    if bands.is_empty() {
        return None;
    }
    let rows = differing(current, target);
    if rows < GAIN {
        return None;
    }
    let _old_width = current.width();
    let _new_width = target.width();
    gaining(cheapest_of(&number_rows(current, target), bands), rows)
}

/// A shift that costs at least three less than so many rows.
fn gaining(best: Option<Priced>, rows: u32) -> Option<Shift>
    requires { IfSome best (λ p. p.cost ≤ FRAME_ROWS) }
    ensures { result ≡ gained rows best }
{
    match best {
        Some(priced) if priced.cost + GAIN <= rows => Some(priced.shift),
        _ => None,
    }
}

/// The numbers of the rows of two screens of one size.
fn number_rows(current: &Screen, target: &Screen) -> Numbered
    requires { HaveOneSize (Some current.now) target.now }
    ensures old { result.old.items ≡ map (number_in target.now.rows) current.now.rows }
    ensures new { result.new.items ≡ map (number_in target.now.rows) target.now.rows }
    ensures blank { result.blank ≡ number_in target.now.rows (blank_row (width_of target.now.rows)) }
    ensures few { length target.now.rows ≤ FRAME_ROWS }
{
    let _width = target.width();
    let prints = prints_of(target);
    Numbered {
        old: numbers_of(target, &prints, current, &prints_of(current)),
        new: numbers_of(target, &prints, target, &prints),
        blank: number_of_blank(target, &prints),
    }
}

/// The first of the shifts of these bands that cost the least.
fn cheapest_of(numbers: &Numbered, bands: &[Band]) -> Option<Priced>
    requires length { length numbers.now.old.items ≡ length numbers.now.new.items }
    requires few { length numbers.now.new.items ≤ FRAME_ROWS }
    requires bands { AreWithin (length numbers.now.new.items) bands.now }
    ensures value { result ≡ priced (number_cost numbers.now.old.items numbers.now.new.items numbers.now.blank) (cheapest (number_cost numbers.now.old.items numbers.now.new.items numbers.now.blank) (flat_map shifts_of bands.now)) }
    ensures bound { IfSome result (λ p. p.cost ≤ FRAME_ROWS) }
{
    let mut best = None;
    for i in 0..bands.len() {
        let band = bands[i];
        for by in 1..band.height {
            best = cheaper(best, priced_shift(numbers, band, by, true));
            best = cheaper(best, priced_shift(numbers, band, by, false));
        }
    }
    best
}

/// One of two shifts, the second only where it costs less.
fn cheaper(best: Option<Priced>, other: Priced) -> Option<Priced>
    ensures { result ≡ lesser best (Some other) }
{
    match best {
        Some(first) if first.cost <= other.cost => best,
        _ => Some(other),
    }
}

/// The shift of a band by so many rows, up or else down: those of its rows that stay stand from its top on and blank ones behind them,
/// or the blank ones from its top on.
fn priced_shift(numbers: &Numbered, band: Band, by: u32, up: bool) -> Priced
    requires length { length numbers.now.old.items ≡ length numbers.now.new.items }
    requires few { length numbers.now.new.items ≤ FRAME_ROWS }
    requires band { band.top + band.height ≤ length numbers.now.new.items }
    requires some { 1 ≤ by }
    requires by { by < band.height }
    ensures shift { result.shift ≡ shift_by band (if up then pos by else neg_ℤ (pos by)) }
    ensures cost { result.cost ≡ number_cost numbers.now.old.items numbers.now.new.items numbers.now.blank (shift_by band (if up then pos by else neg_ℤ (pos by))) }
    ensures bound { result.cost ≤ FRAME_ROWS }
{
    let (top, free) = (band.top, band.top + (band.height - by));
    if up {
        return Priced {
            shift: shift_by(band, by as i64),
            cost: unlike_moved(numbers, band, by, top + by, top, free),
        };
    }
    Priced {
        shift: shift_by(band, -(by as i64)),
        cost: unlike_moved(numbers, band, by, top, top + by, top),
    }
}

/// The shift of a band by so many rows, up where the number is above 0.
fn shift_by(band: Band, by: i64) -> Shift
    ensures { result ≡ shift_by band by }
{
    Shift {
        top: band.top,
        height: band.height,
        by,
    }
}

/// How many rows differ where all rows of a band but `by` stand from `into` on that stood from `from` on, and `by` blank ones from
/// `free` on. All three are rows of the frame.
fn unlike_moved(numbers: &Numbered, band: Band, by: u32, from: u32, into: u32, free: u32) -> u32
    requires length { length numbers.now.old.items ≡ length numbers.now.new.items }
    requires few { length numbers.now.new.items ≤ FRAME_ROWS }
    requires band { band.top + band.height ≤ length numbers.now.new.items }
    requires by { by ≤ band.height }
    requires from { from ≤ band.top + by }
    requires into { into ≤ band.top + by }
    requires free { free ≤ band.top + (band.height - by) }
    ensures value { result ≡ unlike_moved numbers.now.old.items numbers.now.new.items numbers.now.blank band by from into free }
    ensures bound { result ≤ FRAME_ROWS }
{
    let (old, new) = (numbers.old.as_slice(), numbers.new.as_slice());
    let (top, end) = (band.top as usize, (band.top + band.height) as usize);
    let (kept, by) = ((band.height - by) as usize, by as usize);
    let (from, into, free) = (from as usize, into as usize, free as usize);
    unlike(&old[..top], &new[..top])
        + unlike(&old[from..from + kept], &new[into..into + kept])
        + unlike_one(numbers.blank, &new[free..free + by])
        + unlike(&old[end..], &new[end..])
}
