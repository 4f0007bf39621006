//! Rows of screens that are compared and numbered.
ghost use Rattle.std.specs.Prelude.{◌≡◌, length, map, not};
ghost use Rattle.rd_term.specs.Pictures.{width_of, blank_row};
ghost use Rattle.rd_update.specs.Plans.{HaveOneSize};
ghost use Rattle.rd_update.specs.Updates.{differs, differing as differing_rows};
ghost use Rattle.rd_lineshift.specs.Numbers.{number_in, print_from, mixed};

use crate::numbers::Numbers;
use rd_base::limits::FRAME_COLUMNS;
use rd_base::{Cell, Face};
use rd_term::{Screen, first_blanks};
use rd_update::differ;

/// How many rows of two screens of one size differ.
pub(crate) fn differing(current: &Screen, target: &Screen) -> u32
    requires { HaveOneSize (Some current.now) target.now }
    ensures { result ≡ differing_rows current.now.rows target.now.rows }
{
    let mut count = 0;
    for row in 0..target.height() {
        if differ(current.row(row), target.row(row)) {
            count += 1;
        }
    }
    count
}

/// A row's print with one more number.
fn mix(print: u64, number: u64) -> u64
    ensures { result ≡ mixed print number }
{
    print.wrapping_mul(1_099_511_628_211).wrapping_add(number)
}

/// A row's print, of the first word of each cell: those of rows that are the same are equal.
fn print_of(cells: &[Cell]) -> u64
    ensures { result ≡ print_from 0 cells.now }
{
    let mut print = 0;
    for i in 0..cells.len() {
        let words = cells[i].words();
        print = mix(print, words[0]);
    }
    print
}

/// The prints of a screen's rows.
pub(crate) fn prints_of(screen: &Screen) -> Numbers
    ensures { result.items ≡ map (print_from 0) screen.now.rows }
{
    let _width = screen.width();
    let mut prints = Numbers::new();
    for row in 0..screen.height() {
        prints.push(print_of(screen.row(row)));
    }
    prints
}

/// Whether two rows of one width are the same, by their prints and, where these are equal, by their cells.
fn same_row(old: &[Cell], old_print: u64, new: &[Cell], new_print: u64) -> bool
    requires length { length old.now ≡ length new.now }
    requires old_print { old_print ≡ print_from 0 old.now }
    requires new_print { new_print ≡ print_from 0 new.now }
    ensures { result ≡ not (differs old.now new.now) }
{
    if old_print != new_print {
        return false;
    }
    !differ(old, new)
}

/// The number of the first row of the target that is the same as a row of its width, which has a print, and the target's height where
/// none is. The rows are compared where their prints are equal.
fn number_of(target: &Screen, prints: &Numbers, row: &[Cell], print: u64) -> u64
    requires prints { prints.now.items ≡ map (print_from 0) target.now.rows }
    requires width { length row.now ≡ width_of target.now.rows }
    requires print { print ≡ print_from 0 row.now }
    ensures { result ≡ number_in target.now.rows row.now }
{
    let prints = prints.as_slice();
    for i in 0..target.height() {
        if same_row(target.row(i), prints[i as usize], row, print) {
            return i as u64;
        }
    }
    target.height() as u64
}

/// The numbers of a screen's rows by the target's. Both have their prints.
pub(crate) fn numbers_of(
    target: &Screen,
    prints: &Numbers,
    screen: &Screen,
    own_prints: &Numbers,
) -> Numbers
    requires size { HaveOneSize (Some screen.now) target.now }
    requires prints { prints.now.items ≡ map (print_from 0) target.now.rows }
    requires own_prints { own_prints.now.items ≡ map (print_from 0) screen.now.rows }
    ensures { result.items ≡ map (number_in target.now.rows) screen.now.rows }
{
    let _width = screen.width();
    let own_prints = own_prints.as_slice();
    let mut numbers = Numbers::new();
    for row in 0..screen.height() {
        let print = own_prints[row as usize];
        numbers.push(number_of(target, prints, screen.row(row), print));
    }
    numbers
}

/// The number of a blank row by the target's.
pub(crate) fn number_of_blank(target: &Screen, prints: &Numbers) -> u64
    requires { prints.now.items ≡ map (print_from 0) target.now.rows }
    ensures { result ≡ number_in target.now.rows (blank_row (width_of target.now.rows)) }
{
    let blanks = [Cell::Blank(Face::PLAIN); FRAME_COLUMNS as usize];
    let blank = first_blanks(&blanks, target.width());
    number_of(target, prints, blank, print_of(blank))
}
