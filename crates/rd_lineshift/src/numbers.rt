//! Numbers for rows, so that rows are compared by them.
ghost use Rattle.std.specs.Prelude.{◌≡◌, ◌≤◌, length, replicate};
ghost use Rattle.rd_lineshift.specs.Numbers.{unlike as unlike_of};

use arrayvec::ArrayVec;
use rd_base::limits::FRAME_ROWS;

/// The most rows of a screen.
const ROWS: usize = FRAME_ROWS as usize;

/// A number for each row of a screen.
pub(crate) type Numbers = ArrayVec<u64, ROWS>;

/// At how many places numbers differ from others.
pub(crate) fn unlike(numbers: &[u64], others: &[u64]) -> u32
    requires length { length numbers.now ≡ length others.now }
    requires few { length others.now ≤ FRAME_ROWS }
    ensures value { result ≡ unlike_of numbers.now others.now }
    ensures bound { result ≤ length others.now }
{
    let mut count = 0;
    for i in 0..others.len() {
        if numbers[i] != others[i] {
            count += 1;
        }
    }
    count
}

/// How many of these numbers are not this one.
pub(crate) fn unlike_one(number: u64, others: &[u64]) -> u32
    requires few { length others.now ≤ FRAME_ROWS }
    ensures value { result ≡ unlike_of (replicate (length others.now) number) others.now }
    ensures bound { result ≤ length others.now }
{
    let alike = [number; ROWS];
    unlike(&alike[..others.len()], others)
}
