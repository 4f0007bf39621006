//! How many numbers equal one, and whether all stay below one.
ghost use Rattle.std.specs.Prelude.{◌≡◌, ◌≤◌, ◌==◌, nat_lt, length};
ghost use Rattle.std.specs.List.{count_by, list_all};

use crate::groups::{LANES, equal, may_reach};
use crate::walk::first_place;

/// How often `x` stands in a slice.
pub fn count(list: &[u32], x: u32) -> usize
    ensures value { result ≡ count_by (λ y. y == x) list.now }
    ensures bound { result ≤ length list.now }
{
    let mut count = 0;
    let mut at = 0;
    while LANES <= list.len() - at {
        count += equal(list, at, x).count_ones() as usize;
        at += LANES;
    }
    let (_groups, rest) = list.split_at(at);
    count + rest.iter().filter(|y| **y == x).count()
}

/// Whether each number is less than `limit`.
pub fn all_below(list: &[u32], limit: u32) -> bool
    ensures { result ≡ list_all (λ y. nat_lt y limit) list.now }
{
    first_place(
        list.len(),
        |at| may_reach(list, at, limit),
        |i| limit <= list[i],
    )
    .is_none()
}
