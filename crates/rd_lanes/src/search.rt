//! The first and the last place of a number.
ghost use Rattle.std.specs.Prelude.{◌≡◌, ◌==◌};
ghost use Rattle.std.specs.List.{position};
ghost use Rattle.rd_lanes.specs.Kernels.{last_position};

use crate::groups::may_equal;
use crate::walk::{first_place, last_place};

/// The index of the first `x`, and None exactly where there is none.
pub fn find(list: &[u32], x: u32) -> Option<usize>
    ensures { result ≡ position (λ y. y == x) list.now }
{
    first_place(list.len(), |at| may_equal(list, at, x), |i| list[i] == x)
}

/// The index of the last `x`, and None exactly where there is none.
pub fn rfind(list: &[u32], x: u32) -> Option<usize>
    ensures { result ≡ last_position (λ y. y == x) list.now }
{
    last_place(list.len(), |at| may_equal(list, at, x), |i| list[i] == x)
}
