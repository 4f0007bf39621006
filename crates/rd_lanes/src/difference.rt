//! Where two slices of one length differ.
ghost use Rattle.std.specs.Prelude.{◌≡◌, length};
ghost use Rattle.rd_lanes.specs.Kernels.{first_difference, last_difference};

use crate::groups::may_differ;
use crate::walk::{first_place, last_place};

/// The first index at which two slices of one length differ, and None exactly where they are equal.
pub fn first_diff(a: &[u64], b: &[u64]) -> Option<usize>
    requires { length a.now ≡ length b.now }
    ensures { result ≡ first_difference a.now b.now }
{
    first_place(a.len(), |at| may_differ(a, b, at), |i| a[i] != b[i])
}

/// The last index at which two slices of one length differ, and None exactly where they are equal.
pub fn last_diff(a: &[u64], b: &[u64]) -> Option<usize>
    requires { length a.now ≡ length b.now }
    ensures { result ≡ last_difference a.now b.now }
{
    last_place(a.len(), |at| may_differ(a, b, at), |i| a[i] != b[i])
}
