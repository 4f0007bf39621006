//! Eight numbers of a slice at once.
ghost use Rattle.std.specs.Prelude.{◌≡◌, ℕ, ◌+◌, ◌<◌, ◌≤◌, ◌==◌, nat_le, false, map, length, slice_index};
ghost use Rattle.std.specs.Simd.Lanes.{mask_l, chunk};

use std::simd::prelude::*;

/// How many numbers a group has.
pub(crate) const LANES: usize = 8;

/// Which numbers of the group at an index equal `x`: a bit for each, the lowest for the first.
#[inline(always)]
pub(crate) fn equal(list: &[u32], at: usize, x: u32) -> u64
    requires { at + LANES ≤ length list.now }
    ensures { result ≡ mask_l (map (λ y. y == x) (chunk at 8 list.now)) }
{
    u32x8::from_slice(&list[at..])
        .simd_eq(u32x8::splat(x))
        .to_bitmask()
}

/// Whether a number of the group at an index may equal `x`: where not, none does.
#[inline(always)]
pub(crate) fn may_equal(list: &[u32], at: usize, x: u32) -> bool
    requires { at + LANES ≤ length list.now }
    ensures { result ≡ false → (k : ℕ) → at ≤ k → k < at + 8 → (slice_index list.now k == x) ≡ false }
{
    equal(list, at, x) != 0
}

/// Whether a number of the group at an index may reach `limit`: where not, none does.
#[inline(always)]
pub(crate) fn may_reach(list: &[u32], at: usize, limit: u32) -> bool
    requires { at + LANES ≤ length list.now }
    ensures { result ≡ false → (k : ℕ) → at ≤ k → k < at + 8 → nat_le limit (slice_index list.now k) ≡ false }
{
    u32x8::from_slice(&list[at..])
        .simd_ge(u32x8::splat(limit))
        .to_bitmask()
        != 0
}

/// Whether the groups of two slices at an index may differ: where not, they are equal.
#[inline(always)]
pub(crate) fn may_differ(a: &[u64], b: &[u64], at: usize) -> bool
    requires first { at + LANES ≤ length a.now }
    requires second { at + LANES ≤ length b.now }
    ensures { result ≡ false → (k : ℕ) → at ≤ k → k < at + 8 → slice_index a.now k ≡ slice_index b.now k }
{
    u64x8::from_slice(&a[at..])
        .simd_ne(u64x8::from_slice(&b[at..]))
        .to_bitmask()
        != 0
}
