//! The first and the last place at which a test passes, with a test of eight places at once.
ghost use Rattle.std.specs.Prelude.{ℕ, Bool};
ghost use Rattle.rd_lanes.specs.Walks.{AreTests, Tells, IsFirst, IsLast};

use crate::groups::LANES;

/// The first of `len` places at which `passes` holds. `may_pass` is asked of whole groups, by the index at which they begin, and
/// answers false only where no place of the group passes.
#[inline(always)]
pub(crate) fn first_place<G: Fn(usize) -> bool, P: Fn(usize) -> bool>(
    len: usize,
    may_pass: G,
    passes: P,
) -> Option<usize>
    requires { AreTests len (G.pre may_pass) (G.post may_pass) (P.pre passes) (P.post passes) }
    ensures { (test : ℕ → Bool) → Tells len (P.post passes) test → IsFirst len test result }
{
    let mut at = 0;
    while LANES <= len - at && !may_pass(at) {
        at += LANES;
    }
    for place in at..len {
        if passes(place) {
            return Some(place);
        }
    }
    None
}

/// The last of `len` places at which `passes` holds, groups being taken from the end.
#[inline(always)]
pub(crate) fn last_place<G: Fn(usize) -> bool, P: Fn(usize) -> bool>(
    len: usize,
    may_pass: G,
    passes: P,
) -> Option<usize>
    requires { AreTests len (G.pre may_pass) (G.post may_pass) (P.pre passes) (P.post passes) }
    ensures { (test : ℕ → Bool) → Tells len (P.post passes) test → IsLast len test result }
{
    let mut end = len;
    while LANES <= end && !may_pass(end - LANES) {
        end -= LANES;
    }
    for place in (0..end).rev() {
        if passes(place) {
            return Some(place);
        }
    }
    None
}
