//! Walks over places for as long as a test passes.
ghost use Rattle.std.specs.Prelude.{◌≡◌, ℕ, ◌+◌, ◌-◌, ◌≤◌, ◌<◌, Bool};
ghost use Rattle.rd_term.specs.Walks.{Tells, back_while, passing};

/// The last place up to this one at which a test fails, and 0 where there is none. At 0 the test is not asked.
pub fn back_while<P: Fn(usize) -> bool>(from: usize, passes: P) -> usize
    requires { (place : ℕ) → 0 < place → place ≤ from → P.pre passes place }
    ensures value { (test : ℕ → Bool) → Tells 1 (from + 1) (P.post passes) test → result ≡ back_while test from }
    ensures order { result ≤ from }
{
    let mut place = from;
    while place > 0 && passes(place) {
        place -= 1;
    }
    place
}

/// The first place from this one on at which a test fails, and `end` where it passes at all places before that.
pub fn on_while<P: Fn(usize) -> bool>(from: usize, end: usize, passes: P) -> usize
    requires order { from ≤ end }
    requires asked { (place : ℕ) → from ≤ place → place < end → P.pre passes place }
    ensures value { (test : ℕ → Bool) → Tells from end (P.post passes) test → result ≡ from + passing test from (end - from) }
    ensures least { from ≤ result }
    ensures most { result ≤ end }
{
    let mut place = from;
    while place < end && passes(place) {
        place += 1;
    }
    place
}
