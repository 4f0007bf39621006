//! Rules N1 and N2 of UAX 9 in one walk over an isolating run sequence. Each rule is a function here.
ghost use Rattle.std.specs.Prelude.{◌≡◌, ◌<◌, length, All, AllPairs};
ghost use Rattle.rd_resolve.specs.Neutral.{is_ni, n1_side, n1_following, n1_surrounding_direction, n2_embedding_direction, neutral_types};
ghost use Rattle.rd_resolve.specs.Places.{types_at, levels_at, TakesTypes};
ghost use Rattle.rd_resolve.specs.Walks.{SideIs};

use crate::walk::{WalkRules, walk};
use rd_base::{Class, Line, Seq};

/// What N1 knows at a character: the direction before it, within a run of neutrals the one behind the run, and the one at the
/// sequence's end.
#[derive(Clone, Copy)]
pub struct Sides {
    pub before: Class,
    pub run: Option<Class>,
    pub eos: Class,
}

/// Gives the neutrals of an isolating run sequence the types that rules N1 and N2 of UAX 9 make of theirs. The sequence's indexes
/// ascend and lie within the line.
///
/// One walk does both rules; a run of neutrals is looked through once. The cost is linear in the sequence.
pub fn neutral(line: &mut Line, seq: &Seq)
    requires within { All (λ i. i < length line.old.classes) seq.now.indexes }
    requires ascend { AllPairs (λ i j. i < j) seq.now.indexes }
    ensures { TakesTypes line.old line.new seq.now.indexes
        (neutral_types seq.now.sos seq.now.eos (types_at seq.now.indexes line.old.types) (levels_at seq.now.indexes line.old.levels)) }
{
    let sides = Sides {
        before: seq.sos,
        run: None,
        eos: seq.eos,
    };
    walk(line, seq, sides);
}

impl WalkRules for Sides {
    ghost use Rattle.rd_resolve.specs.Neutral.{n1, n2};
    ghost use Rattle.rd_resolve.specs.Walks.{SideIs};

    ghost left = { λ sides classes types levels. n2 (n1 sides.before sides.eos types) levels };

    ghost is_known = { λ sides types. SideIs sides.run sides.eos types };

    fn step(
        &mut self,
        _original: Class,
        class: Class,
        level: u8,
        types: &[Class],
        rest: &[u32],
    ) -> Class {
        if !is_ni(class) {
            self.before = n1_side(class);
            self.run = None;
            return class;
        }
        let after = self.n1_after(types, rest);
        self.run = Some(after);
        let after_n1 = n1_surrounding_direction(self.before, after, class);
        n2_embedding_direction(after_n1, level)
    }
}

impl Sides {
    /// For N1, the direction behind the run of neutrals that a character belongs to. The run is looked through only where it begins.
    fn n1_after(&self, types: &[Class], rest: &[u32]) -> Class
        requires within { All (λ i. i < length types.now) rest.now }
        requires run { SideIs self.now.run self.now.eos (types_at rest.now types.now) }
        ensures { result ≡ n1_following self.now.eos (types_at rest.now types.now) }
    {
        match self.run {
            Some(after) => after,
            None => n1_following(self.eos, types, rest),
        }
    }
}

/// For N1, the direction of the first character at these indexes that is not neutral, else that at the sequence's end.
fn n1_following(eos: Class, types: &[Class], rest: &[u32]) -> Class
    requires { All (λ i. i < length types.now) rest.now }
    ensures { result ≡ n1_following eos (types_at rest.now types.now) }
{
    for i in rest {
        let class = types[*i as usize];
        if !is_ni(class) {
            return n1_side(class);
        }
    }
    eos
}

/// For N1 and N2, whether a type is neutral or an isolate formatting character (NI).
fn is_ni(class: Class) -> bool
    ensures { result ≡ is_ni class }
{
    match class {
        Class::B | Class::S | Class::WS | Class::ON => true,
        Class::LRI | Class::RLI | Class::FSI | Class::PDI => true,
        _ => false,
    }
}

/// For N1, the direction of a type that is not neutral: EN and AN count as R.
fn n1_side(class: Class) -> Class
    ensures { result ≡ n1_side class }
{
    match class {
        Class::L => Class::L,
        _ => Class::R,
    }
}

/// N1: a neutral whose run stands between equal directions takes that direction. It takes the directions before and behind the run.
fn n1_surrounding_direction(before: Class, after: Class, class: Class) -> Class
    ensures { result ≡ n1_surrounding_direction before after class }
{
    match (before, after) {
        (Class::L, Class::L) => Class::L,
        (Class::R, Class::R) => Class::R,
        _ => class,
    }
}

/// N2: a neutral that N1 left takes the direction of its level.
fn n2_embedding_direction(class: Class, level: u8) -> Class
    ensures { result ≡ n2_embedding_direction class level }
{
    if is_ni(class) {
        Class::of_level(level)
    } else {
        class
    }
}
