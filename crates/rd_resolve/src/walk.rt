//! One walk over an isolating run sequence of a line, for rules that give each character a type by what came before it.
ghost use Rattle.std.specs.Prelude.{◌≡◌, ◌+◌, ◌<◌, ◌∷◌, Some, length, All, AllPairs, drop, slice_get};
ghost use Rattle.rd_resolve.specs.Places.{types_at, levels_at, TakesTypes};

use rd_base::{Class, Line, Seq};

/// Rules of a walk, with what they know of the characters before one.
pub trait WalkRules: Copy {
    ghost use Rattle.std.specs.Prelude.{◌≡◌, ◌<◌, ◌∷◌, ℕ, List, length, All};
    ghost use Rattle.rd_base.specs.declared.class.Class.{Class};
    ghost use Rattle.rd_resolve.specs.Places.{types_at};

    // what the rules make of the types that are left, of characters with these classes and levels
    ghost left: { Self → List Class → List Class → List ℕ → List Class };

    // what the rules know of the types that are left is so
    ghost is_known: { Self → List Class → Type 0 };

    /// The type that the rules give the next character, which has this original class, type and level; its line has these types, and `rest`
    /// are the indexes behind it.
    fn step(
        &mut self,
        original: Class,
        class: Class,
        level: u8,
        types: &[Class],
        rest: &[u32],
    ) -> Class
        requires within { All (λ i. i < length types.now) rest.now }
        requires known { is_known self.old (class ∷ types_at rest.now types.now) }
        ensures left { (classes : List Class) (levels : List ℕ)
            → left self.old (original ∷ classes) (class ∷ types_at rest.now types.now) (level ∷ levels)
            ≡ result ∷ left self.new classes (types_at rest.now types.now) levels }
        ensures known { is_known self.new (types_at rest.now types.now) };
}

/// Gives the characters of a sequence the types that rules make of theirs, from what these know at its start. Its indexes ascend and lie
/// within the line.
pub fn walk<R: WalkRules>(line: &mut Line, seq: &Seq, mut rules: R)
    requires within { All (λ i. i < length line.old.classes) seq.now.indexes }
    requires ascend { AllPairs (λ i j. i < j) seq.now.indexes }
    requires known { R.is_known rules (types_at seq.now.indexes line.old.types) }
    ensures { TakesTypes line.old line.new seq.now.indexes
        (R.left rules (types_at seq.now.indexes line.old.classes) (types_at seq.now.indexes line.old.types)
        (levels_at seq.now.indexes line.old.levels)) }
{
    for k in 0..seq.indexes.len() {
        let walked = walked_character(line, seq, k);
        let index = walked.index;
        let given = rules.step(
            walked.original,
            walked.class,
            walked.level,
            walked.types,
            walked.rest,
        );
        line.set_type(index, given);
    }
}

/// What a walk reads of a character: its index in the line, its original class, its type and level, and the types of the line with the
/// indexes of those behind it in its sequence.
#[derive(Clone, Copy)]
struct WalkedCharacter<'a> {
    index: usize,
    original: Class,
    class: Class,
    level: u8,
    types: &'a [Class],
    rest: &'a [u32],
}

/// The character at a place of a sequence, counted from 0.
fn walked_character<'a>(line: &'a Line, seq: &'a Seq, k: usize) -> WalkedCharacter<'a>
    requires within { All (λ i. i < length line.now.classes) seq.now.indexes }
    requires place { k < length seq.now.indexes }
    ensures index { slice_get seq.now.indexes k ≡ Some result.index }
    ensures inside { result.index < length line.now.classes }
    ensures original { slice_get line.now.classes result.index ≡ Some result.original }
    ensures level { slice_get line.now.levels result.index ≡ Some result.level }
    ensures within { All (λ i. i < length result.types.now) result.rest.now }
    ensures left { (types_at (drop k seq.now.indexes) line.now.types ≡ result.class ∷ types_at result.rest.now result.types.now) × (types_at result.rest.now result.types.now ≡ types_at (drop (k + 1) seq.now.indexes) line.now.types) }
{
    let index = seq.indexes.at(k) as usize;
    let (_, rest) = seq.indexes.as_slice().split_at(k + 1);
    WalkedCharacter {
        index,
        original: line.classes.at(index),
        class: line.types.at(index),
        level: line.levels.at(index),
        types: line.types.as_slice(),
        rest,
    }
}
