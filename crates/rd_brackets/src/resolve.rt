//! Rule N0 of UAX 9 over an isolating run sequence.
ghost use Rattle.std.specs.Prelude.{◌≡◌, ◌<◌, length, All, AllPairs, IfSome, IfOk, OnOk, OnErr, None};
ghost use Rattle.rd_base.specs.Lines.{KeepsClasses};
ghost use Rattle.rd_resolve.specs.Places.{types_at, TakesTypes};
ghost use Rattle.rd_brackets.specs.Pairs.{closings};
ghost use Rattle.rd_brackets.specs.Sides.{n0_brackets_in, embedding_of, n0_with_marks};
ghost use Rattle.rd_brackets.specs.Matchings.{ArePairsBefore};

use crate::matching::{Pair, bd16_pairs_of};
use crate::sides::{n0_take_pairs, side_taken};
use rd_base::{Class, Line, ListOf, Memory, Seq, mapped};
use rd_resolve::walk::{WalkRules, walk};
use rd_ucd::Brackets;
use std::alloc::Global;

/// Gives the paired brackets of an isolating run sequence the types that rule N0 of UAX 9 makes of theirs, and with them the
/// nonspacing marks directly behind them. `codes` has the code of each character of the line; a code that is listed nowhere is no
/// bracket. The sequence's indexes ascend and lie within the line.
///
/// U+2329 and U+232A count as U+3008 and U+3009. Where a bracket opens while 63 stand open, the sequence has no pairs at all, which
/// is a choice of this project. Want of memory leaves the line as it was. The cost is linear in the sequence.
pub fn pair(
    alloc: Global,
    line: &mut Line,
    seq: &Seq,
    codes: &[u32],
    brackets: &Brackets,
) -> Result<(), Memory>
    requires within { All (λ i. i < length line.old.classes) seq.now.indexes }
    requires ascend { AllPairs (λ i j. i < j) seq.now.indexes }
    requires codes { length codes.now ≡ length line.old.classes }
    ensures types { OnOk result (line.new.types ≡ n0_brackets_in brackets.now line.old.classes codes.now line.old.levels seq.now line.old.types) }
    ensures err { OnErr result (line.new.types ≡ line.old.types) }
    ensures levels { line.new.levels ≡ line.old.levels }
    ensures rest { KeepsClasses line.old line.new }
{
    let pairs = bd16_pairs_of(alloc, line, seq, codes, brackets)?;
    if pairs.is_empty() {
        return Ok(());
    }
    let closings = closings(alloc, pairs.as_slice(), seq.indexes.len())?;
    let mut types = types_at(alloc, line, seq)?;
    let embedding = embedding_of(line, seq);
    n0_take_pairs(embedding, seq.sos, closings.as_slice(), &mut types);
    n0_put_types(line, seq, types.as_slice());
    Ok(())
}

/// For N0, the embedding direction of a sequence: that of its level.
fn embedding_of(line: &Line, seq: &Seq) -> Class
    requires { All (λ i. i < length line.now.classes) seq.now.indexes }
    ensures { result ≡ embedding_of seq.now.indexes line.now.levels }
{
    if seq.indexes.is_empty() {
        return Class::L;
    }
    Class::of_level(line.levels.at(seq.indexes.at(0) as usize))
}

/// For N0, for each of so many places where the pair closes that opens there.
fn closings(alloc: Global, pairs: &[Pair], count: usize) -> Result<ListOf<Option<usize>>, Memory>
    requires { ArePairsBefore count pairs.now }
    ensures value { IfOk result (λ found. found ≡ closings pairs.now count) }
    ensures within { IfOk result (λ found. All (λ closing. IfSome closing (λ place. place < count)) found) }
{
    let mut found = ListOf::filled(alloc, count, None)?;
    let mut left = pairs.len();
    while left > 0 {
        left -= 1;
        let pair = pairs[left];
        found.set(pair.opening, Some(pair.closing));
    }
    Ok(found)
}

/// For N0, the types of a sequence.
fn types_at(alloc: Global, line: &Line, seq: &Seq) -> Result<ListOf<Class>, Memory>
    requires { All (λ i. i < length line.now.classes) seq.now.indexes }
    ensures { IfOk result (λ types. types ≡ types_at seq.now.indexes line.now.types) }
{
    mapped(alloc, seq.indexes.as_slice(), |i| {
        line.types.at(*i as usize)
    })
}

/// What the end of N0 knows at a character: the direction that the one before it took, and the types that it and those behind it have
/// after the pairs.
#[derive(Clone, Copy)]
pub struct Marks<'a> {
    pub side: Option<Class>,
    pub given: &'a [Class],
}

/// The end of N0: gives the characters of a sequence the types that they have after the pairs, and the marks behind brackets that took a
/// direction that one.
fn n0_put_types(line: &mut Line, seq: &Seq, types: &[Class])
    requires within { All (λ i. i < length line.old.classes) seq.now.indexes }
    requires ascend { AllPairs (λ i j. i < j) seq.now.indexes }
    requires count { length types.now ≡ length seq.now.indexes }
    ensures { TakesTypes line.old line.new seq.now.indexes
        (n0_with_marks None (types_at seq.now.indexes line.old.classes) (types_at seq.now.indexes line.old.types) types.now) }
{
    let marks = Marks {
        side: None,
        given: types,
    };
    walk(line, seq, marks);
}

impl WalkRules for Marks<'_> {
    ghost use Rattle.std.specs.Prelude.{◌≡◌, length};
    ghost use Rattle.rd_brackets.specs.Sides.{n0_with_marks};

    ghost left = { λ marks classes types levels. n0_with_marks marks.side classes types marks.given.now };

    ghost is_known = { λ marks types. length marks.given.now ≡ length types };

    fn step(
        &mut self,
        original: Class,
        class: Class,
        _level: u8,
        _types: &[Class],
        _rest: &[u32],
    ) -> Class {
        let after = self.given[0];
        self.side = side_taken(self.side, original, class, after);
        self.given = &self.given[1..];
        self.side.unwrap_or(after)
    }
}
