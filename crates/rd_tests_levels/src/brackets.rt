//! Paired brackets of one sequence.
ghost use Rattle.std.specs.Prelude.{◌<◌, All, AllPairs, IfOk};

use crate::claims::assert_of;
use rd_base::{Class, Line, ListOf, Memory, Seq};
use rd_brackets::pair;
use rd_ucd::Brackets;
use std::alloc::Global;
use std::process::Abort;
use std::test::Fail;

/// The sequence of five characters, with L at both ends.
fn whole(alloc: Global) -> Result<Seq, Memory>
    ensures within { IfOk result (λ seq. All (λ i. i < 5) seq.indexes) }
    ensures ascend { IfOk result (λ seq. AllPairs (λ i j. i < j) seq.indexes) }
{
    let indexes = ListOf::from_slice(alloc, &[0, 1, 2, 3, 4])?;
    Ok(Seq {
        indexes,
        sos: Class::L,
        eos: Class::L,
    })
}

/// Makes a line that of five characters of these classes, and resolves its paired brackets.
fn paired(
    alloc: Global,
    line: &mut Line,
    seq: &Seq,
    classes: &[Class; 5],
    codes: &[u32; 5],
    brackets: &Brackets,
) -> Result<(), Memory>
    requires within { All (λ i. i < 5) seq.now.indexes }
    requires ascend { AllPairs (λ i j. i < j) seq.now.indexes }
{
    line.refill(classes, 0)?;
    pair(alloc, line, seq, codes, brackets)
}

/// Whether five characters of these classes have these types after paired brackets.
fn take(
    alloc: Global,
    brackets: &Brackets,
    classes: &[Class; 5],
    codes: &[u32; 5],
    types: &[Class; 5],
) -> bool {
    let mut line = Line::new(alloc);
    match whole(alloc) {
        Ok(seq) => {
            paired(alloc, &mut line, &seq, classes, codes, brackets).is_ok()
                && line.types.as_slice() == types.as_slice()
        }
        Err(_) => false,
    }
}

/// Asserts which types characters before, within and behind brackets take.
fn assert_taken(rt: &impl Abort, alloc: Global, brackets: &Brackets) {
    let left = [Class::R, Class::ON, Class::L, Class::ON, Class::WS];
    let inside = [Class::R, Class::L, Class::L, Class::L, Class::WS];
    let plain = take(alloc, brackets, &left, &[0, 0x28, 0, 0x29, 0], &inside);
    assert_of(rt, "N0b: the embedding direction inside", plain);
    let equal = take(alloc, brackets, &left, &[0, 0x2329, 0, 0x3009, 0], &inside);
    assert_of(
        rt,
        "BD16: a bracket that stands for another, with the pair of that one",
        equal,
    );
    let right = [Class::R, Class::ON, Class::EN, Class::ON, Class::WS];
    let before = [Class::R, Class::R, Class::EN, Class::R, Class::WS];
    let other = take(alloc, brackets, &right, &[0, 0x28, 0, 0x29, 0], &before);
    assert_of(rt, "N0c: the other direction inside and before", other);
    let unpaired = take(alloc, brackets, &right, &[0, 0x28, 0, 0x5D, 0], &right);
    assert_of(rt, "BD16: brackets that are no pair", unpaired);
}

/// Two pairs of brackets, of which one has a code that stands for another.
const FILE: &'static [u8] = b"0028; 0029; o\n0029; 0028; c\n3008; 3009; o\n3009; 3008; c";

#[test]
fn pairs_take_a_direction(rt: HostRuntime) -> Result<(), Fail> {
    let brackets = Brackets::read(rt.alloc(), FILE)?;
    assert_taken(&rt, rt.alloc(), &brackets);
    Ok(())
}
