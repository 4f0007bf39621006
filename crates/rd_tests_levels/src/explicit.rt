//! Levels and sequences that were worked out by hand.
ghost use Rattle.std.specs.Prelude.{◌≡◌, ◌<◌, ◌≤◌, ◌+◌, ◌^◌, length, IfOk, OnOk};

use crate::claims::assert_of;
use rd_base::{Class, Line, ListOf, Memory, Seq};
use rd_explicit::{explicit, sequences};
use std::alloc::Global;

/// Makes a line that of these classes, with their explicit levels.
fn level(line: &mut Line, classes: &[Class], base: u8) -> Result<(), Memory>
    requires base { base ≤ 1 }
    requires few { length classes.now < 2 ^ 32 }
{
    line.refill(classes, base)?;
    explicit(line);
    Ok(())
}

/// Whether a line of classes has these explicit levels and types.
fn has_levels(alloc: Global, classes: &[Class], base: u8, levels: &[u8], types: &[Class]) -> bool
    requires base { base ≤ 1 }
    requires few { length classes.now < 2 ^ 32 }
{
    let mut line = Line::new(alloc);
    level(&mut line, classes, base).is_ok()
        && line.levels.as_slice() == levels
        && line.types.as_slice() == types
}

/// Whether a sequence has these indexes, and this type at both of its ends.
fn is_sequence(found: &Seq, indexes: &[u32], side: Class) -> bool {
    found.indexes.as_slice() == indexes && found.sos == side && found.eos == side
}

/// Whether sequences are one of these indexes, and then one of these where there are any, with this type at both ends of each.
fn are_sequences(found: &ListOf<Seq>, first: &[u32], second: &[u32], side: Class) -> bool {
    match found.len() {
        1 => is_sequence(found.get(0), first, side) && second.is_empty(),
        2 => is_sequence(found.get(0), first, side) && is_sequence(found.get(1), second, side),
        _ => false,
    }
}

/// Whether a line has these sequences.
fn has_sequences(alloc: Global, line: &Line, first: &[u32], second: &[u32], side: Class) -> bool {
    match sequences(alloc, line) {
        Ok(found) => are_sequences(&found, first, second, side),
        Err(_) => false,
    }
}

/// Whether a line of classes has these explicit levels and then these sequences.
fn parts_into(
    alloc: Global,
    classes: &[Class],
    base: u8,
    levels: &[u8],
    first: &[u32],
    second: &[u32],
    side: Class,
) -> bool
    requires base { base ≤ 1 }
    requires few { length classes.now < 2 ^ 32 }
{
    let mut line = Line::new(alloc);
    level(&mut line, classes, base).is_ok()
        && line.levels.as_slice() == levels
        && has_sequences(alloc, &line, first, second, side)
}

#[test]
fn lines_by_hand(rt: HostRuntime) {
    let alloc = rt.alloc();
    let isolate = [Class::LRI, Class::R, Class::PDI];
    assert_of(
        &rt,
        "BD13: LRI and its PDI are one sequence, R between them another",
        parts_into(alloc, &isolate, 0, &[0, 2, 0], &[0, 2], &[1], Class::L),
    );
    let open = [Class::L, Class::RLI];
    assert_of(
        &rt,
        "X10: RLI that no PDI closes",
        parts_into(alloc, &open, 1, &[1, 1], &[0, 1], &[], Class::R),
    );
    let given = [Class::RLO, Class::L, Class::PDF, Class::L];
    let types = [Class::RLO, Class::R, Class::PDF, Class::L];
    assert_of(
        &rt,
        "X4 and X7: L is R behind RLO, up to PDF",
        has_levels(alloc, &given, 0, &[0, 1, 0, 0], &types),
    );
    let strong = [
        Class::FSI,
        Class::LRI,
        Class::L,
        Class::PDI,
        Class::AL,
        Class::PDI,
    ];
    assert_of(
        &rt,
        "X5c: the first strong character is AL, behind an isolate with L",
        has_levels(alloc, &strong, 0, &[0, 1, 2, 1, 1, 0], &strong),
    );
}

/// RLE and LRE in turn.
fn embedding(k: usize) -> Class {
    if k % 2 == 0 { Class::RLE } else { Class::LRE }
}

/// Adds so many RLE and LRE in turn, and then these classes.
fn add_nested(classes: &mut ListOf<Class>, count: usize, rest: &[Class]) -> Result<(), Memory>
    ensures { OnOk result (length classes.new ≡ length classes.old + count + length rest.now) }
{
    for k in 0..count {
        classes.push(embedding(k))?;
    }
    classes.extend_from_slice(rest)
}

/// So many RLE and LRE in turn, and then these classes.
pub fn nested(alloc: Global, count: usize, rest: &[Class]) -> Result<ListOf<Class>, Memory>
    ensures { IfOk result (λ classes. length classes ≡ count + length rest.now) }
{
    let mut classes = ListOf::new(alloc);
    add_nested(&mut classes, count, rest)?;
    Ok(classes)
}

/// Whether the last of these classes has this explicit level at base 0.
fn ends_with(alloc: Global, classes: &[Class], last: u8) -> bool
    requires { length classes.now < 2 ^ 32 }
{
    let mut line = Line::new(alloc);
    level(&mut line, classes, 0).is_ok() && line.levels.as_slice().last() == Some(&last)
}

/// Whether the last class, at base 0 and behind so many RLE and LRE in turn, has this explicit level.
fn ends_at(alloc: Global, count: usize, rest: &[Class], level: u8) -> bool
    requires { count + length rest.now < 2 ^ 32 }
{
    match nested(alloc, count, rest) {
        Ok(classes) => ends_with(alloc, classes.as_slice(), level),
        Err(_) => false,
    }
}

#[test]
fn nesting_ends_at_level_125(rt: HostRuntime) {
    assert_of(
        &rt,
        "125 embeddings",
        ends_at(rt.alloc(), 125, &[Class::L], 125),
    );
    assert_of(
        &rt,
        "126 embeddings, of which the last overflows",
        ends_at(rt.alloc(), 126, &[Class::L], 125),
    );
    assert_of(
        &rt,
        "PDF behind 125 embeddings",
        ends_at(rt.alloc(), 125, &[Class::PDF, Class::L], 124),
    );
    assert_of(
        &rt,
        "PDF behind 126 embeddings",
        ends_at(rt.alloc(), 126, &[Class::PDF, Class::L], 125),
    );
}
