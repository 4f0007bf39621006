//! Isolating run sequences of a line (UAX 9 BD13, X9, X10).
ghost use Rattle.std.specs.Prelude.{◌≡◌, ◌<◌, ◌^◌, ◌++◌, ◌∷◌, [], length, max, All, AllPairs, IfOk, OnOk, if◌then◌else◌, slice_index_or, false};
ghost use Rattle.rd_base.specs.Classes.{direction_of};
ghost use Rattle.rd_explicit.specs.Sequences.{sequences_of};
ghost use Rattle.rd_explicit.specs.Links.{LeadsOn, seq_at};

use crate::links::Links;
use rd_base::{Class, Line, ListOf, Memory, Seq};
use std::alloc::Global;

/// The isolating run sequences of a line by its classes and levels (UAX 9 BD13, rules X9 and X10), in the order of their first
/// indexes. The indexes of each ascend.
///
/// One walk from the line's end links each character to the one after it in its sequence, with a stack of the PDIs that wait for
/// their initiators. A second walk follows the links. The cost is linear in the line, and so is the memory.
pub fn sequences(alloc: Global, line: &Line) -> Result<ListOf<Seq>, Memory>
    ensures found { IfOk result (λ found. found ≡ sequences_of line.now.base line.now.classes line.now.levels) }
    ensures within { IfOk result (λ found. All (λ seq. All (λ i. i < length line.now.classes) seq.indexes) found) }
    ensures ascend { IfOk result (λ found. All (λ seq. AllPairs (λ i j. i < j) seq.indexes) found) }
{
    let links = Links::of_line(alloc, line)?;
    let mut found = ListOf::new(alloc);
    let mut before = line.base;
    for i in 0..line.len() {
        let level = line.levels.at(i);
        add_sequence(alloc, &links, i, x10_sos(level, before), &mut found)?;
        before = line.classes.at(i).level_behind(before, level);
    }
    Ok(found)
}

/// For BD13, adds the sequence that begins at an index, if one does.
fn add_sequence(
    alloc: Global,
    links: &Links,
    i: usize,
    sos: Class,
    found: &mut ListOf<Seq>,
) -> Result<(), Memory>
    requires within { i < length links.now.links }
    requires begins { length links.now.begins ≡ length links.now.links }
    requires short { length links.now.links < 2 ^ 32 }
    requires leads { LeadsOn (length links.now.links) links.now.links }
    ensures { OnOk result (found.new ≡ found.old ++ (if slice_index_or links.now.begins i false then seq_at links.now.links i sos ∷ [] else [])) }
{
    if links.begins.at(i) {
        found.push(links.sequence(alloc, i, sos)?)?;
    }
    Ok(())
}

/// X10: the type at the start of a sequence is the direction of the higher of its first item's level and that of the item before it.
fn x10_sos(level: u8, before: u8) -> Class
    ensures { result ≡ direction_of (max level before) }
{
    Class::of_level(level.max(before))
}
