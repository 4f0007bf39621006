//! The bracket pairs of a sequence (UAX 9 BD16).
ghost use Rattle.std.specs.Prelude.{◌≡◌, ◌<◌, All, IfOk, length};
ghost use Rattle.rd_resolve.specs.Places.{types_at};
ghost use Rattle.rd_brackets.specs.Pairs.{roles, bd16_pairs_of};
ghost use Rattle.rd_brackets.specs.Sides.{codes_at};
ghost use Rattle.rd_brackets.specs.Matchings.{ArePairsBefore, IsLastClosed};

use crate::role::{Role, bd14_bd15_role};
use rd_base::limits::OPEN_BRACKETS;
use rd_base::{Line, ListOf, Memory, Seq};
use rd_ucd::Brackets;
use std::alloc::Global;

/// A bracket that stands open: its place in the sequence, counted from 0, and the code that closes it.
#[derive(Clone, Copy)]
pub struct Opened {
    pub place: usize,
    pub partner: u32,
}

/// A pair of brackets, by their places in the sequence, counted from 0.
#[derive(Clone, Copy)]
pub struct Pair {
    pub opening: usize,
    pub closing: usize,
}

/// The brackets that stand open, the last one at the end, and the pairs that were found, in the order of their closing brackets.
#[derive(Drop)]
pub struct Matching {
    pub opened: ListOf<Opened>,
    pub pairs: ListOf<Pair>,
}

/// BD16: the pairs of a sequence in the order of their closing brackets, and none at all where a bracket opens while 63
/// stand open. The cost is linear in the sequence, since at most 63 brackets are looked at for one that closes.
pub fn bd16_pairs_of(
    alloc: Global,
    line: &Line,
    seq: &Seq,
    codes: &[u32],
    brackets: &Brackets,
) -> Result<ListOf<Pair>, Memory>
    requires within { All (λ i. i < length line.now.classes) seq.now.indexes }
    requires codes { length codes.now ≡ length line.now.classes }
    ensures pairs { IfOk result (λ pairs. pairs ≡ bd16_pairs_of (roles brackets.now (types_at seq.now.indexes line.now.types) (codes_at seq.now.indexes codes.now))) }
    ensures within { IfOk result (λ pairs. ArePairsBefore (length seq.now.indexes) pairs) }
{
    let mut matching = Matching {
        opened: ListOf::new(alloc),
        pairs: ListOf::new(alloc),
    };
    for place in 0..seq.indexes.len() {
        let i = seq.indexes.at(place) as usize;
        let role = bd14_bd15_role(brackets, line.types.at(i), codes[i]);
        if !matching.add(place, role)? {
            return Ok(ListOf::new(alloc));
        }
    }
    Ok(matching.pairs)
}

impl Matching {
    ghost use Rattle.std.specs.Prelude.{◌≡◌, ◌<◌, ◌∷◌, ◌++◌, suc, List, length, reverse, if◌then◌else◌, IfOk, OnOk, None};
    ghost use Rattle.rd_brackets.specs.Pairs.{opener, closed, pair_at};
    ghost use Rattle.rd_brackets.specs.Matchings.{all_pairs, AreOpenedBefore, ArePairsBefore, IsPushed};
    ghost use Rattle.rd_brackets.specs.declared.role.Role.{Role};

    /// BD16: goes on over the character at a place; false where a bracket opens there while 63 stand open.
    fn add(&mut self, place: usize, role: Role) -> Result<bool, Memory>
        requires opened { AreOpenedBefore place self.old.opened }
        requires pairs { ArePairsBefore place self.old.pairs }
        ensures pairs { IfOk result (λ goes_on. (rs : List Role) → all_pairs self.old place (role ∷ rs) ≡ (if goes_on then all_pairs self.new (suc place) rs else None)) }
        ensures opened_before { OnOk result (AreOpenedBefore (suc place) self.new.opened) }
        ensures pairs_before { OnOk result (ArePairsBefore (suc place) self.new.pairs) }
    {
        match role {
            Role::Other => Ok(true),
            Role::Opening(partner) => self.open(place, partner),
            Role::Closing(code) => {
                self.close(place, code)?;
                Ok(true)
            }
        }
    }

    /// BD16: adds a bracket that opens, unless 63 stand open.
    fn open(&mut self, place: usize, partner: u32) -> Result<bool, Memory>
        requires { AreOpenedBefore place self.old.opened }
        ensures opened { IfOk result (λ added. IsPushed added place partner self.old.opened self.new.opened) }
        ensures before { OnOk result (AreOpenedBefore (suc place) self.new.opened) }
        ensures pairs { self.new.pairs ≡ self.old.pairs }
    {
        if self.opened.len() >= OPEN_BRACKETS {
            return Ok(false);
        }
        self.opened.push(Opened { place, partner })?;
        Ok(true)
    }

    /// BD16: pairs a bracket that closes with the last one that stands open and that it closes. That one and all behind it then stand
    /// open no more. Where it closes none, nothing changes.
    fn close(&mut self, place: usize, code: u32) -> Result<(), Memory>
        requires opened { AreOpenedBefore place self.old.opened }
        requires pairs { ArePairsBefore place self.old.pairs }
        ensures pairs { OnOk result (self.new.pairs ≡ self.old.pairs ++ pair_at (opener code (reverse self.old.opened)) place) }
        ensures opened { OnOk result (reverse self.new.opened ≡ closed code (reverse self.old.opened)) }
        ensures opened_before { OnOk result (AreOpenedBefore (suc place) self.new.opened) }
        ensures pairs_before { OnOk result (ArePairsBefore (suc place) self.new.pairs) }
    {
        let Some(k) = last_closed(self.opened.as_slice(), code) else {
            return Ok(());
        };
        self.pairs.push(Pair {
            opening: self.opened.at(k).place,
            closing: place,
        })?;
        self.opened.truncate(k);
        Ok(())
    }
}

/// For BD16, the index of the last of these brackets that a code closes.
fn last_closed(opened: &[Opened], code: u32) -> Option<usize>
    ensures { IsLastClosed result code opened.now }
{
    let mut count = opened.len();
    while count > 0 {
        count -= 1;
        if opened[count].partner == code {
            return Some(count);
        }
    }
    None
}
