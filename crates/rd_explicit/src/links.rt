//! The links of isolating run sequences, made in one walk from a line's end: which PDI matches an initiator (UAX 9 BD9), what comes after
//! an item in its sequence (BD13), and the type at a sequence's end (X10).
ghost use Rattle.std.specs.Prelude.{◌≡◌, ◌<◌, ◌+◌, ◌^◌, ◌∷◌, [], length, drop, reverse, OnOk, IfOk, None, is_none, ◌&&◌};
ghost use Rattle.rd_base.specs.Classes.{is_initiator};
ghost use Rattle.rd_explicit.specs.Follow.{bd13_follower, x10_level_behind};

use rd_base::{Class, Line, ListOf, Memory, Seq};
use std::alloc::Global;

/// What follows an index in its sequence: the next index, if there is one, and the type at the sequence's end if there is none.
#[derive(Clone, Copy)]
pub struct Link {
    pub next: Option<u32>,
    pub eos: Class,
}

/// The first item of what is done, with its level.
#[derive(Clone, Copy)]
pub struct First {
    pub index: u32,
    pub level: u8,
}

/// For each index from the one that the walk has come to whether a sequence begins there, and what follows it in its sequence; the
/// PDIs that no initiator has matched, the first one last; and the first item.
#[derive(Drop)]
pub struct Links {
    pub begins: ListOf<bool>,
    pub links: ListOf<Link>,
    pub pdis: ListOf<u32>,
    pub first: Option<First>,
}

impl Links {
    ghost use Rattle.std.specs.Prelude.{◌≡◌, ℕ, List, IfSome, ◌<◌, ◌+◌, ◌^◌, ◌∷◌, [], length, drop, reverse, OnOk, IfOk, None, is_none, ◌&&◌};
    ghost use Rattle.rd_base.specs.Classes.{is_initiator};
    ghost use Rattle.rd_explicit.specs.Links.{IsLinkedFrom, LeadsOn, KeepsLinks, unmatched, seq_at, beginning, without_beginning, gathered, sequences_from};
    ghost use Rattle.rd_explicit.specs.Sequences.{bd9_partner};
    ghost use Rattle.rd_base.specs.declared.class.Class.{Class};

    /// Nothing is done yet of a line of so many characters.
    fn new(alloc: Global, n: usize) -> Result<Links, Memory>
        ensures begins { IfOk result (λ s. length s.begins ≡ n) }
        ensures links { IfOk result (λ s. (length s.links ≡ n) × LeadsOn n s.links) }
        ensures pdis { IfOk result (λ s. s.pdis ≡ []) }
        ensures first { IfOk result (λ s. s.first ≡ None) }
    {
        let begins = ListOf::filled(alloc, n, false)?;
        let links = ListOf::filled(
            alloc,
            n,
            Link {
                next: None,
                eos: Class::L,
            },
        )?;
        Ok(Links {
            begins,
            links,
            pdis: ListOf::new(alloc),
            first: None,
        })
    }

    /// BD9: the index of the PDI that matches a class, if that is an isolate initiator and has one. A PDI itself waits from then on.
    fn bd9_partner(&mut self, class: Class, i: usize) -> Result<Option<u32>, Memory>
        requires { i < 2 ^ 32 }
        ensures partner { (cs : List Class) → self.old.pdis ≡ reverse (unmatched (i + 1) cs) → IfOk result (λ p. p ≡ bd9_partner i class cs) }
        ensures pdis { (cs : List Class) → self.old.pdis ≡ reverse (unmatched (i + 1) cs) → OnOk result (self.new.pdis ≡ reverse (unmatched i (class ∷ cs))) }
        ensures rest { KeepsLinks self.old self.new }
    {
        if class.is_initiator() {
            return Ok(self.pdis.pop());
        }
        if let Class::PDI = class {
            self.pdis.push(i as u32)?;
        }
        Ok(None)
    }

    /// For BD13, leads on to the follower, where a sequence begins there; from then on none begins there.
    fn bd13_lead_on(&mut self, follower: Option<u32>) -> Option<u32>
        requires { IfSome follower (λ f. f < length self.old.begins) }
        ensures next { result ≡ beginning follower self.old.begins }
        ensures begins { self.new.begins ≡ without_beginning follower self.old.begins }
        ensures links { self.new.links ≡ self.old.links }
        ensures pdis { self.new.pdis ≡ self.old.pdis }
        ensures first { self.new.first ≡ self.old.first }
    {
        if let Some(f) = follower {
            if self.begins.at(f as usize) {
                self.begins.set(f as usize, false);
                return Some(f);
            }
        }
        None
    }

    /// For BD13 and X10, takes the class at index i, those behind it being done. What X9 takes out stands in no sequence.
    fn step(&mut self, line: &Line, i: usize) -> Result<(), Memory>
        requires within { i < length line.now.classes }
        requires begins { length self.old.begins ≡ length line.now.classes }
        requires links { length self.old.links ≡ length line.now.classes }
        requires leads { LeadsOn (length line.now.classes) self.old.links }
        requires joins { IsLinkedFrom line.now.base (i + 1) (drop (i + 1) line.now.classes) (drop (i + 1) line.now.levels) self.old }
        ensures begins { length self.new.begins ≡ length line.now.classes }
        ensures links { length self.new.links ≡ length line.now.classes }
        ensures leads { LeadsOn (length line.now.classes) self.new.links }
        ensures joins { OnOk result (IsLinkedFrom line.now.base i (drop i line.now.classes) (drop i line.now.levels) self.new) }
    {
        let class = line.classes.at(i);
        let level = line.levels.at(i);
        let partner = self.bd9_partner(class, i)?;
        if class.x9_is_removed() {
            self.begins.set(i, false);
            return Ok(());
        }
        let next = self.bd13_lead_on(bd13_follower(self.first, level, partner));
        let after = x10_level_behind(self.first, line.base, is_unmatched(class, partner));
        self.begins.set(i, true);
        self.links.set(
            i,
            Link {
                next,
                eos: Class::of_level(level.max(after)),
            },
        );
        self.first = Some(First {
            index: i as u32,
            level,
        });
        Ok(())
    }

    /// The links of a line, by BD9, BD13 and X10.
    pub fn of_line(alloc: Global, line: &Line) -> Result<Links, Memory>
        ensures begins { IfOk result (λ s. length s.begins ≡ length line.now.classes) }
        ensures links { IfOk result (λ s. (length s.links ≡ length line.now.classes) × LeadsOn (length line.now.classes) s.links) }
        ensures sequences { IfOk result (λ s. (before : ℕ) → gathered before 0 line.now.classes line.now.levels s.links s.begins
            ≡ sequences_from line.now.base before 0 line.now.classes line.now.levels) }
    {
        let mut links = Links::new(alloc, line.len())?;
        let mut i = line.len();
        while i > 0 {
            i -= 1;
            links.step(line, i)?;
        }
        Ok(links)
    }

    /// The sequence of BD13 that begins at an index, with its types of X10.
    pub fn sequence(&self, alloc: Global, i: usize, sos: Class) -> Result<Seq, Memory>
        requires within { i < length self.now.links }
        requires short { length self.now.links < 2 ^ 32 }
        requires leads { LeadsOn (length self.now.links) self.now.links }
        ensures { IfOk result (λ s. s ≡ seq_at self.now.links i sos) }
    {
        let mut indexes = ListOf::new(alloc);
        indexes.push(i as u32)?;
        let mut at = i;
        while let Some(next) = self.links.at(at).next {
            indexes.push(next)?;
            at = next as usize;
        }
        Ok(Seq {
            indexes,
            sos,
            eos: self.links.at(at).eos,
        })
    }
}

/// For X10, whether a class is an isolate initiator that nothing matches.
fn is_unmatched(class: Class, partner: Option<u32>) -> bool
    ensures { result ≡ (is_initiator class && is_none partner) }
{
    class.is_initiator() && partner.is_none()
}

/// BD13: the item that comes after one in its sequence, if that begins a sequence: the item after it where that has its level, else the
/// matching PDI.
fn bd13_follower(first: Option<First>, level: u8, partner: Option<u32>) -> Option<u32>
    ensures { result ≡ bd13_follower first level partner }
{
    match first {
        Some(next) if next.level == level => Some(next.index),
        _ => partner,
    }
}

/// For X10, the level that the end of a sequence is compared with: that of the item after its last one, if there is one and the last one is
/// no unmatched initiator, else the base.
fn x10_level_behind(first: Option<First>, base: u8, unmatched: bool) -> u8
    ensures { result ≡ x10_level_behind first base unmatched }
{
    match first {
        Some(next) if !unmatched => next.level,
        _ => base,
    }
}
