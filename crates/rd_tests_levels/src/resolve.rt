//! Lines that were worked out by hand, each one isolating run sequence.
ghost use Rattle.std.specs.Prelude.{◌<◌, ◌≤◌, All, AllPairs, IfOk};

use crate::claims::assert_of;
use rd_base::{Class, Line, ListOf, Memory, Seq};
use rd_resolve::{implicit, neutral, weak};
use std::alloc::Global;

/// The sequence of four characters, with one type at both ends.
fn whole(alloc: Global, side: Class) -> Result<Seq, Memory>
    ensures within { IfOk result (λ seq. All (λ i. i < 4) seq.indexes) }
    ensures ascend { IfOk result (λ seq. AllPairs (λ i j. i < j) seq.indexes) }
{
    let indexes = ListOf::from_slice(alloc, &[0, 1, 2, 3])?;
    Ok(Seq {
        indexes,
        sos: side,
        eos: side,
    })
}

/// Makes a line that of four classes at a base level, and resolves its levels.
fn resolve(line: &mut Line, seq: &Seq, classes: &[Class; 4], base: u8) -> Result<(), Memory>
    requires within { All (λ i. i < 4) seq.now.indexes }
    requires ascend { AllPairs (λ i j. i < j) seq.now.indexes }
    requires base { base ≤ 1 }
{
    line.refill(classes, base)?;
    weak(line, seq);
    neutral(line, seq);
    implicit(line);
    Ok(())
}

/// Whether four classes at a base level, with one type at both ends, have these levels.
fn has_levels(alloc: Global, classes: &[Class; 4], base: u8, side: Class, levels: &[u8]) -> bool
    requires { base ≤ 1 }
{
    let mut line = Line::new(alloc);
    match whole(alloc, side) {
        Ok(seq) => {
            resolve(&mut line, &seq, classes, base).is_ok() && line.levels.as_slice() == levels
        }
        Err(_) => false,
    }
}

#[test]
fn lines_by_hand(rt: HostRuntime) {
    let numbers = [Class::EN, Class::ET, Class::ES, Class::EN];
    assert_of(
        &rt,
        "W4 and W5: ET behind EN becomes EN, ES behind that does not",
        has_levels(rt.alloc(), &numbers, 1, Class::R, &[2, 2, 1, 2]),
    );
    let blanks = [Class::R, Class::WS, Class::R, Class::WS];
    assert_of(
        &rt,
        "N1: a blank between R and R; N2: a blank between R and L",
        has_levels(rt.alloc(), &blanks, 0, Class::L, &[1, 1, 1, 0]),
    );
}
