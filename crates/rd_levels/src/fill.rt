//! The rules of UAX 9 over a line, in turn: X1 to X10, W1 to W7, N0 to N2, I1, I2 and L1.
ghost use Rattle.std.specs.Prelude.{◌≡◌, ◌<◌, length, All, AllPairs, OnOk};
ghost use Rattle.rd_base.specs.Lines.{KeepsClasses};
ghost use Rattle.rd_levels.specs.Levels.{IsLine, x10_resolved, line_levels, is_leveled, are_leveled};

use rd_base::{Class, Line, ListOf, Memory, Seq};
use rd_brackets::pair;
use rd_explicit::{explicit, sequences};
use rd_resolve::{implicit, neutral, weak};
use rd_ucd::Brackets;
use std::alloc::Global;

/// Gives a line these classes and their levels, by the rules X1 to L1 in turn.
pub fn fill_line(
    alloc: Global,
    line: &mut Line,
    brackets: &Brackets,
    base: u8,
    classes: &[Class],
    codes: &[u32],
) -> Result<(), Memory>
    requires { IsLine classes.now codes.now base }
    ensures { OnOk result (line.new.levels ≡ line_levels brackets.now base classes.now codes.now) }
{
    line.refill(classes, base)?;
    if base == 0 && are_leveled(classes) {
        return Ok(());
    }
    // X1 to X8
    explicit(line);
    // X9 and X10
    let found = sequences(alloc, line)?;
    // W1 to W7, N0, N1 and N2
    x10_resolve(alloc, line, codes, brackets, &found)?;
    // I1, I2 and L1
    implicit(line);
    Ok(())
}

/// X10: the weak rules (W1 to W7), the paired brackets (N0) and the neutral rules (N1, N2) over each of these sequences, one after
/// another.
fn x10_resolve(
    alloc: Global,
    line: &mut Line,
    codes: &[u32],
    brackets: &Brackets,
    found: &ListOf<Seq>,
) -> Result<(), Memory>
    requires within { All (λ seq. All (λ i. i < length line.old.classes) seq.indexes) found.now }
    requires ascend { All (λ seq. AllPairs (λ i j. i < j) seq.indexes) found.now }
    requires codes { length codes.now ≡ length line.old.classes }
    ensures types { OnOk result (line.new.types ≡ x10_resolved brackets.now line.old.classes codes.now line.old.levels found.now line.old.types) }
    ensures levels { line.new.levels ≡ line.old.levels }
    ensures rest { KeepsClasses line.old line.new }
{
    for k in 0..found.len() {
        let seq = found.get(k);
        weak(line, seq);
        pair(alloc, line, seq, codes, brackets)?;
        neutral(line, seq);
    }
    Ok(())
}

/// Whether no class can bring about a level above the base 0.
fn are_leveled(classes: &[Class]) -> bool
    ensures { result ≡ are_leveled classes.now }
{
    classes.iter().all(|class| is_leveled(*class))
}

/// Whether a class is no letter or number that is read from the right, and opens and closes no embedding, override or isolate.
fn is_leveled(class: Class) -> bool
    ensures { result ≡ is_leveled class }
{
    match class {
        Class::L | Class::EN | Class::ES | Class::ET | Class::CS => true,
        Class::NSM | Class::BN | Class::B | Class::S | Class::WS | Class::ON => true,
        _ => false,
    }
}
