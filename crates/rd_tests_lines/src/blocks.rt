//! Blocks in memory, with ample memory: how they are made for tests of what reads them, and their rows and order.
ghost use Rattle.std.specs.Prelude.{◌≡◌, ◌+◌, ◌^◌, ◌<◌, ◌≤◌, ℕ, None, IsTrue, IfOk, OnOk};
ghost use Rattle.rd_base.specs.Elements.{AreSound, columns_at_most, ends_once};
ghost use Rattle.rd_matrix.specs.Blocks.{end_from, first_start};
ghost use Rattle.rd_matrix.specs.Held.{IsHeld, are_inside, blocks_held, covers_each};
ghost use Rattle.rd_rows.specs.Laws.{ranges_of};

use crate::claims::assert_of;
use rd_base::{Element, Extent, Face, Glyph, ListOf, Look, Memory, Origin, Pos, Steps, Wrap};
use rd_matrix::{Block, BlockSource, HeldBlock, MemBlocks};
use rd_rows::Shape;
use std::alloc::Global;
use std::marker::Brand;
use std::sync::ledger::{Blank, Ledger};

macro_rules! element {
    ($item:expr, $columns:expr, $from:expr, $to:expr, $look:expr) => {
        Element {
            extent: Extent::Fixed($columns),
            look: $look,
            face: Face::PLAIN,
            origin: Origin {
                item: $item,
                from: $from,
                to: $to,
            },
        }
    };
}

macro_rules! glyph {
    ($code:expr) => {
        Glyph {
            base: $code,
            marks: [0, 0, 0, 0, 0, 0],
            count: 0,
            width: 1,
        }
    };
}

macro_rules! letter {
    ($item:expr, $from:expr, $to:expr, $code:expr) => {
        element!($item, 1, $from, $to, Look::Glyph(glyph!($code)))
    };
}

/// Twelve columns.
pub const SHAPE: Shape = Shape {
    width: 12,
    wrap: Wrap::Truncate,
    hscroll: 0,
};

/// A block of so many positions with its line, which is read from an edge by its base level.
fn held(
    alloc: Global,
    start: Pos,
    size: u32,
    base: u8,
    line: &[Element],
) -> Result<HeldBlock, Memory>
    requires start { start ≤ 1000 }
    requires base { base ≤ 1 }
    requires some { 1 ≤ size }
    requires few { size ≤ 1000 }
    requires sound { AreSound line.now }
    requires end { IsTrue (ends_once line.now) }
    requires columns { columns_at_most line.now < 2 ^ 63 }
    requires covers { IsTrue (covers_each size (ranges_of None line.now)) }
    requires inside { IsTrue (are_inside size (ranges_of None line.now)) }
    ensures held { IfOk result IsHeld }
    ensures start { IfOk result (λ held. held.block.start ≡ start) }
    ensures end { IfOk result (λ held. held.block.end ≡ start + size) }
{
    let elements = ListOf::from_slice(alloc, line)?;
    let block = Block {
        start,
        end: start + size,
        base,
    };
    Ok(HeldBlock {
        block,
        elements,
        first: ListOf::new(alloc),
        wrap: ListOf::new(alloc),
        truncation: glyph!(36),
        continuation: glyph!(92),
    })
}

/// A letter and the line's end, read from an edge by the base level.
fn letter_line(alloc: Global, start: Pos, base: u8, code: u32) -> Result<HeldBlock, Memory>
    requires start { start ≤ 1000 }
    requires base { base ≤ 1 }
    ensures held { IfOk result IsHeld }
    ensures start { IfOk result (λ held. held.block.start ≡ start) }
    ensures end { IfOk result (λ held. held.block.end ≡ start + 2) }
{
    let line = [letter!(0, 0, 1, code), element!(1, 0, 1, 2, Look::LineEnd)];
    held(alloc, start, 2, base, &line)
}

/// A letter in each of two rows: a string between the letters ends the first of them.
fn two_rows(alloc: Global, start: Pos, code: u32) -> Result<HeldBlock, Memory>
    requires start { start ≤ 1000 }
    ensures held { IfOk result IsHeld }
    ensures start { IfOk result (λ held. held.block.start ≡ start) }
{
    let line = [
        letter!(0, 0, 1, code),
        element!(1, 0, 1, 1, Look::RowEnd),
        letter!(2, 1, 2, code),
        element!(3, 0, 2, 3, Look::LineEnd),
    ];
    held(alloc, start, 3, 0, &line)
}

/// The line that a sign stands for: a small letter alone, the same read from the right edge where the sign is a capital, and a digit
/// in each of two rows.
fn line_of(alloc: Global, start: Pos, sign: u8) -> Result<HeldBlock, Memory>
    requires start { start ≤ 1000 }
    ensures held { IfOk result IsHeld }
    ensures start { IfOk result (λ held. held.block.start ≡ start) }
{
    match sign {
        b'0'..=b'9' => two_rows(alloc, start, u32::from(sign)),
        b'A'..=b'Z' => letter_line(alloc, start, 1, u32::from(sign) + 32),
        _ => letter_line(alloc, start, 0, u32::from(sign)),
    }
}

/// One block alone.
fn single(alloc: Global, held: HeldBlock) -> Result<MemBlocks, Memory>
    requires held { IsHeld held }
    ensures first { IfOk result (λ source. first_start (blocks_held source) ≡ held.block.start) }
    ensures end { IfOk result (λ source. (from : ℕ) → end_from from (blocks_held source) ≡ held.block.end) }
{
    let mut source = MemBlocks::new(alloc);
    source.push(held)?;
    Ok(source)
}

/// One block more.
fn add(source: &mut MemBlocks, held: HeldBlock) -> Result<(), Memory>
    requires held { IsHeld held }
    requires next { (from : ℕ) → end_from from (blocks_held source.old) ≡ held.block.start }
    ensures first { OnOk result (first_start (blocks_held source.new) ≡ first_start (blocks_held source.old)) }
    ensures end { OnOk result ((from : ℕ) → end_from from (blocks_held source.new) ≡ held.block.end) }
{
    source.push(held)?;
    Ok(())
}

/// Texts whose first block starts at position 1.
#[derive(Clone, Copy)]
pub enum Text {
    /// Ten lines of one letter.
    TenLines,
    /// Three such lines.
    ThreeLines,
    /// A line of two letters and one of one letter.
    TwoLines,
    /// A line of two letters with a string of the lines 1 to 4 between them.
    OneLine,
}

/// The blocks of a text, and where the last of them ends.
#[derive(Drop)]
pub struct Made {
    pub source: MemBlocks,
    pub end: Pos,
}

/// The blocks of a text.
pub fn blocks_of(alloc: Global, text: Text) -> Result<Made, Memory>
    ensures first { IfOk result (λ made. first_start (blocks_held made.source) ≡ 1) }
    ensures end { IfOk result (λ made. end_from 0 (blocks_held made.source) ≡ made.end) }
{
    match text {
        Text::TenLines => lines_of(alloc, b'a', b"aaaaaaaaa"),
        Text::ThreeLines => lines_of(alloc, b'a', b"aa"),
        Text::TwoLines => two_lines(alloc),
        Text::OneLine => one_line(alloc),
    }
}

/// A line of two letters and one of one letter.
fn two_lines(alloc: Global) -> Result<Made, Memory>
    ensures first { IfOk result (λ made. first_start (blocks_held made.source) ≡ 1) }
    ensures end { IfOk result (λ made. end_from 0 (blocks_held made.source) ≡ made.end) }
{
    let line = [
        letter!(0, 0, 1, 97),
        letter!(1, 1, 2, 98),
        element!(2, 0, 2, 3, Look::LineEnd),
    ];
    let mut source = single(alloc, held(alloc, 1, 3, 0, &line)?)?;
    add(&mut source, letter_line(alloc, 4, 0, 97)?)?;
    Ok(Made { source, end: 6 })
}

/// A line of two letters, and before the second of them a string of the lines 1 to 4.
fn one_line(alloc: Global) -> Result<Made, Memory>
    ensures first { IfOk result (λ made. first_start (blocks_held made.source) ≡ 1) }
    ensures end { IfOk result (λ made. end_from 0 (blocks_held made.source) ≡ made.end) }
{
    let line = [
        letter!(0, 0, 1, 120),
        letter!(1, 1, 1, 49),
        element!(1, 0, 1, 1, Look::RowEnd),
        letter!(1, 1, 1, 50),
        element!(1, 0, 1, 1, Look::RowEnd),
        letter!(1, 1, 1, 51),
        element!(1, 0, 1, 1, Look::RowEnd),
        letter!(1, 1, 1, 52),
        element!(1, 0, 1, 1, Look::RowEnd),
        letter!(2, 1, 2, 121),
        element!(3, 0, 2, 3, Look::LineEnd),
    ];
    let source = single(alloc, held(alloc, 1, 3, 0, &line)?)?;
    Ok(Made { source, end: 4 })
}

/// The blocks of the lines that signs stand for, at most those that start at position 1000 or before.
pub fn lines_of(alloc: Global, first: u8, rest: &[u8]) -> Result<Made, Memory>
    ensures first { IfOk result (λ made. first_start (blocks_held made.source) ≡ 1) }
    ensures end { IfOk result (λ made. end_from 0 (blocks_held made.source) ≡ made.end) }
{
    let line = line_of(alloc, 1, first)?;
    let mut end = line.block.end;
    let mut source = single(alloc, line)?;
    for sign in rest {
        if end <= 1000 {
            let line = line_of(alloc, end, *sign)?;
            end = line.block.end;
            add(&mut source, line)?;
        }
    }
    Ok(Made { source, end })
}

/// The count of rows of the first block, and where the block behind it starts.
fn rows_and_next<L: Ledger>(
    alloc: Global,
    source: &mut MemBlocks,
    blank: Blank,
) -> Result<(usize, Pos), Memory>
    requires first { first_start (blocks_held source.old) ≡ 1 }
    requires end { 2 ≤ end_from 0 (blocks_held source.old) }
    requires name { blank.name ≡ L.name }
    requires parts { blank.parts ≡ L.parts }
    requires some { 0 < L.parts }
{
    let mut steps = Steps::<L>::new(blank);
    let first = source.block_of(alloc, 1)?;
    let count = source.rows(alloc, &first, SHAPE, &mut steps)?.len();
    match source.next(alloc, &first)? {
        Some(next) => Ok((count, next.start)),
        None => Ok((count, 0)),
    }
}

/// Whether the first block of a text has so many rows, and the block behind it starts there; 0 stands for no block.
fn has_rows<L: Ledger>(alloc: Global, text: Text, rows: usize, next: Pos, blank: Blank) -> bool
    requires name { blank.name ≡ L.name }
    requires parts { blank.parts ≡ L.parts }
    requires some { 0 < L.parts }
{
    match blocks_of(alloc, text) {
        Ok(mut made) => {
            made.end >= 2 && rows_and_next::<L>(alloc, &mut made.source, blank) == Ok((rows, next))
        }
        Err(_) => false,
    }
}

#[test]
fn rows_come_from_blocks(rt: HostRuntime) {
    assert_of(
        &rt,
        "a line before another",
        has_rows::<Brand>(rt.alloc(), Text::TwoLines, 1, 4, Blank::new(1)),
    );
    assert_of(
        &rt,
        "a line with a string of four lines",
        has_rows::<Brand>(rt.alloc(), Text::OneLine, 5, 0, Blank::new(1)),
    );
}
