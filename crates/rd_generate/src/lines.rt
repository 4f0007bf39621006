//! The lines of the generated script.
ghost use Rattle.std.specs.Prelude.{◌≡◌, ◌*◌, ◌<◌, ◌++◌, ◌∷◌, [], OnOk, IfOk};
ghost use Rattle.rd_generate.specs.Generated.{script, shown, insertions, insertion, lines_from, spelling, number};

use crate::template::{after, push_line};
use itoa::Buffer;
use rd_base::{ListOf, Memory};
use std::alloc::Global;

/// The line that shows the frame.
const REDISPLAY: &str = "{\"op\":\"redisplay\"}";

/// The lines of a script that is made from a number, without their newlines: it shows a text of 3,000 lines as it is put in, then
/// 200 keys, 50 scrollings, a split and 20 more keys, each with a redisplay.
pub fn generated(alloc: Global, number: u32) -> Result<ListOf<ListOf<u8>>, Memory>
    ensures { IfOk result (λ lines. lines ≡ script number) }
{
    let mut lines = ListOf::new(alloc);
    let frame = "{\"op\":\"frame\",\"width\":80,\"height\":24}";
    push(alloc, &mut lines, frame)?;
    let format = "{\"op\":\"mode_line\",\"window\":0,\"format\":\"%* %b %l %p\"}";
    push(alloc, &mut lines, format)?;
    let wrap = "{\"op\":\"wrap\",\"window\":0,\"mode\":\"continue\"}";
    push(alloc, &mut lines, wrap)?;
    push_insertions(alloc, &mut lines, number)?;
    push_shown(alloc, &mut lines, 200, "{\"op\":\"type\",\"text\":\"x\"}")?;
    let scroll = "{\"op\":\"scroll\",\"window\":0,\"rows\":22}";
    push_shown(alloc, &mut lines, 50, scroll)?;
    let split = "{\"op\":\"split\",\"window\":0,\"side\":\"below\",\"size\":11}";
    push_shown(alloc, &mut lines, 1, split)?;
    push_shown(alloc, &mut lines, 20, "{\"op\":\"type\",\"text\":\"y\"}")?;
    Ok(lines)
}

/// Adds a line.
fn push(alloc: Global, lines: &mut ListOf<ListOf<u8>>, line: &str) -> Result<(), Memory>
    ensures { OnOk result (lines.new ≡ lines.old ++ line.now ∷ []) }
{
    lines.push(ListOf::from_slice(alloc, line.as_bytes())?)
}

/// Adds an op and a redisplay, so many times.
fn push_shown(
    alloc: Global,
    lines: &mut ListOf<ListOf<u8>>,
    times: u32,
    op: &str,
) -> Result<(), Memory>
    ensures { OnOk result (lines.new ≡ lines.old ++ shown times op.now) }
{
    for time in 0..times {
        push(alloc, lines, op)?;
        push(alloc, lines, REDISPLAY)?;
    }
    Ok(())
}

/// Adds the ops that put the text in, each with a redisplay.
fn push_insertions(alloc: Global, lines: &mut ListOf<ListOf<u8>>, seed: u32) -> Result<(), Memory>
    ensures { OnOk result (lines.new ≡ lines.old ++ insertions seed) }
{
    let mut x = seed;
    for j in 0..30 {
        let mut line = ListOf::new(alloc);
        x = push_insertion(&mut line, j, x)?;
        lines.push(line)?;
        push(alloc, lines, REDISPLAY)?;
    }
    Ok(())
}

/// Adds the op that puts in the j-th hundred of lines, and answers the last number that they take.
fn push_insertion(line: &mut ListOf<u8>, j: u32, x: u32) -> Result<u32, Memory>
    requires { j < 30 }
    ensures line { OnOk result (line.new ≡ line.old ++ insertion j (lines_from (100 * j) x 100)) }
    ensures number { IfOk result (λ next. next ≡ number x 100) }
{
    line.extend_from_slice(b"{\"op\":\"insert\",\"buffer\":\"main\",\"pos\":")?;
    line.extend_from_slice(Buffer::new().format(2500 * j + 1).as_bytes())?;
    line.extend_from_slice(b",\"text\":\"")?;
    let next = push_lines(line, 100 * j, x)?;
    line.extend_from_slice(b"\"}")?;
    Ok(next)
}

/// Adds a hundred lines of the text from the k-th on, and answers the last number that they take.
fn push_lines(line: &mut ListOf<u8>, k: u32, x: u32) -> Result<u32, Memory>
    requires { k < 3000 }
    ensures line { OnOk result (line.new ≡ line.old ++ spelling (lines_from k x 100)) }
    ensures number { IfOk result (λ next. next ≡ number x 100) }
{
    let mut last = x;
    for i in 0..100 {
        last = after(last);
        push_line(line, k + i, last)?;
    }
    Ok(last)
}
