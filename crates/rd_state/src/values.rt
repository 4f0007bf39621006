//! The values of a buffer's text properties, opened and closed as its text changes.
ghost use Rattle.std.specs.Prelude.{◌≡◌, ◌+◌, ◌≤◌, ℕ, nat_lt, Some, OnOk, OnErr, length, if◌then◌else◌};
ghost use Rattle.rd_base.specs.declared.limits.TheConstants.{LAST_POSITION};
ghost use Rattle.rd_props.specs.Buffers.{values_of};
ghost use Rattle.rd_props.specs.Edits.{opened, closed};

use rd_base::{Memory, Pos};
use rd_spans::Spans;

/// Opens positions without a value in the values of each kind. Where there is no memory, those that were opened are closed again.
pub(crate) fn open(spans: &mut [Spans], pos: Pos, n: u32) -> Result<(), Memory>
    requires place { pos + n ≤ LAST_POSITION }
    requires room { (kind p value : ℕ) → values_of spans.old kind p ≡ Some value → p + n ≤ LAST_POSITION }
    ensures ok { OnOk result ((kind p : ℕ) → values_of spans.new kind p ≡ opened (values_of spans.old) pos n kind p) }
    ensures err { OnErr result ((kind p : ℕ) → values_of spans.new kind p ≡ values_of spans.old kind p) }
{
    for kind in 0..spans.len() {
        if spans[kind].inserted(pos, n).is_err() {
            close_first(spans, kind, pos, pos + n);
            return Err(Memory);
        }
    }
    Ok(())
}

/// Takes positions away in the values of each kind.
pub(crate) fn close(spans: &mut [Spans], from: Pos, to: Pos)
    requires { from ≤ to }
    ensures { (kind p : ℕ) → values_of spans.new kind p ≡ closed (values_of spans.old) from to kind p }
{
    close_first(spans, spans.len(), from, to);
}

/// Closes a range in the values of the first kinds, so many of them.
fn close_first(spans: &mut [Spans], count: usize, from: Pos, to: Pos)
    requires ordered { from ≤ to }
    requires there { count ≤ length spans.old }
    ensures { (kind p : ℕ) → values_of spans.new kind p ≡ (if nat_lt kind count then closed (values_of spans.old) from to kind p else values_of spans.old kind p) }
{
    for kind in 0..count {
        spans[kind].deleted(from, to);
    }
}
