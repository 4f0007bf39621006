//! One text property of a buffer: its values on a range.
ghost use Rattle.std.specs.Prelude.{◌≡◌, ◌+◌, ◌≤◌, ℕ, true, IsTrue, OnOk, OnErr, length};
ghost use Rattle.rd_props.specs.Buffers.{values_of};
ghost use Rattle.rd_props.specs.Edits.{put_on};
ghost use Rattle.rd_script.specs.Forms.{is_text_kind};
ghost use Rattle.rd_text.specs.Texts.{IsText};
ghost use Rattle.rd_state.specs.Edits.{is_accessible_range};

use rd_base::limits::TEXT_CHARACTERS;
use rd_base::{Memory, Pos};
use rd_overlays::Kind;
use rd_spans::Spans;
use rd_text::Buffer;

/// Gives the positions from one up to another a value of a kind, or takes theirs away.
pub(crate) fn put_values(
    spans: &mut [Spans],
    from: Pos,
    to: Pos,
    kind: Kind,
    value: Option<u32>,
) -> Result<(), Memory>
    requires ordered { from ≤ to }
    requires kinds { length spans.old ≡ 5 }
    requires kind { IsTrue (is_text_kind kind) }
    ensures ok { OnOk result ((k p : ℕ) → values_of spans.new k p ≡ put_on (values_of spans.old) kind from to value k p) }
    ensures err { OnErr result (spans.new ≡ spans.old) }
{
    spans[kind as usize].put(from, to, value)
}

/// Whether a range lies in the accessible text.
pub(crate) fn is_accessible_range(text: &Buffer, from: u64, to: u64) -> bool
    ensures value { result ≡ is_accessible_range text.now from to }
    ensures right { IsText text.now }
    ensures bound { result ≡ true → (from ≤ to) × (to ≤ TEXT_CHARACTERS + 1) }
{
    text.begin() as u64 <= from && from <= to && to <= text.end() as u64
}
