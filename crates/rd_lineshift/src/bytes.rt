//! The bytes of shifts.
ghost use Rattle.std.specs.Prelude.{◌≡◌, ◌≤◌, ◌++◌, OnOk, IfOk, unsigned_abs};
ghost use Rattle.rd_lineshift.specs.Laws.{IsShift, is_up as is_move_up};
ghost use Rattle.rd_lineshift.specs.Shifts.{moving, shift_bytes as bytes_of};

use crate::band::Shift;
use rd_base::limits::FRAME_ROWS;
use rd_base::{ListOf, Memory};
use rd_update::push_sequence;
use std::alloc::Global;

/// Whether a shift moves rows up.
pub(crate) fn is_up(by: i64) -> bool
    ensures { result ≡ is_move_up by }
{
    by >= 0
}

/// The bytes of a shift on a screen of so many rows.
pub(crate) fn shift_bytes(alloc: Global, height: u32, shift: Shift) -> Result<ListOf<u8>, Memory>
    requires shift { IsShift height shift }
    requires height { height ≤ FRAME_ROWS }
    ensures { IfOk result (λ bytes. bytes ≡ bytes_of height shift) }
{
    let mut bytes = ListOf::new(alloc);
    push_sequence(&mut bytes, shift.top + 1, &[shift.top + shift.height], b'r')?;
    push_sequence(&mut bytes, shift.top + 1, &[1], b'H')?;
    push_moving(&mut bytes, shift.by)?;
    push_sequence(&mut bytes, 1, &[height], b'r')?;
    Ok(bytes)
}

/// Adds what moves the rows of the region.
fn push_moving(bytes: &mut ListOf<u8>, by: i64) -> Result<(), Memory>
    requires { unsigned_abs by ≤ FRAME_ROWS }
    ensures { OnOk result (bytes.new ≡ bytes.old ++ moving by) }
{
    let last = if is_up(by) { b'M' } else { b'L' };
    push_sequence(bytes, by.unsigned_abs() as u32, &[], last)
}
