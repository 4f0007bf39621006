//! Rows of equal width.
ghost use Rattle.std.specs.Prelude.{◌≡◌, IfOk, replicate};

use rd_base::{ListOf, Memory};
use std::alloc::Global;

/// So many rows of so many columns, each place with the same value.
pub(crate) fn filled<T: Copy + Drop>(
    alloc: Global,
    width: u32,
    height: u32,
    value: T,
) -> Result<Vec<ListOf<T>>, Memory>
    ensures { IfOk result (λ rows. rows.items ≡ replicate height (replicate width value)) }
{
    let mut rows = Vec::with_capacity(alloc, height as usize)?;
    for made in 0..height {
        rows.push(ListOf::filled(alloc, width as usize, value)?)?;
    }
    Ok(rows)
}
