//! The fields that several ops have: the buffer and the overlay that an op is about, a position, a range of positions, that of a
//! buffer, a text, and a number of a range.
ghost use Rattle.rd_script.specs.Fields.{within, required, IsTaken};
ghost use Rattle.rd_script.specs.Table.{buffer_field, overlay_field, position_field, range_fields, stretch_fields, text_field};

use crate::asked::Asked;
use crate::buffer_name::BufferName;
use crate::fault::OpFault;
use crate::field::{TEXT, number, required};
use crate::form::Within;
use crate::text_form::{NameOfBuffer, Text};
use rd_base::{Ch, ListOf};
use std::alloc::Global;

/// The name of the buffer that an op is about.
pub fn buffer(alloc: Global, asked: &mut Asked) -> Result<BufferName, OpFault>
    ensures { IsTaken result buffer_field asked.old asked.new }
{
    required(alloc, asked, "buffer", &NameOfBuffer)
}

/// The number of the overlay that an op is about.
pub fn overlay(alloc: Global, asked: &mut Asked) -> Result<u64, OpFault>
    ensures { IsTaken result overlay_field asked.old asked.new }
{
    number(alloc, asked, "overlay")
}

/// A position, under the key `pos`.
pub fn position(alloc: Global, asked: &mut Asked) -> Result<u64, OpFault>
    ensures { IsTaken result position_field asked.old asked.new }
{
    number(alloc, asked, "pos")
}

/// A range, by its first position and the one behind its last.
pub fn range(alloc: Global, asked: &mut Asked) -> Result<(u64, u64), OpFault>
    ensures { IsTaken result range_fields asked.old asked.new }
{
    let from = number(alloc, asked, "from")?;
    let to = number(alloc, asked, "to")?;
    Ok((from, to))
}

/// A buffer and a range of it.
pub fn stretch(alloc: Global, asked: &mut Asked) -> Result<(BufferName, (u64, u64)), OpFault>
    ensures { IsTaken result stretch_fields asked.old asked.new }
{
    let buffer = buffer(alloc, asked)?;
    let range = range(alloc, asked)?;
    Ok((buffer, range))
}

/// A text, under the key `text`.
pub fn text(alloc: Global, asked: &mut Asked) -> Result<ListOf<Ch>, OpFault>
    ensures { IsTaken result text_field asked.old asked.new }
{
    required(alloc, asked, TEXT, &Text)
}

/// A whole number from `least` to `greatest`, both of which count.
pub fn within(
    alloc: Global,
    asked: &mut Asked,
    key: &'static str,
    least: u32,
    greatest: u32,
) -> Result<u32, OpFault>
    ensures { IsTaken result (required key.now (within least greatest)) asked.old asked.new }
{
    required(alloc, asked, key, &Within { least, greatest })
}
