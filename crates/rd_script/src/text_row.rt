//! The ops about buffers and their texts: their fields.
ghost use Rattle.rd_script.specs.Fields.{IsTaken};
ghost use Rattle.rd_script.specs.Table.{text_row};

use crate::asked::Asked;
use crate::fault::OpFault;
use crate::field::{NAME, required};
use crate::item::RawBytes;
use crate::name::TextOp;
use crate::op::Op;
use crate::place_field::{buffer, position, stretch, text};
use crate::text_form::NameOfBuffer;
use std::alloc::Global;

/// Reads the fields of an op about a buffer and its text.
pub fn read_text(alloc: Global, asked: &mut Asked, op: TextOp) -> Result<Op, OpFault>
    ensures { IsTaken result (text_row op) asked.old asked.new }
{
    match op {
        TextOp::Buffer => Ok(Op::Buffer {
            name: required(alloc, asked, NAME, &NameOfBuffer)?,
        }),
        TextOp::Insert => Ok(Op::Insert {
            buffer: buffer(alloc, asked)?,
            pos: position(alloc, asked)?,
            text: text(alloc, asked)?,
        }),
        TextOp::InsertRaw => Ok(Op::InsertRaw {
            buffer: buffer(alloc, asked)?,
            pos: position(alloc, asked)?,
            bytes: required(alloc, asked, "bytes", &RawBytes)?,
        }),
        TextOp::Type => Ok(Op::TypeText {
            text: text(alloc, asked)?,
        }),
        TextOp::Delete => {
            let (buffer, (from, to)) = stretch(alloc, asked)?;
            Ok(Op::Delete { buffer, from, to })
        }
        TextOp::Narrow => {
            let (buffer, (from, to)) = stretch(alloc, asked)?;
            Ok(Op::Narrow { buffer, from, to })
        }
        TextOp::Widen => Ok(Op::Widen {
            buffer: buffer(alloc, asked)?,
        }),
    }
}
