//! The ops about windows: their fields.
ghost use Rattle.rd_script.specs.Fields.{IsTaken};
ghost use Rattle.rd_script.specs.Table.{window_row};

use crate::asked::Asked;
use crate::fault::OpFault;
use crate::field::{ROW, SIDE, named, number, optional, required};
use crate::form::Signed;
use crate::name::WindowOp;
use crate::op::Op;
use crate::place_field::{buffer, position, within};
use crate::text_form::PlainText;
use crate::word::Way;
use rd_base::limits::{
    FRAME_COLUMNS, FRAME_ROWS, HSCROLL_COLUMNS, NUMBER_COLUMNS, SCROLL_ROWS, START_ROW,
    STRING_COLUMNS,
};
use std::alloc::Global;

/// Reads the fields of an op about a window.
pub fn read_window(alloc: Global, asked: &mut Asked, op: WindowOp) -> Result<Op, OpFault>
    ensures { IsTaken result (window_row op) asked.old asked.new }
{
    let window = number(alloc, asked, "window")?;
    match op {
        WindowOp::Split => Ok(Op::Split {
            window,
            side: named(alloc, asked, SIDE)?,
            size: number(alloc, asked, "size")?,
        }),
        WindowOp::Remove => Ok(Op::Remove { window }),
        WindowOp::Select => Ok(Op::Select { window }),
        WindowOp::Show => Ok(Op::Show {
            window,
            buffer: buffer(alloc, asked)?,
        }),
        WindowOp::Point => Ok(Op::Point {
            window,
            pos: position(alloc, asked)?,
        }),
        WindowOp::Start => Ok(Op::Start {
            window,
            pos: position(alloc, asked)?,
            row: within(alloc, asked, ROW, 0, START_ROW)?,
        }),
        WindowOp::Scroll => Ok(Op::Scroll {
            window,
            rows: required(
                alloc,
                asked,
                "rows",
                &Signed {
                    most: SCROLL_ROWS as i32,
                },
            )? as i64,
        }),
        WindowOp::Hscroll => Ok(Op::Hscroll {
            window,
            columns: within(alloc, asked, "columns", 0, HSCROLL_COLUMNS)?,
        }),
        WindowOp::Wrap => Ok(Op::Wrap {
            window,
            mode: named(alloc, asked, "mode")?,
        }),
        WindowOp::ModeLine => Ok(Op::ModeLine {
            window,
            format: optional(alloc, asked, "format", &PlainText)?,
        }),
        WindowOp::Go => {
            let way: Way = named(alloc, asked, SIDE)?;
            Ok(Op::Go {
                window,
                right: way.right,
            })
        }
        WindowOp::Hit => Ok(Op::Hit {
            window,
            row: within(alloc, asked, ROW, 0, FRAME_ROWS - 1)?,
            column: within(alloc, asked, "column", 0, FRAME_COLUMNS - 1)?,
        }),
        WindowOp::Margin => Ok(Op::Margin {
            window,
            numbers: within(alloc, asked, "numbers", 0, NUMBER_COLUMNS)?,
            strings: within(alloc, asked, "strings", 0, STRING_COLUMNS)?,
        }),
    }
}
