//! The ops about the whole screen: their fields.
ghost use Rattle.rd_script.specs.Fields.{IsTaken};
ghost use Rattle.rd_script.specs.Table.{screen_row};

use crate::asked::Asked;
use crate::fault::OpFault;
use crate::field::{TEXT, optional, required};
use crate::form::{Flag, Within};
use crate::name::ScreenOp;
use crate::op::Op;
use crate::place_field::within;
use crate::text_form::PlainText;
use rd_base::limits::{
    FRAME_COLUMNS, FRAME_ROWS, LEAST_FRAME_COLUMNS, LEAST_FRAME_ROWS, SCROLL_CONSERVATIVELY,
    SCROLL_MARGIN,
};
use std::alloc::Global;

/// Reads the fields of an op about the whole screen.
pub fn read_screen(alloc: Global, asked: &mut Asked, op: ScreenOp) -> Result<Op, OpFault>
    ensures { IsTaken result (screen_row op) asked.old asked.new }
{
    let stops = Within {
        least: 0,
        greatest: FRAME_ROWS,
    };
    match op {
        ScreenOp::Frame => Ok(Op::Frame {
            width: within(alloc, asked, "width", LEAST_FRAME_COLUMNS, FRAME_COLUMNS)?,
            height: within(alloc, asked, "height", LEAST_FRAME_ROWS, FRAME_ROWS)?,
        }),
        ScreenOp::Scrolling => Ok(Op::Scrolling {
            margin: within(alloc, asked, "margin", 0, SCROLL_MARGIN)?,
            conservatively: within(alloc, asked, "conservatively", 0, SCROLL_CONSERVATIVELY)?,
        }),
        ScreenOp::Echo => Ok(Op::Echo {
            text: required(alloc, asked, TEXT, &PlainText)?,
        }),
        ScreenOp::Redisplay => Ok(Op::Redisplay {
            stop: optional(alloc, asked, "stop", &stops)?,
        }),
        ScreenOp::Shift => Ok(Op::Shift {
            on: required(alloc, asked, "on", &Flag)?,
        }),
    }
}
