//! The rows of the table of ops: the fields of each.
ghost use Rattle.rd_script.specs.Fields.{IsTaken};
ghost use Rattle.rd_script.specs.Table.{row};

use crate::asked::Asked;
use crate::fault::OpFault;
use crate::name::Name;
use crate::object_row::read_object;
use crate::op::Op;
use crate::property_row::read_property;
use crate::screen_row::read_screen;
use crate::text_row::read_text;
use crate::window_row::read_window;
use std::alloc::Global;

/// Reads the fields of an op, in the order of its row.
pub fn read_fields(alloc: Global, asked: &mut Asked, name: Name) -> Result<Op, OpFault>
    ensures { IsTaken result (row name) asked.old asked.new }
{
    match name {
        Name::Text(op) => read_text(alloc, asked, op),
        Name::Property(op) => read_property(alloc, asked, op),
        Name::Object(op) => read_object(alloc, asked, op),
        Name::Window(op) => read_window(alloc, asked, op),
        Name::Screen(op) => read_screen(alloc, asked, op),
    }
}
