//! The ops about properties, overlays and settings: their fields.
ghost use Rattle.std.specs.Prelude.{◌≡◌};
ghost use Rattle.rd_script.specs.Fields.{required, kind_key, IsTaken};
ghost use Rattle.rd_script.specs.Forms.{is_text_kind};
ghost use Rattle.rd_script.specs.Properties.{text_kind};
ghost use Rattle.rd_script.specs.Table.{property_row, overlay_manner};
ghost use Rattle.rd_script.specs.declared.name.PropertyOp.TheVariants as properties;

use crate::asked::Asked;
use crate::fault::OpFault;
use crate::field::{KIND, VALUE, bad, defaulted, named, optional};
use crate::form::{Flag, Signed, Whole};
use crate::name::PropertyOp;
use crate::op::Op;
use crate::place_field::{buffer, overlay, range, stretch};
use crate::property_form::Property;
use crate::setting_field::setting;
use rd_base::limits::PRIORITY;
use rd_overlays::Kind;
use std::alloc::Global;

/// Reads the fields of an op about properties, overlays and settings.
pub fn read_property(alloc: Global, asked: &mut Asked, op: PropertyOp) -> Result<Op, OpFault>
    ensures { IsTaken result (property_row op) asked.old asked.new }
{
    match op {
        PropertyOp::Put => read_put(alloc, asked),
        PropertyOp::Overlay => read_overlay(alloc, asked),
        PropertyOp::OverlayMove => {
            let buffer = buffer(alloc, asked)?;
            let overlay = overlay(alloc, asked)?;
            let (from, to) = range(alloc, asked)?;
            Ok(Op::OverlayMove {
                buffer,
                overlay,
                from,
                to,
            })
        }
        PropertyOp::OverlayDrop => Ok(Op::OverlayDrop {
            buffer: buffer(alloc, asked)?,
            overlay: overlay(alloc, asked)?,
        }),
        PropertyOp::OverlayPut => read_overlay_put(alloc, asked),
        PropertyOp::MarginPut => Ok(Op::MarginPut {
            buffer: buffer(alloc, asked)?,
            overlay: overlay(alloc, asked)?,
            string: optional(alloc, asked, "string", &Whole)?,
        }),
        PropertyOp::Setting => Ok(Op::Setting {
            buffer: buffer(alloc, asked)?,
            setting: setting(alloc, asked)?,
        }),
    }
}

/// Reads the fields of the op that gives a text a property.
fn read_put(alloc: Global, asked: &mut Asked) -> Result<Op, OpFault>
    ensures { IsTaken result (property_row properties.Put) asked.old asked.new }
{
    let (buffer, (from, to)) = stretch(alloc, asked)?;
    let kind = text_kind(alloc, asked)?;
    let value = optional(alloc, asked, VALUE, &Property { kind })?;
    Ok(Op::Put {
        buffer,
        from,
        to,
        kind,
        value,
    })
}

/// A kind of properties that text may have.
fn text_kind(alloc: Global, asked: &mut Asked) -> Result<Kind, OpFault>
    ensures { IsTaken result (required kind_key text_kind) asked.old asked.new }
{
    let kind = named(alloc, asked, KIND)?;
    if is_text_kind(kind) {
        Ok(kind)
    } else {
        bad(alloc, KIND)
    }
}

/// Reads the fields of the op that makes an overlay.
fn read_overlay(alloc: Global, asked: &mut Asked) -> Result<Op, OpFault>
    ensures { IsTaken result (property_row properties.Overlay) asked.old asked.new }
{
    let (buffer, (from, to)) = stretch(alloc, asked)?;
    let (priority, (front, rear)) = read_manner(alloc, asked)?;
    Ok(Op::Overlay {
        buffer,
        from,
        to,
        priority,
        front,
        rear,
    })
}

/// Reads the priority of an overlay, and whether its start and its end move with a text that is put in there.
fn read_manner(alloc: Global, asked: &mut Asked) -> Result<(i32, (bool, bool)), OpFault>
    ensures { IsTaken result overlay_manner asked.old asked.new }
{
    let priority = defaulted(alloc, asked, "priority", &Signed { most: PRIORITY }, 0)?;
    let front = defaulted(alloc, asked, "front", &Flag, false)?;
    let rear = defaulted(alloc, asked, "rear", &Flag, false)?;
    Ok((priority, (front, rear)))
}

/// Reads the fields of the op that gives an overlay a property.
fn read_overlay_put(alloc: Global, asked: &mut Asked) -> Result<Op, OpFault>
    ensures { IsTaken result (property_row properties.OverlayPut) asked.old asked.new }
{
    let buffer = buffer(alloc, asked)?;
    let overlay = overlay(alloc, asked)?;
    let kind = named(alloc, asked, KIND)?;
    let value = optional(alloc, asked, VALUE, &Property { kind })?;
    Ok(Op::OverlayPut {
        buffer,
        overlay,
        kind,
        value,
    })
}

/// Whether text may have properties of a kind.
fn is_text_kind(kind: Kind) -> bool
    ensures { result ≡ is_text_kind kind }
{
    !matches!(kind, Kind::Before | Kind::After)
}
