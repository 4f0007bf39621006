//! The ops that make objects: their fields.
ghost use Rattle.std.specs.Prelude.{◌≡◌, ◌≤◌, ◌-◌, ◌∷◌, [], IfOk, OnOk, false};
ghost use Rattle.serde_json.specs.Find.{as_bool};
ghost use Rattle.serde_json.specs.View.{members_view};
ghost use Rattle.rd_base.specs.declared.limits.TheConstants.{COLOURS};
ghost use Rattle.rd_script.specs.Fields.{list_of, within, defaulted, asked_too, IsRead, IsTaken};
ghost use Rattle.rd_script.specs.Objects.{spec, spec_value, face, slot_field};
ghost use Rattle.rd_script.specs.Table.{object_row};
ghost use Rattle.rd_script.specs.declared.name.ObjectOp.TheVariants as objects;

use crate::asked::Asked;
use crate::fault::OpFault;
use crate::field::{KIND, VALUE, defaulted, named, number, optional};
use crate::form::{Flag, Form, Within};
use crate::item::AtMost;
use crate::name::ObjectOp;
use crate::object::{OpSpec, SpecName};
use crate::object_form::{EntryForm, RunForm};
use crate::op::Op;
use crate::place_field::{text, within};
use crate::text_form::{GlyphText, Slot};
use rd_base::limits::{COLOURS, SPACE_COLUMNS, STRING_RUNS, TABLE_ENTRIES};
use rd_base::{Ch, Face, ListOf};
use std::alloc::Global;

/// Reads the fields of an op that makes an object.
pub fn read_object(alloc: Global, asked: &mut Asked, op: ObjectOp) -> Result<Op, OpFault>
    ensures { IsTaken result (object_row op) asked.old asked.new }
{
    match op {
        ObjectOp::String => Ok(Op::AddString {
            text: text(alloc, asked)?,
            runs: some_items(alloc, asked, "runs", STRING_RUNS, RunForm)?,
        }),
        ObjectOp::Spec => Ok(Op::AddSpec {
            spec: spec(alloc, asked)?,
        }),
        ObjectOp::Face => Ok(Op::AddFace {
            face: face(alloc, asked)?,
        }),
        ObjectOp::Table => read_table(alloc, asked),
    }
}

/// Reads the fields of the op that makes a display table.
fn read_table(alloc: Global, asked: &mut Asked) -> Result<Op, OpFault>
    ensures { IsTaken result (object_row objects.Table) asked.old asked.new }
{
    Ok(Op::AddTable {
        entries: some_items(alloc, asked, "entries", TABLE_ENTRIES, EntryForm)?,
        truncation: slot(alloc, asked, "truncation")?,
        continuation: slot(alloc, asked, "continuation")?,
        escape: slot(alloc, asked, "escape")?,
        control: slot(alloc, asked, "control")?,
        ellipsis: optional(alloc, asked, "ellipsis", &GlyphText)?,
        border: slot(alloc, asked, "border")?,
    })
}

/// A slot of a display table, and None where the member is absent or null.
fn slot(alloc: Global, asked: &mut Asked, key: &'static str) -> Result<Option<Ch>, OpFault>
    ensures { IsTaken result (slot_field key.now) asked.old asked.new }
{
    optional(alloc, asked, key, &Slot)
}

/// At most so many items, none where the member is absent or null.
fn some_items<F: Form + Drop>(
    alloc: Global,
    asked: &mut Asked,
    key: &'static str,
    most: u32,
    of: F,
) -> Result<ListOf<F::Said>, OpFault>
    ensures { IsTaken result (defaulted [] key.now (list_of most (F.kind of))) asked.old asked.new }
{
    defaulted(alloc, asked, key, &AtMost { most, of }, ListOf::new(alloc))
}

/// What a display spec is, and then its string or its columns.
fn spec(alloc: Global, asked: &mut Asked) -> Result<OpSpec, OpFault>
    ensures { IsTaken result spec asked.old asked.new }
{
    let name = named(alloc, asked, KIND)?;
    spec_value(alloc, asked, name, VALUE)
}

/// The string or the columns of a display spec, at a key.
fn spec_value(
    alloc: Global,
    asked: &mut Asked,
    name: SpecName,
    key: &'static str,
) -> Result<OpSpec, OpFault>
    ensures value { IsRead result ((spec_value name key.now).taken (members_view asked.old.members)) }
    ensures keys { OnOk result (asked.new ≡ asked_too (key.now ∷ []) asked.old) }
{
    match name {
        SpecName::Text => Ok(OpSpec::Text(number(alloc, asked, key)?)),
        SpecName::Width => Ok(OpSpec::Width(within(alloc, asked, key, 0, SPACE_COLUMNS)?)),
        SpecName::Align => Ok(OpSpec::Align(within(alloc, asked, key, 0, SPACE_COLUMNS)?)),
    }
}

/// A face. A colour is none where it is not said.
fn face(alloc: Global, asked: &mut Asked) -> Result<Face, OpFault>
    ensures { IsTaken result face asked.old asked.new }
{
    Ok(Face {
        fg: colour(alloc, asked, "fg")?,
        bg: colour(alloc, asked, "bg")?,
        bold: flag(alloc, asked, "bold")?,
        underline: flag(alloc, asked, "underline")?,
        inverse: flag(alloc, asked, "inverse")?,
    })
}

/// A flag, which is not set where the member is absent or null.
fn flag(alloc: Global, asked: &mut Asked, key: &'static str) -> Result<bool, OpFault>
    ensures { IsTaken result (defaulted false key.now as_bool) asked.old asked.new }
{
    defaulted(alloc, asked, key, &Flag, false)
}

/// A colour, and none, which is `COLOURS`, where the member is absent or null.
fn colour(alloc: Global, asked: &mut Asked, key: &'static str) -> Result<u8, OpFault>
    ensures value { IsTaken result (defaulted COLOURS key.now (within 0 (COLOURS - 1))) asked.old asked.new }
    ensures bound { IfOk result (λ c. c ≤ COLOURS) }
{
    let colours = Within {
        least: 0,
        greatest: COLOURS as u32 - 1,
    };
    Ok(defaulted(alloc, asked, key, &colours, COLOURS as u32)? as u8)
}
