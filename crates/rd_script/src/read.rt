//! From a line to an op.
ghost use Rattle.std.specs.Prelude.{◌≡◌, ◌≢◌, ◌∷◌, [], OnOk, Ok, Err};
ghost use Rattle.serde_json.specs.View.{view, members_view};
ghost use Rattle.rd_script.specs.declared.fault.OpFault.TheVariants as faults;
ghost use Rattle.rd_script.specs.declared.op.Op.{Op};
ghost use Rattle.rd_script.specs.Fields.{IsRead, IsReadAs, asked_too};
ghost use Rattle.rd_script.specs.Forms.{IsInForm};
ghost use Rattle.rd_script.specs.Reading.{op_key, reading, json_of, reading_name, reading_members};

use crate::asked::{Asked, Members};
use crate::fault::OpFault;
use crate::field::text_of;
use crate::name::Name;
use crate::op::Op;
use crate::row::read_fields;
use serde_json::Value;
use std::alloc::Global;

/// Reads a line as an op. The value is a JSON object (RFC 8259; of two members with one key the last counts) with the key `op`,
/// the op's fields and no other key. The fault is the first in this order: no JSON, no object, `op` missing or no text, no op of
/// that name, each field in the order of its row missing or bad, the first other key in byte order. It costs one reading of the
/// line.
#[tactic(auto, unfolding(crate::specs::Reading::reading))]
pub fn read_op(alloc: Global, line: &[u8]) -> Result<Op, OpFault>
    ensures read { IsRead result (reading line.now) }
    ensures form { (op : Op) → reading line.now ≡ Ok op → IsInForm op }
    ensures no_memory_told { reading line.now ≢ Err faults.Memory }
{
    let value = read_json(alloc, line)?;
    match value.as_object() {
        Some(members) => read_members(alloc, members),
        None => Err(OpFault::NotObject),
    }
}

/// Reads a line as JSON.
fn read_json(alloc: Global, line: &[u8]) -> Result<Value, OpFault>
    ensures { IsReadAs view result (json_of line.now) }
{
    match Value::from_slice(alloc, line) {
        Ok(value) => Ok(value),
        Err(fault) => {
            if fault.is_memory() {
                Err(OpFault::Memory)
            } else {
                Err(OpFault::NotJson)
            }
        }
    }
}

/// Reads an object as an op, and refuses a key that was not asked for.
fn read_members(alloc: Global, members: &Members) -> Result<Op, OpFault>
    ensures { IsRead result (reading_members (members_view members.now.entries)) }
{
    let mut asked = Asked::of(alloc, members);
    let name = read_name(alloc, &mut asked)?;
    let op = read_fields(alloc, &mut asked, name)?;
    asked.refuse_extra(alloc, op)
}

/// Reads which op an object says.
fn read_name(alloc: Global, asked: &mut Asked) -> Result<Name, OpFault>
    ensures name { IsRead result (reading_name (members_view asked.old.members)) }
    ensures keys { OnOk result (asked.new ≡ asked_too (op_key ∷ []) asked.old) }
{
    match Name::of(text_of(alloc, asked, "op")?) {
        Some(name) => Ok(name),
        None => Err(OpFault::NoSuchOp),
    }
}
