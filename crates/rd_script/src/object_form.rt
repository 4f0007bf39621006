//! The forms of what the ops that make objects say.
ghost use Rattle.std.specs.Prelude.{◌≡◌, option_map};
ghost use Rattle.serde_json.specs.View.{view, items_view};
ghost use Rattle.rd_script.specs.Fields.{whole, word, four_items_of};
ghost use Rattle.rd_script.specs.Objects.{op_run, run_kinds, op_entry};

use crate::form::{Form, Within};
use crate::item::Two;
use crate::object::{OpEntry, OpRun};
use crate::text_form::GlyphText;
use crate::word::Named;
use rd_base::limits::CODE_POINTS;
use rd_base::{Ch, ListOf, Memory};
use rd_objects::RunKind;
use serde_json::Value;
use std::alloc::Global;

/// A run: where it begins and ends, its kind, and the number of its face or display spec.
#[derive(Drop)]
pub struct RunForm;

impl Form for RunForm {
    ghost use Rattle.rd_script.specs.Objects.{run_form};

    type Said = OpRun;

    ghost kind = { λ _. run_form };

    fn read(&self, _alloc: Global, value: &Value) -> Result<Option<OpRun>, Memory> {
        match value.as_array() {
            Some(items) => Ok(op_run(items.as_slice())),
            None => Ok(None),
        }
    }
}

/// The run that items say.
fn op_run(items: &[Value]) -> Option<OpRun>
    ensures { result ≡ option_map op_run (four_items_of whole whole (word run_kinds) whole (items_view items.now)) }
{
    match items {
        [from, to, kind, value] => Some(OpRun {
            from: from.as_u64()?,
            to: to.as_u64()?,
            kind: run_kind(kind)?,
            value: value.as_u64()?,
        }),
        _ => None,
    }
}

/// The kind of a run that a value names.
fn run_kind(value: &Value) -> Option<RunKind>
    ensures { result ≡ word run_kinds (view value.now) }
{
    RunKind::named(value.as_str()?)
}

/// An entry of a display table: a code, and what is shown in its place.
#[derive(Drop)]
pub struct EntryForm;

impl Form for EntryForm {
    ghost use Rattle.rd_script.specs.Objects.{entry_form};

    type Said = OpEntry;

    ghost kind = { λ _. entry_form };

    fn read(&self, alloc: Global, value: &Value) -> Result<Option<OpEntry>, Memory> {
        let pair = Two {
            first: Within {
                least: 0,
                greatest: CODE_POINTS - 1,
            },
            second: GlyphText,
        };
        Ok(op_entry(pair.read(alloc, value)?))
    }
}

/// The entry of a code and a text, where there are both.
fn op_entry(pair: Option<(u32, ListOf<Ch>)>) -> Option<OpEntry>
    ensures { result ≡ option_map op_entry pair }
{
    let (code, text) = pair?;
    Some(OpEntry { code, text })
}
