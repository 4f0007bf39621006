//! The fields that say a setting.
ghost use Rattle.std.specs.Prelude.{◌≡◌, ◌∷◌, [], OnOk};
ghost use Rattle.serde_json.specs.View.{members_view};
ghost use Rattle.rd_script.specs.Fields.{within, required, asked_too, IsRead, IsTaken};
ghost use Rattle.rd_script.specs.Settings.{setting, value_of};

use crate::asked::Asked;
use crate::fault::OpFault;
use crate::field::{NAME, VALUE, named, optional, required};
use crate::form::{Flag, Form, Whole, Within};
use crate::item::{AtMost, Two};
use crate::place_field::within;
use crate::setting::{Setting, SettingName};
use rd_base::limits::{ATOMS, INVISIBLE_ATOMS, TAB_COLUMNS};
use rd_base::{Invisible, Memory};
use serde_json::Value;
use std::alloc::Global;

/// A setting's name, and then its value.
pub fn setting(alloc: Global, asked: &mut Asked) -> Result<Setting, OpFault>
    ensures { IsTaken result setting asked.old asked.new }
{
    let name = named(alloc, asked, NAME)?;
    value_of(alloc, asked, name, VALUE)
}

/// The value of a setting, at a key.
fn value_of(
    alloc: Global,
    asked: &mut Asked,
    name: SettingName,
    key: &'static str,
) -> Result<Setting, OpFault>
    ensures value { IsRead result ((value_of name key.now).taken (members_view asked.old.members)) }
    ensures keys { OnOk result (asked.new ≡ asked_too (key.now ∷ []) asked.old) }
{
    match name {
        SettingName::TabWidth => Ok(Setting::TabWidth(tab_width(alloc, asked, key)?)),
        SettingName::CtlArrow => Ok(Setting::CtlArrow(required(alloc, asked, key, &Flag)?)),
        SettingName::Direction => Ok(Setting::Direction(named(alloc, asked, key)?)),
        SettingName::Reorder => Ok(Setting::Reorder(required(alloc, asked, key, &Flag)?)),
        SettingName::Table => Ok(Setting::Table(optional(alloc, asked, key, &Whole)?)),
        SettingName::Invisible => Ok(Setting::Invisible(required(
            alloc,
            asked,
            key,
            &InvisibleText,
        )?)),
        SettingName::LinePrefix => Ok(Setting::LinePrefix(optional(alloc, asked, key, &Whole)?)),
        SettingName::WrapPrefix => Ok(Setting::WrapPrefix(optional(alloc, asked, key, &Whole)?)),
        SettingName::Modified => Ok(Setting::Modified(required(alloc, asked, key, &Flag)?)),
        SettingName::ReadOnly => Ok(Setting::ReadOnly(required(alloc, asked, key, &Flag)?)),
    }
}

/// The columns between tab stops.
fn tab_width(alloc: Global, asked: &mut Asked, key: &'static str) -> Result<u8, OpFault>
    ensures { IsTaken result (required key.now (within 1 TAB_COLUMNS)) asked.old asked.new }
{
    Ok(within(alloc, asked, key, 1, TAB_COLUMNS as u32)? as u8)
}

/// Which invisible text is hidden: all of it where the value is true, or that of the atoms of pairs.
#[derive(Drop)]
struct InvisibleText;

impl Form for InvisibleText {
    ghost use Rattle.rd_script.specs.Settings.{invisible};

    type Said = Invisible;

    ghost kind = { λ _. invisible };

    fn read(&self, alloc: Global, value: &Value) -> Result<Option<Invisible>, Memory> {
        // a pair is an atom and whether an ellipsis stands for its text
        let pairs = AtMost {
            most: INVISIBLE_ATOMS,
            of: Two {
                first: Within {
                    least: 0,
                    greatest: ATOMS,
                },
                second: Flag,
            },
        };
        match value.as_bool() {
            Some(true) => Ok(Some(Invisible::Every)),
            Some(false) => Ok(None),
            None => match pairs.read(alloc, value)? {
                Some(pairs) => Ok(Some(Invisible::Listed(pairs))),
                None => Ok(None),
            },
        }
    }
}
