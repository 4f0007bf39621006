//! The fields of an object, and the keys of those that several ops have with values of different forms.
ghost use Rattle.std.specs.Prelude.{◌≡◌, ◌∷◌, [], IfOk, OnOk, Some, Err, option_map};
ghost use Rattle.std.specs.Str.{chars};
ghost use Rattle.serde_json.specs.Find.{get_member, as_str};
ghost use Rattle.serde_json.specs.View.{view, members_view};
ghost use Rattle.rd_script.specs.declared.fault.OpFault.TheVariants as faults;
ghost use Rattle.rd_script.specs.Fields.{whole, word, present, required, required_of, optional, defaulted, or_bad, asked_too, IsRead, IsReadAs, IsTaken};

use crate::asked::Asked;
use crate::fault::OpFault;
use crate::form::{Form, Whole};
use crate::word::Named;
use rd_base::{Memory, characters};
use serde_json::Value;
use std::alloc::Global;

/// The key of what a property or a display spec is.
pub const KIND: &'static str = "kind";

/// The key of the name of a buffer or a setting.
pub const NAME: &'static str = "name";

/// The key of the row to which a start is forced, or that is hit.
pub const ROW: &'static str = "row";

/// The key of the side on which a split puts the new window, or to which point goes.
pub const SIDE: &'static str = "side";

/// The key of a text.
pub const TEXT: &'static str = "text";

/// The key of a value whose form depends on a field before it.
pub const VALUE: &'static str = "value";

/// What a member says that is asked for.
pub fn required<F: Form>(
    alloc: Global,
    asked: &mut Asked,
    key: &'static str,
    form: &F,
) -> Result<F::Said, OpFault>
    ensures { IsTaken result (required key.now (F.kind form.now)) asked.old asked.new }
{
    let value = member(alloc, asked, key)?;
    good(alloc, key, form.read(alloc, value)?)
}

/// What a member says that may be absent or null, which is None.
pub fn optional<F: Form>(
    alloc: Global,
    asked: &mut Asked,
    key: &'static str,
    form: &F,
) -> Result<Option<F::Said>, OpFault>
    ensures { IsTaken result (optional key.now (F.kind form.now)) asked.old asked.new }
{
    match present(asked, key)? {
        Some(value) => Ok(Some(good(alloc, key, form.read(alloc, value)?)?)),
        None => Ok(None),
    }
}

/// What a member says that may be absent or null, which is the default then.
pub fn defaulted<F: Form>(
    alloc: Global,
    asked: &mut Asked,
    key: &'static str,
    form: &F,
    default: F::Said,
) -> Result<F::Said, OpFault>
    ensures { IsTaken result (defaulted default key.now (F.kind form.now)) asked.old asked.new }
{
    Ok(optional(alloc, asked, key, form)?.unwrap_or(default))
}

/// What a word stands for that is asked for.
pub fn named<T: Named>(alloc: Global, asked: &mut Asked, key: &'static str) -> Result<T, OpFault>
    ensures { IsTaken result (required key.now (word T.names)) asked.old asked.new }
{
    let text = text_of(alloc, asked, key)?;
    good(alloc, key, T::named(text))
}

/// A whole number of 64 bits that is asked for.
pub fn number(alloc: Global, asked: &mut Asked, key: &'static str) -> Result<u64, OpFault>
    ensures { IsTaken result (required key.now whole) asked.old asked.new }
{
    required(alloc, asked, key, &Whole)
}

/// The text that a member is.
pub fn text_of<'a>(
    alloc: Global,
    asked: &mut Asked<'a>,
    key: &'static str,
) -> Result<&'a str, OpFault>
    ensures text { IsReadAs (λ text. text.now) result (required_of key.now as_str (get_member key.now (members_view asked.old.members))) }
    ensures keys { OnOk result (asked.new ≡ asked_too (key.now ∷ []) asked.old) }
{
    let value = member(alloc, asked, key)?;
    good(alloc, key, value.as_str())
}

/// The member that a key has.
fn member<'a>(alloc: Global, asked: &mut Asked<'a>, key: &'static str) -> Result<&'a Value, OpFault>
    ensures value { IsReadAs (λ value. view value.now) result (required_of key.now Some (get_member key.now (members_view asked.old.members))) }
    ensures keys { OnOk result (asked.new ≡ asked_too (key.now ∷ []) asked.old) }
{
    match asked.ask(key)? {
        Some(value) => Ok(value),
        None => Err(OpFault::Missing(characters(alloc, key)?)),
    }
}

/// The value of a member that is there and is not null.
fn present<'a>(asked: &mut Asked<'a>, key: &'static str) -> Result<Option<&'a Value>, Memory>
    ensures value { IfOk result (λ found. option_map (λ value. view value.now) found ≡ present (get_member key.now (members_view asked.old.members))) }
    ensures keys { OnOk result (asked.new ≡ asked_too (key.now ∷ []) asked.old) }
{
    match asked.ask(key)? {
        Some(value) if !value.is_null() => Ok(Some(value)),
        _ => Ok(None),
    }
}

/// What was found of a member's value; where nothing was found, the fault that the value is bad.
pub fn good<T: Drop>(alloc: Global, key: &str, found: Option<T>) -> Result<T, OpFault>
    ensures { IsRead result (or_bad key.now found) }
{
    match found {
        Some(value) => Ok(value),
        None => bad(alloc, key),
    }
}

/// The fault that the value of the member with this key is bad.
pub fn bad<T: Drop>(alloc: Global, key: &str) -> Result<T, OpFault>
    ensures { IsRead result (Err (faults.BadField (chars key.now))) }
{
    Err(OpFault::BadField(characters(alloc, key)?))
}
