//! Whether the objects that ops name were made.
ghost use Rattle.std.specs.Prelude.{◌≡◌, ◌<◌, true, false, Some, IfOk, IfErr, OnOk, OnErr, length, min};
ghost use Rattle.rd_base.specs.declared.limits.TheConstants.{STRINGS};
ghost use Rattle.rd_objects.specs.Sound.{AreObjects};
ghost use Rattle.rd_script.specs.Forms.{IsPropertyValue};
ghost use Rattle.rd_state.specs.declared.refused.Refused.TheVariants.{NoObject};
ghost use Rattle.rd_state.specs.Edits.{is_number_made, is_value_made, is_setting_made};
ghost use Rattle.rd_state.specs.Held.{IsFitting};

use crate::refused::Refused;
use rd_base::limits::STRINGS;
use rd_objects::Objects;
use rd_overlays::Kind;
use rd_script::Setting;

/// How many strings there can be: no sort of objects has more.
const MOST_NUMBERS: u64 = STRINGS as u64;

/// The value of a kind in 32 bits, which is refused where it names an object that was not made.
pub(crate) fn made_value(
    objects: &Objects,
    kind: Kind,
    value: Option<u64>,
) -> Result<Option<u32>, Refused>
    requires objects { AreObjects objects.now }
    requires form { IsPropertyValue kind value }
    ensures same { IfOk result (λ number. number ≡ value) }
    ensures made { IfOk result (λ number. is_value_made objects.now kind value ≡ true) }
    ensures absent { OnErr result (is_value_made objects.now kind value ≡ false) }
    ensures refused { IfErr result (λ e. e ≡ NoObject) }
{
    match value {
        Some(number) => number_if(is_value(objects, kind, number), number),
        None => Ok(None),
    }
}

/// Whether a number is a value of a kind: that of an object that was made, or any atom.
fn is_value(objects: &Objects, kind: Kind, number: u64) -> bool
    requires objects { AreObjects objects.now }
    ensures value { result ≡ is_value_made objects.now kind (Some number) }
    ensures small { result ≡ true → IsPropertyValue kind (Some number) → number < 4294967296 }
{
    match kind {
        Kind::Face => objects.face(capped(number)).is_some(),
        Kind::Display => objects.spec(capped(number)).is_some(),
        Kind::Invisible => true,
        Kind::LinePrefix => is_made_string(objects, number),
        Kind::WrapPrefix => is_made_string(objects, number),
        Kind::Before => is_made_string(objects, number),
        Kind::After => is_made_string(objects, number),
    }
}

/// A number in 32 bits, which is refused unless its object was made.
fn number_if(is_made: bool, number: u64) -> Result<Option<u32>, Refused>
    requires { is_made ≡ true → number < 4294967296 }
    ensures same { IfOk result (λ n. n ≡ Some number) }
    ensures made { OnOk result (is_made ≡ true) }
    ensures absent { OnErr result (is_made ≡ false) }
    ensures refused { IfErr result (λ e. e ≡ NoObject) }
{
    if is_made {
        Ok(Some(number as u32))
    } else {
        Err(Refused::NoObject)
    }
}

/// Whether the object that a setting names was made.
pub(crate) fn names_made(objects: &Objects, setting: &Setting) -> bool
    requires { AreObjects objects.now }
    ensures value { result ≡ is_setting_made objects.now setting.now }
    ensures small { result ≡ true → IsFitting setting.now }
{
    match setting {
        Setting::Table(Some(number)) => objects.table(capped(*number)).is_some(),
        Setting::LinePrefix(Some(number)) => is_made_string(objects, *number),
        Setting::WrapPrefix(Some(number)) => is_made_string(objects, *number),
        _ => true,
    }
}

/// Whether a string was made.
fn is_made_string(objects: &Objects, number: u64) -> bool
    requires { AreObjects objects.now }
    ensures value { result ≡ is_number_made (length objects.now.strings) (Some number) }
    ensures small { result ≡ true → number < 4294967296 }
{
    objects.string(capped(number)).is_some()
}

/// The number of an object in 32 bits. One that is past all objects stays past them.
pub(crate) fn capped(number: u64) -> u32
    ensures { result ≡ min number STRINGS }
{
    number.min(MOST_NUMBERS) as u32
}
