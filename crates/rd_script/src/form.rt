//! Forms of values: what a value says, where it is of a form.
ghost use Rattle.std.specs.Prelude.{◌≡◌, ◌≤◌, IfSome};
ghost use Rattle.serde_json.specs.View.{view};
ghost use Rattle.rd_script.specs.Fields.{within, signed};

use rd_base::Memory;
use serde_json::Value;
use std::alloc::Global;

/// A form that a value may have.
pub trait Form {
    ghost use Rattle.std.specs.Prelude.{◌≡◌, IfOk, Option};
    ghost use Rattle.serde_json.specs.Data.{Data};
    ghost use Rattle.serde_json.specs.View.{view};

    /// What a value of the form says.
    type Said: Drop;

    // what a value says, where it is of the form
    ghost kind: { Self → Data → Option Self.Said };

    /// What a value says, and None where it is of another form.
    fn read(&self, alloc: Global, value: &Value) -> Result<Option<Self::Said>, Memory>
        ensures { IfOk result (λ found. found ≡ kind self.now (view value.now)) };
}

/// A whole number of 64 bits.
#[derive(Drop)]
pub struct Whole;

impl Form for Whole {
    ghost use Rattle.rd_script.specs.Fields.{whole};

    type Said = u64;

    ghost kind = { λ _. whole };

    fn read(&self, _alloc: Global, value: &Value) -> Result<Option<u64>, Memory> {
        Ok(value.as_u64())
    }
}

/// A whole number from `least` to `greatest`, both of which count.
#[derive(Drop)]
pub struct Within {
    pub least: u32,
    pub greatest: u32,
}

impl Form for Within {
    ghost use Rattle.rd_script.specs.Fields.{within};

    type Said = u32;

    ghost kind = { λ s. within s.least s.greatest };

    fn read(&self, _alloc: Global, value: &Value) -> Result<Option<u32>, Memory> {
        Ok(small_within(value, self.least, self.greatest))
    }
}

/// A whole number that may be below 0, from `most` below 0 up to the same above.
#[derive(Drop)]
pub struct Signed {
    pub most: i32,
}

impl Form for Signed {
    ghost use Rattle.rd_script.specs.Fields.{signed};

    type Said = i32;

    ghost kind = { λ s. signed s.most };

    fn read(&self, _alloc: Global, value: &Value) -> Result<Option<i32>, Memory> {
        Ok(number_near_zero(value, self.most))
    }
}

/// A flag.
#[derive(Drop)]
pub struct Flag;

impl Form for Flag {
    ghost use Rattle.serde_json.specs.Find.{as_bool};

    type Said = bool;

    ghost kind = { λ _. as_bool };

    fn read(&self, _alloc: Global, value: &Value) -> Result<Option<bool>, Memory> {
        Ok(value.as_bool())
    }
}

/// A value's number, where it is a whole one of a range.
pub fn number_within(value: &Value, least: u64, greatest: u64) -> Option<u64>
    ensures value { result ≡ within least greatest (view value.now) }
    ensures bound { IfSome result (λ n. n ≤ greatest) }
{
    match value.as_u64() {
        Some(n) if least <= n && n <= greatest => Some(n),
        _ => None,
    }
}

/// A number of 32 bits from the least to the greatest, or None.
pub fn small_within(value: &Value, least: u32, greatest: u32) -> Option<u32>
    ensures { result ≡ within least greatest (view value.now) }
{
    Some(number_within(value, least as u64, greatest as u64)? as u32)
}

/// A value's number, where it is a whole one of at most this size, below 0 or above.
fn number_near_zero(value: &Value, most: i32) -> Option<i32>
    ensures { result ≡ signed most (view value.now) }
{
    match value.as_i64() {
        Some(n) if -(most as i64) <= n && n <= most as i64 => Some(n as i32),
        _ => None,
    }
}
