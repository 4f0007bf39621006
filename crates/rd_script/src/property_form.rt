//! The form of a property's value.
ghost use Rattle.std.specs.Prelude.{◌≡◌};
ghost use Rattle.rd_script.specs.Properties.{greatest_value};

use crate::form::{Form, number_within};
use rd_base::Memory;
use rd_base::limits::ATOMS;
use rd_overlays::Kind;
use serde_json::Value;
use std::alloc::Global;

/// A property of a kind: an atom, or a number of 64 bits by which an object is named.
#[derive(Drop)]
pub struct Property {
    pub kind: Kind,
}

impl Form for Property {
    ghost use Rattle.rd_script.specs.Fields.{within};
    ghost use Rattle.rd_script.specs.Properties.{greatest_value};

    type Said = u64;

    ghost kind = { λ s. within 0 (greatest_value s.kind) };

    fn read(&self, _alloc: Global, value: &Value) -> Result<Option<u64>, Memory> {
        Ok(number_within(value, 0, greatest_value(self.kind)))
    }
}

/// The greatest value of a kind.
fn greatest_value(kind: Kind) -> u64
    ensures { result ≡ greatest_value kind }
{
    match kind {
        Kind::Invisible => ATOMS as u64,
        _ => u64::MAX,
    }
}
