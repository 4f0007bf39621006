//! The members of an op's object, and the keys that were asked for.
ghost use Rattle.std.specs.Prelude.{◌≡◌, map, option_map};
ghost use Rattle.serde_json.specs.Find.{get_member};
ghost use Rattle.serde_json.specs.View.{view, members_view};
ghost use Rattle.rd_script.specs.Reading.{is_among};

use crate::fault::OpFault;
use rd_base::{ListOf, Memory, characters};
use serde_json::{Map, Value};
use std::alloc::Global;
use std::marker::Model;

/// The members of an object, in the byte order of their keys.
pub type Members = Map<String, Value>;

/// The members of an op's object, of which its fields are read one by one. The keys that are asked for are kept in their order: they
/// are those that the op has, so that in the end an object with any other is refused.
#[derive(Drop)]
pub struct Asked<'a> {
    members: &'a Members,
    keys: ListOf<&'static str>,
}

impl<'a> Model for Asked<'a> {
    ghost use Rattle.std.specs.Coded.{codes};
    ghost use Rattle.std.specs.Prelude.{map};
    ghost use Rattle.serde_json.specs.contracts.value.Value as json;
    ghost use Rattle.rd_script.specs.Fields.{Asking};

    ghost Value = { Asking };

    ghost coded = { Prim.hlevel (codes, json.the_row.coded) };

    ghost view = { λ s. record { members = s.members.now.entries; keys = map (λ key. key.now) s.keys } };
}

impl<'a> Asked<'a> {
    ghost use Rattle.std.specs.Prelude.{◌≡◌, ◌∷◌, [], IfOk, OnOk, option_map};
    ghost use Rattle.serde_json.specs.Find.{get_member};
    ghost use Rattle.serde_json.specs.View.{view, members_view};
    ghost use Rattle.rd_script.specs.Fields.{IsRead, asked_too};
    ghost use Rattle.rd_script.specs.Reading.{closed, extra_key, is_among};

    /// The members of an object, of which none was asked for.
    pub fn of(alloc: Global, members: &'a Members) -> Asked<'a>
        ensures { result ≡ record { members = members.now.entries; keys = [] } }
    {
        Asked {
            members,
            keys: ListOf::new(alloc),
        }
    }

    /// The value of a member, and None where there is none. Its key is asked for from here on.
    pub fn ask(&mut self, key: &'static str) -> Result<Option<&'a Value>, Memory>
        ensures value { IfOk result (λ found. option_map (λ value. view value.now) found ≡ get_member key.now (members_view self.old.members)) }
        ensures keys { OnOk result (self.new ≡ asked_too (key.now ∷ []) self.old) }
    {
        self.keys.push(key)?;
        Ok(find(self.members, key))
    }

    /// What was read of an op, unless its object has a key that was not asked for.
    pub fn refuse_extra<T: Drop>(&self, alloc: Global, op: T) -> Result<T, OpFault>
        ensures { IsRead result (closed self.now.keys (members_view self.now.members) op) }
    {
        match self.extra_key() {
            Some(key) => Err(OpFault::Extra(characters(alloc, key)?)),
            None => Ok(op),
        }
    }

    /// The first key in byte order that was not asked for.
    fn extra_key(&self) -> Option<&str>
        ensures { option_map (λ key. key.now) result ≡ extra_key self.now.keys (members_view self.now.members) }
    {
        for (key, _value) in self.members.iter() {
            if !is_among(self.keys.as_slice(), key.as_str()) {
                return Some(key.as_str());
            }
        }
        None
    }
}

/// The value that a key has, and None where there is none.
fn find<'a>(members: &'a Members, key: &str) -> Option<&'a Value>
    ensures { option_map (λ value. view value.now) result ≡ get_member key.now (members_view members.now.entries) }
{
    members.get(key)
}

/// Whether a key is among these.
fn is_among(keys: &[&'static str], key: &str) -> bool
    ensures { result ≡ is_among (map (λ k. k.now) keys.now) key.now }
{
    for k in keys {
        if key == *k {
            return true;
        }
    }
    false
}
