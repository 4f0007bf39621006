//! Arrays in a value, item by item.
ghost use Rattle.std.specs.Prelude.{◌≡◌, IfOk};
ghost use Rattle.serde_json.specs.View.{items_view};
ghost use Rattle.rd_script.specs.Fields.{each_item, two_items_of};

use crate::form::{Form, small_within};
use rd_base::{ListOf, Memory};
use serde_json::Value;
use std::alloc::Global;

/// An array of at most so many items of a form.
#[derive(Drop)]
pub struct AtMost<F> {
    pub most: u32,
    pub of: F,
}

impl<F: Form> Form for AtMost<F> {
    ghost use Rattle.rd_script.specs.Fields.{list_of};

    type Said = ListOf<F::Said>;

    ghost kind = { λ s. list_of s.most (F.kind s.of) };

    fn read(&self, alloc: Global, value: &Value) -> Result<Option<ListOf<F::Said>>, Memory> {
        match value.as_array() {
            Some(items) => {
                if (self.most as usize) < items.len() {
                    return Ok(None);
                }
                each(alloc, items.as_slice(), &self.of)
            }
            None => Ok(None),
        }
    }
}

/// An array of two items, each of a form of its own.
#[derive(Drop)]
pub struct Two<A, B> {
    pub first: A,
    pub second: B,
}

impl<A: Form, B: Form> Form for Two<A, B> {
    ghost use Rattle.rd_script.specs.Fields.{two_items};

    type Said = (A::Said, B::Said);

    ghost kind = { λ s. two_items (A.kind s.first) (B.kind s.second) };

    fn read(&self, alloc: Global, value: &Value) -> Result<Option<(A::Said, B::Said)>, Memory> {
        match value.as_array() {
            Some(items) => pair_of(alloc, items.as_slice(), &self.first, &self.second),
            None => Ok(None),
        }
    }
}

/// An array of raw bytes, each of which is no ASCII character.
#[derive(Drop)]
pub struct RawBytes;

impl Form for RawBytes {
    ghost use Rattle.rd_script.specs.Fields.{within, items_of};

    type Said = ListOf<u8>;

    ghost kind = { λ _. items_of (within 128 255) };

    fn read(&self, alloc: Global, value: &Value) -> Result<Option<ListOf<u8>>, Memory> {
        match value.as_array() {
            Some(items) => each(alloc, items.as_slice(), &RawByte),
            None => Ok(None),
        }
    }
}

/// A byte that is no ASCII character.
#[derive(Drop)]
struct RawByte;

impl Form for RawByte {
    ghost use Rattle.rd_script.specs.Fields.{within};

    type Said = u8;

    ghost kind = { λ _. within 128 255 };

    fn read(&self, _alloc: Global, value: &Value) -> Result<Option<u8>, Memory> {
        match small_within(value, 128, 255) {
            Some(byte) => Ok(Some(byte as u8)),
            None => Ok(None),
        }
    }
}

/// What each item says, and None where one is of another form.
fn each<F: Form>(
    alloc: Global,
    items: &[Value],
    form: &F,
) -> Result<Option<ListOf<F::Said>>, Memory>
    ensures { IfOk result (λ found. found ≡ each_item (F.kind form.now) (items_view items.now)) }
{
    let mut list = ListOf::new(alloc);
    for item in items {
        match form.read(alloc, item)? {
            Some(found) => list.push(found)?,
            None => return Ok(None),
        }
    }
    Ok(Some(list))
}

/// What two items say, and None where there are not two, or one is of another form.
fn pair_of<A: Form, B: Form>(
    alloc: Global,
    items: &[Value],
    first: &A,
    second: &B,
) -> Result<Option<(A::Said, B::Said)>, Memory>
    ensures { IfOk result (λ found. found ≡ two_items_of (A.kind first.now) (B.kind second.now) (items_view items.now)) }
{
    if items.len() != 2 {
        return Ok(None);
    }
    let one = first.read(alloc, &items[0])?;
    let other = second.read(alloc, &items[1])?;
    Ok(one.zip(other))
}
