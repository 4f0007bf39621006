//! The items of a block.
ghost use Rattle.std.specs.Prelude.{◌≡◌, IfOk};
ghost use Rattle.rd_text.specs.Texts.{IsAccessible};
ghost use Rattle.rd_props.specs.Appearance.{appearance_at};
ghost use Rattle.rd_props.specs.Buffers.{meaning};
ghost use Rattle.rd_items.specs.Readings.{reading};
ghost use Rattle.rd_items.specs.Pieces.{scene_of};
ghost use Rattle.rd_items.specs.Items.{items_of};

use crate::alike_range::AlikeRange;
use crate::item::Item;
use crate::walk::Walk;
use rd_base::{ListOf, Memory, Pos};
use rd_props::{Appearance, View, appearance_at};
use std::alloc::Global;
use std::marker::Model;

/// The most items for which a walk has room before its first step.
const ROOM: u32 = 1024;

/// The items of a block, fewer than 2^32. Contracts see them as their list.
#[derive(Debug, Drop)]
pub struct Items {
    list: ListOf<Item>,
}

impl Model for Items {
    ghost use Rattle.std.specs.Prelude.{List, ◌<◌, length};
    ghost use Rattle.rd_items.specs.declared.item.Item.{Item};

    ghost Value = { List Item };

    ghost view = { λ items. items.list };

    ghost invariant = { λ items. length items.list < 4294967296 };
}

impl Items {
    ghost use Rattle.std.specs.Prelude.{◌≡◌, ◌<◌, length, slice_get, Some, IfOk};
    ghost use Rattle.rd_text.specs.Texts.{IsAccessible};
    ghost use Rattle.rd_props.specs.Appearance.{appearance_at};
    ghost use Rattle.rd_props.specs.Buffers.{meaning};
    ghost use Rattle.rd_items.specs.Readings.{reading};
    ghost use Rattle.rd_items.specs.Pieces.{scene_of};
    ghost use Rattle.rd_items.specs.Items.{items_of};

    /// The items of the block that starts at a position, in order of position; of a position inside a block, those from there
    /// on. It costs a look at each of the block's characters, and the look-ups of the properties and of the overlays' strings
    /// wherever a property changes or an overlay starts or ends.
    pub fn new(alloc: Global, view: &View, start: Pos) -> Result<Items, Memory>
        requires { IsAccessible view.now.state.now.text start }
        ensures value { IfOk result (λ items. items ≡ items_of (scene_of view.now) (reading (meaning view.now.state.now) view.now.objects.now start)) }
    {
        let appearance = appearance_at(alloc, view, start)?;
        Items::with_appearance(alloc, view, start, &appearance)
    }

    /// The items of the block that starts at a position, as `new` has them, where it is known how the position looks, which saves one
    /// look-up. There is room at once for the items of a line that is not too long.
    pub fn with_appearance(
        alloc: Global,
        view: &View,
        start: Pos,
        appearance: &Appearance,
    ) -> Result<Items, Memory>
        requires place { IsAccessible view.now.state.now.text start }
        requires appearance { appearance.now ≡ appearance_at (meaning view.now.state.now) view.now.objects.now start }
        ensures value { IfOk result (λ items. items ≡ items_of (scene_of view.now) (reading (meaning view.now.state.now) view.now.objects.now start)) }
    {
        let line = view.state.text.next_newline(start) - start;
        let mut walk = Walk::new(alloc, line.min(ROOM) as usize + 1)?;
        let mut range = AlikeRange::of(view, start, appearance);
        let mut pos = start;
        while let Some(next) = walk.step(alloc, view, &mut range, start, pos)? {
            pos = next;
        }
        let list = walk.finish()?;
        if list.len() > u32::MAX as usize {
            return Err(Memory);
        }
        Ok(Items { list })
    }

    /// How many items there are.
    pub fn len(&self) -> u32
        ensures { result ≡ length self.now }
    {
        self.list.len() as u32
    }

    /// The items themselves.
    pub fn as_slice(&self) -> &[Item]
        ensures items { result.now ≡ self.now }
        ensures few { length self.now < 4294967296 }
    {
        self.list.as_slice()
    }

    /// The item of a number, counted from 0.
    pub fn item(&self, i: u32) -> &Item
        requires { i < length self.now }
        ensures { slice_get self.now i ≡ Some result.now }
    {
        self.list.get(i as usize)
    }
}
