//! The overlays by number, with an index by which a look-up passes over many of them at once.
use crate::index::{Index, indexed, make_fit};
use crate::moves::{Edit, bounds_moved, slot_moved};
use crate::overlay::Overlay;
use rd_base::limits::OVERLAYS;
use rd_base::{ListOf, Memory};
use std::alloc::Global;
use std::marker::Model;

/// The overlays by number, with an index of them. It is made anew when many overlays were made or moved since it was made.
#[derive(Drop)]
pub(crate) struct Store {
    alloc: Global,
    slots: ListOf<Option<Overlay>>,
    index: Index,
}

impl Model for Store {
    ghost use Rattle.std.specs.Prelude.{List, Option};
    ghost use Rattle.rd_overlays.specs.declared.overlay.Overlay.{Overlay};
    ghost use Rattle.rd_overlays.specs.Bounds.{IsIndex};

    ghost Value = { List (Option Overlay) };

    ghost view = { λ s. s.slots };

    ghost invariant = { λ s. IsIndex s.slots s.index.order s.index.bounds };
}

impl Store {
    ghost use Rattle.std.specs.Prelude.{◌≡◌, ◌≤◌, ◌<◌, ◌++◌, ◌∷◌, [], length, map, Option, Some, OnOk, OnErr, slice_set};
    ghost use Rattle.rd_overlays.specs.Bounds.{IsIndex};
    ghost use Rattle.rd_overlays.specs.Moves.{slot_moved, IsEdit, AllFollow};

    pub(crate) fn new(alloc: Global) -> Store
        ensures { result ≡ [] }
    {
        Store {
            alloc,
            slots: ListOf::new(alloc),
            index: Index::new(alloc),
        }
    }

    pub(crate) fn len(&self) -> usize
        ensures { result ≡ length self.now }
    {
        self.slots.len()
    }

    pub(crate) fn as_slice(&self) -> &[Option<Overlay>]
        ensures { result.now ≡ self.now }
    {
        self.slots.as_slice()
    }

    pub(crate) fn index(&self) -> &Index
        ensures { IsIndex self.now result.now.order result.now.bounds }
    {
        &self.index
    }

    /// Puts something else at a number. It costs a pass over the order where the range of an overlay changes.
    pub(crate) fn put(&mut self, number: u32, slot: Option<Overlay>)
        requires { number < length self.old }
        ensures { self.new ≡ slice_set self.old number slot }
    {
        let before = self.slots.at(number as usize);
        make_fit(&mut self.index, number, before, slot);
        self.slots.set(number as usize, slot);
    }

    /// Adds an overlay with the next number.
    pub(crate) fn push(&mut self, overlay: Overlay) -> Result<(), Memory>
        ensures ok { OnOk result (self.new ≡ self.old ++ Some overlay ∷ []) }
        ensures err { OnErr result (self.new ≡ self.old) }
    {
        self.slots.push(Some(overlay))?;
        Ok(())
    }

    /// Makes the index anew where it is stale. It costs the number of the overlays times its logarithm then, and takes memory.
    pub(crate) fn settle(&mut self) -> Result<(), Memory>
        requires { length self.old ≤ OVERLAYS }
        ensures { self.new ≡ self.old }
    {
        if self.index.is_stale(self.slots.len()) {
            self.index = indexed(self.alloc, self.slots.as_slice())?;
        }
        Ok(())
    }

    /// Moves the overlays with an edit of the text.
    pub(crate) fn follow(&mut self, edit: Edit)
        requires edit { IsEdit edit }
        requires follow { AllFollow edit self.old }
        ensures { self.new ≡ map (slot_moved edit) self.old }
    {
        self.slots
            .change_each(|slot| *slot = slot_moved(edit, *slot));
        self.index
            .bounds
            .change_each(|bounds| *bounds = bounds_moved(edit, *bounds));
    }
}
