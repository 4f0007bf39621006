//! All overlays of a buffer.
use crate::edges::nearest_edge;
use crate::fault::OverlayFault;
use crate::listing::listed;
use crate::moves::Edit;
use crate::overlay::{Kind, Living, Meeting, Overlay, overlay_at};
use crate::store::Store;
use crate::way::Way;
use rd_base::limits::OVERLAYS;
use rd_base::{ListOf, Memory, Pos};
use std::alloc::Global;
use std::marker::Model;

/// All overlays of a buffer. A number counts from 0 in order of making and is never used again. A batch is 256 overlays that
/// follow one another by their starts, whatever the order in which they were made. The batches are made anew when more than 256
/// overlays and a 128th of those in batches were made since, which are in no batch, or when more than 16 and a 1,024th of them
/// were moved since, each of which can widen the bounds of one batch.
#[derive(Drop)]
pub struct Overlays {
    alloc: Global,
    slots: Store,
}

impl Model for Overlays {
    ghost use Rattle.std.specs.Prelude.{List, Option, ◌≤◌, length};
    ghost use Rattle.rd_overlays.specs.declared.overlay.Overlay.{Overlay};
    ghost use Rattle.rd_base.specs.declared.limits.TheConstants.{OVERLAYS};
    ghost use Rattle.rd_overlays.specs.declared.fault.OverlayFault.TheVariants.{NoOverlay};

    ghost Value = { List (Option Overlay) };

    ghost view = { λ s. s.slots };

    ghost invariant = { λ s. length s.slots ≤ OVERLAYS };
}

impl Overlays {
    ghost use Rattle.std.specs.Prelude.{◌≡◌, ◌≤◌, ◌<◌, [], length, map, Some, None, IfOk, OnOk, OnErr, MatchOption, MatchResult};
    ghost use Rattle.rd_base.specs.declared.limits.TheConstants.{OVERLAYS};
    ghost use Rattle.rd_overlays.specs.declared.fault.OverlayFault.TheVariants.{NoOverlay};
    ghost use Rattle.rd_overlays.specs.Overlays.{overlay_at, IsLiving, new_overlay, make_fault, number_fault, move_fault, dropped, moved, given, Makes, Moves, Answers, covering, starting, ending, next_edge, last_edge, AllFit, slot_grown, slot_shrunk};

    /// No overlay.
    pub fn new(alloc: Global) -> Result<Overlays, Memory>
        ensures { IfOk result (λ overlays. overlays ≡ []) }
    {
        Ok(Overlays {
            alloc,
            slots: Store::new(alloc),
        })
    }

    /// There are at most 65,536 overlays. The call does nothing.
    pub fn overlays_are_few(&self)
        ensures { length self.now ≤ OVERLAYS }
    {
        let _slots = &self.slots;
    }

    /// Makes an overlay without values from `from` to `to - 1`, and answers its number, which is the count of those made so far. The first
    /// of these faults counts: OutOfRange, where the start stands behind the end; TooMany, where 65,536 overlays were made. The cost is
    /// constant, and now and then that of making the batches: the number of the overlays times its logarithm, which comes to looking at
    /// some hundred numbers for each that is made. It takes memory for this; where there is none nothing changes.
    pub fn make(
        &mut self,
        from: Pos,
        to: Pos,
        priority: i32,
        front: bool,
        rear: bool,
    ) -> Result<u32, OverlayFault>
        ensures { Makes result (make_fault self.old from to) self.old self.new (new_overlay from to priority front rear) }
    {
        if to < from {
            return Err(OverlayFault::OutOfRange);
        }
        if self.slots.len() >= OVERLAYS as usize {
            return Err(OverlayFault::TooMany);
        }
        self.slots.settle()?;
        let number = self.slots.len() as u32;
        let values = [None; 7];
        self.slots.push(Overlay {
            from,
            to,
            priority,
            front,
            rear,
            values,
        })?;
        Ok(number)
    }

    /// Moves an overlay to the range from `from` to `to - 1`. The first of these faults counts, and each changes nothing: NoOverlay,
    /// where no such overlay lives; OutOfRange, where the start stands behind the end; Memory. It costs a pass over the order of the
    /// overlays where its range changes, and now and then, after at least 17 such moves, the making of the batches as in `make`.
    pub fn move_to(&mut self, number: u32, from: Pos, to: Pos) -> Result<(), OverlayFault>
        ensures { Moves result (move_fault self.old number from to) self.old self.new (moved self.old number from to) }
    {
        let living = self.find(number)?;
        if to < from {
            return Err(OverlayFault::OutOfRange);
        }
        self.move_living(living, from, to)?;
        Ok(())
    }

    /// Takes an overlay away; its number is never used again. NoOverlay comes exactly where no such overlay lives.
    /// The cost is constant.
    pub fn drop_one(&mut self, number: u32) -> Result<(), OverlayFault>
        ensures { Answers result (number_fault self.old number) self.old self.new (dropped self.old number) }
    {
        let living = self.find(number)?;
        self.drop_living(living);
        Ok(())
    }

    /// Gives an overlay a value of a kind, or takes it away where `value` is None. NoOverlay comes exactly where no
    /// such overlay lives. The cost is constant.
    pub fn set(&mut self, number: u32, kind: Kind, value: Option<u32>) -> Result<(), OverlayFault>
        ensures { Answers result (number_fault self.old number) self.old self.new (given self.old number kind value) }
    {
        let living = self.find(number)?;
        self.set_living(living, kind, value);
        Ok(())
    }

    /// The overlay of a number with it. NoOverlay comes exactly where it does not live. The cost is constant.
    pub fn find(&self, number: u32) -> Result<Living, OverlayFault>
        ensures { MatchResult result (λ living. (living.number ≡ number) × IsLiving self.now living) (λ fault. (fault ≡ NoOverlay) × (overlay_at self.now number ≡ None)) }
    {
        let overlay = overlay_at(self.slots.as_slice(), number).ok_or(OverlayFault::NoOverlay)?;
        Ok(Living { number, overlay })
    }

    /// Moves an overlay that was found, as `move_to` does. Where memory is wanting nothing changes.
    pub fn move_living(&mut self, living: Living, from: Pos, to: Pos) -> Result<(), Memory>
        requires living { IsLiving self.old living }
        requires order { from ≤ to }
        ensures ok { OnOk result (self.new ≡ moved self.old living.number from to) }
        ensures err { OnErr result (self.new ≡ self.old) }
    {
        self.slots.settle()?;
        let moved = Overlay {
            from,
            to,
            ..living.overlay
        };
        self.slots.put(living.number, Some(moved));
        Ok(())
    }

    /// Takes an overlay away that was found.
    pub fn drop_living(&mut self, living: Living)
        requires { IsLiving self.old living }
        ensures { self.new ≡ dropped self.old living.number }
    {
        self.slots.put(living.number, None);
    }

    /// Gives an overlay that was found a value of a kind, or takes it away.
    pub fn set_living(&mut self, living: Living, kind: Kind, value: Option<u32>)
        requires { IsLiving self.old living }
        ensures { self.new ≡ given self.old living.number kind value }
    {
        let mut overlay = living.overlay;
        overlay.values[kind as usize] = value;
        self.slots.put(living.number, Some(overlay));
    }

    /// The overlay of a number, and None exactly where it does not live. The cost is constant.
    pub fn get(&self, number: u32) -> Option<&Overlay>
        ensures { MatchOption result (overlay_at self.now number ≡ None) (λ overlay. overlay_at self.now number ≡ Some overlay.now) }
    {
        self.slots.as_slice().get(number as usize)?.as_ref()
    }

    /// The numbers of the overlays that cover a position, `from <= pos < to`, in increasing order of priority and number. It costs a
    /// pass over the bounds of all batches, over each batch whose bounds hold the position and over the overlays in no batch, and for
    /// those listed their number times its logarithm, for which it takes memory.
    pub fn covering(&self, pos: Pos) -> Result<ListOf<u32>, Memory>
        ensures { IfOk result (λ list. list ≡ covering pos self.now) }
    {
        listed(self.alloc, &self.slots, Meeting::Covers, pos)
    }

    /// The numbers of the overlays that start at a position, empty ones too, in increasing order of priority and number. It costs a
    /// pass over the bounds of all batches, over each batch whose bounds hold the position and over the overlays in no batch, and for
    /// those listed their number times its logarithm, for which it takes memory.
    pub fn starting(&self, pos: Pos) -> Result<ListOf<u32>, Memory>
        ensures { IfOk result (λ list. list ≡ starting pos self.now) }
    {
        listed(self.alloc, &self.slots, Meeting::Starts, pos)
    }

    /// The numbers of the overlays whose `to` is a position, empty ones too, in increasing order of priority and number. It costs a
    /// pass over the bounds of all batches, over each batch whose bounds hold the position and over the overlays in no batch, and for
    /// those listed their number times its logarithm, for which it takes memory.
    pub fn ending(&self, pos: Pos) -> Result<ListOf<u32>, Memory>
        ensures { IfOk result (λ list. list ≡ ending pos self.now) }
    {
        listed(self.alloc, &self.slots, Meeting::Ends, pos)
    }

    /// The least start or end after a position, and None where there is none. It costs a pass over the bounds of all batches, over each
    /// batch in which a start or an end may stand behind the position and before the least of the batches so far, and over the overlays
    /// in no batch.
    pub fn next_edge(&self, pos: Pos) -> Option<Pos>
        ensures { result ≡ next_edge pos self.now }
    {
        nearest_edge(&self.slots, Way::Next, pos)
    }

    /// The greatest start or end at a position or before it, and None where there is none. It costs a pass over the bounds of all
    /// batches, over each batch in which a start or an end may stand there and behind the greatest of the batches so far, and over the
    /// overlays in no batch.
    pub fn last_edge(&self, pos: Pos) -> Option<Pos>
        ensures { result ≡ last_edge pos self.now }
    {
        nearest_edge(&self.slots, Way::Last, pos)
    }

    /// Moves the overlays with `n` characters that were inserted at a position. A start or an end behind the position moves; a start at
    /// it moves where `front` is set, an end at it where `rear` is set; a start that would pass its end stands at its end. It costs a
    /// pass over all overlays.
    pub fn inserted(&mut self, pos: Pos, n: u32)
        requires { AllFit pos n self.old }
        ensures { self.new ≡ map (slot_grown pos n) self.old }
    {
        self.slots.follow(Edit::Insertion { pos, n });
    }

    /// Moves the overlays with the deletion of the text from `from` to `to - 1`. What stands in the range goes to `from`, what stands
    /// at `to` or later moves back. It costs a pass over all overlays.
    pub fn deleted(&mut self, from: Pos, to: Pos)
        requires { from ≤ to }
        ensures { self.new ≡ map (slot_shrunk from to) self.old }
    {
        self.slots.follow(Edit::Deletion { from, to });
    }
}
