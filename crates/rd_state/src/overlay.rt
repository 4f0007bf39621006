//! The ops on the overlays of a buffer, as methods of `Content`, with the refusals of each in order.
ghost use Rattle.std.specs.Prelude.{◌≡◌, ◌≢◌, ◌+◌, ◌<◌, ◌≤◌, true, None, Some, IfOk, IsSome, OnOk, length};
ghost use Rattle.rd_overlays.specs.Overlays.{overlay_at, IsLiving};
ghost use Rattle.rd_objects.specs.Sound.{AreObjects};
ghost use Rattle.rd_script.specs.Forms.{IsPropertyValue};
ghost use Rattle.rd_state.specs.Edits.{is_range_of_all, overlay_making, overlay_moving, overlay_dropping, overlay_putting, margin_putting};
ghost use Rattle.rd_state.specs.Answers.{Answers, Finds};
ghost use Rattle.rd_state.specs.declared.refused.Refused.TheVariants.{NoOverlay};

use crate::content::Content;
use crate::made::made_value;
use crate::refused::Refused;
use rd_base::limits::{OVERLAYS, TEXT_CHARACTERS};
use rd_objects::Objects;
use rd_overlays::{Kind, Living, Overlay, Overlays};
use rd_text::Buffer;

/// How many overlays can be made in a buffer.
const MOST_OVERLAYS: u64 = OVERLAYS as u64;

impl Content {
    /// Makes an overlay without values.
    pub(crate) fn make_overlay(
        &mut self,
        from: u64,
        to: u64,
        priority: i32,
        front: bool,
        rear: bool,
    ) -> Result<(), Refused>
        ensures changes { Answers result (overlay_making from to priority front rear self.old) self.old self.new }
        ensures small { OnOk result ((from < 4294967296) × (to < 4294967296)) }
    {
        if !is_range_of_all(&self.state.text, from, to) {
            return Err(Refused::OutOfRange);
        }
        self.state
            .overlays
            .make(from as u32, to as u32, priority, front, rear)?;
        Ok(())
    }

    /// Gives an overlay another range, and answers it as it was.
    pub(crate) fn move_overlay(
        &mut self,
        number: u64,
        from: u64,
        to: u64,
    ) -> Result<Overlay, Refused>
        ensures changes { Answers result (overlay_moving number from to self.old) self.old self.new }
        ensures before { IfOk result (λ overlay. overlay_at self.old.overlays number ≡ Some overlay) }
        ensures small { OnOk result ((from < 4294967296) × (to < 4294967296)) }
    {
        let living = find_overlay(&self.state.overlays, number)?;
        if !is_range_of_all(&self.state.text, from, to) {
            return Err(Refused::OutOfRange);
        }
        self.state
            .overlays
            .move_living(living, from as u32, to as u32)?;
        Ok(living.overlay)
    }

    /// Takes an overlay away, and answers it.
    pub(crate) fn drop_overlay(&mut self, number: u64) -> Result<Overlay, Refused>
        ensures changes { Answers result (overlay_dropping number self.old) self.old self.new }
        ensures before { IfOk result (λ overlay. overlay_at self.old.overlays number ≡ Some overlay) }
        ensures free { result ≢ Err Refused.Memory }
    {
        let living = find_overlay(&self.state.overlays, number)?;
        self.state.overlays.drop_living(living);
        Ok(living.overlay)
    }

    /// Gives an overlay another value of a kind, or takes its value away, and answers it as it was.
    pub(crate) fn put_on_overlay(
        &mut self,
        objects: &Objects,
        number: u64,
        kind: Kind,
        value: Option<u64>,
    ) -> Result<Overlay, Refused>
        requires objects { AreObjects objects.now }
        requires form { IsPropertyValue kind value }
        ensures changes { Answers result (overlay_putting objects.now number kind value self.old) self.old self.new }
        ensures before { IfOk result (λ overlay. overlay_at self.old.overlays number ≡ Some overlay) }
        ensures free { result ≢ Err Refused.Memory }
    {
        let living = find_overlay(&self.state.overlays, number)?;
        let value = made_value(objects, kind, value)?;
        self.state.overlays.set_living(living, kind, value);
        Ok(living.overlay)
    }

    /// Gives an overlay another margin string, or takes its string away. The string's number is refused as that of a before-string is.
    pub(crate) fn put_margin_string(
        &mut self,
        objects: &Objects,
        number: u64,
        string: Option<u64>,
    ) -> Result<(), Refused>
        requires { AreObjects objects.now }
        ensures changes { Answers result (margin_putting objects.now number string self.old) self.old self.new }
        ensures free { result ≡ Err Refused.Memory → IsSome string }
    {
        let living = find_overlay(&self.state.overlays, number)?;
        let string = made_value(objects, Kind::Before, string)?;
        self.marks.set(living.number, string)?;
        Ok(())
    }
}

/// The overlay with a number, which is refused where none lives.
fn find_overlay(overlays: &Overlays, number: u64) -> Result<Living, Refused>
    requires { length overlays.now ≤ OVERLAYS }
    ensures { Finds result (λ living. (living.number ≡ number) × IsLiving overlays.now living) (overlay_at overlays.now number ≡ None) NoOverlay }
{
    if MOST_OVERLAYS <= number {
        return Err(Refused::NoOverlay);
    }
    Ok(overlays.find(number as u32)?)
}

/// Whether a range lies in the whole text.
fn is_range_of_all(text: &Buffer, from: u64, to: u64) -> bool
    ensures value { result ≡ is_range_of_all text.now from to }
    ensures bound { result ≡ true → (from ≤ to) × (to ≤ TEXT_CHARACTERS + 1) }
{
    1 <= from && from <= to && to <= text.length() as u64 + 1
}
