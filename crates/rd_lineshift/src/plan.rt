//! An update that may begin with a shift, prepared before any of it is sent, so that sending takes no memory.
ghost use Rattle.std.specs.Prelude.{◌≡◌, ℕ, ◌≤◌, List, length, Option, None, Some, IfOk, IfSome, OnOk, OnErr};
ghost use Rattle.rd_io.specs.Devices.{Rose};
ghost use Rattle.rd_term.specs.Pictures.{IsWellFormed, Picture};
ghost use Rattle.rd_update.specs.Plans.{HaveOneSize, Sends, sent_of, shown};
ghost use Rattle.rd_lineshift.specs.Choices.{AreWithin};
ghost use Rattle.rd_lineshift.specs.Laws.{IsShift};
ghost use Rattle.rd_lineshift.specs.Plans.{shifted_planned, shifted_update, shifting};

use crate::band::{Band, Shift};
use crate::bytes::shift_bytes;
use crate::choice::shift_of;
use crate::screens::shifted;
use rd_base::{ListOf, Memory};
use rd_io::{Sink, write_whole};
use rd_term::Screen;
use rd_update::{Plan, Sent, WriteFault};
use std::alloc::Global;
use std::marker::Model;

/// The bytes of a shift, where one is taken, the screen after it, and the update from there.
#[derive(Drop)]
pub struct Shifted {
    opening: ListOf<u8>,
    screen: Option<Screen>,
    plan: Plan,
}

impl Model for Shifted {
    ghost use Rattle.rd_lineshift.specs.Plans.{Shifting};

    ghost Value = { Shifting };

    ghost view = { λ s. record { opening = s.opening; screen = s.screen; plan = s.plan } };
}

/// Prepares the update from the current screen, None where nobody knows it, to the target. Both have one size, in both
/// each glyph stands whole, and the bands lie on them. Its one error is want of memory. Where a shift of one of the bands spares
/// three rows or more it begins with that shift.
pub fn shifted_plan(
    alloc: Global,
    current: Option<&Screen>,
    target: &Screen,
    bands: &[Band],
) -> Result<Shifted, Memory>
    requires size { HaveOneSize (shown current) target.now }
    requires current { IfSome (shown current) (λ screen. IsWellFormed screen) }
    requires target { IsWellFormed target.now }
    requires bands { AreWithin (length target.now.rows) bands.now }
    ensures { IfOk result (λ prepared. prepared ≡ shifted_planned (shown current.entry) target.now bands.now) }
{
    match current {
        Some(screen) => match shift_of(screen, target, bands) {
            Some(shift) => with_shift(alloc, screen, target, shift),
            None => without_shift(alloc, Some(screen), target),
        },
        None => without_shift(alloc, None, target),
    }
}

/// Prepares an update that begins with a shift.
fn with_shift(
    alloc: Global,
    current: &Screen,
    target: &Screen,
    shift: Shift,
) -> Result<Shifted, Memory>
    requires size { HaveOneSize (Some current.now) target.now }
    requires current { IsWellFormed current.now }
    requires target { IsWellFormed target.now }
    requires shift { IsShift (length target.now.rows) shift }
    ensures { IfOk result (λ prepared. prepared ≡ shifting (Some shift) (Some current.now) target.now) }
{
    let _old_width = current.width();
    let _new_width = target.width();
    let opening = shift_bytes(alloc, target.height(), shift)?;
    let screen = shifted(alloc, current, shift)?;
    let plan = Plan::prepare(alloc, Some(&screen), target)?;
    Ok(Shifted {
        opening,
        screen: Some(screen),
        plan,
    })
}

/// Prepares an update without a shift.
fn without_shift(
    alloc: Global,
    current: Option<&Screen>,
    target: &Screen,
) -> Result<Shifted, Memory>
    requires size { HaveOneSize (shown current) target.now }
    requires current { IfSome (shown current) (λ screen. IsWellFormed screen) }
    requires target { IsWellFormed target.now }
    ensures { IfOk result (λ prepared. prepared ≡ shifting None (shown current.entry) target.now) }
{
    Ok(Shifted {
        opening: ListOf::new(alloc),
        screen: None,
        plan: Plan::prepare(alloc, current, target)?,
    })
}

impl Shifted {
    /// How many rows differ after the shift.
    pub fn rows(&self) -> u32
        ensures { (current : Option Picture) (target : Picture) (bands : List Band) → self.now ≡ shifted_planned current target bands
            → result ≡ (shifted_update current target bands None).rows }
    {
        self.plan.rows()
    }

    /// Sends the bytes of the shift, whatever the limit is, and then, as `Plan::send` does, the update from there: of the rows that
    /// differ after the shift at most so many. A fault is as there.
    pub fn send<K: Sink>(&self, sink: &mut K, rows_at_most: Option<u32>) -> Result<Sent, WriteFault>
        ensures sends { (current : Option Picture) (target : Picture) (bands : List Band) → self.now ≡ shifted_planned current target bands
            → Sends (K.written sink.old) (K.written sink.new) (shifted_update current target bands rows_at_most) result }
        ensures never_falls { K.faults sink.old ≤ K.faults sink.new }
        ensures kept { OnOk result (K.faults sink.new ≡ K.faults sink.old) }
        ensures failed { OnErr result (Rose (K.faults sink.old) (K.faults sink.new)) }
    {
        let Ok(()) = write_whole(sink, self.opening.as_slice()) else {
            return Err(WriteFault);
        };
        self.plan.send(sink, rows_at_most)
    }

    /// The new current screen, of the screens that were prepared and of what `send` answered: the target's cells in the
    /// rows that were sent, the cells after the shift elsewhere, and the target's cursor where the update is done, else
    /// the old one. It takes no memory.
    pub fn after(self, current: Option<Screen>, target: Screen, sent: Sent) -> Screen
        requires prepared { (bands : List Band) × (AreWithin (length target.rows) bands × (self ≡ shifted_planned current target bands)
            × ((limit : Option ℕ) × (sent ≡ sent_of (shifted_update current target bands limit)))) }
        requires size { HaveOneSize current target }
        ensures { (bands : List Band) (limit : Option ℕ) → self ≡ shifted_planned current target bands
            → sent ≡ sent_of (shifted_update current target bands limit) → result ≡ (shifted_update current target bands limit).screen }
    {
        let Shifted { screen, plan, .. } = self;
        match (screen, current) {
            (Some(screen), Some(old)) => {
                let _width = old.width();
                plan.after(Some(screen), target, sent)
            }
            (_, current) => plan.after(current, target, sent),
        }
    }
}
