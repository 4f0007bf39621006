//! The ops on properties and overlays.
ghost use Rattle.rd_embed.specs.Asked.{asked_overlay, asked_overlay_drop, asked_overlay_move, asked_overlay_put, asked_put};
ghost use Rattle.rd_embed.specs.Calls.{Asks};
ghost use Rattle.redisplay_c.specs.Calls.{Calls};

use crate::handle::Slot;
use rd_embed::Status;
use std::alloc::Global;

/// Gives the text of a range a value of a kind of property, or takes it away.
#[unsafe(no_mangle)]
pub extern "C" fn redisplay_put(
    alloc: Global,
    session: &mut Slot,
    buffer: u32,
    from: u32,
    to: u32,
    kind: u32,
    value: u32,
) -> u32
    ensures { Calls (λ status old. Asks status (asked_put old.session.state.buffers buffer from to kind value) old) result session.old.handle.value session.new.handle.value }
{
    let Some(mut held) = session.take(alloc) else {
        return Status::NotOpen.code();
    };
    let status = held.put(alloc, buffer, from, to, kind, value);
    session.put(held);
    status.code()
}

/// Makes an overlay.
#[unsafe(no_mangle)]
pub extern "C" fn redisplay_overlay(
    alloc: Global,
    session: &mut Slot,
    buffer: u32,
    from: u32,
    to: u32,
    priority: i32,
    front: bool,
    rear: bool,
) -> u32
    ensures { Calls (λ status old. Asks status (asked_overlay old.session.state.buffers buffer from to priority front rear) old) result session.old.handle.value session.new.handle.value }
{
    let Some(mut held) = session.take(alloc) else {
        return Status::NotOpen.code();
    };
    let status = held.overlay(alloc, buffer, from, to, priority, front, rear);
    session.put(held);
    status.code()
}

/// Gives an overlay another range.
#[unsafe(no_mangle)]
pub extern "C" fn redisplay_overlay_move(
    alloc: Global,
    session: &mut Slot,
    buffer: u32,
    overlay: u32,
    from: u32,
    to: u32,
) -> u32
    ensures { Calls (λ status old. Asks status (asked_overlay_move old.session.state.buffers buffer overlay from to) old) result session.old.handle.value session.new.handle.value }
{
    let Some(mut held) = session.take(alloc) else {
        return Status::NotOpen.code();
    };
    let status = held.overlay_move(alloc, buffer, overlay, from, to);
    session.put(held);
    status.code()
}

/// Gives an overlay a value of a kind of property, or takes it away.
#[unsafe(no_mangle)]
pub extern "C" fn redisplay_overlay_put(
    alloc: Global,
    session: &mut Slot,
    buffer: u32,
    overlay: u32,
    kind: u32,
    value: u32,
) -> u32
    ensures { Calls (λ status old. Asks status (asked_overlay_put old.session.state.buffers buffer overlay kind value) old) result session.old.handle.value session.new.handle.value }
{
    let Some(mut held) = session.take(alloc) else {
        return Status::NotOpen.code();
    };
    let status = held.overlay_put(alloc, buffer, overlay, kind, value);
    session.put(held);
    status.code()
}

/// Takes an overlay away.
#[unsafe(no_mangle)]
pub extern "C" fn redisplay_overlay_drop(
    alloc: Global,
    session: &mut Slot,
    buffer: u32,
    overlay: u32,
) -> u32
    ensures { Calls (λ status old. Asks status (asked_overlay_drop old.session.state.buffers buffer overlay) old) result session.old.handle.value session.new.handle.value }
{
    let Some(mut held) = session.take(alloc) else {
        return Status::NotOpen.code();
    };
    let status = held.overlay_drop(alloc, buffer, overlay);
    session.put(held);
    status.code()
}
