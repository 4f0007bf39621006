//! The ops on buffers and their texts.
ghost use Rattle.rd_embed.specs.Asked.{asked_buffer, asked_delete, asked_insert, asked_narrow, asked_setting, asked_type, asked_widen};
ghost use Rattle.rd_embed.specs.Calls.{Asks};
ghost use Rattle.redisplay_c.specs.Calls.{Calls};

use crate::handle::Slot;
use rd_embed::Status;
use std::alloc::Global;

/// Makes an empty buffer of a name.
#[unsafe(no_mangle)]
pub extern "C" fn redisplay_buffer(alloc: Global, session: &mut Slot, name: &[u8]) -> u32
    ensures { Calls (λ status. Asks status (asked_buffer name.now)) result session.old.handle.value session.new.handle.value }
{
    let Some(mut held) = session.take(alloc) else {
        return Status::NotOpen.code();
    };
    let status = held.buffer(alloc, name);
    session.put(held);
    status.code()
}

/// Puts a text in before a position.
#[unsafe(no_mangle)]
pub extern "C" fn redisplay_insert(
    alloc: Global,
    session: &mut Slot,
    buffer: u32,
    position: u32,
    text: &[u8],
) -> u32
    ensures { Calls (λ status old. Asks status (asked_insert old.session.state.buffers buffer position text.now) old) result session.old.handle.value session.new.handle.value }
{
    let Some(mut held) = session.take(alloc) else {
        return Status::NotOpen.code();
    };
    let status = held.insert(alloc, buffer, position, text);
    session.put(held);
    status.code()
}

/// Puts a text in at the selected window's point, which moves behind it.
#[unsafe(no_mangle)]
pub extern "C" fn redisplay_type(alloc: Global, session: &mut Slot, text: &[u8]) -> u32
    ensures { Calls (λ status. Asks status (asked_type text.now)) result session.old.handle.value session.new.handle.value }
{
    let Some(mut held) = session.take(alloc) else {
        return Status::NotOpen.code();
    };
    let status = held.type_text(alloc, text);
    session.put(held);
    status.code()
}

/// Takes a range away.
#[unsafe(no_mangle)]
pub extern "C" fn redisplay_delete(
    alloc: Global,
    session: &mut Slot,
    buffer: u32,
    from: u32,
    to: u32,
) -> u32
    ensures { Calls (λ status old. Asks status (asked_delete old.session.state.buffers buffer from to) old) result session.old.handle.value session.new.handle.value }
{
    let Some(mut held) = session.take(alloc) else {
        return Status::NotOpen.code();
    };
    let status = held.delete(alloc, buffer, from, to);
    session.put(held);
    status.code()
}

/// Makes a range the accessible part.
#[unsafe(no_mangle)]
pub extern "C" fn redisplay_narrow(
    alloc: Global,
    session: &mut Slot,
    buffer: u32,
    from: u32,
    to: u32,
) -> u32
    ensures { Calls (λ status old. Asks status (asked_narrow old.session.state.buffers buffer from to) old) result session.old.handle.value session.new.handle.value }
{
    let Some(mut held) = session.take(alloc) else {
        return Status::NotOpen.code();
    };
    let status = held.narrow(alloc, buffer, from, to);
    session.put(held);
    status.code()
}

/// Makes the whole text accessible.
#[unsafe(no_mangle)]
pub extern "C" fn redisplay_widen(alloc: Global, session: &mut Slot, buffer: u32) -> u32
    ensures { Calls (λ status old. Asks status (asked_widen old.session.state.buffers buffer) old) result session.old.handle.value session.new.handle.value }
{
    let Some(mut held) = session.take(alloc) else {
        return Status::NotOpen.code();
    };
    let status = held.widen(alloc, buffer);
    session.put(held);
    status.code()
}

/// Sets a setting of a buffer.
#[unsafe(no_mangle)]
pub extern "C" fn redisplay_setting(
    alloc: Global,
    session: &mut Slot,
    buffer: u32,
    setting: u32,
    value: u32,
) -> u32
    ensures { Calls (λ status old. Asks status (asked_setting old.session.state.buffers buffer setting value) old) result session.old.handle.value session.new.handle.value }
{
    let Some(mut held) = session.take(alloc) else {
        return Status::NotOpen.code();
    };
    let status = held.setting(alloc, buffer, setting, value);
    session.put(held);
    status.code()
}
