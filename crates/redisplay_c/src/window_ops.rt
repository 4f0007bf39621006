//! The ops on the frame and its windows.
ghost use Rattle.rd_embed.specs.Asked.{asked_echo, asked_frame, asked_go, asked_hit, asked_hscroll, asked_margin, asked_mode_line, asked_no_mode_line, asked_point, asked_remove, asked_scroll, asked_scrolling, asked_select, asked_shift, asked_show, asked_split, asked_start, asked_wrap};
ghost use Rattle.rd_embed.specs.Calls.{Asks, Does};
ghost use Rattle.redisplay_c.specs.Calls.{Calls};

use crate::handle::Slot;
use rd_embed::Status;
use std::alloc::Global;

/// Resizes the frame.
#[unsafe(no_mangle)]
pub extern "C" fn redisplay_frame(alloc: Global, session: &mut Slot, width: u32, height: u32) -> u32
    ensures { Calls (λ status. Does status (asked_frame width height)) result session.old.handle.value session.new.handle.value }
{
    let Some(mut held) = session.take(alloc) else {
        return Status::NotOpen.code();
    };
    let status = held.frame(width, height);
    session.put(held);
    status.code()
}

/// Splits a window, which keeps its first rows or columns.
#[unsafe(no_mangle)]
pub extern "C" fn redisplay_split(
    alloc: Global,
    session: &mut Slot,
    window: u32,
    side: u32,
    size: u32,
) -> u32
    ensures { Calls (λ status. Does status (asked_split window side size)) result session.old.handle.value session.new.handle.value }
{
    let Some(mut held) = session.take(alloc) else {
        return Status::NotOpen.code();
    };
    let status = held.split(window, side, size);
    session.put(held);
    status.code()
}

/// Takes a window away.
#[unsafe(no_mangle)]
pub extern "C" fn redisplay_remove(alloc: Global, session: &mut Slot, window: u32) -> u32
    ensures { Calls (λ status. Does status (asked_remove window)) result session.old.handle.value session.new.handle.value }
{
    let Some(mut held) = session.take(alloc) else {
        return Status::NotOpen.code();
    };
    let status = held.remove(window);
    session.put(held);
    status.code()
}

/// Selects a window.
#[unsafe(no_mangle)]
pub extern "C" fn redisplay_select(alloc: Global, session: &mut Slot, window: u32) -> u32
    ensures { Calls (λ status. Does status (asked_select window)) result session.old.handle.value session.new.handle.value }
{
    let Some(mut held) = session.take(alloc) else {
        return Status::NotOpen.code();
    };
    let status = held.select(window);
    session.put(held);
    status.code()
}

/// Shows a buffer in a window.
#[unsafe(no_mangle)]
pub extern "C" fn redisplay_show(alloc: Global, session: &mut Slot, window: u32, buffer: u32) -> u32
    ensures { Calls (λ status old. Asks status (asked_show old.session.state.buffers window buffer) old) result session.old.handle.value session.new.handle.value }
{
    let Some(mut held) = session.take(alloc) else {
        return Status::NotOpen.code();
    };
    let status = held.show(alloc, window, buffer);
    session.put(held);
    status.code()
}

/// Moves a window's point.
#[unsafe(no_mangle)]
pub extern "C" fn redisplay_point(
    alloc: Global,
    session: &mut Slot,
    window: u32,
    position: u32,
) -> u32
    ensures { Calls (λ status. Does status (asked_point window position)) result session.old.handle.value session.new.handle.value }
{
    let Some(mut held) = session.take(alloc) else {
        return Status::NotOpen.code();
    };
    let status = held.point(window, position);
    session.put(held);
    status.code()
}

/// Forces a window's start.
#[unsafe(no_mangle)]
pub extern "C" fn redisplay_start(
    alloc: Global,
    session: &mut Slot,
    window: u32,
    position: u32,
    row: u32,
) -> u32
    ensures { Calls (λ status. Does status (asked_start window position row)) result session.old.handle.value session.new.handle.value }
{
    let Some(mut held) = session.take(alloc) else {
        return Status::NotOpen.code();
    };
    let status = held.start(window, position, row);
    session.put(held);
    status.code()
}

/// Scrolls a window by so many rows: down its text, or up where the number is below 0.
#[unsafe(no_mangle)]
pub extern "C" fn redisplay_scroll(alloc: Global, session: &mut Slot, window: u32, rows: i32) -> u32
    ensures { Calls (λ status. Does status (asked_scroll window rows)) result session.old.handle.value session.new.handle.value }
{
    let Some(mut held) = session.take(alloc) else {
        return Status::NotOpen.code();
    };
    let status = held.scroll(window, rows);
    session.put(held);
    status.code()
}

/// Scrolls a window sideways.
#[unsafe(no_mangle)]
pub extern "C" fn redisplay_hscroll(
    alloc: Global,
    session: &mut Slot,
    window: u32,
    columns: u32,
) -> u32
    ensures { Calls (λ status. Does status (asked_hscroll window columns)) result session.old.handle.value session.new.handle.value }
{
    let Some(mut held) = session.take(alloc) else {
        return Status::NotOpen.code();
    };
    let status = held.hscroll(window, columns);
    session.put(held);
    status.code()
}

/// Says what becomes of a window's long lines.
#[unsafe(no_mangle)]
pub extern "C" fn redisplay_wrap(alloc: Global, session: &mut Slot, window: u32, mode: u32) -> u32
    ensures { Calls (λ status. Does status (asked_wrap window mode)) result session.old.handle.value session.new.handle.value }
{
    let Some(mut held) = session.take(alloc) else {
        return Status::NotOpen.code();
    };
    let status = held.wrap(window, mode);
    session.put(held);
    status.code()
}

/// Gives a window a mode line.
#[unsafe(no_mangle)]
pub extern "C" fn redisplay_mode_line(
    alloc: Global,
    session: &mut Slot,
    window: u32,
    format: &[u8],
) -> u32
    ensures { Calls (λ status. Asks status (asked_mode_line window format.now)) result session.old.handle.value session.new.handle.value }
{
    let Some(mut held) = session.take(alloc) else {
        return Status::NotOpen.code();
    };
    let status = held.mode_line(alloc, window, format);
    session.put(held);
    status.code()
}

/// Takes a window's mode line away.
#[unsafe(no_mangle)]
pub extern "C" fn redisplay_no_mode_line(alloc: Global, session: &mut Slot, window: u32) -> u32
    ensures { Calls (λ status. Does status (asked_no_mode_line window)) result session.old.handle.value session.new.handle.value }
{
    let Some(mut held) = session.take(alloc) else {
        return Status::NotOpen.code();
    };
    let status = held.no_mode_line(window);
    session.put(held);
    status.code()
}

/// Gives a window margins of so many columns: for line numbers, and for margin strings.
#[unsafe(no_mangle)]
pub extern "C" fn redisplay_margin(
    alloc: Global,
    session: &mut Slot,
    window: u32,
    numbers: u32,
    strings: u32,
) -> u32
    ensures { Calls (λ status. Does status (asked_margin window numbers strings)) result session.old.handle.value session.new.handle.value }
{
    let Some(mut held) = session.take(alloc) else {
        return Status::NotOpen.code();
    };
    let status = held.margin(window, numbers, strings);
    session.put(held);
    status.code()
}

/// Sets the scroll margin, and up to how many rows a view is scrolled to show point.
#[unsafe(no_mangle)]
pub extern "C" fn redisplay_scrolling(
    alloc: Global,
    session: &mut Slot,
    margin: u32,
    conservatively: u32,
) -> u32
    ensures { Calls (λ status. Does status (asked_scrolling margin conservatively)) result session.old.handle.value session.new.handle.value }
{
    let Some(mut held) = session.take(alloc) else {
        return Status::NotOpen.code();
    };
    let status = held.scrolling(margin, conservatively);
    session.put(held);
    status.code()
}

/// Shows a text in the echo area.
#[unsafe(no_mangle)]
pub extern "C" fn redisplay_echo(alloc: Global, session: &mut Slot, text: &[u8]) -> u32
    ensures { Calls (λ status. Asks status (asked_echo text.now)) result session.old.handle.value session.new.handle.value }
{
    let Some(mut held) = session.take(alloc) else {
        return Status::NotOpen.code();
    };
    let status = held.echo(alloc, text);
    session.put(held);
    status.code()
}

/// Says whether the terminal may shift rows.
#[unsafe(no_mangle)]
pub extern "C" fn redisplay_shift(alloc: Global, session: &mut Slot, on: bool) -> u32
    ensures { Calls (λ status. Does status (asked_shift on)) result session.old.handle.value session.new.handle.value }
{
    let Some(mut held) = session.take(alloc) else {
        return Status::NotOpen.code();
    };
    let status = held.shift(on);
    session.put(held);
    status.code()
}

/// Moves a window's point to the item beside it, as it is seen.
#[unsafe(no_mangle)]
pub extern "C" fn redisplay_go(alloc: Global, session: &mut Slot, window: u32, side: u32) -> u32
    ensures { Calls (λ status. Does status (asked_go window side)) result session.old.handle.value session.new.handle.value }
{
    let Some(mut held) = session.take(alloc) else {
        return Status::NotOpen.code();
    };
    let status = held.go(window, side);
    session.put(held);
    status.code()
}

/// Moves a window's point to what is shown in a row and a column of its text.
#[unsafe(no_mangle)]
pub extern "C" fn redisplay_hit(
    alloc: Global,
    session: &mut Slot,
    window: u32,
    row: u32,
    column: u32,
) -> u32
    ensures { Calls (λ status. Does status (asked_hit window row column)) result session.old.handle.value session.new.handle.value }
{
    let Some(mut held) = session.take(alloc) else {
        return Status::NotOpen.code();
    };
    let status = held.hit(window, row, column);
    session.put(held);
    status.code()
}
