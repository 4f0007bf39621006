//! What is read of the frame, the windows and the buffers.
ghost use Rattle.std.specs.Prelude.{◌≡◌, None, Some, length, option_map};
ghost use Rattle.rd_embed.specs.Asked.{name_of};
ghost use Rattle.rd_embed.specs.Fills.{GivesWhole};
ghost use Rattle.rd_embed.specs.Texts.{GivesText, name_texts, range_in, text_of};
ghost use Rattle.rd_embed.specs.Windows.{cursor_of, frame_of, window_at};
ghost use Rattle.rd_layout.specs.Facts.{facts_of};
ghost use Rattle.redisplay_c.specs.Calls.{Looks};

use crate::giving::give;
use crate::handle::Slot;
use rd_embed::{Place, Status, TextGiven, WindowTold};
use std::alloc::Global;

/// The frame's rows and columns.
#[unsafe(no_mangle)]
pub extern "C" fn redisplay_get_frame(alloc: Global, session: &mut Slot, size: &mut Place) -> u32
    ensures { Looks (λ given held. given ≡ Some (frame_of held.session)) result size.old size.new session.old.handle.value session.new.handle.value }
{
    let Some(held) = session.take(alloc) else {
        return Status::NotOpen.code();
    };
    let status = give(Some(held.frame_size()), size);
    session.put(held);
    status.code()
}

/// The place of the terminal's cursor, where the screen is known.
#[unsafe(no_mangle)]
pub extern "C" fn redisplay_get_cursor(alloc: Global, session: &mut Slot, place: &mut Place) -> u32
    ensures { Looks (λ given held. given ≡ cursor_of held.session) result place.old place.new session.old.handle.value session.new.handle.value }
{
    let Some(held) = session.take(alloc) else {
        return Status::NotOpen.code();
    };
    let status = give(held.cursor(), place);
    session.put(held);
    status.code()
}

/// How many windows there are.
#[unsafe(no_mangle)]
pub extern "C" fn redisplay_get_windows(alloc: Global, session: &mut Slot, count: &mut u32) -> u32
    ensures { Looks (λ given held. given ≡ Some (length (facts_of held.session))) result count.old count.new session.old.handle.value session.new.handle.value }
{
    let Some(held) = session.take(alloc) else {
        return Status::NotOpen.code();
    };
    let status = give(Some(held.windows()), count);
    session.put(held);
    status.code()
}

/// The window at a place in leaf order.
#[unsafe(no_mangle)]
pub extern "C" fn redisplay_get_window(
    alloc: Global,
    session: &mut Slot,
    index: u32,
    window: &mut WindowTold,
) -> u32
    ensures { Looks (λ given held. given ≡ window_at held.session index) result window.old window.new session.old.handle.value session.new.handle.value }
{
    let Some(held) = session.take(alloc) else {
        return Status::NotOpen.code();
    };
    let status = give(held.window(index), window);
    session.put(held);
    status.code()
}

/// The number of the selected window.
#[unsafe(no_mangle)]
pub extern "C" fn redisplay_get_selected(alloc: Global, session: &mut Slot, window: &mut u32) -> u32
    ensures { Looks (λ given held. given ≡ Some held.session.state.selected) result window.old window.new session.old.handle.value session.new.handle.value }
{
    let Some(held) = session.take(alloc) else {
        return Status::NotOpen.code();
    };
    let status = give(Some(held.selected()), window);
    session.put(held);
    status.code()
}

/// How many buffers there are.
#[unsafe(no_mangle)]
pub extern "C" fn redisplay_get_buffers(alloc: Global, session: &mut Slot, count: &mut u32) -> u32
    ensures { Looks (λ given held. given ≡ Some (length held.session.state.buffers)) result count.old count.new session.old.handle.value session.new.handle.value }
{
    let Some(held) = session.take(alloc) else {
        return Status::NotOpen.code();
    };
    let status = give(Some(held.buffers()), count);
    session.put(held);
    status.code()
}

/// The name of a buffer, as many of its characters as the room takes whole.
#[unsafe(no_mangle)]
pub extern "C" fn redisplay_get_buffer_name(
    alloc: Global,
    session: &mut Slot,
    buffer: u32,
    out: &mut [u8],
    length: &mut usize,
) -> u32
    ensures looks { Looks (λ given held. GivesWhole given (option_map name_texts (name_of buffer held.session.state.buffers)) out.old out.new) result length.old length.new session.old.handle.value session.new.handle.value }
    ensures closed { session.old.handle.value ≡ None → out.new ≡ out.old }
{
    let Some(held) = session.take(alloc) else {
        return Status::NotOpen.code();
    };
    let status = give(held.buffer_name(buffer, out), length);
    session.put(held);
    status.code()
}

/// How many characters a buffer has.
#[unsafe(no_mangle)]
pub extern "C" fn redisplay_get_length(
    alloc: Global,
    session: &mut Slot,
    buffer: u32,
    count: &mut u32,
) -> u32
    ensures { Looks (λ given held. given ≡ option_map (λ text. length text.text) (text_of buffer held.session.state.buffers)) result count.old count.new session.old.handle.value session.new.handle.value }
{
    let Some(held) = session.take(alloc) else {
        return Status::NotOpen.code();
    };
    let status = give(held.length(buffer), count);
    session.put(held);
    status.code()
}

/// The characters of a range of a buffer, as many as the room takes whole.
#[unsafe(no_mangle)]
pub extern "C" fn redisplay_get_text(
    alloc: Global,
    session: &mut Slot,
    buffer: u32,
    from: u32,
    to: u32,
    out: &mut [u8],
    given: &mut TextGiven,
) -> u32
    ensures looks { Looks (λ found held. GivesText found (range_in buffer from to held.session.state.buffers) from out.old out.new) result given.old given.new session.old.handle.value session.new.handle.value }
    ensures closed { session.old.handle.value ≡ None → out.new ≡ out.old }
{
    let Some(held) = session.take(alloc) else {
        return Status::NotOpen.code();
    };
    let status = give(held.text(buffer, from, to, out), given);
    session.put(held);
    status.code()
}
