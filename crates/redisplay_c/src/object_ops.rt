//! The ops that make objects.
ghost use Rattle.rd_embed.specs.Asked.{asked_face, asked_string};
ghost use Rattle.rd_embed.specs.Calls.{Asks, Does};
ghost use Rattle.redisplay_c.specs.Calls.{Calls};

use crate::handle::Slot;
use rd_embed::{FaceLook, Status};
use std::alloc::Global;

/// Makes a face.
#[unsafe(no_mangle)]
pub extern "C" fn redisplay_add_face(alloc: Global, session: &mut Slot, face: &FaceLook) -> u32
    ensures { Calls (λ status. Does status (asked_face face.now)) result session.old.handle.value session.new.handle.value }
{
    let Some(mut held) = session.take(alloc) else {
        return Status::NotOpen.code();
    };
    let status = held.add_face(face);
    session.put(held);
    status.code()
}

/// Makes a string without runs.
#[unsafe(no_mangle)]
pub extern "C" fn redisplay_add_string(alloc: Global, session: &mut Slot, text: &[u8]) -> u32
    ensures { Calls (λ status. Asks status (asked_string text.now)) result session.old.handle.value session.new.handle.value }
{
    let Some(mut held) = session.take(alloc) else {
        return Status::NotOpen.code();
    };
    let status = held.add_string(alloc, text);
    session.put(held);
    status.code()
}
