//! The terminal's bytes, and how the last call ended.
ghost use Rattle.std.specs.Prelude.{◌≡◌, None, length};
ghost use Rattle.rd_embed.specs.Calls.{Fetches};
ghost use Rattle.rd_embed.specs.Endings.{status_of, words_of};
ghost use Rattle.rd_embed.specs.Fills.{Fills};
ghost use Rattle.rd_embed.specs.Statuses.{code_of};
ghost use Rattle.rd_embed.specs.declared.status.Status.TheVariants.{NotThere};
ghost use Rattle.redisplay_c.specs.Calls.{Counts};

use crate::handle::Slot;
use rd_embed::Status;
use std::alloc::Global;

/// How many bytes are pending.
#[unsafe(no_mangle)]
pub extern "C" fn redisplay_pending(alloc: Global, session: &mut Slot) -> usize
    ensures { Counts (λ old new. (new ≡ old) × (result ≡ length old.pending.bytes)) 0 result session.old.handle.value session.new.handle.value }
{
    let Some(held) = session.take(alloc) else {
        return 0;
    };
    let count = held.pending();
    session.put(held);
    count
}

/// Moves the first pending bytes to the front of a buffer, as many as it has room for, and answers how many.
#[unsafe(no_mangle)]
pub extern "C" fn redisplay_fetch(alloc: Global, session: &mut Slot, out: &mut [u8]) -> usize
    ensures fetches { Counts (Fetches result out.old out.new) 0 result session.old.handle.value session.new.handle.value }
    ensures closed { session.old.handle.value ≡ None → out.new ≡ out.old }
{
    let Some(mut held) = session.take(alloc) else {
        return 0;
    };
    let count = held.fetch(out);
    session.put(held);
    count
}

/// How the last op, line or redisplay ended.
#[unsafe(no_mangle)]
pub extern "C" fn redisplay_fault(alloc: Global, session: &mut Slot) -> u32
    ensures { Counts (λ old new. (new ≡ old) × (result ≡ code_of (status_of old.ending))) (code_of NotThere) result session.old.handle.value session.new.handle.value }
{
    let Some(held) = session.take(alloc) else {
        return Status::NotThere.code();
    };
    let status = held.fault();
    session.put(held);
    status.code()
}

/// The report's words for it, at the front of a buffer as far as there is room, and how many bytes they are there.
#[unsafe(no_mangle)]
pub extern "C" fn redisplay_fault_text(alloc: Global, session: &mut Slot, out: &mut [u8]) -> usize
    ensures fills { Counts (λ old new. (new ≡ old) × Fills result (words_of old.ending) out.old out.new) 0 result session.old.handle.value session.new.handle.value }
    ensures closed { session.old.handle.value ≡ None → out.new ≡ out.old }
{
    let Some(held) = session.take(alloc) else {
        return 0;
    };
    let count = held.fault_text(out);
    session.put(held);
    count
}
