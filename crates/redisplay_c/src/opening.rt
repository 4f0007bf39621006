//! Opening and closing.
ghost use Rattle.std.specs.Prelude.{◌≡◌, ◌≢◌, None, Some, Ok, Err, IfErr, IfOk, IsSome};
ghost use Rattle.rd_embed.specs.Openings.{Opens};
ghost use Rattle.rd_embed.specs.Statuses.{code_of};
ghost use Rattle.rd_embed.specs.declared.opening.OpenFault.TheVariants.{Bad};
ghost use Rattle.rd_embed.specs.declared.status.Status.TheVariants as statuses;
ghost use Rattle.rd_files.specs.DataFiles.{data_of};
ghost use Rattle.redisplay_c.specs.Openings.{Holds, IsOpening};

use crate::handle::Slot;
use rd_embed::{BadData, Embedded, OpenFault, Status};
use std::alloc::Global;

/// Opens a session over the bytes of the three data files.
#[unsafe(no_mangle)]
pub extern "C" fn redisplay_open(
    alloc: Global,
    session: &mut Slot,
    classes: &[u8],
    mirrors: &[u8],
    brackets: &[u8],
    bad: &mut BadData,
) -> u32
    ensures opened { result ≡ code_of statuses.Done → Holds (λ held. Opens (Ok held) (data_of classes.now mirrors.now brackets.now)) session.new.handle.value }
    ensures bad { result ≡ code_of statuses.BadData → Opens (Err (Bad bad.new)) (data_of classes.now mirrors.now brackets.now) }
    ensures is_open { IsSome session.old.handle.value → result ≡ code_of statuses.IsOpen }
    ensures answers { session.old.handle.value ≡ None → IsOpening result }
    ensures refused { result ≢ code_of statuses.Done → session.new.handle.value ≡ session.old.handle.value }
    ensures untold { result ≢ code_of statuses.BadData → bad.new ≡ bad.old }
{
    if session.is_open() {
        return Status::IsOpen.code();
    }
    match boxed(alloc, classes, mirrors, brackets) {
        Ok(held) => {
            session.put(held);
            Status::Done.code()
        }
        Err(fault) => tell(fault, bad),
    }
}

/// A session in a box, over the bytes of the three data files.
fn boxed(
    alloc: Global,
    classes: &[u8],
    mirrors: &[u8],
    brackets: &[u8],
) -> Result<Box<Embedded>, OpenFault>
    ensures opened { IfOk result (λ held. Opens (Ok held.value) (data_of classes.now mirrors.now brackets.now)) }
    ensures faulty { IfErr result (λ fault. Opens (Err fault) (data_of classes.now mirrors.now brackets.now)) }
{
    let opened = Embedded::open(alloc, classes, mirrors, brackets)?;
    match Box::new(alloc, opened) {
        Ok(held) => Ok(held),
        Err(_) => Err(OpenFault::Memory),
    }
}

/// Tells why no session was opened.
fn tell(fault: OpenFault, bad: &mut BadData) -> u32
    ensures bad { result ≡ code_of statuses.BadData → fault ≡ Bad bad.new }
    ensures untold { result ≢ code_of statuses.BadData → bad.new ≡ bad.old }
    ensures answers { IsOpening result }
    ensures refused { result ≢ code_of statuses.Done }
{
    match fault {
        OpenFault::Bad(line) => {
            *bad = line;
            Status::BadData.code()
        }
        OpenFault::Memory => Status::NoMemory.code(),
    }
}

/// Closes a session, which gives back all its memory.
#[unsafe(no_mangle)]
pub extern "C" fn redisplay_close(alloc: Global, session: &mut Slot)
    ensures { session.new.handle.value ≡ None }
{
    let _held = session.take(alloc);
}
