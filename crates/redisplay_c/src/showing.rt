//! Lines of JSON, and the redisplay.
ghost use Rattle.std.specs.Prelude.{◌≡◌, ◌<◌, None, Some};
ghost use Rattle.rd_embed.specs.Calls.{LineDoes, Shows, asked_line};
ghost use Rattle.rd_embed.specs.Statuses.{code_of};
ghost use Rattle.rd_embed.specs.declared.status.Status.TheVariants.{NotOpen};
ghost use Rattle.redisplay_c.specs.Calls.{ShowCalls};

use crate::handle::Slot;
use rd_base::Steps;
use rd_embed::{Embedded, Shown, Status};
use std::alloc::Global;
use std::marker::Brand;
use std::sync::ledger::{Blank, Ledger};

/// How a line or a redisplay ended, by its number, and how many rows a redisplay sent.
#[repr(C)]
#[derive(Clone, Copy)]
pub struct ShownRows {
    pub status: u32,
    pub rows: u32,
}

/// Does what a line says, an op or a redisplay, and nothing at a blank line.
#[unsafe(no_mangle)]
pub extern "C" fn redisplay_line(alloc: Global, session: &mut Slot, line: &[u8]) -> ShownRows
    ensures { ShowCalls (λ shown. LineDoes shown (asked_line line.now)) result session.old.handle.value session.new.handle.value }
{
    let Some(mut held) = session.take(alloc) else {
        return closed();
    };
    let shown = run_line::<Brand>(held.as_mut(), alloc, line, Blank::new(1));
    session.put(held);
    told(shown)
}

/// Redisplays whole.
#[unsafe(no_mangle)]
pub extern "C" fn redisplay_update(alloc: Global, session: &mut Slot) -> ShownRows
    ensures { ShowCalls (λ shown. Shows shown None) result session.old.handle.value session.new.handle.value }
{
    let Some(mut held) = session.take(alloc) else {
        return closed();
    };
    let shown = update::<Brand>(held.as_mut(), None, Blank::new(1));
    session.put(held);
    told(shown)
}

/// Redisplays up to so many rows.
#[unsafe(no_mangle)]
pub extern "C" fn redisplay_update_rows(alloc: Global, session: &mut Slot, rows: u32) -> ShownRows
    ensures { ShowCalls (λ shown. Shows shown (Some rows)) result session.old.handle.value session.new.handle.value }
{
    let Some(mut held) = session.take(alloc) else {
        return closed();
    };
    let shown = update::<Brand>(held.as_mut(), Some(rows), Blank::new(1));
    session.put(held);
    told(shown)
}

/// Does what a line says, on a new ledger.
fn run_line<L: Ledger>(held: &mut Embedded, alloc: Global, line: &[u8], blank: Blank) -> Shown
    requires name { blank.name ≡ L.name }
    requires parts { blank.parts ≡ L.parts }
    requires some { 0 < L.parts }
    ensures { LineDoes result (asked_line line.now) held.old held.new }
{
    held.line(alloc, line, &mut Steps::<L>::new(blank))
}

/// Redisplays, on a new ledger.
fn update<L: Ledger>(held: &mut Embedded, stop: Option<u32>, blank: Blank) -> Shown
    requires name { blank.name ≡ L.name }
    requires parts { blank.parts ≡ L.parts }
    requires some { 0 < L.parts }
    ensures { Shows result stop held.old held.new }
{
    held.update(stop, &mut Steps::<L>::new(blank))
}

/// What is told of how a line or a redisplay ended.
fn told(shown: Shown) -> ShownRows
    ensures { (result.status ≡ code_of shown.status) × (result.rows ≡ shown.rows) }
{
    ShownRows {
        status: shown.status.code(),
        rows: shown.rows,
    }
}

/// What is told of a closed session.
fn closed() -> ShownRows
    ensures { (result.status ≡ code_of NotOpen) × (result.rows ≡ 0) }
{
    ShownRows {
        status: Status::NotOpen.code(),
        rows: 0,
    }
}
