//! What is read of the screen.
ghost use Rattle.std.specs.Prelude.{◌≡◌, None, option_map};
ghost use Rattle.rd_embed.specs.Screens.{GivesRow, row_of, row_texts, told_spot};
ghost use Rattle.rd_embed.specs.Fills.{GivesWhole};
ghost use Rattle.rd_layout.specs.Spots.{spot_at};
ghost use Rattle.redisplay_c.specs.Calls.{Looks};

use crate::giving::give;
use crate::handle::Slot;
use rd_embed::{CellTold, SpotTold, Status};
use std::alloc::Global;

/// The first cells of a row of the screen, as many as there is room for.
#[unsafe(no_mangle)]
pub extern "C" fn redisplay_get_row(
    alloc: Global,
    session: &mut Slot,
    row: u32,
    cells: &mut [CellTold],
    count: &mut usize,
) -> u32
    ensures looks { Looks (λ given held. GivesRow given (row_of held.session.current row) cells.old cells.new) result count.old count.new session.old.handle.value session.new.handle.value }
    ensures closed { session.old.handle.value ≡ None → cells.new ≡ cells.old }
{
    let Some(held) = session.take(alloc) else {
        return Status::NotOpen.code();
    };
    let status = give(held.row(row, cells), count);
    session.put(held);
    status.code()
}

/// The characters of a row of the screen with their marks, as many as the room takes whole.
#[unsafe(no_mangle)]
pub extern "C" fn redisplay_get_row_text(
    alloc: Global,
    session: &mut Slot,
    row: u32,
    out: &mut [u8],
    length: &mut usize,
) -> u32
    ensures looks { Looks (λ given held. GivesWhole given (row_texts held.session.current row) out.old out.new) result length.old length.new session.old.handle.value session.new.handle.value }
    ensures closed { session.old.handle.value ≡ None → out.new ≡ out.old }
{
    let Some(held) = session.take(alloc) else {
        return Status::NotOpen.code();
    };
    let status = give(held.row_text(row, out), length);
    session.put(held);
    status.code()
}

/// What stands under a cell of the frame.
#[unsafe(no_mangle)]
pub extern "C" fn redisplay_get_under(
    alloc: Global,
    session: &mut Slot,
    row: u32,
    column: u32,
    spot: &mut SpotTold,
) -> u32
    ensures { Looks (λ given held. given ≡ option_map told_spot (spot_at held.session row column)) result spot.old spot.new session.old.handle.value session.new.handle.value }
{
    let Some(held) = session.take(alloc) else {
        return Status::NotOpen.code();
    };
    let status = give(held.under(row, column), spot);
    session.put(held);
    status.code()
}
