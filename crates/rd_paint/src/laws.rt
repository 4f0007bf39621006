//! What the proofs here take from the laws of the layers below, gathered once.
ghost use Rattle.rd_paint.specs.Laws.{PaintLaws};

use rd_frame::windows_are_painted_one_by_one;
use rd_items::blocks_are_listed;
use rd_layout::{redisplays_keep_states, targets_fit_their_frames};

/// Of the window that is painted next. The call does nothing.
pub(crate) fn paint_laws()
    ensures { PaintLaws }
{
    blocks_are_listed();
    redisplays_keep_states();
    targets_fit_their_frames();
    windows_are_painted_one_by_one();
}
