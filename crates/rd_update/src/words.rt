//! The words of rows' cells, by which it is found where rows differ.
ghost use Rattle.std.specs.Prelude.{◌≡◌, OnOk};
ghost use Rattle.rd_update.specs.Words.{row_words, AreTold};

use rd_base::{Cell, ListOf, Memory};
use std::alloc::Global;

/// The words of two rows that differ. They are read for one pair of rows after the other, so that memory is taken once.
#[derive(Drop)]
pub(crate) struct PairWords {
    pub(crate) old: ListOf<u64>,
    pub(crate) new: ListOf<u64>,
}

impl PairWords {
    /// No words, which take no memory.
    pub(crate) fn none(alloc: Global) -> PairWords {
        PairWords {
            old: ListOf::new(alloc),
            new: ListOf::new(alloc),
        }
    }
}

/// Makes words those of a row's cells, whose colours are in their range, as those of each `Face` are.
pub(crate) fn read(words: &mut ListOf<u64>, cells: &[Cell]) -> Result<(), Memory>
    ensures words { OnOk result (words.new ≡ row_words cells.now) }
    ensures told { OnOk result (AreTold cells.now) }
{
    words.clear();
    for cell in cells {
        words.extend_from_slice(&cell.words())?;
    }
    Ok(())
}
