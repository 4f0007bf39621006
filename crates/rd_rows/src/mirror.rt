//! The mirror image of a row.
ghost use Rattle.std.specs.Prelude.{◌≡◌, ◌++◌, ◌∷◌, replicate, OnOk, IfOk};
ghost use Rattle.rd_base.specs.declared.cell.Cell.TheVariants.{Rest};
ghost use Rattle.rd_rows.specs.Mirrors.{mirror_image};

use rd_base::{Cell, ListOf, Memory};
use std::alloc::Global;

/// The blanks and glyphs of a row from the last to the first, where the later columns of a glyph stay behind its first.
pub fn mirror_image(alloc: Global, cells: &[Cell]) -> Result<ListOf<Cell>, Memory>
    ensures { IfOk result (λ image. image ≡ mirror_image cells.now) }
{
    let mut image = ListOf::new(alloc);
    let mut rests = 0u64;
    for place in (0..cells.len()).rev() {
        match cells[place] {
            Cell::Rest => rests += 1,
            cell => {
                add_with_rests(&mut image, cell, rests)?;
                rests = 0;
            }
        }
    }
    Ok(image)
}

/// Adds a cell and so many later columns behind it.
fn add_with_rests(image: &mut ListOf<Cell>, cell: Cell, rests: u64) -> Result<(), Memory>
    ensures { OnOk result (image.new ≡ image.old ++ cell ∷ replicate rests Rest) }
{
    image.push(cell)?;
    image.push_copies(rests, Cell::Rest)
}
