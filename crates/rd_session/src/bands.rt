//! The bands of rows that the terminal may shift.
ghost use Rattle.std.specs.Prelude.{◌≡◌, ◌≤◌, ◌++◌, OnOk, IfOk};
ghost use Rattle.std.specs.List.{flat_map};
ghost use Rattle.rd_layout.specs.Redisplays.{band_of, bands_of};
ghost use Rattle.rd_tree.specs.Calls.{frame_of};
ghost use Rattle.rd_tree.specs.Windows.{placed, rows_for};

use rd_base::{ListOf, Memory};
use rd_frame::body_height;
use rd_lineshift::Band;
use rd_state::State;
use rd_tree::{Placed, Tree};
use std::alloc::Global;

/// The text rows of each window that is as wide as the frame, in leaf order; none where the terminal may not shift rows.
pub(crate) fn bands_of(alloc: Global, state: &State) -> Result<ListOf<Band>, Memory>
    ensures { IfOk result (λ bands. bands ≡ bands_of state.now) }
{
    let mut bands = ListOf::new(alloc);
    if state.shifting() {
        let (width, _height) = state.frame();
        push_bands(&mut bands, state.tree(), width)?;
    }
    Ok(bands)
}

/// Adds the bands of all windows of a tree, on a frame of so many columns.
fn push_bands(bands: &mut ListOf<Band>, tree: &Tree, width: u32) -> Result<(), Memory>
    ensures { OnOk result (bands.new ≡ bands.old ++ flat_map (band_of width) (placed tree.now.windows (frame_of tree.now))) }
{
    let mut i = 0u32;
    while let Some(place) = tree.placed_leaf(i) {
        push_band(bands, width, place)?;
        i += 1;
    }
    Ok(())
}

/// Adds the band of a window, where it is as wide as the frame.
fn push_band(bands: &mut ListOf<Band>, width: u32, place: Placed) -> Result<(), Memory>
    requires { rows_for place.mode ≤ place.rect.height }
    ensures { OnOk result (bands.new ≡ bands.old ++ band_of width place) }
{
    if place.rect.width != width {
        return Ok(());
    }
    bands.push(Band {
        top: place.rect.y,
        height: body_height(place),
    })
}
