//! The ranges of items, in a list.
ghost use Rattle.std.specs.Prelude.{◌≡◌, ◌<◌, length, slice_get, Some};
ghost use Rattle.rd_visual.specs.Ways.{along, beside, entered};

use crate::way::Way;
use rd_base::{ListOf, Pos};

/// The range of an item: it covers the positions from `from` to `to - 1`.
#[derive(Clone, Copy, Debug, PartialEq, Eq)]
pub struct Range {
    pub from: Pos,
    pub to: Pos,
}

impl Range {
    ghost use Rattle.std.specs.Prelude.{◌≡◌};
    ghost use Rattle.rd_visual.specs.Motion.{holds};

    /// Whether the range has a position.
    fn holds(self, pos: Pos) -> bool
        ensures { result ≡ holds pos self }
    {
        self.from <= pos && pos < self.to
    }
}

/// The least position of the item to which a step leads from the one that covers a position, and None where this is the last on the
/// way.
pub fn beside(ranges: &ListOf<Range>, way: Way, pos: Pos) -> Option<Pos>
    ensures { result ≡ beside way pos ranges.now }
{
    for place in 1..ranges.len() {
        if on_way(ranges, way, place - 1).holds(pos) {
            return Some(on_way(ranges, way, place).from);
        }
    }
    None
}

/// The least position of the item that is the first on the way.
pub fn entered(ranges: &ListOf<Range>, way: Way) -> Option<Pos>
    ensures { result ≡ entered way ranges.now }
{
    if ranges.is_empty() {
        return None;
    }
    Some(on_way(ranges, way, 0).from)
}

/// The range at a place, counted along the way from 0.
fn on_way(ranges: &ListOf<Range>, way: Way, place: usize) -> Range
    requires { place < length ranges.now }
    ensures { slice_get (along way ranges.now) place ≡ Some result }
{
    match way {
        Way::Forward => ranges.at(place),
        Way::Backward => ranges.at(ranges.len() - 1 - place),
    }
}
