//! One overlay, and how it moves with the text.
ghost use Rattle.std.specs.Prelude.{◌≡◌, ◌≤◌, ◌<◌, OnSome, length};
ghost use Rattle.rd_overlays.specs.Overlays.{Fits, after_insertion, after_deletion, grown, shrunk, meets, overlay_at};

use rd_base::Pos;

/// What an overlay may carry a value of.
#[derive(Clone, Copy, Debug, PartialEq, Eq)]
pub enum Kind {
    Face,
    Display,
    Invisible,
    LinePrefix,
    WrapPrefix,
    Before,
    After,
}

/// A range of a text from `from` to `to - 1`, by positions that count from 1. Text inserted at its start moves the start where
/// `front` is set, and text inserted at its end moves the end where `rear` is set. The values are by kind, in the order of
/// `Kind`.
#[derive(Clone, Copy, Debug, PartialEq, Eq)]
pub struct Overlay {
    pub from: Pos,
    pub to: Pos,
    pub priority: i32,
    pub front: bool,
    pub rear: bool,
    pub values: [Option<u32>; 7],
}

/// An overlay that lives, with its number: what a search found, for the calls that change it.
#[derive(Clone, Copy, Debug, PartialEq, Eq)]
pub struct Living {
    pub number: u32,
    pub overlay: Overlay,
}

/// How an overlay can stand to a position.
#[derive(Clone, Copy, Debug, PartialEq, Eq)]
pub(crate) enum Meeting {
    Covers,
    Starts,
    Ends,
}

/// Whether an overlay meets a position as `meeting` says.
pub(crate) fn meets(meeting: Meeting, pos: Pos, overlay: Overlay) -> bool
    ensures { result ≡ meets meeting pos overlay }
{
    match meeting {
        Meeting::Covers => overlay.from <= pos && pos < overlay.to,
        Meeting::Starts => overlay.from == pos,
        Meeting::Ends => overlay.to == pos,
    }
}

/// Where a start or an end stands after `n` characters were inserted at `pos`.
fn after_insertion(pos: Pos, n: u32, moves: bool, place: Pos) -> Pos
    requires { Fits pos n place }
    ensures { result ≡ after_insertion pos n moves place }
{
    if pos < place || (place == pos && moves) {
        place + n
    } else {
        place
    }
}

/// The overlay after `n` characters were inserted at `pos`.
pub(crate) fn grown(pos: Pos, n: u32, overlay: Overlay) -> Overlay
    requires from { Fits pos n overlay.from }
    requires to { Fits pos n overlay.to }
    ensures { result ≡ grown pos n overlay }
{
    let from = after_insertion(pos, n, overlay.front, overlay.from);
    let to = after_insertion(pos, n, overlay.rear, overlay.to);
    Overlay {
        from: from.min(to),
        to,
        ..overlay
    }
}

/// Where a position of a text, or an overlay's start or end, stands after the text from `from` to `to - 1` was deleted.
pub fn after_deletion(from: Pos, to: Pos, place: Pos) -> Pos
    requires { from ≤ to }
    ensures { result ≡ after_deletion from to place }
{
    if place < from {
        place
    } else if place < to {
        from
    } else {
        place - (to - from)
    }
}

/// The overlay after the text from `from` to `to - 1` was deleted.
pub(crate) fn shrunk(from: Pos, to: Pos, overlay: Overlay) -> Overlay
    requires { from ≤ to }
    ensures { result ≡ shrunk from to overlay }
{
    Overlay {
        from: after_deletion(from, to, overlay.from),
        to: after_deletion(from, to, overlay.to),
        ..overlay
    }
}

/// The overlay of a number where it lives.
pub(crate) fn overlay_at(slots: &[Option<Overlay>], number: u32) -> Option<Overlay>
    ensures value { result ≡ overlay_at slots.now number }
    ensures bound { OnSome result (number < length slots.now) }
{
    *slots.get(number as usize)?
}
