//! The two ways from a position to the nearest start or end of an overlay.
ghost use Rattle.std.specs.Prelude.{◌≡◌};
ghost use Rattle.rd_overlays.specs.Overlays.{closer, nearer, is_on, reached};

use rd_base::Pos;

/// Which start or end is looked for: the next behind a position, or the last up to it. The meaning of `next_edge` and of `last_edge`
/// is one, and this is what differs.
#[derive(Clone, Copy, Debug, PartialEq, Eq)]
pub enum Way {
    Next,
    Last,
}

/// The place of two that is met first on the way.
pub(crate) fn closer(way: Way, x: Pos, y: Pos) -> Pos
    ensures { result ≡ closer way x y }
{
    match way {
        Way::Next => x.min(y),
        Way::Last => x.max(y),
    }
}

/// The one of two places that is nearer on the way, where either may be missing.
pub(crate) fn nearer(way: Way, a: Option<Pos>, b: Option<Pos>) -> Option<Pos>
    ensures { result ≡ nearer way a b }
{
    match a {
        None => b,
        Some(x) => match b {
            None => Some(x),
            Some(y) => Some(closer(way, x, y)),
        },
    }
}

/// Whether a place stands on the way from a position.
pub(crate) fn is_on(way: Way, pos: Pos, place: Pos) -> bool
    ensures { result ≡ is_on way pos place }
{
    match way {
        Way::Next => pos < place,
        Way::Last => place <= pos,
    }
}

/// An edge where it stands on the way.
pub(crate) fn reached(way: Way, pos: Pos, edge: Pos) -> Option<Pos>
    ensures { result ≡ reached way pos edge }
{
    is_on(way, pos, edge).then_some(edge)
}
