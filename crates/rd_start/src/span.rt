//! The least and the greatest of positions.
ghost use Rattle.std.specs.Prelude.{◌≡◌};
ghost use Rattle.std.specs.List.{flat_map};
ghost use Rattle.rd_start.specs.Chosen.{first_covered};
ghost use Rattle.rd_start.specs.Strips.{span_of_both, span_of};

use rd_base::Pos;
use rd_rows::Begin;

/// The least and the greatest of positions.
#[derive(Clone, Copy)]
pub(crate) struct Span {
    pub(crate) first: u64,
    pub(crate) last: u64,
}

/// The span of the positions of both.
pub(crate) fn span_of_both(a: Option<Span>, b: Option<Span>) -> Option<Span>
    ensures { result ≡ span_of_both a b }
{
    match (a, b) {
        (None, b) => b,
        (a, None) => a,
        (Some(a), Some(b)) => Some(Span {
            first: a.first.min(b.first),
            last: a.last.max(b.last),
        }),
    }
}

/// The span of the least positions that the items cover which begin in a row of the block that starts at a position.
pub(crate) fn span_of(start: Pos, begins: &[Begin]) -> Option<Span>
    ensures { result ≡ span_of (flat_map (first_covered start) begins.now) }
{
    let mut span = None;
    for begin in begins {
        span = span_of_both(span, first_covered(start, begin));
    }
    span
}

/// The least position that an item covers, as a span.
fn first_covered(start: Pos, begin: &Begin) -> Option<Span>
    ensures { result ≡ span_of (first_covered start begin.now) }
{
    if begin.from >= begin.to {
        return None;
    }
    let position = u64::from(start) + u64::from(begin.from);
    Some(Span {
        first: position,
        last: position,
    })
}
