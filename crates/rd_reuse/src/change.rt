//! What of a text stands where it stood.

use rd_base::Pos;
use rd_base::limits::LAST_POSITION;
use rd_matrix::Block;

/// What stands as it did at an earlier time: what ends before `head`, and, moved by `added` positions, what starts at `tail` or
/// later.
#[derive(Clone, Copy, Debug, PartialEq, Eq)]
pub struct Change {
    pub head: Pos,
    pub tail: Pos,
    pub added: i64,
}

impl Change {
    ghost use Rattle.std.specs.Prelude.{◌≡◌};
    ghost use Rattle.rd_reuse.specs.Changes.{none, all, is_none, is_all, change_of, edit, join};
    ghost use Rattle.rd_reuse.specs.Keeping.{is_outside, started_at};

    /// Nothing changed.
    pub fn none() -> Change
        ensures { result ≡ none }
    {
        Change {
            head: LAST_POSITION,
            tail: 0,
            added: 0,
        }
    }

    /// Anything may have changed.
    pub fn all() -> Change
        ensures { result ≡ all }
    {
        Change {
            head: 0,
            tail: LAST_POSITION,
            added: 0,
        }
    }

    /// From a position on `removed` positions were taken away, and `added` ones put there. What stands just behind them counts as
    /// changed too. Where that reaches the last position that there is, anything may have changed.
    pub fn edit(from: Pos, removed: u32, added: u32) -> Change
        ensures { result ≡ edit from removed added }
    {
        let tail = u64::from(from) + u64::from(added) + 1;
        Change::of(from, tail, i64::from(added) - i64::from(removed))
    }

    /// This change and a later one: what stands as it did through both. Joined with a change of anything it is one, and so it is
    /// where the tail would be behind the last position that there is, or the number of added positions has no 64 bits.
    pub fn join(self, later: Change) -> Change
        ensures { result ≡ join self later }
    {
        if self.is_all() || later.is_all() {
            return Change::all();
        }
        let tail = moved(self.tail, later.added).max(u64::from(later.tail));
        match self.added.checked_add(later.added) {
            Some(added) => Change::of(self.head.min(later.head), tail, added),
            None => Change::all(),
        }
    }

    /// A change of these parts, and one of anything where the tail is behind the last position.
    fn of(head: Pos, tail: u64, added: i64) -> Change
        ensures { result ≡ change_of head tail added }
    {
        if tail > u64::from(LAST_POSITION) {
            return Change::all();
        }
        Change {
            head,
            tail: tail as Pos,
            added,
        }
    }

    /// Whether nothing changed.
    pub fn is_none(self) -> bool
        ensures { result ≡ is_none self }
    {
        self.head == LAST_POSITION && self.tail == 0 && self.added == 0
    }

    /// Whether anything may have changed.
    fn is_all(self) -> bool
        ensures { result ≡ is_all self }
    {
        self.head == 0 && self.tail == LAST_POSITION && self.added == 0
    }

    /// Whether what a block covers stands as it did.
    pub(crate) fn spares(self, block: &Block) -> bool
        ensures { result ≡ is_outside self block.now }
    {
        block.end <= self.head || self.tail <= block.start
    }

    /// Whether a block that starts at a position started at another one before.
    pub(crate) fn started_at(self, start: Pos, before: Pos) -> bool
        ensures { result ≡ started_at self start before }
    {
        if self.tail <= start {
            return i64::from(start) - i64::from(before) == self.added;
        }
        before == start
    }
}

ghost use Rattle.std.specs.Prelude.{◌≡◌};
ghost use Rattle.rd_base.specs.Lists.{moved};

/// A position moved down, or up where the number is below 0, up at most to 0.
fn moved(place: Pos, added: i64) -> u64
    ensures { result ≡ moved added place }
{
    if added.is_negative() {
        return u64::from(place).saturating_sub(added.unsigned_abs());
    }
    u64::from(place) + added.unsigned_abs()
}
