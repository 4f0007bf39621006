//! Words that stand for something.
ghost use Rattle.std.specs.Prelude.{◌≡◌, map};
ghost use Rattle.rd_script.specs.Fields.{beside};

use rd_base::{Direction, Wrap};
use rd_objects::RunKind;
use rd_overlays::Kind;
use rd_tree::Side;

/// What words may stand for.
pub trait Named: Sized + Drop {
    ghost use Rattle.std.specs.Prelude.{ℕ, List, ◌≡◌};
    ghost use Rattle.rd_script.specs.Fields.{beside};

    // the words, each with what it stands for
    ghost names: { List (List ℕ × Self) };

    /// What a text stands for, and None where it is none of the words.
    fn named(text: &str) -> Option<Self>
        ensures { result ≡ beside names text.now };
}

/// What stands beside a text in a table of words, and None where the text is none of them.
pub fn beside<T: Copy>(table: &[(&str, T)], text: &str) -> Option<T>
    ensures { result ≡ beside (map (λ entry. (entry.0.now, entry.1)) table.now) text.now }
{
    for entry in table {
        if text == entry.0 {
            return Some(entry.1);
        }
    }
    None
}

/// A way to go in a line as it is seen: to the right, or to the left.
#[derive(Clone, Copy)]
pub struct Way {
    pub right: bool,
}

/// The text of each way.
const WAYS: [(&'static str, Way); 2] = [
    ("left", Way { right: false }),
    ("right", Way { right: true }),
];

impl Named for Way {
    ghost use Rattle.rd_script.specs.Table.{ways};

    ghost names = { ways };

    fn named(text: &str) -> Option<Way> {
        beside(&WAYS, text)
    }
}

/// The text of each way to wrap.
const WRAPS: [(&'static str, Wrap); 3] = [
    ("truncate", Wrap::Truncate),
    ("continue", Wrap::Continue),
    ("word", Wrap::Word),
];

impl Named for Wrap {
    ghost use Rattle.rd_script.specs.Table.{wrap_modes};

    ghost names = { wrap_modes };

    fn named(text: &str) -> Option<Wrap> {
        beside(&WRAPS, text)
    }
}

/// The text of each side.
const SIDES: [(&'static str, Side); 2] = [("below", Side::Below), ("right", Side::Right)];

impl Named for Side {
    ghost use Rattle.rd_script.specs.Table.{split_sides};

    ghost names = { split_sides };

    fn named(text: &str) -> Option<Side> {
        beside(&SIDES, text)
    }
}

/// The text of each kind.
const KINDS: [(&'static str, Kind); 7] = [
    ("face", Kind::Face),
    ("display", Kind::Display),
    ("invisible", Kind::Invisible),
    ("line_prefix", Kind::LinePrefix),
    ("wrap_prefix", Kind::WrapPrefix),
    ("before", Kind::Before),
    ("after", Kind::After),
];

impl Named for Kind {
    ghost use Rattle.rd_script.specs.Properties.{kind_names};

    ghost names = { kind_names };

    fn named(text: &str) -> Option<Kind> {
        beside(&KINDS, text)
    }
}

/// The text of each direction.
const DIRECTIONS: [(&'static str, Direction); 3] = [
    ("auto", Direction::Auto),
    ("left", Direction::Left),
    ("right", Direction::Right),
];

impl Named for Direction {
    ghost use Rattle.rd_script.specs.Settings.{direction_names};

    ghost names = { direction_names };

    fn named(text: &str) -> Option<Direction> {
        beside(&DIRECTIONS, text)
    }
}

/// The text of each kind of a run.
const RUN_KINDS: [(&'static str, RunKind); 2] = [
    ("face", RunKind::Face),
    ("display", RunKind::Display),
];

impl Named for RunKind {
    ghost use Rattle.rd_script.specs.Objects.{run_kinds};

    ghost names = { run_kinds };

    fn named(text: &str) -> Option<RunKind> {
        beside(&RUN_KINDS, text)
    }
}
