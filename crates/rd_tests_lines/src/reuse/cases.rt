//! Tables of older rows, of what changed since, and of the rows of windows that are laid out again.
use Changed::{Anything, Edit, Nothing};
use rd_base::Pos;
use rd_reuse::Change;

/// What changed of a text.
#[derive(Clone, Copy)]
pub enum Changed {
    /// Nothing.
    Nothing,
    /// Anything may have.
    Anything,
    /// From a position on so many positions were taken away, and so many put there.
    Edit(Pos, u32, u32),
}

/// The change that is told so.
fn change_of(changed: Changed) -> Change {
    match changed {
        Nothing => Change::none(),
        Anything => Change::all(),
        Edit(from, removed, added) => Change::edit(from, removed, added),
    }
}

/// Older rows, what changed since, and later where that was not all, and the rows of a window that is laid out again. Texts are given by
/// signs, one for each line (`line_of`); rows by lines of the block's start, the row's number in it, how often it was copied, and what it
/// shows.
#[derive(Clone, Copy)]
pub struct Case {
    pub name: &'static str,
    pub older: Older,
    pub changed: Changed,
    pub later: Option<Changed>,
    pub text: &'static str,
    pub start: (Pos, u32),
    pub height: u32,
    pub rows: &'static str,
}

/// The rows of a window, which were never copied, and behind them copies of the rows of another one.
#[derive(Clone, Copy)]
pub struct Older {
    pub text: &'static str,
    pub start: (Pos, u32),
    pub height: u32,
    pub copied: &'static str,
}

/// All that changed in a case.
pub fn whole_change(case: &Case) -> Change {
    let change = change_of(case.changed);
    match case.later {
        Some(later) => change.join(change_of(later)),
        None => change,
    }
}

/// The rows of a whole text.
macro_rules! rows_of {
    ($text:expr) => {
        Older {
            text: $text,
            start: (1, 0),
            height: 9,
            copied: "",
        }
    };
}

/// What a window of nine rows shows from the first row on: the case's name, the older rows, what changed, the text and its rows.
macro_rules! case {
    ($name:expr => $older:expr, $changed:expr, $text:expr, $rows:expr) => {
        Case {
            name: $name,
            older: $older,
            changed: $changed,
            later: None,
            text: $text,
            start: (1, 0),
            height: 9,
            rows: $rows,
        }
    };
}

/// What a window shows from the first row on where something changed later too: the case's name, the older rows, both changes, the text
/// and its rows.
macro_rules! combined {
    ($name:expr => $older:expr, $changed:expr, $later:expr, $text:expr, $rows:expr) => {
        Case {
            name: $name,
            older: $older,
            changed: $changed,
            later: Some($later),
            text: $text,
            start: (1, 0),
            height: 9,
            rows: $rows,
        }
    };
}

/// The rows of three lines.
const ABC: Older = rows_of!("abc");

/// The rows of three lines of which the second is read from the right edge.
const OTHER: Older = rows_of!("aBc");

/// The rows of five lines.
const ABCDE: Older = rows_of!("abcde");

/// The rows of three lines, of which the second has two.
const A7B: Older = rows_of!("a7b");

/// Nothing changed, or anything may have; the letter of a line; its newline, which is the position before that of the next line;
/// something between two lines.
pub const CHANGES: [Case; 5] = [
    case!("nothing" => ABC, Nothing, "abc", "1.0 1 a\n3.0 1 b\n5.0 1 c\n"),
    case!("anything" => ABC, Anything, "abc", "1.0 0 a\n3.0 0 b\n5.0 0 c\n"),
    case!("the letter of a line" => ABC, Edit(3, 1, 1), "axc", "1.0 1 a\n3.0 0 x\n5.0 1 c\n"),
    case!("the newline of a line" => ABC, Edit(4, 1, 1), "abc", "1.0 1 a\n3.0 0 b\n5.0 0 c\n"),
    case!("something between two lines" => ABC, Edit(3, 0, 0), "abc", "1.0 1 a\n3.0 0 b\n5.0 1 c\n"),
];

/// A line more and a line less: those behind were moved. The one that starts just behind what was put or taken away, one position
/// before the tail, is laid out anew.
pub const MOVES: [Case; 4] = [
    case!("a line more" => ABC, Edit(3, 0, 2), "axbc", "1.0 1 a\n3.0 0 x\n5.0 0 b\n7.0 1 c\n"),
    case!("a line less" => rows_of!("abcd"), Edit(3, 2, 0), "acd", "1.0 1 a\n3.0 0 c\n5.0 1 d\n"),
    case!("a line before all" => ABC, Edit(1, 0, 2), "xabc", "1.0 0 x\n3.0 0 a\n5.0 1 b\n7.0 1 c\n"),
    case!("a line behind all" => ABC, Edit(7, 0, 2), "abcx", "1.0 1 a\n3.0 1 b\n5.0 1 c\n7.0 0 x\n"),
];

/// The rows after two lines more.
const TWO: &'static str = "1.0 1 a\n3.0 0 y\n5.0 0 b\n7.0 0 c\n9.0 0 x\n11.0 0 d\n13.0 1 e\n";

/// Three rows that are laid out anew.
const ANEW: &'static str = "1.0 0 a\n3.0 0 x\n5.0 0 c\n";

/// Three rows of which one is laid out anew.
const ONE: &'static str = "1.0 1 a\n3.0 0 x\n5.0 1 c\n";

/// Two lines more, the first one behind or before the other; a change of anything, before or later; no change before or later.
pub const COMBINED_CHANGES: [Case; 6] = [
    combined!("a line, and one before it" => ABCDE, Edit(7, 0, 2), Edit(3, 0, 2), "aybcxde", TWO),
    combined!("a line, and one behind it" => ABCDE, Edit(3, 0, 2), Edit(9, 0, 2), "aybcxde", TWO),
    combined!("anything, and then a letter" => ABC, Anything, Edit(3, 1, 1), "axc", ANEW),
    combined!("a letter, and then anything" => ABC, Edit(3, 1, 1), Anything, "axc", ANEW),
    combined!("nothing, and then a letter" => ABC, Nothing, Edit(3, 1, 1), "axc", ONE),
    combined!("a letter, and then nothing" => ABC, Edit(3, 1, 1), Nothing, "axc", ONE),
];

/// A line whose base level turned is laid out anew, also behind the tail, and one of the base level that it had is not.
pub const BASE_LEVELS: [Case; 3] = [
    case!("a line now read from the right edge" => ABC, Edit(1, 1, 1), "xBc", "1.0 0 x\n3.0 0            b\n5.0 1 c\n"),
    case!("a line now read from the left edge" => OTHER, Edit(1, 1, 1), "xbc", "1.0 0 x\n3.0 0 b\n5.0 1 c\n"),
    case!("a line read from the right edge as before" => OTHER, Edit(1, 1, 1), "xBc", "1.0 0 x\n3.0 1            b\n5.0 1 c\n"),
];

/// The rows of three lines, and behind them copies of three others.
const BOTH: Older = Older {
    copied: "xyz",
    ..ABC
};

/// Copies of the rows of three lines alone.
const ONCE: Older = Older {
    copied: "abc",
    ..rows_of!("")
};

/// Rows from the second row of a line on.
const HEADLESS: Older = Older {
    start: (3, 1),
    ..A7B
};

/// Rows up to the first row of a line that has two.
const FOOTLESS: Older = Older { height: 2, ..A7B };

/// A line keeps both of its rows or none: moved, where its first row is not there, and where its last one is not. Of several rows
/// with one number the first counts. A row that was copied before is copied once more.
pub const OLDER_LAYOUTS: [Case; 6] = [
    case!("two rows of a line, moved" => A7B, Edit(1, 0, 2), "xa7b", "1.0 0 x\n3.0 0 a\n5.0 1 7\n5.1 1 7\n8.0 1 b\n"),
    case!("no first row of a line" => HEADLESS, Nothing, "a7b", "1.0 0 a\n3.0 0 7\n3.1 0 7\n6.0 1 b\n"),
    case!("no last row of a line" => FOOTLESS, Nothing, "a7b", "1.0 1 a\n3.0 0 7\n3.1 0 7\n6.0 0 b\n"),
    case!("two rows with one number" => BOTH, Nothing, "abc", "1.0 1 a\n3.0 1 b\n5.0 1 c\n"),
    case!("rows that were copied" => ONCE, Edit(3, 1, 1), "axc", "1.0 2 a\n3.0 0 x\n5.0 2 c\n"),
    case!("no older row" => rows_of!(""), Nothing, "ab", "1.0 0 a\n3.0 0 b\n"),
];

/// The last of three lines changed, of which the second has two rows.
const EDITED: Case =
    case!("a start with a kept line" => A7B, Edit(6, 1, 1), "a7x", "3.0 1 7\n3.1 1 7\n6.0 0 x\n");

/// A line was put before three.
const MOVED: Case =
    case!("a start with a moved line" => ABC, Edit(1, 0, 2), "xabc", "5.0 1 b\n7.0 1 c\n");

/// A window that starts with a line that is kept, with its second row, and with one that was moved; and two rows high.
pub const STARTS: [Case; 4] = [
    Case {
        start: (3, 0),
        ..EDITED
    },
    Case {
        name: "a start with a second row",
        start: (3, 1),
        rows: "3.1 1 7\n6.0 0 x\n",
        ..EDITED
    },
    Case {
        start: (5, 0),
        ..MOVED
    },
    Case {
        name: "a window of two rows",
        height: 2,
        rows: "1.0 0 x\n3.0 0 a\n",
        ..MOVED
    },
];
