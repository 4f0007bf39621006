//! Window trees with ample memory.
use crate::claims::assert_of;
use rd_tree::{Placed, Rect, Side, Tree, TreeFault};
use std::process::Abort;
use std::test::Fail;

/// The rectangle of a window at the top.
const fn at(x: u32, width: u32, height: u32) -> Rect {
    Rect {
        x,
        y: 0,
        width,
        height,
    }
}

/// Whether a tree answers with this number.
fn is_number(answer: Result<u32, TreeFault>, number: u32) -> bool {
    match answer {
        Ok(given) => given == number,
        Err(_fault) => false,
    }
}

/// Whether a tree that was to answer with a number refuses for this fault.
fn is_fault(answer: Result<u32, TreeFault>, fault: TreeFault) -> bool {
    match answer {
        Ok(_number) => false,
        Err(told) => told == fault,
    }
}

/// Whether a tree refuses for this fault.
fn is_refused(answer: Result<(), TreeFault>, fault: TreeFault) -> bool {
    match answer {
        Ok(()) => false,
        Err(told) => told == fault,
    }
}

/// Whether a window has this rectangle.
fn is_at(tree: &Tree, window: u32, rect: Rect) -> bool {
    tree.rect(window) == Some(rect)
}

/// Asserts that a window of 24 columns and 5 rows is split, and that one half takes the place of both.
fn assert_split(rt: &impl Abort, tree: &mut Tree) {
    assert_of(
        rt,
        "split: no such window",
        is_fault(tree.split(1, Side::Right, 11), TreeFault::NoWindow),
    );
    assert_of(
        rt,
        "split: a column too few",
        is_fault(tree.split(0, Side::Right, 10), TreeFault::TooSmall),
    );
    assert_of(
        rt,
        "split: as many columns as a window needs",
        is_number(tree.split(0, Side::Right, 11), 1),
    );
    assert_of(
        rt,
        "the half that keeps its number",
        is_at(tree, 0, at(0, 11, 5)),
    );
    assert_of(rt, "the new half", is_at(tree, 1, at(11, 13, 5)));
    assert_of(
        rt,
        "resize: a column too few for both halves",
        is_refused(tree.resize(21, 5), TreeFault::TooSmall),
    );
    assert!(rt; tree.resize(24, 1).is_ok());
    assert_of(
        rt,
        "mode: no row for a mode line",
        is_refused(tree.mode(1, true), TreeFault::TooSmall),
    );
    assert_of(rt, "remove: the first half", is_number(tree.remove(0), 1));
    assert!(rt; tree.rect(0).is_none());
    assert_of(
        rt,
        "the half that takes the place of both",
        is_at(tree, 1, at(0, 24, 1)),
    );
    assert_of(
        rt,
        "remove: the last window",
        is_fault(tree.remove(1), TreeFault::LastWindow),
    );
}

#[test]
fn a_window_is_split_and_removed(rt: HostRuntime) -> Result<(), Fail> {
    let mut tree = Tree::new(rt.alloc(), 24, 5)?;
    assert_split(&rt, &mut tree);
    Ok(())
}

/// Whether a window stands at a place in the order of windows.
fn is_leaf(tree: &Tree, place: u32, window: u32) -> bool {
    tree.leaf(place) == Some(window)
}

/// Whether a tree splits its window, and then 62 times the window that the last split made; the one that is split keeps three
/// rows.
fn splits_each(tree: &mut Tree) -> bool {
    for window in 0..63 {
        if !is_number(tree.split(window, Side::Below, 3), window + 1) {
            return false;
        }
    }
    true
}

/// Asserts that 64 windows live and no more, where the opening one has room for them.
fn assert_many(rt: &impl Abort, tree: &mut Tree) {
    assert!(rt; splits_each(tree));
    assert_of(
        rt,
        "split: one window more than 64",
        is_fault(tree.split(63, Side::Below, 3), TreeFault::TooMany),
    );
    assert_of(rt, "the last window but one", is_leaf(tree, 62, 62));
    assert!(rt; tree.leaf(64).is_none());
    assert_of(rt, "remove: that window", is_number(tree.remove(62), 63));
    assert_of(
        rt,
        "split: a window in its stead",
        is_number(tree.split(63, Side::Right, 200), 64),
    );
    assert_of(rt, "the last window, which is new", is_leaf(tree, 63, 64));
}

#[test]
fn many_windows_live(rt: HostRuntime) -> Result<(), Fail> {
    let mut tree = Tree::new(rt.alloc(), 400, 200)?;
    assert_many(&rt, &mut tree);
    Ok(())
}

/// Asserts that margins take columns from a window of 16 columns and a row, and that its new half has as many.
fn assert_margins(rt: &impl Abort, tree: &mut Tree) {
    assert_of(
        rt,
        "margins: no such window",
        is_refused(tree.margins(1, 0), TreeFault::NoWindow),
    );
    assert_of(
        rt,
        "margins: a column too few",
        is_refused(tree.margins(0, 6), TreeFault::TooSmall),
    );
    assert_of(
        rt,
        "margins: the greatest number of columns",
        is_refused(tree.margins(0, u32::MAX), TreeFault::TooSmall),
    );
    assert!(rt; tree.margins(0, 4).is_ok());
    assert_of(
        rt,
        "resize: a column too few for the margins",
        is_refused(tree.resize(14, 1), TreeFault::TooSmall),
    );
    assert!(rt; tree.resize(30, 1).is_ok());
    assert_of(
        rt,
        "split: a column too few for a window with margins",
        is_fault(tree.split(0, Side::Right, 14), TreeFault::TooSmall),
    );
    assert_of(
        rt,
        "split: as many columns as a window with margins needs",
        is_number(tree.split(0, Side::Right, 15), 1),
    );
    assert!(rt; is_new(tree.placed(1)));
    assert!(rt; tree.placed(2).is_none());
}

/// Whether a window is the new half of the one with margins.
fn is_new(window: Option<Placed>) -> bool {
    window
        == Some(Placed {
            number: 1,
            mode: false,
            margins: 4,
            rect: at(15, 15, 1),
        })
}

#[test]
fn margins_take_columns(rt: HostRuntime) -> Result<(), Fail> {
    let mut tree = Tree::new(rt.alloc(), 16, 1)?;
    assert_margins(&rt, &mut tree);
    Ok(())
}
