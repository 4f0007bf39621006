//! Items and blocks with ample memory, of buffers that are made by calls.
use crate::claims::assert_of;
use crate::glyphs::{heavy, twice_marked};
use crate::scenery::{Scenery, is_accessible, put_text};
use rd_base::{Ch, Class, Face, Invisible, ListOf, Memory, Pos};
use rd_items::{Item, ItemKind, Items, block_at};
use rd_overlays::Kind;
use rd_props::{BufferState, View};
use std::alloc::Global;
use std::process::Abort;
use std::test::Fail;

/// Hides what has the atom 7 with an ellipsis, and what has 8 without.
fn list_atoms(state: &mut BufferState, alloc: Global) -> Result<(), Memory> {
    let pairs = ListOf::from_slice(alloc, &[(7, true), (8, false)])?;
    state.settings.invisible = Invisible::Listed(pairs);
    Ok(())
}

/// Puts a text into an empty buffer, with an atom on its second character, and an overlay's string before it.
fn fill(
    state: &mut BufferState,
    alloc: Global,
    text: &str,
    atom: Option<u32>,
    string: Option<u32>,
) -> Result<(), Fail> {
    list_atoms(state, alloc)?;
    put_text(state, alloc, text)?;
    state.spans[Kind::Invisible as usize].put(2, 3, atom)?;
    let number = state.overlays.make(2, 2, 0, false, false)?;
    state.overlays.set(number, Kind::Before, string)?;
    Ok(())
}

/// A buffer with a text, no objects and no data.
fn set_up(
    alloc: Global,
    text: &str,
    atom: Option<u32>,
    string: Option<u32>,
) -> Result<Scenery, Fail> {
    let mut scenery = Scenery::new(alloc)?;
    fill(&mut scenery.state, alloc, text, atom, string)?;
    Ok(scenery)
}

/// The kind of the item that a sign stands for: the letter e and a mark alone, that letter with six marks, two marks on a blank, the
/// string 9, an ellipsis, and the end of a block, `$`.
fn kind_of(sign: char) -> ItemKind {
    match sign {
        'e' => ItemKind::Char(Ch::scalar('e')),
        '\'' => ItemKind::Char(Ch::scalar('\u{301}')),
        'E' => ItemKind::Marked(heavy()),
        '"' => ItemKind::Marked(twice_marked()),
        '9' => ItemKind::Text(9),
        '~' => ItemKind::Ellipsis,
        _ => ItemKind::Ender,
    }
}

/// The class of such an item.
fn class_of(sign: char) -> Class {
    match sign {
        '9' | '~' => Class::ON,
        '$' => Class::B,
        _ => Class::L,
    }
}

/// The item that a sign stands for, which covers the offsets from one to another; the string is an overlay's.
fn item(sign: char, from: u32, to: u32) -> Item {
    Item {
        class: class_of(sign),
        kind: kind_of(sign),
        face: Face::PLAIN,
        overlay: sign == '9',
        from,
        to,
    }
}

/// Whether these are the items of the block that starts at a position.
fn gives(alloc: Global, view: &View, start: Pos, wanted: &[(char, u32, u32)]) -> bool {
    if !is_accessible(view, start) {
        return false;
    }
    match Items::new(alloc, view, start) {
        Ok(items) => are_equal(&items, wanted),
        Err(_) => false,
    }
}

/// Whether items are those that signs stand for.
fn are_equal(items: &Items, wanted: &[(char, u32, u32)]) -> bool {
    if items.len() as usize != wanted.len() {
        return false;
    }
    for i in 0..items.len() {
        let (sign, from, to) = wanted[i as usize];
        if *items.item(i) != item(sign, from, to) {
            return false;
        }
    }
    true
}

/// Whether a text, with an atom on its second character and an overlay's string before it, has these items.
fn shows(
    alloc: Global,
    text: &str,
    atom: Option<u32>,
    string: Option<u32>,
    wanted: &[(char, u32, u32)],
) -> Result<bool, Fail> {
    let scenery = set_up(alloc, text, atom, string)?;
    Ok(gives(alloc, &scenery.view(), 1, wanted))
}

/// Whether a position is in this block.
fn is_in(alloc: Global, view: &View, pos: Pos, wanted: (Pos, Pos)) -> bool {
    if !is_accessible(view, pos) {
        return false;
    }
    match block_at(alloc, view, pos) {
        Ok(block) => block.0 == wanted.0 && block.1 == wanted.1,
        Err(_) => false,
    }
}

/// Asserts that each of these positions is in its block.
fn assert_in(rt: &impl Abort, alloc: Global, view: &View, wanted: &[(&str, Pos, (Pos, Pos))]) {
    for (name, pos, block) in wanted {
        assert_of(rt, name, is_in(alloc, view, *pos, *block));
    }
}

/// A line with a letter, and one with a mark.
const LINES: &'static str = "e\n\u{301}";

/// Asserts that these lines, with an atom on the newline between them, have these blocks at these positions.
fn assert_cut(
    rt: &impl Abort,
    alloc: Global,
    atom: Option<u32>,
    wanted: &[(&str, Pos, (Pos, Pos))],
) -> Result<(), Fail> {
    let scenery = set_up(alloc, LINES, atom, None)?;
    assert_in(rt, alloc, &scenery.view(), wanted);
    Ok(())
}

/// The items of a letter with eight marks.
const MANY: [(char, u32, u32); 3] = [('E', 0, 7), ('"', 7, 9), ('$', 9, 10)];

/// The items of a letter and two marks with a string between.
const PARTED: [(char, u32, u32); 4] = [('e', 0, 1), ('9', 1, 1), ('"', 1, 3), ('$', 3, 4)];

#[test]
fn marks_join(rt: HostRuntime) -> Result<(), Fail> {
    let many = "e\u{301}\u{301}\u{301}\u{301}\u{301}\u{301}\u{301}\u{301}";
    assert_of(
        &rt,
        "eight marks behind a letter",
        shows(rt.alloc(), many, None, None, &MANY)?,
    );
    assert_of(
        &rt,
        "two marks behind a string",
        shows(rt.alloc(), "e\u{301}\u{301}", None, Some(9), &PARTED)?,
    );
    Ok(())
}

/// The items of two lines whose newline is hidden.
const HIDDEN: [(char, u32, u32); 3] = [('e', 0, 1), ('\'', 1, 3), ('$', 3, 4)];

/// The items of two lines where an ellipsis stands for the newline.
const ELLIPSIS: [(char, u32, u32); 4] = [('e', 0, 1), ('~', 1, 2), ('\'', 2, 3), ('$', 3, 4)];

#[test]
fn hidden_newlines(rt: HostRuntime) -> Result<(), Fail> {
    assert_of(
        &rt,
        "a newline that is hidden",
        shows(rt.alloc(), LINES, Some(8), None, &HIDDEN)?,
    );
    assert_of(
        &rt,
        "a newline that is hidden with an ellipsis",
        shows(rt.alloc(), LINES, Some(7), None, &ELLIPSIS)?,
    );
    Ok(())
}

/// Positions of two lines, each with its block.
const TWO_BLOCKS: [(&'static str, Pos, (Pos, Pos)); 4] = [
    ("the letter", 1, (1, 3)),
    ("the newline, which is shown", 2, (1, 3)),
    ("the mark", 3, (3, 5)),
    ("the end, behind the mark", 4, (3, 5)),
];

/// Positions of two lines whose newline is hidden, each with its block.
const ONE_BLOCK: [(&'static str, Pos, (Pos, Pos)); 3] = [
    ("the letter", 1, (1, 5)),
    ("the newline, which is hidden", 2, (1, 5)),
    ("the end, behind the mark", 4, (1, 5)),
];

#[test]
fn newlines_that_show_cut(rt: HostRuntime) -> Result<(), Fail> {
    assert_cut(&rt, rt.alloc(), None, &TWO_BLOCKS)?;
    assert_cut(&rt, rt.alloc(), Some(7), &ONE_BLOCK)
}
