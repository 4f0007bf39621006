//! The shared words on plain cases.
ghost use Rattle.std.specs.Prelude.{◌≡◌, ◌<◌, ◌≤◌, ◌^◌, length};

use crate::claims::assert_of;
use rd_base::{Cell, Class, Face, Glyph, Line, ListOf, Steps};
use std::marker::Brand;
use std::process::Abort;
use std::sync::ledger::{Blank, Ledger};
use std::test::Fail;

/// Counts two steps on a new ledger.
fn count_two<L: Ledger>(blank: Blank)
    requires name { blank.name ≡ L.name }
    requires parts { blank.parts ≡ L.parts }
    requires some { 0 < L.parts }
{
    let mut steps = Steps::<L>::new(blank);
    steps.tick();
    steps.tick();
}

#[test]
fn steps_are_counted() {
    count_two::<Brand>(Blank::new(1));
}

/// Asserts that an empty list takes what it is given.
fn assert_given(rt: &impl Abort, list: &mut ListOf<u32>) -> Result<(), Fail> {
    list.push(3)?;
    list.extend_from_slice(&[5, 7])?;
    assert!(rt; list.as_slice() == [3, 5, 7].as_slice());
    list.resize(5, 1)?;
    assert!(rt; list.as_slice() == [3, 5, 7, 1, 1].as_slice());
    assert!(rt; list.pop() == Some(1));
    Ok(())
}

#[test]
fn rooms_hold_what_they_are_given(rt: HostRuntime) -> Result<(), Fail> {
    let mut list = ListOf::with_room(rt.alloc(), 2)?;
    assert_given(&rt, &mut list)?;
    let copy = ListOf::from_slice(rt.alloc(), list.as_slice())?;
    assert!(rt; copy.as_slice() == [3, 5, 7, 1].as_slice());
    Ok(())
}

/// Whether a line that becomes that of these classes has them as its types, and has these levels.
fn is_refilled(line: &mut Line, classes: &[Class], base: u8, levels: &[u8]) -> bool
    requires short { length classes.now < 2 ^ 32 }
    requires base { base ≤ 1 }
{
    match line.refill(classes, base) {
        Ok(()) => line.types.as_slice() == classes && line.levels.as_slice() == levels,
        Err(_) => false,
    }
}

#[test]
fn a_line_is_filled_again(rt: HostRuntime) {
    let mut line = Line::new(rt.alloc());
    assert_of(
        &rt,
        "two classes at base 1",
        is_refilled(&mut line, &[Class::R, Class::WS], 1, &[1, 1]),
    );
    assert_of(
        &rt,
        "one class at base 0 in their stead",
        is_refilled(&mut line, &[Class::L], 0, &[0]),
    );
}

#[test]
fn faces_and_words(rt: HostRuntime) {
    let red = Face {
        fg: 1,
        ..Face::PLAIN
    };
    let bold = Face {
        bold: true,
        bg: 4,
        ..Face::PLAIN
    };
    assert!(rt; bold.over(red) == Face { fg: 1, ..bold });
    let marked = Glyph {
        base: 101,
        marks: [769, 0, 0, 0, 0, 0],
        count: 1,
        width: 1,
    };
    assert!(rt; Cell::First(marked, red).words() != Cell::First(marked, bold).words());
    assert!(rt; Cell::Rest.words() != Cell::Blank(Face::PLAIN).words());
}
