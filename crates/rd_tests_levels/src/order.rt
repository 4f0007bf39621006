//! The walk on worked lines, and its cost.
ghost use Rattle.std.specs.Prelude.{◌≤◌};

use crate::claims::assert_of;
use rd_base::{ListOf, Memory};
use rd_order::Visual;
use std::alloc::Global;
use std::process::Abort;
use std::test::Fail;

/// Whether a walk through these levels gives these indexes, and no other.
fn walks(levels: &[u8], base: u8, order: &[usize]) -> bool
    requires { base ≤ 1 }
{
    let mut walk = Visual::start(levels, base);
    for index in order {
        if walk.next(levels) != Some(*index) {
            return false;
        }
    }
    walk.next(levels).is_none()
}

#[test]
fn worked_lines(rt: HostRuntime) {
    assert_of(
        &rt,
        "level 2 before and behind level 1, from the right edge",
        walks(&[2, 2, 1, 2], 1, &[1, 0, 2, 3]),
    );
    assert_of(
        &rt,
        "level 1 before level 0, from the left edge",
        walks(&[1, 1, 1, 0], 0, &[2, 1, 0, 3]),
    );
    assert_of(
        &rt,
        "level 2 behind level 1, from the right edge",
        walks(&[1, 1, 1, 2, 2], 1, &[0, 1, 2, 4, 3]),
    );
    assert_of(&rt, "no character", walks(&[], 0, &[]));
}

#[test]
fn nested_levels(rt: HostRuntime) {
    let order = [0, 6, 5, 1, 4, 2, 3, 7, 8];
    assert!(rt; walks(&[0, 2, 4, 4, 3, 1, 2, 0, 6], 0, &order));
}

/// Adds what a walk gives: a call for each level, and one more.
fn add_walked(given: &mut ListOf<Option<usize>>, levels: &[u8]) -> Result<(), Memory> {
    let mut walk = Visual::start(levels, 0);
    for _level in levels {
        given.push(walk.next(levels))?;
    }
    given.push(walk.next(levels))
}

/// Adds a level of 0, a million of 1 and one of 0.
fn add_levels(levels: &mut ListOf<u8>) -> Result<(), Memory> {
    levels.push(0)?;
    levels.resize(1_000_001, 1)?;
    levels.push(0)
}

/// Asserts what a walk through those levels gives.
fn assert_walked(rt: &impl Abort, given: &ListOf<Option<usize>>) {
    assert!(rt; given.len() == 1_000_003);
    assert!(rt; given.at(1) == Some(1_000_000));
    assert!(rt; given.at(1_000_000) == Some(1));
}

/// What a walk through levels gives.
fn walked(alloc: Global, levels: &[u8]) -> Result<ListOf<Option<usize>>, Memory> {
    let mut given = ListOf::new(alloc);
    add_walked(&mut given, levels)?;
    Ok(given)
}

/// A level of 0, a million of 1 and one of 0.
fn long_levels(alloc: Global) -> Result<ListOf<u8>, Memory> {
    let mut levels = ListOf::new(alloc);
    add_levels(&mut levels)?;
    Ok(levels)
}

#[test]
fn a_long_run_is_read_in_time(rt: HostRuntime) -> Result<(), Fail> {
    let levels = long_levels(rt.alloc())?;
    let given = walked(rt.alloc(), levels.as_slice())?;
    assert_walked(&rt, &given);
    Ok(())
}
