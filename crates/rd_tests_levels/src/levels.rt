//! Levels and visual orders against those that were worked out apart from this program.
ghost use Rattle.std.specs.Prelude.{◌+◌, ◌<◌, ◌≤◌, ◌^◌, length};

mod table;

use crate::claims::assert_of;
use crate::explicit::nested;
use rd_base::{Class, ListOf, Memory};
use rd_levels::{LevelCache, Order, Turn};
use rd_order::Visual;
use rd_ucd::Brackets;
use std::alloc::Global;
use std::process::Abort;
use std::test::Fail;

/// Asserts that the cache and a walk give the levels and the order that each row of the table tells.
fn assert_lines(rt: &impl Abort, alloc: Global, cache: &mut LevelCache) {
    for row in table::LINES.lines() {
        assert_of(rt, row, agrees(alloc, cache, row));
    }
}

#[test]
fn lines_of_the_table(rt: HostRuntime) -> Result<(), Fail> {
    let mut cache = LevelCache::new(rt.alloc())?;
    assert_lines(&rt, rt.alloc(), &mut cache);
    Ok(())
}

/// Whether the cache and a walk give the levels and the order that a row of the table tells.
fn agrees(alloc: Global, cache: &mut LevelCache, row: &str) -> bool {
    match fields(row) {
        Some((base, classes, levels, order)) => {
            let base = if base == "0" { 0 } else { 1 };
            fills(alloc, cache, classes, base)
                && are_levels(cache.levels(), levels)
                && is_order(cache.levels(), base, order)
        }
        None => false,
    }
}

/// Fills the cache with the line of the classes that a text lists, and answers whether it did so.
fn fills(alloc: Global, cache: &mut LevelCache, text: &str, base: u8) -> bool
    requires { base ≤ 1 }
{
    let mut classes = ListOf::new(alloc);
    add_classes(&mut classes, text).is_ok()
        && classes.len() <= 1000
        && fill(alloc, cache, classes.as_slice(), base).is_ok()
}

/// Fills the cache with a line without brackets.
fn fill(alloc: Global, cache: &mut LevelCache, classes: &[Class], base: u8) -> Result<(), Memory>
    requires short { length classes.now < 2 ^ 32 }
    requires base { base ≤ 1 }
{
    let mut codes = ListOf::new(alloc);
    codes.resize(classes.len(), 0)?;
    cache.fill(classes, codes.as_slice(), &Brackets::none(alloc), base)
}

/// The four fields of a row behind its name: the base, the classes, the levels and the order.
fn fields(row: &str) -> Option<(&str, &str, &str, &str)> {
    let (_name, row) = row.split_once(" | ")?;
    let (base, row) = row.split_once(" | ")?;
    let (classes, row) = row.split_once(" | ")?;
    let (levels, order) = row.split_once(" | ")?;
    Some((base, classes, levels, order))
}

/// Whether a word is the number of a level.
fn is_level(word: &str, level: u8) -> bool {
    match word.parse::<u8>() {
        Ok(number) => number == level,
        Err(_) => false,
    }
}

/// Whether these are the levels that a text lists.
fn are_levels(levels: &[u8], text: &str) -> bool {
    let mut i = 0;
    for word in text.split_whitespace() {
        if i >= levels.len() || !is_level(word, levels[i]) {
            return false;
        }
        i += 1;
    }
    i == levels.len()
}

/// Whether a walk through these levels gives the indexes that a text lists, and no other.
fn is_order(levels: &[u8], base: u8, text: &str) -> bool
    requires { base ≤ 1 }
{
    let mut walk = Visual::start(levels, base);
    for word in text.split_whitespace() {
        let Ok(index) = word.parse::<usize>() else {
            return false;
        };
        if walk.next(levels) != Some(index) {
            return false;
        }
    }
    walk.next(levels).is_none()
}

/// Adds the classes that a text lists by their names, up to the first word that is none.
fn add_classes(classes: &mut ListOf<Class>, text: &str) -> Result<(), Memory> {
    for word in text.split_whitespace() {
        match class_named(word) {
            Some(class) => classes.push(class)?,
            None => return Ok(()),
        }
    }
    Ok(())
}

/// The class of a name.
fn class_named(name: &str) -> Option<Class> {
    match name {
        "L" => Some(Class::L),
        "R" => Some(Class::R),
        "AL" => Some(Class::AL),
        "EN" => Some(Class::EN),
        "ES" => Some(Class::ES),
        "ET" => Some(Class::ET),
        "AN" => Some(Class::AN),
        "CS" => Some(Class::CS),
        "NSM" => Some(Class::NSM),
        "BN" => Some(Class::BN),
        "B" => Some(Class::B),
        "S" => Some(Class::S),
        "WS" => Some(Class::WS),
        "ON" => Some(Class::ON),
        "LRE" => Some(Class::LRE),
        "LRO" => Some(Class::LRO),
        "RLE" => Some(Class::RLE),
        "RLO" => Some(Class::RLO),
        "PDF" => Some(Class::PDF),
        "LRI" => Some(Class::LRI),
        "RLI" => Some(Class::RLI),
        "FSI" => Some(Class::FSI),
        "PDI" => Some(Class::PDI),
        _ => None,
    }
}

/// Asserts that a line of no class takes the place of another.
fn assert_replaced(rt: &impl Abort, alloc: Global, cache: &mut LevelCache) {
    assert_of(
        rt,
        "a line of two classes",
        fill(alloc, cache, &[Class::R, Class::EN], 0).is_ok(),
    );
    assert!(rt; cache.len() == 2);
    assert!(rt; are_levels(cache.levels(), "1 2"));
    assert_of(
        rt,
        "a line of no class in its stead",
        fill(alloc, cache, &[], 0).is_ok(),
    );
    assert!(rt; cache.len() == 0);
    assert!(rt; is_order(cache.levels(), 0, ""));
}

#[test]
fn a_line_takes_the_place_of_another(rt: HostRuntime) -> Result<(), Fail> {
    let mut cache = LevelCache::new(rt.alloc())?;
    assert_replaced(&rt, rt.alloc(), &mut cache);
    Ok(())
}

/// Whether the last of these classes, at base 0, has this level.
fn ends_with(alloc: Global, cache: &mut LevelCache, classes: &[Class], level: u8) -> bool
    requires { length classes.now < 2 ^ 32 }
{
    fill(alloc, cache, classes, 0).is_ok() && cache.levels().last() == Some(&level)
}

/// Whether the last class, at base 0 and behind so many RLE and LRE in turn, has this level.
fn ends_at(alloc: Global, cache: &mut LevelCache, count: usize, rest: &[Class], level: u8) -> bool
    requires { count + length rest.now < 2 ^ 32 }
{
    match nested(alloc, count, rest) {
        Ok(classes) => ends_with(alloc, cache, classes.as_slice(), level),
        Err(_) => false,
    }
}

/// Asserts that characters in nested embeddings have levels up to 126.
fn assert_nested(rt: &impl Abort, alloc: Global, cache: &mut LevelCache) {
    assert_of(
        rt,
        "125 embeddings",
        ends_at(alloc, cache, 125, &[Class::L], 126),
    );
    assert_of(
        rt,
        "126 embeddings, of which the last overflows",
        ends_at(alloc, cache, 126, &[Class::L], 126),
    );
    assert_of(
        rt,
        "PDF behind 125 embeddings",
        ends_at(alloc, cache, 125, &[Class::PDF, Class::L], 124),
    );
    assert_of(
        rt,
        "PDF behind 126 embeddings",
        ends_at(alloc, cache, 126, &[Class::PDF, Class::L], 126),
    );
}

#[test]
fn nesting_ends_at_level_125(rt: HostRuntime) -> Result<(), Fail> {
    let mut cache = LevelCache::new(rt.alloc())?;
    assert_nested(&rt, rt.alloc(), &mut cache);
    Ok(())
}

/// Whether six characters, of which the second and the fourth are brackets, have these levels.
fn has_pair(
    alloc: Global,
    cache: &mut LevelCache,
    classes: &[Class; 6],
    codes: &[u32; 6],
    levels: &str,
) -> bool {
    match Brackets::read(alloc, b"0028; 0029; o\n0029; 0028; c") {
        Ok(brackets) => {
            cache.fill(classes, codes, &brackets, 0).is_ok() && are_levels(cache.levels(), levels)
        }
        Err(_) => false,
    }
}

/// Asserts that brackets take the direction of what they are around.
fn assert_paired(rt: &impl Abort, alloc: Global, cache: &mut LevelCache) {
    let left = [
        Class::R,
        Class::ON,
        Class::L,
        Class::ON,
        Class::NSM,
        Class::R,
    ];
    let codes = [0, 0x28, 0, 0x29, 0x301, 0];
    let marked = has_pair(alloc, cache, &left, &codes, "1 0 0 0 0 1");
    assert_of(rt, "N0b: a pair around L, and a mark behind it", marked);
    let right = [
        Class::L,
        Class::ON,
        Class::R,
        Class::ON,
        Class::WS,
        Class::R,
    ];
    let codes = [0, 0x28, 0, 0x29, 0, 0];
    let other = has_pair(alloc, cache, &right, &codes, "0 0 1 0 0 1");
    assert_of(rt, "N0c: a pair around R behind L", other);
}

#[test]
fn brackets_take_a_direction(rt: HostRuntime) -> Result<(), Fail> {
    let mut cache = LevelCache::new(rt.alloc())?;
    assert_paired(&rt, rt.alloc(), &mut cache);
    Ok(())
}

/// Whether the line of R, EN and B has these turns.
fn turns(alloc: Global, reorder: bool, wanted: &[Turn; 3]) -> bool {
    let classes = [Class::R, Class::EN, Class::B];
    let brackets = Brackets::none(alloc);
    let Ok(mut order) = Order::new(alloc, reorder, 0, &classes, &[0, 0, 0], &brackets) else {
        return false;
    };
    for turn in wanted {
        if order.next() != Some(*turn) {
            return false;
        }
    }
    order.next().is_none()
}

#[test]
fn turns_of_a_line(rt: HostRuntime) {
    let numbers = [turn(1, false), turn(0, true), turn(2, false)];
    assert_of(
        &rt,
        "characters in visual order",
        turns(rt.alloc(), true, &numbers),
    );
    let unordered = [turn(0, false), turn(1, false), turn(2, false)];
    assert_of(
        &rt,
        "characters that are not reordered",
        turns(rt.alloc(), false, &unordered),
    );
}

/// The turn of an index, at an odd level or not.
fn turn(index: usize, odd: bool) -> Turn {
    Turn { index, odd }
}
