//! Margins with ample memory.
use crate::claims::assert_of;
use crate::modeline::are_cells;
use crate::texts::characters;
use rd_base::{Ch, Face, Memory};
use rd_margins::{Marks, Widths, numbers, row_margin};
use rd_ucd::Classes;
use std::alloc::Global;
use std::process::Abort;
use std::test::Fail;

/// Whether a line's number is shown so, in as many columns.
fn is_number(alloc: Global, line: Option<u32>, wanted: &str) -> bool {
    match numbers(alloc, line, wanted.len().min(400) as u32) {
        Ok(shown) => are_cells(shown.as_slice(), wanted.as_bytes(), Face::PLAIN),
        Err(_) => false,
    }
}

/// Whether margins of three columns each are shown so beside a row of line 12.
fn are_shown(alloc: Global, classes: &Classes, row: u32, string: &[Ch], wanted: &str) -> bool {
    let widths = Widths {
        numbers: 3,
        strings: 3,
    };
    match row_margin(alloc, classes, widths, row, 12, string) {
        Ok(shown) => are_cells(shown.as_slice(), wanted.as_bytes(), Face::PLAIN),
        Err(_) => false,
    }
}

/// Whether margins are shown so beside such a row, where the string is told as a text.
fn are_margins(alloc: Global, classes: &Classes, row: u32, string: &str, wanted: &str) -> bool {
    match characters(alloc, string) {
        Ok(string) => are_shown(alloc, classes, row, string.as_slice(), wanted),
        Err(_) => false,
    }
}

/// Sets and takes away margin strings, and answers whether they were kept until then.
fn keeps(marks: &mut Marks) -> Result<bool, Memory> {
    marks.set(3, Some(7))?;
    marks.set(5, Some(8))?;
    let both = marks.last_of(&[3, 5]);
    marks.set(5, None)?;
    Ok(both == Some(8) && marks.get(5).is_none() && marks.last_of(&[3, 5]) == Some(7))
}

/// Whether margin strings are kept until they are taken away.
fn are_kept(alloc: Global) -> bool {
    match Marks::new(alloc) {
        Ok(mut marks) => keeps(&mut marks) == Ok(true),
        Err(_) => false,
    }
}

/// Numbers of lines, and how they are shown.
const NUMBERS: [(&'static str, Option<u32>, &'static str); 5] = [
    ("a number of one digit", Some(1), "  1 "),
    ("a number as wide as its columns", Some(207), "207 "),
    ("a number wider than its columns", Some(1000), "+++ "),
    ("no column but the blank one", Some(7), " "),
    ("no number", None, "    "),
];

/// Rows of a line, strings, and the margins beside the row.
const MARGINS: [(&'static str, u32, &'static str, &'static str); 3] = [
    ("a string within its columns", 0, ">>", "12 >> "),
    ("a string that is cut", 0, "todo", "12 tod"),
    ("a row behind the first", 1, ">>", "      "),
];

/// Asserts how margins are shown.
fn assert_margins(rt: &impl Abort, alloc: Global, classes: &Classes) {
    for (name, row, string, wanted) in &MARGINS {
        let shown = are_margins(alloc, classes, *row, string, wanted);
        assert_of(rt, name, shown);
    }
}

#[test]
fn margins_are_shown(rt: HostRuntime) -> Result<(), Fail> {
    for (name, line, wanted) in &NUMBERS {
        assert_of(&rt, name, is_number(rt.alloc(), *line, wanted));
    }
    assert!(rt; are_kept(rt.alloc()));
    let classes = Classes::read(rt.alloc(), b"")?;
    assert_margins(&rt, rt.alloc(), &classes);
    Ok(())
}
