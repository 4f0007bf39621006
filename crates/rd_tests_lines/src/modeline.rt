//! Mode lines with ample memory.
use crate::claims::assert_of;
use crate::texts::characters;
use rd_base::{Cell, Ch, Face, Glyph};
use rd_modeline::{Facts, format};
use rd_ucd::Classes;
use std::alloc::Global;
use std::process::Abort;
use std::test::Fail;

const INVERSE: Face = Face {
    inverse: true,
    ..Face::PLAIN
};

/// Whether a cell shows a character of an ASCII text in a face.
fn is_cell(cell: Cell, byte: u8, face: Face) -> bool {
    match byte {
        b' ' => cell == Cell::Blank(face),
        _ => cell == Cell::First(Glyph::single(byte as u32, 1), face),
    }
}

/// Whether cells show an ASCII text in a face.
pub fn are_cells(cells: &[Cell], bytes: &[u8], face: Face) -> bool {
    if cells.len() != bytes.len() {
        return false;
    }
    for (cell, byte) in cells.iter().zip(bytes) {
        if !is_cell(*cell, *byte, face) {
            return false;
        }
    }
    true
}

/// Whether a format gives this line, in as many columns as it has.
fn gives(alloc: Global, classes: &Classes, code: &[Ch], facts: &Facts, line: &[u8]) -> bool {
    match format(alloc, code, classes, facts, line.len().min(400) as u32) {
        Ok(shown) => are_cells(shown.as_slice(), line, INVERSE),
        Err(_) => false,
    }
}

/// Whether a format that is told as a text gives this line of facts about a buffer of this name.
fn is_line(alloc: Global, classes: &Classes, name: &[Ch], code: &str, line: &[u8]) -> bool {
    let facts = Facts {
        name,
        line: 12,
        top: false,
        bottom: false,
        above: 4,
        total: 15,
        modified: true,
        read_only: true,
        narrowed: true,
    };
    match characters(alloc, code) {
        Ok(code) => gives(alloc, classes, code.as_slice(), &facts, line),
        Err(_) => false,
    }
}

/// Formats, and the lines that they give.
const LINES: [(&'static str, &'static str, &'static [u8]); 4] = [
    ("a width, and dashes", "%5l|%-", b"   12|----"),
    ("a name, a line and a share", "%b %3l %p", b"main  12 27%  "),
    ("states of a buffer", "%*%+ %8n|%%", b"%* Narrow  |%"),
    ("a line that is cut", "%bwide", b"mainwi"),
];

/// Asserts which lines formats give.
fn assert_lines(rt: &impl Abort, alloc: Global, classes: &Classes, name: &[Ch]) {
    for (case, code, line) in &LINES {
        assert_of(rt, case, is_line(alloc, classes, name, code, line));
    }
}

#[test]
fn lines_of_formats(rt: HostRuntime) -> Result<(), Fail> {
    let classes = Classes::read(rt.alloc(), b"")?;
    let name = characters(rt.alloc(), "main")?;
    assert_lines(&rt, rt.alloc(), &classes, name.as_slice());
    Ok(())
}
