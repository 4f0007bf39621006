//! Each rule of a character's elements, and plain lines.
ghost use Rattle.std.specs.Prelude.{IfOk, IsTrue};
ghost use Rattle.rd_objects.specs.Tables.{is_slot_glyph};

use crate::claims::assert_of;
use crate::texts::characters;
use rd_base::{Cell, Ch, Element, Extent, Face, Glyph, Look, Origin, Settings};
use rd_glyphs::{Parts, expand, plain_line};
use rd_objects::{Slot, Table, glyph_character};
use rd_ucd::{Classes, Mirrors};
use std::alloc::Global;
use std::process::Abort;
use std::test::Fail;

/// A face with a colour.
const RED: Face = Face {
    fg: 1,
    ..Face::PLAIN
};

/// The third item of a block, at one place of it.
const ORIGIN: Origin = Origin {
    item: 2,
    from: 3,
    to: 4,
};

/// An element of a look in so many columns.
fn element(extent: Extent, look: Look) -> Element {
    Element {
        extent,
        look,
        face: RED,
        origin: ORIGIN,
    }
}

/// The element of a character in its columns.
fn shown(code: u32, width: u8) -> Element {
    element(
        Extent::Fixed(width as u32),
        Look::Glyph(Glyph::single(code, width)),
    )
}

/// The element of a character of one column.
fn narrow(c: char) -> Element {
    shown(c as u32, 1)
}

/// The glyph character of a scalar value of one column.
fn letter(c: char) -> Result<Glyph, Fail>
    ensures { IfOk result (λ g. IsTrue (is_slot_glyph g)) }
{
    if let Some(glyph) = glyph_character(c) {
        if glyph.width == 1 {
            return Ok(glyph);
        }
    }
    Err(Fail::new("no glyph character of one column"))
}

/// A mark on a blank.
fn marked(code: u32) -> Glyph {
    Glyph {
        marks: [code, 0, 0, 0, 0, 0],
        count: 1,
        ..Glyph::single(32, 1)
    }
}

/// The character of a raw byte.
fn raw(byte: u8) -> Ch {
    match Ch::raw(byte) {
        Some(ch) => ch,
        None => Ch::scalar('?'),
    }
}

/// Whether a character has this one element.
fn gives(alloc: Global, parts: &Parts, ch: Ch, wanted: Element) -> bool {
    match expand(alloc, parts, ch, false, RED, ORIGIN) {
        Ok(elements) => elements.as_slice() == [wanted].as_slice(),
        Err(_) => false,
    }
}

/// Whether elements are those of the characters of a text, each of one column.
fn are_letters(elements: &[Element], text: &str) -> bool {
    let mut i = 0;
    for c in text.chars() {
        if i >= elements.len() || elements[i] != narrow(c) {
            return false;
        }
        i += 1;
    }
    i == elements.len()
}

/// Whether a character is shown as a text whose characters have one column each.
fn spells(alloc: Global, parts: &Parts, ch: Ch, odd: bool, text: &str) -> bool {
    match expand(alloc, parts, ch, odd, RED, ORIGIN) {
        Ok(elements) => are_letters(elements.as_slice(), text),
        Err(_) => false,
    }
}

/// Settings, and data of a few characters.
#[derive(Drop)]
struct Data {
    settings: Settings,
    classes: Classes,
    mirrors: Mirrors,
}

impl Data {
    /// What elements are made from.
    fn parts<'a>(&'a self, table: Option<&'a Table>) -> Parts<'a> {
        Parts {
            table,
            settings: &self.settings,
            classes: &self.classes,
            mirrors: &self.mirrors,
        }
    }
}

/// The settings that a buffer has from the start, with or without arrows for controls.
fn settings(ctl_arrow: bool) -> Settings {
    let mut settings = Settings::new();
    settings.ctl_arrow = ctl_arrow;
    settings
}

/// Classes with one character that no column shows and one embedding.
fn classes(alloc: Global) -> Result<Classes, Fail> {
    Ok(Classes::read(
        alloc,
        b"00AD;SOFT HYPHEN;Cf;0;BN\n202B;RIGHT-TO-LEFT EMBEDDING;Cf;0;RLE",
    )?)
}

/// Mirrors of which one has another width, and one is no scalar value.
fn mirrors(alloc: Global) -> Result<Mirrors, Fail> {
    Ok(Mirrors::read(alloc, b"0028; 0029\n003C; FF1E\n005B; D800")?)
}

/// The data of these classes and mirrors, with or without arrows for controls.
fn worked_data(alloc: Global, ctl_arrow: bool) -> Result<Data, Fail> {
    let classes = classes(alloc)?;
    let mirrors = mirrors(alloc)?;
    Ok(Data {
        settings: settings(ctl_arrow),
        classes,
        mirrors,
    })
}

/// Characters that are shown as texts.
const SPELLED: [(&'static str, char, &'static str); 4] = [
    ("the control NUL", '\u{0}', "^@"),
    ("the control DEL", '\u{7F}', "^?"),
    ("a C1 control", '\u{9F}', "\\237"),
    ("a bracket at an even level", '(', "("),
];

/// Characters that are shown as one blank column.
const BLANKS: [(&'static str, char); 4] = [
    ("a soft hyphen", '\u{AD}'),
    ("an embedding", '\u{202B}'),
    ("an Arabic letter mark", '\u{61C}'),
    ("a left-to-right mark", '\u{200E}'),
];

/// Asserts that each character of a table, which may stand at an odd level, is shown as the text beside it.
fn assert_spelled(
    rt: &impl Abort,
    alloc: Global,
    parts: &Parts,
    odd: bool,
    table: &[(&str, char, &str)],
) {
    for (name, c, text) in table {
        assert_of(rt, name, spells(alloc, parts, Ch::scalar(*c), odd, text));
    }
}

/// Asserts which characters are shown as one element.
fn assert_given(rt: &impl Abort, alloc: Global, parts: &Parts) {
    for (name, c) in &BLANKS {
        let blank = element(Extent::Fixed(1), Look::Blank);
        assert_of(rt, name, gives(alloc, parts, Ch::scalar(*c), blank));
    }
    let tab = element(Extent::Tab(8), Look::Blank);
    assert_of(rt, "a tab", gives(alloc, parts, Ch::scalar('\t'), tab));
    let mark = element(Extent::Fixed(1), Look::Glyph(marked(0x301)));
    assert_of(
        rt,
        "a mark, on a blank",
        gives(alloc, parts, Ch::scalar('\u{301}'), mark),
    );
    let wide = shown(0x4E2D, 2);
    assert_of(
        rt,
        "a character of two columns",
        gives(alloc, parts, Ch::scalar('\u{4E2D}'), wide),
    );
}

#[test]
fn characters_by_the_rules(rt: HostRuntime) -> Result<(), Fail> {
    let data = worked_data(rt.alloc(), true)?;
    let parts = data.parts(None);
    assert_spelled(&rt, rt.alloc(), &parts, false, &SPELLED);
    assert_of(
        &rt,
        "a raw byte",
        spells(rt.alloc(), &parts, raw(200), false, "\\310"),
    );
    assert_given(&rt, rt.alloc(), &parts);
    Ok(())
}

/// Characters at an odd level that are shown as texts.
const MIRRORED: [(&'static str, char, &'static str); 4] = [
    ("a bracket with a mirror", '(', ")"),
    ("a mirror of another width", '<', "<"),
    ("a mirror that is no scalar value", '[', "["),
    ("a letter", 'a', "a"),
];

#[test]
fn mirrors_at_an_odd_level(rt: HostRuntime) -> Result<(), Fail> {
    let data = worked_data(rt.alloc(), true)?;
    assert_spelled(&rt, rt.alloc(), &data.parts(None), true, &MIRRORED);
    Ok(())
}

/// A table with a mark for escapes.
fn marked_table(alloc: Global) -> Result<Table, Fail> {
    let escape = letter('!')?;
    let mut table = Table::new(alloc)?;
    table.put_slot(Slot::Escape, Some(escape));
    Ok(table)
}

/// Controls that are shown with the mark of that table.
const ESCAPED: [(&'static str, char, &'static str); 2] = [
    ("the control DEL without arrows", '\u{7F}', "!177"),
    ("a newline without arrows", '\n', "!012"),
];

#[test]
fn controls_without_arrows(rt: HostRuntime) -> Result<(), Fail> {
    let table = marked_table(rt.alloc())?;
    let data = worked_data(rt.alloc(), false)?;
    let parts = data.parts(Some(&table));
    assert_spelled(&rt, rt.alloc(), &parts, false, &ESCAPED);
    assert_of(
        &rt,
        "the first raw byte without arrows",
        spells(rt.alloc(), &parts, raw(128), false, "!200"),
    );
    Ok(())
}

/// Adds entries: nothing for a tab, two letters for an x, and two entries for a y.
fn put_entries(table: &mut Table) -> Result<(), Fail> {
    table.put_entry('\t' as u32, &[])?;
    table.put_entry('x' as u32, &[letter('a')?, letter('b')?])?;
    table.put_entry('y' as u32, &[letter('c')?])?;
    table.put_entry('y' as u32, &[letter('d')?])?;
    Ok(())
}

/// A table with those entries.
fn table_of_entries(alloc: Global) -> Result<Table, Fail> {
    let mut table = Table::new(alloc)?;
    put_entries(&mut table)?;
    Ok(table)
}

/// Characters that are shown by that table.
const ENTRIES: [(&'static str, char, &'static str); 4] = [
    ("an empty entry", '\t', ""),
    ("an entry of two letters", 'x', "ab"),
    ("the later of two entries", 'y', "d"),
    ("no entry", 'z', "z"),
];

#[test]
fn characters_by_the_entries_of_a_table(rt: HostRuntime) -> Result<(), Fail> {
    let table = table_of_entries(rt.alloc())?;
    let data = worked_data(rt.alloc(), true)?;
    assert_spelled(&rt, rt.alloc(), &data.parts(Some(&table)), false, &ENTRIES);
    Ok(())
}

/// The letter e with six marks.
pub fn heavy() -> Glyph {
    Glyph {
        marks: [0x301; 6],
        count: 6,
        ..Glyph::single('e' as u32, 1)
    }
}

/// Two marks on a blank.
pub fn twice_marked() -> Glyph {
    Glyph {
        marks: [0x301, 0x301, 0, 0, 0, 0],
        count: 2,
        ..Glyph::single(32, 1)
    }
}

/// The cell that a sign stands for: a letter with six marks for `e`, one mark or two on a blank for `'` and `"`, a character of two
/// columns for `W`, its second column for `.`, and for others the sign itself.
fn cell(sign: char) -> Cell {
    match sign {
        ' ' => Cell::Blank(RED),
        '.' => Cell::Rest,
        'W' => Cell::First(Glyph::single(0x4E2D, 2), RED),
        'e' => Cell::First(heavy(), RED),
        '\'' => Cell::First(marked(0x301), RED),
        '"' => Cell::First(twice_marked(), RED),
        _ => Cell::First(Glyph::single(sign as u32, 1), RED),
    }
}

/// Whether cells are those that signs stand for.
fn are_cells(cells: &[Cell], signs: &str) -> bool {
    let mut i = 0;
    for sign in signs.chars() {
        if i >= cells.len() || cells[i] != cell(sign) {
            return false;
        }
        i += 1;
    }
    i == cells.len()
}

/// Whether characters are this plain line in so many columns.
fn lines_up(alloc: Global, text: &[Ch], classes: &Classes, width: u32, signs: &str) -> bool {
    match plain_line(alloc, text, classes, RED, width) {
        Ok(cells) => are_cells(cells.as_slice(), signs),
        Err(_) => false,
    }
}

/// Whether a text is this plain line in so many columns.
fn is_line(alloc: Global, text: &str, classes: &Classes, width: u32, signs: &str) -> bool {
    match characters(alloc, text) {
        Ok(list) => lines_up(alloc, list.as_slice(), classes, width, signs),
        Err(_) => false,
    }
}

/// Asserts that each text of a table is the plain line beside it.
fn assert_lines(rt: &impl Abort, alloc: Global, classes: &Classes, table: &[PlainLine]) {
    for line in table {
        let shown = is_line(alloc, line.text, classes, line.width, line.signs);
        assert_of(rt, line.name, shown);
    }
}

/// A text by what it is about, and its plain line in so many columns.
struct PlainLine {
    name: &'static str,
    text: &'static str,
    width: u32,
    signs: &'static str,
}

const LINES: [PlainLine; 6] = [
    PlainLine {
        name: "no text",
        text: "",
        width: 2,
        signs: "  ",
    },
    PlainLine {
        name: "a tab at the end",
        text: "h \t",
        width: 5,
        signs: "h ^I ",
    },
    PlainLine {
        name: "a newline",
        text: "\n",
        width: 2,
        signs: "^J",
    },
    PlainLine {
        name: "a wide character that fits",
        text: "a\u{4E2D}b",
        width: 4,
        signs: "aW.b",
    },
    PlainLine {
        name: "a wide character that does not fit",
        text: "a\u{4E2D}b",
        width: 2,
        signs: "a ",
    },
    PlainLine {
        name: "no column",
        text: "a",
        width: 0,
        signs: "",
    },
];

#[test]
fn plain_lines(rt: HostRuntime) -> Result<(), Fail> {
    let classes = classes(rt.alloc())?;
    assert_lines(&rt, rt.alloc(), &classes, &LINES);
    Ok(())
}

/// Texts with marks, and their plain lines.
const MARKED_LINES: [PlainLine; 4] = [
    PlainLine {
        name: "seven marks behind a letter",
        text: "e\u{301}\u{301}\u{301}\u{301}\u{301}\u{301}\u{301}",
        width: 2,
        signs: "e'",
    },
    PlainLine {
        name: "eight marks behind a letter",
        text: "e\u{301}\u{301}\u{301}\u{301}\u{301}\u{301}\u{301}\u{301}",
        width: 3,
        signs: "e\" ",
    },
    PlainLine {
        name: "a mark alone",
        text: "\u{301}",
        width: 2,
        signs: "' ",
    },
    PlainLine {
        name: "a mark behind a soft hyphen",
        text: "\u{AD}\u{301}",
        width: 2,
        signs: " '",
    },
];

#[test]
fn marks_in_plain_lines(rt: HostRuntime) -> Result<(), Fail> {
    let classes = classes(rt.alloc())?;
    assert_lines(&rt, rt.alloc(), &classes, &MARKED_LINES);
    let byte = [raw(200), Ch::scalar('\u{301}')];
    assert_of(
        &rt,
        "a mark behind a raw byte",
        lines_up(rt.alloc(), &byte, &classes, 6, "\\310' "),
    );
    Ok(())
}
