//! Objects with ample memory.
ghost use Rattle.std.specs.Prelude.{IfOk, IsTrue};
ghost use Rattle.rd_objects.specs.Tables.{is_slot_glyph};

use crate::claims::assert_of;
use rd_base::{Ch, Face, Glyph};
use rd_objects::{ObjectFault, Objects, Run, RunKind, Slot, Spec, Table, Text, glyph_character};
use std::alloc::Global;
use std::process::Abort;
use std::test::Fail;

/// The glyph character of a scalar value of one column.
fn narrow(c: char) -> Result<Glyph, Fail>
    ensures { IfOk result (λ g. IsTrue (is_slot_glyph g)) }
{
    if let Some(glyph) = glyph_character(c) {
        if glyph.width == 1 {
            return Ok(glyph);
        }
    }
    Err(Fail::new("no glyph character of one column"))
}

/// Scalar values, and the columns of their glyph characters, where they have one.
const COLUMNS: [(&'static str, char, Option<u8>); 7] = [
    ("a letter", 'a', Some(1)),
    ("a no-break space", '\u{A0}', Some(1)),
    ("a character of two columns", '\u{4E2D}', Some(2)),
    ("a mark", '\u{301}', None),
    ("a tab", '\t', None),
    ("the control DEL", '\u{7F}', None),
    ("a C1 control", '\u{9F}', None),
];

/// Whether a scalar value has a glyph character of so many columns, or none.
fn has_columns(c: char, columns: Option<u8>) -> bool {
    match columns {
        Some(width) => glyph_character(c) == Some(Glyph::single(c as u32, width)),
        None => glyph_character(c).is_none(),
    }
}

#[test]
fn glyph_characters_by_their_columns(rt: HostRuntime) {
    for (name, c, columns) in &COLUMNS {
        assert_of(&rt, name, has_columns(*c, *columns));
    }
}

/// Whether a text was put, and is a letter of one column.
fn is_letter(text: Option<&[Glyph]>, code: u32) -> bool {
    match text {
        Some(text) => text == [Glyph::single(code, 1)].as_slice(),
        None => false,
    }
}

/// Asserts that of the texts of a code the last one counts.
fn assert_texts(rt: &impl Abort, table: &mut Table) -> Result<(), Fail> {
    assert!(rt; table.entry(97).is_none());
    table.put_entry(97, &[narrow('b')?, narrow('c')?])?;
    table.put_entry(98, &[])?;
    table.put_entry(97, &[narrow('x')?])?;
    assert!(rt; is_letter(table.entry(97), 120));
    assert!(rt; table.entry(97).is_some());
    Ok(())
}

/// Asserts that a slot and hidden text have what they were given.
fn assert_slots(rt: &impl Abort, table: &mut Table) -> Result<(), Fail> {
    table.put_slot(Slot::Border, Some(narrow('|')?));
    assert!(rt; table.slot(Slot::Border) == Some(Glyph::single(124, 1)));
    table.put_slot(Slot::Border, None);
    assert!(rt; table.slot(Slot::Border) == None);
    table.put_ellipsis(&[narrow('.')?])?;
    assert!(rt; table.ellipsis().is_some());
    Ok(())
}

#[test]
fn tables_hold_what_was_put_last(rt: HostRuntime) -> Result<(), Fail> {
    let mut table = Table::new(rt.alloc())?;
    assert_texts(&rt, &mut table)?;
    assert_slots(&rt, &mut table)
}

/// A face with a colour.
const RED: Face = Face {
    fg: 1,
    ..Face::PLAIN
};

/// The first face on two characters.
const RUN: Run = Run {
    from: 0,
    to: 2,
    kind: RunKind::Face,
    value: 0,
};

/// The first face on one character more.
const OUTSIDE: Run = Run { to: 3, ..RUN };

/// The second face on the second character.
const LATER: Run = Run {
    from: 1,
    value: 1,
    ..RUN
};

/// Asserts how strings of two characters are made, with two faces.
fn assert_strings(rt: &impl Abort, objects: &mut Objects) {
    let text = [Ch::scalar('a'), Ch::scalar('b')];
    assert!(rt; objects.add_string(&text, &[RUN]) == Err(ObjectFault::NoObject));
    assert!(rt; objects.add_face(RED) == Ok(0));
    assert!(rt; objects.add_face(Face::PLAIN) == Ok(1));
    assert!(rt; objects.add_string(&text, &[OUTSIDE]) == Err(ObjectFault::OutOfRange));
    assert!(rt; objects.add_string(&text, &[RUN, LATER]) == Ok(0));
}

/// Asserts what their first string has.
fn assert_string(rt: &impl Abort, string: &Text) {
    assert!(rt; string.len() == 2);
    assert!(rt; string.face(0) == RED);
    assert!(rt; string.face(1) == Face::PLAIN);
    assert!(rt; string.spec(1) == None);
}

/// Asserts how specs are made where there are one string and two faces.
fn assert_specs(rt: &impl Abort, objects: &mut Objects) {
    assert!(rt; objects.add_spec(Spec::Text(1)) == Err(ObjectFault::NoObject));
    assert!(rt; objects.add_spec(Spec::Text(0)) == Ok(0));
    assert!(rt; objects.spec(0) == Some(Spec::Text(0)));
    assert!(rt; objects.face(2) == None);
}

/// Adds an empty table.
fn add_table(objects: &mut Objects, alloc: Global) -> Result<u32, ObjectFault> {
    objects.add_table(Table::new(alloc)?)
}

#[test]
fn objects_are_numbered(rt: HostRuntime) -> Result<(), Fail> {
    let mut objects = Objects::new(rt.alloc())?;
    assert_strings(&rt, &mut objects);
    if let Some(string) = objects.string(0) {
        assert_string(&rt, string);
    }
    assert_specs(&rt, &mut objects);
    assert!(rt; add_table(&mut objects, rt.alloc()) == Ok(0));
    assert!(rt; objects.table(0).is_some());
    Ok(())
}

#[test]
fn nothing_where_nothing_was_put(rt: HostRuntime) -> Result<(), Fail> {
    let mut table = Table::new(rt.alloc())?;
    assert!(rt; table.ellipsis().is_none());
    assert!(rt; table.slot(Slot::Escape).is_none());
    assert!(rt; table.put_entry(98, &[]).is_ok());
    assert!(rt; table.entry(97).is_none());
    assert!(rt; table.entry(98).is_some());
    Ok(())
}

/// A face on a run that ends before it begins.
const TURNED: Run = Run {
    from: 2,
    to: 1,
    ..RUN
};

/// Asserts that a string is told its first fault.
fn assert_first_faults(rt: &impl Abort, objects: &mut Objects) {
    let long = [Ch::scalar('a'); 4097];
    assert!(rt; objects.add_string(&long, &[TURNED]) == Err(ObjectFault::NoObject));
    assert!(rt; objects.add_face(Face::PLAIN).is_ok());
    assert!(rt; objects.add_string(&long, &[TURNED]) == Err(ObjectFault::OutOfRange));
    assert!(rt; objects.add_string(&long, &[]) == Err(ObjectFault::TooLong));
}

/// Whether 64 tables are made.
fn makes_tables(objects: &mut Objects, alloc: Global) -> bool {
    for _k in 0..64 {
        if add_table(objects, alloc).is_err() {
            return false;
        }
    }
    true
}

/// Asserts that there are at most 64 tables.
fn assert_most_tables(rt: &impl Abort, objects: &mut Objects, alloc: Global) {
    assert!(rt; makes_tables(objects, alloc));
    assert!(rt; add_table(objects, alloc) == Err(ObjectFault::TooMany));
}

#[test]
fn refusals_in_their_order(rt: HostRuntime) -> Result<(), Fail> {
    let mut objects = Objects::new(rt.alloc())?;
    assert_first_faults(&rt, &mut objects);
    assert_most_tables(&rt, &mut objects, rt.alloc());
    Ok(())
}
