//! Small data files and what they answer.
use crate::claims::assert_of;
use rd_base::{Ch, Class};
use rd_ucd::{Bracket, Brackets, Classes, Mirrors, UcdFault};
use std::alloc::Global;

/// The fault of a class file.
fn class_fault(alloc: Global, bytes: &[u8]) -> Option<UcdFault> {
    match Classes::read(alloc, bytes) {
        Ok(_) => None,
        Err(fault) => Some(fault),
    }
}

/// The fault of a mirror file.
fn mirror_fault(alloc: Global, bytes: &[u8]) -> Option<UcdFault> {
    match Mirrors::read(alloc, bytes) {
        Ok(_) => None,
        Err(fault) => Some(fault),
    }
}

/// The fault of a bracket file.
fn bracket_fault(alloc: Global, bytes: &[u8]) -> Option<UcdFault> {
    match Brackets::read(alloc, bytes) {
        Ok(_) => None,
        Err(fault) => Some(fault),
    }
}

/// Class files, and their faults.
const CLASS_FILES: [(&'static str, &'static [u8], Option<UcdFault>); 11] = [
    ("no line", b"", None),
    ("four fields", b"0041;A;Lu;0", Some(UcdFault::BadLine(1))),
    (
        "a code of two digits",
        b"41;A;Lu;0;L",
        Some(UcdFault::BadCode(1)),
    ),
    (
        "an unknown class",
        b"0041;A;Lu;0;X",
        Some(UcdFault::BadClass(1)),
    ),
    (
        "a range without its last line",
        b"0041;<A, First>;Lu;0;L",
        Some(UcdFault::BadRange(1)),
    ),
    (
        "codes that descend",
        b"0041;A;Lu;0;L\n0040;B;Lu;0;L\n",
        Some(UcdFault::NotAscending(2)),
    ),
    (
        "two classes in one range",
        b"\r\n\n0041;<A, First>;Lu;0;L\n0042;<A, Last>;Lu;0;R",
        Some(UcdFault::BadRange(4)),
    ),
    (
        "a plain line in the place of a range's last",
        b"0041;<A, First>;Lu;0;L\n0042;B;Lu;0;L",
        Some(UcdFault::BadRange(2)),
    ),
    (
        "a range without its first line",
        b"0041;<A, Last>;Lu;0;L",
        Some(UcdFault::BadRange(1)),
    ),
    (
        "a bad line in the place of a range's last",
        b"0041;<A, First>;Lu;0;L\n\nx",
        Some(UcdFault::BadLine(3)),
    ),
    (
        "a code above the last",
        b"110000;A;Lu;0;L",
        Some(UcdFault::BadCode(1)),
    ),
];

#[test]
fn faults_of_class_files(rt: HostRuntime) {
    for (name, bytes, fault) in &CLASS_FILES {
        assert_of(&rt, name, class_fault(rt.alloc(), bytes) == *fault);
    }
}

/// Mirror files, and their faults.
const MIRROR_FILES: [(&'static str, &'static [u8], Option<UcdFault>); 7] = [
    ("no line", b"", None),
    ("comments and blanks", b"# nothing\n \t\n\r\n", None),
    ("two entries", b"0028; 0029 # LEFT\n0029;0028\r\n", None),
    ("one field", b"0028", Some(UcdFault::BadLine(1))),
    (
        "three fields",
        b"0028; 0029; 002A",
        Some(UcdFault::BadLine(1)),
    ),
    (
        "a code of two digits",
        b"0028; 29",
        Some(UcdFault::BadCode(1)),
    ),
    (
        "a code that stands twice",
        b"0028; 0029\n#\n0028; 0029",
        Some(UcdFault::NotAscending(3)),
    ),
];

#[test]
fn faults_of_mirror_files(rt: HostRuntime) {
    for (name, bytes, fault) in &MIRROR_FILES {
        assert_of(&rt, name, mirror_fault(rt.alloc(), bytes) == *fault);
    }
}

/// Bracket files, and their faults.
const BRACKET_FILES: [(&'static str, &'static [u8], Option<UcdFault>); 8] = [
    ("no line", b"", None),
    ("comments and blanks", b"# nothing\n \t\n\r\n", None),
    (
        "two entries",
        b"0028; 0029; o # LEFT\n0029;0028;c\r\n",
        None,
    ),
    (
        "an unknown type",
        b"0028; 0029; x",
        Some(UcdFault::BadClass(1)),
    ),
    ("two fields", b"0028; 0029", Some(UcdFault::BadLine(1))),
    (
        "four fields",
        b"0028; 0029; o; c",
        Some(UcdFault::BadLine(1)),
    ),
    (
        "a code of two digits",
        b"0028; 29; x",
        Some(UcdFault::BadCode(1)),
    ),
    (
        "a code that stands twice",
        b"0028; 0029; o\n#\n0028; 0029; o",
        Some(UcdFault::NotAscending(3)),
    ),
];

#[test]
fn faults_of_bracket_files(rt: HostRuntime) {
    for (name, bytes, fault) in &BRACKET_FILES {
        assert_of(&rt, name, bracket_fault(rt.alloc(), bytes) == *fault);
    }
}

/// A class file of two controls and a range.
const CLASSES: &'static [u8] = b"\
    0000;<control>;Cc;0;BN\n\
    0009;<control>;Cc;0;S\n\
    05D0;<Hebrew, First>;Lo;0;R\r\n\
    05EA;<Hebrew, Last>;Lo;0;R";

/// Whether that file gives a character this class.
fn has_class(alloc: Global, c: char, class: Class) -> bool {
    match Classes::read(alloc, CLASSES) {
        Ok(classes) => classes.class(Ch::scalar(c)) == class,
        Err(_) => false,
    }
}

/// Whether the file of two mirrored characters gives a code this one.
fn has_mirror(alloc: Global, code: u32, mirror: Option<u32>) -> bool {
    match Mirrors::read(alloc, b"0028; 0029\n0029; 0028") {
        Ok(mirrors) => mirrors.mirror(code) == mirror,
        Err(_) => false,
    }
}

/// Whether the file of two brackets says this of a code.
fn has_bracket(alloc: Global, code: u32, bracket: Option<Bracket>) -> bool {
    match Brackets::read(alloc, b"0028; 0029; o\n0029; 0028; c") {
        Ok(brackets) => brackets.bracket(code) == bracket,
        Err(_) => false,
    }
}

#[test]
fn files_are_looked_up(rt: HostRuntime) {
    let alloc = rt.alloc();
    assert_of(
        &rt,
        "the class of a character that is listed",
        has_class(alloc, '\t', Class::S),
    );
    assert_of(
        &rt,
        "the class of a character that is not listed",
        has_class(alloc, 'a', Class::L),
    );
    assert_of(
        &rt,
        "the class of a range's first character",
        has_class(alloc, '\u{5D0}', Class::R),
    );
    assert_of(
        &rt,
        "the class of a character within a range",
        has_class(alloc, '\u{5E0}', Class::R),
    );
    assert_of(
        &rt,
        "the class of the character behind a range",
        has_class(alloc, '\u{5EB}', Class::L),
    );
    assert_of(
        &rt,
        "the mirror of a left parenthesis",
        has_mirror(alloc, 0x28, Some(0x29)),
    );
    assert_of(
        &rt,
        "the mirror of a right parenthesis",
        has_mirror(alloc, 0x29, Some(0x28)),
    );
    assert_of(
        &rt,
        "an asterisk, which has no mirror",
        has_mirror(alloc, 0x2A, None),
    );
    assert_of(
        &rt,
        "a bracket that opens",
        has_bracket(alloc, 0x28, Some(Bracket::Opens(0x29))),
    );
    assert_of(
        &rt,
        "a bracket that closes",
        has_bracket(alloc, 0x29, Some(Bracket::Closes(0x28))),
    );
    assert_of(
        &rt,
        "an asterisk, which is no bracket",
        has_bracket(alloc, 0x2A, None),
    );
}
