//! The words of a command line, and the data files that they name.
use crate::claims::assert_of;
use rd_base::{Ch, Class};
use rd_files::{BadFile, DataFault, DataFile, DataFiles, DataKind, read_data};
use rd_io::MemFiles;
use rd_ucd::UcdFault;
use rd_words::{Words, WordsFault, read_words};
use std::alloc::{AllocError, Global};
use std::process::Abort;
use std::test::Fail;

/// Words that name two files, and what they say.
const PLAIN: Words<'static> = Words {
    class_file: "D",
    mirror_file: "M",
    bracket_file: None,
    generate: None,
    dumps: false,
};

/// What words say.
type Said = Result<Words<'static>, WordsFault>;

/// What words say that are refused.
const USAGE: Said = Err(WordsFault::Usage);

/// The words of command lines, and what they say.
const LINES: [(&'static str, &'static str, Said); 9] = [
    ("both files", "--data D --mirror M", Ok(PLAIN)),
    ("equals signs", "--mirror=M --data=D --", Ok(PLAIN)),
    (
        "all words",
        "--dump --generate 2147483647 --data D --brackets=B --mirror M",
        Ok(Words {
            bracket_file: Some("B"),
            generate: Some(2_147_483_647),
            dumps: true,
            ..PLAIN
        }),
    ),
    ("one file", "--data D", USAGE),
    ("the help", "--data D --mirror M --help", USAGE),
    ("a file twice", "--data D --mirror M --data D", USAGE),
    (
        "too great a number",
        "--data D --mirror M --generate 2147483648",
        USAGE,
    ),
    ("a flag's value", "--data D --mirror M --dump=true", USAGE),
    ("a word alone", "--data D --mirror M script", USAGE),
];

/// Adds the words of a line.
fn add_words(words: &mut Vec<String>, alloc: Global, line: &str) -> Result<(), AllocError> {
    for word in line.split_whitespace() {
        words.push(String::from_str(alloc, word)?)?;
    }
    Ok(())
}

/// Whether the words of a line say this.
fn say(alloc: Global, line: &str, answer: &Result<Words, WordsFault>) -> bool {
    let mut words = Vec::new(alloc);
    match add_words(&mut words, alloc, line) {
        Ok(()) => read_words(alloc, words.as_slice()) == *answer,
        Err(_) => false,
    }
}

#[test]
fn words_are_read(rt: HostRuntime) {
    for (name, line, answer) in &LINES {
        assert_of(&rt, name, say(rt.alloc(), line, answer));
    }
}

/// A file of a name.
fn file(alloc: Global, name: &str, bytes: &[u8]) -> Result<(String, Vec<u8>), AllocError> {
    let bytes = Vec::from_slice(alloc, bytes)?;
    Ok((String::from_str(alloc, name)?, bytes))
}

/// Adds a file, where it is given.
fn add(
    files: &mut Vec<(String, Vec<u8>)>,
    alloc: Global,
    name: &str,
    bytes: Option<&[u8]>,
) -> Result<(), AllocError> {
    match bytes {
        Some(bytes) => Ok(files.push(file(alloc, name, bytes)?)?),
        None => Ok(()),
    }
}

/// Adds a class file `D`, and where they are given a mirror file `M` and a bracket file `B`.
fn add_all(
    files: &mut Vec<(String, Vec<u8>)>,
    alloc: Global,
    classes: &[u8],
    mirrors: Option<&[u8]>,
    brackets: Option<&[u8]>,
) -> Result<(), AllocError> {
    add(files, alloc, "D", Some(classes))?;
    add(files, alloc, "M", mirrors)?;
    add(files, alloc, "B", brackets)
}

/// A class file, and where they are given a mirror file and a bracket file, in memory.
fn files_of(
    alloc: Global,
    classes: &[u8],
    mirrors: Option<&[u8]>,
    brackets: Option<&[u8]>,
) -> Result<MemFiles, AllocError> {
    let mut files = Vec::new(alloc);
    add_all(&mut files, alloc, classes, mirrors, brackets)?;
    Ok(MemFiles::new(files))
}

/// Whether data files have this fault, where the bracket file is read if its name is given.
fn have_fault(
    alloc: Global,
    files: Result<MemFiles, AllocError>,
    bracket_file: Option<&str>,
    fault: DataFault,
) -> bool {
    match files {
        Ok(mut files) => is_refused(alloc, &mut files, bracket_file, fault),
        Err(_) => false,
    }
}

/// Whether files that were made have this fault, where the bracket file is read if its name is given.
fn is_refused(
    alloc: Global,
    files: &mut MemFiles,
    bracket_file: Option<&str>,
    fault: DataFault,
) -> bool {
    match read_data(alloc, files, "D", "M", bracket_file) {
        Ok(_) => false,
        Err(found) => found == fault,
    }
}

/// A data file with a bad line.
fn bad(file: DataFile, line: u32, fault: UcdFault) -> DataFault {
    DataFault::Bad(BadFile {
        file,
        line,
        kind: DataKind::Bad(fault),
    })
}

#[test]
fn data_files_are_read_in_order(rt: HostRuntime) {
    let alloc = rt.alloc();
    let all_bad = files_of(alloc, b"0041;A;Lu;0", Some(b"x"), Some(b"x"));
    let fault = bad(DataFile::ClassFile, 1, UcdFault::BadLine(1));
    assert_of(
        &rt,
        "three bad files, of which the class file is read first",
        have_fault(alloc, all_bad, Some("B"), fault),
    );
    let no_mirrors = files_of(alloc, b"\n0041;A;Lu;0;X", None, None);
    let fault = bad(DataFile::ClassFile, 2, UcdFault::BadClass(2));
    assert_of(
        &rt,
        "a bad class file and no mirror file",
        have_fault(alloc, no_mirrors, None, fault),
    );
    let missing = files_of(alloc, b"", None, Some(b"x"));
    assert_of(
        &rt,
        "no mirror file and a bad bracket file",
        have_fault(alloc, missing, Some("B"), DataFault::Read),
    );
    let bad_mirrors = files_of(alloc, b"", Some(b"0028; 29"), Some(b"x"));
    let fault = bad(DataFile::MirrorFile, 1, UcdFault::BadCode(1));
    assert_of(
        &rt,
        "a bad mirror file and a bad bracket file",
        have_fault(alloc, bad_mirrors, Some("B"), fault),
    );
    let bad_brackets = files_of(alloc, b"", Some(b""), Some(b"0028; 0029; x"));
    let fault = bad(DataFile::BracketFile, 1, UcdFault::BadClass(1));
    assert_of(
        &rt,
        "a bad bracket file alone",
        have_fault(alloc, bad_brackets, Some("B"), fault),
    );
}

/// Data files that are good.
fn good_files(alloc: Global) -> Result<MemFiles, AllocError> {
    files_of(
        alloc,
        b"05D0;ALEF;Lo;0;R",
        Some(b"0028; 0029"),
        Some(b"0028; 0029; o"),
    )
}

/// What files stand for, where they are good.
fn data_of(
    alloc: Global,
    files: &mut MemFiles,
    bracket_file: Option<&str>,
) -> Result<DataFiles, Fail> {
    match read_data(alloc, files, "D", "M", bracket_file) {
        Ok(data) => Ok(data),
        Err(_) => Err(Fail::from("they were not read")),
    }
}

/// Asserts what the good files say together.
fn assert_all(rt: &impl Abort, alloc: Global, files: &mut MemFiles) -> Result<(), Fail> {
    let data = data_of(alloc, files, Some("B"))?;
    assert!(rt; data.classes.class(Ch::scalar('\u{5d0}')) == Class::R);
    assert!(rt; data.mirrors.mirror(40) == Some(41));
    assert!(rt; data.brackets.bracket(40).is_some());
    Ok(())
}

/// Asserts what they say without the bracket file.
fn assert_no_bracket(rt: &impl Abort, alloc: Global, files: &mut MemFiles) -> Result<(), Fail> {
    let data = data_of(alloc, files, None)?;
    assert!(rt; data.brackets.bracket(40).is_none());
    Ok(())
}

#[test]
fn good_data_files_are_read(rt: HostRuntime) -> Result<(), Fail> {
    let mut files = good_files(rt.alloc())?;
    assert_all(&rt, rt.alloc(), &mut files)?;
    assert_no_bracket(&rt, rt.alloc(), &mut files)
}

/// A class file that is too large.
const TOO_LARGE: DataFault = DataFault::Bad(BadFile {
    file: DataFile::ClassFile,
    line: 0,
    kind: DataKind::TooLarge,
});

#[test]
fn a_file_that_is_too_large_has_line_0(rt: HostRuntime) -> Result<(), Fail> {
    let large = Vec::from_elem(rt.alloc(), 10, 8_388_609)?;
    let files = files_of(rt.alloc(), large.as_slice(), None, None);
    assert!(rt; have_fault(rt.alloc(), files, None, TOO_LARGE));
    Ok(())
}
