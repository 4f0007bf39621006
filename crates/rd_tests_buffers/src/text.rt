//! Texts that are edited at many places, with their lines and paragraphs.
use rd_base::Ch;
use rd_text::{Buffer, TextFault};
use std::test::Fail;

/// The characters of a text.
fn chars_of(rt: HostRuntime, text: &str) -> Result<Vec<Ch>, Fail> {
    let mut chars = Vec::new(rt.alloc());
    for c in text.chars() {
        chars.push(Ch::scalar(c))?;
    }
    Ok(chars)
}

#[test]
fn edits_and_lines(rt: HostRuntime) -> Result<(), Fail> {
    let mut text = Buffer::new(rt.alloc())?;
    let lines = chars_of(rt, "ab\ncd")?;
    assert!(rt; text.insert(1, lines.as_slice()) == Ok(()));
    assert!(rt; text.length() == 5);
    assert!(rt; (text.next_newline(1), text.next_newline(4)) == (3, 6));
    assert!(rt; (text.prev_newline(3), text.prev_newline(6)) == (1, 4));
    assert!(rt; (text.line_of(3), text.line_of(4)) == (1, 2));
    assert!(rt; text.narrow(2, 5) == Ok(()));
    assert!(rt; (text.begin(), text.end()) == (2, 5));
    assert!(rt; text.narrow(2, 7) == Err(TextFault::OutOfRange));
    assert!(rt; text.delete(1, 3) == Err(TextFault::OutOfRange));
    assert!(rt; text.delete(2, 4) == Ok(()));
    assert!(rt; (text.begin(), text.end()) == (2, 3));
    text.widen();
    assert!(rt; (text.begin(), text.end()) == (1, 4));
    assert!(rt; text.fetch(2) == Some(Ch::scalar('c')));
    assert!(rt; text.fetch(4) == None);
    Ok(())
}

#[test]
fn single_inserts_into_a_long_text(rt: HostRuntime) -> Result<(), Fail> {
    let mut text = Buffer::new(rt.alloc())?;
    let mut long = Vec::new(rt.alloc());
    long.resize(4_000_000, Ch::scalar('a'))?;
    text.insert(1, long.as_slice())?;
    for pos in 1..190_001u32 {
        text.insert(pos, &[Ch::scalar('b')])?;
    }
    assert!(rt; text.length() == 4_190_000);
    assert!(rt; text.fetch(190_000) == Some(Ch::scalar('b')));
    assert!(rt; text.fetch(190_001) == Some(Ch::scalar('a')));
    Ok(())
}

#[test]
fn paragraphs_begin_behind_blank_lines(rt: HostRuntime) -> Result<(), Fail> {
    let mut text = Buffer::new(rt.alloc())?;
    let lines = chars_of(rt, "one\n \t\ntwo\nmore\n\x0c\n\nlast")?;
    text.insert(1, lines.as_slice())?;
    assert!(rt; text.begin() == 1);
    assert!(rt; text.end() == 24);
    assert!(rt; (text.paragraph_start(2), text.paragraph_start(8)) == (1, 8));
    assert!(rt; (text.paragraph_start(14), text.paragraph_start(22)) == (8, 20));
    assert!(rt; (text.prev_ink(20), text.prev_ink(1)) == (16, 1));
    text.narrow(6, 22)?;
    assert!(rt; text.begin() == 6);
    assert!(rt; text.end() == 22);
    assert!(rt; (text.paragraph_start(7), text.paragraph_start(8)) == (6, 8));
    assert!(rt; text.prev_ink(7) == 6);
    Ok(())
}
