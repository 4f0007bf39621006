//! Base levels of three paragraphs.
use crate::claims::assert_of;
use rd_base::{Ch, Direction};
use rd_para::{base_level, next_line, paragraph_at};
use rd_text::Buffer;
use rd_ucd::Classes;
use std::test::Fail;

/// The class file of small scripts.
const CLASSES: &[u8] = b"\
    0000;<control>;Cc;0;BN\n\
    0009;<control>;Cc;0;S\n\
    000A;<control>;Cc;0;B\n\
    0020;SPACE;Zs;0;WS\n\
    0028;LEFT PARENTHESIS;Ps;0;ON\n\
    0029;RIGHT PARENTHESIS;Pe;0;ON\n\
    0030;<Digit, First>;Nd;0;EN\n\
    0039;<Digit, Last>;Nd;0;EN\n\
    05D0;<Hebrew, First>;Lo;0;R\n\
    05EA;<Hebrew, Last>;Lo;0;R\n";

#[test]
fn paragraphs_have_their_levels(rt: HostRuntime) -> Result<(), Fail> {
    let classes = Classes::read(rt.alloc(), CLASSES)?;
    let mut text = Buffer::new(rt.alloc())?;
    let chars = [
        Ch::scalar('1'),
        Ch::scalar('2'),
        Ch::scalar('\n'),
        Ch::scalar('\u{5D0}'),
        Ch::scalar('\n'),
        Ch::scalar('\n'),
        Ch::scalar('a'),
    ];
    text.insert(1, &chars)?;
    assert!(rt; text.begin() == 1);
    assert!(rt; text.end() == 8);
    assert_of(
        &rt,
        "a digit before the first strong character",
        base_level(&text, &classes, Direction::Auto, 1) == 1,
    );
    assert_of(
        &rt,
        "the first strong character, on the second line",
        base_level(&text, &classes, Direction::Auto, 4) == 1,
    );
    assert_of(
        &rt,
        "the blank line behind the paragraph",
        base_level(&text, &classes, Direction::Auto, 6) == 1,
    );
    assert_of(
        &rt,
        "the paragraph behind the blank line",
        base_level(&text, &classes, Direction::Auto, 7) == 0,
    );
    assert_of(
        &rt,
        "that paragraph where the direction is right-to-left",
        base_level(&text, &classes, Direction::Right, 7) == 1,
    );
    let known = paragraph_at(&text, &classes, 4);
    assert!(rt; (known.from, known.to, known.base) == (1, 5, 1));
    assert!(rt; known.to < text.end());
    let blank = next_line(&text, &classes, &known);
    assert!(rt; (blank.from, blank.to, blank.base) == (1, 6, 1));
    assert!(rt; blank.to < text.end());
    let last = next_line(&text, &classes, &blank);
    assert!(rt; (last.from, last.to, last.base) == (7, 8, 0));
    Ok(())
}
