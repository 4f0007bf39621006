//! The generated script.
use crate::claims::assert_of;
use rd_base::{ListOf, Memory};
use rd_generate::generated;
use rd_script::{Op, read_op};
use std::alloc::Global;
use std::test::Fail;

/// How many characters an op puts in, and whether it shows the frame.
fn weight(op: &Op) -> (usize, bool) {
    match op {
        Op::Insert { text, .. } | Op::TypeText { text } => (text.len(), false),
        Op::Redisplay { .. } => (0, true),
        _ => (0, false),
    }
}

/// How many lines, redisplays and characters a script has, and None where a line is no op.
fn counted(alloc: Global, lines: &[ListOf<u8>]) -> Option<(usize, usize, usize)> {
    let mut characters: usize = 0;
    let mut redisplays: usize = 0;
    for line in lines {
        match read_op(alloc, line.as_slice()) {
            Ok(op) => {
                let (some, shows) = weight(&op);
                characters = characters.saturating_add(some);
                redisplays = redisplays.saturating_add(shows as usize);
            }
            Err(_fault) => return None,
        }
    }
    Some((lines.len(), redisplays, characters))
}

/// Whether the generated script of a number has 605 lines, 301 redisplays and 75,220 characters.
fn is_whole(alloc: Global, number: u32) -> Result<bool, Memory> {
    let lines = generated(alloc, number)?;
    Ok(counted(alloc, lines.as_slice()) == Some((605, 301, 75_220)))
}

#[test]
fn the_script_of_seven_has_605_lines(rt: HostRuntime) -> Result<(), Fail> {
    assert_of(&rt, "the script of 7", is_whole(rt.alloc(), 7)?);
    assert_of(
        &rt,
        "the script of the greatest number",
        is_whole(rt.alloc(), 2_147_483_647)?,
    );
    Ok(())
}
