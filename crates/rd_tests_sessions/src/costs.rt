//! How many steps redisplays take, by their counters. The rule is the allowance of docs/RULES.md, "Rows that are used again": a window that
//! rests is allowed no step, and any other three times the elements of the lines near its view that do not keep their rows, where the end
//! of a line is an element too. A counter takes no bytes, so no run can read it: by how much it rises in a worked session is told by the
//! clauses of the session's `are_shown`, whatever the screen is and also where memory is wanting, and the tests show that the redisplays
//! are made. Each redisplay has a counter of its own. Positions count from 1.
ghost use Rattle.std.specs.Prelude.{◌≡◌, ◌<◌, [], Ok};
ghost use Rattle.rd_layout.specs.Copies.{without_copies};
ghost use Rattle.rd_layout.specs.Examples.{after};

mod three_lines;
mod turning;
mod two_windows;

use crate::sessions::opening;
use rd_base::Steps;
use rd_io::{MemSink, Sink};
use rd_session::Session;
use std::alloc::Global;
use std::marker::Brand;
use std::sync::ledger::{Blank, Ledger};
use std::test::Fail;

/// A worked session.
#[derive(Clone, Copy)]
enum Worked {
    ThreeLines,
    Turning,
    TwoWindows,
}

/// Goes through a worked session from the opening on, and answers whether all its redisplays were shown.
fn are_shown<K: Sink, F: Ledger, S: Ledger, T: Ledger>(
    worked: Worked,
    alloc: Global,
    session: &mut Session,
    screen: &mut K,
    first: &mut Steps<F>,
    second: &mut Steps<S>,
    third: &mut Steps<T>,
) -> Result<bool, Fail>
    requires { after [] ≡ Ok (without_copies session.old) }
{
    match worked {
        Worked::ThreeLines => {
            three_lines::are_shown(alloc, session, screen, first, second, third)
        }
        Worked::Turning => turning::are_shown(alloc, session, screen, first, second),
        Worked::TwoWindows => two_windows::are_shown(alloc, session, screen, first, second),
    }
}

/// Room that is enough for the bytes of a worked session.
const AMPLE: u64 = 1_024;

/// Goes through a worked session, with a counter on each of three new ledgers.
fn are_shown_on<F: Ledger, S: Ledger, T: Ledger>(
    worked: Worked,
    alloc: Global,
    first: Blank,
    second: Blank,
    third: Blank,
) -> Result<bool, Fail>
    requires first_name { first.name ≡ F.name }
    requires first_parts { first.parts ≡ F.parts }
    requires first_some { 0 < F.parts }
    requires second_name { second.name ≡ S.name }
    requires second_parts { second.parts ≡ S.parts }
    requires second_some { 0 < S.parts }
    requires third_name { third.name ≡ T.name }
    requires third_parts { third.parts ≡ T.parts }
    requires third_some { 0 < T.parts }
{
    let mut screen = MemSink::with_room(alloc, AMPLE)?;
    let mut session = opening(alloc)?;
    let mut first = Steps::<F>::new(first);
    let mut second = Steps::<S>::new(second);
    let mut third = Steps::<T>::new(third);
    are_shown(
        worked,
        alloc,
        &mut session,
        &mut screen,
        &mut first,
        &mut second,
        &mut third,
    )
}

/// Whether all redisplays of a worked session are shown, where there is room and memory for them.
fn all_are_shown(alloc: Global, worked: Worked) -> Result<bool, Fail> {
    are_shown_on::<Brand, Brand, Brand>(worked, alloc, Blank::new(1), Blank::new(1), Blank::new(1))
}

#[test]
fn rows_that_are_kept_take_no_step(rt: HostRuntime) -> Result<(), Fail> {
    assert!(rt; all_are_shown(rt.alloc(), Worked::ThreeLines)?);
    Ok(())
}

#[test]
fn a_paragraph_that_turns_is_laid_out_anew(rt: HostRuntime) -> Result<(), Fail> {
    assert!(rt; all_are_shown(rt.alloc(), Worked::Turning)?);
    Ok(())
}

#[test]
fn rows_that_move_with_the_text_take_no_step(rt: HostRuntime) -> Result<(), Fail> {
    assert!(rt; all_are_shown(rt.alloc(), Worked::TwoWindows)?);
    Ok(())
}
