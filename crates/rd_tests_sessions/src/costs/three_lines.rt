//! Three lines of a letter each, which are shown, shown again, and shown with a letter more in the last line.
ghost use Rattle.std.specs.Prelude.{◌≡◌, ◌≤◌, ◌+◌, [], Ok, OnOk};
ghost use Rattle.rd_layout.specs.Copies.{without_copies};
ghost use Rattle.rd_layout.specs.Examples.{after, after_all};
ghost use Rattle.rd_tests_sessions.specs.Examples.{three_lines};

use crate::sessions::{apply, insert, is_shown};
use rd_base::Steps;
use rd_io::Sink;
use rd_script::Op;
use rd_session::Session;
use rd_state::Refused;
use std::alloc::Global;
use std::sync::ledger::Ledger;
use std::test::Fail;

/// Makes the lines.
fn make_lines(alloc: Global, session: &mut Session) -> Result<(), Refused>
    ensures { OnOk result (after_all (Ok (without_copies session.old)) three_lines ≡ Ok (without_copies session.new)) }
{
    apply(
        session,
        Op::Frame {
            width: 12,
            height: 4,
        },
    )?;
    insert(alloc, session, 1, b"a\nb\nc")
}

/// The first redisplay lays out three lines of two elements each: it takes 18 steps at most. The second shows what is shown already, and
/// takes none. Before the third the last line gets a letter more: the other two keep their rows, and the three elements of the last one
/// take 9 steps at most. The answer is whether all three were shown.
pub fn are_shown<K: Sink, F: Ledger, S: Ledger, T: Ledger>(
    alloc: Global,
    session: &mut Session,
    screen: &mut K,
    first: &mut Steps<F>,
    second: &mut Steps<S>,
    third: &mut Steps<T>,
) -> Result<bool, Fail>
    requires { after [] ≡ Ok (without_copies session.old) }
    ensures first { first.new ≤ first.old + 18 }
    ensures second { second.new ≤ second.old }
    ensures third { third.new ≤ third.old + 9 }
{
    make_lines(alloc, session)?;
    if !is_shown(session, screen, first) {
        return Ok(false);
    }
    if !is_shown(session, screen, second) {
        return Ok(false);
    }
    insert(alloc, session, 5, b"x")?;
    Ok(is_shown(session, screen, third))
}
