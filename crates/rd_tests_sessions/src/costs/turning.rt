//! Seven lines of which the sixth is empty, which are shown, and shown with a letter before them that is read from the right.
ghost use Rattle.std.specs.Prelude.{◌≡◌, ◌≤◌, ◌+◌, [], Ok, OnOk, take};
ghost use Rattle.rd_layout.specs.Copies.{without_copies};
ghost use Rattle.rd_layout.specs.Examples.{after, after_all, turning};

use crate::sessions::{apply, insert, is_shown};
use rd_base::Steps;
use rd_io::Sink;
use rd_script::Op;
use rd_session::Session;
use rd_state::Refused;
use std::alloc::Global;
use std::sync::ledger::Ledger;
use std::test::Fail;

/// Makes the lines, by the first two ops of the session.
fn make_lines(alloc: Global, session: &mut Session) -> Result<(), Refused>
    ensures { OnOk result (after_all (Ok (without_copies session.old)) (take 2 turning) ≡ Ok (without_copies session.new)) }
{
    apply(
        session,
        Op::Frame {
            width: 12,
            height: 8,
        },
    )?;
    insert(alloc, session, 1, b"a\nb\nc\nd\ne\n\nf")
}

/// By the letter the paragraph turns, so that none of the first six lines keeps its rows, and the last line, behind the empty one, keeps
/// its own. The second redisplay lays out three elements of the first line, two of each of the next four and one of the empty line: it
/// takes 36 steps at most. The answer is whether both redisplays were shown.
pub fn are_shown<K: Sink, F: Ledger, S: Ledger>(
    alloc: Global,
    session: &mut Session,
    screen: &mut K,
    first: &mut Steps<F>,
    second: &mut Steps<S>,
) -> Result<bool, Fail>
    requires { after [] ≡ Ok (without_copies session.old) }
    ensures { second.new ≤ second.old + 36 }
{
    make_lines(alloc, session)?;
    if !is_shown(session, screen, first) {
        return Ok(false);
    }
    insert(alloc, session, 1, b"r")?;
    Ok(is_shown(session, screen, second))
}
