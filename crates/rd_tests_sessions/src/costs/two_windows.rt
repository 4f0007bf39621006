//! Two windows side by side on eight lines, both with mode lines, which are shown, and shown with a line put before what they show.
ghost use Rattle.std.specs.Prelude.{◌≡◌, ◌≤◌, [], Some, Ok, OnOk, IsTrue};
ghost use Rattle.rd_layout.specs.Copies.{without_copies};
ghost use Rattle.rd_layout.specs.Examples.{after, after_all, then_done};
ghost use Rattle.rd_script.specs.Forms.{is_plain_text};
ghost use Rattle.rd_script.specs.declared.op.Op.TheVariants.{ModeLine};
ghost use Rattle.rd_tests_sessions.specs.Examples.{two_windows};

use crate::sessions::{apply, characters, insert, is_shown};
use rd_base::Steps;
use rd_io::Sink;
use rd_script::Op;
use rd_session::Session;
use rd_state::Refused;
use rd_tree::Side;
use std::alloc::Global;
use std::sync::ledger::Ledger;
use std::test::Fail;

/// Gives the first window's mode line a format.
fn format_mode_line(alloc: Global, session: &mut Session, format: &[u8]) -> Result<(), Refused>
    requires { IsTrue (is_plain_text format.now) }
    ensures { OnOk result (then_done (Ok (without_copies session.old)) (ModeLine 0 (Some format.now)) ≡ Ok (without_copies session.new)) }
{
    let format = characters(alloc, format)?;
    apply(
        session,
        Op::ModeLine {
            window: 0,
            format: Some(format),
        },
    )
}

/// Makes the lines and the windows. The new window takes the mode line's format over.
fn make_windows(alloc: Global, session: &mut Session) -> Result<(), Refused>
    ensures { OnOk result (after_all (Ok (without_copies session.old)) two_windows ≡ Ok (without_copies session.new)) }
{
    apply(
        session,
        Op::Frame {
            width: 24,
            height: 5,
        },
    )?;
    insert(alloc, session, 1, b"1\n2\n3\n4\n5\n6\n7\n8")?;
    format_mode_line(alloc, session, b"%b %l %p")?;
    apply(
        session,
        Op::Split {
            window: 0,
            side: Side::Right,
            size: 12,
        },
    )?;
    apply(
        session,
        Op::Start {
            window: 0,
            pos: 5,
            row: 0,
        },
    )?;
    apply(
        session,
        Op::Start {
            window: 1,
            pos: 5,
            row: 0,
        },
    )?;
    apply(session, Op::Point { window: 0, pos: 5 })?;
    apply(session, Op::Point { window: 1, pos: 5 })
}

/// Before the second redisplay a line is put before what the windows show. Their starts move with the text, so that all rows are kept and
/// no step is taken; the mode lines tell another line and another share. The answer is whether both redisplays were shown.
pub fn are_shown<K: Sink, F: Ledger, S: Ledger>(
    alloc: Global,
    session: &mut Session,
    screen: &mut K,
    first: &mut Steps<F>,
    second: &mut Steps<S>,
) -> Result<bool, Fail>
    requires { after [] ≡ Ok (without_copies session.old) }
    ensures { second.new ≤ second.old }
{
    make_windows(alloc, session)?;
    if !is_shown(session, screen, first) {
        return Ok(false);
    }
    insert(alloc, session, 1, b"0\n")?;
    Ok(is_shown(session, screen, second))
}
