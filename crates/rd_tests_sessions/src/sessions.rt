//! Sessions, op by op. Each clause says what a session becomes, but for how often its rows were copied.
ghost use Rattle.std.specs.Prelude.{◌≡◌, ◌≤◌, ◌+◌, [], None, Ok, IfOk, OnOk, IsTrue};
ghost use Rattle.rd_layout.specs.Copies.{redisplayed, without_copies};
ghost use Rattle.rd_layout.specs.Examples.{after, then_done};
ghost use Rattle.rd_layout.specs.Redisplays.{allowed};
ghost use Rattle.rd_layout.specs.Sessions.{IsStep};
ghost use Rattle.rd_script.specs.Forms.{IsInForm, is_text};
ghost use Rattle.rd_script.specs.declared.op.Op.TheVariants.{Insert};
ghost use Rattle.rd_state.specs.States.{main_name};

use rd_base::{Ch, ListOf, Memory, Steps};
use rd_io::Sink;
use rd_layout::{
    Outcome, copies_change_no_allowance, copies_change_no_op, sent_redisplays_are_determined,
};
use rd_script::{BufferName, Op};
use rd_session::Session;
use rd_state::Refused;
use rd_ucd::{Brackets, Classes, Mirrors};
use std::alloc::Global;
use std::sync::ledger::Ledger;
use std::test::Fail;

/// The session in which a script begins, over the data files of the worked examples of rd_layout: digits have their class, and the
/// letters r and t are read from the right.
pub fn opening(alloc: Global) -> Result<Session, Fail>
    ensures { IfOk result (λ session. after [] ≡ Ok (without_copies session)) }
{
    let classes = Classes::read(
        alloc,
        b"0020;;;;WS\n0030;<0, First>;;;EN\n0039;<9, Last>;;;EN\n0072;;;;R\n0074;;;;R\n",
    )?;
    let mirrors = Mirrors::read(alloc, b"")?;
    Ok(Session::new(alloc, classes, mirrors, Brackets::none(alloc))?)
}

/// Applies an op other than redisplay.
pub fn apply(session: &mut Session, op: Op) -> Result<(), Refused>
    requires form { IsInForm op }
    requires step { IsStep op }
    ensures { OnOk result (then_done (Ok (without_copies session.old)) op ≡ Ok (without_copies session.new)) }
{
    copies_change_no_op();
    session.apply(op)
}

/// Puts a text into the buffer `main`, before the character at a position.
pub fn insert(alloc: Global, session: &mut Session, pos: u64, text: &[u8]) -> Result<(), Refused>
    requires { IsTrue (is_text text.now) }
    ensures { OnOk result (then_done (Ok (without_copies session.old)) (Insert main_name pos text.now) ≡ Ok (without_copies session.new)) }
{
    let buffer = BufferName::from_str(alloc, "main")?;
    let text = characters(alloc, text)?;
    apply(session, Op::Insert { buffer, pos, text })
}

/// The characters of a text in ASCII.
pub fn characters(alloc: Global, text: &[u8]) -> Result<ListOf<Ch>, Memory>
    ensures { IfOk result (λ list. list ≡ text.now) }
{
    let mut list = ListOf::with_room(alloc, text.len())?;
    for byte in text {
        list.push(Ch::scalar(*byte as char))?;
    }
    Ok(list)
}

/// Redisplays, and answers whether the frame was shown. It takes the steps at most that it is allowed.
pub fn is_shown<K: Sink, L: Ledger>(
    session: &mut Session,
    screen: &mut K,
    steps: &mut Steps<L>,
) -> bool
    ensures cost { steps.new ≤ steps.old + allowed (without_copies session.old) }
    ensures shown { IsTrue result → without_copies session.new ≡ redisplayed (without_copies session.old) None }
{
    copies_change_no_allowance();
    sent_redisplays_are_determined();
    match session.redisplay(screen, None, steps) {
        Outcome::Shown(_) => true,
        _ => false,
    }
}
