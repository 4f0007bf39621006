//! Updates that are prepared and sent with ample memory.
ghost use Rattle.std.specs.Prelude.{IfOk};
ghost use Rattle.rd_update.specs.Laws.{IsSound};

use crate::claims::assert_of;
use rd_base::{Cell, Face, Glyph, Memory};
use rd_io::MemSink;
use rd_term::Screen;
use rd_update::{Plan, Sent, WriteFault};
use std::alloc::Global;
use std::process::Abort;
use std::test::Fail;

/// A screen of 12 columns and 3 rows with `a` and `b` at the first cells of its first two rows.
fn two_letters(alloc: Global) -> Result<Screen, Memory>
    ensures { IfOk result (λ screen. IsSound screen) }
{
    let mut screen = Screen::blank(alloc, 12, 3)?;
    screen.set(0, 0, Cell::First(Glyph::single(97, 1), Face::PLAIN));
    screen.set(1, 0, Cell::First(Glyph::single(98, 1), Face::PLAIN));
    Ok(screen)
}

/// What an update of an unknown screen to two letters came to.
#[derive(Drop)]
struct Trace {
    sink: MemSink,
    sent: Result<Sent, WriteFault>,
    screen: Option<Screen>,
}

/// Sends two letters to an unknown screen, into a sink of so much room, where so many rows are allowed.
fn sent_within(alloc: Global, room: u64, limit: Option<u32>) -> Result<Trace, Memory> {
    let target = two_letters(alloc)?;
    let plan = Plan::prepare(alloc, None, &target)?;
    let mut sink = MemSink::with_room(alloc, room)?;
    match plan.send(&mut sink, limit) {
        Ok(sent) => Ok(Trace {
            sink,
            sent: Ok(sent),
            screen: Some(plan.after(None, target, sent)),
        }),
        Err(fault) => Ok(Trace {
            sink,
            sent: Err(fault),
            screen: None,
        }),
    }
}

/// Whether each of the first two rows of a new current screen begins with a character, where there is such a screen.
fn are_filled(screen: &Option<Screen>) -> Option<(bool, bool)> {
    match screen {
        Some(screen) if screen.height() >= 2 && screen.width() >= 1 => Some((
            is_filled(screen.cell(0, 0)),
            is_filled(screen.cell(1, 0)),
        )),
        _ => None,
    }
}

/// Whether a character stands in a cell.
fn is_filled(cell: Cell) -> bool {
    match cell {
        Cell::First(_, _) => true,
        _ => false,
    }
}

/// The bytes of both rows and the cursor.
const WHOLE: &[u8] = b"\x1b[0m\x1b[2J\x1b[1;1Ha\x1b[2;1Hb\x1b[1;1H";

/// A limit of rows, and the rows that are sent, whether the target is reached, and the bytes.
const LIMITS: [(&'static str, Option<u32>, u32, bool, &'static [u8]); 5] = [
    ("no row", Some(0), 0, false, b"\x1b[0m\x1b[2J"),
    ("one row", Some(1), 1, false, b"\x1b[0m\x1b[2J\x1b[1;1Ha"),
    ("all rows", Some(2), 2, true, WHOLE),
    ("more than all rows", Some(3), 2, true, WHOLE),
    ("no limit", None, 2, true, WHOLE),
];

/// Asserts what is sent of two letters to an unknown screen, and the bytes that the sink then has, where it has so much room and so
/// many rows are allowed.
fn assert_within(
    rt: &impl Abort,
    alloc: Global,
    name: &str,
    room: u64,
    limit: Option<u32>,
    sent: Result<Sent, WriteFault>,
    bytes: &[u8],
) -> Result<(), Memory> {
    let trace = sent_within(alloc, room, limit)?;
    assert_of(rt, name, trace.sent == sent && trace.sink.bytes() == bytes);
    Ok(())
}

#[test]
fn an_update_stops_after_so_many_rows(rt: HostRuntime) -> Result<(), Fail> {
    for (name, limit, rows, done, bytes) in &LIMITS {
        let sent = Sent {
            rows: *rows,
            done: *done,
        };
        assert_within(&rt, rt.alloc(), name, 64, *limit, Ok(sent), bytes)?;
    }
    Ok(())
}

/// Whether, where so many rows are allowed, the first two rows begin with a character or not.
fn fills(alloc: Global, limit: u32, filled: (bool, bool)) -> Result<bool, Memory> {
    let trace = sent_within(alloc, 64, Some(limit))?;
    Ok(are_filled(&trace.screen) == Some(filled))
}

/// A limit of rows, and whether the first two rows begin with a character then.
const FILLED: [(&'static str, u32, (bool, bool)); 3] = [
    ("no row", 0, (false, false)),
    ("one row", 1, (true, false)),
    ("all rows", 2, (true, true)),
];

#[test]
fn rows_that_were_not_sent_stay_blank(rt: HostRuntime) -> Result<(), Fail> {
    for (name, limit, filled) in &FILLED {
        assert_of(&rt, name, fills(rt.alloc(), *limit, *filled)?);
    }
    Ok(())
}

#[test]
fn a_sink_without_room_is_a_fault(rt: HostRuntime) -> Result<(), Fail> {
    let name = "a front of the bytes";
    let bytes = b"\x1b[0m\x1b[2J\x1b[";
    Ok(assert_within(&rt, rt.alloc(), name, 10, None, Err(WriteFault), bytes)?)
}
