//! The report's words for how an op, a line or a redisplay ended, put into a buffer of the caller.
ghost use Rattle.std.specs.Prelude.{◌≡◌, ◌≤◌, ◌++◌, ◌∷◌, ℕ, List, Some, None, Option, decimal, length};
ghost use Rattle.rd_run.specs.Reports.{bytes_of, named_column, named_key, op_key, op_kind, refused_kind};
ghost use Rattle.rd_embed.specs.Endings.{words_of};
ghost use Rattle.rd_embed.specs.Fills.{Fills};

use crate::ending::Ending;
use crate::fill::{fill, fill_behind};
use itoa::Buffer;
use rd_base::{Ch, encode};
use rd_player::{op_key, op_kind, refused_kind};
use rd_script::OpFault;
use rd_state::Refused;

/// Puts the words into the front of a buffer, as far as there is room, and answers how many bytes.
pub(crate) fn fill_words(ending: &Ending, out: &mut [u8]) -> usize
    ensures { Fills result (words_of ending.now) out.old out.new }
{
    match ending {
        Ending::Done => fill(out, b""),
        Ending::Stopped => fill(out, b"stopped"),
        Ending::NoMemory => fill(out, b"no memory"),
        Ending::BadText => fill(out, b"BadText"),
        Ending::BadArgument => fill(out, b"BadArgument"),
        Ending::TooLong => fill(out, b"TooLong"),
        Ending::NoOp(fault) => fill_fault(fault, out),
        Ending::Refused(refused) => fill_refusal(*refused, out),
    }
}

/// Puts in the words for why a line is no op.
fn fill_fault(fault: &OpFault, out: &mut [u8]) -> usize
    ensures { Fills result (op_kind fault.now ++ named_key (op_key fault.now)) out.old out.new }
{
    let at = fill(out, op_kind(fault).as_bytes());
    match op_key(fault) {
        Some(key) => fill_key(out, at, key),
        None => fill_behind(out, at, b""),
    }
}

/// Puts in a space and the key of a field, behind a text.
fn fill_key(out: &mut [u8], at: usize, key: &[Ch]) -> usize
    requires { at ≤ length out.old }
    ensures { (text before : List ℕ) → Fills at text before out.old → Fills result (text ++ (32 ∷ bytes_of key.now)) before out.new }
{
    let mut end = fill_behind(out, at, b" ");
    for ch in key {
        end = fill_behind(out, end, encode(ch.code(), &mut [0; 4]));
    }
    end
}

/// Puts in the words for why an op was refused.
fn fill_refusal(refused: Refused, out: &mut [u8]) -> usize
    ensures { Fills result (refused_kind refused ++ named_column refused) out.old out.new }
{
    let at = fill(out, refused_kind(refused).as_bytes());
    match refused {
        Refused::BadFormat(column) => fill_column(out, at, column),
        _ => fill_behind(out, at, b""),
    }
}

/// Puts in a space and a number, behind a text.
fn fill_column(out: &mut [u8], at: usize, column: u64) -> usize
    requires { at ≤ length out.old }
    ensures { (text before : List ℕ) → Fills at text before out.old → Fills result (text ++ (32 ∷ decimal column)) before out.new }
{
    let end = fill_behind(out, at, b" ");
    fill_behind(out, end, Buffer::new().format(column).as_bytes())
}
