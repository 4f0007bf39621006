//! Reading a format, character by character.
ghost use Rattle.std.specs.Prelude.{◌≡◌, ◌≢◌, ◌≤◌, IfErr, IfOk, Ok, length};
ghost use Rattle.rd_modeline.specs.declared.fault.FormatFault.TheVariants as fault;
ghost use Rattle.rd_modeline.specs.Formats.{pieces_of, Checks, IsBegun, IsBegunBehind, ReadsOn, IsNext};

use crate::fault::FormatFault;
use crate::piece::{Piece, piece_of};
use rd_base::{Ch, ListOf};
use std::alloc::Global;

/// What is begun before the next character: no code, or a percent sign at a place and so many digits that make a width.
#[derive(Clone, Copy, Debug, PartialEq, Eq)]
pub enum Begun {
    Text,
    Percent(u64, u8, u32),
}

/// What a character does behind what is begun: it goes on with a code, or it ends a piece.
#[derive(Clone, Copy, Debug, PartialEq, Eq)]
pub enum ReadOn {
    On(Begun),
    Ends(Piece),
}

/// Whether a format is good, which takes no memory.
///
/// # Errors
/// `BadFormat` with the place, from 0, of the first `%` that is not followed by one of the codes `b`, `l`, `p`, `*`, `+` and `n`,
/// before which one to three digits may stand, nor by `-` or `%`. Never `Memory`.
pub fn check(text: &[Ch]) -> Result<(), FormatFault>
    ensures checks { Checks result (pieces_of text.now) }
    ensures named { IfErr result (λ f. f ≢ fault.Memory) }
{
    let mut place = 0;
    while let Some((_piece, behind)) = next_piece(text, place)? {
        place = behind;
    }
    Ok(())
}

/// The pieces of a format.
pub(crate) fn read(alloc: Global, text: &[Ch]) -> Result<ListOf<Piece>, FormatFault>
    ensures pieces { IfOk result (λ pieces. pieces_of text.now ≡ Ok pieces) }
    ensures checks { Checks result (pieces_of text.now) }
{
    let mut pieces = ListOf::new(alloc);
    let mut place = 0;
    while let Some((piece, behind)) = next_piece(text, place)? {
        pieces.push(piece)?;
        place = behind;
    }
    Ok(pieces)
}

/// The next piece of a format from a place on, where no code is begun, with the place behind it; or none at the format's end.
fn next_piece(text: &[Ch], from: usize) -> Result<Option<(Piece, usize)>, FormatFault>
    requires { from ≤ length text.now }
    ensures next { IsNext result text.now from }
    ensures named { IfErr result (λ f. f ≢ fault.Memory) }
{
    let mut begun = Begun::Text;
    for place in from..text.len() {
        match read_on(begun, place as u64, text[place])? {
            ReadOn::On(after) => begun = after,
            ReadOn::Ends(piece) => return Ok(Some((piece, place + 1))),
        }
    }
    match begun {
        Begun::Text => Ok(None),
        Begun::Percent(start, _digits, _width) => Err(FormatFault::BadFormat(start)),
    }
}

/// What a character does behind what is begun. The fault is the place of a percent sign where no code is spelled so.
fn read_on(begun: Begun, place: u64, ch: Ch) -> Result<ReadOn, FormatFault>
    requires { IsBegun begun }
    ensures reads { ReadsOn result begun place ch }
    ensures named { IfErr result (λ f. f ≢ fault.Memory) }
    ensures begun { IfOk result (λ read. IsBegunBehind read) }
{
    // 37 is the percent sign, and 48 to 57 are the digits.
    let code = ch.code();
    match begun {
        Begun::Text if code == 37 => Ok(ReadOn::On(Begun::Percent(place, 0, 0))),
        Begun::Text => Ok(ReadOn::Ends(Piece::Literal(ch))),
        Begun::Percent(start, digits, width) if 48 <= code && code <= 57 && digits < 3 => {
            let longer = Begun::Percent(start, digits + 1, 10 * width + (code - 48));
            Ok(ReadOn::On(longer))
        }
        Begun::Percent(start, digits, width) => match piece_of(digits, width, ch) {
            Some(piece) => Ok(ReadOn::Ends(piece)),
            None => Err(FormatFault::BadFormat(start)),
        },
    }
}
