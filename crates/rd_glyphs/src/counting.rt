//! How many columns a plain line takes.
ghost use Rattle.std.specs.Prelude.{◌≡◌, ◌≤◌, min, if◌then◌else◌, []};
ghost use Rattle.rd_glyphs.specs.Held.{HoldsColumns, has_room, held_looks, held_columns, given};
ghost use Rattle.rd_glyphs.specs.Lines.{columns_of_looks, plain_columns};

use crate::plain::{has_room, held_after};
use crate::shown::{Shown, shown_as};
use rd_base::{Ch, Glyph};
use rd_ucd::Classes;

/// How many columns a text takes as a plain line that is not cut, or `most` where it takes more. It takes no memory. It
/// costs the text's length, up to `most` columns, times the logarithm of that of the data.
#[tactic(auto, using(crate::proofs::Holding::read_whole))]
pub fn plain_columns(text: &[Ch], classes: &Classes, most: u32) -> u32
    ensures { result ≡ min (plain_columns classes.now text.now) most }
{
    let mut columns = 0;
    let mut held = None;
    for ch in text {
        let shown = shown_as(true, classes.class(*ch), ch.code());
        columns += given_columns(held, shown);
        if columns >= most as u64 {
            return most;
        }
        held = held_after(held, shown);
    }
    (columns + held_columns(held)).min(most as u64) as u32
}

/// The columns of a glyph that is held.
fn held_columns(held: Option<Glyph>) -> u64
    ensures value { result ≡ held_columns held }
    ensures few { HoldsColumns held → result ≤ 3 }
{
    match held {
        Some(glyph) => glyph.width as u64,
        None => 0,
    }
}

/// The columns of what comes out when a character is read behind a glyph that is held.
fn given_columns(held: Option<Glyph>, shown: Shown) -> u64
    requires held { HoldsColumns held }
    ensures value { result ≡ columns_of_looks (given held shown) }
    ensures few { result ≤ 7 }
{
    match shown {
        Shown::Mark(_) => mark_columns(held),
        Shown::Itself(_, _) => held_columns(held),
        Shown::Caret(_) => held_columns(held) + 2,
        Shown::Octal(_) => held_columns(held) + 4,
        Shown::Space => held_columns(held) + 1,
    }
}

/// The columns of what comes out when a mark is read behind a glyph that is held.
fn mark_columns(held: Option<Glyph>) -> u64
    ensures value { result ≡ columns_of_looks (if has_room held then [] else held_looks held) }
    ensures few { HoldsColumns held → result ≤ 3 }
{
    if has_room(held) {
        0
    } else {
        held_columns(held)
    }
}
