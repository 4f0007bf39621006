//! Newlines and blanks in a run of codes.
ghost use Rattle.std.specs.Prelude.{◌≡◌, ◌≤◌, not, length};
ghost use Rattle.std.specs.List.{position_or_len, suffix_len};
ghost use Rattle.rd_text.specs.Texts.{is_newline, is_ink};
ghost use Rattle.rd_text.specs.Pieces.{is_sought};

use crate::stretch::{NEWLINE, is_blank};

/// What a search looks for.
#[derive(Clone, Copy)]
pub(crate) enum Sought {
    /// A newline.
    Newline,
    /// A character that is neither newline nor blank.
    Ink,
}

/// How many codes stand before the first newline, and all of them where there is none.
pub(crate) fn before_first(codes: &[u32]) -> usize
    ensures value { result ≡ position_or_len is_newline codes.now }
    ensures bound { result ≤ length codes.now }
{
    match rd_lanes::find(codes, NEWLINE) {
        Some(at) => at,
        None => codes.len(),
    }
}

/// How many codes stand behind the last one that is sought, and all of them where there is none.
pub(crate) fn after_last(codes: &[u32], sought: Sought) -> usize
    ensures value { result ≡ suffix_len (λ c. not (is_sought sought c)) codes.now }
    ensures bound { result ≤ length codes.now }
{
    match sought {
        Sought::Newline => after_newline(codes),
        Sought::Ink => after_ink(codes),
    }
}

/// How many codes stand behind the last newline, and all of them where there is none.
fn after_newline(codes: &[u32]) -> usize
    ensures value { result ≡ suffix_len (λ c. not (is_newline c)) codes.now }
    ensures bound { result ≤ length codes.now }
{
    match rd_lanes::rfind(codes, NEWLINE) {
        Some(at) => codes.len() - at - 1,
        None => codes.len(),
    }
}

/// How many codes stand behind the last that is neither newline nor blank, and all of them where there is none.
fn after_ink(codes: &[u32]) -> usize
    ensures value { result ≡ suffix_len (λ c. not (is_ink c)) codes.now }
    ensures bound { result ≤ length codes.now }
{
    codes
        .iter()
        .rev()
        .take_while(|code| !is_ink(**code))
        .count()
}

/// Whether a code is that of a character that is neither newline nor blank.
fn is_ink(code: u32) -> bool
    ensures { result ≡ is_ink code }
{
    !(code == NEWLINE || is_blank(code))
}
