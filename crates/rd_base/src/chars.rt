//! Characters of a text: Unicode scalar values and raw bytes.
ghost use Rattle.std.specs.Prelude.{◌≡◌, ◌+◌, ◌<◌, ◌≤◌, IfOk, IfSome, ◌↔◌, IsNone, IsTrue};
ghost use Rattle.std.specs.Str.{chars};
ghost use Rattle.rd_base.specs.Chars.{is_code, raw_code, columns_of, encoded};

use crate::limits::CODE_POINTS;
use crate::list::ListOf;
use crate::memory::Memory;
use std::alloc::Global;
use std::marker::Model;
use unicode_width::UnicodeWidthChar;

/// A Unicode scalar value or a raw byte of 128 to 255. Contracts see it as its code.
#[derive(Clone, Copy, Debug, PartialEq, Eq, Hash)]
pub struct Ch {
    code: u32,
}

impl Model for Ch {
    ghost use Rattle.std.specs.Prelude.{ℕ, IsTrue};
    ghost use Rattle.rd_base.specs.Chars.{is_code};

    ghost Value = { ℕ };

    ghost view = { λ c. c.code };

    ghost invariant = { λ c. IsTrue (is_code c.code) };

    ghost inverse = { λ n. record { code = n } };
}

impl Ch {
    /// The character of a scalar value.
    pub fn scalar(c: char) -> Ch
        ensures { result ≡ c }
    {
        Ch { code: c as u32 }
    }

    /// A raw byte, and None exactly below 128.
    pub fn raw(b: u8) -> Option<Ch>
        ensures none { IsNone result ↔ (b < 128) }
        ensures some { IfSome result (λ c. c ≡ raw_code b) }
    {
        if b < 128 {
            return None;
        }
        Some(Ch {
            code: CODE_POINTS + b as u32,
        })
    }

    /// The character of a code: a scalar value's number, or 1,114,112 plus a raw byte of 128 to 255.
    pub fn from_code(code: u32) -> Ch
        requires { IsTrue (is_code code) }
        ensures { result ≡ code }
    {
        Ch { code }
    }

    /// The scalar's number, or 1,114,112 plus the byte.
    pub fn code(self) -> u32
        ensures value { result ≡ self }
        ensures right { IsTrue (is_code self) }
    {
        self.code
    }
}

/// The characters of a text. Its one error is want of memory.
pub fn characters(alloc: Global, text: &str) -> Result<ListOf<Ch>, Memory>
    ensures { IfOk result (λ list. list ≡ chars text.now) }
{
    let mut list = ListOf::with_room(alloc, text.len())?;
    for c in text.chars() {
        list.push(Ch::scalar(c))?;
    }
    Ok(list)
}

/// The UTF-8 of a scalar value's code, for which it takes of this room; nothing for a number that is no scalar value.
pub fn encode(code: u32, room: &mut [u8; 4]) -> &[u8]
    ensures { result.now ≡ encoded code }
{
    match char::from_u32(code) {
        Some(c) => c.encode_utf8(room).as_bytes(),
        None => &[],
    }
}

/// The columns of a scalar value in a terminal, by Unicode's widths with ambiguous characters narrow. None exactly for a control
/// character, and for a number that is no scalar value. It costs a look into the tables of widths.
pub fn columns_of(code: u32) -> Option<u8>
    ensures value { result ≡ columns_of code }
    ensures bound { IfSome result (λ columns. columns ≤ 3) }
{
    let columns = char::from_u32(code)?.width()?;
    Some(columns as u8)
}
