//! Raw bytes as characters.
ghost use Rattle.std.specs.Prelude.{◌≡◌, ◌≤◌, All, IfOk};
ghost use Rattle.rd_base.specs.Chars.{raw_code};
ghost use Rattle.rd_script.specs.Forms.{IsRawByte};
ghost use Rattle.rd_state.specs.Steps.{raw_text};

use rd_base::limits::CODE_POINTS;
use rd_base::{Ch, ListOf, Memory, mapped};
use std::alloc::Global;

/// The characters of raw bytes.
pub(crate) fn raw_text(alloc: Global, bytes: &[u8]) -> Result<ListOf<Ch>, Memory>
    requires { All IsRawByte bytes.now }
    ensures { IfOk result (λ text. text ≡ raw_text bytes.now) }
{
    mapped(alloc, bytes, |byte| raw_character(*byte))
}

/// The character of a raw byte.
fn raw_character(byte: u8) -> Ch
    requires { 128 ≤ byte }
    ensures { result ≡ raw_code byte }
{
    Ch::from_code(CODE_POINTS + byte as u32)
}
