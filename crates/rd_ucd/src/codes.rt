//! Codes in hexadecimal digits.
ghost use Rattle.std.specs.Prelude.{◌≡◌, IfSome, ◌<◌};
ghost use Rattle.rd_base.specs.declared.limits.TheConstants.{CODE_POINTS};
ghost use Rattle.rd_ucd.specs.Codes.{code_of};

use rd_base::limits::CODE_POINTS;

/// The code that 4 to 6 hexadecimal digits of either case write, at most 10FFFF; None for anything else.
pub fn read_code(digits: &[u8]) -> Option<u32>
    ensures value { result ≡ code_of digits.now }
    ensures bound { IfSome result (λ code. code < CODE_POINTS) }
{
    if digits.len() < 4 || digits.len() > 6 {
        return None;
    }
    let mut code = 0;
    for digit in digits {
        code = 16 * code + char::from(*digit).to_digit(16)?;
        if code >= CODE_POINTS {
            return None;
        }
    }
    Some(code)
}
