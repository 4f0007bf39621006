//! Numbers in decimal.
ghost use Rattle.std.specs.Prelude.{◌≡◌, ◌<◌, IfSome};
ghost use Rattle.rd_audit.specs.Numbers.{digit, lead, longer, number_of, pair_of};

use rd_base::cut;

/// The two numbers before and behind the first place at which a byte stands; None where it stands nowhere, or where what is before or
/// behind it is no number of at most three digits. The cost is linear in the bytes.
pub fn pair_of(byte: u8, bytes: &[u8]) -> Option<(u32, u32)>
    ensures value { result ≡ pair_of byte bytes.now }
    ensures bound { IfSome result (λ pair. pair.1 < 1000) }
{
    let (first, last) = cut(byte, bytes)?;
    number_of(first).zip(number_of(last))
}

/// The number that bytes say in decimal, without leading zeros; None also for one of more than three digits.
pub fn number_of(bytes: &[u8]) -> Option<u32>
    ensures value { result ≡ number_of bytes.now }
    ensures bound { IfSome result (λ n. n < 1000) }
{
    match bytes {
        [a] => digit(*a),
        [a, b] => longer(lead(*a), digit(*b)),
        [a, b, c] => longer(longer(lead(*a), digit(*b)), digit(*c)),
        _ => None,
    }
}

/// The number of a digit.
fn digit(byte: u8) -> Option<u32>
    ensures value { result ≡ digit byte }
    ensures bound { IfSome result (λ n. n < 10) }
{
    if 48 <= byte && byte <= 57 {
        Some(byte as u32 - 48)
    } else {
        None
    }
}

/// The number of a first digit, which is not 0.
fn lead(byte: u8) -> Option<u32>
    ensures value { result ≡ lead byte }
    ensures bound { IfSome result (λ n. n < 10) }
{
    if byte == 48 { None } else { digit(byte) }
}

/// A number with one more digit.
fn longer(number: Option<u32>, digit: Option<u32>) -> Option<u32>
    requires number { IfSome number (λ n. n < 100) }
    requires digit { IfSome digit (λ d. d < 10) }
    ensures value { result ≡ longer number digit }
    ensures hundred { IfSome number (λ n. n < 10) → IfSome result (λ n. n < 100) }
    ensures thousand { IfSome result (λ n. n < 1000) }
{
    match (number, digit) {
        (Some(n), Some(d)) => Some(10 * n + d),
        _ => None,
    }
}
