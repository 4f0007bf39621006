//! Bytes that are cut at one of them.
ghost use Rattle.std.specs.Prelude.{◌≡◌, ◌<◌, ◌-◌, option_map, IfSome, drop, length};
ghost use Rattle.rd_base.specs.Cuts.{cut};

/// What stands before the first of a byte, and what stands behind it; None exactly where the byte stands nowhere. It looks at no byte
/// behind that first one.
pub fn cut(byte: u8, bytes: &[u8]) -> Option<(&[u8], &[u8])>
    ensures value { option_map (λ parts. (parts.0.now, parts.1.now)) result ≡ cut byte bytes.now }
    ensures shorter { IfSome result (λ parts. length parts.1.now < length bytes.now) }
    ensures behind { IfSome result (λ parts. parts.1.now ≡ drop (length bytes.now - length parts.1.now) bytes.now) }
{
    let mut place = 0;
    while place < bytes.len() {
        if bytes[place] == byte {
            let (front, back) = bytes.split_at(place);
            return Some((front, back.split_at(1).1));
        }
        place += 1;
    }
    None
}
