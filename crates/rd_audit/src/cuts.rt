//! Pieces of bytes.
ghost use Rattle.std.specs.Prelude.{◌≡◌, ◌<◌, ◌-◌, ◌∷◌, [], option_map, IfSome, MatchOption, drop, length};
ghost use Rattle.rd_io.specs.Lines.{lines_of};
ghost use Rattle.rd_audit.specs.Cuts.{stripped, cut_last};

use rd_base::cut;

/// What stands behind a front, where bytes begin with it.
pub fn stripped<'a>(front: &[u8], bytes: &'a [u8]) -> Option<&'a [u8]>
    ensures { option_map (λ rest. rest.now) result ≡ stripped front.now bytes.now }
{
    bytes.strip_prefix(front)
}

/// What stands before the last of a byte, and what stands behind it. None exactly where it stands nowhere. It looks at each byte from
/// the end up to that one.
pub fn cut_last(byte: u8, bytes: &[u8]) -> Option<(&[u8], &[u8])>
    ensures { option_map (λ parts. (parts.0.now, parts.1.now)) result ≡ cut_last byte bytes.now }
{
    let end = bytes.iter().rposition(|b| *b == byte)?;
    let (front, back) = bytes.split_at(end);
    Some((front, back.split_at(1).1))
}

/// The first line of bytes and what stands behind it, and None exactly where there is no line.
pub fn next_line(bytes: &[u8]) -> Option<(&[u8], &[u8])>
    ensures value { MatchOption result (lines_of bytes.now ≡ []) (λ parts. lines_of bytes.now ≡ parts.0.now ∷ lines_of parts.1.now) }
    ensures shorter { IfSome result (λ parts. length parts.1.now < length bytes.now) }
    ensures behind { IfSome result (λ parts. parts.1.now ≡ drop (length bytes.now - length parts.1.now) bytes.now) }
{
    if bytes.is_empty() {
        return None;
    }
    match cut(b'\n', bytes) {
        Some((line, rest)) => Some((line, rest)),
        None => Some(bytes.split_at(bytes.len())),
    }
}
