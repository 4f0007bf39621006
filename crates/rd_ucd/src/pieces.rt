//! Cutting bytes into lines, and lines into fields.
ghost use Rattle.std.specs.Prelude.{◌≡◌, ◌==◌, ◌<◌, ◌≤◌, [], ◌∷◌, length, drop, MatchOption, slice_index_or};
ghost use Rattle.std.specs.List.{slice_split, prefix_len, suffix_len};
ghost use Rattle.std.specs.Str.Lines.{strip_carriage_return};
ghost use Rattle.rd_ucd.specs.Lines.{fields_of};
ghost use Rattle.rd_ucd.specs.Pieces.{uncommented, trimmed, trimmed_front, trimmed_back, is_blank};

use rd_base::cut;

/// The bytes before the first separator, and those behind it, if there is one.
pub fn split_first(bytes: &[u8], separator: u8) -> (&[u8], Option<&[u8]>)
    ensures first { slice_split (λ b. b == separator) bytes.now ≡ result.0.now ∷ drop 1 (slice_split (λ b. b == separator) bytes.now) }
    ensures pieces { MatchOption result.1
        (slice_split (λ b. b == separator) bytes.now ≡ result.0.now ∷ [])
        (λ rest. (slice_split (λ b. b == separator) bytes.now ≡ result.0.now ∷ slice_split (λ b. b == separator) rest.now) × (length rest.now < length bytes.now)) }
{
    match cut(separator, bytes) {
        Some((front, rest)) => (front, Some(rest)),
        None => (bytes, None),
    }
}

/// The field at an index, from 0, of a line that is cut at each `;`.
pub fn field(line: &[u8], index: usize) -> Option<&[u8]>
    ensures { MatchOption result
        (length (fields_of line.now) ≤ index)
        (λ field. (index < length (fields_of line.now)) × (slice_index_or (fields_of line.now) index [] ≡ field.now)) }
{
    line.split(|b| *b == b';').nth(index)
}

/// A line without the byte 13 at its end.
pub fn without_return(line: &[u8]) -> &[u8]
    ensures { result.now ≡ strip_carriage_return line.now }
{
    line.strip_suffix(b"\r").unwrap_or(line)
}

/// What stands before the first `#`.
pub fn before_comment(line: &[u8]) -> &[u8]
    ensures { result.now ≡ uncommented line.now }
{
    split_first(line, b'#').0
}

/// The bytes without spaces and tabs at both ends.
pub fn trim(bytes: &[u8]) -> &[u8]
    ensures { result.now ≡ trimmed bytes.now }
{
    trim_back(trim_front(bytes))
}

fn trim_front(bytes: &[u8]) -> &[u8]
    ensures { result.now ≡ trimmed_front bytes.now }
{
    bytes.split_at(blanks_before(bytes)).1
}

fn trim_back(bytes: &[u8]) -> &[u8]
    ensures { result.now ≡ trimmed_back bytes.now }
{
    bytes.split_at(bytes.len() - blanks_behind(bytes)).0
}

/// How many spaces and tabs stand at the beginning.
fn blanks_before(bytes: &[u8]) -> usize
    ensures value { result ≡ prefix_len is_blank bytes.now }
    ensures bound { result ≤ length bytes.now }
{
    bytes.iter().take_while(|byte| is_blank(**byte)).count()
}

/// How many spaces and tabs stand at the end.
fn blanks_behind(bytes: &[u8]) -> usize
    ensures value { result ≡ suffix_len is_blank bytes.now }
    ensures bound { result ≤ length bytes.now }
{
    bytes
        .iter()
        .rev()
        .take_while(|byte| is_blank(**byte))
        .count()
}

/// Whether a byte is a space or a tab.
fn is_blank(byte: u8) -> bool
    ensures { result ≡ is_blank byte }
{
    byte == b' ' || byte == b'\t'
}
