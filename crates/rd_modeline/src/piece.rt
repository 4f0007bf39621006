//! The pieces of which a format consists.
ghost use Rattle.std.specs.Prelude.{◌≡◌};
ghost use Rattle.rd_modeline.specs.Formats.{field_of, sign_of, piece_of};

use rd_base::Ch;

/// A value that a format asks for.
#[derive(Clone, Copy, Debug, PartialEq, Eq)]
pub enum Field {
    /// `%b`: the buffer's name.
    Name,
    /// `%l`: the line of point.
    Line,
    /// `%p`: how much of the text stands above the view.
    Place,
    /// `%*`: a percent sign where the buffer is read-only, else whether it is modified.
    ReadOnly,
    /// `%+`: a star where the buffer is modified, else whether it is read-only.
    Modified,
    /// `%n`: whether the buffer is narrowed.
    Narrowing,
}

/// A piece of a format: a character that stands for itself, a value in at least so many columns, or dashes up to the end.
#[derive(Clone, Copy, Debug, PartialEq, Eq)]
pub enum Piece {
    Literal(Ch),
    Value(Field, u32),
    Dashes,
}

/// The value of a letter.
fn field_of(code: u32) -> Option<Field>
    ensures { result ≡ field_of code }
{
    match code {
        98 => Some(Field::Name),
        108 => Some(Field::Line),
        112 => Some(Field::Place),
        42 => Some(Field::ReadOnly),
        43 => Some(Field::Modified),
        110 => Some(Field::Narrowing),
        _ => None,
    }
}

/// The piece that a character ends behind a percent sign and so many digits that make a width.
pub(crate) fn piece_of(digits: u8, width: u32, ch: Ch) -> Option<Piece>
    ensures { result ≡ piece_of digits width ch }
{
    match field_of(ch.code()) {
        Some(field) => Some(Piece::Value(field, width)),
        None => sign_of(digits, ch),
    }
}

/// The piece of a character that is no letter of a value; it takes no width.
fn sign_of(digits: u8, ch: Ch) -> Option<Piece>
    ensures { result ≡ sign_of digits ch }
{
    match ch.code() {
        45 if digits == 0 => Some(Piece::Dashes),
        37 if digits == 0 => Some(Piece::Literal(ch)),
        _ => None,
    }
}
