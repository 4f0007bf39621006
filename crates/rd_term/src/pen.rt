//! The numbers that change a pen.
ghost use Rattle.std.specs.Prelude.{◌≡◌, true};
ghost use Rattle.rd_term.specs.Pens.{is_rendition, are_renditions, dressed, pen_after, pen_by, numbers_of_face};

use rd_base::Face;
use rd_base::limits::COLOURS;

/// Whether a number changes a pen: 0 makes it plain, 1 bold, 4 underlined and 7 inverse, 30 to 37 give the colour of characters
/// and 40 to 47 the colour behind them.
pub fn is_rendition(n: u32) -> bool
    ensures { result ≡ is_rendition n }
{
    matches!(n, 0 | 1 | 4 | 7 | 30..=37 | 40..=47)
}

/// Whether each number changes a pen.
pub(crate) fn are_renditions(numbers: &[u32]) -> bool
    ensures { result ≡ are_renditions numbers.now }
{
    numbers.iter().all(|n| is_rendition(*n))
}

/// A face after such a number, a parameter of the sequence that ends in `m`.
pub fn dressed(n: u32, face: Face) -> Face
    requires { is_rendition n ≡ true }
    ensures { result ≡ dressed n face }
{
    match n {
        0 => Face::PLAIN,
        1 => Face { bold: true, ..face },
        4 => Face {
            underline: true,
            ..face
        },
        7 => Face {
            inverse: true,
            ..face
        },
        30..=37 => Face {
            fg: (n - 30) as u8,
            ..face
        },
        _ => Face {
            bg: (n - 40) as u8,
            ..face
        },
    }
}

/// The numbers that make a plain face this one, in this order: 1 bold, 4 underline, 7 inverse, 30 and the colour of characters, 40
/// and the colour behind them.
pub fn numbers_of_face(face: Face) -> [Option<u32>; 5]
    ensures { result ≡ numbers_of_face face }
{
    [
        face.bold.then_some(1),
        face.underline.then_some(4),
        face.inverse.then_some(7),
        (face.fg != COLOURS).then_some(30 + face.fg as u32),
        (face.bg != COLOURS).then_some(40 + face.bg as u32),
    ]
}

/// A pen after such a number. Only 0 makes an unknown pen known.
fn pen_after(n: u32, pen: Option<Face>) -> Option<Face>
    requires { is_rendition n ≡ true }
    ensures { result ≡ pen_after n pen }
{
    match pen {
        Some(face) => Some(dressed(n, face)),
        None if n == 0 => Some(Face::PLAIN),
        None => None,
    }
}

/// A pen after such numbers, one after another.
pub(crate) fn pen_by(numbers: &[u32], pen: Option<Face>) -> Option<Face>
    requires { are_renditions numbers.now ≡ true }
    ensures { result ≡ pen_by numbers.now pen }
{
    let mut after = pen;
    for n in numbers {
        after = pen_after(*n, after);
    }
    after
}
