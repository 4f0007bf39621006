//! The look of a face, as a program in another language has it.
ghost use Rattle.std.specs.Prelude.{◌≡◌, ◌≤◌, IfSome};
ghost use Rattle.rd_embed.specs.Choices.{colour_number, colour_of, coloured, face_of, look_of};

use crate::choices::NONE;
use rd_base::Face;
use rd_base::limits::COLOURS;

/// The bytes of a face's look.
pub const FACE_BYTES: u32 = 16;

/// The look of a face: its size in bytes, two colours from 0 to 7 or `NONE`, and flags.
#[repr(C)]
#[derive(Clone, Copy, Debug, PartialEq, Eq)]
pub struct FaceLook {
    pub size: u32,
    pub foreground: u32,
    pub background: u32,
    pub bold: bool,
    pub underline: bool,
    pub inverse: bool,
    pub reserved: bool,
}

impl FaceLook {
    /// The face, where the look has the size of one and its colours are in range.
    pub(crate) fn face(&self) -> Option<Face>
        ensures { result ≡ face_of self.now }
    {
        if self.size != FACE_BYTES {
            return None;
        }
        let fg = colour_of(self.foreground)?;
        let bg = colour_of(self.background)?;
        Some(Face {
            fg,
            bg,
            bold: self.bold,
            underline: self.underline,
            inverse: self.inverse,
        })
    }

    /// The look of a face.
    pub(crate) fn of(face: Face) -> FaceLook
        ensures { result ≡ look_of face }
    {
        FaceLook {
            size: FACE_BYTES,
            foreground: colour_number(face.fg),
            background: colour_number(face.bg),
            bold: face.bold,
            underline: face.underline,
            inverse: face.inverse,
            reserved: false,
        }
    }
}

/// A colour by its number: below 8, or none.
fn colour_of(number: u32) -> Option<u8>
    ensures value { result ≡ colour_of number }
    ensures range { IfSome result (λ colour. colour ≤ COLOURS) }
{
    if number == NONE {
        Some(COLOURS)
    } else if number < COLOURS as u32 {
        Some(number as u8)
    } else {
        None
    }
}

/// The number of a colour.
fn colour_number(colour: u8) -> u32
    ensures { result ≡ colour_number colour }
{
    if colour == COLOURS {
        NONE
    } else {
        colour as u32
    }
}
