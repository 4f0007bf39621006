//! Faces: what a cell looks like besides its character.
ghost use Rattle.std.specs.Prelude.{◌≡◌};
ghost use Rattle.rd_base.specs.Faces.{over};
ghost use Rattle.rd_base.specs.Equals.{same_face};

use crate::limits::COLOURS;
use std::marker::Model;

/// Colours and flags of a cell. A colour is below `COLOURS`, and that number is none.
#[derive(Clone, Copy, Debug, PartialEq, Eq)]
pub struct Face {
    /// The colour of the character.
    pub fg: u8,
    /// The colour behind it.
    pub bg: u8,
    pub bold: bool,
    pub underline: bool,
    pub inverse: bool,
}

impl Model for Face {
    ghost use Rattle.std.specs.Prelude.{◌≤◌};
    ghost use Rattle.rd_base.specs.Faces.{Attributes};
    ghost use Rattle.rd_base.specs.declared.limits.TheConstants.{COLOURS};

    ghost Value = { Attributes };

    ghost view = { λ f. record { fg = f.fg; bg = f.bg; bold = f.bold; underline = f.underline; inverse = f.inverse } };

    ghost invariant = { λ f. (f.fg ≤ COLOURS) × (f.bg ≤ COLOURS) };

    ghost inverse = { λ s. record { fg = s.fg; bg = s.bg; bold = s.bold; underline = s.underline; inverse = s.inverse } };
}

impl Face {
    /// No colour and no flag.
    pub const PLAIN: Face = Face {
        fg: COLOURS,
        bg: COLOURS,
        bold: false,
        underline: false,
        inverse: false,
    };

    /// This face laid over another: each colour of this one unless it is none, and each flag that either has.
    pub fn over(self, under: Face) -> Face
        ensures { result ≡ over self under }
    {
        Face {
            fg: if self.fg == COLOURS {
                under.fg
            } else {
                self.fg
            },
            bg: if self.bg == COLOURS {
                under.bg
            } else {
                self.bg
            },
            bold: self.bold || under.bold,
            underline: self.underline || under.underline,
            inverse: self.inverse || under.inverse,
        }
    }

    /// Whether both have the same colours and flags.
    pub fn is_same(self, other: Face) -> bool
        ensures { result ≡ same_face self other }
    {
        self == other
    }
}
