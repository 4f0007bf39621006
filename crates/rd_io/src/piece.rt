//! A piece of fixed size, in which a text is made that is then written at once.
ghost use Rattle.std.specs.Prelude.{◌≡◌, [], Some};

use crate::traits::{Failed, Sink, failure};
use arrayvec::ArrayVec;

/// The most bytes of a piece, which are more than the longest line of a dump has, that of a row of 400 columns: 28 bytes for each
/// character with its marks, 20 for each run of one column, as ` 399-399:1;4;7;37;47`, and at most 11 for the rest, 19,211 together.
pub const PIECE_BYTES: usize = 20_480;

/// Bytes that are kept without taking memory. It is a sink that fails where it has no room for more.
#[derive(Drop)]
pub struct Piece {
    bytes: ArrayVec<u8, PIECE_BYTES>,
    refused: u64,
}

impl Piece {
    /// No bytes.
    pub fn new() -> Piece
        ensures { ⟦<Piece as Sink>⟧.written result ≡ Some [] }
    {
        Piece {
            bytes: ArrayVec::new(),
            refused: 0,
        }
    }

    /// The bytes that were kept.
    pub fn bytes(&self) -> &[u8]
        ensures { ⟦<Piece as Sink>⟧.written self.now ≡ Some result.now }
    {
        self.bytes.as_slice()
    }
}

impl Sink for Piece {
    ghost use Rattle.std.specs.Prelude.{Some};

    ghost written = { λ p. Some p.bytes.items };

    ghost faults = { λ p. p.refused };

    fn write(&mut self, piece: &[u8]) -> Result<usize, Failed> {
        match self.bytes.try_extend_from_slice(piece) {
            Ok(()) => Ok(piece.len()),
            Err(_full) => Err(failure(&mut self.refused)),
        }
    }
}
