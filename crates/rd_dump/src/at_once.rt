//! Texts that are written in one piece where a `Piece` has room for them.
ghost use Rattle.rd_io.specs.Devices.{Prints};

use crate::print::{Token, print_tokens};
use rd_io::{Failed, Piece, Sink, write_whole};

/// What has a text that can be written to any sink, without taking memory.
pub trait Printed {
    ghost use Rattle.std.specs.Prelude.{ℕ, List};

    // the text
    ghost text: { Self → List ℕ };

    /// Writes the text.
    fn print<K: Sink>(&self, sink: &mut K) -> Result<(), Failed>
        ensures { Prints (K.written sink.old) (K.written sink.new) (K.faults sink.old) (K.faults sink.new) (text self.now) result };
}

/// Writes a text, in one piece where a piece has room for it.
pub fn print_at_once<K: Sink, T: Printed>(sink: &mut K, thing: &T) -> Result<(), Failed>
    ensures { Prints (K.written sink.old) (K.written sink.new) (K.faults sink.old) (K.faults sink.new) (T.text thing.now) result }
{
    let mut piece = Piece::new();
    match thing.print(&mut piece) {
        Ok(()) => write_whole(sink, piece.bytes()),
        Err(_full) => thing.print(sink),
    }
}

/// A line of tokens.
#[derive(Clone, Copy)]
pub struct TokenLine<'a>(pub &'a [Token<'a>]);

impl Printed for TokenLine<'_> {
    ghost use Rattle.rd_dump.specs.Dumps.{tokens_text};

    ghost text = { λ line. tokens_text line.0.now };

    fn print<K: Sink>(&self, sink: &mut K) -> Result<(), Failed> {
        print_tokens(sink, self.0)
    }
}
