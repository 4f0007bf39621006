//! The terminal's bytes that were not fetched yet.
ghost use Rattle.std.specs.Prelude.{◌≡◌, [], drop, length};
ghost use Rattle.rd_embed.specs.Fills.{Fills};

use crate::fill::fill;
use rd_io::{Failed, Sink};
use std::alloc::Global;
use std::marker::Model;

/// The terminal's bytes that were not fetched yet. It is a sink that fails where there is no memory for more.
#[derive(Drop)]
pub struct Pending {
    bytes: Vec<u8>,
    from: usize,
    faults: u64,
}

impl Model for Pending {
    ghost use Rattle.std.specs.Prelude.{◌≤◌, drop, length};
    ghost use Rattle.rd_embed.specs.Waiting.{Waiting};

    ghost Value = { Waiting };

    ghost view = { λ p. record { bytes = drop p.from p.bytes.items; faults = p.faults } };

    ghost invariant = { λ p. p.from ≤ length p.bytes.items };
}

impl Pending {
    /// No bytes.
    pub fn new(alloc: Global) -> Pending
        ensures { result ≡ record { bytes = []; faults = 0 } }
    {
        Pending {
            bytes: Vec::new(alloc),
            from: 0,
            faults: 0,
        }
    }

    /// How many bytes there are.
    pub fn len(&self) -> usize
        ensures { result ≡ length self.now.bytes }
    {
        self.bytes.len() - self.from
    }

    /// Moves the first bytes to the front of a buffer, as many as it has room for, and answers how many.
    pub fn fetch(&mut self, out: &mut [u8]) -> usize
        ensures filled { Fills result self.old.bytes out.old out.new }
        ensures left { self.new ≡ record self.old { bytes = drop result self.old.bytes } }
    {
        let count = fill(out, &self.bytes[self.from..]);
        self.from += count;
        self.reuse();
        count
    }

    /// Takes the room of bytes that were fetched for those that come, where they are no fewer than those that are left: so a byte is moved
    /// once at the most.
    fn reuse(&mut self)
        ensures { self.new ≡ self.old }
    {
        let left = self.bytes.len() - self.from;
        if left <= self.from {
            self.bytes.copy_within(self.from.., 0);
            self.bytes.truncate(left);
            self.from = 0;
        }
    }
}

impl Sink for Pending {
    ghost use Rattle.std.specs.Prelude.{Some};

    ghost written = { λ p. Some p.bytes };

    ghost faults = { λ p. p.faults };

    fn write(&mut self, piece: &[u8]) -> Result<usize, Failed> {
        if self.bytes.extend_from_slice(piece).is_ok() {
            return Ok(piece.len());
        }
        self.faults = self.faults.saturating_add(1);
        Err(Failed)
    }
}
