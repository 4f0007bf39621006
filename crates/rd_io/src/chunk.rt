//! The bytes that a reader of lines took from its source ahead of the line.
ghost use Rattle.std.specs.Prelude.{◌≡◌, ◌≤◌, [], drop, length, IfOk, OnOk, OnErr};
ghost use Rattle.std.specs.Io.KnownBytes.{Consumes, Keeps, IsAtEnd};
ghost use Rattle.rd_io.specs.Devices.{Rose};

use crate::traits::{Failed, Source};
use rd_base::Memory;
use std::alloc::Global;
use std::marker::Model;

/// How many bytes are read at a time.
pub const READ_BYTES: usize = 8192;

/// Bytes in a room of a fixed size. Contracts see the list of those that were not used up yet.
#[derive(Drop)]
pub struct Chunk {
    room: Vec<u8>,
    from: usize,
    to: usize,
}

impl Model for Chunk {
    ghost use Rattle.std.specs.Prelude.{ℕ, List, ◌≡◌, ◌≤◌, slice_range, length};
    ghost use Rattle.rd_io.specs.declared.chunk.TheConstants.{READ_BYTES};

    ghost Value = { List ℕ };

    ghost view = { λ c. slice_range c.room.items c.from c.to };

    ghost invariant = { λ c. (c.from ≤ c.to) × (c.to ≤ length c.room.items) × (length c.room.items ≡ READ_BYTES) };
}

impl Chunk {
    /// No bytes, and the room for some.
    pub fn new(alloc: Global) -> Result<Chunk, Memory>
        ensures { IfOk result (λ chunk. chunk ≡ []) }
    {
        Ok(Chunk {
            room: Vec::from_elem(alloc, 0, READ_BYTES)?,
            from: 0,
            to: 0,
        })
    }

    /// The bytes that were not used up.
    pub fn rest(&self) -> &[u8]
        ensures { result.now ≡ self.now }
    {
        &self.room[self.from..self.to]
    }

    /// Uses up the first `n` bytes.
    pub fn skip(&mut self, n: usize)
        requires { n ≤ length self.old }
        ensures { self.new ≡ drop n self.old }
    {
        self.from += n;
    }

    /// Uses up all bytes.
    pub fn clear(&mut self)
        ensures { self.new ≡ [] }
    {
        self.from = self.to;
    }

    /// Takes bytes from the source in place of those that were here. It takes none only at the source's end.
    pub fn refill<S: Source>(&mut self, source: &mut S) -> Result<(), Failed>
        ensures ok { OnOk result (Consumes (S.left source.old) (S.left source.new) self.new) }
        ensures end { OnOk result (self.new ≡ [] → IsAtEnd (S.left source.new)) }
        ensures err { OnErr result (Keeps (S.left source.old) (S.left source.new) × (self.new ≡ [])) }
        ensures never_falls { S.faults source.old ≤ S.faults source.new }
        ensures kept { OnOk result (S.faults source.new ≡ S.faults source.old) }
        ensures few { length self.new ≤ READ_BYTES }
        ensures failed { OnErr result (Rose (S.faults source.old) (S.faults source.new)) }
    {
        self.from = 0;
        self.to = 0;
        self.to = source.read(&mut self.room)?;
        Ok(())
    }
}
