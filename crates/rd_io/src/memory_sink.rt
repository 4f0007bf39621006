//! A sink in memory.
ghost use Rattle.std.specs.Prelude.{◌≡◌, ◌≤◌, [], Some, IfOk, length};

use crate::calls::Calls;
use crate::traits::{Failed, Sink, failure};
use rd_base::Memory;
use std::alloc::Global;

/// A sink with room for so many bytes, which fails where no room is left and at the calls that are set to fail.
#[derive(Drop)]
pub struct MemSink {
    room: Vec<u8>,
    taken: usize,
    calls: Calls,
    pub ghost within: { taken ≤ length room.items },
}

impl MemSink {
    /// A sink with room for so many bytes. All of it is taken by this call, so that a write takes no memory.
    pub fn with_room(alloc: Global, bytes: u64) -> Result<MemSink, Memory>
        ensures written { IfOk result (λ sink. ⟦<MemSink as Sink>⟧.written sink ≡ Some []) }
        ensures faults { IfOk result (λ sink. ⟦<MemSink as Sink>⟧.faults sink ≡ 0) }
        ensures room { IfOk result (λ sink. length sink.room.items ≡ bytes) }
    {
        Ok(MemSink {
            room: Vec::from_elem(alloc, 0, bytes as usize)?,
            taken: 0,
            calls: Calls::new(Vec::new(alloc)),
        })
    }

    /// This sink, of which the calls with these numbers fail, counted from 1 behind this one.
    pub fn failing(mut self, calls: Vec<u64>) -> MemSink
        ensures written { ⟦<MemSink as Sink>⟧.written result ≡ ⟦<MemSink as Sink>⟧.written self }
        ensures faults { ⟦<MemSink as Sink>⟧.faults result ≡ ⟦<MemSink as Sink>⟧.faults self }
        ensures calls { result.calls ≡ record { made = 0; failing = calls; faults = self.calls.faults } }
    {
        self.calls.fail_at(calls);
        self
    }

    /// The bytes that were written.
    pub fn bytes(&self) -> &[u8]
        ensures { ⟦<MemSink as Sink>⟧.written self.now ≡ Some result.now }
    {
        &self.room[..self.taken]
    }
}

impl Sink for MemSink {
    ghost use Rattle.std.specs.Prelude.{Some, take};

    ghost written = { λ s. Some (take s.taken s.room.items) };

    ghost faults = { λ s. s.calls.faults };

    fn write(&mut self, piece: &[u8]) -> Result<usize, Failed> {
        let left = self.room.len() - self.taken;
        if self.calls.next_fails() || left == 0 && !piece.is_empty() {
            return Err(failure(&mut self.calls.faults));
        }
        let n = left.min(piece.len());
        self.room[self.taken..self.taken + n].copy_from_slice(&piece[..n]);
        self.taken += n;
        Ok(n)
    }
}
