//! A source in memory.
ghost use Rattle.std.specs.Prelude.{◌≡◌, ◌≤◌, Some, length};

use crate::calls::Calls;
use crate::copy::copy_front;
use crate::traits::{Failed, Source, failure};

/// A source of given bytes, which fails at the calls that are set to fail.
#[derive(Drop)]
pub struct MemSource {
    bytes: Vec<u8>,
    at: usize,
    calls: Calls,
    pub ghost within: { at ≤ length bytes.items },
}

impl MemSource {
    /// A source of these bytes that never fails.
    pub fn new(bytes: Vec<u8>) -> MemSource
        ensures left { ⟦<MemSource as Source>⟧.left result ≡ Some bytes.items }
        ensures faults { ⟦<MemSource as Source>⟧.faults result ≡ 0 }
    {
        let none = Vec::new(*bytes.allocator());
        MemSource {
            bytes,
            at: 0,
            calls: Calls::new(none),
        }
    }

    /// This source, of which the calls with these numbers fail, counted from 1 behind this one.
    pub fn failing(mut self, calls: Vec<u64>) -> MemSource
        ensures left { ⟦<MemSource as Source>⟧.left result ≡ ⟦<MemSource as Source>⟧.left self }
        ensures faults { ⟦<MemSource as Source>⟧.faults result ≡ ⟦<MemSource as Source>⟧.faults self }
        ensures calls { result.calls ≡ record { made = 0; failing = calls; faults = self.calls.faults } }
    {
        self.calls.fail_at(calls);
        self
    }
}

impl Source for MemSource {
    ghost use Rattle.std.specs.Prelude.{Some, drop};

    ghost left = { λ s. Some (drop s.at s.bytes.items) };

    ghost faults = { λ s. s.calls.faults };

    fn read(&mut self, buf: &mut [u8]) -> Result<usize, Failed> {
        if self.calls.next_fails() {
            return Err(failure(&mut self.calls.faults));
        }
        let n = copy_front(buf, &self.bytes[self.at..]);
        self.at += n;
        Ok(n)
    }
}
