//! Files in memory.
ghost use Rattle.std.specs.Prelude.{ℕ, List, ◌≡◌, ◌≤◌, ◌<◌, ◌==◌, ◌∷◌, ◌++◌, [], length, take, position, drop, is_some, Some, IfSome, if◌then◌else◌};
ghost use Rattle.rd_io.specs.Memory.{place_in, bytes_at};

use crate::copy::copy_front;
use crate::traits::{Failed, Files, failure};

/// Files by name, which fail at the calls that are set to fail. A fetch from a name without a file fails too. One count is kept for
/// each file, and one for all other names. Of several files of one name the first counts.
#[derive(Drop)]
pub struct MemFiles {
    files: Vec<(String, Vec<u8>)>,
    made: u64,
    log: FaultLog,
    missing: u64,
}

impl MemFiles {
    /// Files of these names and bytes, which never fail.
    pub fn new(files: Vec<(String, Vec<u8>)>) -> MemFiles
        ensures contents { (name : List ℕ) → ⟦<MemFiles as Files>⟧.contents result name ≡ bytes_at files.items (place_in files.items name) }
        ensures never { result.log.entries.items ≡ [] }
        ensures faults { (name : List ℕ) → ⟦<MemFiles as Files>⟧.faults result name ≡ 0 }
    {
        let none = Vec::new(*files.allocator());
        MemFiles {
            files,
            made: 0,
            log: FaultLog::new(none),
            missing: 0,
        }
    }

    /// These files, of which the calls with these numbers fail, counted from 1 behind this one. Their counts of faults begin at 0.
    pub fn failing(self, calls: Vec<u64>) -> MemFiles
        ensures contents { (name : List ℕ) → ⟦<MemFiles as Files>⟧.contents result name ≡ ⟦<MemFiles as Files>⟧.contents self name }
        ensures calls { result.log.entries ≡ calls }
        ensures faults { (name : List ℕ) → ⟦<MemFiles as Files>⟧.faults result name ≡ 0 }
    {
        MemFiles {
            files: self.files,
            made: 0,
            log: FaultLog::new(calls),
            missing: 0,
        }
    }
}

impl Files for MemFiles {
    ghost use Rattle.std.specs.Prelude.{take};
    ghost use Rattle.rd_io.specs.Memory.{place_in, bytes_at, faults_at};

    ghost contents = { λ s name. bytes_at s.files.items (place_in s.files.items name) };

    ghost faults = { λ s name. faults_at (place_in s.files.items name) (take s.log.failed s.log.entries.items) s.missing };

    fn fetch(&mut self, name: &str, from: u64, buf: &mut [u8]) -> Result<usize, Failed> {
        self.made = self.made.saturating_add(1);
        let Some(place) = place_of(&self.files, name) else {
            return Err(failure(&mut self.missing));
        };
        if self.log.fails(self.made, place as u64) {
            return Err(Failed);
        }
        Ok(copy_from(bytes_of(&self.files, place), from, buf))
    }
}

/// Copies the bytes of a file from an offset on, and answers how many.
fn copy_from(bytes: &[u8], from: u64, buf: &mut [u8]) -> usize
    ensures bound { result ≤ length buf.new }
    ensures copied { take result buf.new ≡ take result (drop from bytes.now) }
    ensures end { result ≡ 0 → 0 < length buf.new → length bytes.now ≤ from }
{
    let start = (from as usize).min(bytes.len());
    copy_front(buf, &bytes[start..])
}

/// The place of the first file of a name, counted from 0.
fn place_of(files: &[(String, Vec<u8>)], name: &str) -> Option<usize>
    ensures value { result ≡ place_in files.now name.now }
    ensures bound { IfSome result (λ place. place < length files.now) }
{
    files.iter().position(|file| file.0.as_str() == name)
}

/// The bytes of the file of a place.
fn bytes_of(files: &[(String, Vec<u8>)], place: usize) -> &[u8]
    requires { place < length files.now }
    ensures { bytes_at files.now (Some place) ≡ Some result.now }
{
    files[place].1.as_slice()
}

/// The calls that are to fail by their numbers, and in front of them, in their stead, the places of the files where some did.
#[derive(Drop)]
pub struct FaultLog {
    entries: Vec<u64>,
    failed: usize,
    pub ghost within: { failed ≤ length entries.items },
}

impl FaultLog {
    /// A log of calls that are to fail, by their numbers, of which none has failed.
    pub fn new(entries: Vec<u64>) -> FaultLog
        ensures entries { result.entries ≡ entries }
        ensures failed { result.failed ≡ 0 }
    {
        FaultLog { entries, failed: 0 }
    }

    /// Whether this call is to fail. If so, the place of its file is noted.
    pub fn fails(&mut self, call: u64, place: u64) -> bool
        ensures noted { take self.new.failed self.new.entries.items ≡ take self.old.failed self.old.entries.items ++ (if result then place ∷ [] else []) }
        ensures listed { result ≡ is_some (position (λ entry. entry == call) (drop self.old.failed self.old.entries.items)) }
    {
        let Some(i) = call_in(&self.entries[self.failed..], call) else {
            return false;
        };
        self.entries[self.failed + i] = self.entries[self.failed];
        self.entries[self.failed] = place;
        self.failed += 1;
        true
    }
}

/// The place of the first entry for a call.
fn call_in(entries: &[u64], call: u64) -> Option<usize>
    ensures value { result ≡ position (λ entry. entry == call) entries.now }
    ensures bound { IfSome result (λ i. i < length entries.now) }
{
    entries.iter().position(|entry| *entry == call)
}
