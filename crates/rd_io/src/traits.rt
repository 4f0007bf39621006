//! What a source, files and a sink are, and the writing of whole pieces and of characters.
ghost use Rattle.std.specs.Prelude.{◌≡◌, ◌≤◌, ◌<◌, IfOk, OnOk, OnErr, length};
ghost use Rattle.std.specs.Io.{ReadsAtMost, WritesAtMost};
ghost use Rattle.std.specs.Io.KnownBytes.{ReadConsumes, WriteAppends};
ghost use Rattle.rd_base.specs.Chars.{encoded};
ghost use Rattle.rd_io.specs.Devices.{Rose, Fetches, Prints};

use rd_base::encode;
use thiserror::Error;

/// A device failed. Its count of faults has risen, unless it stood at its last value.
#[derive(Clone, Copy, Debug, PartialEq, Eq, Error)]
#[error("the device failed")]
pub struct Failed;

/// Counts a fault, and answers that the device failed. A count at its last value stays there.
pub(crate) fn failure(faults: &mut u64) -> Failed
    ensures rose { Rose faults.old faults.new }
    ensures never_falls { faults.old ≤ faults.new }
{
    *faults = faults.saturating_add(1);
    Failed
}

/// Where bytes come from, one after the other. Its count of faults rises in a call that fails, and in no other.
pub trait Source {
    ghost use Rattle.std.specs.Prelude.{ℕ, List, Option};

    // the bytes that are left, where they are known
    ghost left: { Self → Option (List ℕ) };

    // how often the source has failed; a count at its last value stays there
    ghost faults: { Self → ℕ };

    /// Reads some of the bytes that are left into the front of `buf`, and answers how many: 0 on a non-empty `buf` is the end.
    /// A call that failed took nothing.
    fn read(&mut self, buf: &mut [u8]) -> Result<usize, Failed>
        ensures bound { ReadsAtMost result buf.new }
        ensures bytes { ReadConsumes (left self.old) (left self.new) result buf.new }
        ensures never_falls { faults self.old ≤ faults self.new }
        ensures kept { OnOk result (faults self.new ≡ faults self.old) }
        ensures failed { OnErr result (Rose (faults self.old) (faults self.new)) };
}

/// Files by name. The count of faults of a name rises in a call for it that fails, and none rises in a call that does not fail.
pub trait Files {
    ghost use Rattle.std.specs.Prelude.{ℕ, List, Option};

    // the bytes of the file of a name, where they are known
    ghost contents: { Self → List ℕ → Option (List ℕ) };

    // how often the file of a name has failed
    ghost faults: { Self → List ℕ → ℕ };

    /// Reads bytes of a file into the front of `buf`, from an offset on that counts from 0, and answers how many: 0 on a
    /// non-empty `buf` means that the file has no byte at `from` or later. A missing file is a failure.
    fn fetch(&mut self, name: &str, from: u64, buf: &mut [u8]) -> Result<usize, Failed>
        ensures bound { ReadsAtMost result buf.new }
        ensures bytes { Fetches (contents self.old name.now) from result buf.new }
        ensures contents { (file : List ℕ) → contents self.new file ≡ contents self.old file }
        ensures never_falls { (file : List ℕ) → faults self.old file ≤ faults self.new file }
        ensures kept { OnOk result ((file : List ℕ) → faults self.new file ≡ faults self.old file) }
        ensures failed { OnErr result (Rose (faults self.old name.now) (faults self.new name.now)) };
}

/// Where bytes go to, one after the other. Its count of faults rises in a call that fails, and in no other.
pub trait Sink {
    ghost use Rattle.std.specs.Prelude.{ℕ, List, Option};

    // the bytes that were written, where they are known
    ghost written: { Self → Option (List ℕ) };

    // how often the sink has failed
    ghost faults: { Self → ℕ };

    /// Writes a front of the piece, at least one byte of a piece that is not empty, and answers how many. A call that failed
    /// wrote nothing.
    fn write(&mut self, piece: &[u8]) -> Result<usize, Failed>
        ensures bound { WritesAtMost result piece.now }
        ensures bytes { WriteAppends (written self.old) (written self.new) result piece.now }
        ensures some { 0 < length piece.now → IfOk result (λ n. 0 < n) }
        ensures never_falls { faults self.old ≤ faults self.new }
        ensures kept { OnOk result (faults self.new ≡ faults self.old) }
        ensures failed { OnErr result (Rose (faults self.old) (faults self.new)) };
}

/// Writes all the bytes. After a failure a front of them was written, and not all.
pub fn write_whole<K: Sink>(sink: &mut K, bytes: &[u8]) -> Result<(), Failed>
    ensures { Prints (K.written sink.old) (K.written sink.new) (K.faults sink.old) (K.faults sink.new) bytes.now result }
{
    let mut rest = bytes;
    while !rest.is_empty() {
        let n = sink.write(rest)?;
        rest = rest.split_at(n).1;
    }
    Ok(())
}

/// Writes a scalar value's code in UTF-8, and nothing for a number that is none.
pub fn write_character<K: Sink>(sink: &mut K, code: u32) -> Result<(), Failed>
    ensures { Prints (K.written sink.old) (K.written sink.new) (K.faults sink.old) (K.faults sink.new) (encoded code) result }
{
    write_whole(sink, encode(code, &mut [0; 4]))
}
