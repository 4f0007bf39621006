//! The reading of whole files.
ghost use Rattle.std.specs.Prelude.{◌≡◌, ◌≤◌, ◌<◌, ℕ, List, IfOk, IfSome, IsErrOf, length};
ghost use Rattle.rd_io.specs.Devices.{Rose};
ghost use Rattle.rd_io.specs.Files.{Keeps};

use crate::copy::put_within;
use crate::traits::Files;
use rd_base::limits::FILE_BYTES;
use std::alloc::{AllocError, Global};
use thiserror::Error;

/// Why a file was not read.
#[derive(Clone, Copy, Debug, PartialEq, Eq, Error)]
pub enum FileFault {
    /// The file failed, or there is none.
    #[error("the file failed")]
    Failed,
    /// The file has more than 8,388,608 bytes.
    #[error("the file is too large")]
    TooLarge,
    /// Want of memory, which may be answered at any time.
    #[error("no memory")]
    Memory,
}

impl From<AllocError> for FileFault {
    ghost use Rattle.std.specs.Prelude.{◌≡◌};
    ghost use Rattle.rd_io.specs.declared.file.FileFault.TheVariants.{Memory};

    ghost from_gives = { λ _ e. e ≡ Memory };

    fn from(_none: AllocError) -> FileFault {
        FileFault::Memory
    }
}

/// How many bytes are fetched at a time.
const FETCH_BYTES: usize = 65_536;

/// Reads the file of a name whole, piece after piece until a fetch answers that there is no more. The contents of the
/// files that contracts know stay the same.
///
/// `Failed` comes only where a fetch of this name failed, as for a file that is not there, and its count of faults rose in the
/// call; with every other answer all counts are as they were. `TooLarge` comes exactly where the file has more than 8,388,608 bytes; it is then read no further. The cost is linear in
/// the bytes that are read, and so is the memory.
pub fn read_file<F: Files>(alloc: Global, files: &mut F, name: &str) -> Result<Vec<u8>, FileFault>
    ensures whole { IfOk result (λ bytes. IfSome (F.contents files.old name.now) (λ file. bytes.items ≡ file)) }
    ensures small { IfOk result (λ bytes. length bytes.items ≤ FILE_BYTES) }
    ensures large { IsErrOf result FileFault.TooLarge → IfSome (F.contents files.old name.now) (λ file. FILE_BYTES < length file) }
    ensures contents { (file : List ℕ) → F.contents files.new file ≡ F.contents files.old file }
    ensures never_falls { (file : List ℕ) → F.faults files.old file ≤ F.faults files.new file }
    ensures kept { (file : List ℕ) → Keeps result (F.faults files.old file) (F.faults files.new file) }
    ensures failed { IsErrOf result FileFault.Failed → Rose (F.faults files.old name.now) (F.faults files.new name.now) }
{
    let mut held = room(alloc)?;
    let buffer = held.as_mut_slice();
    let mut bytes = Vec::new(alloc);
    loop {
        let Ok(n) = files.fetch(name, bytes.len() as u64, buffer) else {
            return Err(FileFault::Failed);
        };
        if n == 0 {
            return Ok(bytes);
        }
        if !put_within(&mut bytes, buffer.split_at(n).0, FILE_BYTES as usize)? {
            return Err(FileFault::TooLarge);
        }
    }
}

/// Room for the bytes of one fetch.
fn room(alloc: Global) -> Result<Vec<u8>, AllocError>
    ensures { IfOk result (λ room. 0 < length room.items) }
{
    Vec::from_elem(alloc, 0, FETCH_BYTES)
}
