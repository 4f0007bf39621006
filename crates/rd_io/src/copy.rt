//! The copying of bytes into a buffer, and behind others up to a limit.
ghost use Rattle.std.specs.Prelude.{◌≡◌, length, min, take};
ghost use Rattle.rd_io.specs.Files.{PutsWithin};

use std::alloc::AllocError;

/// Copies as many of the bytes as there is room for, and answers how many.
pub fn copy_front(buf: &mut [u8], bytes: &[u8]) -> usize
    ensures value { result ≡ min (length bytes.now) (length buf.old) }
    ensures copied { take result buf.new ≡ take result bytes.now }
{
    let n = bytes.len().min(buf.len());
    buf[..n].copy_from_slice(&bytes[..n]);
    n
}

/// Adds bytes where there are at most so many then, and answers whether it did.
pub fn put_within(bytes: &mut Vec<u8>, piece: &[u8], most: usize) -> Result<bool, AllocError>
    ensures { PutsWithin result bytes.old.items bytes.new.items piece.now most }
{
    if bytes.len() > most || piece.len() > most - bytes.len() {
        return Ok(false);
    }
    bytes.extend_from_slice(piece)?;
    Ok(true)
}
