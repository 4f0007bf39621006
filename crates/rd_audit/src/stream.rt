//! The recorded stream.
ghost use Rattle.std.specs.Prelude.{◌≡◌, ◌≤◌, ℕ, List, IsErrOf};
ghost use Rattle.std.specs.Io.KnownBytes.{Consumes};
ghost use Rattle.rd_io.specs.Devices.{Rose};
ghost use Rattle.rd_audit.specs.Results.{Feeds, KeepsStream};

use rd_base::limits::STREAM_BYTES;
use rd_io::{Failed, Source};
use rd_term::Terminal;
use thiserror::Error;

/// How many bytes are read at a time.
const ROOM: usize = 4096;

/// Why a stream was not read to its end.
#[derive(Clone, Copy, Debug, Error)]
pub enum StreamFault {
    /// The stream failed.
    #[error("the stream failed")]
    Failed,
    /// The stream has more than 16,777,216 bytes.
    #[error("the stream is too long")]
    TooLong,
}

impl From<Failed> for StreamFault {
    ghost use Rattle.std.specs.Prelude.{◌≡◌};
    ghost use Rattle.rd_audit.specs.declared.stream.StreamFault.TheVariants as faults;

    ghost from_gives = { λ _ e. e ≡ faults.Failed };

    fn from(_failed: Failed) -> StreamFault {
        StreamFault::Failed
    }
}

/// Has a terminal read a stream to its end.
pub fn feed_stream<S: Source>(terminal: &mut Terminal, stream: &mut S) -> Result<(), StreamFault>
    ensures fed { (bytes : List ℕ) × Consumes (S.left stream.old) (S.left stream.new) bytes × Feeds result terminal.old terminal.new bytes (S.left stream.new) }
    ensures never_falls { S.faults stream.old ≤ S.faults stream.new }
    ensures kept { KeepsStream result (S.faults stream.old) (S.faults stream.new) }
    ensures failed { IsErrOf result StreamFault.Failed → Rose (S.faults stream.old) (S.faults stream.new) }
{
    let mut room = [0; ROOM];
    let mut taken = 0;
    loop {
        let n = stream.read(&mut room)?;
        if n == 0 {
            return Ok(());
        }
        if n as u32 > STREAM_BYTES - taken {
            return Err(StreamFault::TooLong);
        }
        terminal.feed(room.split_at(n).0);
        taken += n as u32;
    }
}
