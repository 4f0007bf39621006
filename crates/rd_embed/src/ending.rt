//! How the last op, line or redisplay ended.
ghost use Rattle.std.specs.Prelude.{◌≡◌};
ghost use Rattle.rd_embed.specs.Endings.{ending_of_fault, refusal, status_of, status_of_fault, status_of_refusal};

use crate::status::Status;
use rd_script::OpFault;
use rd_state::Refused;

/// How an op, a line or a redisplay ended.
#[derive(Debug, Drop)]
pub enum Ending {
    /// It was done.
    Done,
    /// A redisplay stopped at its most rows, and more differ.
    Stopped,
    /// Want of memory.
    NoMemory,
    /// A text is no UTF-8.
    BadText,
    /// An argument is not in the range of the op's field.
    BadArgument,
    /// A line has too many bytes.
    TooLong,
    /// A line is no op.
    NoOp(OpFault),
    /// An op was refused.
    Refused(Refused),
}

impl Ending {
    /// How an op ended that was refused.
    pub(crate) fn refusal(refused: Refused) -> Ending
        ensures { result ≡ refusal refused }
    {
        match refused {
            Refused::Memory => Ending::NoMemory,
            refused => Ending::Refused(refused),
        }
    }

    /// How a line ended that is no op.
    pub(crate) fn no_op(fault: OpFault) -> Ending
        ensures { result ≡ ending_of_fault fault }
    {
        match fault {
            OpFault::Memory => Ending::NoMemory,
            fault => Ending::NoOp(fault),
        }
    }

    /// The status that tells it.
    pub(crate) fn status(&self) -> Status
        ensures { result ≡ status_of self.now }
    {
        match self {
            Ending::Done => Status::Done,
            Ending::Stopped => Status::Stopped,
            Ending::NoMemory => Status::NoMemory,
            Ending::BadText => Status::BadText,
            Ending::BadArgument => Status::BadArgument,
            Ending::TooLong => Status::TooLong,
            Ending::NoOp(fault) => status_of_fault(fault),
            Ending::Refused(refused) => status_of_refusal(*refused),
        }
    }
}

/// The status that tells why a line is no op.
fn status_of_fault(fault: &OpFault) -> Status
    ensures { result ≡ status_of_fault fault.now }
{
    match fault {
        OpFault::NotJson => Status::NotJson,
        OpFault::NotObject => Status::NotObject,
        OpFault::NoSuchOp => Status::NoSuchOp,
        OpFault::Missing(_) => Status::Missing,
        OpFault::BadField(_) => Status::BadField,
        OpFault::Extra(_) => Status::Extra,
        OpFault::Memory => Status::NoMemory,
    }
}

/// The status that tells why an op was refused.
fn status_of_refusal(refused: Refused) -> Status
    ensures { result ≡ status_of_refusal refused }
{
    match refused {
        Refused::NoBuffer => Status::NoBuffer,
        Refused::NoWindow => Status::NoWindow,
        Refused::NoOverlay => Status::NoOverlay,
        Refused::NoObject => Status::NoObject,
        Refused::OutOfRange => Status::OutOfRange,
        Refused::NameTaken => Status::NameTaken,
        Refused::TextTooLarge => Status::TextTooLarge,
        Refused::ObjectTooLong => Status::ObjectTooLong,
        Refused::TooManyBuffers => Status::TooManyBuffers,
        Refused::TooManyWindows => Status::TooManyWindows,
        Refused::TooManyOverlays => Status::TooManyOverlays,
        Refused::TooManyObjects => Status::TooManyObjects,
        Refused::TooSmall => Status::TooSmall,
        Refused::LastWindow => Status::LastWindow,
        Refused::BadFormat(_) => Status::BadFormat,
        Refused::NotShown => Status::NotShown,
        Refused::Memory => Status::NoMemory,
    }
}
