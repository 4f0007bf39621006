//! Why a line is no op.
use rd_base::{Ch, ListOf, Memory};
use thiserror::Error;

/// The first fault of a line, in the order of the checks: the JSON text, the object, the key `op` with its name, each field in the
/// order of the op's row, and the other keys.
#[derive(Debug, Drop, Error)]
pub enum OpFault {
    /// The bytes are no UTF-8 or no JSON text, or arrays and objects nest more than 127 deep.
    #[error("not a JSON text")]
    NotJson,
    /// The value is not an object.
    #[error("not an object")]
    NotObject,
    /// No op has this name.
    #[error("no such op")]
    NoSuchOp,
    /// The key of a field that is asked for and absent.
    #[error("a field is missing")]
    Missing(ListOf<Ch>),
    /// The key of a field whose value is of another kind, or out of range.
    #[error("a field has a bad value")]
    BadField(ListOf<Ch>),
    /// The first key in byte order that the op does not have.
    #[error("a field too many")]
    Extra(ListOf<Ch>),
    /// Want of memory, which may be answered at any time, whatever the line says.
    #[error("no memory")]
    Memory,
}

impl From<Memory> for OpFault {
    ghost use Rattle.std.specs.Prelude.{◌≡◌};
    ghost use Rattle.rd_script.specs.declared.fault.OpFault.TheVariants as faults;

    ghost from_gives = { λ _ e. e ≡ faults.Memory };

    fn from(_none: Memory) -> OpFault {
        OpFault::Memory
    }
}
