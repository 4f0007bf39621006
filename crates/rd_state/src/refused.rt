//! `Refused`, why an op is refused, and what the refusals of the layers below become here.
use rd_base::Memory;
use rd_modeline::FormatFault;
use rd_objects::ObjectFault;
use rd_overlays::OverlayFault;
use rd_text::TextFault;
use rd_tree::TreeFault;
use thiserror::Error;

/// Why an op is refused.
#[derive(Clone, Copy, Debug, PartialEq, Eq, Error)]
pub enum Refused {
    /// No buffer has the name.
    #[error("no such buffer")]
    NoBuffer,
    /// No window has the number.
    #[error("no such window")]
    NoWindow,
    /// No overlay of the buffer has the number.
    #[error("no such overlay")]
    NoOverlay,
    /// No object has the number.
    #[error("no such object")]
    NoObject,
    /// A position or a range is not where the op asks it to be.
    #[error("out of range")]
    OutOfRange,
    /// A buffer has the name already.
    #[error("name taken")]
    NameTaken,
    /// The text would have more than 4,194,304 characters.
    #[error("text too large")]
    TextTooLarge,
    /// The string would have more than 4,096 characters.
    #[error("object too long")]
    ObjectTooLong,
    /// There are 64 buffers.
    #[error("too many buffers")]
    TooManyBuffers,
    /// 64 windows live, or 4,294,967,295 were made.
    #[error("too many windows")]
    TooManyWindows,
    /// 65,536 overlays were made in the buffer.
    #[error("too many overlays")]
    TooManyOverlays,
    /// As many objects of the sort were made as there may be: 4,096 strings, 4,096 display specs, 1,024 faces, 64 tables.
    #[error("too many objects")]
    TooManyObjects,
    /// A window would have fewer columns or rows than it needs.
    #[error("too small")]
    TooSmall,
    /// The window is the only one.
    #[error("last window")]
    LastWindow,
    /// At this place of the format, counted from 0 in characters, stands a `%` that no code follows. It is the first such place.
    #[error("bad format at {0}")]
    BadFormat(u64),
    /// The window was not laid out since what it shows may have changed. No op of the state is refused so: the layer that holds the last
    /// layouts answers it.
    #[error("not shown")]
    NotShown,
    /// Want of memory, which an op that takes memory may answer at any time; then nothing has changed.
    #[error("no memory")]
    Memory,
}

impl From<Memory> for Refused {
    ghost use Rattle.std.specs.Prelude.{◌≡◌};
    ghost use Rattle.rd_state.specs.declared.refused.Refused.TheVariants as refusals;

    ghost from_gives = { λ _ e. e ≡ refusals.Memory };

    fn from(_none: Memory) -> Refused {
        Refused::Memory
    }
}

impl From<TextFault> for Refused {
    ghost use Rattle.std.specs.Prelude.{◌≡◌};
    ghost use Rattle.rd_state.specs.Answers.{refused_by};

    ghost from_gives = { λ fault e. e ≡ refused_by fault };

    fn from(fault: TextFault) -> Refused {
        match fault {
            TextFault::OutOfRange => Refused::OutOfRange,
            TextFault::TooLarge => Refused::TextTooLarge,
            TextFault::Memory => Refused::Memory,
        }
    }
}

impl From<ObjectFault> for Refused {
    ghost use Rattle.std.specs.Prelude.{◌≡◌};
    ghost use Rattle.rd_state.specs.Making.{refused_object};

    ghost from_gives = { λ fault e. e ≡ refused_object fault };

    fn from(fault: ObjectFault) -> Refused {
        match fault {
            ObjectFault::TooMany => Refused::TooManyObjects,
            ObjectFault::TooLong => Refused::ObjectTooLong,
            ObjectFault::NoObject => Refused::NoObject,
            ObjectFault::OutOfRange => Refused::OutOfRange,
            ObjectFault::Memory => Refused::Memory,
        }
    }
}

impl From<OverlayFault> for Refused {
    ghost use Rattle.std.specs.Prelude.{◌≡◌};
    ghost use Rattle.rd_state.specs.Answers.{refused_overlay};

    ghost from_gives = { λ fault e. e ≡ refused_overlay fault };

    fn from(fault: OverlayFault) -> Refused {
        match fault {
            OverlayFault::NoOverlay => Refused::NoOverlay,
            OverlayFault::OutOfRange => Refused::OutOfRange,
            OverlayFault::TooMany => Refused::TooManyOverlays,
            OverlayFault::Memory => Refused::Memory,
        }
    }
}

impl From<TreeFault> for Refused {
    ghost use Rattle.std.specs.Prelude.{◌≡◌};
    ghost use Rattle.rd_state.specs.Steps.{refused_tree};

    ghost from_gives = { λ fault e. e ≡ refused_tree fault };

    fn from(fault: TreeFault) -> Refused {
        match fault {
            TreeFault::NoWindow => Refused::NoWindow,
            TreeFault::TooSmall => Refused::TooSmall,
            TreeFault::TooMany => Refused::TooManyWindows,
            TreeFault::LastWindow => Refused::LastWindow,
            TreeFault::Memory => Refused::Memory,
        }
    }
}

impl From<FormatFault> for Refused {
    ghost use Rattle.std.specs.Prelude.{◌≡◌};
    ghost use Rattle.rd_state.specs.Answers.{refused_format};

    ghost from_gives = { λ fault e. e ≡ refused_format fault };

    fn from(fault: FormatFault) -> Refused {
        match fault {
            FormatFault::BadFormat(column) => Refused::BadFormat(column),
            FormatFault::Memory => Refused::Memory,
        }
    }
}
