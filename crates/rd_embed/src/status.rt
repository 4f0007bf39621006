//! The numbers by which a program in another language is told how a call ended.
ghost use Rattle.std.specs.Prelude.{◌≡◌};
ghost use Rattle.rd_embed.specs.Statuses.{code_of};

/// How a call ended.
#[derive(Clone, Copy, Debug, PartialEq, Eq)]
pub enum Status {
    /// The call did what it says.
    Done,
    /// There is no session.
    NotOpen,
    /// There is a session already.
    IsOpen,
    /// Want of memory.
    NoMemory,
    /// A redisplay stopped at its most rows, and more differ.
    Stopped,
    /// A data file is bad.
    BadData,
    /// Nothing is there: no such place, no known screen, nothing made.
    NotThere,
    /// A text is no UTF-8.
    BadText,
    /// An argument is not in the range of the op's field.
    BadArgument,
    /// A line is no JSON.
    NotJson,
    /// A line is no object.
    NotObject,
    /// No op has this name.
    NoSuchOp,
    /// A field is missing.
    Missing,
    /// A field has a bad value.
    BadField,
    /// A field too many.
    Extra,
    /// A line has more than 1,048,576 bytes.
    TooLong,
    /// No buffer has the name or the number.
    NoBuffer,
    /// No window has the number.
    NoWindow,
    /// No overlay of the buffer has the number.
    NoOverlay,
    /// No object has the number.
    NoObject,
    /// A position or a range is not where the op asks it to be.
    OutOfRange,
    /// A buffer has the name already.
    NameTaken,
    /// The text would have too many characters.
    TextTooLarge,
    /// The string would have too many characters.
    ObjectTooLong,
    /// There are as many buffers as there may be.
    TooManyBuffers,
    /// There are as many windows as there may be.
    TooManyWindows,
    /// The buffer has as many overlays as it may have.
    TooManyOverlays,
    /// There are as many objects of the sort as there may be.
    TooManyObjects,
    /// A window would be too small.
    TooSmall,
    /// The window is the only one.
    LastWindow,
    /// The format of a mode line is bad.
    BadFormat,
    /// What a window shows may have changed since its last layout.
    NotShown,
}

impl Status {
    /// The number of the status. It never changes.
    pub fn code(self) -> u32
        ensures { result ≡ code_of self }
    {
        match self {
            Status::Done => 0,
            Status::NotOpen => 1,
            Status::IsOpen => 2,
            Status::NoMemory => 3,
            Status::Stopped => 4,
            Status::BadData => 5,
            Status::NotThere => 6,
            Status::BadText => 7,
            Status::BadArgument => 8,
            Status::NotJson => 16,
            Status::NotObject => 17,
            Status::NoSuchOp => 18,
            Status::Missing => 19,
            Status::BadField => 20,
            Status::Extra => 21,
            Status::TooLong => 22,
            Status::NoBuffer => 32,
            Status::NoWindow => 33,
            Status::NoOverlay => 34,
            Status::NoObject => 35,
            Status::OutOfRange => 36,
            Status::NameTaken => 37,
            Status::TextTooLarge => 38,
            Status::ObjectTooLong => 39,
            Status::TooManyBuffers => 40,
            Status::TooManyWindows => 41,
            Status::TooManyOverlays => 42,
            Status::TooManyObjects => 43,
            Status::TooSmall => 44,
            Status::LastWindow => 45,
            Status::BadFormat => 46,
            Status::NotShown => 47,
        }
    }
}
