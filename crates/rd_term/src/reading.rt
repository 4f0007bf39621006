//! How bytes are read: the states between two of them and what each byte gives, apart from what a terminal then does.
ghost use Rattle.std.specs.Prelude.{◌≡◌};
ghost use Rattle.rd_term.specs.Steps.{read_byte};
ghost use Rattle.rd_term.specs.declared.reading.Reading.TheVariants.{Between, Escaped, Sequence, Character};

use crate::character::Begun;
use crate::control::Control;
use crate::parameters::{Numbers, Parameters};

/// How far a control sequence or a character was read.
#[derive(Drop)]
pub(crate) enum Reading {
    /// Nothing of a sequence or a character was read: the terminal stands between two sequences.
    Between,
    /// The escape byte.
    Escaped,
    /// The escape byte, a bracket, and these numbers.
    Sequence(Parameters),
    /// The first bytes of a character.
    Character(Begun),
}

/// What a byte gives.
#[derive(Drop)]
pub(crate) enum Step {
    /// A control sequence begins.
    Begins,
    /// A sequence or a character goes on.
    GoesOn(Reading),
    /// A character, by its code.
    Prints(u32),
    /// A whole sequence, by its control function and its numbers.
    Obeys(Control, Numbers),
    /// What can't be read.
    Fails,
}

impl Reading {
    /// What the next byte gives.
    pub(crate) fn next(self, byte: u8) -> Step
        ensures { result ≡ read_byte self byte }
    {
        match self {
            Reading::Between => read_between(byte),
            Reading::Escaped => read_escaped(byte),
            Reading::Sequence(parameters) => read_sequence(parameters, byte),
            Reading::Character(begun) => read_character(begun, byte),
        }
    }
}

/// A byte between two sequences.
fn read_between(byte: u8) -> Step
    ensures { result ≡ read_byte Between byte }
{
    if byte == 27 {
        return Step::Begins;
    }
    if byte < 128 {
        return Step::Prints(byte as u32);
    }
    match Begun::by(byte) {
        Some(begun) => Step::GoesOn(Reading::Character(begun)),
        None => Step::Fails,
    }
}

/// The byte after an escape.
fn read_escaped(byte: u8) -> Step
    ensures { result ≡ read_byte Escaped byte }
{
    if byte == b'[' {
        Step::GoesOn(Reading::Sequence(Parameters::none()))
    } else {
        Step::Fails
    }
}

/// A byte of a sequence after its bracket.
fn read_sequence(parameters: Parameters, byte: u8) -> Step
    ensures { result ≡ read_byte (Sequence parameters) byte }
{
    match byte {
        b'0'..=b'9' => match parameters.with_digit(byte - b'0') {
            Some(longer) => Step::GoesOn(Reading::Sequence(longer)),
            None => Step::Fails,
        },
        b';' => Step::GoesOn(Reading::Sequence(parameters.separated())),
        _ => match (Control::by(byte), parameters.numbers()) {
            (Some(control), Some(numbers)) => Step::Obeys(control, numbers),
            _ => Step::Fails,
        },
    }
}

/// A byte of a character after its first.
fn read_character(begun: Begun, byte: u8) -> Step
    ensures { result ≡ read_byte (Character begun) byte }
{
    if !begun.may_go_on_with(byte) {
        Step::Fails
    } else if begun.ends_next() {
        Step::Prints(begun.with_bits(byte))
    } else {
        Step::GoesOn(Reading::Character(begun.continued(byte)))
    }
}
