//! The numbers of a control sequence.
ghost use Rattle.std.specs.Prelude.{◌≡◌, ◌<◌, ◌≤◌, [], ◌∷◌, ◌++◌, length};
ghost use Rattle.rd_term.specs.Parameters.{no_parameters, with_digit, separated, numbers_of, longer as one_longer};

use arrayvec::ArrayVec;
use rd_base::limits::{SEQUENCE_NUMBERS, SEQUENCE_VALUE};
use std::marker::Model;

/// At most `SEQUENCE_NUMBERS` numbers, in order.
#[derive(Drop)]
pub(crate) struct Numbers {
    items: ArrayVec<u32, SEQUENCE_NUMBERS>,
}

impl Model for Numbers {
    ghost use Rattle.std.specs.Prelude.{ℕ, List};

    ghost Value = { List ℕ };

    ghost view = { λ s. s.items.items };
}

impl Numbers {
    /// No number.
    fn none() -> Numbers
        ensures { result ≡ [] }
    {
        Numbers {
            items: ArrayVec::new(),
        }
    }

    /// How many numbers there are.
    fn len(&self) -> usize
        ensures value { result ≡ length self.now }
        ensures most { length self.now ≤ SEQUENCE_NUMBERS }
    {
        self.items.len()
    }

    /// Adds one more number at the end.
    fn push(&mut self, n: u32)
        requires { length self.old < SEQUENCE_NUMBERS }
        ensures { self.new ≡ self.old ++ n ∷ [] }
    {
        self.items.push(n);
    }

    /// The numbers as a slice.
    pub(crate) fn as_slice(&self) -> &[u32]
        ensures { result.now ≡ self.now }
    {
        self.items.as_slice()
    }
}

/// The numbers that a semicolon ended, the number that is being read, and whether a semicolon ended one without digits.
#[derive(Drop)]
pub(crate) struct Parameters {
    ended: Numbers,
    last: Option<u32>,
    gap: bool,
}

impl Model for Parameters {
    ghost use Rattle.rd_term.specs.Parameters.{ParametersRead, HasRoom};

    ghost Value = { ParametersRead };

    ghost view = { λ p. record { ended = p.ended; last = p.last; gap = p.gap } };

    ghost invariant = { λ p. HasRoom p.ended p.last };
}

impl Parameters {
    /// No number yet.
    pub(crate) fn none() -> Parameters
        ensures { result ≡ no_parameters }
    {
        Parameters {
            ended: Numbers::none(),
            last: None,
            gap: false,
        }
    }

    /// The parameters with one more digit. None where the digit follows a leading zero, or would begin a seventeenth number.
    pub(crate) fn with_digit(self, digit: u8) -> Option<Parameters>
        requires { digit < 10 }
        ensures { result ≡ with_digit self digit }
    {
        let last = match self.last {
            None => {
                if self.ended.len() >= SEQUENCE_NUMBERS {
                    return None;
                }
                digit as u32
            }
            Some(0) => return None,
            Some(n) => longer(n, digit),
        };
        Some(Parameters {
            ended: self.ended,
            last: Some(last),
            gap: self.gap,
        })
    }

    /// The parameters behind a semicolon: the number that was read is ended, and where there was none a gap is noted.
    pub(crate) fn separated(self) -> Parameters
        ensures { result ≡ separated self }
    {
        let mut ended = self.ended;
        match self.last {
            None => Parameters {
                ended,
                last: None,
                gap: true,
            },
            Some(n) => {
                ended.push(n);
                Parameters {
                    ended,
                    last: None,
                    gap: self.gap,
                }
            }
        }
    }

    /// The numbers at the sequence's last byte, and None where one has no digits.
    pub(crate) fn numbers(self) -> Option<Numbers>
        ensures { result ≡ numbers_of self }
    {
        if self.gap {
            return None;
        }
        let mut numbers = self.ended;
        match self.last {
            Some(n) => {
                numbers.push(n);
                Some(numbers)
            }
            None => (numbers.len() == 0).then_some(numbers),
        }
    }
}

/// A number with one more digit.
fn longer(n: u32, digit: u8) -> u32
    requires small { n ≤ SEQUENCE_VALUE }
    requires digit { digit < 10 }
    ensures { result ≡ one_longer n digit }
{
    (10 * n + digit as u32).min(SEQUENCE_VALUE)
}
