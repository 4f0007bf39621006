//! Characters in UTF-8, byte by byte.
ghost use Rattle.std.specs.Prelude.{◌≡◌, ◌<◌, ◌&&◌, nat_le};
ghost use Rattle.rd_term.specs.Characters.{begun, with_bits, continued, HasBits};

use std::marker::Model;

/// The first bytes of a character of two to four: the bits that they gave, how many bytes are due, and between which bounds the
/// next of them lies.
#[derive(Drop)]
pub(crate) struct Begun {
    bits: u32,
    due: u8,
    low: u8,
    high: u8,
}

impl Model for Begun {
    ghost use Rattle.rd_term.specs.Characters.{CharacterRead, HasBits};

    ghost Value = { CharacterRead };

    ghost view = { λ b. record { bits = b.bits; due = b.due; low = b.low; high = b.high } };

    ghost invariant = { λ b. HasBits (record { bits = b.bits; due = b.due; low = b.low; high = b.high }) };
}

impl Begun {
    /// A character's first byte, by table 3-7 of the Unicode Standard. None where no character of more than one byte begins
    /// with it.
    pub(crate) fn by(byte: u8) -> Option<Begun>
        ensures { result ≡ begun byte }
    {
        let (bits, due, low, high) = match byte {
            194..=223 => (byte - 192, 1, 128, 191),
            224 => (0, 2, 160, 191),
            237 => (13, 2, 128, 159),
            225..=239 => (byte - 224, 2, 128, 191),
            240 => (0, 3, 144, 191),
            241..=243 => (byte - 240, 3, 128, 191),
            244 => (4, 3, 128, 143),
            _ => return None,
        };
        Some(Begun {
            bits: bits as u32,
            due,
            low,
            high,
        })
    }

    /// Whether a byte may come next.
    pub(crate) fn may_go_on_with(&self, byte: u8) -> bool
        ensures { result ≡ (nat_le self.now.low byte && nat_le byte self.now.high) }
    {
        self.low <= byte && byte <= self.high
    }

    /// Whether the next byte is the last.
    pub(crate) fn ends_next(&self) -> bool
        ensures { result ≡ nat_le self.now.due 1 }
    {
        self.due <= 1
    }

    /// The bits with those of one more byte: the character's code, where this byte is the last.
    pub(crate) fn with_bits(&self, byte: u8) -> u32
        ensures { result ≡ with_bits self.now byte }
    {
        64 * self.bits + byte as u32 % 64
    }

    /// What is read after one more byte that is not the last.
    pub(crate) fn continued(self, byte: u8) -> Begun
        requires { 1 < self.due }
        ensures { result ≡ continued self byte }
    {
        Begun {
            bits: self.with_bits(byte),
            due: self.due - 1,
            low: 128,
            high: 191,
        }
    }
}
