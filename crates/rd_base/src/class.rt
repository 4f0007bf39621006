//! The bidirectional classes of UAX 9, table 4.

ghost use Rattle.std.specs.Prelude.{◌≡◌, ◌<◌, ◌≤◌, ◌+◌, if◌then◌else◌};
ghost use Rattle.rd_base.specs.Classes.{is_initiator, x9_is_removed, direction_of, p2_p3_strong_level, p2_depth_after};

/// A bidirectional class.
#[derive(Clone, Copy, Debug, PartialEq, Eq)]
pub enum Class {
    L,
    R,
    AL,
    EN,
    ES,
    ET,
    AN,
    CS,
    NSM,
    BN,
    B,
    S,
    WS,
    ON,
    LRE,
    LRO,
    RLE,
    RLO,
    PDF,
    LRI,
    RLI,
    FSI,
    PDI,
}

impl Class {
    /// Whether this is an isolate initiator (BD8): LRI, RLI or FSI.
    pub fn is_initiator(self) -> bool
        ensures { result ≡ is_initiator self }
    {
        matches!(self, Class::LRI | Class::RLI | Class::FSI)
    }

    /// Whether rule X9 takes a character of this class out of the line: an embedding, an override, PDF or BN.
    pub fn x9_is_removed(self) -> bool
        ensures { result ≡ x9_is_removed self }
    {
        matches!(
            self,
            Class::LRE | Class::RLE | Class::LRO | Class::RLO | Class::PDF | Class::BN
        )
    }

    /// The level that holds behind a character of this class: its own, or the one before it where rule X9 takes it out.
    pub fn level_behind(self, before: u8, own: u8) -> u8
        ensures { result ≡ (if x9_is_removed self then before else own) }
    {
        if self.x9_is_removed() { before } else { own }
    }

    /// The direction of an embedding level: L where it is even, R where it is odd.
    pub fn of_level(level: u8) -> Class
        ensures { result ≡ direction_of level }
    {
        if level % 2 == 0 { Class::L } else { Class::R }
    }

    /// The level that a character of this class decides inside so many isolates, by rules P2 and P3: L decides 0, R and AL 1, and none does
    /// inside an isolate.
    pub fn p2_p3_strong_level(self, depth: u32) -> Option<u8>
        ensures { result ≡ p2_p3_strong_level depth self }
    {
        match self {
            Class::L if depth == 0 => Some(0),
            Class::R | Class::AL if depth == 0 => Some(1),
            _ => None,
        }
    }

    /// Inside how many isolates the next character stands, where this one stands inside so many, by rule P2, which passes over what is
    /// inside isolates.
    pub fn p2_depth_after(self, depth: u32) -> u32
        requires { depth < 4294967295 }
        ensures value { result ≡ p2_depth_after depth self }
        ensures bound { result ≤ depth + 1 }
    {
        match self {
            Class::LRI | Class::RLI | Class::FSI => depth + 1,
            Class::PDI => depth.saturating_sub(1),
            _ => depth,
        }
    }
}
