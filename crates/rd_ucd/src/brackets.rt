//! The brackets.
ghost use Rattle.std.specs.Prelude.{◌≡◌};
ghost use Rattle.rd_ucd.specs.BracketFile.{bracket_named};

use crate::fault::UcdFault;
use crate::listing::{Listed, Listing, read_codes};
use crate::pieces::{field, trim};
use crate::spans::{Bracket, BracketEntry};

/// The brackets that a file in the form of `BidiBrackets.txt` gives: as a mirror file, but with a third field, `o` for a bracket that
/// opens and `c` for one that closes; the second code is that of the partner. A third field that is neither is a `BadClass`.
pub type Brackets = Listing<BracketEntry>;

impl Brackets {
    ghost use Rattle.std.specs.Prelude.{◌≡◌};
    ghost use Rattle.rd_ucd.specs.Lookup.{bracket_in};

    /// The bracket of a code, and None exactly for a code that the file doesn't list. It costs the logarithm of the
    /// number of entries.
    pub fn bracket(&self, code: u32) -> Option<Bracket>
        ensures { result ≡ bracket_in self.now code }
    {
        self.entry(code).map(|entry| entry.bracket)
    }
}

impl Listed for BracketEntry {
    ghost use Rattle.rd_ucd.specs.BracketFile.{bracket_of};

    ghost of_fields = { bracket_of };

    fn read(line: &[u8], number: u64) -> Result<BracketEntry, UcdFault> {
        let (Some(code), Some(partner), Some(kind), None) = (
            field(line, 0),
            field(line, 1),
            field(line, 2),
            field(line, 3),
        ) else {
            return Err(UcdFault::BadLine(number));
        };
        let both = read_codes(code, partner, number)?;
        match bracket_named(both.other, trim(kind)) {
            Some(bracket) => Ok(BracketEntry {
                code: both.code,
                bracket,
            }),
            None => Err(UcdFault::BadClass(number)),
        }
    }
}

/// What the third field says of a bracket with this partner.
fn bracket_named(partner: u32, name: &[u8]) -> Option<Bracket>
    ensures { result ≡ bracket_named partner name.now }
{
    if name == b"o".as_slice() {
        Some(Bracket::Opens(partner))
    } else if name == b"c".as_slice() {
        Some(Bracket::Closes(partner))
    } else {
        None
    }
}
