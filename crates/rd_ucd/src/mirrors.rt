//! The mirrored characters.

use crate::fault::UcdFault;
use crate::listing::{Listed, Listing, read_codes};
use crate::pieces::field;
use crate::spans::Pair;

/// The mirrored characters that a file in the form of `BidiMirroring.txt` gives: its lines have two fields, a code and that of the
/// mirrored character.
pub type Mirrors = Listing<Pair>;

impl Mirrors {
    ghost use Rattle.std.specs.Prelude.{◌≡◌};
    ghost use Rattle.rd_ucd.specs.Lookup.{mirror_in};

    /// The code of the mirrored character, and None exactly for a code that the file doesn't list. It costs the logarithm of
    /// the number of entries.
    pub fn mirror(&self, code: u32) -> Option<u32>
        ensures { result ≡ mirror_in self.now code }
    {
        self.entry(code).map(|pair| pair.mirror)
    }
}

impl Listed for Pair {
    ghost use Rattle.rd_ucd.specs.MirrorFile.{pair_of};

    ghost of_fields = { pair_of };

    fn read(line: &[u8], number: u64) -> Result<Pair, UcdFault> {
        let (Some(code), Some(mirror), None) = (field(line, 0), field(line, 1), field(line, 2))
        else {
            return Err(UcdFault::BadLine(number));
        };
        read_codes(code, mirror, number).map(|both| Pair {
            code: both.code,
            mirror: both.other,
        })
    }
}
