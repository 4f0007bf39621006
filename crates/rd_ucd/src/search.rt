//! Binary search in entries that ascend by their codes.
ghost use Rattle.std.specs.Prelude.{◌≡◌};
ghost use Rattle.rd_ucd.specs.Lookup.{IsAscending, entry_in};

/// An entry that covers the codes from a first to a last.
pub trait Covers {
    ghost use Rattle.std.specs.Prelude.{ℕ};

    ghost first: { Self → ℕ };

    ghost last: { Self → ℕ };

    /// The first code that it covers.
    fn first(&self) -> u32
        ensures { result ≡ first self.now };

    /// The last code that it covers. Where entries ascend it is not below the first.
    fn last(&self) -> u32
        ensures { result ≡ last self.now };
}

/// The entry that covers a code, if there is one. It costs the logarithm of the number of entries.
pub fn entry_at<T: Covers + Copy>(entries: &[T], code: u32) -> Option<T>
    requires { IsAscending T.first T.last entries.now }
    ensures { result ≡ entry_in T.first T.last entries.now code }
{
    let below = entries.partition_point(|entry| entry.last() < code);
    if below == entries.len() {
        return None;
    }
    let entry = entries[below];
    if entry.first() <= code {
        Some(entry)
    } else {
        None
    }
}
