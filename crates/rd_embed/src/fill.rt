//! What is put into a buffer of the caller.
ghost use Rattle.std.specs.Prelude.{◌≡◌, ◌≤◌, ◌<◌, ◌+◌, ◌++◌, ℕ, List, Some, length, take, drop, slice_get};
ghost use Rattle.rd_embed.specs.Fills.{Fills, FillsWhole, fitting};

/// Puts the first of these bytes into the front of a buffer, as many as there is room for, and answers how many.
pub(crate) fn fill(out: &mut [u8], bytes: &[u8]) -> usize
    ensures { Fills result bytes.now out.old out.new }
{
    let count = bytes.len().min(out.len());
    out[..count].copy_from_slice(&bytes[..count]);
    count
}

/// Puts bytes behind the first of a text, as many as there is room for, and answers how many of both there are then.
pub(crate) fn fill_behind(out: &mut [u8], at: usize, bytes: &[u8]) -> usize
    requires { at ≤ length out.old }
    ensures within { result ≤ length out.old }
    ensures filled { (text before : List ℕ) → Fills at text before out.old → Fills result (text ++ bytes.now) before out.new }
{
    let count = bytes.len().min(out.len() - at);
    overwrite(out, at, &bytes[..count]);
    at + count
}

/// Puts bytes into a buffer from a place on.
pub(crate) fn overwrite(out: &mut [u8], at: usize, bytes: &[u8])
    requires { at + length bytes.now ≤ length out.old }
    ensures { out.new ≡ take at out.old ++ (bytes.now ++ drop (at + length bytes.now) out.old) }
{
    out[at..at + bytes.len()].copy_from_slice(bytes);
}

/// Texts in a row, each of at most 28 bytes.
pub(crate) trait Texts {
    ghost use Rattle.std.specs.Prelude.{ℕ, List};

    // the texts
    ghost texts: { Self → List (List ℕ) };

    /// How many there are.
    fn count(&self) -> usize
        ensures { result ≡ length (texts self.now) };

    /// Spells the text at a place into the front of this room, and answers how many bytes it has.
    fn spell(&self, i: usize, room: &mut [u8; 28]) -> usize
        requires { i < length (texts self.now) }
        ensures within { result ≤ 28 }
        ensures spelt { slice_get (texts self.now) i ≡ Some (take result room.new) };
}

/// How many texts were put into a buffer, and how many bytes they have.
#[derive(Clone, Copy)]
pub(crate) struct Filled {
    pub texts: usize,
    pub bytes: usize,
}

/// Puts the first of these texts into the front of a buffer, as many as fit whole.
pub(crate) fn fill_whole<T: Texts>(out: &mut [u8], texts: &T) -> Filled
    ensures bytes { FillsWhole result.bytes (T.texts texts.now) out.old out.new }
    ensures texts { result.texts ≡ fitting (length out.old) (T.texts texts.now) }
{
    let mut filled = Filled { texts: 0, bytes: 0 };
    let mut room = [0; 28];
    'each_text: while filled.texts < texts.count() {
        let len = texts.spell(filled.texts, &mut room);
        if len > out.len() - filled.bytes {
            return filled;
        }
        overwrite(out, filled.bytes, &room[..len]);
        filled.bytes += len;
        filled.texts += 1;
    }
    filled
}
