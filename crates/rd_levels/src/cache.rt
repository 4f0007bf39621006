//! The levels of the last line that was filled.
ghost use Rattle.std.specs.Prelude.{◌≡◌, ◌<◌, ◌^◌, [], length, replicate, slice_get, Some, IfOk, OnOk, OnErr};
ghost use Rattle.rd_levels.specs.Levels.{IsLine, line_levels};

use crate::fill::fill_line;
use rd_base::{Class, Line, Memory};
use rd_ucd::Brackets;
use std::alloc::Global;
use std::marker::Model;
use std::mem;

/// The embedding levels of one line. Contracts see the list of them.
///
/// It keeps the room of two lines: a line is filled beside the one that is shown, and takes its place when all its levels are
/// known. So want of memory leaves the levels as they were, and a line that is no longer than two before it takes memory for its
/// isolating run sequences and for the brackets in them alone.
#[derive(Drop)]
pub struct LevelCache {
    alloc: Global,
    shown: Line,
    spare: Line,
}

impl Model for LevelCache {
    ghost use Rattle.std.specs.Prelude.{List, ℕ};

    ghost Value = { List ℕ };

    ghost view = { λ s. s.shown.levels };
}

impl LevelCache {
    /// The levels of a line of no character. It takes no room before the first line is filled.
    pub fn new(alloc: Global) -> Result<LevelCache, Memory>
        ensures { IfOk result (λ cache. cache ≡ []) }
    {
        Ok(LevelCache {
            alloc,
            shown: Line::new(alloc),
            spare: Line::new(alloc),
        })
    }

    /// The levels of a line of these classes that is not reordered: 0 for each character.
    pub fn flat(alloc: Global, classes: &[Class]) -> Result<LevelCache, Memory>
        requires { length classes.now < 2 ^ 32 }
        ensures { IfOk result (λ cache. cache ≡ replicate (length classes.now) 0) }
    {
        let mut cache = LevelCache::new(alloc)?;
        cache.shown.refill(classes, 0)?;
        Ok(cache)
    }

    /// Becomes the levels of a line of these classes with a base level of 0 or 1, by rules X1 to L1 of UAX 9. `codes` has the code of
    /// each character, by which the paired brackets are known; a code that is listed nowhere is no bracket. Its one error is want of
    /// memory, which leaves the levels as they were. The cost is linear in the line. A line at base 0 without anything that is read
    /// from the right, embedded or isolated is looked through once, and has all levels 0.
    pub fn fill(
        &mut self,
        classes: &[Class],
        codes: &[u32],
        brackets: &Brackets,
        base: u8,
    ) -> Result<(), Memory>
        requires { IsLine classes.now codes.now base }
        ensures ok { OnOk result (self.new ≡ line_levels brackets.now base classes.now codes.now) }
        ensures err { OnErr result (self.new ≡ self.old) }
    {
        fill_line(self.alloc, &mut self.spare, brackets, base, classes, codes)?;
        mem::swap(&mut self.shown, &mut self.spare);
        Ok(())
    }

    /// The level of the character at an index, counted from 0. The cost is constant, as is that of `len` and `levels`.
    pub fn level(&self, i: usize) -> u8
        requires { i < length self.now }
        ensures { slice_get self.now i ≡ Some result }
    {
        self.shown.levels.at(i)
    }

    /// How many characters there are.
    pub fn len(&self) -> usize
        ensures { result ≡ length self.now }
    {
        self.shown.levels.len()
    }

    /// The level of each character, in the order of the line.
    pub fn levels(&self) -> &[u8]
        ensures { result.now ≡ self.now }
    {
        self.shown.levels.as_slice()
    }
}
