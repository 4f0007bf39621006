//! The order in which the places of a line are shown.
ghost use Rattle.std.specs.Prelude.{◌≡◌, length, IfOk};
ghost use Rattle.rd_levels.specs.Levels.{IsLine};
ghost use Rattle.rd_levels.specs.Turns.{levels_with};

use crate::cache::LevelCache;
use crate::laws::lines_have_a_level_each;
use crate::turn::Turn;
use rd_base::{Class, Memory};
use rd_order::Visual;
use rd_ucd::Brackets;
use std::alloc::Global;
use std::marker::Model;

/// The turns of the places of a line that are left, in visual order from the reading edge. Contracts see their list, and how many
/// places the line has.
#[derive(Drop)]
pub struct Order {
    cache: LevelCache,
    walk: Visual,
}

impl Model for Order {
    ghost use Rattle.std.specs.Prelude.{length, map};
    ghost use Rattle.rd_order.specs.Walks.{left, IsWalkOf};
    ghost use Rattle.rd_levels.specs.Turns.{turn_of, Ahead};

    ghost Value = { Ahead };

    ghost view = { λ order. record { turns = map (turn_of order.cache) (left order.walk order.cache); places = length order.cache } };

    ghost invariant = { λ order. IsWalkOf order.walk order.cache };
}

impl Order {
    ghost use Rattle.std.specs.Prelude.{◌≡◌, ◌<◌, ◌∷◌, [], length, MatchOption, IfSome, IfOk};
    ghost use Rattle.rd_levels.specs.Levels.{IsLine};
    ghost use Rattle.rd_levels.specs.Turns.{turns_of};

    /// All turns of a line of these classes, with a base level of 0 or 1. `codes` has the code of each place, by which the paired
    /// brackets are known; a code that is listed nowhere is no bracket. Where `reorder` is off the places stand in their own order. Its one
    /// error is want of memory. The whole walk costs at most about twice the line's length times the number of its levels.
    pub fn new(
        alloc: Global,
        reorder: bool,
        base: u8,
        classes: &[Class],
        codes: &[u32],
        brackets: &Brackets,
    ) -> Result<Order, Memory>
        requires { IsLine classes.now codes.now base }
        ensures turns { IfOk result (λ order. order.turns ≡ turns_of brackets.now reorder base classes.now codes.now) }
        ensures places { IfOk result (λ order. order.places ≡ length classes.now) }
    {
        let cache = levels_with(alloc, brackets, reorder, base, classes, codes)?;
        let walk = Visual::start(cache.levels(), base);
        Ok(Order { cache, walk })
    }

    /// The next turn, and None exactly where none is left.
    pub fn next(&mut self) -> Option<Turn>
        ensures turns { MatchOption result ((self.old.turns ≡ []) × (self.new.turns ≡ [])) (λ turn. self.old.turns ≡ turn ∷ self.new.turns) }
        ensures within { IfSome result (λ turn. turn.index < self.old.places) }
        ensures places { self.new.places ≡ self.old.places }
    {
        let index = self.walk.next(self.cache.levels())?;
        Some(Turn {
            index,
            odd: self.cache.level(index) % 2 == 1,
        })
    }
}

/// The levels of a line of these classes and codes: 0 where `reorder` is off.
fn levels_with(
    alloc: Global,
    brackets: &Brackets,
    reorder: bool,
    base: u8,
    classes: &[Class],
    codes: &[u32],
) -> Result<LevelCache, Memory>
    requires { IsLine classes.now codes.now base }
    ensures value { IfOk result (λ cache. cache ≡ levels_with brackets.now reorder base classes.now codes.now) }
    ensures places { IfOk result (λ cache. length cache ≡ length classes.now) }
{
    lines_have_a_level_each();
    if !reorder {
        return LevelCache::flat(alloc, classes);
    }
    let mut cache = LevelCache::new(alloc)?;
    cache.fill(classes, codes, brackets, base)?;
    Ok(cache)
}
