//! A line of bidirectional classes with its types and levels, and the sequences that rules W1 to N2 of UAX 9 read.
ghost use Rattle.std.specs.Prelude.{◌≡◌, ◌^◌, ◌<◌, ◌≤◌, [], length, replicate, is_ok, if◌then◌else◌};

use crate::class::Class;
use crate::list::ListOf;
use crate::memory::Memory;
use std::alloc::Global;

/// The characters of one line by index: their classes, the types that the rules make of them, and their embedding levels.
/// The base level is 0 or 1.
#[derive(Drop)]
pub struct Line {
    pub classes: ListOf<Class>,
    pub types: ListOf<Class>,
    pub levels: ListOf<u8>,
    pub base: u8,
    pub ghost same_types: { length types ≡ length classes },
    pub ghost same_levels: { length levels ≡ length classes },
    pub ghost short: { length classes < 2 ^ 32 },
    pub ghost base_is_level: { base ≤ 1 },
}

impl Line {
    ghost use Rattle.std.specs.Prelude.{◌≡◌, ◌^◌, ◌<◌, ◌≤◌, length, slice_set, [], OnOk, OnErr};
    ghost use Rattle.rd_base.specs.Lines.{Starts, KeepsClasses};

    /// A line of no character.
    pub fn new(alloc: Global) -> Line
        ensures { Starts result [] 0 }
    {
        Line {
            classes: ListOf::new(alloc),
            types: ListOf::new(alloc),
            levels: ListOf::new(alloc),
            base: 0,
        }
    }

    /// Becomes the line of other classes, in the room that it has where that is enough. Where memory is wanting the line is
    /// then one of no character.
    pub fn refill(&mut self, classes: &[Class], base: u8) -> Result<(), Memory>
        requires short { length classes.now < 2 ^ 32 }
        requires base { base ≤ 1 }
        ensures ok { OnOk result (Starts self.new classes.now base) }
        ensures err { OnErr result (Starts self.new [] base) }
    {
        self.base = base;
        fill(
            &mut self.classes,
            &mut self.types,
            &mut self.levels,
            classes,
            base,
        )
    }

    /// How many characters there are.
    pub fn len(&self) -> usize
        ensures { result ≡ length self.now.classes }
    {
        self.classes.len()
    }

    /// Gives a character another type.
    pub fn set_type(&mut self, i: usize, class: Class)
        requires { i < length self.old.classes }
        ensures types { self.new.types ≡ slice_set self.old.types i class }
        ensures levels { self.new.levels ≡ self.old.levels }
        ensures rest { KeepsClasses self.old self.new }
    {
        self.types.set(i, class);
    }

    /// Gives a character another level.
    pub fn set_level(&mut self, i: usize, level: u8)
        requires { i < length self.old.classes }
        ensures levels { self.new.levels ≡ slice_set self.old.levels i level }
        ensures types { self.new.types ≡ self.old.types }
        ensures rest { KeepsClasses self.old self.new }
    {
        self.levels.set(i, level);
    }
}

/// An isolating run sequence (UAX 9 BD13): its indexes in a line, and the types at its two ends.
#[derive(Drop)]
pub struct Seq {
    pub indexes: ListOf<u32>,
    pub sos: Class,
    pub eos: Class,
}

/// Makes the three lists of a line anew: classes, types that equal them, and the base level for each. Where memory is wanting
/// all three are empty.
fn fill(
    classes: &mut ListOf<Class>,
    types: &mut ListOf<Class>,
    levels: &mut ListOf<u8>,
    from: &[Class],
    base: u8,
) -> Result<(), Memory>
    ensures classes { classes.new ≡ (if is_ok result then from.now else []) }
    ensures types { types.new ≡ (if is_ok result then from.now else []) }
    ensures levels { levels.new ≡ (if is_ok result then replicate (length from.now) base else []) }
{
    classes.clear();
    types.clear();
    levels.clear();
    if let Ok(()) = classes.extend_from_slice(from) {
        if let Ok(()) = types.extend_from_slice(from) {
            if let Ok(()) = levels.resize(from.len(), base) {
                return Ok(());
            }
        }
    }
    classes.clear();
    types.clear();
    Err(Memory)
}
