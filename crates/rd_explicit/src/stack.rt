//! The directional status stack of UAX 9, section 3.3.2.
ghost use Rattle.std.specs.Prelude.{◌≡◌, ◌<◌, ◌≤◌, ◌∷◌, [], length};
ghost use Rattle.rd_explicit.specs.Explicit.{top, x6a_below_isolate, x7_below_embedding};

use rd_base::Class;
use rd_base::limits::STACK_ENTRIES;
use std::marker::Model;

/// An entry of the stack: a level with the type that an override gives, where there is one, and whether an isolate made the entry.
#[derive(Clone, Copy)]
pub struct DirectionalStatus {
    pub level: u8,
    pub override_status: Option<Class>,
    pub isolate: bool,
}

/// The stack, in the room of a fixed array. Contracts see the list of its entries, the last one first.
#[derive(Drop)]
pub struct Stack {
    entries: [DirectionalStatus; STACK_ENTRIES],
    depth: usize,
}

impl Model for Stack {
    ghost use Rattle.std.specs.Prelude.{◌≡◌, ◌<◌, ◌≤◌, List, length, take, reverse};
    ghost use Rattle.rd_base.specs.declared.limits.TheConstants.{STACK_ENTRIES};
    ghost use Rattle.rd_explicit.specs.declared.stack.DirectionalStatus.{DirectionalStatus};

    ghost Value = { List DirectionalStatus };

    ghost view = { λ s. reverse (take s.depth s.entries) };

    ghost invariant = { λ s. (0 < s.depth) × (s.depth ≤ STACK_ENTRIES) × (length s.entries ≡ STACK_ENTRIES) };
}

impl Stack {
    /// A stack of one entry.
    pub fn new(entry: DirectionalStatus) -> Stack
        ensures { result ≡ entry ∷ [] }
    {
        Stack {
            entries: [entry; STACK_ENTRIES],
            depth: 1,
        }
    }

    /// How many entries there are, at least one.
    pub fn len(&self) -> usize
        ensures len { result ≡ length self.now }
        ensures some { 0 < result }
    {
        self.depth
    }

    /// The last entry.
    pub fn top(&self) -> DirectionalStatus
        ensures { result ≡ top self.now }
    {
        self.entries[self.depth - 1]
    }

    /// Adds an entry.
    pub fn push(&mut self, level: u8, override_status: Option<Class>, isolate: bool)
        requires { length self.old < STACK_ENTRIES }
        ensures { self.new ≡ record { level = level; override_status = override_status; isolate = isolate } ∷ self.old }
    {
        self.entries[self.depth] = DirectionalStatus {
            level,
            override_status,
            isolate,
        };
        self.depth += 1;
    }

    /// Takes the last entry away.
    pub fn pop(&mut self) -> DirectionalStatus
        requires { 1 < length self.old }
        ensures { self.old ≡ result ∷ self.new }
    {
        self.depth -= 1;
        self.entries[self.depth]
    }

    /// For X6a, takes the entries above the topmost isolate and that isolate away. The first entry always stays.
    pub fn x6a_close_isolate(&mut self)
        ensures { self.new ≡ x6a_below_isolate self.old }
    {
        while self.len() > 1 {
            let entry = self.pop();
            if entry.isolate {
                return;
            }
        }
    }

    /// For X7, takes the last entry away, unless it is an isolate or the only one.
    pub fn x7_close_embedding(&mut self)
        ensures { self.new ≡ x7_below_embedding self.old }
    {
        if self.len() > 1 && !self.top().isolate {
            self.pop();
        }
    }
}
