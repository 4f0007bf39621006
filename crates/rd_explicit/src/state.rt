//! Rules X1 to X8 of UAX 9, each a method of the state that the rules keep, a function, or an arm of the step that says which rule a
//! class takes.
ghost use Rattle.std.specs.Prelude.{◌≡◌, ◌==◌, ◌&&◌, ◌<◌, ◌≤◌, ◌^◌, length};
ghost use Rattle.rd_explicit.specs.Explicit.{x1_start, top, level_above, x2_to_x5_embed, x5a_to_x5c_isolate, x5c_first_strong_isolate, x6_level_and_override, x6a_pop_directional_isolate, x7_pop_directional_format, x8_paragraph_separator, x9_removed, after, given, Rises, IsReady, GoesOn};

use crate::isolate::x5c_starts_right;
use crate::stack::{DirectionalStatus, Stack};
use rd_base::Class;
use rd_base::limits::MAX_DEPTH;

/// The level and the type that the explicit rules give a character.
#[derive(Clone, Copy)]
pub struct Given {
    pub level: u8,
    pub class: Class,
}

/// The stack and the three counters of rule X1.
#[derive(Drop)]
pub struct State {
    pub stack: Stack,
    pub overflow_isolates: u32,
    pub overflow_embeddings: u32,
    pub valid_isolates: u32,
}

impl State {
    /// X1: before the first character of a line the stack has one entry with the base level, and nothing is counted.
    pub fn x1_start(base: u8) -> State
        requires { base ≤ 1 }
        ensures start { result ≡ x1_start base }
        ensures rises { Rises result.stack }
    {
        State {
            stack: Stack::new(DirectionalStatus {
                level: base,
                override_status: None,
                isolate: false,
            }),
            overflow_isolates: 0,
            overflow_embeddings: 0,
            valid_isolates: 0,
        }
    }

    /// For X5a to X5c, whether nothing has overflowed.
    fn is_free(&self) -> bool
        ensures { result ≡ (self.now.overflow_isolates == 0 && self.now.overflow_embeddings == 0) }
    {
        self.overflow_isolates == 0 && self.overflow_embeddings == 0
    }

    /// For X2 to X5, an embedding, or an override, at a level above the last entry's. It overflows where the level is too deep (BD2), or
    /// in an embedding that has overflowed, and in an isolate that has overflowed it counts for nothing.
    fn x2_to_x5_embed(&mut self, level: u8, override_status: Option<Class>)
        requires above { (top self.old.stack).level < level }
        requires ready { IsReady 4294967294 self.old }
        ensures state { self.new ≡ x2_to_x5_embed level override_status self.old }
        ensures leaves { GoesOn self.old self.new }
    {
        if self.overflow_isolates > 0 {
            return;
        }
        if level > MAX_DEPTH || self.overflow_embeddings > 0 {
            self.overflow_embeddings += 1;
        } else {
            self.stack.push(level, override_status, false);
        }
    }

    /// For X5a to X5c, an isolate at a level above the last entry's. It overflows where the level is too deep (BD2), or something has
    /// overflowed.
    fn x5a_to_x5c_isolate(&mut self, level: u8)
        requires above { (top self.old.stack).level < level }
        requires ready { IsReady 4294967294 self.old }
        ensures state { self.new ≡ x5a_to_x5c_isolate level self.old }
        ensures leaves { GoesOn self.old self.new }
    {
        if self.is_free() && level <= MAX_DEPTH {
            self.stack.push(level, None, true);
            self.valid_isolates += 1;
        } else {
            self.overflow_isolates += 1;
        }
    }

    /// X5c: an FSI, with these classes after it, is taken as an RLI or as an LRI by the first strong character of what it isolates.
    /// It looks at them only where nothing has overflowed, since the level that it wants counts only then.
    fn x5c_first_strong_isolate(&mut self, rest: &[Class])
        requires short { length rest.now < 2 ^ 32 }
        requires ready { IsReady 4294967294 self.old }
        ensures state { self.new ≡ x5c_first_strong_isolate self.old rest.now }
        ensures leaves { GoesOn self.old self.new }
    {
        let level = self.stack.top().level;
        let parity = u8::from(self.is_free() && x5c_starts_right(rest));
        self.x5a_to_x5c_isolate(level_above(parity, level));
    }

    /// X6a: a PDI closes the overflow isolate that was opened last, else the isolate that was opened last and all embeddings in it.
    /// Where no isolate is open nothing changes.
    fn x6a_pop_directional_isolate(&mut self)
        requires { IsReady 4294967294 self.old }
        ensures state { self.new ≡ x6a_pop_directional_isolate self.old }
        ensures leaves { GoesOn self.old self.new }
    {
        if self.overflow_isolates > 0 {
            self.overflow_isolates -= 1;
        } else if self.valid_isolates > 0 {
            self.stack.x6a_close_isolate();
            self.overflow_embeddings = 0;
            self.valid_isolates -= 1;
        }
    }

    /// X7: a PDF closes the overflow embedding that was opened last, else the embedding that was opened last, where it stands in the
    /// same isolate.
    fn x7_pop_directional_format(&mut self)
        requires { IsReady 4294967294 self.old }
        ensures state { self.new ≡ x7_pop_directional_format self.old }
        ensures leaves { GoesOn self.old self.new }
    {
        if self.overflow_isolates > 0 {
            return;
        }
        if self.overflow_embeddings > 0 {
            self.overflow_embeddings -= 1;
        } else {
            self.stack.x7_close_embedding();
        }
    }

    /// Takes one character, with these classes after it, and says its level and type: by the rule of its class, X2 to X8.
    pub fn step(&mut self, base: u8, class: Class, rest: &[Class]) -> Given
        requires short { length rest.now < 2 ^ 32 }
        requires ready { IsReady 4294967294 self.old }
        ensures given { result ≡ given base self.old class rest.now }
        ensures low { base ≤ 1 → result.level ≤ MAX_DEPTH }
        ensures state { self.new ≡ after self.old class rest.now }
        ensures leaves { GoesOn self.old self.new }
    {
        let entry = self.stack.top();
        match class {
            // X2: an RLE opens an embedding at the next odd level.
            Class::RLE => self.x2_to_x5_embed(level_above(1, entry.level), None),
            // X3: an LRE opens an embedding at the next even level.
            Class::LRE => self.x2_to_x5_embed(level_above(0, entry.level), None),
            // X4: an RLO opens an override to R at the next odd level.
            Class::RLO => self.x2_to_x5_embed(level_above(1, entry.level), Some(Class::R)),
            // X5: an LRO opens an override to L at the next even level.
            Class::LRO => self.x2_to_x5_embed(level_above(0, entry.level), Some(Class::L)),
            // X5a: an RLI opens an isolate at the next odd level.
            Class::RLI => self.x5a_to_x5c_isolate(level_above(1, entry.level)),
            // X5b: an LRI opens an isolate at the next even level.
            Class::LRI => self.x5a_to_x5c_isolate(level_above(0, entry.level)),
            Class::FSI => self.x5c_first_strong_isolate(rest),
            Class::PDI => {
                self.x6a_pop_directional_isolate();
                return x6_level_and_override(self.stack.top(), class);
            }
            Class::PDF => self.x7_pop_directional_format(),
            Class::B => return x8_paragraph_separator(base),
            _ => {}
        }
        if class.x9_is_removed() {
            x9_removed(base, class)
        } else {
            x6_level_and_override(entry, class)
        }
    }
}

/// The least level of a parity, 1 for odd and 0 for even, above another (X2 to X5c).
fn level_above(parity: u8, level: u8) -> u8
    requires { level ≤ MAX_DEPTH }
    ensures value { result ≡ level_above parity level }
    ensures above { level < result }
{
    if level % 2 == parity {
        level + 2
    } else {
        level + 1
    }
}

/// X6: a character takes the level of the last entry, and its override, where it has one, as type. So do those of X5a to X6a.
fn x6_level_and_override(entry: DirectionalStatus, class: Class) -> Given
    ensures { result ≡ x6_level_and_override entry class }
{
    Given {
        level: entry.level,
        class: entry.override_status.unwrap_or(class),
    }
}

/// X8: a paragraph separator takes the level of the base.
fn x8_paragraph_separator(base: u8) -> Given
    ensures { result ≡ x8_paragraph_separator base }
{
    Given {
        level: base,
        class: Class::B,
    }
}

/// X9: what the rule takes out keeps its class and has the base (a choice of this project).
fn x9_removed(base: u8, class: Class) -> Given
    ensures { result ≡ x9_removed base class }
{
    Given { level: base, class }
}
