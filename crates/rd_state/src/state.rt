//! A session's state.
ghost use Rattle.std.specs.Prelude.{◌≡◌, nat_lt, if◌then◌else◌, IfOk, IsSome, IsTrue, None, Some, length, slice_get, option_map};
ghost use Rattle.rd_props.specs.Buffers.{meaning};
ghost use Rattle.rd_script.specs.Forms.{IsInForm};
ghost use Rattle.rd_state.specs.States.{opening, opening_window, number_of, seen};
ghost use Rattle.rd_state.specs.Windows.{window_of};
ghost use Rattle.rd_state.specs.Valid.{IsValid};
ghost use Rattle.rd_state.specs.Steps.{settled};
ghost use Rattle.rd_state.specs.Answers.{IsApplied, Applies, takes_memory};
ghost use Rattle.rd_state.specs.Shown.{IsShownAt};

use crate::buffers::{add, find};
use crate::effect::Effect;
use crate::laws::{settling_keeps_states, steps_keep_states};
use crate::parts::StateParts;
use crate::refused::Refused;
use crate::window::WindowState;
use indexmap::IndexMap;
use rd_base::{Anchor, Ch, ListOf, Memory, Pos, Wrap};
use rd_margins::Marks;
use rd_objects::Objects;
use rd_props::BufferState;
use rd_script::{BufferName, Op};
use rd_tree::Tree;
use std::alloc::Global;
use std::marker::Model;

/// The columns of the frame in which a session begins.
const WIDTH: u32 = 80;

/// The rows of the frame in which a session begins, of which the last is the echo area.
const HEIGHT: u32 = 24;

/// The state of a session: the buffers in order of making; the objects that they name; the windows that show them, and how these share
/// the frame's rows but the last; and what belongs to the whole frame. Each state is valid.
#[derive(Drop)]
pub struct State {
    parts: StateParts,
}

impl Model for State {
    ghost use Rattle.std.specs.Coded.{codes};
    ghost use Rattle.rd_tree.specs.Codes.{configuration_code};
    ghost use Rattle.rd_state.specs.States.{StateValue, mark_code};
    ghost use Rattle.rd_state.specs.Valid.{IsValid};

    ghost Value = { StateValue };

    ghost coded = { Prim.hlevel (codes, configuration_code, mark_code) };

    ghost view = { λ s. s.parts };

    ghost invariant = { λ s. IsValid s.parts };
}

impl State {
    /// The state in which a session begins: one empty buffer `main` and no object, shown in window 0 of a frame of 80 columns and 24
    /// rows, whose echo area is empty.
    pub fn new(alloc: Global) -> Result<State, Memory>
        ensures { IfOk result (λ state. state ≡ opening) }
    {
        steps_keep_states();
        let mut buffers = IndexMap::new(alloc);
        add(&mut buffers, BufferName::from_str(alloc, "main")?)?;
        let mut windows = Vec::new(alloc);
        windows.push((0, opening_window()))?;
        Ok(State {
            parts: StateParts {
                buffers,
                objects: Objects::new(alloc)?,
                tree: Tree::new(alloc, WIDTH, HEIGHT - 1)?,
                windows,
                selected: 0,
                width: WIDTH,
                height: HEIGHT,
                margin: 0,
                conservatively: 0,
                echo: ListOf::new(alloc),
                shifting: false,
            },
        })
    }

    /// Applies one op other than `redisplay`, `go` and `hit`, which need the last layouts or the data files, and answers what the op can
    /// have changed of what is shown. A refusal is the first that the op meets, and leaves the state as it was: NoBuffer, NoWindow,
    /// NoOverlay and NoObject where the op names what is not there, OutOfRange for a position or a range that is not where the op asks
    /// it to be, TextTooLarge, ObjectTooLong, NameTaken, LastWindow, TooSmall where a window would have fewer columns or rows than it
    /// needs, BadFormat with the place of the first bad code, or that there are too many buffers, windows, overlays or objects. Memory
    /// comes only from an op that puts in a text, changes a text property, makes a buffer, an overlay, an object or a window, gives an
    /// overlay a margin string, or moves an overlay, which takes some now and then; every other op takes none. A buffer is found by one
    /// look-up of its name, and an edit moves the rest of the text once, and goes over the values of each text property, over the
    /// overlays and over the windows.
    pub fn apply(&mut self, op: Op) -> Result<Effect, Refused>
        requires form { IsInForm op }
        requires applied { IsApplied op }
        ensures applies { Applies result op self.old self.new }
        ensures free { result ≡ Err Refused.Memory → IsTrue (takes_memory op) }
    {
        steps_keep_states();
        self.parts.apply(op)
    }

    /// Sets a window's anchor and its point, as a layout found them; no rows are pending then, and the start is not forced. The window
    /// lives, and both positions are in the accessible part of the buffer that it shows.
    pub fn settle(&mut self, w: u32, anchor: Anchor, point: Pos)
        requires live { IsSome (window_of w self.old.windows) }
        requires anchor { IsShownAt self.old w anchor.pos }
        requires point { IsShownAt self.old w point }
        ensures { self.new ≡ settled self.old w anchor point }
    {
        settling_keeps_states();
        self.parts.settle(w, anchor, point);
    }

    /// The buffer with a number, from 0 in order of making; None exactly where none was made.
    pub fn buffer(&self, i: u32) -> Option<&BufferState>
        ensures { option_map (λ b. meaning b.now) result ≡ option_map (λ b. seen b.content) (slice_get self.now.buffers i) }
    {
        let (_name, content) = self.parts.buffers.get_index(i as usize)?;
        Some(content.state())
    }

    /// The name of the buffer with a number, from 0 in order of making; None exactly where none was made.
    pub fn name(&self, i: u32) -> Option<&str>
        ensures { option_map (λ name. name.now) result ≡ option_map (λ b. b.name) (slice_get self.now.buffers i) }
    {
        let (name, _content) = self.parts.buffers.get_index(i as usize)?;
        Some(name.as_str())
    }

    /// The number of the buffer with a name, from 0 in order of making; None exactly where no buffer has it. It takes no memory.
    pub fn number_of(&self, name: &str) -> Option<u32>
        ensures { result ≡ (if nat_lt (number_of name.now self.now.buffers) (length self.now.buffers) then Some (number_of name.now self.now.buffers) else None) }
    {
        match find(&self.parts.buffers, name) {
            Ok(i) => Some(i as u32),
            Err(_absent) => None,
        }
    }

    /// The margin strings of the overlays of the buffer with a number, from 0 in order of making; None exactly where none was made.
    pub fn marks(&self, i: u32) -> Option<&Marks>
        ensures { option_map (λ m. m.now) result ≡ option_map (λ b. b.content.marks) (slice_get self.now.buffers i) }
    {
        let (_name, content) = self.parts.buffers.get_index(i as usize)?;
        Some(content.marks())
    }

    /// The name of the buffer with a number, the buffer, and the margin strings of its overlays; None exactly where none was made.
    pub fn named_buffer(&self, i: u32) -> Option<(&str, &BufferState, &Marks)>
        ensures name { option_map (λ b. b.0.now) result ≡ option_map (λ b. b.name) (slice_get self.now.buffers i) }
        ensures buffer { option_map (λ b. meaning b.1.now) result ≡ option_map (λ b. seen b.content) (slice_get self.now.buffers i) }
        ensures marks { option_map (λ b. b.2.now) result ≡ option_map (λ b. b.content.marks) (slice_get self.now.buffers i) }
    {
        let (name, content) = self.parts.buffers.get_index(i as usize)?;
        Some((name.as_str(), content.state(), content.marks()))
    }

    /// The window with a number; None exactly where no such window lives.
    pub fn window(&self, w: u32) -> Option<&WindowState>
        ensures { option_map (λ v. v.now) result ≡ window_of w self.now.windows }
    {
        self.parts.window(w)
    }

    /// All objects that were made.
    pub fn objects(&self) -> &Objects
        ensures { result.now ≡ self.now.objects }
    {
        &self.parts.objects
    }

    /// How the windows share the frame's rows but the last.
    pub fn tree(&self) -> &Tree
        ensures { result.now ≡ self.now.tree }
    {
        &self.parts.tree
    }

    /// The number of the selected window, which lives.
    pub fn selected(&self) -> u32
        ensures number { result ≡ self.now.selected }
        ensures lives { IsSome (window_of result self.now.windows) }
    {
        self.parts.selected
    }

    /// The text of the echo area, of at most 4,096 characters.
    pub fn echo(&self) -> &[Ch]
        ensures { result.now ≡ self.now.echo }
    {
        self.parts.echo.as_slice()
    }

    /// How many rows stand between point and a view's edges, and up to how many rows a view is scrolled to show point.
    pub fn scrolling(&self) -> (u32, u32)
        ensures margin { result.0 ≡ self.now.margin }
        ensures conservatively { result.1 ≡ self.now.conservatively }
    {
        (self.parts.margin, self.parts.conservatively)
    }

    /// The frame's columns and rows.
    pub fn frame(&self) -> (u32, u32)
        ensures width { result.0 ≡ self.now.width }
        ensures height { result.1 ≡ self.now.height }
    {
        (self.parts.width, self.parts.height)
    }

    /// Whether the terminal may shift rows.
    pub fn shifting(&self) -> bool
        ensures { result ≡ self.now.shifting }
    {
        self.parts.shifting
    }

    /// Each state is valid: what its windows show was made, their points and views are accessible there, and they are the leaves of the
    /// tree; each object that is named was made; and all numbers are in their ranges. The call does nothing.
    pub fn states_are_valid(&self)
        ensures { IsValid self.now }
    {
        let _parts = &self.parts;
    }
}

/// The window in which a session begins.
fn opening_window() -> WindowState
    ensures { result ≡ opening_window }
{
    WindowState {
        buffer: 0,
        point: 1,
        anchor: Anchor { pos: 1, row: 0 },
        forced: false,
        pending: 0,
        hscroll: 0,
        wrap: Wrap::Truncate,
        format: None,
        numbers: 0,
        strings: 0,
    }
}
