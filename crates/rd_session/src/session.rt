//! `Session`, its parts and its invariant, and what an op makes of it.
ghost use Rattle.std.specs.Prelude.{◌≡◌, if◌then◌else◌, None, IfOk, IsTrue};
ghost use Rattle.rd_layout.specs.Sessions.{Applied, IsStep, is_frame, opened};
ghost use Rattle.rd_layout.specs.Since.{IsSession};
ghost use Rattle.rd_script.specs.Forms.{IsInForm};
ghost use Rattle.rd_state.specs.Answers.{takes_memory};

use rd_base::Memory;
use rd_layout::sessions_stay_known;
use rd_matrix::Matrix;
use rd_script::Op;
use rd_state::Refused;
use rd_term::Screen;
use rd_ucd::{Brackets, Classes, Mirrors};
use rd_views::Views;
use std::alloc::Global;
use std::marker::Model;

/// The state of the editor, the last layouts of its windows, and what the screen shows where that is known. `nothing` is lent as the
/// rows of a window that was not laid out yet.
#[derive(Drop)]
pub struct Session {
    pub(crate) alloc: Global,
    pub(crate) views: Views,
    pub(crate) screen: Option<Screen>,
    pub(crate) nothing: Matrix,
}

impl Model for Session {
    ghost use Rattle.std.specs.Coded.{codes};
    ghost use Rattle.std.specs.Prelude.{◌≡◌, []};
    ghost use Rattle.rd_tree.specs.Codes.{configuration_code};
    ghost use Rattle.rd_state.specs.States.{mark_code};
    ghost use Rattle.rd_layout.specs.Sessions.{SessionValue};
    ghost use Rattle.rd_layout.specs.Since.{IsSession};
    ghost use Rattle.rd_session.specs.Screens.{with_screen};

    ghost Value = { SessionValue };

    ghost coded = { Prim.hlevel (codes, configuration_code, mark_code) };

    ghost view = { λ s. with_screen s.views s.screen };

    ghost invariant = { λ s. IsSession (with_screen s.views s.screen) × (s.nothing ≡ []) };
}

impl Session {
    /// The session in which a script begins, over the Unicode data of the files: an empty buffer `main` in one window of a frame of 80
    /// columns and 24 rows, which is garbaged. The one error is want of memory, and then there is no session.
    pub fn new(
        alloc: Global,
        classes: Classes,
        mirrors: Mirrors,
        brackets: Brackets,
    ) -> Result<Session, Memory>
        ensures { IfOk result (λ session. session ≡ opened (record { classes = classes; mirrors = mirrors; brackets = brackets })) }
    {
        sessions_stay_known();
        Ok(Session {
            alloc,
            views: Views::new(alloc, classes, mirrors, brackets)?,
            screen: None,
            nothing: Matrix::new(alloc)?,
        })
    }

    /// Applies one op other than redisplay. An accepted frame op garbages the frame. A refusal is the first that the op meets, and leaves
    /// all as it was: NoBuffer, NoWindow, NoOverlay and NoObject where the op names what is not there, OutOfRange for a position or a
    /// range that is not where the op asks it to be, NotShown for a hit in a window whose last layout is not what it shows, TextTooLarge,
    /// ObjectTooLong, NameTaken, LastWindow, TooSmall where a window would have fewer columns or rows than it needs, BadFormat with the
    /// place of the first bad code, or that there are too many buffers, windows, overlays or objects. Memory may be answered at any time
    /// by `go` and by the ops of the state that take memory, which `State::apply` lists, and by no other; then too nothing has changed.
    pub fn apply(&mut self, op: Op) -> Result<(), Refused>
        requires form { IsInForm op }
        requires applied { IsStep op }
        ensures applies { Applied result op self.old self.new }
        ensures free { result ≡ Err Refused.Memory → IsTrue (takes_memory op) }
    {
        sessions_stay_known();
        let resizes = is_frame(&op);
        self.views.apply(op)?;
        forget_if(resizes, &mut self.screen);
        Ok(())
    }

    /// Each session is known: its state is valid, a known screen has the frame's size and is sound, and the last layouts of its windows
    /// are still known. The call does nothing.
    pub fn sessions_are_known(&self)
        ensures { IsSession self.now }
    {
        let _views = &self.views;
    }
}

/// Whether an op resizes the frame.
fn is_frame(op: &Op) -> bool
    ensures { result ≡ is_frame op.now }
{
    match op {
        Op::Frame { .. } => true,
        _ => false,
    }
}

/// Makes a screen unknown, where its frame was resized.
fn forget_if(resized: bool, screen: &mut Option<Screen>)
    ensures { screen.new ≡ (if resized then None else screen.old) }
{
    if resized {
        *screen = None;
    }
}
