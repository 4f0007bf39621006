//! `Views`, the windows of a state with their last layouts, and what it lends.
ghost use Rattle.std.specs.Prelude.{◌≡◌, IfOk, option_map};
ghost use Rattle.rd_layout.specs.Sessions.{layout_of, opened};
ghost use Rattle.rd_layout.specs.Since.{IsSession};

use rd_base::Memory;
use rd_layout::sessions_stay_known;
use rd_state::{State, under};
use rd_ucd::{Brackets, Classes, Mirrors};
use rd_window::Layout;
use std::alloc::Global;
use std::marker::Model;

/// The state of a session, with the layouts that its windows had at the last redisplay, under their windows' numbers, and the Unicode
/// data by which windows are laid out. Contracts see it as a session of which no screen is known: what is shown is the affair of
/// the layer above.
#[derive(Drop)]
pub struct Views {
    pub(crate) alloc: Global,
    pub(crate) classes: Classes,
    pub(crate) mirrors: Mirrors,
    pub(crate) brackets: Brackets,
    pub(crate) state: State,
    pub(crate) layouts: Vec<(u32, Layout)>,
}

impl Model for Views {
    ghost use Rattle.std.specs.Coded.{codes};
    ghost use Rattle.rd_tree.specs.Codes.{configuration_code};
    ghost use Rattle.rd_state.specs.States.{mark_code};
    ghost use Rattle.rd_layout.specs.Sessions.{SessionValue};
    ghost use Rattle.rd_layout.specs.Since.{IsSession};

    ghost Value = { SessionValue };

    ghost coded = { Prim.hlevel (codes, configuration_code, mark_code) };

    ghost use Rattle.rd_views.specs.Held.{session_of};

    ghost view = { session_of };

    ghost invariant = { λ v. IsSession (session_of v) };
}

impl Views {
    /// The state in which a session begins, of which nothing was laid out, with the Unicode data that the class file, the mirror file
    /// and the bracket file gave.
    pub fn new(
        alloc: Global,
        classes: Classes,
        mirrors: Mirrors,
        brackets: Brackets,
    ) -> Result<Views, Memory>
        ensures { IfOk result (λ views. views ≡ opened (record { classes = classes; mirrors = mirrors; brackets = brackets })) }
    {
        sessions_stay_known();
        Ok(Views {
            alloc,
            classes,
            mirrors,
            brackets,
            state: State::new(alloc)?,
            layouts: Vec::new(alloc),
        })
    }

    /// The state.
    pub fn state(&self) -> &State
        ensures { result.now ≡ self.now.state }
    {
        &self.state
    }

    /// The classes of characters.
    pub fn classes(&self) -> &Classes
        ensures { result.now ≡ self.now.files.classes }
    {
        &self.classes
    }

    /// The last layout of the window with a number; None exactly where there was none since the window was made.
    pub fn layout(&self, window: u32) -> Option<&Layout>
        ensures { option_map (λ l. l.now) result ≡ layout_of window self.now.layouts }
    {
        under(self.layouts.as_slice(), window)
    }

    /// The windows of each session stay known: its state is valid, and what changed since the last layouts is known. The call does
    /// nothing.
    pub fn views_are_known(&self)
        ensures { IsSession self.now }
    {
        let _state = &self.state;
    }
}
