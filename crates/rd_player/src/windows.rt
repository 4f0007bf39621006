//! Room for a dump's facts of all windows, taken before the first line is run.
ghost use Rattle.std.specs.Prelude.{◌≡◌, ◌≤◌};
ghost use Rattle.std.specs.Vec.{vec_capacity};
ghost use Rattle.rd_base.specs.declared.limits.TheConstants.{WINDOWS};
ghost use Rattle.rd_layout.specs.Facts.{facts_of};

use rd_base::Memory;
use rd_base::limits::WINDOWS;
use rd_dump::WindowFacts;
use rd_session::Session;
use std::alloc::Global;

/// How many windows can live.
const MOST_WINDOWS: usize = WINDOWS as usize;

/// Room for what a dump says of all windows. It is taken before the first line is run, so that no line of the report takes
/// memory.
#[derive(Drop)]
pub struct Windows {
    facts: Vec<WindowFacts>,
    pub ghost roomy: { WINDOWS ≤ vec_capacity facts },
}

impl Windows {
    /// Room for all windows.
    pub fn new(alloc: Global) -> Result<Windows, Memory> {
        Ok(Windows {
            facts: Vec::with_capacity(alloc, MOST_WINDOWS)?,
        })
    }

    /// What a dump says of the windows of a session, in leaf order.
    pub fn of(&mut self, session: &Session) -> &[WindowFacts]
        ensures { result.now ≡ facts_of session.now }
    {
        collect(&mut self.facts, session);
        self.facts.as_slice()
    }
}

/// Puts what a dump says of the windows of a session in the place of what a list had, which has room for all windows.
fn collect(list: &mut Vec<WindowFacts>, session: &Session)
    requires { WINDOWS ≤ vec_capacity list.old }
    ensures facts { list.new.items ≡ facts_of session.now }
    ensures room { WINDOWS ≤ vec_capacity list.new }
{
    list.clear();
    let mut i = 0;
    'each_window: while let Some(facts) = session.facts(i) {
        list.push_reserved(facts);
        i += 1;
    }
}
