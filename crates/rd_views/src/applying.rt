//! The ops, all but the one that shows the frame.
ghost use Rattle.std.specs.Prelude.{◌≡◌, IsTrue};
ghost use Rattle.rd_layout.specs.Sessions.{Applied, IsStep};
ghost use Rattle.rd_script.specs.Forms.{IsInForm};
ghost use Rattle.rd_state.specs.Answers.{IsApplied, takes_memory};

use crate::noting::note;
use crate::views::Views;
use rd_layout::sessions_stay_known;
use rd_script::Op;
use rd_state::Refused;

impl Views {
    /// Applies one op other than redisplay: `go` and `hit` move a window's point by what is seen, and every other op is that of the
    /// state. What an accepted op can have changed is joined to what changed since the last layouts. A refusal is the first that the op
    /// meets, as for `State::apply`; NotShown comes from `hit` alone, where what the window shows may have changed since its last
    /// layout. It leaves all as it was, and so does Memory, which comes only from `go` and from the ops of the state that take memory.
    pub fn apply(&mut self, op: Op) -> Result<(), Refused>
        requires form { IsInForm op }
        requires step { IsStep op }
        ensures applies { Applied result op self.old self.new }
        ensures free { result ≡ Err Refused.Memory → IsTrue (takes_memory op) }
    {
        match op {
            Op::Go { window, right } => self.go(window, right),
            Op::Hit {
                window,
                row,
                column,
            } => self.hit(window, row, column),
            other => self.pass_on(other),
        }
    }

    /// Applies one op of the state.
    pub(crate) fn pass_on(&mut self, op: Op) -> Result<(), Refused>
        requires form { IsInForm op }
        requires applied { IsApplied op }
        ensures applies { Applied result op self.old self.new }
        ensures free { result ≡ Err Refused.Memory → IsTrue (takes_memory op) }
    {
        sessions_stay_known();
        let effect = self.state.apply(op)?;
        note(&mut self.layouts, effect, &self.state);
        Ok(())
    }
}
