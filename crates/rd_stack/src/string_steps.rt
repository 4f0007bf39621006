//! The steps of strings.
use crate::few::Few;
use crate::part::{Shown, place_of};
use crate::showing::kind_step;
use crate::step::Step;
use crate::string::{StringFrame, Surroundings};
use rd_base::{Look, Memory};
use rd_glyphs::element_of;
use std::alloc::Global;

impl<'a> StringFrame<'a> {
    ghost use Rattle.std.specs.Prelude.{◌≡◌, [], IfOk};
    ghost use Rattle.rd_stack.specs.Walks.{IsStep};

    /// Takes the next step. Where display runs are used, a string that a part names is entered; its own display runs are not used.
    pub fn step(&mut self, alloc: Global, few: &mut Few) -> Result<Step<'a>, Memory>
        requires { few.old ≡ [] }
        ensures { IfOk result (λ step. IsStep step few.new self.old self.new) }
    {
        if let Some(turn) = self.order.next() {
            let part = self.parts.get(turn.index);
            let shown = Shown {
                kind: part.kind,
                face: part.face,
                odd: turn.odd,
            };
            let around = Surroundings {
                replaced: false,
                under: part.face,
                ..self.around
            };
            let enters = self.around.replaced;
            return kind_step(alloc, &around, enters, Look::RowEnd, &shown, few);
        }
        if self.end >= self.text.len() {
            return Ok(Step::Ends);
        }
        let place = place_of(self.around.replaced, self.text, self.around.under, self.end);
        let end = element_of(Look::RowEnd, place.face, self.around.origin);
        *self = StringFrame::from_place(alloc, &self.around, self.text, self.end + 1)?;
        Ok(Step::Gives(end))
    }
}
