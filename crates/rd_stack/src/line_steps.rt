//! The steps of the items of a block.
ghost use Rattle.std.specs.Prelude.{◌≡◌};
ghost use Rattle.rd_stack.specs.Lines.{origin_of};

use crate::few::Few;
use crate::line::LineFrame;
use crate::part::Shown;
use crate::showing::kind_step;
use crate::step::Step;
use crate::string::Surroundings;
use rd_base::{Look, Memory, Origin};
use rd_items::Item;
use std::alloc::Global;

impl<'a> LineFrame<'a> {
    ghost use Rattle.std.specs.Prelude.{◌≡◌, [], IfOk};
    ghost use Rattle.rd_stack.specs.Walks.{IsStep};

    /// Takes the next step.
    pub fn step(&mut self, alloc: Global, few: &mut Few) -> Result<Step<'a>, Memory>
        requires { few.old ≡ [] }
        ensures { IfOk result (λ step. IsStep step few.new self.old self.new) }
    {
        let Some(turn) = self.order.next() else {
            return Ok(Step::Ends);
        };
        let number = turn.index as u32;
        let item = self.items.item(number);
        let origin = origin_of(number, item);
        let around = Surroundings {
            view: self.view,
            base: self.base,
            replaced: item.overlay,
            origin,
            under: item.face,
        };
        let shown = Shown {
            kind: item.kind,
            face: item.face,
            odd: turn.odd,
        };
        kind_step(alloc, &around, true, Look::LineEnd, &shown, few)
    }
}

/// An item's number, and the offsets of its range from the block's start.
fn origin_of(number: u32, item: &Item) -> Origin
    ensures { result ≡ origin_of number item.now }
{
    Origin {
        item: number,
        from: item.from,
        to: item.to,
    }
}
