//! Strings that are to be walked through.
ghost use Rattle.std.specs.Prelude.{◌≡◌, [], unwrap_or, IfOk};

use crate::string::{StringFrame, Surroundings};
use rd_base::Memory;
use std::alloc::Global;
use std::marker::Model;

/// A string that is to be walked through. A number that names no string stands for the empty one. Contracts see its steps.
#[derive(Drop)]
pub struct Entrance<'a> {
    pub around: Surroundings<'a>,
    pub number: u32,
}

impl<'a> Model for Entrance<'a> {
    ghost use Rattle.std.specs.Prelude.{List, ◌≤◌, slice_get};
    ghost use Rattle.rd_base.specs.declared.element.Element.{Element};
    ghost use Rattle.rd_items.specs.Pieces.{scene_of};
    ghost use Rattle.rd_stack.specs.Steps.{kind_steps};
    ghost use Rattle.rd_stack.specs.Shown.{put_text};

    ghost Value = { List (List Element) };

    ghost view = { λ e. put_text kind_steps (scene_of e.around.view) e.around.base e.around.replaced e.around.origin e.around.under (slice_get e.around.view.objects.now.strings e.number) };

    ghost invariant = { λ e. e.around.base ≤ 1 };
}

impl<'a> Entrance<'a> {
    ghost use Rattle.std.specs.Prelude.{◌≡◌, [], unwrap_or, IfOk};

    /// The frame of the string, from its beginning, where one was made with its number.
    pub fn open(&self, alloc: Global) -> Result<Option<StringFrame<'a>>, Memory>
        ensures { IfOk result (λ found. unwrap_or found [] ≡ self.now) }
    {
        let view = self.around.view;
        match view.objects.string(self.number) {
            None => Ok(None),
            Some(text) => {
                let frame = StringFrame::from_place(alloc, &self.around, text, 0)?;
                Ok(Some(frame))
            }
        }
    }
}
