//! The frames of a walk, and their steps.
ghost use Rattle.std.specs.Prelude.{[], IfOk};
ghost use Rattle.rd_stack.specs.Walks.{IsStep, frame_left};

use crate::entrance::Entrance;
use crate::few::Few;
use crate::line::LineFrame;
use crate::string::StringFrame;
use rd_base::{Element, Memory};
use std::alloc::Global;

/// What is being walked through: a block, or a string in it or in another string.
#[derive(Drop)]
pub enum Frame<'a> {
    /// Nothing is left.
    Ended,
    Line(LineFrame<'a>),
    Text(StringFrame<'a>),
}

/// A step of a frame.
#[derive(Drop)]
pub enum Step<'a> {
    /// Nothing is left in the frame.
    Ends,
    /// The step gives one element.
    Gives(Element),
    /// The step gives the elements that it has put into the list of a few.
    Lists,
    /// A string is entered.
    Enters(Entrance<'a>),
}

/// A frame in which nothing is left.
impl<'a> Default for Frame<'a> {
    fn default() -> Frame<'a> {
        Frame::Ended
    }
}

impl<'a> Frame<'a> {
    ghost use Rattle.std.specs.Prelude.{◌≡◌, [], IfOk};
    ghost use Rattle.rd_stack.specs.Walks.{IsStep, frame_left};

    /// Takes the next step. Elements that are not given alone are put into the list of a few.
    pub fn step(&mut self, alloc: Global, few: &mut Few) -> Result<Step<'a>, Memory>
        requires { few.old ≡ [] }
        ensures { IfOk result (λ step. IsStep step few.new (frame_left self.old) (frame_left self.new)) }
    {
        match self {
            Frame::Ended => Ok(Step::Ends),
            Frame::Line(line) => line.step(alloc, few),
            Frame::Text(text) => text.step(alloc, few),
        }
    }
}
