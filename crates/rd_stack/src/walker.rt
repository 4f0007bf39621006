//! The walk over the elements of a line.

use crate::entrance::Entrance;
use crate::few::Few;
use crate::keeping::{reading_stays_sound, view_stays_sound};
use crate::laws::{lines_are_sound, lines_end_once};
use crate::line::LineFrame;
use crate::step::{Frame, Step};
use rd_base::{Element, Elements, Memory, Pos};
use rd_items::{Items, blocks_are_read_whole};
use rd_props::{Appearance, View, appearance_at};
use smallvec::SmallVec;
use std::alloc::Global;

/// The elements of a line, of which some are still to be given. It holds the frames of what is being walked through, the innermost last:
/// the block, a string in it, and a display string in that one; each has the levels of its line or row and the place reached in visual
/// order, and borrows its text. How many stand is the depth of Emacs's iterator stack (`it->sp`), the line counted. Of the elements it
/// holds those of one character or of one ellipsis at most.
#[derive(Drop)]
pub struct Walker<'a> {
    pub(crate) frames: SmallVec<Frame<'a>, 3>,
    pub(crate) few: Few,
}

impl<'a> Walker<'a> {
    ghost use Rattle.std.specs.Prelude.{◌≡◌, ◌≤◌, ◌<◌, ◌+◌, ◌-◌, ◌++◌, [], length, take, option_to_list, IfOk, OnOk};
    ghost use Rattle.rd_base.specs.Elements.{Takes};
    ghost use Rattle.rd_text.specs.Texts.{IsAccessible};
    ghost use Rattle.rd_props.specs.Appearance.{appearance_at};
    ghost use Rattle.rd_props.specs.Buffers.{meaning};
    ghost use Rattle.rd_items.specs.Pieces.{scene_of};
    ghost use Rattle.rd_items.specs.Readings.{reading};
    ghost use Rattle.rd_stack.specs.Lines.{line_elements, line_of_items};
    ghost use Rattle.rd_stack.specs.Steps.{elements_in};
    ghost use Rattle.rd_stack.specs.Walks.{IsLine, StepsInnermost, frame_left, frames_left, walk_left, work};

    /// The elements of the line of the block that starts at a position, in a line of this base. They are those of its items in
    /// visual order from the reading edge: a character's, a space, the glyphs of an ellipsis, those of a display string or of an
    /// overlay's string; the last of them and no other is the line's end. Each is sound, and its glyphs have the columns that Unicode
    /// gives them. They take fewer than 2^60 columns, a tab counted as its stop's width and a stretch up to a column as that column.
    pub fn start(alloc: Global, view: View<'a>, start: Pos, base: u8) -> Result<Walker<'a>, Memory>
        requires place { IsAccessible view.state.now.text start }
        requires base { base ≤ 1 }
        ensures { IfOk result (λ walker. IsLine (line_elements (scene_of view.entry) base (reading (meaning view.entry.state.now) view.entry.objects.now start)) (⟦<Walker<'a> as Elements>⟧.left walker)) }
    {
        let appearance = appearance_at(alloc, &view, start)?;
        Walker::with_appearance(alloc, view, start, base, &appearance)
    }

    /// The elements of the line of the block that starts at a position, as `start` has them, where it is known how the position looks,
    /// which saves one look-up.
    pub fn with_appearance(
        alloc: Global,
        view: View<'a>,
        start: Pos,
        base: u8,
        appearance: &Appearance,
    ) -> Result<Walker<'a>, Memory>
        requires place { IsAccessible view.state.now.text start }
        requires base { base ≤ 1 }
        requires appearance { appearance.now ≡ appearance_at (meaning view.state.now) view.objects.now start }
        ensures { IfOk result (λ walker. IsLine (line_elements (scene_of view.entry) base (reading (meaning view.entry.state.now) view.entry.objects.now start)) (⟦<Walker<'a> as Elements>⟧.left walker)) }
    {
        blocks_are_read_whole();
        lines_end_once();
        lines_are_sound();
        view_stays_sound(&view);
        reading_stays_sound(&view, start);
        let items = Items::with_appearance(alloc, &view, start, appearance)?;
        Walker::of_items(alloc, view, base, items)
    }

    /// The elements of the line of these items.
    fn of_items(alloc: Global, view: View<'a>, base: u8, items: Items) -> Result<Walker<'a>, Memory>
        requires { base ≤ 1 }
        ensures { IfOk result (λ walker. walk_left walker.few walker.frames.items ≡ line_of_items (scene_of view.entry) base items) }
    {
        let line = LineFrame::new(alloc, view, base, items)?;
        Walker::from_frame(alloc, Frame::Line(line))
    }

    /// The elements of a frame.
    pub(crate) fn from_frame(alloc: Global, outermost: Frame<'a>) -> Result<Walker<'a>, Memory>
        ensures { IfOk result (λ walker. walk_left walker.few walker.frames.items ≡ elements_in (frame_left outermost.entry)) }
    {
        let mut frames = SmallVec::new(alloc);
        frames.push(outermost)?;
        Ok(Walker {
            frames,
            few: Few::none(alloc),
        })
    }

    /// Takes the next element, and None exactly where none is left.
    pub(crate) fn give(&mut self, alloc: Global) -> Result<Option<Element>, Memory>
        ensures { Takes result (walk_left self.old.few self.old.frames.items) (walk_left self.new.few self.new.frames.items) }
    {
        loop {
            if let Some(element) = self.few.next() {
                return Ok(Some(element));
            }
            if self.frames.is_empty() {
                return Ok(None);
            }
            if let Some(element) = self.advance(alloc)? {
                return Ok(Some(element));
            }
        }
    }

    /// Takes a step of the innermost frame, and answers the element that it gives alone.
    fn advance(&mut self, alloc: Global) -> Result<Option<Element>, Memory>
        requires few { self.old.few ≡ [] }
        requires frames { 0 < length self.old.frames.items }
        ensures left { IfOk result (λ found. elements_in (frames_left self.old.frames.items) ≡ option_to_list found ++ walk_left self.new.few self.new.frames.items) }
        ensures work { IfOk result (λ found. work self.new.frames.items < work self.old.frames.items) }
    {
        match self.step(alloc)? {
            Step::Ends => {
                self.leave();
                Ok(None)
            }
            Step::Gives(element) => Ok(Some(element)),
            Step::Lists => Ok(None),
            Step::Enters(entrance) => {
                self.enter(alloc, &entrance)?;
                Ok(None)
            }
        }
    }

    /// Takes a step of the innermost frame, in its place.
    fn step(&mut self, alloc: Global) -> Result<Step<'a>, Memory>
        requires few { self.old.few ≡ [] }
        requires frames { 0 < length self.old.frames.items }
        ensures { IfOk result (λ step. StepsInnermost step self.new.few self.old.frames.items self.new.frames.items) }
    {
        let innermost = self.frames.len() - 1;
        match self.frames.get_mut(innermost) {
            Some(frame) => frame.step(alloc, &mut self.few),
            None => Ok(Step::Ends),
        }
    }

    /// Leaves the innermost frame.
    fn leave(&mut self)
        requires { 0 < length self.old.frames.items }
        ensures few { self.new.few ≡ self.old.few }
        ensures frames { self.new.frames.items ≡ take (length self.old.frames.items - 1) self.old.frames.items }
    {
        self.frames.truncate(self.frames.len() - 1);
    }

    /// Enters a string.
    fn enter(&mut self, alloc: Global, entrance: &Entrance<'a>) -> Result<(), Memory>
        ensures few { self.new.few ≡ self.old.few }
        ensures left { OnOk result (frames_left self.new.frames.items ≡ entrance.now ++ frames_left self.old.frames.items) }
        ensures count { OnOk result (length self.new.frames.items ≤ length self.old.frames.items + 1) }
    {
        if let Some(string) = entrance.open(alloc)? {
            self.frames.push(Frame::Text(string))?;
        }
        Ok(())
    }
}

impl<'a> Elements for Walker<'a> {
    ghost use Rattle.rd_stack.specs.Walks.{walk_left};

    ghost left = { λ s. walk_left s.few s.frames.items };

    fn next(&mut self, alloc: Global) -> Result<Option<Element>, Memory> {
        self.give(alloc)
    }
}
