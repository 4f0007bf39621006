//! The walk over a block: marks join, and ranges are handed on.
ghost use Rattle.std.specs.Prelude.{◌≡◌};
ghost use Rattle.rd_items.specs.Items.{item_of};
ghost use Rattle.rd_items.specs.Walks.{TakesMark};

use crate::alike_range::{AlikeRange, run_end};
use crate::item::{Item, ItemKind};
use crate::piece::{Piece, piece_at};
use crate::showing::{Showing, char_at};
use rd_base::{Face, ListOf, Memory, Pos};
use rd_glyphs::marked_glyph;
use rd_props::{View, strings_at};
use std::alloc::Global;

/// The items that were made, the first offset that none of them covers, and the last piece, which marks may still join.
#[derive(Drop)]
pub struct Walk {
    items: ListOf<Item>,
    since: u32,
    held: Option<Piece>,
}

/// Whether the mark of the next piece joins one, which then stands up to the mark's end.
fn takes_mark(held: &mut Piece, next: &Piece) -> bool
    ensures { TakesMark result held.old held.new next.now }
{
    match marked_glyph(held.base, next.mark) {
        None => false,
        Some(glyph) => {
            held.kind = Some(ItemKind::Marked(glyph));
            held.base = Some(glyph);
            held.to = next.to;
            true
        }
    }
}

/// The item of a piece that covers the offsets from `since` on, or else none.
fn item_of(since: u32, piece: &Piece, kind: ItemKind) -> Item
    ensures { result ≡ item_of since piece.now kind }
{
    let (from, to) = if piece.covers {
        (since, piece.to)
    } else {
        (piece.at, piece.at)
    };
    Item {
        class: piece.class,
        kind,
        face: piece.face,
        overlay: piece.overlay,
        from,
        to,
    }
}

impl Walk {
    ghost use Rattle.std.specs.Prelude.{◌≡◌, ◌≤◌, ◌-◌, ◌∷◌, [], ◌++◌, List, None, OnOk, IfOk};
    ghost use Rattle.rd_text.specs.Texts.{IsAccessible};
    ghost use Rattle.rd_props.specs.Buffers.{meaning};
    ghost use Rattle.rd_props.specs.Strings.{strings_at};
    ghost use Rattle.rd_items.specs.Readings.{showing_at};
    ghost use Rattle.rd_items.specs.AlikeRanges.{IsAlikeRange};
    ghost use Rattle.rd_items.specs.Items.{items_by, covered_to};
    ghost use Rattle.rd_items.specs.Walks.{whole, Steps, TakesMarkIn};
    ghost use Rattle.rd_items.specs.Pieces.{scene_of, string_pieces};
    ghost use Rattle.rd_items.specs.declared.piece.Piece.{Piece};

    /// A walk before its first step, with room for so many items.
    pub fn new(alloc: Global, room: usize) -> Result<Walk, Memory>
        ensures items { IfOk result (λ walk. walk.items ≡ []) }
        ensures since { IfOk result (λ walk. walk.since ≡ 0) }
        ensures held { IfOk result (λ walk. walk.held ≡ None) }
    {
        Ok(Walk {
            items: ListOf::with_room(alloc, room)?,
            since: 0,
            held: None,
        })
    }

    /// Makes the item of a piece.
    fn give(&mut self, piece: &Piece) -> Result<(), Memory>
        ensures items { OnOk result (self.new.items ≡ self.old.items ++ items_by piece.now.kind self.old.since piece.now) }
        ensures since { OnOk result (self.new.since ≡ covered_to self.old.since piece.now) }
    {
        if let Some(kind) = piece.kind {
            self.items.push(item_of(self.since, piece, kind))?;
        }
        if piece.covers {
            self.since = piece.to;
        }
        Ok(())
    }

    /// Whether the mark of a piece joins the piece that is held.
    fn takes_mark(&mut self, piece: &Piece) -> bool
        ensures items { self.new.items ≡ self.old.items }
        ensures since { self.new.since ≡ self.old.since }
        ensures held { TakesMarkIn result self.old.held self.new.held piece.now }
    {
        match &mut self.held {
            None => false,
            Some(held) => takes_mark(held, piece),
        }
    }

    /// Adds a piece.
    pub fn put(&mut self, piece: Piece) -> Result<(), Memory>
        ensures { OnOk result ((xs : List Piece) → whole self.new.items self.new.since self.new.held xs ≡ whole self.old.items self.old.since self.old.held (piece ∷ xs)) }
    {
        if self.takes_mark(&piece) {
            return Ok(());
        }
        if let Some(held) = self.held.take() {
            self.give(&held)?;
        }
        self.held = Some(piece);
        Ok(())
    }

    /// Adds the strings of overlays before the position at an offset, where the text has this face.
    fn put_strings(&mut self, at: u32, face: Face, numbers: &[u32]) -> Result<(), Memory>
        ensures whole { OnOk result ((xs : List Piece) → whole self.new.items self.new.since self.new.held xs ≡ whole self.old.items self.old.since self.old.held (string_pieces at face numbers.now ++ xs)) }
    {
        for number in numbers {
            self.put(Piece::string(at, face, *number))?;
        }
        Ok(())
    }

    /// Goes on to a position: moves to its range, adds the strings of overlays before it, and answers how it is shown.
    fn enter(
        &mut self,
        alloc: Global,
        view: &View,
        range: &mut AlikeRange,
        start: Pos,
        pos: Pos,
    ) -> Result<Showing, Memory>
        requires accessible { IsAccessible view.now.state.now.text pos }
        requires behind { start ≤ pos }
        requires range { IsAlikeRange (meaning view.now.state.now) view.now.objects.now range.old }
        ensures showing { IfOk result (λ showing. showing ≡ showing_at (meaning view.now.state.now) view.now.objects.now pos) }
        ensures range { IfOk result (λ showing. IsAlikeRange (meaning view.now.state.now) view.now.objects.now range.new) }
        ensures whole { IfOk result (λ showing. (xs : List Piece) → whole self.new.items self.new.since self.new.held xs ≡ whole self.old.items self.old.since self.old.held (string_pieces (pos - start) showing.face (strings_at (meaning view.now.state.now) pos) ++ xs)) }
    {
        range.reach(alloc, view, pos)?;
        if range.from < pos {
            return Ok(range.showing);
        }
        let strings = strings_at(alloc, view, pos)?;
        self.put_strings(pos - start, range.showing.face, strings.as_slice())?;
        Ok(range.showing)
    }

    /// Adds what stands at a position that belongs to no earlier run, and answers the next such position, or None behind the
    /// block's ender.
    pub fn step(
        &mut self,
        alloc: Global,
        view: &View,
        range: &mut AlikeRange,
        start: Pos,
        pos: Pos,
    ) -> Result<Option<Pos>, Memory>
        requires accessible { IsAccessible view.now.state.now.text pos }
        requires behind { start ≤ pos }
        requires range { IsAlikeRange (meaning view.now.state.now) view.now.objects.now range.old }
        ensures range { IfOk result (λ next. IsAlikeRange (meaning view.now.state.now) view.now.objects.now range.new) }
        ensures steps { Steps result (meaning view.now.state.now) (scene_of view.now) start pos (whole self.old.items self.old.since self.old.held) (whole self.new.items self.new.since self.new.held) }
    {
        let showing = self.enter(alloc, view, range, start, pos)?;
        let to = run_end(alloc, view, range, pos, &showing)?;
        let ch = char_at(view, pos);
        let piece = piece_at(view, &showing, &ch, pos - start, to - start);
        self.put(piece)?;
        if piece.shows_ender() {
            return Ok(None);
        }
        Ok(Some(to))
    }

    /// The items, when no piece is left.
    pub fn finish(self) -> Result<ListOf<Item>, Memory>
        ensures value { IfOk result (λ items. items ≡ whole self.items self.since self.held []) }
    {
        let mut walk = self;
        if let Some(held) = walk.held.take() {
            walk.give(&held)?;
        }
        Ok(walk.items)
    }
}
