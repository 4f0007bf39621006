//! Laws of what edits leave as it was, for the layers above.
ghost use Rattle.std.specs.Prelude.{◌≡◌, ℕ, ◌+◌, ◌-◌, ◌≤◌, min, max, ℤ, pos, ◌+ℤ◌, ◌≤ℤ◌, List, [], ◌∷◌, ◌++◌, length, Option, Some};
ghost use Rattle.rd_text.specs.Texts.{IsText, IsAccessible};
ghost use Rattle.rd_text.specs.Answers.{IsAccessibleRange};
ghost use Rattle.rd_overlays.specs.declared.overlay.Overlay.{Overlay};
ghost use Rattle.rd_overlays.specs.declared.overlay.Kind.{Kind};
ghost use Rattle.rd_overlays.specs.Overlays.{overlay_at, moved, dropped, given};
ghost use Rattle.rd_objects.specs.Things.{ObjectLists};
ghost use Rattle.rd_objects.specs.Sound.{Extends};
ghost use Rattle.rd_props.specs.Buffers.{BufferValue};
ghost use Rattle.rd_props.specs.Agreement.{Unchanged, IsEdited};
ghost use Rattle.rd_props.specs.Edits.{AreOrdered, IsInsertion, IsDeletion, IsPut, HasOverlays};
ghost use Rattle.rd_props.specs.Made.{AreMade};

/// What two changes leave as it was, one after the other: what stands before the lesser head, and what stands from the greater of
/// both tails on, where the earlier tail moves by what the later change added. What the later change added stands between the
/// accessible beginning and its tail, as an insertion's characters do. The call does nothing.
pub fn changes_join()
    ensures { (old changed new : BufferValue) (a b c : ObjectLists) (head later_head tail later_tail both_tail : ℕ) (added later_added : ℤ) → Unchanged old a changed b head tail added → Unchanged changed b new c later_head later_tail later_added → (pos changed.text.begin +ℤ later_added) ≤ℤ pos (max changed.text.begin later_tail) → (pos tail +ℤ later_added) ≤ℤ pos both_tail → later_tail ≤ both_tail → Unchanged old a new c (min head later_head) both_tail (added +ℤ later_added) }
{}

/// An insertion leaves what stood before its place, and what stood behind it, moved by the characters that were put in. What stands
/// directly behind them may have other strings, since overlays that start or end at the place go with the characters or stay. The
/// call does nothing.
pub fn insertions_leave_the_rest()
    ensures { (old new : BufferValue) (objects : ObjectLists) (place : ℕ) (chars : List ℕ) → IsText old.text → AreOrdered old.overlays → IsAccessible old.text place → IsInsertion old new place chars → IsEdited old objects new objects place 0 (length chars) }
{}

/// A deletion leaves what stood before it, and what stood behind the first position after it, moved back. The call does nothing.
pub fn deletions_leave_the_rest()
    ensures { (old new : BufferValue) (objects : ObjectLists) (from to : ℕ) → IsText old.text → AreOrdered old.overlays → IsAccessibleRange old.text from to → IsDeletion old new from to → IsEdited old objects new objects from (to - from) 0 }
{}

/// A text property that is put on a range leaves what stands before the range and behind the first position after it. The call does
/// nothing.
pub fn puts_leave_the_rest()
    ensures { (old new : BufferValue) (objects : ObjectLists) (kind : Kind) (from to : ℕ) (value : Option ℕ) → IsPut old new kind from to value → IsEdited old objects new objects from (to - from) (to - from) }
{}

/// An overlay that is made, that is dropped, or that is given a value leaves what stands before it and behind the first position after
/// it. One that is moved leaves what stands before and behind both its ranges. The call does nothing.
pub fn overlays_leave_the_rest()
    ensures made { (old new : BufferValue) (objects : ObjectLists) (overlay : Overlay) → overlay.from ≤ overlay.to → HasOverlays old new (old.overlays ++ Some overlay ∷ []) → IsEdited old objects new objects overlay.from (overlay.to - overlay.from) (overlay.to - overlay.from) }
    ensures dropped { (old new : BufferValue) (objects : ObjectLists) (number : ℕ) (overlay : Overlay) → overlay_at old.overlays number ≡ Some overlay → overlay.from ≤ overlay.to → HasOverlays old new (dropped old.overlays number) → IsEdited old objects new objects overlay.from (overlay.to - overlay.from) (overlay.to - overlay.from) }
    ensures given { (old new : BufferValue) (objects : ObjectLists) (number : ℕ) (overlay : Overlay) (kind : Kind) (value : Option ℕ) → overlay_at old.overlays number ≡ Some overlay → overlay.from ≤ overlay.to → HasOverlays old new (given old.overlays number kind value) → IsEdited old objects new objects overlay.from (overlay.to - overlay.from) (overlay.to - overlay.from) }
    ensures moved { (old new : BufferValue) (objects : ObjectLists) (number from to : ℕ) (overlay : Overlay) → overlay_at old.overlays number ≡ Some overlay → overlay.from ≤ overlay.to → from ≤ to → HasOverlays old new (moved old.overlays number from to) → Unchanged old objects new objects (min overlay.from from) (max overlay.to to + 1) (pos 0) }
{}

/// Objects that are made change nothing that is seen of a buffer whose properties and overlays name none that was not made. The call
/// does nothing.
pub fn new_objects_leave_all()
    ensures { (s : BufferValue) (old new : ObjectLists) (head tail : ℕ) → Extends old new → AreMade s old → Unchanged s old s new head tail (pos 0) }
{}

/// A change of the settings alone changes nothing that is seen at a position. The call does nothing.
pub fn settings_leave_all()
    ensures { (old new : BufferValue) (objects : ObjectLists) (head tail : ℕ) → HasOverlays old new old.overlays → Unchanged old objects new objects head tail (pos 0) }
{}

/// What is the same before a head and from a tail on is so before a lesser head and from a greater tail on. The call does nothing.
pub fn changes_widen()
    ensures { (old new : BufferValue) (a b : ObjectLists) (head tail lesser greater : ℕ) (added : ℤ) → Unchanged old a new b head tail added → lesser ≤ head → tail ≤ greater → Unchanged old a new b lesser greater added }
{}
