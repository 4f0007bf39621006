//! What an update does to the terminal that reads its bytes, and where it leads. The calls do nothing.
ghost use Rattle.std.specs.Prelude.{◌≡◌, ◌<◌, ◌≤◌, ◌==◌, ℕ, List, ◌∷◌, length, All, Option, IfSome, None, Some, false, true};
ghost use Rattle.std.specs.Char.{is_ascii_digit};
ghost use Rattle.rd_base.specs.Glyphs.{IsRowAfter};
ghost use Rattle.rd_base.specs.declared.cell.Cell.{Cell};
ghost use Rattle.rd_base.specs.declared.limits.TheConstants.{SEQUENCE_NUMBERS, SEQUENCE_VALUE};
ghost use Rattle.rd_term.specs.Pictures.{Picture};
ghost use Rattle.rd_term.specs.Controls.{control_of};
ghost use Rattle.rd_term.specs.Steps.{at_end};
ghost use Rattle.rd_term.specs.Terminals.{Tty, feed_bytes, perform};
ghost use Rattle.rd_term.specs.declared.reading.Reading.TheVariants.{Between};
ghost use Rattle.rd_update.specs.Plans.{HaveOneSize};
ghost use Rattle.rd_update.specs.Updates.{sequence, update, end_of_differences, begin_of, end_of};
ghost use Rattle.rd_update.specs.Laws.{IsReady, IsUpdated, IsLeastInterval, IsSound};

/// The update law. Take a terminal that is not confused and stands between two sequences, a sound target of its size, and
/// any limit of rows. Either the current screen is unknown, or the terminal's cells are its cells and the terminal's pen is plain. Then,
/// after the bytes of the update, the terminal is not confused and stands between two sequences, its cells are those of the new
/// current screen, its pen is plain, and where the update is done its cursor is the target's.
pub fn update_law()
    ensures { (width height : ℕ) (current : Option Picture) (target : Picture) (limit : Option ℕ) (t : Tty)
        → IsReady width height current target t
        → IsUpdated width height (update current target limit) target (feed_bytes t (update current target limit).bytes) }
{}

/// The bytes of a control sequence of up to `SEQUENCE_NUMBERS` numbers, none above `SEQUENCE_VALUE`, do what its last byte says. They are
/// read by a terminal that is not confused and stands between two sequences, and no mark joins behind them.
pub fn sequences_are_read()
    ensures { (t : Tty) (last n : ℕ) (ns : List ℕ) → t.confused ≡ false → t.reading ≡ Between → is_ascii_digit last ≡ false → (last == 59) ≡ false
        → n ≤ SEQUENCE_VALUE → All (λ k. k ≤ SEQUENCE_VALUE) ns → length ns < SEQUENCE_NUMBERS
        → feed_bytes t (sequence n ns last) ≡ perform (at_end (control_of last) (Some (n ∷ ns))) (record t { latest = None }) }
{}

/// Of a row that differs the least interval is sent that holds all columns at which it differs, and cuts no character of the row
/// as it is or as it becomes.
pub fn intervals_are_least()
    ensures { (old new : List Cell) → length old ≡ length new → IsRowAfter 0 old → IsRowAfter 0 new → 0 < end_of_differences old new
        → IsLeastInterval old new (begin_of old new) (end_of old new) }
{}

/// An update that is done leads to its target, and one without a limit is always done.
pub fn updates_reach_their_targets()
    ensures reached { (current : Option Picture) (target : Picture) (limit : Option ℕ) → HaveOneSize current target
        → (update current target limit).done ≡ true → (update current target limit).screen ≡ target }
    ensures done { (current : Option Picture) (target : Picture) → (update current target None).done ≡ true }
{}

/// The new current screen has the target's size, and it is sound where the target and the screen before it are.
pub fn updates_keep_screens_sound()
    ensures size { (current : Option Picture) (target : Picture) (limit : Option ℕ) → HaveOneSize current target
        → HaveOneSize (Some (update current target limit).screen) target }
    ensures sound { (current : Option Picture) (target : Picture) (limit : Option ℕ) → HaveOneSize current target
        → IfSome current (λ screen. IsSound screen) → IsSound target → IsSound (update current target limit).screen }
{}
