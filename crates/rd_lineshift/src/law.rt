//! What an update that may begin with a shift does to the terminal that reads its bytes, and where it leads. The calls do
//! nothing.
ghost use Rattle.std.specs.Prelude.{◌≡◌, ℕ, ◌+◌, ◌<◌, ◌≤◌, All, List, length, Option, IfSome, None, Some, true};
ghost use Rattle.std.specs.List.{flat_map};
ghost use Rattle.rd_term.specs.Pictures.{Picture, IsScreen};
ghost use Rattle.rd_update.specs.Laws.{IsSound};
ghost use Rattle.rd_update.specs.Plans.{HaveOneSize};
ghost use Rattle.rd_update.specs.Updates.{differing};
ghost use Rattle.rd_lineshift.specs.Choices.{AreWithin, choice, cost, shifts_of};
ghost use Rattle.rd_lineshift.specs.Laws.{IsShift, ShiftLaw};
ghost use Rattle.rd_lineshift.specs.Plans.{shifted_update};
ghost use Rattle.rd_lineshift.specs.declared.band.Band.{Band};
ghost use Rattle.rd_lineshift.specs.declared.band.Shift.{Shift};
ghost use Rattle.rd_lineshift.specs.declared.choice.TheConstants.{GAIN};

use rd_update::{update_law, updates_keep_screens_sound, updates_reach_their_targets};

/// The update law, with shifts. Take a terminal that is not confused and stands between two sequences, a sound target of
/// its size, any bands on it and any limit of rows; nothing is asked of its region. Either the current screen is unknown, or
/// the terminal's cells are its cells and the terminal's pen is plain. Then, after the bytes of the update, the terminal is not
/// confused and stands between two sequences, its cells are those of the new current screen, its pen is plain, and where the
/// update is done its cursor is the target's.
pub fn shift_law()
    ensures { ShiftLaw }
{
    update_law();
}

/// A shift that is taken lies on the screen, moves by one row or more, and leaves one or more of its band.
pub fn shifts_stay_on_the_screen()
    ensures { (height : ℕ) (current : Option Picture) (target : Picture) (bands : List Band) → AreWithin height bands
        → IfSome (choice current target bands) (λ s. IsShift height s) }
{}

/// No shift of any band costs less than the one that is taken, and that costs at least `GAIN` less than the screen as it is.
/// Where none is taken, none would.
pub fn the_shift_taken_costs_the_least()
    ensures taken { (current target : Picture) (bands : List Band) (s : Shift) → choice (Some current) target bands ≡ Some s
        → (cost current target s + GAIN ≤ differing current.rows target.rows) × All (λ t. cost current target s ≤ cost current target t) (flat_map shifts_of bands) }
    ensures none { (current target : Picture) (bands : List Band) → choice (Some current) target bands ≡ None
        → All (λ t. differing current.rows target.rows < cost current target t + GAIN) (flat_map shifts_of bands) }
{}

/// An update that is done leads to its target, and one without a limit is always done.
pub fn shifted_updates_reach_their_targets()
    ensures reached { (current : Option Picture) (target : Picture) (bands : List Band) (limit : Option ℕ) → HaveOneSize current target
        → IfSome current (λ screen. IsScreen screen) → AreWithin (length target.rows) bands
        → (shifted_update current target bands limit).done ≡ true → (shifted_update current target bands limit).screen ≡ target }
    ensures done { (current : Option Picture) (target : Picture) (bands : List Band) → (shifted_update current target bands None).done ≡ true }
{
    updates_reach_their_targets();
}

/// The new current screen has the target's size, and it is sound where the target and the screen before it are.
pub fn shifted_updates_keep_screens_sound()
    ensures size { (current : Option Picture) (target : Picture) (bands : List Band) (limit : Option ℕ) → HaveOneSize current target
        → IfSome current (λ screen. IsScreen screen) → AreWithin (length target.rows) bands
        → HaveOneSize (Some (shifted_update current target bands limit).screen) target }
    ensures sound { (current : Option Picture) (target : Picture) (bands : List Band) (limit : Option ℕ) → HaveOneSize current target
        → IfSome current (λ screen. IsScreen screen × IsSound screen) → AreWithin (length target.rows) bands → IsSound target
        → IsSound (shifted_update current target bands limit).screen }
{
    updates_keep_screens_sound();
}
