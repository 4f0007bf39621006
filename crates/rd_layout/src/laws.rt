//! Laws of the definitions: redisplays and ops lead from a session to a session, and every target screen is sound and fits its frame.
ghost use Rattle.std.specs.Prelude.{◌≡◌, ◌+◌, ◌<◌, ℕ, Bool, List, Option, Some, Ok};
ghost use Rattle.rd_frame.specs.Fits.{FitsFrame};
ghost use Rattle.rd_lineshift.specs.Choices.{AreWithin};
ghost use Rattle.rd_matrix.specs.Entries.{shown_entries};
ghost use Rattle.rd_reuse.specs.Keeping.{AreRight};
ghost use Rattle.rd_rows.specs.Shapes.{ShapeValues, IsShape};
ghost use Rattle.rd_script.specs.Forms.{IsInForm};
ghost use Rattle.rd_script.specs.declared.op.Op.{Op};
ghost use Rattle.rd_script.specs.declared.op.Op.TheVariants.{Hit};
ghost use Rattle.rd_state.specs.States.{StateValue};
ghost use Rattle.rd_state.specs.Steps.{step};
ghost use Rattle.rd_state.specs.Valid.{IsValid};
ghost use Rattle.rd_state.specs.Windows.{window_of};
ghost use Rattle.rd_state.specs.declared.window.WindowState.{WindowState};
ghost use Rattle.rd_term.specs.Pictures.{IsOfSize};
ghost use Rattle.rd_tree.specs.declared.placed.Placed.{Placed};
ghost use Rattle.rd_ucd.specs.Data.{Data};
ghost use Rattle.rd_update.specs.Laws.{IsSound};
ghost use Rattle.rd_visual.specs.Hits.{AreInPositions};
ghost use Rattle.rd_window.specs.Layouts.{StandsUnchanged, change_since, older_rows};
ghost use Rattle.rd_window.specs.declared.layout.Layout.{Layout};
ghost use Rattle.rd_layout.specs.Copies.{redisplayed, without_copies};
ghost use Rattle.rd_layout.specs.Facts.{facts_of};
ghost use Rattle.rd_layout.specs.Laws.{ChosenLaw, FitLaws, LeadLaw, ViewLaws};
ghost use Rattle.rd_layout.specs.Redisplays.{IsSent, allowed, bands_of};
ghost use Rattle.rd_layout.specs.Screens.{frame_in, laid_out};
ghost use Rattle.rd_layout.specs.Numbers.{IsMade, number_made};
ghost use Rattle.rd_layout.specs.Sessions.{IsStep, SessionValue, behind, layout_of, opened, session_step};
ghost use Rattle.rd_layout.specs.Since.{IsSession};
ghost use Rattle.rd_layout.specs.Spots.{hit_by, spot_at};
ghost use Rattle.rd_layout.specs.Windows.{place_of, window_shape, window_source};
ghost use Rattle.rd_layout.specs.declared.spot.Shows.{Shows};
ghost use Rattle.rd_layout.specs.declared.spot.Spot.TheVariants.{EchoArea, Text};

use rd_blocks::{
    accessible_positions_lie_in_blocks, buffers_are_sources, changes_lead_on, kept_rows_are_fresh,
    rows_are_local, rows_of_buffers_are_coloured, rows_of_buffers_are_whole,
};
use rd_frame::{borders_are_whole, frames_are_pictures};
use rd_glyphs::glyph_texts_are_sound;
use rd_items::blocks_are_listed;
use rd_lineshift::{shift_law, shifted_updates_keep_screens_sound};
use rd_margins::margins_are_whole;
use rd_modeline::mode_lines_are_whole;
use rd_state::{ops_leave_the_rest, steps_keep_states};
use rd_visual::items_begin_in_the_window;
use rd_window::{new_layouts_stand, no_rows_are_kept};

/// A redisplay leaves a valid state valid: the starts and the points that it chooses are accessible, and its windows have shapes. The
/// call does nothing.
pub fn redisplays_keep_states()
    ensures state { (files : Data) (s : StateValue) → IsValid s → IsValid (laid_out files s).state }
    ensures chosen { ChosenLaw }
    ensures shape { (s : StateValue) (number : ℕ) (w : WindowState) (place : Placed) → IsValid s → place_of number s ≡ Some place → IsShape (window_shape s w place) }
    ensures bands { (s : StateValue) → IsValid s → AreWithin s.height (bands_of s) }
{
    view_laws();
}

/// The opening is a session, whatever the data files are, and an op in form leads from a session to a session: its state stays valid,
/// a known screen the frame's, and what changed since the last layouts is known. So the rows of a last layout that may be kept are
/// the rows that the window's blocks have now, and a last layout since which nothing changed stands, unless the window's start was set by
/// command; and the items of its rows end at positions. The call does nothing.
pub fn sessions_stay_known()
    ensures opened { (files : Data) → IsSession (opened files) }
    ensures step { (v : SessionValue) (op : Op) (state : StateValue) → IsSession v → IsInForm op → IsStep op → session_step v op ≡ Ok state → IsSession (behind v op state) }
    ensures kept { (v : SessionValue) (number : ℕ) (w : WindowState) (shape : ShapeValues) → IsSession v → window_of number v.state.windows ≡ Some w
        → AreRight (window_source v.files v.state w) (older_rows (layout_of number v.layouts) shape) (change_since (layout_of number v.layouts)) shape }
    ensures stands { (v : SessionValue) (number : ℕ) (w : WindowState) → IsSession v → window_of number v.state.windows ≡ Some w
        → StandsUnchanged (layout_of number v.layouts) (window_source v.files v.state w) w.forced w.anchor }
    ensures positions { (v : SessionValue) (number : ℕ) (w : WindowState) (l : Layout) → IsSession v → window_of number v.state.windows ≡ Some w → layout_of number v.layouts ≡ Some l → AreInPositions (shown_entries l.matrix) }
{
    changes_lead_on();
    kept_rows_are_fresh();
    no_rows_are_kept();
    ops_leave_the_rest();
    rows_are_local();
    steps_keep_states();
    view_laws();
}

/// A redisplay that is sent leads from a session to a session. The call does nothing.
pub fn redisplays_lead_on()
    ensures { LeadLaw }
{
    changes_lead_on();
    kept_rows_are_fresh();
    new_layouts_stand();
    shift_law();
    shifted_updates_keep_screens_sound();
    targets_are_sound();
    view_laws();
}

/// A redisplay that is sent leaves one session, but for how often rows were copied. The call does nothing.
pub fn sent_redisplays_are_determined()
    ensures { (rows : ℕ) (done : Bool) (stop : Option ℕ) (old new : SessionValue) (before after : Option (List ℕ)) → IsSent rows done stop old new before after
        → without_copies new ≡ redisplayed old stop }
{}

/// How often rows were copied changes no allowance. The call does nothing.
pub fn copies_change_no_allowance()
    ensures { (v : SessionValue) → allowed (without_copies v) ≡ allowed v }
{}

/// How often rows were copied changes neither what an op leads to, nor what a dump says; and a session behind an op is, but for that, the
/// one behind the op where no row was copied. The call does nothing.
pub fn copies_change_no_op()
    ensures step { (v : SessionValue) (op : Op) → session_step (without_copies v) op ≡ session_step v op }
    ensures behind { (v : SessionValue) (op : Op) (state : StateValue) → without_copies (behind v op state) ≡ behind (without_copies v) op state }
    ensures facts { (v : SessionValue) → facts_of (without_copies v) ≡ facts_of v }
{}

/// What each window of a valid state shows has the sizes of its rectangle, and the cursor stands in the selected window's text. The call
/// does nothing.
pub fn targets_fit_their_frames()
    ensures { (files : Data) (s : StateValue) → IsValid s → FitsFrame (frame_in files s) }
{
    fit_laws();
}

/// The target of a redisplay has the frame's size, is well formed and has its colours in range. The call does nothing.
pub fn targets_are_sound()
    ensures size { (files : Data) (s : StateValue) → IsValid s → IsOfSize s.width s.height (laid_out files s).picture }
    ensures sound { (files : Data) (s : StateValue) → IsValid s → IsSound (laid_out files s).picture }
{
    borders_are_whole();
    fit_laws();
    frames_are_pictures();
    glyph_texts_are_sound();
    mode_lines_are_whole();
    rows_of_buffers_are_coloured();
}

/// What an accepted op makes has the number that is told of the op: it is there behind the op, and was not before. The call does nothing.
pub fn numbers_are_new()
    ensures { (s t : StateValue) (op : Op) (number : ℕ) → IsValid s → step s op ≡ Ok t → number_made s op ≡ Some number → IsMade s op number t }
{}

/// In the frame's last row stands the echo area, and in no other row. At a cell of a window's text the op `hit` does what the cell shows:
/// it moves point to the position, leaves point, or is refused. The call does nothing.
pub fn spots_are_exact()
    ensures echo { (v : SessionValue) (row column : ℕ) → IsSession v → column < v.state.width → row + 1 ≡ v.state.height → spot_at v row column ≡ Some EchoArea }
    ensures windows { (v : SessionValue) (row column : ℕ) → IsSession v → spot_at v row column ≡ Some EchoArea → row + 1 ≡ v.state.height }
    ensures hits { (v : SessionValue) (row column window r k : ℕ) (shows : Shows) → IsSession v → spot_at v row column ≡ Some (Text window r k shows)
        → session_step v (Hit window r k) ≡ hit_by v.state window shows }
{}

/// What the proofs here take from the laws below of what a window shows. The call does nothing.
fn view_laws()
    ensures { ViewLaws }
{
    accessible_positions_lie_in_blocks();
    blocks_are_listed();
    buffers_are_sources();
}

/// What the proofs here take from the laws below of the sizes of what windows show. The call does nothing.
fn fit_laws()
    ensures { FitLaws }
{
    items_begin_in_the_window();
    margins_are_whole();
    mode_lines_are_whole();
    rows_of_buffers_are_whole();
}
