//! What the text properties and the overlays of a buffer come to at a position: the effective value of a property, the merged
//! face, whether the position is hidden, the strings of overlays there, and how far nothing changes. The rules are those of the
//! Emacs Lisp Reference Manual (Text Properties, Overlay Properties, Invisible Text). In docs/RULES.md they are "Effective
//! properties" and "What is seen, and what edits leave".
#![tactic(auto)]

mod appearance;
mod edits;
mod examples;
mod faces;
mod hiding;
mod laws;
mod made;
mod shown;
mod state;
mod stops;
mod strings;
mod values;

pub use appearance::{Appearance, appearance_at};
pub use edits::{
    changes_join, changes_widen, deletions_leave_the_rest, insertions_leave_the_rest,
    new_objects_leave_all, overlays_leave_the_rest, puts_leave_the_rest, settings_leave_all,
};
pub use faces::face_at;
pub use hiding::Hidden;
pub use laws::{
    effective_values_are_the_greatest_overlays, merged_faces_have_their_colours,
    nothing_changes_before_the_next_stop, nothing_changes_behind_the_last_stop,
    overlays_have_two_strings, what_is_seen_says_what_is_hidden,
};
pub use made::{edits_keep_what_is_made, made_objects_alone_are_seen};
pub use shown::hidden;
pub use state::{BufferState, View};
pub use stops::{last_stop, next_stop};
pub use strings::strings_at;
pub use values::effective;
