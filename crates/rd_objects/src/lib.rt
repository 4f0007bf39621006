//! The numbered objects that properties name: faces, display specs, strings and display tables. An object never changes.
//!
//! In Emacs these are Lisp objects: faces, values of the `display` property, propertized strings and display tables. The rules
//! are in docs/RULES.md, "Objects".
#![tactic(auto)]

mod fault;
mod glyph;
mod laws;
mod objects;
mod run;
mod table;
mod text;

pub use fault::ObjectFault;
pub use glyph::{columns, glyph_character, is_control};
pub use laws::{
    extensions_keep_objects, objects_stay_closed, objects_stay_sound, strings_have_colours,
};
pub use objects::{Objects, characters_have_codes};
pub use run::{Run, RunKind, Slot, Spec};
pub use table::Table;
pub use text::Text;
