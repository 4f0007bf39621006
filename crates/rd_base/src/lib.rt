//! The words that every layer of the redisplay engine shares: characters, faces, glyphs, cells, elements of a line,
//! lines of bidirectional classes, the settings of a buffer, a cut of bytes, the counter of steps, and in `limits` the limits of the
//! engine with their units.
#![tactic(auto)]

mod cell;
mod cells;
mod chars;
mod class;
mod cuts;
mod element;
mod face;
mod laws;
pub mod limits;
mod line;
mod list;
mod memory;
mod settings;
mod steps;

pub use cell::{Cell, Glyph};
pub use cells::{push_glyph, push_look};
pub use chars::{Ch, characters, columns_of, encode};
pub use class::Class;
pub use cuts::cut;
pub use element::{Element, Elements, Extent, Look, Origin};
pub use face::Face;
pub use laws::good_cells_are_small;
pub use line::{Line, Seq};
pub use list::{ListOf, change_each, mapped};
pub use memory::Memory;
pub use settings::{Anchor, Direction, Invisible, Settings, Wrap};
pub use steps::Steps;

/// A place in a buffer's text, counted from 1.
pub type Pos = u32;
