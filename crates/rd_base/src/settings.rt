//! The settings of a buffer, and the small types of a window's view.
ghost use Rattle.std.specs.Prelude.{◌≡◌};
ghost use Rattle.rd_base.specs.Settings.{opening};

use crate::list::ListOf;
use std::marker::Model;

/// Which way a paragraph runs: as its text says, or as the user says.
#[derive(Clone, Copy, Debug, PartialEq, Eq)]
pub enum Direction {
    Auto,
    Left,
    Right,
}

/// Which invisible text is hidden: all of it, or that whose atom is listed, with an ellipsis where the flag is true.
#[derive(Drop)]
pub enum Invisible {
    Every,
    Listed(ListOf<(u32, bool)>),
}

/// The settings of one buffer. A tab stop has 1 to 32 columns.
#[derive(Drop)]
pub struct Settings {
    pub tab_width: u8,
    pub ctl_arrow: bool,
    pub direction: Direction,
    pub reorder: bool,
    pub table: Option<u32>,
    pub invisible: Invisible,
    pub line_prefix: Option<u32>,
    pub wrap_prefix: Option<u32>,
    pub modified: bool,
    pub read_only: bool,
}

impl Model for Settings {
    ghost use Rattle.std.specs.Prelude.{◌≤◌};
    ghost use Rattle.rd_base.specs.Settings.{SettingValues};
    ghost use Rattle.rd_base.specs.declared.limits.TheConstants.{TAB_COLUMNS};

    ghost Value = { SettingValues };

    ghost view = { λ s. record {
      tab_width = s.tab_width;
      ctl_arrow = s.ctl_arrow;
      direction = s.direction;
      reorder = s.reorder;
      table = s.table;
      invisible = s.invisible;
      line_prefix = s.line_prefix;
      wrap_prefix = s.wrap_prefix;
      modified = s.modified;
      read_only = s.read_only;
    } };

    ghost invariant = { λ s. (1 ≤ s.tab_width) × (s.tab_width ≤ TAB_COLUMNS) };
}

impl Settings {
    /// The settings of a new buffer.
    pub fn new() -> Settings
        ensures { result ≡ opening }
    {
        Settings {
            tab_width: 8,
            ctl_arrow: true,
            direction: Direction::Auto,
            reorder: true,
            table: None,
            invisible: Invisible::Every,
            line_prefix: None,
            wrap_prefix: None,
            modified: false,
            read_only: false,
        }
    }
}

/// Where a window's view begins: a position, and the number, from 0, of a row of the block that starts there. `start`, and ops that
/// change the text, its accessible part, or which newlines are shown, may leave it at any accessible position, also where no block starts,
/// and with a number behind that of the block's last row.
#[derive(Clone, Copy, Debug, PartialEq, Eq)]
pub struct Anchor {
    pub pos: u32,
    pub row: u32,
}

/// What becomes of a line that is longer than a row: it is cut at the window's edge, goes on in the next row, or goes on there
/// behind its last blank.
#[derive(Clone, Copy, Debug, PartialEq, Eq)]
pub enum Wrap {
    Truncate,
    Continue,
    Word,
}
