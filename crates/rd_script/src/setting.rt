//! The settings of a buffer, as an op says them.
use crate::word::{Named, beside};
use rd_base::{Direction, Invisible};

/// A setting and its new value. Tables and strings are named by number.
#[derive(Drop)]
pub enum Setting {
    /// The columns between tab stops, 1 to 32.
    TabWidth(u8),
    /// Whether a control character is shown by a caret and a letter.
    CtlArrow(bool),
    /// Which way paragraphs run.
    Direction(Direction),
    /// Whether bidirectional text is reordered.
    Reorder(bool),
    /// The display table.
    Table(Option<u64>),
    /// Which invisible text is hidden.
    Invisible(Invisible),
    /// The string before the first row of a line.
    LinePrefix(Option<u64>),
    /// The string before the other rows of a line.
    WrapPrefix(Option<u64>),
    /// Whether the text was modified.
    Modified(bool),
    /// Whether the text is only to be read.
    ReadOnly(bool),
}

/// Which setting an op sets.
#[derive(Clone, Copy)]
pub enum SettingName {
    TabWidth,
    CtlArrow,
    Direction,
    Reorder,
    Table,
    Invisible,
    LinePrefix,
    WrapPrefix,
    Modified,
    ReadOnly,
}

/// The text of each name.
const NAMES: [(&'static str, SettingName); 10] = [
    ("tab_width", SettingName::TabWidth),
    ("ctl_arrow", SettingName::CtlArrow),
    ("direction", SettingName::Direction),
    ("reorder", SettingName::Reorder),
    ("table", SettingName::Table),
    ("invisible", SettingName::Invisible),
    ("line_prefix", SettingName::LinePrefix),
    ("wrap_prefix", SettingName::WrapPrefix),
    ("modified", SettingName::Modified),
    ("read_only", SettingName::ReadOnly),
];

impl Named for SettingName {
    ghost use Rattle.rd_script.specs.Settings.{setting_names};

    ghost names = { setting_names };

    fn named(text: &str) -> Option<SettingName> {
        beside(&NAMES, text)
    }
}
