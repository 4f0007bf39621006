//! What the numbers of the calls stand for: sides, kinds, values and settings.
ghost use Rattle.std.specs.Prelude.{◌≡◌, IfSome, IsTrue};
ghost use Rattle.rd_script.specs.Forms.{IsPropertyValue, IsSettingInForm, is_text_kind};
ghost use Rattle.rd_embed.specs.Choices.{direction_of, flag_of, given, is_value, overlay_kind_of, right_of, setting_of, side_of, tab_width, text_kind_of, wrap_of};

use rd_base::limits::{ATOMS, TAB_COLUMNS};
use rd_base::{Direction, Wrap};
use rd_overlays::Kind;
use rd_script::Setting;
use rd_tree::Side;

/// The number that stands for no value.
pub const NONE: u32 = 4_294_967_295;

const SIDES: [Side; 2] = [Side::Below, Side::Right];

const WRAPS: [Wrap; 3] = [Wrap::Truncate, Wrap::Continue, Wrap::Word];

const DIRECTIONS: [Direction; 3] = [Direction::Auto, Direction::Left, Direction::Right];

/// The kinds of properties that text has.
const TEXT_KINDS: [Kind; 5] = [
    Kind::Face,
    Kind::Display,
    Kind::Invisible,
    Kind::LinePrefix,
    Kind::WrapPrefix,
];

/// The kinds of properties that overlays have.
const OVERLAY_KINDS: [Kind; 7] = [
    Kind::Face,
    Kind::Display,
    Kind::Invisible,
    Kind::LinePrefix,
    Kind::WrapPrefix,
    Kind::Before,
    Kind::After,
];

/// A value that may be none.
pub(crate) fn given(value: u32) -> Option<u64>
    ensures { result ≡ given value }
{
    if value == NONE {
        None
    } else {
        Some(value as u64)
    }
}

/// Where a split puts the new window.
pub(crate) fn side_of(number: u32) -> Option<Side>
    ensures { result ≡ side_of number }
{
    SIDES.get(number as usize).copied()
}

/// Whether point goes to the right.
pub(crate) fn right_of(number: u32) -> Option<bool>
    ensures { result ≡ right_of number }
{
    match number {
        1 => Some(true),
        2 => Some(false),
        _ => None,
    }
}

/// What becomes of long lines.
pub(crate) fn wrap_of(number: u32) -> Option<Wrap>
    ensures { result ≡ wrap_of number }
{
    WRAPS.get(number as usize).copied()
}

/// The kind of a text's property.
pub(crate) fn text_kind_of(number: u32) -> Option<Kind>
    ensures value { result ≡ text_kind_of number }
    ensures text { IfSome result (λ kind. IsTrue (is_text_kind kind)) }
{
    TEXT_KINDS.get(number as usize).copied()
}

/// The kind of an overlay's property.
pub(crate) fn overlay_kind_of(number: u32) -> Option<Kind>
    ensures { result ≡ overlay_kind_of number }
{
    OVERLAY_KINDS.get(number as usize).copied()
}

/// Whether a property of a kind may have a value.
pub(crate) fn is_value(kind: Kind, value: Option<u64>) -> bool
    ensures value { result ≡ is_value kind value }
    ensures form { IsTrue result → IsPropertyValue kind value }
{
    match (kind, value) {
        (Kind::Invisible, Some(atom)) => atom <= ATOMS as u64,
        _ => true,
    }
}

/// A flag by its number.
fn flag_of(number: u32) -> Option<bool>
    ensures { result ≡ flag_of number }
{
    match number {
        0 => Some(false),
        1 => Some(true),
        _ => None,
    }
}

/// A direction by its number.
fn direction_of(number: u32) -> Option<Direction>
    ensures { result ≡ direction_of number }
{
    DIRECTIONS.get(number as usize).copied()
}

/// The setting of so many columns between tab stops.
fn tab_width(columns: u32) -> Option<Setting>
    ensures value { result ≡ tab_width columns }
    ensures form { IfSome result IsSettingInForm }
{
    if 1 <= columns && columns <= TAB_COLUMNS as u32 {
        Some(Setting::TabWidth(columns as u8))
    } else {
        None
    }
}

/// A setting and its value, by their numbers.
pub(crate) fn setting_of(setting: u32, value: u32) -> Option<Setting>
    ensures value { result ≡ setting_of setting value }
    ensures form { IfSome result IsSettingInForm }
{
    match setting {
        0 => tab_width(value),
        1 => Some(Setting::CtlArrow(flag_of(value)?)),
        2 => Some(Setting::Direction(direction_of(value)?)),
        3 => Some(Setting::Reorder(flag_of(value)?)),
        4 => Some(Setting::Table(given(value))),
        5 => Some(Setting::LinePrefix(given(value))),
        6 => Some(Setting::WrapPrefix(given(value))),
        7 => Some(Setting::Modified(flag_of(value)?)),
        8 => Some(Setting::ReadOnly(flag_of(value)?)),
        _ => None,
    }
}
