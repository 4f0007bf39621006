//! How one character is shown.
ghost use Rattle.std.specs.Prelude.{◌≡◌, ◌==◌, if◌then◌else◌, IsTrue};
ghost use Rattle.rd_objects.specs.Widths.{columns};
ghost use Rattle.rd_glyphs.specs.Characters.{is_control, caret, is_pop, is_formatting, shown_as, mirror_code, mirrored, ShowsColumns};
ghost use Rattle.rd_ucd.specs.Lookup.{mirror_in};

use rd_base::Class;
use rd_base::limits::CODE_POINTS;
use rd_objects::columns;
use rd_ucd::Mirrors;

/// How a character is shown that no display table shows and that is no tab.
#[derive(Clone, Copy, Debug, PartialEq, Eq)]
pub enum Shown {
    /// A control character by the control slot and this letter.
    Caret(u32),
    /// A byte by the escape slot and three octal digits.
    Octal(u32),
    /// One blank column.
    Space,
    /// A mark on a blank.
    Mark(u32),
    /// The character itself, in so many columns.
    Itself(u32, u8),
}

/// Whether this is a control character.
fn is_control(code: u32) -> bool
    ensures { result ≡ is_control code }
{
    code < 32 || code == 127
}

/// The code of a control character with bit 64 turned.
fn caret(code: u32) -> u32
    requires { IsTrue (is_control code) }
    ensures { result ≡ caret code }
{
    if code == 127 { 63 } else { code + 64 }
}

/// Whether this ends an isolate.
fn is_pop(class: Class) -> bool
    ensures { result ≡ is_pop class }
{
    matches!(class, Class::PDI)
}

/// Whether this only steers the order of a line.
fn is_formatting(class: Class, code: u32) -> bool
    ensures { result ≡ is_formatting class code }
{
    class.x9_is_removed()
        || class.is_initiator()
        || is_pop(class)
        || code == 0x061C
        || code == 0x200E
        || code == 0x200F
}

/// How a character of this class is shown. Its code is a scalar value, or that of a raw byte.
pub fn shown_as(ctl_arrow: bool, class: Class, code: u32) -> Shown
    ensures value { result ≡ shown_as ctl_arrow class code }
    ensures columns { ShowsColumns result }
{
    if is_control(code) {
        return if ctl_arrow {
            Shown::Caret(caret(code))
        } else {
            Shown::Octal(code)
        };
    }
    if code >= CODE_POINTS {
        return Shown::Octal(code - CODE_POINTS);
    }
    if code >= 128 && code <= 159 {
        return Shown::Octal(code);
    }
    if is_formatting(class, code) {
        return Shown::Space;
    }
    let width = columns(code);
    if width == 0 {
        return Shown::Mark(code);
    }
    Shown::Itself(code, width)
}

/// A character that is shown itself has its mirror at an odd level, where one of the same width is listed.
pub fn mirrored(mirrors: &Mirrors, odd: bool, shown: Shown) -> Shown
    ensures { result ≡ mirrored mirrors.now odd shown }
{
    match shown {
        Shown::Itself(code, width) => Shown::Itself(
            mirror_or_self(mirrors, odd, code, width),
            width,
        ),
        _ => shown,
    }
}

/// The code of a character of this width at an odd level or not.
fn mirror_or_self(mirrors: &Mirrors, odd: bool, code: u32, width: u8) -> u32
    ensures { result ≡ (if odd then mirror_code code width (mirror_in mirrors.now code) else code) }
{
    if !odd {
        return code;
    }
    match mirrors.mirror(code) {
        Some(other) => of_same_width(code, width, other),
        None => code,
    }
}

/// The mirror in place of the code, where it has the same width.
fn of_same_width(code: u32, width: u8, other: u32) -> u32
    ensures { result ≡ (if columns other == width then other else code) }
{
    if columns(other) == width { other } else { code }
}
