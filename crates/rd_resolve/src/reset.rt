//! Rule L1 of UAX 9 over a line.
ghost use Rattle.std.specs.Prelude.{◌≡◌, ◌||◌, ◌&&◌, if◌then◌else◌};
ghost use Rattle.rd_base.specs.Lines.{KeepsClasses};
ghost use Rattle.rd_resolve.specs.Implicit.{l1_is_separator, l1_is_white, l1};

use rd_base::{Class, Line};

/// L1: by their classes, separators, and white space and isolate controls before them and at the line's end, take the base. One walk from
/// the line's end.
pub fn l1_reset(line: &mut Line)
    ensures levels { line.new.levels ≡ l1 line.old.base line.old.classes line.old.levels }
    ensures types { line.new.types ≡ line.old.types }
    ensures rest { KeepsClasses line.old line.new }
{
    let base = line.base;
    let mut white = true;
    let mut i = line.len();
    while i > 0 {
        i -= 1;
        white = l1_resets(line.classes.at(i), white);
        let level = l1_level(white, base, line.levels.at(i));
        line.set_level(i, level);
    }
}

/// For L1, whether the rule resets a character, where it is known whether it resets what is behind.
fn l1_resets(class: Class, behind: bool) -> bool
    ensures { result ≡ (l1_is_separator class || (l1_is_white class && behind)) }
{
    match class {
        Class::S | Class::B => true,
        Class::WS | Class::PDI => behind,
        _ => behind && (class.is_initiator() || class.x9_is_removed()),
    }
}

/// For L1, the base where the rule resets a character, else the character's level.
fn l1_level(white: bool, base: u8, level: u8) -> u8
    ensures { result ≡ (if white then base else level) }
{
    if white { base } else { level }
}
