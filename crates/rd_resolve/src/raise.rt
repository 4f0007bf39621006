//! Rules I1 and I2 of UAX 9 over a line, and the levels of what rule X9 took out.
ghost use Rattle.std.specs.Prelude.{◌≡◌, ◌≤◌, All};
ghost use Rattle.rd_base.specs.declared.limits.TheConstants.{MAX_DEPTH};
ghost use Rattle.rd_base.specs.Lines.{KeepsClasses};
ghost use Rattle.rd_resolve.specs.Implicit.{i1_i2_level, i1_i2, kept, implicit_levels, i1_even_levels, i2_odd_levels};

use crate::reset::l1_reset;
use rd_base::{Class, Line};

/// Gives the characters of a line their levels by the types that the rules before made (UAX 9, rules I1 and I2). What rule X9 took out
/// takes the level of the nearest character before it that stayed, else the base. Then rule L1 sets separators, and white space
/// before them and at the line's end, to the base, by the classes. No level is above `MAX_DEPTH` before.
///
/// Two walks; the cost is linear in the line.
pub fn implicit(line: &mut Line)
    requires { All (λ l. l ≤ MAX_DEPTH) line.old.levels }
    ensures levels { line.new.levels ≡ implicit_levels line.old.base line.old.classes line.old.types line.old.levels }
    ensures types { line.new.types ≡ line.old.types }
    ensures rest { KeepsClasses line.old line.new }
{
    i1_i2_levels(line);
    l1_reset(line);
}

/// Rules I1 and I2, and the levels of what X9 took out.
fn i1_i2_levels(line: &mut Line)
    requires { All (λ l. l ≤ MAX_DEPTH) line.old.levels }
    ensures levels { line.new.levels ≡ kept line.old.base line.old.classes (i1_i2 line.old.types line.old.levels) }
    ensures types { line.new.types ≡ line.old.types }
    ensures rest { KeepsClasses line.old line.new }
{
    let mut before = line.base;
    for i in 0..line.len() {
        let own = i1_i2_level(line.levels.at(i), line.types.at(i));
        before = line.classes.at(i).level_behind(before, own);
        line.set_level(i, before);
    }
}

/// I1 at an even level, I2 at an odd one.
fn i1_i2_level(level: u8, class: Class) -> u8
    requires { level ≤ MAX_DEPTH }
    ensures { result ≡ i1_i2_level level class }
{
    if level % 2 == 0 {
        i1_even_levels(level, class)
    } else {
        i2_odd_levels(level, class)
    }
}

/// I1: at an even level, R goes up one level, and AN and EN go up two.
fn i1_even_levels(level: u8, class: Class) -> u8
    requires { level ≤ MAX_DEPTH }
    ensures { result ≡ i1_even_levels level class }
{
    match class {
        Class::R => level + 1,
        Class::AN | Class::EN => level + 2,
        _ => level,
    }
}

/// I2: at an odd level, L, EN and AN go up one level.
fn i2_odd_levels(level: u8, class: Class) -> u8
    requires { level ≤ MAX_DEPTH }
    ensures { result ≡ i2_odd_levels level class }
{
    match class {
        Class::L | Class::EN | Class::AN => level + 1,
        _ => level,
    }
}
