//! Which characters are brackets (UAX 9 BD14, BD15).
ghost use Rattle.std.specs.Prelude.{◌≡◌};
ghost use Rattle.rd_brackets.specs.Pairs.{canonical, role_by, bd14_bd15_role};

use rd_base::Class;
use rd_ucd::{Bracket, Brackets};

/// What a character is to rule N0.
#[derive(Clone, Copy)]
pub enum Role {
    /// No bracket.
    Other,
    /// A bracket that opens, with the code that closes it.
    Opening(u32),
    /// A bracket that closes, with its own code.
    Closing(u32),
}

/// BD14, BD15: what a character is to rule N0, by its type and its code. Only where its type is ON it is a bracket.
pub fn bd14_bd15_role(brackets: &Brackets, class: Class, code: u32) -> Role
    ensures { result ≡ bd14_bd15_role brackets.now class code }
{
    match class {
        Class::ON => {
            let code = canonical(code);
            role_by(code, brackets.bracket(code))
        }
        _ => Role::Other,
    }
}

/// For BD14 and BD15, the role of a code by what the brackets list for it.
fn role_by(code: u32, bracket: Option<Bracket>) -> Role
    ensures { result ≡ role_by code bracket }
{
    match bracket {
        None => Role::Other,
        Some(Bracket::Opens(partner)) => Role::Opening(canonical(partner)),
        Some(Bracket::Closes(_)) => Role::Closing(code),
    }
}

/// For BD16, U+3008 for U+2329 and U+3009 for U+232A, which are canonically equivalent; every other code itself.
fn canonical(code: u32) -> u32
    ensures { result ≡ canonical code }
{
    match code {
        0x2329 => 0x3008,
        0x232A => 0x3009,
        _ => code,
    }
}
