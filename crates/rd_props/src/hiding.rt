//! Whether an atom of invisible text hides.
ghost use Rattle.std.specs.Prelude.{◌≡◌};
ghost use Rattle.rd_props.specs.Hiding.{listed, hiding_of};
ghost use Rattle.rd_props.specs.Shown.{hiding_of_value};

use rd_base::Invisible;

/// Whether a position is hidden, and whether an ellipsis stands in its place.
#[derive(Clone, Copy, Debug, PartialEq, Eq)]
pub enum Hidden {
    No,
    Plain,
    Ellipsis,
}

/// What the first pair of an atom says.
fn listed(pairs: &[(u32, bool)], atom: u32) -> Hidden
    ensures { result ≡ listed pairs.now atom }
{
    for pair in pairs {
        if pair.0 == atom {
            return if pair.1 {
                Hidden::Ellipsis
            } else {
                Hidden::Plain
            };
        }
    }
    Hidden::No
}

/// How a setting hides an atom.
fn hiding_of(setting: &Invisible, atom: u32) -> Hidden
    ensures { result ≡ hiding_of setting.now atom }
{
    match setting {
        Invisible::Every => Hidden::Plain,
        Invisible::Listed(pairs) => listed(pairs.as_slice(), atom),
    }
}

/// How an atom hides by a setting, where there is one.
pub(crate) fn hiding_of_value(setting: &Invisible, atom: Option<u32>) -> Hidden
    ensures { result ≡ hiding_of_value setting.now atom }
{
    match atom {
        None => Hidden::No,
        Some(atom) => hiding_of(setting, atom),
    }
}
