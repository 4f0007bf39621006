//! How the text at a position is shown, and how far a run goes.
ghost use Rattle.std.specs.Prelude.{◌≡◌, IfOk};
ghost use Rattle.rd_text.specs.Texts.{IsAccessible, is_newline};
ghost use Rattle.rd_props.specs.Buffers.{meaning};
ghost use Rattle.rd_props.specs.Seen.{accessible_char};
ghost use Rattle.rd_items.specs.Readings.{showing_at, showing_by, is_hidden};
ghost use Rattle.rd_items.specs.Pieces.{same_spec};

use rd_base::{Ch, Face, Invisible, Memory, Pos};
use rd_props::{Appearance, Hidden, View, appearance_at};
use std::alloc::Global;

/// How the text at a position is shown: the number of the display spec that replaces it, how it is hidden, and its face.
#[derive(Clone, Copy, Debug, PartialEq, Eq)]
pub struct Showing {
    pub display: Option<u32>,
    pub hidden: Hidden,
    pub face: Face,
}

/// Whether text is hidden, with an ellipsis or without.
fn is_hidden(hidden: Hidden) -> bool
    ensures { result ≡ is_hidden hidden }
{
    match hidden {
        Hidden::No => false,
        Hidden::Plain | Hidden::Ellipsis => true,
    }
}

/// Whether two positions, or two places of a string, are replaced by one spec.
pub fn same_spec(a: Option<u32>, b: Option<u32>) -> bool
    ensures { result ≡ same_spec a b }
{
    match (a, b) {
        (Some(a), Some(b)) => a == b,
        _ => false,
    }
}

/// Whether a character is a newline.
pub fn is_newline(ch: Ch) -> bool
    ensures { result ≡ is_newline ch }
{
    ch.code() == 10
}

impl Showing {
    ghost use Rattle.std.specs.Prelude.{◌≡◌};
    ghost use Rattle.rd_items.specs.Readings.{is_open};
    ghost use Rattle.rd_items.specs.Pieces.{goes_on};

    /// Whether the text is neither replaced nor hidden.
    pub fn is_open(&self) -> bool
        ensures { result ≡ is_open self.now }
    {
        self.display.is_none() && !is_hidden(self.hidden)
    }

    /// Whether another position belongs to the run of this one.
    pub fn goes_on(&self, next: &Showing) -> bool
        ensures { result ≡ goes_on self.now next.now }
    {
        same_spec(self.display, next.display) || is_hidden(self.hidden) && is_hidden(next.hidden)
    }
}

/// The character at an accessible position, and None at the end of the accessible text.
pub fn char_at(view: &View, pos: Pos) -> Option<Ch>
    requires { IsAccessible view.now.state.now.text pos }
    ensures { result ≡ accessible_char view.now.state.now.text pos }
{
    let state = view.state;
    if state.text.end() <= pos {
        return None;
    }
    state.text.fetch(pos)
}

/// How an accessible position, or the end of the accessible text, is shown.
pub fn showing_at(alloc: Global, view: &View, pos: Pos) -> Result<Showing, Memory>
    requires { IsAccessible view.now.state.now.text pos }
    ensures { IfOk result (λ showing. showing ≡ showing_at (meaning view.now.state.now) view.now.objects.now pos) }
{
    let appearance = appearance_at(alloc, view, pos)?;
    let settings = view.settings();
    Ok(showing_by(&settings.invisible, &appearance))
}

/// How a position that looks like this is shown by a buffer's setting.
pub fn showing_by(setting: &Invisible, appearance: &Appearance) -> Showing
    ensures { result ≡ showing_by setting.now appearance.now }
{
    Showing {
        display: appearance.display,
        hidden: appearance.hidden(setting),
        face: appearance.face,
    }
}
