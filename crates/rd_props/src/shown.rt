//! Whether a position is hidden.
ghost use Rattle.std.specs.Prelude.{◌≡◌, IfOk};
ghost use Rattle.rd_text.specs.Texts.{IsAccessible};
ghost use Rattle.rd_props.specs.Buffers.{meaning};
ghost use Rattle.rd_props.specs.Shown.{hidden};

use crate::appearance::appearance_at;
use crate::hiding::Hidden;
use crate::state::View;
use rd_base::{Memory, Pos};
use std::alloc::Global;

/// Whether an accessible position, or the end of the accessible text, is hidden, and how. A position with an effective display
/// spec is replaced and never hidden, nor is one without an effective atom. Else its atom hides by the buffer's setting: every
/// atom without an ellipsis, or an atom that is listed, with an ellipsis where the flag of the first pair with it is true. It
/// costs one listing of the overlays that cover the position, a pass over them for each of five values, one look-up of each
/// property, and a pass over the pairs up to the first with the atom.
pub fn hidden(alloc: Global, view: &View, pos: Pos) -> Result<Hidden, Memory>
    requires { IsAccessible view.now.state.now.text pos }
    ensures { IfOk result (λ answer. answer ≡ hidden (meaning view.now.state.now) pos) }
{
    let appearance = appearance_at(alloc, view, pos)?;
    let settings = view.settings();
    Ok(appearance.hidden(&settings.invisible))
}
