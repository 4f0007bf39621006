//! The mode line of a window.
ghost use Rattle.std.specs.Prelude.{◌≡◌, IfOk};
ghost use Rattle.std.specs.Str.{chars};
ghost use Rattle.rd_layout.specs.Panes.{is_whole, line_facts, mode_line};
ghost use Rattle.rd_paint.specs.Shown.{IsViewOf, of_classes};

use crate::content::Content;
use rd_base::{Cell, Ch, ListOf, Memory, characters};
use rd_layout::ShownWindow;
use rd_modeline::{Facts, format};
use rd_text::Buffer;
use rd_ucd::Classes;
use std::alloc::Global;

/// The cells of a window's mode line in so many columns, and none where the window has no format for it. A window's format is
/// good, so that only memory can be wanting.
pub(crate) fn mode_line(
    alloc: Global,
    classes: &Classes,
    content: &Content<'_>,
    shown: &ShownWindow<'_>,
    width: u32,
    text: &Option<ListOf<Ch>>,
) -> Result<ListOf<Cell>, Memory>
    requires { IsViewOf content.now.content.text shown.now }
    ensures { IfOk result (λ cells. cells ≡ mode_line (of_classes classes.now) (line_facts content.now shown.now) width text.now) }
{
    let Some(text) = text else {
        return Ok(ListOf::new(alloc));
    };
    let name = characters(alloc, content.name)?;
    let facts = facts(name.as_slice(), content, shown);
    match format(alloc, text.as_slice(), classes, &facts, width) {
        Ok(cells) => Ok(cells),
        Err(_fault) => Err(Memory),
    }
}

/// What a mode line can show of a buffer with a name and of the view of it.
fn facts<'a>(name: &'a [Ch], content: &Content<'_>, shown: &ShownWindow<'_>) -> Facts<'a>
    requires name { name.now ≡ chars content.now.name }
    requires view { IsViewOf content.now.content.text shown.now }
    ensures { result ≡ line_facts content.now shown.now }
{
    let text = &content.buffer.text;
    let settings = &content.buffer.settings;
    Facts {
        name,
        line: text.line_of(shown.chosen.point),
        top: shown.layout.has_first_row(shown.ends.begin),
        bottom: shown.layout.has_last_row(shown.ends.end),
        above: shown.chosen.anchor.pos - text.begin(),
        total: text.end() - text.begin(),
        modified: settings.modified,
        read_only: settings.read_only,
        narrowed: !is_whole(text),
    }
}

/// Whether all of a text is accessible.
fn is_whole(text: &Buffer) -> bool
    ensures { result ≡ is_whole text.now }
{
    text.begin() == 1 && text.end() == text.length() + 1
}
