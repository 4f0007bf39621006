//! What the session lends, by the numbers of buffers.
ghost use Rattle.std.specs.Prelude.{◌≡◌, option_map};
ghost use Rattle.rd_embed.specs.Texts.{text_of};
ghost use Rattle.rd_embed.specs.Windows.{buffer_in};

use crate::choices::NONE;
use rd_session::Session;
use rd_text::Buffer;

/// The text of the buffer with a number; None exactly where no buffer has it.
pub(crate) fn text_at(session: &Session, buffer: u32) -> Option<&Buffer>
    ensures { option_map (λ text. text.now) result ≡ text_of buffer session.now.state.buffers }
{
    session.numbered_text(buffer)
}

/// The number of the buffer that a window shows.
pub(crate) fn buffer_in(session: &Session, window: u32) -> u32
    ensures { result ≡ buffer_in session.now window }
{
    session.buffer_number(window).unwrap_or(NONE)
}
