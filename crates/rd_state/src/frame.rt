//! The ops on what belongs to the whole frame, as methods of `StateParts`: its size, scrolling, the echo text, shifts of rows.
ghost use Rattle.std.specs.Prelude.{◌≢◌};
ghost use Rattle.rd_script.specs.declared.op.Op.TheVariants.{Frame, Scrolling, Echo, Shift};
ghost use Rattle.rd_script.specs.Forms.{IsInForm};
ghost use Rattle.rd_state.specs.Answers.{Applies};

use crate::effect::Effect;
use crate::parts::StateParts;
use crate::refused::Refused;
use rd_base::{Ch, ListOf};

impl StateParts {
    /// Gives the frame other columns and rows, which the windows share anew.
    #[tactic(auto, unfolding(crate::specs::Steps::step, crate::specs::Effects::effect_of))]
    pub(crate) fn resize(&mut self, width: u32, height: u32) -> Result<Effect, Refused>
        requires form { IsInForm (Frame width height) }
        ensures applies { Applies result (Frame width height) self.old self.new }
        ensures free { result ≢ Err Refused.Memory }
    {
        self.tree.resize(width, height - 1)?;
        self.width = width;
        self.height = height;
        Ok(Effect::Nothing)
    }

    /// Says how many rows stand between point and a view's edges, and up to how many rows a view is scrolled to show point.
    #[tactic(auto, unfolding(crate::specs::Steps::step, crate::specs::Effects::effect_of))]
    pub(crate) fn set_scrolling(
        &mut self,
        margin: u32,
        conservatively: u32,
    ) -> Result<Effect, Refused>
        ensures applies { Applies result (Scrolling margin conservatively) self.old self.new }
        ensures free { result ≢ Err Refused.Memory }
    {
        self.margin = margin;
        self.conservatively = conservatively;
        Ok(Effect::Nothing)
    }

    /// Shows a text in the echo area.
    #[tactic(auto, unfolding(crate::specs::Steps::step, crate::specs::Effects::effect_of))]
    pub(crate) fn show_echo(&mut self, text: ListOf<Ch>) -> Result<Effect, Refused>
        ensures applies { Applies result (Echo text) self.old self.new }
        ensures free { result ≢ Err Refused.Memory }
    {
        self.echo = text;
        Ok(Effect::Nothing)
    }

    /// Says whether the terminal may shift rows.
    #[tactic(auto, unfolding(crate::specs::Steps::step, crate::specs::Effects::effect_of))]
    pub(crate) fn set_shifting(&mut self, on: bool) -> Result<Effect, Refused>
        ensures applies { Applies result (Shift on) self.old self.new }
        ensures free { result ≢ Err Refused.Memory }
    {
        self.shifting = on;
        Ok(Effect::Nothing)
    }
}
