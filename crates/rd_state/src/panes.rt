//! The ops that change how the windows share the frame, as methods of `StateParts`: splits, removals, mode lines and margins.
ghost use Rattle.std.specs.Prelude.{◌≡◌, ◌≢◌, ◌==◌, if◌then◌else◌};
ghost use Rattle.rd_script.specs.declared.op.Op.TheVariants.{Split, Remove, ModeLine, Margin};
ghost use Rattle.rd_script.specs.Forms.{IsInForm};
ghost use Rattle.rd_state.specs.Answers.{Applies};
ghost use Rattle.rd_state.specs.Shown.{ChecksFormat};
ghost use Rattle.rd_state.specs.Steps.{format_fault};
ghost use Rattle.rd_state.specs.Valid.{IsValid};

use crate::effect::Effect;
use crate::parts::StateParts;
use crate::refused::Refused;
use crate::windows::{add, copy, find, make_room};
use rd_base::{Ch, ListOf};
use rd_modeline::check;
use rd_tree::Side;

impl StateParts {
    /// Splits a window, which keeps so many rows or columns. The new window has all of the old one, but
    /// its start is not forced and no rows wait to be scrolled.
    #[tactic(auto, unfolding(crate::specs::Steps::step, crate::specs::Effects::effect_of))]
    pub(crate) fn split(&mut self, window: u64, side: Side, size: u64) -> Result<Effect, Refused>
        requires valid { IsValid self.old }
        ensures { Applies result (Split window side size) self.old self.new }
    {
        let i = find(self.windows.as_slice(), window)?;
        let mut twin = copy(*self.windows.allocator(), &self.windows[i].1)?;
        twin.forced = false;
        twin.pending = 0;
        make_room(&mut self.windows)?;
        let size = size.min(u32::MAX as u64) as u32;
        let number = self.tree.split(self.windows[i].0, side, size)?;
        add(&mut self.windows, number, twin);
        Ok(Effect::Nothing)
    }

    /// Takes a window away. Where it was the selected one, the first window of its sibling is selected.
    #[tactic(auto, unfolding(crate::specs::Steps::step, crate::specs::Effects::effect_of))]
    pub(crate) fn remove(&mut self, window: u64) -> Result<Effect, Refused>
        ensures applies { Applies result (Remove window) self.old self.new }
        ensures free { result ≢ Err Refused.Memory }
    {
        let i = find(self.windows.as_slice(), window)?;
        let number = self.windows[i].0;
        let heir = self.tree.remove(number)?;
        self.windows.remove(i);
        self.selected = selected_without(self.selected, number, heir);
        Ok(Effect::Nothing)
    }

    /// Gives a window's mode line a format, or takes the mode line away.
    #[tactic(auto, unfolding(crate::specs::Steps::step, crate::specs::Effects::effect_of))]
    pub(crate) fn mode_line(
        &mut self,
        window: u64,
        format: Option<ListOf<Ch>>,
    ) -> Result<Effect, Refused>
        ensures applies { Applies result (ModeLine window format) self.old self.new }
        ensures free { result ≢ Err Refused.Memory }
    {
        let i = find(self.windows.as_slice(), window)?;
        check_format(&format)?;
        self.tree.mode(self.windows[i].0, format.is_some())?;
        self.windows[i].1.format = format;
        Ok(Effect::Nothing)
    }

    /// Gives a window margins of so many columns.
    #[tactic(auto, unfolding(crate::specs::Steps::step, crate::specs::Effects::effect_of))]
    pub(crate) fn set_margins(
        &mut self,
        window: u64,
        numbers: u32,
        strings: u32,
    ) -> Result<Effect, Refused>
        requires form { IsInForm (Margin window numbers strings) }
        ensures applies { Applies result (Margin window numbers strings) self.old self.new }
        ensures free { result ≢ Err Refused.Memory }
    {
        let i = find(self.windows.as_slice(), window)?;
        self.tree.margins(self.windows[i].0, numbers + strings)?;
        let view = &mut self.windows[i].1;
        view.numbers = numbers;
        view.strings = strings;
        Ok(Effect::Nothing)
    }
}

/// Whether a format is good, which is refused with the place of its first bad code.
fn check_format(format: &Option<ListOf<Ch>>) -> Result<(), Refused>
    ensures { ChecksFormat result (format_fault format.now) }
{
    match format {
        Some(format) => Ok(check(format.as_slice())?),
        None => Ok(()),
    }
}

/// The window that is selected when one was taken away: its heir where it was that one itself.
fn selected_without(selected: u32, removed: u32, heir: u32) -> u32
    ensures { result ≡ (if selected == removed then heir else selected) }
{
    if selected == removed { heir } else { selected }
}
