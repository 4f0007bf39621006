//! The ops on the properties, the overlays and the settings of buffers by name, as methods of `StateParts`. Each answers its
//! effect.
ghost use Rattle.std.specs.Prelude.{◌≡◌, ◌≢◌, IsSome, Some};
ghost use Rattle.rd_script.specs.Forms.{IsInForm};
ghost use Rattle.rd_script.specs.declared.op.Op.TheVariants.{Put, Overlay as MakeOverlay, OverlayMove, OverlayDrop, OverlayPut, Setting as SetSetting, MarginPut};
ghost use Rattle.rd_state.specs.Answers.{Applies};
ghost use Rattle.rd_state.specs.Effects.{restyled, covered_effect};
ghost use Rattle.rd_state.specs.Valid.{IsValid};

use crate::buffers::find;
use crate::effect::Effect;
use crate::parts::StateParts;
use crate::refused::Refused;
use rd_base::Pos;
use rd_overlays::{Kind, Overlay};
use rd_script::Setting;

impl StateParts {
    /// Gives a text property another value on a range.
    #[tactic(auto, using(crate::proofs::ByName::in_place), unfolding(crate::specs::Steps::step, crate::specs::Effects::effect_of))]
    pub(crate) fn put(
        &mut self,
        name: &str,
        from: u64,
        to: u64,
        kind: Kind,
        value: Option<u64>,
    ) -> Result<Effect, Refused>
        requires valid { IsValid self.old }
        requires form { IsInForm (Put name.now from to kind value) }
        ensures { Applies result (Put name.now from to kind value) self.old self.new }
    {
        let i = find(&self.buffers, name)?;
        self.buffers[i].put(&self.objects, from, to, kind, value)?;
        Ok(restyled(i as u32, from as u32, to as u32))
    }

    /// Makes an overlay without values.
    #[tactic(auto, using(crate::proofs::ByName::in_place), unfolding(crate::specs::Steps::step, crate::specs::Effects::effect_of))]
    pub(crate) fn make_overlay(
        &mut self,
        name: &str,
        from: u64,
        to: u64,
        priority: i32,
        front: bool,
        rear: bool,
    ) -> Result<Effect, Refused>
        requires { IsValid self.old }
        ensures { Applies result (MakeOverlay name.now from to priority front rear) self.old self.new }
    {
        let i = find(&self.buffers, name)?;
        self.buffers[i].make_overlay(from, to, priority, front, rear)?;
        Ok(restyled(i as u32, from as u32, to as u32))
    }

    /// Gives an overlay another range.
    #[tactic(auto, using(crate::proofs::ByName::in_place), unfolding(crate::specs::Steps::step, crate::specs::Effects::effect_of))]
    pub(crate) fn move_overlay(
        &mut self,
        name: &str,
        number: u64,
        from: u64,
        to: u64,
    ) -> Result<Effect, Refused>
        requires { IsValid self.old }
        ensures { Applies result (OverlayMove name.now number from to) self.old self.new }
    {
        let i = find(&self.buffers, name)?;
        let overlay = self.buffers[i].move_overlay(number, from, to)?;
        Ok(Effect::Moved {
            buffer: i as u32,
            before: (overlay.from, overlay.to),
            after: (from as u32, to as u32),
        })
    }

    /// Takes an overlay away.
    #[tactic(auto, using(crate::proofs::ByName::in_place), unfolding(crate::specs::Steps::step, crate::specs::Effects::effect_of))]
    pub(crate) fn drop_overlay(&mut self, name: &str, number: u64) -> Result<Effect, Refused>
        requires { IsValid self.old }
        ensures applies { Applies result (OverlayDrop name.now number) self.old self.new }
        ensures free { result ≢ Err Refused.Memory }
    {
        let i = find(&self.buffers, name)?;
        let overlay = self.buffers[i].drop_overlay(number)?;
        Ok(covered(i as u32, overlay))
    }

    /// Gives an overlay another value of a kind.
    #[tactic(auto, using(crate::proofs::ByName::in_place), unfolding(crate::specs::Steps::step, crate::specs::Effects::effect_of))]
    pub(crate) fn put_on_overlay(
        &mut self,
        name: &str,
        number: u64,
        kind: Kind,
        value: Option<u64>,
    ) -> Result<Effect, Refused>
        requires valid { IsValid self.old }
        requires form { IsInForm (OverlayPut name.now number kind value) }
        ensures applies { Applies result (OverlayPut name.now number kind value) self.old self.new }
        ensures free { result ≢ Err Refused.Memory }
    {
        let i = find(&self.buffers, name)?;
        let overlay = self.buffers[i].put_on_overlay(&self.objects, number, kind, value)?;
        Ok(covered(i as u32, overlay))
    }

    /// Gives an overlay another margin string.
    #[tactic(auto, using(crate::proofs::ByName::in_place), unfolding(crate::specs::Steps::step, crate::specs::Effects::effect_of))]
    pub(crate) fn put_margin_string(
        &mut self,
        name: &str,
        number: u64,
        string: Option<u64>,
    ) -> Result<Effect, Refused>
        requires { IsValid self.old }
        ensures applies { Applies result (MarginPut name.now number string) self.old self.new }
        ensures free { result ≡ Err Refused.Memory → IsSome string }
    {
        let i = find(&self.buffers, name)?;
        self.buffers[i].put_margin_string(&self.objects, number, string)?;
        Ok(Effect::Nothing)
    }

    /// Sets a setting of a buffer.
    #[tactic(auto, using(crate::proofs::ByName::in_place), unfolding(crate::specs::Steps::step, crate::specs::Effects::effect_of))]
    pub(crate) fn set(&mut self, name: &str, setting: Setting) -> Result<Effect, Refused>
        requires valid { IsValid self.old }
        requires form { IsInForm (SetSetting name.now setting) }
        ensures applies { Applies result (SetSetting name.now setting) self.old self.new }
        ensures free { result ≢ Err Refused.Memory }
    {
        let i = find(&self.buffers, name)?;
        self.buffers[i].set(&self.objects, setting)?;
        Ok(Effect::All { buffer: i as u32 })
    }
}

/// The effect that the text of a buffer from one position up to another may look otherwise.
fn restyled(buffer: u32, from: Pos, to: Pos) -> Effect
    ensures { result ≡ restyled buffer from to }
{
    let count = to.saturating_sub(from);
    Effect::Edit {
        buffer,
        from,
        removed: count,
        added: count,
    }
}

/// The effect that the text which an overlay covers looks otherwise.
fn covered(buffer: u32, overlay: Overlay) -> Effect
    ensures { result ≡ covered_effect buffer (Some overlay) }
{
    restyled(buffer, overlay.from, overlay.to)
}
