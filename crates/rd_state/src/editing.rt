//! The ops on the texts of buffers by name, as methods of `StateParts`. Each answers its effect; those that change a text or narrow it
//! move the windows' points with it.
ghost use Rattle.std.specs.Prelude.{◌≡◌, ◌≢◌, ◌+◌, ◌<◌, if◌then◌else◌, Err, IfOk, IfErr, OnErr};
ghost use Rattle.rd_base.specs.declared.limits.TheConstants.{TEXT_CHARACTERS};
ghost use Rattle.rd_script.specs.Forms.{IsInForm};
ghost use Rattle.rd_script.specs.declared.op.Op.TheVariants.{Buffer as MakeBuffer, Insert, InsertRaw, TypeText, Delete, Narrow, Widen};
ghost use Rattle.rd_state.specs.declared.effect.Effect.TheVariants.{Edit};
ghost use Rattle.rd_state.specs.declared.refused.Refused.TheVariants.{OutOfRange};
ghost use Rattle.rd_state.specs.Answers.{Applies};
ghost use Rattle.rd_state.specs.Valid.{IsValid};

use crate::buffers::{add, find};
use crate::effect::Effect;
use crate::moves::{Move, move_windows};
use crate::parts::StateParts;
use crate::raw::raw_text;
use crate::refused::Refused;
use crate::windows;
use rd_base::limits::BUFFERS;
use rd_base::{Ch, Pos};
use rd_script::BufferName;

/// How many buffers there can be.
const MOST_BUFFERS: usize = BUFFERS as usize;

impl StateParts {
    /// Makes an empty buffer.
    #[tactic(auto, unfolding(crate::specs::Steps::step, crate::specs::Effects::effect_of))]
    pub(crate) fn make(&mut self, name: BufferName) -> Result<Effect, Refused>
        requires { IsValid self.old }
        ensures { Applies result (MakeBuffer name) self.old self.new }
    {
        if find(&self.buffers, name.as_str()).is_ok() {
            return Err(Refused::NameTaken);
        }
        if MOST_BUFFERS <= self.buffers.len() {
            return Err(Refused::TooManyBuffers);
        }
        add(&mut self.buffers, name)?;
        Ok(Effect::Nothing)
    }

    /// Puts a text in.
    #[tactic(auto, using(crate::proofs::ByName::in_place), unfolding(crate::specs::Steps::step, crate::specs::Effects::effect_of))]
    pub(crate) fn insert(&mut self, name: &str, pos: u64, text: &[Ch]) -> Result<Effect, Refused>
        requires { IsValid self.old }
        ensures { Applies result (Insert name.now pos text.now) self.old self.new }
    {
        let i = find(&self.buffers, name)?;
        let from = place(pos)?;
        self.buffers[i].insert(from, text)?;
        let (buffer, added) = (i as u32, text.len() as u32);
        move_windows(&mut self.windows, buffer, Move::Inserted(from, added));
        Ok(inserted(buffer, from, added))
    }

    /// Puts raw bytes in.
    #[tactic(auto, unfolding(crate::specs::Steps::step, crate::specs::Effects::effect_of))]
    pub(crate) fn insert_raw(
        &mut self,
        name: &str,
        pos: u64,
        bytes: &[u8],
    ) -> Result<Effect, Refused>
        requires valid { IsValid self.old }
        requires form { IsInForm (InsertRaw name.now pos bytes.now) }
        ensures { Applies result (InsertRaw name.now pos bytes.now) self.old self.new }
    {
        let text = raw_text(*self.buffers.allocator(), bytes)?;
        self.insert(name, pos, text.as_slice())
    }

    /// Puts a text in at the selected window's point, which moves behind it.
    #[tactic(auto, using(crate::proofs::ByName::in_place), unfolding(crate::specs::Steps::step, crate::specs::Effects::effect_of))]
    pub(crate) fn type_text(&mut self, text: &[Ch]) -> Result<Effect, Refused>
        requires { IsValid self.old }
        ensures { Applies result (TypeText text.now) self.old self.new }
    {
        let w = windows::find(self.windows.as_slice(), self.selected as u64)?;
        let window = &self.windows[w].1;
        let (buffer, from) = (window.buffer, window.point);
        self.buffers[buffer as usize].insert(from, text)?;
        let added = text.len() as u32;
        move_windows(&mut self.windows, buffer, Move::Inserted(from, added));
        self.windows[w].1.point = from + added;
        Ok(inserted(buffer, from, added))
    }

    /// Takes a range away if `deletes`, and else makes it the accessible one. An unknown buffer is refused, and so is a
    /// range that the text does not hold, or that is not accessible where it is to be deleted.
    #[tactic(auto, using(crate::proofs::ByName::in_place), unfolding(crate::specs::Steps::step, crate::specs::Effects::effect_of))]
    pub(crate) fn change_range(
        &mut self,
        name: &str,
        from: u64,
        to: u64,
        deletes: bool,
    ) -> Result<Effect, Refused>
        requires { IsValid self.old }
        ensures applies { Applies result (if deletes then Delete name.now from to else Narrow name.now from to) self.old self.new }
        ensures free { result ≢ Err Refused.Memory }
    {
        let i = find(&self.buffers, name)?;
        place(from.max(to))?;
        let (buffer, from, to) = (i as u32, from as Pos, to as Pos);
        if deletes {
            self.buffers[i].delete(from, to)?;
            move_windows(&mut self.windows, buffer, Move::Deleted(from, to));
            return Ok(Effect::Edit {
                buffer,
                from,
                removed: to - from,
                added: 0,
            });
        }
        self.buffers[i].narrow(from, to)?;
        move_windows(&mut self.windows, buffer, Move::Narrowed(from, to));
        Ok(Effect::All { buffer })
    }

    /// Makes the whole text accessible.
    #[tactic(auto, using(crate::proofs::ByName::in_place), unfolding(crate::specs::Steps::step, crate::specs::Effects::effect_of))]
    pub(crate) fn widen(&mut self, name: &str) -> Result<Effect, Refused>
        requires { IsValid self.old }
        ensures applies { Applies result (Widen name.now) self.old self.new }
        ensures free { result ≢ Err Refused.Memory }
    {
        let i = find(&self.buffers, name)?;
        self.buffers[i].widen();
        Ok(Effect::All { buffer: i as u32 })
    }
}

/// The effect of a text that was put in.
fn inserted(buffer: u32, from: Pos, added: u32) -> Effect
    ensures { result ≡ Edit buffer from 0 added }
{
    Effect::Edit {
        buffer,
        from,
        removed: 0,
        added,
    }
}

/// A position in 32 bits; one of more bits is refused, since no text reaches there.
fn place(pos: u64) -> Result<Pos, Refused>
    ensures same { IfOk result (λ place. place ≡ pos) }
    ensures far { OnErr result (TEXT_CHARACTERS + 1 < pos) }
    ensures refused { IfErr result (λ e. e ≡ OutOfRange) }
{
    Pos::try_from(pos).map_err(|_far| Refused::OutOfRange)
}
