//! The ops that make objects, as methods of `StateParts`. Each answers `Effect::Nothing`.
ghost use Rattle.rd_script.specs.Forms.{IsInForm};
ghost use Rattle.rd_script.specs.declared.op.Op.TheVariants.{AddString, AddSpec, AddFace, AddTable};
ghost use Rattle.rd_state.specs.Answers.{Applies};
ghost use Rattle.rd_state.specs.Valid.{IsValid};

use crate::effect::Effect;
use crate::objects::{add_spec, add_string};
use crate::parts::StateParts;
use crate::refused::Refused;
use crate::table::{TableParts, make_table};
use rd_base::{Ch, Face};
use rd_script::{OpRun, OpSpec};

impl StateParts {
    /// Makes a string with runs of faces and display specs.
    #[tactic(auto, unfolding(crate::specs::Steps::step, crate::specs::Effects::effect_of))]
    pub(crate) fn add_string(&mut self, text: &[Ch], runs: &[OpRun]) -> Result<Effect, Refused>
        requires { IsValid self.old }
        ensures { Applies result (AddString text.now runs.now) self.old self.new }
    {
        let alloc = *self.buffers.allocator();
        add_string(alloc, &mut self.objects, text, runs)?;
        Ok(Effect::Nothing)
    }

    /// Makes a display spec.
    #[tactic(auto, unfolding(crate::specs::Steps::step, crate::specs::Effects::effect_of))]
    pub(crate) fn add_spec(&mut self, spec: OpSpec) -> Result<Effect, Refused>
        requires valid { IsValid self.old }
        requires form { IsInForm (AddSpec spec) }
        ensures { Applies result (AddSpec spec) self.old self.new }
    {
        add_spec(&mut self.objects, spec)?;
        Ok(Effect::Nothing)
    }

    /// Makes a face.
    #[tactic(auto, unfolding(crate::specs::Steps::step, crate::specs::Effects::effect_of))]
    pub(crate) fn add_face(&mut self, face: Face) -> Result<Effect, Refused>
        ensures { Applies result (AddFace face) self.old self.new }
    {
        self.objects.add_face(face)?;
        Ok(Effect::Nothing)
    }

    /// Makes a display table.
    #[tactic(auto, unfolding(crate::specs::Steps::step, crate::specs::Effects::effect_of))]
    pub(crate) fn add_table(&mut self, parts: TableParts) -> Result<Effect, Refused>
        requires { IsInForm (AddTable parts.entries parts.truncation parts.continuation parts.escape parts.control parts.ellipsis parts.border) }
        ensures { Applies result (AddTable parts.entries parts.truncation parts.continuation parts.escape parts.control parts.ellipsis parts.border) self.old self.new }
    {
        let table = make_table(*self.buffers.allocator(), &parts)?;
        self.objects.add_table(table)?;
        Ok(Effect::Nothing)
    }
}
