//! Rules X1 to X8 of UAX 9 over a line. The rules themselves stand in `state`.
ghost use Rattle.std.specs.Prelude.{◌≡◌, ◌≤◌, All};
ghost use Rattle.rd_base.specs.declared.limits.TheConstants.{MAX_DEPTH};
ghost use Rattle.rd_base.specs.Lines.{KeepsClasses};
ghost use Rattle.rd_explicit.specs.Explicit.{explicit, levels_of, types_of};

use crate::state::State;
use rd_base::Line;

/// Gives each character of a line its explicit level and type (UAX 9, rules X1 to X8). What rule X9 takes out keeps its class as
/// type and has the base as level. No level is above `MAX_DEPTH`.
///
/// One walk, with a stack of fixed room. Where nothing has overflowed, an FSI looks ahead up to the first strong character of what
/// it isolates. Since at most `MAX_DEPTH` such isolates lie within each other, the cost is linear in the line.
pub fn explicit(line: &mut Line)
    requires { line.old.types ≡ line.old.classes }
    ensures levels { line.new.levels ≡ levels_of (explicit line.old.base line.old.classes) }
    ensures types { line.new.types ≡ types_of (explicit line.old.base line.old.classes) }
    ensures rest { KeepsClasses line.old line.new }
    ensures low { All (λ l. l ≤ MAX_DEPTH) line.new.levels }
{
    let base = line.base;
    let mut state = State::x1_start(base);
    for i in 0..line.len() {
        let class = line.classes.at(i);
        let (_, rest) = line.classes.as_slice().split_at(i + 1);
        let given = state.step(base, class, rest);
        line.set_level(i, given.level);
        line.set_type(i, given.class);
    }
}
