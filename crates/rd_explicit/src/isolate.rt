//! What an FSI isolates (UAX 9 BD9, X5c).
ghost use Rattle.std.specs.Prelude.{◌≡◌, ◌<◌, ◌^◌, length};
ghost use Rattle.rd_explicit.specs.Explicit.{x5c_starts_right};

use rd_base::Class;

/// For X5c, whether the first L, R or AL of what an FSI isolates, outside further isolates, is R or AL. `rest` are the classes after
/// the FSI. It reads no further than that character or the matching PDI.
pub fn x5c_starts_right(rest: &[Class]) -> bool
    requires { length rest.now < 2 ^ 32 }
    ensures { result ≡ x5c_starts_right rest.now }
{
    let mut depth = 0u32;
    for class in rest {
        match class.p2_p3_strong_level(depth) {
            Some(level) => return level == 1,
            None if depth == 0 && *class == Class::PDI => return false,
            None => depth = class.p2_depth_after(depth),
        }
    }
    false
}
