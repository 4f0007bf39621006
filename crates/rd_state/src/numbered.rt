//! What stands under a number in a list, each thing of which has one.
ghost use Rattle.std.specs.Prelude.{◌≡◌, ◌==◌, option_map, position};
ghost use Rattle.rd_state.specs.Windows.{under};

/// The place of what stands under a number, counted from 0; None exactly where nothing does.
pub fn place_of<T>(things: &[(u32, T)], number: u64) -> Option<usize>
    ensures { result ≡ position (λ e. e.0 == number) things.now }
{
    things.iter().position(|thing| thing.0 as u64 == number)
}

/// What stands under a number; None exactly where nothing does.
pub fn under<T>(things: &[(u32, T)], number: u32) -> Option<&T>
    ensures { option_map (λ x. x.now) result ≡ under number things.now }
{
    let i = place_of(things, number as u64)?;
    Some(&things[i].1)
}
