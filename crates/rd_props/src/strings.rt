//! The strings of overlays at a position.
ghost use Rattle.std.specs.Prelude.{◌≡◌, ◌++◌, OnOk, IfOk};
ghost use Rattle.rd_text.specs.Texts.{IsAccessible};
ghost use Rattle.rd_overlays.specs.Overlays.{overlay_at};
ghost use Rattle.rd_props.specs.Buffers.{meaning};
ghost use Rattle.rd_props.specs.Strings.{before_string, after_string, strings_put, strings_put_in, strings_of, strings_at, is_empty};

use crate::state::View;
use rd_base::{ListOf, Memory, Pos};
use rd_overlays::{Kind, Overlay, Overlays};
use std::alloc::Global;

/// Which of its strings an overlay puts at a position: its after-string behind the text that it covers, both where it covers
/// nothing, its before-string before the text that it covers.
#[derive(Clone, Copy, Debug, PartialEq, Eq)]
enum StringPlace {
    Closing,
    Between,
    Opening,
}

/// Whether an overlay covers nothing.
fn is_empty(overlay: &Overlay) -> bool
    ensures { result ≡ is_empty overlay.now }
{
    overlay.from == overlay.to
}

/// Adds what an overlay puts where it covers nothing.
fn add_both(strings: &mut ListOf<u32>, overlay: &Overlay) -> Result<(), Memory>
    ensures { OnOk result (strings.new ≡ strings.old ++ before_string overlay.now ++ after_string overlay.now) }
{
    strings.push_some(overlay.values[Kind::Before as usize])?;
    strings.push_some(overlay.values[Kind::After as usize])
}

/// Adds the strings that an overlay puts at a place.
fn add_strings_put(
    strings: &mut ListOf<u32>,
    place: StringPlace,
    overlay: &Overlay,
) -> Result<(), Memory>
    ensures { OnOk result (strings.new ≡ strings.old ++ strings_put place overlay.now) }
{
    match (place, is_empty(overlay)) {
        (StringPlace::Between, true) => add_both(strings, overlay),
        (StringPlace::Closing, false) => strings.push_some(overlay.values[Kind::After as usize]),
        (StringPlace::Opening, false) => strings.push_some(overlay.values[Kind::Before as usize]),
        _ => Ok(()),
    }
}

/// Adds the strings of the overlay of a number.
fn add_strings(
    strings: &mut ListOf<u32>,
    place: StringPlace,
    overlays: &Overlays,
    number: u32,
) -> Result<(), Memory>
    ensures { OnOk result (strings.new ≡ strings.old ++ strings_put_in place (overlay_at overlays.now number)) }
{
    match overlays.get(number) {
        None => Ok(()),
        Some(overlay) => add_strings_put(strings, place, overlay),
    }
}

/// Adds the strings of these overlays, one overlay after the other.
fn add_each(
    strings: &mut ListOf<u32>,
    place: StringPlace,
    overlays: &Overlays,
    numbers: &[u32],
) -> Result<(), Memory>
    ensures { OnOk result (strings.new ≡ strings.old ++ strings_of place overlays.now numbers.now) }
{
    for number in numbers {
        add_strings(strings, place, overlays, *number)?;
    }
    Ok(())
}

/// The numbers of the strings that overlays put before an accessible position, or at the end of the accessible text. First come
/// the after-strings of overlays that end there and are not empty, in decreasing order of priority and number; then the strings
/// of overlays that are empty there, in increasing order, of each the before-string and then the after-string; last the
/// before-strings of overlays that start there and are not empty, in increasing order. It costs the listings of the overlays
/// that start and that end there.
pub fn strings_at(alloc: Global, view: &View, pos: Pos) -> Result<ListOf<u32>, Memory>
    requires { IsAccessible view.now.state.now.text pos }
    ensures { IfOk result (λ strings. strings ≡ strings_at (meaning view.now.state.now) pos) }
{
    let state = view.state;
    let overlays = &state.overlays;
    let ending = overlays.ending(pos)?;
    let starting = overlays.starting(pos)?;
    let mut strings = ListOf::new(alloc);
    let ending = ending.as_slice();
    let mut i = ending.len();
    while 0 < i {
        i -= 1;
        add_strings(&mut strings, StringPlace::Closing, overlays, ending[i])?;
    }
    let starting = starting.as_slice();
    add_each(&mut strings, StringPlace::Between, overlays, starting)?;
    add_each(&mut strings, StringPlace::Opening, overlays, starting)?;
    Ok(strings)
}
