//! The directions that the pairs of a sequence take (UAX 9 N0).
ghost use Rattle.std.specs.Prelude.{◌≡◌, ◌<◌, suc, take, length, slice_range, All, IfSome};
ghost use Rattle.rd_brackets.specs.Sides.{counts_as, holds, opposite, last_side, n0_pair_side, n0_with_pair, n0_with_pairs, became, followed, side_taken};

use rd_base::{Class, ListOf};

/// N0: takes each pair of a sequence, in the order of the opening brackets: `closings` has for each place of the sequence where the
/// pair closes that opens there, and `types` the types, which change. Each pair whose content decides takes one direction.
///
/// The content of a pair is looked through for it alone: as at most 63 brackets stand open at a time, the cost is linear in the
/// sequence. What stands before an opening bracket is looked through back to the last strong type, and then the bracket is one itself.
pub fn n0_take_pairs(
    embedding: Class,
    sos: Class,
    closings: &[Option<usize>],
    types: &mut ListOf<Class>,
)
    requires count { length closings.now ≡ length types.old }
    requires within { All (λ closing. IfSome closing (λ place. place < length types.old)) closings.now }
    ensures types { types.new ≡ n0_with_pairs embedding sos 0 closings.now types.old }
    ensures count { length types.new ≡ length types.old }
{
    for opening in 0..closings.len() {
        if let Some(closing) = closings[opening] {
            n0_take_pair(embedding, sos, opening, closing, types);
        }
    }
}

/// N0: both brackets of a pair take its direction, if it has one.
fn n0_take_pair(
    embedding: Class,
    sos: Class,
    opening: usize,
    closing: usize,
    types: &mut ListOf<Class>,
)
    requires opening { opening < length types.old }
    requires closing { closing < length types.old }
    ensures types { types.new ≡ n0_with_pair embedding sos opening closing types.old }
    ensures count { length types.new ≡ length types.old }
{
    if let Some(side) = n0_pair_side(embedding, sos, opening, closing, types.as_slice()) {
        types.set(opening, side);
        types.set(closing, side);
    }
}

/// N0 b, c and d: the direction that both brackets of a pair take, if they take one.
fn n0_pair_side(
    embedding: Class,
    sos: Class,
    opening: usize,
    closing: usize,
    types: &[Class],
) -> Option<Class>
    requires opening { opening < length types.now }
    requires closing { closing < length types.now }
    ensures { result ≡ n0_pair_side embedding (last_side sos (take opening types.now)) (slice_range types.now (suc opening) closing) }
{
    let inside = between(opening, closing, types);
    // N0 b: the embedding direction stands inside.
    if holds(embedding, inside) {
        return Some(embedding);
    }
    // N0 d: nothing strong stands inside.
    let other = opposite(embedding);
    if !holds(other, inside) {
        return None;
    }
    // N0 c: the opposite direction stands inside, and counts where it stands before the pair too.
    if counts_as(other, last_side(sos, opening, types)) {
        return Some(other);
    }
    Some(embedding)
}

/// For N0, the types between two places.
fn between(opening: usize, closing: usize, types: &[Class]) -> &[Class]
    requires opening { opening < length types.now }
    requires closing { closing < length types.now }
    ensures { result.now ≡ slice_range types.now (suc opening) closing }
{
    &types[closing.min(opening + 1)..closing]
}

/// For N0, whether one of these types counts as this direction.
fn holds(side: Class, types: &[Class]) -> bool
    ensures { result ≡ holds side types.now }
{
    types.iter().any(|class| counts_as(side, *class))
}

/// For N0, the direction of the last strong type before a place, or sos where there is none.
fn last_side(sos: Class, place: usize, types: &[Class]) -> Class
    requires { place < length types.now }
    ensures { result ≡ last_side sos (take place types.now) }
{
    let mut count = place;
    while count > 0 {
        count -= 1;
        let class = types[count];
        if counts_as(Class::L, class) {
            return Class::L;
        }
        if counts_as(Class::R, class) {
            return Class::R;
        }
    }
    sos
}

/// For N0, whether a type counts as this direction: EN and AN count as R.
fn counts_as(side: Class, class: Class) -> bool
    ensures { result ≡ counts_as side class }
{
    match (side, class) {
        (Class::L, Class::L) => true,
        (Class::R, Class::R | Class::EN | Class::AN) => true,
        _ => false,
    }
}

/// For N0, the other direction.
fn opposite(side: Class) -> Class
    ensures { result ≡ opposite side }
{
    match side {
        Class::L => Class::R,
        _ => Class::L,
    }
}

/// For the end of N0, the direction that a character took by the pairs, or takes as a mark behind one that did: by that of the character
/// before it, its class, and its types before and after the pairs.
pub fn side_taken(side: Option<Class>, class: Class, before: Class, after: Class) -> Option<Class>
    ensures { result ≡ side_taken side class before after }
{
    if became(before, after) {
        return Some(after);
    }
    followed(side, class, after)
}

/// For N0, whether a bracket took a direction.
fn became(before: Class, after: Class) -> bool
    ensures { result ≡ became before after }
{
    match (before, after) {
        (Class::ON, Class::ON) => false,
        (Class::ON, _) => true,
        _ => false,
    }
}

/// For N0, the direction that a mark takes: that of the bracket before it, or of the mark before it that took one.
fn followed(side: Option<Class>, class: Class, after: Class) -> Option<Class>
    ensures { result ≡ followed side class after }
{
    match (class, after) {
        (Class::NSM, Class::ON) => side,
        _ => None,
    }
}
