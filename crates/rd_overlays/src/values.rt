//! Values that overlays give a position.
ghost use Rattle.std.specs.Prelude.{◌≡◌, ℕ, Option};
ghost use Rattle.rd_overlays.specs.Values.{last_given};

/// The value of the last of these overlays that has one, where `value` answers what the overlay of a number has. It is asked of no
/// overlay before the last that has one.
pub fn last_given<F: Fn(u32) -> Option<u32>>(numbers: &[u32], value: F) -> Option<u32>
    requires { (number : ℕ) → F.pre value number }
    ensures { (given : ℕ → Option ℕ) → ((number : ℕ) (answer : Option ℕ) → F.post value number answer → answer ≡ given number) → result ≡ last_given given numbers.now }
{
    for place in (0..numbers.len()).rev() {
        if let Some(found) = value(numbers[place]) {
            return Some(found);
        }
    }
    None
}
