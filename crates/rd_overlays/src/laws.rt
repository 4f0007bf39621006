//! Laws of the definitions, for the layers above.
ghost use Rattle.std.specs.Prelude.{ℕ, ◌≡◌, ◌≤◌, List, Option, Some, None};
ghost use Rattle.rd_overlays.specs.declared.overlay.Overlay.{Overlay};
ghost use Rattle.rd_overlays.specs.Overlays.{grown, shrunk, covering};
ghost use Rattle.rd_overlays.specs.Listings.{AreListings};
ghost use Rattle.rd_overlays.specs.Values.{Gives, IsGreatest, last_given};

/// Every edit leaves a start that isn't behind its end. The call does nothing.
pub fn edits_keep_starts_before_ends()
    ensures inserted { (place n : ℕ) (overlay : Overlay) → (grown place n overlay).from ≤ (grown place n overlay).to }
    ensures deleted { (from to : ℕ) (overlay : Overlay) → from ≤ to → overlay.from ≤ overlay.to → (shrunk from to overlay).from ≤ (shrunk from to overlay).to }
{}

/// A listing of the overlays that pass a test, as those that cover a position, start there or end there, holds exactly the
/// numbers of such overlays that live. Each comes before those behind it, by its priority and where these are equal by its
/// number, so that none stands in it twice. A listing depends on these numbers and priorities alone: two tests of two lists have
/// the same listing where at each number an overlay passes the one as an overlay with its priority passes the other. The call does
/// nothing.
pub fn listings_are_exact()
    ensures { AreListings }
{}

/// Of the overlays that cover a position and have a value the last of the listing is the greatest, by priority and where these are equal
/// by number. Where the listing gives no value, none of them has one. The call does nothing.
pub fn last_values_are_the_greatest_overlays()
    ensures some { (value : ℕ → Option ℕ) (slots : List (Option Overlay)) (pos given : ℕ) → last_given value (covering pos slots) ≡ Some given
        → (number : ℕ) × (overlay : Overlay) × IsGreatest value slots pos number overlay given }
    ensures none { (value : ℕ → Option ℕ) (slots : List (Option Overlay)) (pos number given : ℕ) (overlay : Overlay) → last_given value (covering pos slots) ≡ None → Gives value slots pos number overlay given → ⊥ }
    ensures greatest { (value : ℕ → Option ℕ) (slots : List (Option Overlay)) (pos number given : ℕ) (overlay : Overlay) → IsGreatest value slots pos number overlay given → last_given value (covering pos slots) ≡ Some given }
{}
