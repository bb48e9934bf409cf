//! A law of listings, the contract of a function that does nothing.

ghost use Rattle.std.specs.Prelude.{◌≡◌, ℕ, List, Option};
ghost use Rattle.wire_core.specs.declared.bad.Bad.{Bad};
ghost use Rattle.frame_listing.specs.Listing.{IsListing};

/// A stream has one listing, and at most one first fault.
pub fn one_listing()
    ensures { (bytes one other : List ℕ) (fault last : Option Bad)
        → IsListing bytes one fault → IsListing bytes other last → (one ≡ other) × (fault ≡ last) }
{}
