//! Laws of the machine and its good states, for callers whose own definitions speak of them.

ghost use Rattle.std.specs.Prelude.{ℕ, Bool, List};
ghost use Rattle.cache_door.specs.Laws.{OneOwner, ClaimsAbsent, NewClaimsAbsent, GapKept, NeverWaits, PresentKept};

use sparse_tracker::{claim_places, present_stays};

/// Each byte of an open gap is one actor's to store or to fail.
pub fn one_owner()
    ensures { (tells : Bool) (files : ℕ → ℕ → List ℕ) → OneOwner tells files }
{}

/// What an entry of a mapped key claims was absent.
pub fn claims_absent()
    ensures { ClaimsAbsent }
{
    claim_places();
}

/// What an entry of a key that is not mapped claims was absent, in a region that nobody held.
pub fn new_claims_absent()
    ensures { (tells : Bool) (files : ℕ → ℕ → List ℕ) → NewClaimsAbsent tells files }
{
    claim_places();
}

/// Another actor's step leaves a hold as it is, and the bytes of its gap pending.
pub fn gap_kept()
    ensures { (tells : Bool) (files : ℕ → ℕ → List ℕ) → GapKept tells files }
{}

/// The only actor is never told to wait, where its gap is closed.
pub fn never_waits()
    ensures { (tells : Bool) (files : ℕ → ℕ → List ℕ) → NeverWaits tells files }
{}

/// A present byte stays present while its region keeps its key.
pub fn present_kept()
    ensures { PresentKept }
{
    present_stays();
}
