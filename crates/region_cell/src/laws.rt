//! Laws of the definitions, for callers whose own definitions speak of regions and their bytes.

ghost use Rattle.std.specs.Prelude.{ℕ, List};
ghost use Rattle.region_cell.specs.Laws.{RangedStays, FilledStays, LenStays};

use sparse_tracker::claim_places;

/// Each call keeps the order of states in each aligned range, and the marks of tickets.
pub fn ranged_stays()
    ensures { RangedStays }
{
    claim_places();
}

/// Each call keeps that a present byte is the file's, a store by the file's own bytes.
pub fn filled_stays()
    ensures { (files : ℕ → ℕ → List ℕ) (size : ℕ) → FilledStays files size }
{}

/// No call but a new key changes the number of states.
pub fn len_stays()
    ensures { LenStays }
{}
