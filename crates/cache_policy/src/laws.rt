//! Laws of the definitions, for callers whose own definitions speak of policies.

ghost use Rattle.cache_policy.specs.Laws.{FreeRegionLeaves, CandidatesLeft};

/// The front free region, mapped and made leaving at once, only moves from the free list to the leaving list.
pub fn free_region_leaves()
    ensures { FreeRegionLeaves }
{}

/// A region that leaves is no candidate, and the others keep their order.
pub fn candidates_left()
    ensures { CandidatesLeft }
{}
