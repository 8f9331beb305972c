//! Laws of the definitions, for callers whose own definitions speak of trackers.

ghost use Rattle.sparse_tracker.specs.Weights.{TicketWeights, GapWeights};
ghost use Rattle.sparse_tracker.specs.Places.{ClaimPlaces, PresentStays};

/// What a claim, a leave and a failure make of the tickets, and whose ticket is there.
pub fn ticket_weights()
    ensures { TicketWeights }
{}

/// What a claim, progress and a failure make of the open gaps, and whose gap is open.
pub fn gap_weights()
    ensures { GapWeights }
{}

/// A claim takes the greatest run of absent bytes round the first absent wanted byte, and nothing where no wanted byte
/// is absent.
pub fn claim_places()
    ensures { ClaimPlaces }
{}

/// A present byte stays present.
pub fn present_stays()
    ensures { PresentStays }
{}
