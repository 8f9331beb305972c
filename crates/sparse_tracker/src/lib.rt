//! A sparse file tracker, as Elasticsearch's `SparseFileTracker`: which bytes of a region are present, which are being
//! fetched and by whom, and who waits for what.
#![tactic(auto)]

mod gaps;
mod laws;
mod status;
mod tickets;
mod tracker;
mod unused;

pub use gaps::OpenGap;
pub use laws::{claim_places, gap_weights, present_stays, ticket_weights};
pub use status::{Claim, Gap, Status};
pub use tickets::Ticket;
pub use tracker::Tracker;
