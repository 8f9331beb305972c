// Searches in the files of a shard: the live documents that match a query, and the stored fields of one document.
#![tactic(auto)]

mod combining;
mod error;
mod fetching;
mod files;
mod hits;
mod searching;
mod shelf;
mod terms;

pub use error::SearchError;
pub use fetching::fetch_doc;
pub use hits::{Hit, HitList, Hits};
pub use searching::search;
pub use shelf::{Shelf, shelf_crosses};
