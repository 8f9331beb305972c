// Queries: what a query's text says, its tree, and the text that a query is printed as.
#![tactic(auto)]

mod error;
mod members;
mod print;
mod query;
mod reading;

pub use byte_text::Text;
pub use error::QueryError;
pub use query::{Clauses, Query};
