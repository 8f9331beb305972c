//! Archives for tests: the sample archive, which clauses know, and one that Lucene wrote.
#![tactic(auto)]

mod archive;
mod blobs;
mod lucene;

pub use archive::SampleArchive;
pub use blobs::sample_blobs;
pub use lucene::lucene_blobs;
