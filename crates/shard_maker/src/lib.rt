//! An archive of any size made of a number: a postings text in parts, its manifest, and a script that searches it.
#![tactic(auto)]

mod archive;
mod cuts;
mod draws;
mod manifest;
mod rows;
mod script;

pub use archive::{Made, can_make, make};
