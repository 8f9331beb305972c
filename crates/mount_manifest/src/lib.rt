// The manifest of a mounted index: the files of its segments, the blobs that hold each file's bytes, and the segments.
#![tactic(auto)]

mod error;
mod form;
mod laws;
mod limits;
mod manifest;
mod member;
mod names;
mod record;

pub use byte_text::{Blobs, Name, Text};
pub use error::{Field, ManifestError};
pub use laws::sound_manifests;
pub use manifest::Manifest;
pub use record::{FileId, FileRecord, Segment};
