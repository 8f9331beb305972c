// Why a text is no manifest.
ghost use Rattle.std.specs.Prelude.{◌≡◌};
ghost use Rattle.mount_manifest.specs.Words.{word};
ghost use Rattle.mount_manifest.specs.declared.error.ManifestError.TheVariants.{NoMemory};

use byte_text::Name;
use std::alloc::{AllocError, AllocFailed};
use std::fmt::{self, Debug, Formatter};
use thiserror::Error;

/// What a refusal is about: a member of the text, the text itself, its size, or the number of parts of its files.
#[derive(Clone, Copy, Debug, PartialEq, Eq)]
pub enum Field {
    Manifest,
    Bytes,
    Version,
    Files,
    Name,
    PhysicalName,
    Length,
    PartSize,
    Parts,
    Segments,
    Docs,
    Postings,
    Stored,
    Live,
}

impl Field {
    /// The word that is printed for it: the name of the member in the text, or `manifest`, `bytes` or `parts`.
    pub fn word(self) -> &'static str
        ensures { result.now ≡ word self }
    {
        match self {
            Field::Manifest => "manifest",
            Field::Bytes => "bytes",
            Field::Version => "version",
            Field::Files => "files",
            Field::Name => "name",
            Field::PhysicalName => "physical_name",
            Field::Length => "length",
            Field::PartSize => "part_size",
            Field::Parts => "parts",
            Field::Segments => "segments",
            Field::Docs => "docs",
            Field::Postings => "postings",
            Field::Stored => "stored",
            Field::Live => "live",
        }
    }
}

/// The first thing for which a text is no manifest, in the order of `Manifest::read`.
#[derive(Drop, Error)]
pub enum ManifestError {
    /// The text is no JSON value.
    #[error("the manifest is no JSON")]
    NotJson,
    /// A member is missing or not of its form.
    #[error("a member of the manifest is missing or not of its form")]
    Shape { field: Field },
    /// A limit is passed, by this value.
    #[error("a limit of the manifest is passed")]
    Limit { field: Field, value: u64 },
    /// Two files have this physical name, or the data name of the file with this physical name is an earlier file's;
    /// or two segments have this name.
    #[error("a name stands twice in the manifest")]
    Double { name: Name },
    /// A segment names this file, and there is none.
    #[error("a segment of the manifest names no file")]
    NoFile { name: Name },
    /// Memory was wanted.
    #[error("no memory")]
    NoMemory,
}

impl Debug for ManifestError {
    fn fmt<W: fmt::Write>(&self, f: &mut Formatter<W>) -> fmt::Result {
        match self {
            ManifestError::NotJson => f.write_str("NotJson"),
            ManifestError::Shape { field } => write!(f, "Shape {{ field: {field:?} }}"),
            ManifestError::Limit { field, value } => {
                write!(f, "Limit {{ field: {field:?}, value: {value} }}")
            }
            ManifestError::Double { name } => {
                let name = name.as_str();
                write!(f, "Double {{ name: {name:?} }}")
            }
            ManifestError::NoFile { name } => {
                let name = name.as_str();
                write!(f, "NoFile {{ name: {name:?} }}")
            }
            ManifestError::NoMemory => f.write_str("NoMemory"),
        }
    }
}

impl From<AllocError> for ManifestError {
    ghost from_gives = { λ _ e. e ≡ NoMemory };

    fn from(_: AllocError) -> Self {
        ManifestError::NoMemory
    }
}

impl<T: Drop> From<AllocFailed<T>> for ManifestError {
    ghost from_gives = { λ _ e. e ≡ NoMemory };

    fn from(_: AllocFailed<T>) -> Self {
        ManifestError::NoMemory
    }
}
