// Loading what a mount reads: its manifest, and where the parts of its files are.
ghost use Rattle.std.specs.Prelude.{◌≡◌, ◌<◌, IsTrue, IfOk, IsErrOf, Ok, map};
ghost use Rattle.blob_parts.specs.Content.{manifest_at, part_refusal};
ghost use Rattle.blob_parts.specs.Loads.{asked};
ghost use Rattle.blob_parts.specs.Tables.{lengths_of};
ghost use Rattle.blob_parts.specs.Takes.{SourceLater, Takes};
ghost use Rattle.shard_replies.specs.ExpectedReplies.{refused, error_reply, fitting, loaded, mounted};
ghost use Rattle.shard_replies.specs.Answers.{GivesMount};
ghost use Rattle.shard_replies.specs.declared.loading.MountError.TheVariants.{Fault, NoMemory};

use crate::words::joined;
use blob_parts::{LoadError, PartTable, ResolveError, load, resolve};
use byte_text::Text;
use cache_outside::{Archive, BlobSource};
use mount_manifest::{Manifest, ManifestError};
use mount_script::Reply;
use std::alloc::{AllocError, Global};

/// Why a manifest is not mounted.
#[derive(Drop)]
pub enum MountError {
    /// It is refused: the text of the reply.
    Refused { text: Text },
    /// The source failed, and its count of failures rose.
    Fault,
    /// Memory was wanted.
    NoMemory,
}

impl From<AllocError> for MountError {
    ghost from_gives = { λ _ e. e ≡ NoMemory };

    fn from(_: AllocError) -> Self {
        MountError::NoMemory
    }
}

/// The text of the reply where the text of a manifest is refused.
fn error_text(alloc: Global, error: ManifestError) -> Result<Text, AllocError>
    ensures { IfOk result (λ t. error_reply error ≡ refused t) }
{
    match error {
        ManifestError::NotJson => Text::of(alloc, b"refused json"),
        ManifestError::Shape { field } => joined(alloc, "refused shape ", field.word()),
        ManifestError::Limit { field, .. } => joined(alloc, "refused limit ", field.word()),
        ManifestError::Double { name } => joined(alloc, "refused double ", name.as_str()),
        ManifestError::NoFile { name } => joined(alloc, "refused nofile ", name.as_str()),
        ManifestError::NoMemory => Err(AllocError),
    }
}

/// The mount of a manifest whose text was read.
fn with_parts<A: Archive, S: BlobSource<A>>(
    alloc: Global,
    source: &mut S,
    number: u32,
    manifest: Manifest,
) -> Result<(u32, Manifest, PartTable<A>), MountError>
    requires small { number < 65536 }
    requires whole { IsTrue A.tells → manifest_at A.blobs number ≡ Ok manifest }
    ensures fits { IsTrue A.tells
        → GivesMount result (fitting number manifest (part_refusal A.blobs manifest.files)) }
    ensures manifest { IfOk result (λ m. m.1 ≡ manifest) }
    ensures number { IfOk result (λ m. (m.0 ≡ number) × (m.2.number ≡ number)) }
    ensures files { IfOk result (λ m. lengths_of m.2.files ≡ map (λ f. f.length) manifest.files) }
    ensures source { SourceLater (S.view source.old) (S.view source.new) (IsErrOf result Fault) }
    ensures reads { (S.view source.new).reads ≡ (S.view source.old).reads }
{
    match resolve::<A, S>(alloc, source, number, &manifest) {
        Ok(parts) => Ok((number, manifest, parts)),
        Err(ResolveError::Missing { name }) => Err(MountError::Refused {
            text: joined(alloc, "refused part ", name.as_str())?,
        }),
        Err(ResolveError::PartSize { name, .. }) => Err(MountError::Refused {
            text: joined(alloc, "refused size ", name.as_str())?,
        }),
        Err(ResolveError::Fault) => Err(MountError::Fault),
        Err(ResolveError::NoMemory) => Err(MountError::NoMemory),
    }
}

/// Loads what a mount of the manifest with this name reads: the manifest's number among the archive's, the manifest,
/// and where the parts of its files are.
///
/// The first of these that holds is refused, with the text of its reply: there is no such manifest; its text is
/// refused, with the first cause; the blob of a part is missing, or, where none is, has another size, with the first
/// such part in the order of files and parts. `Fault` comes only where the source's count of failures rose in this
/// call.
pub fn load_mount<A: Archive, S: BlobSource<A>>(
    alloc: Global,
    source: &mut S,
    name: &str,
) -> Result<(u32, Manifest, PartTable<A>), MountError>
    ensures mount { IsTrue A.tells → GivesMount result (loaded A.blobs name.now) }
    ensures manifest { IsTrue A.tells → IfOk result (λ m. manifest_at A.blobs m.0 ≡ Ok m.1) }
    ensures number { IfOk result (λ m. m.2.number ≡ m.0) }
    ensures small { IfOk result (λ m. m.0 < 65536) }
    ensures files { IfOk result (λ m. lengths_of m.2.files ≡ map (λ f. f.length) m.1.files) }
    ensures source { SourceLater (S.view source.old) (S.view source.new) (IsErrOf result Fault) }
    ensures reads { IsTrue A.tells
        → Takes (S.view source.old).reads (S.view source.new).reads (asked A.blobs name.now) result }
{
    match load::<A, S>(alloc, source, name) {
        Ok((number, manifest)) => with_parts::<A, S>(alloc, source, number, manifest),
        Err(LoadError::Missing) => Err(MountError::Refused {
            text: Text::of(alloc, b"refused missing")?,
        }),
        Err(LoadError::Manifest(e)) => Err(MountError::Refused {
            text: error_text(alloc, e)?,
        }),
        Err(LoadError::Fault) => Err(MountError::Fault),
        Err(LoadError::NoMemory) => Err(MountError::NoMemory),
    }
}

/// The reply of a mount line whose manifest was loaded.
pub fn mounted_reply(manifest: &Manifest) -> Reply
    ensures { result ≡ mounted manifest.now }
{
    Reply::Mounted {
        files: manifest.files_len(),
        docs: manifest.docs_total(),
    }
}
