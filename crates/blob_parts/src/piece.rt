// A piece of a file: some of its bytes, and where they stand.
ghost use Rattle.std.specs.Prelude.{◌≡◌, ◌<◌, ◌≤◌, ◌+◌, length, IsTrue, IfOk, IsErrOf};
ghost use Rattle.blob_parts.specs.Content.{content, content_places, slice_of};
ghost use Rattle.blob_parts.specs.Tables.{file_length};
ghost use Rattle.blob_parts.specs.Takes.{SourceLater, Takes};
ghost use Rattle.blob_parts.specs.Pieces.{IsPiece, IsPieceAt};

use crate::{FetchError, PartTable, read_into};
use byte_text::Text;
use cache_outside::{Archive, BlobSource};
use mount_manifest::FileId;
use std::alloc::Global;
use std::marker::{Model, PhantomData};

/// Some bytes of a file, with the file and the place in it that they are from. Where the archive tells, they are the
/// file's bytes there.
#[derive(Drop)]
pub struct Piece<A: Archive> {
    file: FileId,
    at: u64,
    bytes: Text,
    archive: PhantomData<A>,
}

impl<A: Archive> Model for Piece<A> {
    ghost use Rattle.std.specs.Prelude.{IsTrue};
    ghost use Rattle.blob_parts.specs.Pieces.{PieceView, IsPiece};

    ghost Value = { PieceView };

    ghost view = { λ p. record { manifest = p.file.manifest; file = p.file.file; at = p.at; bytes = p.bytes } };

    ghost invariant = { λ p. IsTrue A.tells
        → IsPiece A.blobs (record { manifest = p.file.manifest; file = p.file.file; at = p.at; bytes = p.bytes }) };
}

impl<A: Archive> Piece<A> {
    /// The file, by the number of its manifest and its own.
    pub fn file(&self) -> FileId
        ensures manifest { result.manifest ≡ self.now.manifest }
        ensures file { result.file ≡ self.now.file }
    {
        self.file
    }

    /// The place of its first byte in the file.
    pub fn at(&self) -> u64
        ensures { result ≡ self.now.at }
    {
        self.at
    }

    /// Its bytes.
    pub fn bytes(&self) -> &[u8]
        ensures value { result.now ≡ self.now.bytes }
        ensures content { IsTrue A.tells → IsPiece A.blobs self.now }
    {
        self.bytes.as_bytes()
    }
}

/// Reads `len` bytes of a file, 1 to 65,536, from place `at` on. They are asked in rising order, split where parts
/// meet.
///
/// `Fault` comes only where the source's count of failures rose in this call.
pub fn fetch<A: Archive, S: BlobSource<A>>(
    alloc: Global,
    source: &mut S,
    table: &PartTable<A>,
    file: u32,
    at: u64,
    len: u32,
) -> Result<Piece<A>, FetchError>
    requires file { file < length table.now.files }
    requires some { 0 < len }
    requires short { len ≤ 65536 }
    requires inside { at + len ≤ file_length table.now file }
    ensures piece { IfOk result (IsPieceAt table.now.number file at len) }
    ensures bytes { IsTrue A.tells
        → IfOk result (λ p. p.bytes ≡ slice_of (content A.blobs table.now.number file) at len) }
    ensures source { SourceLater (S.view source.old) (S.view source.new) (IsErrOf result FetchError.Fault) }
    ensures reads { IsTrue A.tells → Takes (S.view source.old).reads (S.view source.new).reads
        (slice_of (content_places A.blobs table.now.number file) at len) result }
{
    let mut bytes = vec![in alloc; 0; len as usize]?;
    read_into(source, table, file, at, &mut bytes)?;
    let manifest = table.number();
    Ok(Piece {
        file: FileId { manifest, file },
        at,
        bytes: Text::from_vec(bytes),
        archive: PhantomData,
    })
}

// A missing proof of `Send` shows here, and not first at the threads above.
fn crosses<T: Send>() {}

/// A piece may be handed to another thread.
pub fn piece_crosses<A: Archive + Send>() {
    crosses::<Piece<A>>();
}
