// An archive by its name, and a source of its blobs.
ghost use Rattle.std.specs.Prelude.{◌≡◌, ◌<◌, ◌≤◌, ◌^◌, Bool, IsTrue, true, IfOk, IfSome, length, take, drop};
ghost use Rattle.cache_outside.specs.Listing.{Listing, names_differ, manifests, place_of, manifest_number};
ghost use Rattle.cache_outside.specs.Listing.{blob_bytes, blob_size, IsWithin};
ghost use Rattle.cache_outside.specs.Sources.{SourceView, SourceAfter, reads_after, IsCountOf};

use crate::OutError;

/// A type that names an archive: a list of named blobs, fixed for all time. It has meanings alone.
pub trait Archive {
    /// Whether what clauses say of its contents holds.
    ghost tells: { Bool };

    /// Its blobs, each a name and its bytes. Blob number k is the k-th from 0.
    ghost blobs: { Listing };

    ghost few: { length blobs < 2 ^ 32 };

    ghost few_manifests: { length (manifests blobs) ≤ 65536 };

    ghost different: { names_differ blobs ≡ true };
}

/// A source of the blobs of one archive. Where the archive tells, every Ok answer is the archive's.
///
/// Each call leaves it the same source. Its count of failures never falls, and stands still at the last value of its
/// type; `Failed` comes only where the count rose in that call. `OutError::NoMemory` is want of memory.
pub trait BlobSource<A: Archive> {
    /// Which source it is, how often it has failed, and, where it tells, the Ok reads that gave a byte, in order.
    ghost view: { Self → SourceView };

    /// The number of the blob with this name, and None exactly where the archive has no such blob.
    fn find(&mut self, name: &str) -> Result<Option<u32>, OutError>
        ensures number { IsTrue A.tells → IfOk result (λ o. o ≡ place_of name.now A.blobs) }
        ensures source { SourceAfter (view self.old) (view self.new) (view self.old).reads result };

    /// The number of the manifest with this name, below 65,536, and None exactly where no manifest has it. The
    /// manifests are the blobs whose name begins with `mount-`, numbered by themselves from 0.
    fn manifest(&mut self, name: &str) -> Result<Option<u32>, OutError>
        ensures number { IsTrue A.tells → IfOk result (λ o. o ≡ manifest_number name.now A.blobs) }
        ensures small { IfOk result (λ o. IfSome o (λ n. n < 65536)) }
        ensures source { SourceAfter (view self.old) (view self.new) (view self.old).reads result };

    /// How many bytes a blob has. Where nothing is told, an unknown blob is `Failed`.
    fn size(&mut self, blob: u32) -> Result<u64, OutError>
        requires { IsTrue A.tells → blob < length A.blobs }
        ensures length { IsTrue A.tells → IfOk result (λ n. n ≡ blob_size A.blobs blob) }
        ensures source { SourceAfter (view self.old) (view self.new) (view self.old).reads result };

    /// Puts the first bytes from place `at` on into `out`, and says how many: at least one and at most its length,
    /// and 0 where `out` is empty. Where nothing is told, an unknown blob and a place at or past the end are `Failed`.
    /// After a refusal `out` may hold anything.
    fn read(&mut self, blob: u32, at: u64, out: &mut [u8]) -> Result<usize, OutError>
        requires { IsTrue A.tells → IsWithin A.blobs blob at (length out.old) }
        ensures count { IfOk result (λ n. IsCountOf (length out.old) n) }
        ensures bytes { IsTrue A.tells
            → IfOk result (λ n. take n out.new ≡ take n (drop at (blob_bytes A.blobs blob))) }
        ensures source { SourceAfter (view self.old) (view self.new)
            (reads_after (view self.old).reads blob at result) result };
}
