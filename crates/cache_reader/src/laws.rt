//! Laws of what reads take, for callers whose own definitions speak of runs of a cache.

ghost use Rattle.cache_reader.specs.MountsOnce.{MountsFit, MountsOnce};
ghost use Rattle.cache_reader.specs.Once.{TakesOnce, FilesOnce, ActsGoOn};

use sparse_tracker::claim_places;

/// Entries and decays of one actor over a new cache with a region for each key take no byte twice.
pub fn takes_once()
    ensures { TakesOnce }
{
    claim_places();
}

/// The same of files that have no more regions than the cache, and of which no two parts are one blob.
pub fn files_once()
    ensures { FilesOnce }
{
    claim_places();
}

/// Decays and reads of tables' files, one after another, are such entries and decays.
pub fn acts_go_on()
    ensures { ActsGoOn }
{}

/// The same of the files of manifests that are whole and share no blob.
pub fn mounts_once()
    ensures { MountsOnce }
{
    claim_places();
}

/// A mount's table has the lengths of its manifest's files, which are among those of the manifests mounted.
pub fn mounts_fit()
    ensures { MountsFit }
{}
