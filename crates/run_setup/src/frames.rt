// The frames of a cache, from what makes them.
ghost use Rattle.std.specs.Prelude.{◌≡◌, IsTrue, IfOk, length};
ghost use Rattle.std.specs.List.{All};
ghost use Rattle.cache_outside.specs.Causes.{HasCause};

use cache_outside::{FrameMaker, OutError};
use region_ranges::Config;
use std::alloc::Global;

/// A frame for each region of a cache, of the region's size, in the order of their indexes. Each tells, and is steady,
/// where the maker's frames do.
///
/// `Failed` comes only where the maker's count of failures rose in this call, and `NoMemory` is want of memory.
pub fn make_frames<M: FrameMaker>(
    alloc: Global,
    maker: &mut M,
    config: &Config,
) -> Result<Vec<M::F>, OutError>
where
    M::F: Drop,
    ensures count { IfOk result (λ v. length v.items ≡ config.now.regions) }
    ensures sizes { IfOk result (λ v. All (λ f. (M.F.view f).size ≡ config.now.region) v.items) }
    ensures tell { IsTrue (M.view maker.old).tells → IfOk result (λ v. All (λ f. IsTrue (M.F.view f).tells) v.items) }
    ensures steady { IsTrue (M.view maker.old).steady
        → IfOk result (λ v. All (λ f. IsTrue (M.F.view f).steady) v.items) }
    ensures cause { HasCause (M.view maker.old).faults (M.view maker.new).faults result }
    ensures same_tells { (M.view maker.new).tells ≡ (M.view maker.old).tells }
    ensures same_steady { (M.view maker.new).steady ≡ (M.view maker.old).steady }
{
    let mut frames = Vec::with_capacity(alloc, config.regions as usize)?;
    for index in 0..config.regions {
        let frame = maker.make(index, config.region)?;
        frames.push(frame)?;
    }
    Ok(frames)
}
