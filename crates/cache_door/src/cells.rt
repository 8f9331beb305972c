//! The cells of a new cache: one without a key for each of its frames.

ghost use Rattle.std.specs.Prelude.{◌≡◌, IfOk, map};
ghost use Rattle.std.specs.List.{All};
ghost use Rattle.region_ranges.specs.Keys.{IsConfig};
ghost use Rattle.blob_parts.specs.Content.{content};
ghost use Rattle.region_cell.specs.Cells.{new_cell, IsGood};

use cache_outside::{Archive, Frame};
use region_cell::RegionCell;
use region_ranges::Config;
use std::alloc::{AllocError, Global};

/// A cell without a key for each frame.
pub(crate) fn cells_over<A: Archive + Drop, F: Frame + Drop>(
    alloc: Global,
    config: &Config,
    frames: Vec<F>,
) -> Result<Vec<RegionCell<A, F>>, AllocError>
    requires config { IsConfig config.now }
    requires sizes { All (λ f. (F.view f).size ≡ config.now.region) frames.items }
    ensures cells { IfOk result (λ c. c.items ≡ map (λ f. new_cell (F.view f) config.now.range) frames.items) }
    ensures good { IfOk result (λ c. All (λ x. IsGood A.tells (content A.blobs) x) c.items) }
{
    let mut cells = Vec::with_capacity(alloc, frames.len())?;
    for frame in frames {
        let cell = RegionCell::new(alloc, frame, config);
        cell.lesson();
        cells.push(cell)?;
    }
    Ok(cells)
}
