//! Opening and closing a cache.
ghost use Rattle.std.specs.Prelude.{◌≡◌, ℕ, ◌+◌, ◌<◌, ◌≤◌, List, [], ◌∷◌, ◌++◌, length, replicate, IfOk, OnOk, IsTrue, All};
ghost use Rattle.std.specs.Prelude.{map};
ghost use Rattle.blob_parts.specs.Content.{content};
ghost use Rattle.region_ranges.specs.Keys.{IsConfig};
ghost use Rattle.cache_door.specs.Doors.{no_work, hold_view, nothing};
ghost use Rattle.cache_table.specs.Keys.{about_of};
ghost use Rattle.cache_table.specs.Opened.{opened_with, free_words};
ghost use Rattle.cache_table.specs.Rule.{newcomer, Suits};
ghost use Rattle.cache_table.specs.Calls.{AreCells, aways};
ghost use Rattle.cache_table.specs.Views.{IsOf};

use crate::boxed::Boxed;
use crate::cache::SharedCache;
use crate::home::Home;
use crate::key::Key;
use crate::mount_set::MountSet;
use crate::pass::Pass;
use atomic_table::{Refused, Table};
use cache_door::Work;
use cache_outside::{Archive, Frame};
use cache_policy::Policy;
use region_cell::RegionCell;
use region_ranges::Config;
use std::alloc::{AllocError, Global};
use std::marker::PhantomData;

// The word of a free region.
const FREE: u64 = 18_446_744_073_709_551_360;

// The words of a cache in which all is free and each mount is new. Seven words that are never touched stand before each
// region's.
#[tactic(auto, using(std::proofs::lemmas::List::replicate_more))]
fn words_of(alloc: Global, regions: u32) -> Result<Vec<u64>, AllocError>
    ensures { IfOk result (λ v. v.items ≡ (0 ∷ free_words regions) ++ replicate 4096 0) }
{
    let mut words = Vec::new(alloc);
    words.push(0)?;
    for _ in 0..regions {
        words.extend_from_slice(&[0, 0, 0, 0, 0, 0, 0, FREE])?;
    }
    for _ in 0..4096u32 {
        words.push(0)?;
    }
    Ok(words)
}

// A cell of a free region.
fn cell_of<A: Archive + Drop, F: Frame + Drop>(
    alloc: Global,
    key: &Key<F>,
    frame: F,
) -> RegionCell<A, F>
    requires config { IsConfig key.now.config }
    requires size { (F.view frame).size ≡ key.now.config.region }
    requires tells { IsTrue (about_of F.view key.now).tells → IsTrue (F.view frame).tells }
    requires steady { IsTrue (about_of F.view key.now).steady → IsTrue (F.view frame).steady }
    ensures suits { Suits A.tells (content A.blobs) (about_of F.view key.now) 18446744073709551360 result }
    ensures unclaimed { (result.metadata.region.tracker.tickets ≡ []) × (result.metadata.region.tracker.gaps ≡ []) }
{
    let cell = RegionCell::new(alloc, frame, &key.config);
    cell.lesson();
    cell
}

// Seven slots with nothing.
fn put_aways<A: Archive + Drop, F: Frame + Drop>(
    slots: &mut Vec<Home<A, F>>,
) -> Result<(), AllocError>
    ensures { OnOk result (slots.new.items ≡ aways 7 slots.old.items) }
{
    for _ in 0..7u32 {
        slots.push(Home::Away)?;
    }
    Ok(())
}

// A policy, and a cell for each frame, behind seven slots with nothing.
fn slots_of<A: Archive + Drop, F: Frame + Drop>(
    alloc: Global,
    key: &Key<F>,
    frames: Vec<F>,
) -> Result<Vec<Home<A, F>>, AllocError>
    requires config { IsConfig key.now.config }
    requires frames { All (λ f. ((F.view f).size ≡ key.now.config.region)
        × (IsTrue (about_of F.view key.now).tells → IsTrue (F.view f).tells)
        × (IsTrue (about_of F.view key.now).steady → IsTrue (F.view f).steady)) frames.items }
    ensures { IfOk result (λ v. AreCells A.tells (content A.blobs) (about_of F.view key.now) (length frames.items)
        v.items) }
{
    let mut slots = Vec::new(alloc);
    let policy = Policy::new(alloc, &key.config)?;
    policy.lesson();
    let policy = Boxed::new(alloc, policy)?;
    slots.push(Home::Policy(policy))?;
    for frame in frames {
        let cell = cell_of(alloc, key, frame);
        let boxed = Boxed::new(alloc, cell)?;
        put_aways(&mut slots)?;
        slots.push(Home::Cell(boxed))?;
    }
    Ok(slots)
}

impl<A: Archive + Drop, F: Frame + Drop> SharedCache<A, F> {
    /// An empty cache with these settings over these frames, one a region, each of the region size in bytes. Its first
    /// pass has all 64 shares and holds nothing. Want of memory is the one refusal.
    pub fn open(
        alloc: Global,
        config: &Config,
        frames: Vec<F>,
    ) -> Result<(SharedCache<A, F>, Pass<A>), AllocError>
        requires config { IsConfig config.now }
        requires count { length frames.items ≡ config.now.regions }
        requires sizes { All (λ f. (F.view f).size ≡ config.now.region) frames.items }
        ensures cache { IfOk result (λ t. t.0.about ≡ opened_with F.view config.now frames.items) }
        ensures pass { IfOk result (λ t. IsOf t.0 t.1 × (t.1.view ≡ newcomer t.0.about 64 [])
            × (t.1.work ≡ no_work)) }
    {
        let key = Key::new(config, &frames);
        let words = words_of(alloc, config.regions)?;
        let slots = slots_of(alloc, &key, frames)?;
        match Table::new(alloc, words.as_slice(), slots, &key) {
            Err(Refused { slots: _ }) => Err(AllocError),
            Ok((table, seat)) => {
                let pass = Pass {
                    badge: seat.into_badge(),
                    shares: 64,
                    hold: None,
                    work: Work::new(),
                    unmounted: MountSet::new(),
                    gone: MountSet::new(),
                    archive: PhantomData,
                };
                Ok((
                    SharedCache {
                        table,
                        config: *config,
                    },
                    pass,
                ))
            }
        }
    }

    /// Ends the cache, once one pass has all 64 shares again and holds nothing.
    pub fn close(self, pass: Pass<A>)
        requires of { IsOf self pass }
        requires whole { pass.view.shares ≡ 64 }
        requires free { hold_view pass.view.hold ≡ nothing }
    {
        drop(pass);
        drop(self);
    }
}
