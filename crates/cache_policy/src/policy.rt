//! The bookkeeping of a cache: which region has which key, how often it was used, and which is free or leaving.

ghost use Rattle.std.specs.Prelude.{◌≡◌, ◌≢◌, ◌<◌, ◌≤◌, ◌+◌, ◌==◌, ◌++◌, ℕ, IfOk, IfSome, IfNone, IsSome};
ghost use Rattle.std.specs.Prelude.{Some, None};
ghost use Rattle.std.specs.Prelude.{length, slice_get, slice_index, if◌then◌else◌};
ghost use Rattle.region_ranges.specs.Keys.{IsKey, IsConfig, tag_of};
ghost use Rattle.freq_lists.specs.Lists.{head, times, times_in};
ghost use Rattle.cache_policy.specs.Policy.{PolicyView, new_policy, find, tag_at, mapped_len, is_of};
ghost use Rattle.cache_policy.specs.Policy.{regions_from, unmap, leave, settle, clear};
ghost use Rattle.cache_policy.specs.Ageing.{map_front, touch, decay, candidates, next_candidate};
ghost use Rattle.cache_policy.specs.Kept.{IsGood};

use crate::index::{forget_key, give_key, is_of, mapped_len};
use crate::lower::lower_all;
use crate::order::{behind, first_from};
use crate::tally::Tally4;
use freq_lists::FreqLists;
use key_table::KeyTable;
use region_ranges::{Config, RegionKey};
use std::alloc::{AllocError, Global};
use std::marker::Model;

/// The eviction policy of the shared cache, as Elasticsearch's `SharedBlobCacheService` has it in outline: frequencies
/// that rise with accesses and fall by decays. Each region is free, or mapped to one key and in the list of its
/// frequency, or leaving. Clauses see the lists with their order, and by region the packed key and the time of the last
/// access.
#[derive(Drop)]
pub struct Policy {
    free: Vec<u32>,
    lists: FreqLists,
    max_freq: u32,
    // by region: its packed key where it is mapped
    tags: Vec<Option<u64>>,
    // by packed key: the region that is mapped to it
    keys: KeyTable,
    // by region: the time of its last access
    last_accesses: Vec<u64>,
    leaving: Vec<u32>,
    evictions: u64,
    promotions: u64,
    demotions: u64,
    min_delta: u64,
}

impl Model for Policy {
    ghost use Rattle.cache_policy.specs.Policy.{PolicyView};
    ghost use Rattle.cache_policy.specs.Fields.{view_of, IsKept};

    ghost Value = { PolicyView };

    ghost view = { view_of };

    ghost invariant = { IsKept };
}

impl Policy {
    /// All regions of the configuration free, in rising order. It takes all the memory that the policy ever needs.
    pub fn new(alloc: Global, config: &Config) -> Result<Policy, AllocError>
        requires { IsConfig config.now }
        ensures { IfOk result (λ p. p ≡ new_policy config.now.regions config.now.max_freq config.now.min_delta) }
    {
        let mut free = Vec::with_capacity(alloc, config.regions as usize)?;
        for region in 0..config.regions {
            free.push(region)?;
        }
        Ok(Policy {
            free,
            lists: FreqLists::new(alloc, config.regions, config.max_freq)?,
            max_freq: config.max_freq,
            tags: vec![in alloc; None; config.regions as usize]?,
            keys: KeyTable::new(alloc, config.regions)?,
            last_accesses: vec![in alloc; 0; config.regions as usize]?,
            leaving: Vec::with_capacity(alloc, config.regions as usize)?,
            evictions: 0,
            promotions: 0,
            demotions: 0,
            min_delta: config.min_delta,
        })
    }

    /// The region that is mapped to the key, or None exactly where none is.
    pub fn find(&self, key: &RegionKey) -> Option<u32>
        requires { IsKey key.now }
        ensures region { result ≡ find (tag_of key.now) self.now }
        ensures some { IfSome result (λ r. tag_at self.now r ≡ Some (tag_of key.now)) }
        ensures none { IfNone result ((r : ℕ) → tag_at self.now r ≢ Some (tag_of key.now)) }
    {
        self.keys.find(key.pack())
    }

    /// An access to a mapped region at a time in milliseconds. Where its last access is at least the least interval
    /// ago, and its frequency is not the last, the frequency rises by one; otherwise nothing changes.
    pub fn touch(&mut self, region: u32, now: u64)
        requires { IsSome (tag_at self.old region) }
        ensures policy { self.new ≡ touch region now self.old }
        ensures tags { (j : ℕ) → tag_at self.new j ≡ tag_at self.old j }
        ensures count { length self.new.tags ≡ length self.old.tags }
    {
        let Some(frequency) = self.lists.list_of(region) else {
            return;
        };
        let waited = now.saturating_sub(self.last_accesses[region as usize]) >= self.min_delta;
        if waited && frequency + 1 < self.max_freq {
            self.lists.unlink(region);
            self.lists.push_back(frequency + 1, region);
            self.last_accesses[region as usize] = now;
            self.promotions = self.promotions.saturating_add(1);
        }
    }

    /// The region that `map` takes next, or None exactly where none is free.
    pub fn free_front(&self) -> Option<u32>
        ensures { result ≡ head self.now.free }
    {
        if self.free.is_empty() {
            return None;
        }
        Some(self.free[0])
    }

    /// The mapped region behind this one in the order of eviction, by rising frequency and in each list from its front;
    /// after None the first one. None exactly at the end.
    pub fn next_candidate(&self, after: Option<u32>) -> Option<u32>
        requires { IfSome after (λ r. IsSome (tag_at self.now r)) }
        ensures rule { result ≡ next_candidate after self.now }
        ensures place { IfSome after (λ r. (i : ℕ) → slice_get (candidates self.now) i ≡ Some r
            → result ≡ slice_get (candidates self.now) (i + 1)) }
        ensures mapped { IfSome result (λ r. IsSome (tag_at self.now r)) }
    {
        match after {
            None => first_from(&self.lists, 0, self.max_freq),
            Some(region) => behind(&self.lists, region, self.max_freq),
        }
    }

    /// Maps the front free region to a key that no region is mapped to, with the lowest frequency.
    pub fn map(&mut self, region: u32, key: RegionKey, now: u64)
        requires front { head self.old.free ≡ Some region }
        requires key { IsKey key }
        requires new { find (tag_of key) self.old ≡ None }
        ensures policy { self.new ≡ map_front region (tag_of key) now self.old }
        ensures tags { (j : ℕ) → tag_at self.new j ≡ (if j == region then Some (tag_of key) else tag_at self.old j) }
        ensures count { length self.new.tags ≡ length self.old.tags }
    {
        self.free.remove(0);
        self.lists.push_back(0, region);
        give_key(&mut self.tags, &mut self.keys, region, key.pack());
        self.last_accesses[region as usize] = now;
    }

    /// Evicts a mapped region: it loses its key and is the last free one.
    pub fn unmap(&mut self, region: u32)
        requires { IsSome (tag_at self.old region) }
        ensures policy { self.new ≡ unmap region self.old }
        ensures tags { (j : ℕ) → tag_at self.new j ≡ (if j == region then None else tag_at self.old j) }
        ensures count { length self.new.tags ≡ length self.old.tags }
    {
        self.lists.unlink(region);
        forget_key(&mut self.tags, &mut self.keys, region);
        let Ok(()) = self.free.push(region) else {
            unreachable!()
        };
        self.evictions = self.evictions.saturating_add(1);
    }

    /// A mapped region loses its key and is the last leaving one.
    pub fn leave(&mut self, region: u32)
        requires { IsSome (tag_at self.old region) }
        ensures policy { self.new ≡ leave region self.old }
        ensures tags { (j : ℕ) → tag_at self.new j ≡ (if j == region then None else tag_at self.old j) }
        ensures count { length self.new.tags ≡ length self.old.tags }
    {
        self.lists.unlink(region);
        forget_key(&mut self.tags, &mut self.keys, region);
        let Ok(()) = self.leaving.push(region) else {
            unreachable!()
        };
    }

    /// A leaving region is the last free one.
    pub fn settle(&mut self, region: u32)
        requires { 0 < times_in region self.old.leaving }
        ensures policy { self.new ≡ settle region self.old }
        ensures tags { (j : ℕ) → tag_at self.new j ≡ tag_at self.old j }
        ensures count { length self.new.tags ≡ length self.old.tags }
    {
        self.leaving.retain(|entry| *entry != region);
        let Ok(()) = self.free.push(region) else {
            unreachable!()
        };
    }

    /// The frequency of each region falls by one, once, where it is above 0 and the last access is at least twice the
    /// least interval ago.
    pub fn decay(&mut self, now: u64)
        ensures policy { self.new ≡ decay now self.old }
        ensures tags { (j : ℕ) → tag_at self.new j ≡ tag_at self.old j }
        ensures count { length self.new.tags ≡ length self.old.tags }
    {
        self.demotions = lower_all(
            &mut self.lists,
            self.max_freq,
            &self.last_accesses,
            self.min_delta,
            now,
            self.demotions,
        );
    }

    /// Each mapped region whose key has the manifest leaves, in rising order.
    pub fn clear(&mut self, manifest: u32)
        ensures policy { self.new ≡ clear manifest self.old }
        ensures tags { (j : ℕ) → tag_at self.new j
            ≡ (if is_of manifest (tag_at self.old j) then None else tag_at self.old j) }
        ensures leaving { self.new.leaving ≡ self.old.leaving ++ regions_from 0 (is_of manifest) self.old.tags }
        ensures count { length self.new.tags ≡ length self.old.tags }
    {
        let regions = self.tags.len() as u32;
        for region in 0..regions {
            if self.has_key_of(region, manifest) {
                self.leave(region);
            }
        }
    }

    // Whether the region is mapped to a key of the manifest.
    fn has_key_of(&self, region: u32, manifest: u32) -> bool
        requires { region < length self.now.tags }
        ensures { result ≡ is_of manifest (tag_at self.now region) }
    {
        is_of(self.tags[region as usize], manifest)
    }

    /// How many regions are free.
    pub fn free_len(&self) -> u32
        ensures { result ≡ length self.now.free }
    {
        self.free.len() as u32
    }

    /// How many regions are leaving.
    pub fn leaving_len(&self) -> u32
        ensures { result ≡ length self.now.leaving }
    {
        self.leaving.len() as u32
    }

    /// The leaving region at place `i`, from 0.
    pub fn leaving_at(&self, i: u32) -> u32
        requires { i < length self.now.leaving }
        ensures { result ≡ slice_index self.now.leaving i }
    {
        self.leaving[i as usize]
    }

    /// The counters, and how many regions are mapped.
    pub fn tally(&self) -> Tally4
        ensures { result ≡ record {
          evictions = self.now.evictions;
          promotions = self.now.promotions;
          demotions = self.now.demotions;
          listed = mapped_len self.now;
        } }
    {
        Tally4 {
            evictions: self.evictions,
            promotions: self.promotions,
            demotions: self.demotions,
            listed: mapped_len(&self.tags),
        }
    }

    /// What is true of every policy: each region is in exactly one list, once, the keys of mapped regions differ, and
    /// the candidates are the mapped regions. A call does nothing else than tell it.
    pub fn lesson(&self)
        ensures good { IsGood self.now }
        ensures candidates { (r : ℕ) → 0 < times_in r (candidates self.now) → IsSome (tag_at self.now r) }
        ensures listed { (r : ℕ) → times_in r (candidates self.now) ≡ times r self.now.lists }
    {
        let _ = &self.lists;
    }
}
