//! Calls on the doors of a core as values, each with what it answers.

ghost use Rattle.std.specs.Prelude.{◌<◌, IfSome, IsTrue, length};
ghost use Rattle.region_ranges.specs.Keys.{IsConfig};
ghost use Rattle.blob_parts.specs.Content.{content};
ghost use Rattle.cache_door.specs.Doors.{IsWant, HasLength};
ghost use Rattle.cache_checks.specs.Checks.{IsOfPart};

use crate::samples::Stand;
use blob_parts::{PartTable, fetch};
use cache_door::{CacheDoor, Entered, Glance, Taken, Want};
use cache_outside::Archive;
use region_ranges::{ByteRange, Config, RegionKey, region_len, region_of};
use std::alloc::{AllocError, Global};

/// A call on a door of one of two actors, with its answer.
#[derive(Clone, Copy)]
pub enum Step {
    Enter {
        actor: u32,
        mount: u32,
        part: ByteRange,
        answer: Entered,
    },
    /// The next bytes of the actor's gap, which is one of the region of the part, and whether they are stored.
    Store {
        actor: u32,
        part: ByteRange,
        count: u32,
        answer: bool,
    },
    Fail {
        actor: u32,
    },
    Leave {
        actor: u32,
    },
    /// What is wanted begins at this place of the file.
    Take {
        actor: u32,
        first: u64,
        answer: Taken,
    },
    Glance {
        region: u32,
        part: ByteRange,
        answer: Glance,
    },
    Decay {
        now: u64,
    },
    Clear,
    /// How many regions are free and leaving, and how many were evicted.
    Counts {
        free: u32,
        leaving: u32,
        evictions: u64,
    },
    Live {
        mount: u32,
    },
    Unmount {
        mount: u32,
    },
}

// Whether these are the file's bytes from this place on: byte i of the file is i mod 251.
fn are_counted(bytes: &[u8], first: u64) -> bool {
    for (i, byte) in bytes.iter().enumerate() {
        if *byte as u64 != first.wrapping_add(i as u64) % 251 {
            return false;
        }
    }
    true
}

// What an entry wants for a part of the table's first file, where it may be wanted.
pub(crate) fn want_of<A: Archive>(
    table: &PartTable<A>,
    config: &Config,
    part: ByteRange,
) -> Option<Want>
    requires config { IsConfig config.now }
    requires file { 0 < length table.now.files }
    ensures key { IfSome result (IsOfPart table.now.number config.now.region part.start) }
    ensures wanted { IfSome result (IsWant config.now) }
    ensures whole { IsTrue A.tells → IfSome result (HasLength (content A.blobs) config.now) }
{
    let range = config.range as u64;
    let length = table.length(0);
    if part.start >= part.end || part.end > length {
        return None;
    }
    if part.start / range != (part.end - 1) / range {
        return None;
    }
    let manifest = table.number();
    let region = region_of(part.start, config.region);
    let len = region_len(length, region, config.region);
    let base = region * config.region as u64;
    Some(Want {
        key: RegionKey {
            manifest,
            file: 0,
            region: region as u32,
        },
        len,
        sub: ByteRange {
            start: part.start - base,
            end: part.end - base,
        },
    })
}

impl<A: Archive + Drop> Stand<A> {
    fn enter(
        &mut self,
        actor: u32,
        mount: u32,
        part: ByteRange,
    ) -> Result<Option<Entered>, AllocError> {
        let Some(want) = want_of(&self.table, &self.config, part) else {
            return Ok(None);
        };
        if actor > 1 || mount >= 4096 || self.core.hold_of(actor).is_some() {
            return Ok(None);
        }
        let entered = self.core.door(actor).enter(mount, &want, 0)?;
        Ok(Some(entered))
    }

    fn store(&mut self, alloc: Global, actor: u32, part: ByteRange, count: u32) -> Option<bool> {
        let want = want_of(&self.table, &self.config, part)?;
        if actor > 1 || count == 0 || count > 65_536 {
            return None;
        }
        let hold = self.core.hold_of(actor)?;
        if hold.tag != want.key.pack()
            || hold.gap.end > want.len as u64
            || hold.gap.upto > hold.gap.end
        {
            return None;
        }
        let at = part.start - want.sub.start + hold.gap.upto;
        if count as u64 > hold.gap.end - hold.gap.upto || at + count as u64 > self.table.length(0) {
            return None;
        }
        let piece = fetch(alloc, &mut self.source, &self.table, 0, at, count).ok()?;
        Some(self.core.door(actor).store(&piece).is_ok())
    }

    fn fail(&mut self, actor: u32) -> bool {
        if actor > 1 {
            return false;
        }
        match self.core.hold_of(actor) {
            Some(hold) if hold.gap.upto < hold.gap.end => {
                self.core.door(actor).fail();
                true
            }
            _ => false,
        }
    }

    fn leave(&mut self, actor: u32) -> bool {
        if actor > 1 {
            return false;
        }
        match self.core.hold_of(actor) {
            Some(hold) if hold.gap.end <= hold.gap.upto => {
                self.core.door(actor).leave();
                true
            }
            _ => false,
        }
    }

    // The answer of a copy, and whether what was copied are the file's bytes from this place on.
    fn take(
        &mut self,
        alloc: Global,
        actor: u32,
        first: u64,
    ) -> Result<Option<(Taken, bool)>, AllocError> {
        if actor > 1 {
            return Ok(None);
        }
        let Some(hold) = self.core.hold_of(actor) else {
            return Ok(None);
        };
        if hold.gap.end > hold.gap.upto || hold.sub.start > hold.sub.end || hold.sub.end > 65_536 {
            return Ok(None);
        }
        let mut out = vec![in alloc; 9; (hold.sub.end - hold.sub.start) as usize]?;
        let taken = self.core.door(actor).take_bytes(&mut out);
        Ok(Some((taken, are_counted(&out, first))))
    }

    // The answer of a look by the first actor, and whether what was copied are the part's bytes.
    fn glance(
        &mut self,
        alloc: Global,
        region: u32,
        part: ByteRange,
    ) -> Result<Option<(Glance, bool)>, AllocError> {
        let Some(want) = want_of(&self.table, &self.config, part) else {
            return Ok(None);
        };
        if region >= self.config.regions || self.core.hold_of(0).is_some() {
            return Ok(None);
        }
        let mut out = vec![in alloc; 9; (want.sub.end - want.sub.start) as usize]?;
        let seen = self.core.door(0).glance(region, &want, &mut out);
        Ok(Some((seen, are_counted(&out, part.start))))
    }

    fn has_counts(&self, free: u32, leaving: u32, evictions: u64) -> bool {
        self.core.free_len() == free
            && self.core.leaving_len() == leaving
            && self.core.tally().evictions == evictions
    }

    // A call that is of no region.
    fn manage(&mut self, step: &Step) -> bool {
        let manifest = self.table.number();
        match step {
            Step::Decay { now } => self.core.door(0).decay(*now),
            Step::Clear => self.core.door(0).clear(manifest),
            Step::Live { mount } if *mount < 4096 => self.core.door(0).live(*mount),
            Step::Unmount { mount } if *mount < 4096 => self.core.door(0).unmount(*mount, manifest),
            _ => return false,
        }
        true
    }

    // Whether the call may be made and answers so.
    fn goes(&mut self, alloc: Global, step: &Step) -> Result<bool, AllocError> {
        match step {
            Step::Enter {
                actor,
                mount,
                part,
                answer,
            } => Ok(self.enter(*actor, *mount, *part)? == Some(*answer)),
            Step::Store {
                actor,
                part,
                count,
                answer,
            } => Ok(self.store(alloc, *actor, *part, *count) == Some(*answer)),
            Step::Fail { actor } => Ok(self.fail(*actor)),
            Step::Leave { actor } => Ok(self.leave(*actor)),
            Step::Take {
                actor,
                first,
                answer,
            } => match self.take(alloc, *actor, *first)? {
                Some((taken, counted)) => Ok(
                    taken == *answer && (counted || taken != Taken::Copied),
                ),
                None => Ok(false),
            },
            Step::Glance {
                region,
                part,
                answer,
            } => match self.glance(alloc, *region, *part)? {
                Some((seen, counted)) => Ok(seen == *answer && (counted || seen != Glance::Copied)),
                None => Ok(false),
            },
            Step::Counts {
                free,
                leaving,
                evictions,
            } => Ok(self.has_counts(*free, *leaving, *evictions)),
            _ => Ok(self.manage(step)),
        }
    }

    /// Makes the calls one after the other, up to the first that answers otherwise: its place, or None.
    pub fn first_other(
        &mut self,
        alloc: Global,
        steps: &[Step],
    ) -> Result<Option<usize>, AllocError> {
        for (place, step) in steps.iter().enumerate() {
            if !self.goes(alloc, step)? {
                return Ok(Some(place));
            }
        }
        Ok(None)
    }
}
