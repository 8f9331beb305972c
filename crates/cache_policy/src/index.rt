//! The keys by region, and the table that finds the region of a key.

ghost use Rattle.std.specs.Prelude.{◌≡◌, ◌<◌, ◌≤◌, ℕ, IsSome, None, Some, length, filter, is_some, slice_set};
ghost use Rattle.std.specs.List.{position_from};
ghost use Rattle.cache_policy.specs.Policy.{is_tag, is_of};
ghost use Rattle.cache_policy.specs.Keyed.{IsIndex, AreApart, tag_in};

use key_table::KeyTable;

// Gives a packed key that no region has to a region that has none.
pub fn give_key(tags: &mut Vec<Option<u64>>, keys: &mut KeyTable, region: u32, tag: u64)
    requires index { IsIndex keys.old tags.old.items }
    requires region { region < length tags.old.items }
    requires free { tag_in tags.old.items region ≡ None }
    requires new { position_from (is_tag tag) 0 tags.old.items ≡ None }
    ensures tags { tags.new.items ≡ slice_set tags.old.items region (Some tag) }
    ensures index { IsIndex keys.new tags.new.items }
{
    keys.insert(tag, region);
    tags[region as usize] = Some(tag);
}

// The region has no key from now on.
pub fn forget_key(tags: &mut Vec<Option<u64>>, keys: &mut KeyTable, region: u32)
    requires index { IsIndex keys.old tags.old.items }
    requires apart { AreApart tags.old.items }
    requires region { IsSome (tag_in tags.old.items region) }
    ensures tags { tags.new.items ≡ slice_set tags.old.items region None }
    ensures index { IsIndex keys.new tags.new.items }
{
    let Some(tag) = tags[region as usize] else {
        return
    };
    keys.remove(tag);
    tags[region as usize] = None;
}

// How many regions have a key.
pub fn mapped_len(tags: &[Option<u64>]) -> u32
    requires { length tags.now < 4294967296 }
    ensures { result ≡ length (filter is_some tags.now) }
{
    let mut mapped = 0;
    for entry in tags {
        if entry.is_some() {
            mapped += 1;
        }
    }
    mapped
}

// Whether this is a packed key of the manifest, whose number is all above the lowest 40 bits.
pub fn is_of(tag: Option<u64>, manifest: u32) -> bool
    ensures { result ≡ is_of manifest tag }
{
    match tag {
        Some(tag) => tag / 1_099_511_627_776 == manifest as u64,
        None => false,
    }
}
