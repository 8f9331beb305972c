// Searching the segments of a shard.
ghost use Rattle.std.specs.Prelude.{◌≡◌, ◌<◌, ◌≤◌, ◌-◌, ◌++◌, ℕ, List, Bool, map, take, min, length, IsTrue};
ghost use Rattle.std.specs.Prelude.{IfOk, IfErr, OnOk, All};
ghost use Rattle.doc_bits.specs.Places.{places_of};
ghost use Rattle.directory_input.specs.Files.{GoesOn};
ghost use Rattle.directory_input.specs.Causes.{HasBytesCause};
ghost use Rattle.query_lang.specs.Trees.{tree_of};
ghost use Rattle.shard_search.specs.Hits.{hits};
ghost use Rattle.shard_search.specs.Answers.{search_refusal, GivesHits, IsHitOf, NamesFile, hit};
ghost use Rattle.shard_search.specs.Shelves.{ShelfFits, StillKept};

use crate::files::found_in;
use crate::{Hit, HitList, Hits, SearchError, Shelf};
use directory_input::FileBytes;
use doc_bits::DocBits;
use mount_manifest::Manifest;
use query_lang::Query;
use std::alloc::{AllocError, Global};

/// Puts the documents of a set behind the list, as far as that has fewer than `size` hits.
fn show(list: &mut HitList, segment: u32, set: &DocBits, size: usize) -> Result<(), AllocError>
    requires { length list.old ≤ size }
    ensures { OnOk result (list.new
        ≡ list.old ++ take (size - length list.old) (map (hit segment) (places_of set.now))) }
{
    for doc in set.iter() {
        if list.len() >= size {
            return Ok(());
        }
        list.push(Hit { segment, doc })?;
    }
    Ok(())
}

/// The live documents of a shard that a query matches: how many, and the first `size` of them in the order of segments
/// and, in each, of documents. Every segment is looked at, whatever the size; in each the postings are read before the
/// live documents, and `Bad` comes exactly with the first file in that order that has a line that is not allowed, and
/// the place of its first such line.
///
/// The shelf is one that belongs to this mount, and does so afterwards. It keeps the dictionary of each segment whose
/// postings were opened, and the answer is the same with every shelf that belongs to the mount. Where there is no
/// memory for one place more, the answer is want of memory; after any refusal the shelf keeps what it kept, and perhaps
/// further dictionaries. The condition is that the bytes are those of the manifest's files.
pub fn search<B: FileBytes>(
    alloc: Global,
    bytes: &mut B,
    shelf: &mut Shelf,
    shard: &Manifest,
    query: &Query,
    size: u32,
) -> Result<Hits, SearchError>
    requires files { length shard.now.files ≤ (B.view bytes.old).count }
    requires shelf { ShelfFits (B.view bytes.old) shard.now.segments shelf.old }
    ensures hits { IsTrue (B.view bytes.old).tells
        → GivesHits result size (hits (B.view bytes.old).bytes (tree_of query.now) shard.now.segments) }
    ensures shown { IfOk result (λ h. length h.list ≡ min size h.total) }
    ensures within { IfOk result (λ h. All (IsHitOf shard.now.segments) h.list) }
    ensures known { IfErr result (NamesFile (length shard.now.files)) }
    ensures shelf { ShelfFits (B.view bytes.new) shard.now.segments shelf.new }
    ensures kept { StillKept shelf.old shelf.new }
    ensures goes { GoesOn B.goes_by bytes.old bytes.new }
    ensures cause { HasBytesCause (B.view bytes.old) (B.view bytes.new) (search_refusal result) }
{
    let mut total = 0;
    let mut list = HitList::new(alloc);
    for number in 0..shard.segments_len() {
        let segment = shard.segment(number);
        let found = match found_in(alloc, bytes, shelf, number, segment, query) {
            Ok(found) => found,
            Err(e) => return Err(e),
        };
        show(&mut list, number, &found, size as usize)?;
        total += u64::from(found.count());
    }
    Ok(Hits { total, list })
}
