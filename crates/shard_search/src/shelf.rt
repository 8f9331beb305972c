// What a worker keeps of a mount from search to search.
ghost use Rattle.std.specs.Prelude.{◌≡◌, ◌<◌, ℕ, List, [], Some, IsSome, IsTrue, IfErr, OnOk, OnErr, is_some, length};
ghost use Rattle.std.specs.Option.{ForSome};
ghost use Rattle.directory_input.specs.Files.{FilesView, GoesOn};
ghost use Rattle.directory_input.specs.Causes.{HasBytesCause};
ghost use Rattle.mount_manifest.specs.declared.record.Segment.{Segment};
ghost use Rattle.simpletext_postings.specs.Postings.{postings};
ghost use Rattle.shard_search.specs.Hits.{in_file};
ghost use Rattle.shard_search.specs.Answers.{search_refusal, RefusesBy, NamesFile};
ghost use Rattle.shard_search.specs.Shelves.{kept_at, IsKept, ShelfFits, KeepsMore};

use crate::SearchError;
use crate::files::dictionary;
use directory_input::FileBytes;
use mount_manifest::Segment;
use simpletext_postings::Dictionary;
use std::alloc::{AllocError, Global};
use std::marker::Model;

/// What a worker keeps of a mount from search to search: the dictionary of each segment whose postings it has opened.
/// It belongs to one mount and one worker. Clauses see the list of its places, one a segment, each with what is kept
/// there; behind the last place nothing is.
#[derive(Drop)]
pub struct Shelf {
    places: Vec<Option<Dictionary>>,
}

impl Model for Shelf {
    ghost use Rattle.std.specs.Prelude.{List, Option};
    ghost use Rattle.simpletext_postings.specs.Terms.{TermTable};

    ghost Value = { List (Option TermTable) };

    ghost view = { λ s. s.places.items };
}

impl Shelf {
    /// Keeps nothing yet, so it belongs to any mount; takes no memory.
    pub fn new(alloc: Global) -> Shelf
        ensures empty { result ≡ [] }
        ensures fits { (files : FilesView) (segments : List Segment) → ShelfFits files segments result }
    {
        Shelf {
            places: Vec::new(alloc),
        }
    }

    /// Keeps the dictionary of this segment at the place of its number, where none is kept there yet; its postings file
    /// is read then. After a refusal that place keeps what it kept.
    pub(crate) fn keep<B: FileBytes>(
        &mut self,
        alloc: Global,
        bytes: &mut B,
        number: u32,
        segment: &Segment,
    ) -> Result<(), SearchError>
        requires file { segment.now.postings < (B.view bytes.old).count }
        requires kept { ForSome (kept_at self.old number) (IsKept (B.view bytes.old) segment.now) }
        ensures kept { OnOk result (IsSome (kept_at self.new number)) }
        ensures more { KeepsMore (B.view bytes.new) number segment.now self.old self.new }
        ensures same { OnErr result (kept_at self.new number ≡ kept_at self.old number) }
        ensures bad { IsTrue (B.view bytes.old).tells → IfErr result (λ e. RefusesBy e
            (in_file segment.now.postings
            (postings ((B.view bytes.old).bytes segment.now.postings) segment.now.docs))) }
        ensures known { (n : ℕ) → segment.now.postings < n → IfErr result (NamesFile n) }
        ensures goes { GoesOn B.goes_by bytes.old bytes.new }
        ensures cause { HasBytesCause (B.view bytes.old) (B.view bytes.new) (search_refusal result) }
    {
        reach(&mut self.places, number as usize)?;
        if self.has(number) {
            return Ok(());
        }
        match dictionary(alloc, bytes, segment) {
            Ok(dictionary) => {
                self.places[number as usize] = Some(dictionary);
                Ok(())
            }
            Err(e) => Err(e),
        }
    }

    /// Whether a dictionary is kept at this place.
    fn has(&self, number: u32) -> bool
        requires { number < length self.now }
        ensures { result ≡ is_some (kept_at self.now number) }
    {
        self.places[number as usize].is_some()
    }

    /// Lends the dictionary that is kept at this place.
    pub(crate) fn dictionary(&self, number: u32) -> &Dictionary
        requires { IsSome (kept_at self.now number) }
        ensures { kept_at self.now number ≡ Some result.now }
    {
        match &self.places[number as usize] {
            Some(dictionary) => dictionary,
            None => unreachable!(),
        }
    }
}

/// Makes places up to this one, which keep nothing.
fn reach(places: &mut Vec<Option<Dictionary>>, place: usize) -> Result<(), AllocError>
    requires { place < 4294967296 }
    ensures reached { OnOk result (place < length places.new.items) }
    ensures same { (i : ℕ) → kept_at places.new.items i ≡ kept_at places.old.items i }
{
    for _place in places.len()..place + 1 {
        places.push(None)?;
    }
    Ok(())
}

// A missing proof of `Send` shows here, and not first at the threads above.
fn crosses<T: Send>() {}

/// A shelf may be handed to another thread.
pub fn shelf_crosses() {
    crosses::<Shelf>();
}
