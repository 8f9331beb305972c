// A dictionary: the terms of a postings text, and where the text has their entries.
ghost use Rattle.std.specs.Prelude.{◌≡◌, ◌≤◌, ◌-◌, List, [], IsTrue, IfOk, IfErr, IfSome, IsOkAnd, OnOk, map, option_map};
ghost use Rattle.std.specs.Prelude.{Ok, None};
ghost use Rattle.directory_input.specs.Files.{FilesView};
ghost use Rattle.directory_input.specs.Causes.{HasBytesCause};
ghost use Rattle.directory_input.specs.Windows.{FitsFile, moved_to, part_of, window_bytes};
ghost use Rattle.text_lines.specs.Errors.{text_refusal};
ghost use Rattle.text_lines.specs.Readers.{ReadsPieces};
ghost use Rattle.simpletext_postings.specs.Postings.{postings};
ghost use Rattle.simpletext_postings.specs.Rows.{RiseWithin};
ghost use Rattle.simpletext_postings.specs.Places.{IsExact};
ghost use Rattle.simpletext_postings.specs.Terms.{TermTable, FitsText, Opens, IsOfBytes, ReadsEntries};
ghost use Rattle.simpletext_postings.specs.Terms.{entry_of, entry_places, postings_with, posting_doc};
ghost use Rattle.simpletext_postings.specs.declared.rows.Row.{Row};

use crate::Posting;
use crate::entries::read_entries;
use crate::lines::read_lines;
use crate::opening::Opening;
use crate::places::{Place, find_place};
use byte_text::Text;
use directory_input::{FileBytes, Input};
use std::alloc::{AllocError, Global};
use std::marker::Model;
use text_lines::{LineReader, TextError};

/// The terms of a postings text, after Lucene SimpleText, each with the places between which the text has its entries.
/// It keeps no postings, so its size is that of the terms: 32 bytes for each, and their own bytes in one block; neither
/// block has room for more. A look-up searches the terms by halves. Clauses see the number of documents, the input and
/// the list of terms.
#[derive(Drop)]
pub struct Dictionary {
    alloc: Global,
    docs: u32,
    input: Input,
    fields: Vec<Text>,
    /// The bytes of the terms, one behind the other.
    names: Vec<u8>,
    places: Vec<Place>,
}

impl Model for Dictionary {
    ghost use Rattle.std.specs.Prelude.{map};
    ghost use Rattle.simpletext_postings.specs.Terms.{TermTable};
    ghost use Rattle.simpletext_postings.specs.Places.{named, numbered, ArePlaces, IsExact};

    ghost Value = { TermTable };

    ghost view = { λ d.
        record {
          docs = d.docs;
          input = d.input;
          terms = map (named d.fields.items) (map (numbered d.names.items) d.places.items);
        } };

    // the last two say that the blocks of the terms have no room for more
    ghost invariant = { λ d. ArePlaces d.input.size d.fields.items d.names.items d.places.items
        × IsExact d.names × IsExact d.places };
}

impl Dictionary {
    /// Reads a postings text once, through the input from its start on, for a segment of `docs` documents. `Bad` comes
    /// exactly where a line is not allowed after those before it, has more than 16,777,216 bytes, or is cut off by the
    /// end of the text, with the place where the first such line begins; and where a line is missing at the end, with
    /// the length of the text.
    pub fn open<B: FileBytes>(
        alloc: Global,
        bytes: &mut B,
        input: Input,
        docs: u32,
    ) -> Result<Dictionary, TextError>
        requires { FitsFile (B.view bytes.old) input }
        ensures docs { IfOk result (λ d. d.docs ≡ docs) }
        ensures input { IfOk result (λ d. d.input ≡ moved_to 0 input) }
        ensures rows { IsTrue (B.view bytes.old).tells
            → Opens result (postings (window_bytes (B.view bytes.old).bytes input) docs) }
        ensures fits { IfOk result (FitsText (B.view bytes.new)) }
        ensures pieces { ReadsPieces B.goes_by input bytes.old bytes.new }
        ensures cause { HasBytesCause (B.view bytes.old) (B.view bytes.new) (text_refusal result) }
    {
        let mut reader = LineReader::new(alloc, whole(&input))?;
        let mut opening = Opening::new(alloc, docs);
        read_lines(alloc, bytes, &mut reader, &mut opening)?;
        fit(&mut opening.names)?;
        fit(&mut opening.places)?;
        Ok(Dictionary {
            alloc,
            docs,
            input: whole(&input),
            fields: opening.fields,
            names: opening.names,
            places: opening.places,
        })
    }

    /// The documents that have this term in this field, in order, with their positions: those of the text's rows of the
    /// field and the term. They rise and are below the number of documents. The lines of the term's entries alone are
    /// read. A field or a term that the text does not have gives an empty list, and no read. `Bad` comes only where the
    /// bytes are not told, and are not those that were there at opening.
    pub fn postings<B: FileBytes>(
        &self,
        bytes: &mut B,
        field: &[u8],
        term: &[u8],
    ) -> Result<Vec<Posting>, TextError>
        requires { FitsText (B.view bytes.old) self.now }
        ensures documents { IsTrue (B.view bytes.old).tells → (rows : List Row)
            → postings (window_bytes (B.view bytes.old).bytes self.now.input) self.now.docs ≡ Ok rows
            → IfOk result (λ v. v.items ≡ postings_with field.now term.now rows) }
        ensures never_bad { IsTrue (B.view bytes.old).tells → IfErr result IsOfBytes }
        ensures rising { IfOk result (λ v. RiseWithin 0 self.now.docs (map posting_doc v.items)) }
        ensures unknown { entry_of field.now term.now self.now.terms ≡ None → IsOkAnd result (λ v. v.items ≡ []) }
        ensures reads { ReadsEntries B.goes_by self.now.input (entry_of field.now term.now self.now.terms)
            bytes.old bytes.new }
        ensures fits { FitsText (B.view bytes.new) self.now }
        ensures cause { HasBytesCause (B.view bytes.old) (B.view bytes.new) (text_refusal result) }
    {
        match self.find(field, term) {
            Some((from, to)) => {
                let part = part_between(&self.input, from, to);
                read_entries(self.alloc, bytes, part, from, self.docs)
            }
            None => Ok(Vec::new(self.alloc)),
        }
    }

    /// The entry of a field and a term: the places between which its entries stand.
    fn find(&self, field: &[u8], term: &[u8]) -> Option<(u64, u64)>
        ensures found { result ≡ option_map entry_places (entry_of field.now term.now self.now.terms) }
        ensures inside { IfSome result (λ p. (p.0 ≤ p.1) × (p.1 ≤ self.now.input.size)) }
    {
        find_place(
            self.input.len(),
            &self.fields,
            &self.names,
            &self.places,
            field,
            term,
        )
    }
}

/// Gives back the room past the last element; want of memory where there is none for the smaller block.
fn fit<T>(items: &mut Vec<T>) -> Result<(), AllocError>
    ensures items { items.new.items ≡ items.old.items }
    ensures exact { OnOk result (IsExact items.new) }
{
    items.shrink_to_fit();
    if items.capacity() > items.len() {
        return Err(AllocError);
    }
    Ok(())
}

/// The same input, at its start.
fn whole(input: &Input) -> Input
    ensures { result ≡ moved_to 0 input.now }
{
    match input.slice(0, input.len()) {
        Ok(whole) => whole,
        Err(_) => unreachable!(),
    }
}

/// The part of an input between two places, as an input of its own.
fn part_between(input: &Input, from: u64, to: u64) -> Input
    requires order { from ≤ to }
    requires inside { to ≤ input.now.size }
    ensures part { result ≡ part_of input.now from (to - from) }
    ensures fits { (files : FilesView) → FitsFile files input.now → FitsFile files result }
{
    match input.slice(from, to - from) {
        Ok(part) => part,
        Err(_) => unreachable!(),
    }
}
