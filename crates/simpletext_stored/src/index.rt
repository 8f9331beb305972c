// An index of a text of stored fields.
ghost use Rattle.std.specs.Prelude.{◌≡◌, ◌≤◌, ◌+◌, ℕ, List, Bool, IsTrue, Ok, IfOk, IfErr};
ghost use Rattle.directory_input.specs.Windows.{FitsFile, window_bytes, part_of, moved_to};
ghost use Rattle.directory_input.specs.Causes.{HasBytesCause};
ghost use Rattle.text_lines.specs.Readers.{ReadsPieces};
ghost use Rattle.text_lines.specs.Errors.{text_refusal};
ghost use Rattle.simpletext_stored.specs.Stored.{stored, stored_lines, stored_places};
ghost use Rattle.simpletext_stored.specs.Steps.{IsIndexed};
ghost use Rattle.simpletext_stored.specs.Answers.{FitsStored, Opens, Breaks, HasDocument, IsNotBad};
ghost use Rattle.simpletext_stored.specs.Answers.{KnowsDocs, lines_of_document, stored_refusal};

use crate::document::read_document;
use crate::reading::read_lines;
use crate::state::State;
use crate::{StoredError, StoredField};
use directory_input::{FileBytes, Input};
use std::alloc::Global;
use std::marker::Model;
use text_lines::TextError;

/// The bytes from the place `at` on, of which the input has so many.
fn part(input: &Input, at: u64, len: u64) -> Input
    requires { at + len ≤ input.now.size }
    ensures { result ≡ part_of input.now at len }
{
    match input.slice(at, len) {
        Ok(part) => part,
        Err(_) => unreachable!(),
    }
}

/// All bytes of the input.
pub fn whole(input: &Input) -> Input
    ensures { result ≡ moved_to 0 input.now }
{
    part(input, 0, input.len())
}

/// Reads a whole text of stored fields of `docs` documents: where each document's `doc` line begins, and the END line
/// behind them.
fn read_places<B: FileBytes>(
    alloc: Global,
    bytes: &mut B,
    input: Input,
    docs: u32,
) -> Result<Vec<u64>, TextError>
    requires fits { FitsFile (B.view bytes.old) input }
    requires start { input.position ≡ 0 }
    ensures places { IsTrue (B.view bytes.old).tells
        → IfOk result (λ places. stored_places (window_bytes (B.view bytes.old).bytes input) docs ≡ Ok places.items) }
    ensures refused { IsTrue (B.view bytes.old).tells
        → IfErr result (Breaks (stored_lines (window_bytes (B.view bytes.old).bytes input) docs)) }
    ensures indexed { IfOk result (λ places. IsIndexed input docs places.items) }
    ensures pieces { ReadsPieces B.goes_by input bytes.old bytes.new }
    ensures cause { HasBytesCause (B.view bytes.old) (B.view bytes.new) (text_refusal result) }
{
    let state = read_lines(alloc, bytes, input, docs, State::new(alloc))?;
    Ok(state.places)
}

/// Where the lines of each document stand in a text of stored fields, after Lucene SimpleText. It keeps one number a
/// document, and none of the text's bytes: each fetch is given what has the bytes, which are those at opening.
#[derive(Drop)]
pub struct StoredIndex {
    alloc: Global,
    input: Input,
    docs: u32,
    // where each document's `doc` line begins, and the END line behind them
    places: Vec<u64>,
}

impl Model for StoredIndex {
    ghost use Rattle.simpletext_stored.specs.Answers.{StoredPlaces};
    ghost use Rattle.simpletext_stored.specs.Steps.{IsIndexed};

    ghost Value = { StoredPlaces };

    ghost view = { λ i. record { input = i.input; docs = i.docs; places = i.places.items } };

    ghost invariant = { λ i. IsIndexed i.input i.docs i.places.items };
}

impl StoredIndex {
    /// Reads the whole text of the input, in one pass, for a segment of `docs` documents. `Bad` comes exactly where the
    /// text has a line that is not allowed, at the first such line; a line that the text's end cuts off, one of more
    /// than 16,777,216 bytes and one behind the checksum line are not allowed, and where a line is needed and none
    /// follows, the place is the text's length.
    pub fn open<B: FileBytes>(
        alloc: Global,
        bytes: &mut B,
        input: Input,
        docs: u32,
    ) -> Result<StoredIndex, TextError>
        requires { FitsFile (B.view bytes.old) input }
        ensures documents { IsTrue (B.view bytes.old).tells
            → Opens result (stored (window_bytes (B.view bytes.old).bytes input) docs) }
        ensures docs { IfOk result (λ index. index.docs ≡ docs) }
        ensures input { IfOk result (λ index. index.input ≡ input) }
        ensures fits { IfOk result (FitsStored (B.view bytes.new)) }
        ensures pieces { ReadsPieces B.goes_by input bytes.old bytes.new }
        ensures cause { HasBytesCause (B.view bytes.old) (B.view bytes.new) (text_refusal result) }
    {
        let places = read_places(alloc, bytes, whole(&input), docs)?;
        Ok(StoredIndex {
            alloc,
            input,
            docs,
            places,
        })
    }

    /// The fields of the document of this number, in order. It reads that document's lines alone. `NoDoc` comes exactly
    /// where the number is not below the number of documents, and `Bad` only where the bytes are no longer those at
    /// opening, never where they are told.
    pub fn fetch<B: FileBytes>(
        &self,
        bytes: &mut B,
        doc: u32,
    ) -> Result<Vec<StoredField>, StoredError>
        requires { FitsStored (B.view bytes.old) self.now }
        ensures fields { IsTrue (B.view bytes.old).tells → IfOk result (λ fields. HasDocument
            (stored (window_bytes (B.view bytes.old).bytes self.now.input) self.now.docs) doc fields.items) }
        ensures never_bad { IsTrue (B.view bytes.old).tells → IfErr result IsNotBad }
        ensures no_doc { KnowsDocs result self.now.docs doc }
        ensures fits { FitsStored (B.view bytes.new) self.now }
        ensures pieces { ReadsPieces B.goes_by (lines_of_document self.now doc) bytes.old bytes.new }
        ensures cause { HasBytesCause (B.view bytes.old) (B.view bytes.new) (stored_refusal result) }
    {
        if doc >= self.docs {
            return Err(StoredError::NoDoc { doc });
        }
        let from = self.places[doc as usize];
        let till = self.places[doc as usize + 1];
        let lines = part(&self.input, from, till - from);
        match read_document(self.alloc, bytes, lines, doc) {
            Ok(fields) => Ok(fields),
            Err(TextError::Bad { at }) => Err(StoredError::Bad {
                at: from.saturating_add(at),
            }),
            Err(TextError::Bytes(e)) => Err(StoredError::Bytes(e)),
        }
    }
}
