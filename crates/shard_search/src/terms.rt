// The documents of a term.
ghost use Rattle.std.specs.Prelude.{◌≡◌, ℕ, List, map, length, IsTrue, IfOk, IfErr};
ghost use Rattle.directory_input.specs.Files.{GoesOn};
ghost use Rattle.directory_input.specs.Causes.{HasBytesCause};
ghost use Rattle.text_lines.specs.Errors.{text_refusal};
ghost use Rattle.simpletext_postings.specs.Rows.{RiseWithin, has_row};
ghost use Rattle.simpletext_postings.specs.Terms.{FitsText, IsOfBytes, posting_doc};
ghost use Rattle.simpletext_postings.specs.declared.rows.Row.{Row};
ghost use Rattle.shard_search.specs.Sets.{each_of, has_posting, AreRowsOf};

use directory_input::FileBytes;
use doc_bits::DocBits;
use simpletext_postings::{Dictionary, Posting};
use std::alloc::{AllocError, Global};
use text_lines::TextError;

/// The set of the documents of these postings, of `docs` documents.
fn docs_of(alloc: Global, docs: u32, postings: &[Posting]) -> Result<DocBits, AllocError>
    requires { RiseWithin 0 docs (map posting_doc postings.now) }
    ensures { IfOk result (λ bits. bits ≡ each_of (has_posting postings.now) docs) }
{
    let mut bits = DocBits::zeros(alloc, docs)?;
    for posting in postings {
        bits.set(posting.doc);
    }
    Ok(bits)
}

/// The set of the documents that have this term in this field, of the `docs` documents of a dictionary.
pub(crate) fn docs_with<B: FileBytes>(
    alloc: Global,
    bytes: &mut B,
    dictionary: &Dictionary,
    docs: u32,
    field: &[u8],
    term: &[u8],
) -> Result<DocBits, TextError>
    requires docs { docs ≡ dictionary.now.docs }
    requires fits { FitsText (B.view bytes.old) dictionary.now }
    ensures documents { IsTrue (B.view bytes.old).tells → (rows : List Row)
        → AreRowsOf (B.view bytes.old).bytes dictionary.now rows
        → IfOk result (λ bits. bits ≡ each_of (has_row field.now term.now rows) docs) }
    ensures never_bad { IsTrue (B.view bytes.old).tells → IfErr result IsOfBytes }
    ensures length { IfOk result (λ bits. length bits ≡ docs) }
    ensures goes { GoesOn B.goes_by bytes.old bytes.new }
    ensures cause { HasBytesCause (B.view bytes.old) (B.view bytes.new) (text_refusal result) }
{
    let postings = match dictionary.postings(bytes, field, term) {
        Ok(postings) => postings,
        Err(e) => return Err(e),
    };
    Ok(docs_of(alloc, docs, postings.as_slice())?)
}
