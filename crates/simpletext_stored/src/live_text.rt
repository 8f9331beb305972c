// Reading a text of live documents.
ghost use Rattle.std.specs.Prelude.{◌≡◌, ℕ, List, Bool, IsTrue, IfOk, length};
ghost use Rattle.directory_input.specs.Windows.{FitsFile, window_bytes};
ghost use Rattle.directory_input.specs.Causes.{HasBytesCause};
ghost use Rattle.text_lines.specs.Readers.{ReadsPieces};
ghost use Rattle.text_lines.specs.Errors.{text_refusal};
ghost use Rattle.simpletext_stored.specs.Live.{live};
ghost use Rattle.simpletext_stored.specs.Answers.{GivesLive};
ghost use Rattle.simpletext_stored.specs.Listing.{IsDocWithin, with_doc};

use crate::index::whole;
use crate::live_form::{LiveForm, form_of};
use crate::live_state::{LiveState, is_checksum_line};
use crate::reading::{LineTable, read_lines};
use directory_input::{FileBytes, Input};
use doc_bits::DocBits;
use std::alloc::{AllocError, Global};
use text_lines::TextError;

/// Puts the document of a `doc` line into the set.
fn list(bits: &mut DocBits, form: LiveForm)
    requires { IsDocWithin (length bits.old) form }
    ensures { bits.new ≡ with_doc form bits.old }
{
    if let LiveForm::Doc(number) = form {
        bits.set(number);
    }
}

/// What the lines so far say of the next one, and the documents that they list.
#[derive(Drop)]
struct LiveList {
    state: LiveState,
    bits: DocBits,
}

impl LineTable for LiveList {
    ghost use Rattle.simpletext_stored.specs.Live.{form_of, is_allowed, may_end};
    ghost use Rattle.simpletext_stored.specs.Listing.{HoldsLive};

    type Form = LiveForm;

    ghost form = { form_of };

    ghost allows = { is_allowed };

    ghost ends = { may_end };

    ghost holds = { λ docs past kept at list. HoldsLive docs past kept list.state list.bits };

    fn take_line(
        &mut self,
        _: Global,
        docs: u32,
        _: u64,
        content: &[u8],
    ) -> Result<bool, AllocError> {
        let form = form_of(content);
        if !self.state.take(docs, form) {
            return Ok(false);
        }
        list(&mut self.bits, form);
        Ok(true)
    }

    fn can_end(&self) -> bool {
        is_checksum_line(self.state.last)
    }
}

/// Reads a whole text of live documents.
fn read_live<B: FileBytes>(
    alloc: Global,
    bytes: &mut B,
    input: Input,
    docs: u32,
) -> Result<DocBits, TextError>
    requires fits { FitsFile (B.view bytes.old) input }
    requires start { input.position ≡ 0 }
    ensures documents { IsTrue (B.view bytes.old).tells
        → GivesLive result (live (window_bytes (B.view bytes.old).bytes input) docs) }
    ensures length { IfOk result (λ bits. length bits ≡ docs) }
    ensures pieces { ReadsPieces B.goes_by input bytes.old bytes.new }
    ensures cause { HasBytesCause (B.view bytes.old) (B.view bytes.new) (text_refusal result) }
{
    let empty = LiveList {
        state: LiveState::new(),
        bits: DocBits::zeros(alloc, docs)?,
    };
    let whole = read_lines(alloc, bytes, input, docs, empty)?;
    Ok(whole.bits)
}

/// The live documents of a segment of `docs` documents, from the whole text of the input, read in one pass: those that
/// have a line. `Bad` comes exactly where the text has a line that is not allowed, at the first such line, by the same
/// rules as for stored fields.
pub fn live<B: FileBytes>(
    alloc: Global,
    bytes: &mut B,
    input: Input,
    docs: u32,
) -> Result<DocBits, TextError>
    requires { FitsFile (B.view bytes.old) input }
    ensures documents { IsTrue (B.view bytes.old).tells
        → GivesLive result (live (window_bytes (B.view bytes.old).bytes input) docs) }
    ensures length { IfOk result (λ bits. length bits ≡ docs) }
    ensures pieces { ReadsPieces B.goes_by input bytes.old bytes.new }
    ensures cause { HasBytesCause (B.view bytes.old) (B.view bytes.new) (text_refusal result) }
{
    let bits = read_live(alloc, bytes, whole(&input), docs)?;
    Ok(bits)
}
