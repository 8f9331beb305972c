// Reading the entries of a term.
ghost use Rattle.std.specs.Prelude.{◌≡◌, ◌+◌, ◌<◌, ◌^◌, [], IsTrue, IfOk, IfErr, OnOk, map};
ghost use Rattle.directory_input.specs.Causes.{HasBytesCause};
ghost use Rattle.directory_input.specs.Windows.{FitsFile, window_bytes};
ghost use Rattle.text_lines.specs.Errors.{text_refusal};
ghost use Rattle.text_lines.specs.Lines.{cut};
ghost use Rattle.text_lines.specs.Readers.{FitsBytes, ReadsPieces};
ghost use Rattle.simpletext_postings.specs.Rows.{RiseWithin};
ghost use Rattle.simpletext_postings.specs.Terms.{IsOfBytes, posting_doc};
ghost use Rattle.simpletext_postings.specs.Entries.{IsEntryText, Rises, collected, listed, line_forms};

use crate::Posting;
use crate::collect::Collecting;
use crate::shape::shape_of;
use byte_text::Text;
use directory_input::{FileBytes, Input};
use std::alloc::Global;
use text_lines::{Line, LineReader, TextError};

/// The documents of the entries that an input has, which begins at the place `base` of the whole text.
pub fn read_entries<B: FileBytes>(
    alloc: Global,
    bytes: &mut B,
    input: Input,
    base: u64,
    docs: u32,
) -> Result<Vec<Posting>, TextError>
    requires fits { FitsFile (B.view bytes.old) input }
    requires start { input.position ≡ 0 }
    requires room { base + input.size < 2 ^ 64 }
    ensures documents { IsTrue (B.view bytes.old).tells
        → IfOk result (λ v. v.items ≡ listed (line_forms (cut (window_bytes (B.view bytes.old).bytes input)).lines)) }
    ensures never_bad { IsTrue (B.view bytes.old).tells
        → IsEntryText docs 0 (cut (window_bytes (B.view bytes.old).bytes input)) → IfErr result IsOfBytes }
    ensures rising { IfOk result (λ v. RiseWithin 0 docs (map posting_doc v.items)) }
    ensures pieces { ReadsPieces B.goes_by input bytes.old bytes.new }
    ensures cause { HasBytesCause (B.view bytes.old) (B.view bytes.new) (text_refusal result) }
{
    let mut reader = LineReader::new(alloc, input)?;
    let mut collecting = Collecting::new(alloc, docs);
    read_all(alloc, bytes, &mut reader, base, &mut collecting)?;
    Ok(collecting.finish()?)
}

/// Takes all lines of a reader that stands at the start of its input.
fn read_all<B: FileBytes>(
    alloc: Global,
    bytes: &mut B,
    reader: &mut LineReader,
    base: u64,
    collecting: &mut Collecting,
) -> Result<(), TextError>
    requires fits { FitsBytes (B.view bytes.old) reader.old }
    requires start { reader.old.input.position ≡ 0 }
    requires room { base + reader.old.input.size < 2 ^ 64 }
    requires rises { Rises collecting.old }
    requires least { collecting.old.least ≡ 0 }
    ensures documents { IsTrue (B.view bytes.old).tells → OnOk result (collected collecting.new []
        ≡ collected collecting.old (line_forms (cut (window_bytes (B.view bytes.old).bytes reader.old.input)).lines)) }
    ensures never_bad { IsTrue (B.view bytes.old).tells
        → IsEntryText collecting.old.docs 0 (cut (window_bytes (B.view bytes.old).bytes reader.old.input))
        → IfErr result IsOfBytes }
    ensures rising { OnOk result (Rises collecting.new) }
    ensures docs { OnOk result (collecting.new.docs ≡ collecting.old.docs) }
    ensures pieces { ReadsPieces B.goes_by reader.old.input bytes.old bytes.new }
    ensures cause { HasBytesCause (B.view bytes.old) (B.view bytes.new) (text_refusal result) }
{
    let mut line = Line {
        at: 0,
        content: Text::new(alloc),
    };
    loop {
        if let Some(content) = reader.near() {
            let at = reader.pos();
            let size = content.len() + 1;
            if !collecting.take(shape_of(content))? {
                return Err(TextError::Bad { at: base + at });
            }
            reader.pass(size);
        } else if reader.next_in(bytes, &mut line)? {
            if !collecting.take(shape_of(line.content.as_bytes()))? {
                return Err(TextError::Bad { at: base + line.at });
            }
        } else {
            break;
        }
    }
    Ok(())
}
