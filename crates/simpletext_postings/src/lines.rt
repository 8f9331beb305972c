// Reading the lines of a postings text into the terms of a dictionary.
ghost use Rattle.std.specs.Prelude.{◌≡◌, IsTrue, OnOk, [], map};
ghost use Rattle.directory_input.specs.Causes.{HasBytesCause};
ghost use Rattle.directory_input.specs.Windows.{window_bytes};
ghost use Rattle.text_lines.specs.Errors.{text_refusal};
ghost use Rattle.text_lines.specs.Readers.{FitsBytes, ReadsPieces};
ghost use Rattle.simpletext_postings.specs.Postings.{postings};
ghost use Rattle.simpletext_postings.specs.Terms.{Opens, terms_of};
ghost use Rattle.simpletext_postings.specs.Places.{ArePlaces, named};
ghost use Rattle.simpletext_postings.specs.Openings.{IsOpeningOf, IsKept, IsNamed, terms_read};

use crate::opening::Opening;
use byte_text::Text;
use directory_input::FileBytes;
use std::alloc::Global;
use text_lines::{Line, LineReader, TextError};

/// Reads all lines of a reader that stands at the start of its input.
pub fn read_lines<B: FileBytes>(
    alloc: Global,
    bytes: &mut B,
    reader: &mut LineReader,
    opening: &mut Opening,
) -> Result<(), TextError>
    requires fits { FitsBytes (B.view bytes.old) reader.old }
    requires start { reader.old.input.position ≡ 0 }
    requires of { IsOpeningOf [] opening.old }
    requires kept { IsKept [] 0 opening.old }
    requires none { opening.old.places.items ≡ [] }
    requires named { IsNamed opening.old }
    ensures rows { IsTrue (B.view bytes.old).tells
        → Opens result (postings (window_bytes (B.view bytes.old).bytes reader.old.input) opening.old.docs) }
    ensures terms { IsTrue (B.view bytes.old).tells
        → OnOk result (map (named opening.new.fields.items) (terms_read opening.new)
        ≡ terms_of (window_bytes (B.view bytes.old).bytes reader.old.input)) }
    ensures kept { OnOk result (ArePlaces reader.old.input.size opening.new.fields.items opening.new.names.items
        opening.new.places.items) }
    ensures pieces { ReadsPieces B.goes_by reader.old.input bytes.old bytes.new }
    ensures cause { HasBytesCause (B.view bytes.old) (B.view bytes.new) (text_refusal result) }
{
    let mut line = Line {
        at: 0,
        content: Text::new(alloc),
    };
    loop {
        if let Some(content) = reader.near() {
            let at = reader.pos();
            let size = content.len() + 1;
            if !opening.take(at, at + size as u64, content)? {
                return Err(TextError::Bad { at });
            }
            reader.pass(size);
        } else if reader.next_in(bytes, &mut line)? {
            if !opening.take(line.at, reader.pos(), line.content.as_bytes())? {
                return Err(TextError::Bad { at: line.at });
            }
        } else {
            break;
        }
    }
    if !opening.is_done() {
        return Err(TextError::Bad { at: reader.pos() });
    }
    Ok(())
}
