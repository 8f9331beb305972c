// Reading a text line by line, by the table of the lines that may stand in it.
ghost use Rattle.std.specs.Prelude.{◌≡◌, ℕ, List, [], Bool, IsTrue, IfOk, IfErr};
ghost use Rattle.directory_input.specs.Windows.{FitsFile, window_bytes};
ghost use Rattle.directory_input.specs.Causes.{HasBytesCause};
ghost use Rattle.text_lines.specs.Readers.{ReadsPieces};
ghost use Rattle.text_lines.specs.Errors.{text_refusal};
ghost use Rattle.simpletext_stored.specs.Reading.{Lines, Takes, Holds, lines_of};
ghost use Rattle.simpletext_stored.specs.Answers.{Breaks};

use byte_text::Text;
use directory_input::{FileBytes, Input};
use std::alloc::{AllocError, Global};
use text_lines::{Line, LineReader, TextError};

/// What is kept of the lines of a text. `number` is what the text has to agree with: the number of documents of the
/// segment, or that of the one document whose lines it has.
pub trait LineTable {
    /// What a line says.
    type Form;

    /// The form of a line, by its content.
    ghost form: { List ℕ → Self.Form };

    /// Whether a line of a form may stand behind these, the newest first.
    ghost allows: { ℕ → List Self.Form → Self.Form → Bool };

    /// Whether a text may end behind these.
    ghost ends: { List Self.Form → Bool };

    /// These lines were taken, and the next one begins at this place.
    ghost holds: { ℕ → List Self.Form → Lines Self.Form → ℕ → Self → Type 0 };

    /// Takes a line that begins at the place `at`; false where it may not stand here.
    fn take_line(
        &mut self,
        alloc: Global,
        number: u32,
        at: u64,
        content: &[u8],
    ) -> Result<bool, AllocError>
        requires { (past : List Self.Form) × (kept : Lines Self.Form) × holds number past kept at self.old }
        ensures { (past : List Self.Form) (kept : Lines Self.Form) → holds number past kept at self.old
            → IfOk result (Takes form (allows number) (holds number) past kept at content.now self.new) };

    /// Whether the text may end here.
    fn can_end(&self) -> bool
        ensures { (number : ℕ) (past : List Self.Form) (kept : Lines Self.Form) (at : ℕ)
            → holds number past kept at self.now → result ≡ ends past };
}

/// Reads all lines of the input into a table that holds none. `Bad` has the place of the first line that may not stand
/// behind those before it; where a line is needed and none follows, that is the input's length.
pub fn read_lines<B: FileBytes, T: LineTable + Drop>(
    alloc: Global,
    bytes: &mut B,
    input: Input,
    number: u32,
    mut table: T,
) -> Result<T, TextError>
    requires fits { FitsFile (B.view bytes.old) input }
    requires start { input.position ≡ 0 }
    requires empty { T.holds number [] [] 0 table }
    ensures lines { IfOk result (Holds T.ends (T.holds number) (B.view bytes.old).tells
        (lines_of T.form (T.allows number) T.ends (window_bytes (B.view bytes.old).bytes input)) input.size) }
    ensures refused { IsTrue (B.view bytes.old).tells → IfErr result (Breaks
        (lines_of T.form (T.allows number) T.ends (window_bytes (B.view bytes.old).bytes input))) }
    ensures pieces { ReadsPieces B.goes_by input bytes.old bytes.new }
    ensures cause { HasBytesCause (B.view bytes.old) (B.view bytes.new) (text_refusal result) }
{
    let mut reader = LineReader::new(alloc, input)?;
    let mut line = Line {
        at: 0,
        content: Text::new(alloc),
    };
    'lines: loop {
        match reader.next_in(bytes, &mut line) {
            Ok(true) => {}
            Ok(false) => break 'lines,
            Err(e) => return Err(TextError::from(e)),
        }
        if !table.take_line(alloc, number, line.at, line.content.as_bytes())? {
            return Err(TextError::Bad { at: line.at });
        }
    }
    if table.can_end() {
        Ok(table)
    } else {
        Err(TextError::Bad { at: reader.pos() })
    }
}
