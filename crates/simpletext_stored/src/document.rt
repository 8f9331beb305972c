// Reading the lines of one document.
ghost use Rattle.std.specs.Prelude.{◌≡◌, ℕ, List, [], ◌++◌, Bool, true, ◌∷◌, IsTrue, Ok, IfOk, IfErr, OnOk};
ghost use Rattle.directory_input.specs.Windows.{FitsFile, window_bytes};
ghost use Rattle.directory_input.specs.Causes.{HasBytesCause};
ghost use Rattle.text_lines.specs.Readers.{ReadsPieces};
ghost use Rattle.text_lines.specs.Errors.{text_refusal};
ghost use Rattle.simpletext_stored.specs.Answers.{Breaks};
ghost use Rattle.simpletext_stored.specs.Stored.{last, form_of};
ghost use Rattle.simpletext_stored.specs.Steps.{is_own, document_of};
ghost use Rattle.simpletext_stored.specs.Documents.{StepsOn};
ghost use Rattle.simpletext_stored.specs.declared.form.Form.{Form};
ghost use Rattle.simpletext_stored.specs.declared.field.Kind.{Kind};

use crate::form::{Form, form_of};
use crate::reading::{LineTable, read_lines};
use crate::state::{is_between, is_field, is_name, is_type};
use crate::words::behind;
use crate::{Kind, StoredField};
use byte_text::Text;
use directory_input::{FileBytes, Input};
use std::alloc::{AllocError, Global};
use text_lines::TextError;

/// The last line, the fields that are whole, and the name and the kind that were last read.
#[derive(Drop)]
pub struct Document {
    pub last: Option<Form>,
    pub fields: Vec<StoredField>,
    pub name: Text,
    pub kind: Kind,
}

/// Whether a line may stand after the last one of document `doc`.
fn may_stand(before: Option<Form>, doc: u32, form: Form) -> bool
    ensures { (past : List Form) → before ≡ last past → result ≡ is_own doc past form }
{
    match form {
        Form::Doc(number) => before.is_none() && number == doc,
        Form::Field => is_between(before),
        Form::Name => is_field(before),
        Form::OfType(_) => is_name(before),
        Form::Value => is_type(before),
        Form::End => false,
        Form::Checksum => false,
        Form::Unknown => false,
    }
}

impl Document {
    pub fn new(alloc: Global) -> Document
        ensures last { result.last ≡ None }
        ensures fields { result.fields.items ≡ [] }
        ensures name { result.name ≡ [] }
        ensures kind { result.kind ≡ Kind.Str }
    {
        Document {
            last: None,
            fields: Vec::new(alloc),
            name: Text::new(alloc),
            kind: Kind::Str,
        }
    }

    /// Ends a field with its value.
    fn end_field(&mut self, alloc: Global, value: &[u8]) -> Result<(), AllocError>
        ensures ok { OnOk result (self.new.fields.items
            ≡ self.old.fields.items ++ record { name = self.old.name; kind = self.old.kind; value = value.now } ∷ []) }
        ensures name { OnOk result (self.new.name ≡ self.old.name) }
        ensures kind { OnOk result (self.new.kind ≡ self.old.kind) }
    {
        let field = StoredField {
            name: Text::of(alloc, self.name.as_bytes())?,
            kind: self.kind,
            value: Text::of(alloc, value)?,
        };
        self.fields.push(field)?;
        Ok(())
    }

    /// Takes a line with this content; false where it may not stand here in document `doc`.
    fn take(&mut self, alloc: Global, doc: u32, content: &[u8]) -> Result<bool, AllocError>
        ensures { (past : List Form) → self.old.last ≡ last past
            → IfOk result (StepsOn doc past content.now self.old self.new) }
    {
        let form = form_of(content);
        if !may_stand(self.last, doc, form) {
            return Ok(false);
        }
        match form {
            Form::Name => self.name = Text::of(alloc, behind(content, 9))?,
            Form::OfType(kind) => self.kind = kind,
            Form::Value => self.end_field(alloc, behind(content, 10))?,
            _ => {}
        }
        self.last = Some(form);
        Ok(true)
    }
}

impl LineTable for Document {
    ghost use Rattle.simpletext_stored.specs.Stored.{form_of};
    ghost use Rattle.simpletext_stored.specs.Steps.{is_own, is_whole};
    ghost use Rattle.simpletext_stored.specs.Documents.{HoldsDocument};

    type Form = Form;

    ghost form = { form_of };

    ghost allows = { is_own };

    ghost ends = { is_whole };

    ghost holds = { λ doc past kept at document. HoldsDocument past kept document };

    fn take_line(
        &mut self,
        alloc: Global,
        doc: u32,
        _: u64,
        content: &[u8],
    ) -> Result<bool, AllocError> {
        self.take(alloc, doc, content)
    }

    fn can_end(&self) -> bool {
        is_between(self.last)
    }
}

/// Reads the lines of document `doc`, which are all of the input: its fields.
pub fn read_document<B: FileBytes>(
    alloc: Global,
    bytes: &mut B,
    input: Input,
    doc: u32,
) -> Result<Vec<StoredField>, TextError>
    requires fits { FitsFile (B.view bytes.old) input }
    requires start { input.position ≡ 0 }
    ensures fields { IsTrue (B.view bytes.old).tells
        → IfOk result (λ fields. document_of doc (window_bytes (B.view bytes.old).bytes input) ≡ Ok fields.items) }
    ensures refused { IsTrue (B.view bytes.old).tells
        → IfErr result (Breaks (document_of doc (window_bytes (B.view bytes.old).bytes input))) }
    ensures pieces { ReadsPieces B.goes_by input bytes.old bytes.new }
    ensures cause { HasBytesCause (B.view bytes.old) (B.view bytes.new) (text_refusal result) }
{
    let document = read_lines(alloc, bytes, input, doc, Document::new(alloc))?;
    Ok(document.fields)
}
