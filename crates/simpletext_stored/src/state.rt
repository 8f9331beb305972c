// What the lines of a text of stored fields so far say of the next one.
ghost use Rattle.std.specs.Prelude.{◌≡◌, ℕ, List, [], Bool, true, false, IfOk, length};
ghost use Rattle.simpletext_stored.specs.Stored.{last, doc_count, is_allowed, is_start, is_between, is_field};
ghost use Rattle.simpletext_stored.specs.Stored.{is_name, is_type, is_end, is_checksum_line};
ghost use Rattle.simpletext_stored.specs.Steps.{IsStateOf, Step, is_over};
ghost use Rattle.simpletext_stored.specs.declared.form.Form.{Form};

use crate::form::{Form, form_of};
use crate::reading::LineTable;
use std::alloc::{AllocError, Global};

/// The last line, and where each document's `doc` line and the END line begin.
#[derive(Drop)]
pub struct State {
    pub last: Option<Form>,
    pub places: Vec<u64>,
}

fn is_start(last: Option<Form>) -> bool
    ensures { result ≡ is_start last }
{
    last.is_none()
}

/// Whether a document has begun, and no field of it has begun that is not whole.
pub fn is_between(last: Option<Form>) -> bool
    ensures { result ≡ is_between last }
{
    matches!(last, Some(Form::Doc(_) | Form::Value))
}

pub fn is_field(last: Option<Form>) -> bool
    ensures { result ≡ is_field last }
{
    matches!(last, Some(Form::Field))
}

pub fn is_name(last: Option<Form>) -> bool
    ensures { result ≡ is_name last }
{
    matches!(last, Some(Form::Name))
}

pub fn is_type(last: Option<Form>) -> bool
    ensures { result ≡ is_type last }
{
    matches!(last, Some(Form::OfType(_)))
}

fn is_end(last: Option<Form>) -> bool
    ensures { result ≡ is_end last }
{
    matches!(last, Some(Form::End))
}

fn is_checksum_line(last: Option<Form>) -> bool
    ensures { result ≡ is_checksum_line last }
{
    matches!(last, Some(Form::Checksum))
}

/// Whether a line may stand after the last one, where so many documents have begun.
fn may_stand(before: Option<Form>, count: usize, docs: u32, form: Form) -> bool
    ensures { (past : List Form) → before ≡ last past → (is_over before ≡ false → count ≡ doc_count past)
        → result ≡ is_allowed docs past form }
{
    match form {
        Form::Doc(number) => {
            (is_start(before) || is_between(before)) && number as usize == count && number < docs
        }
        Form::Field => is_between(before),
        Form::Name => is_field(before),
        Form::OfType(_) => is_name(before),
        Form::Value => is_type(before),
        Form::End => (is_start(before) || is_between(before)) && count == docs as usize,
        Form::Checksum => is_end(before),
        Form::Unknown => false,
    }
}

impl State {
    pub fn new(alloc: Global) -> State
        ensures state { (docs : ℕ) → IsStateOf docs [] result }
        ensures places { result.places.items ≡ [] }
    {
        State {
            last: None,
            places: Vec::new(alloc),
        }
    }

    /// Takes a line of a form that begins at the place `at`; false where it may not stand here.
    fn take(&mut self, docs: u32, at: u64, form: Form) -> Result<bool, AllocError>
        ensures { (past : List Form) → IsStateOf docs past self.old
            → IfOk result (Step docs past at form self.old self.new) }
    {
        if !may_stand(self.last, self.places.len(), docs, form) {
            return Ok(false);
        }
        if matches!(form, Form::Doc(_) | Form::End) {
            self.places.push(at)?;
        }
        self.last = Some(form);
        Ok(true)
    }
}

impl LineTable for State {
    ghost use Rattle.simpletext_stored.specs.Stored.{form_of, is_allowed, may_end};
    ghost use Rattle.simpletext_stored.specs.Steps.{HoldsPlaces};

    type Form = Form;

    ghost form = { form_of };

    ghost allows = { is_allowed };

    ghost ends = { may_end };

    ghost holds = { λ docs past kept at state. HoldsPlaces docs past kept at state };

    fn take_line(
        &mut self,
        _: Global,
        docs: u32,
        at: u64,
        content: &[u8],
    ) -> Result<bool, AllocError> {
        self.take(docs, at, form_of(content))
    }

    fn can_end(&self) -> bool {
        is_checksum_line(self.last)
    }
}
