// Opening a dictionary: the lines of a postings text, one by one.
ghost use Rattle.std.specs.Prelude.{◌≡◌, ◌∷◌, [], ◌++◌, ℕ, List, IfOk, OnOk, length, drop, IsTrue, ◌≤◌};
ghost use Rattle.std.specs.List.{list_any};
ghost use Rattle.std.specs.Str.{bytes_eq};
ghost use Rattle.simpletext_postings.specs.Postings.{is_term_above, form_of, at_checksum};
ghost use Rattle.simpletext_postings.specs.Openings.{IsOpeningOf, IsKept, IsNamed, Takes, Closes, term_read, place_term};
ghost use Rattle.simpletext_postings.specs.Forms.{Form};
ghost use Rattle.simpletext_postings.specs.Forms as form;

use crate::places::{Place, narrow, push_bytes};
use crate::shape::{Shape, behind_mark, shape_of};
use crate::table::TableState;
use byte_text::Text;
use std::alloc::{AllocError, Global};
use std::cmp::Ordering;

/// The terms of the lines so far.
#[derive(Drop)]
pub struct Opening {
    alloc: Global,
    docs: u32,
    pub fields: Vec<Text>,
    /// The bytes of the terms, one behind the other.
    pub names: Vec<u8>,
    /// The terms whose entries have ended.
    pub places: Vec<Place>,
    /// The number of the last field.
    field: u32,
    /// Its last term, whose entries may go on.
    term: Option<Place>,
    state: TableState,
}

fn has_name(fields: &[Text], name: &[u8]) -> bool
    ensures { result ≡ list_any (bytes_eq name.now) fields.now }
{
    for field in fields {
        if name == field.as_bytes() {
            return true;
        }
    }
    false
}

impl Opening {
    /// Before the first line, for a segment of `docs` documents.
    pub fn new(alloc: Global, docs: u32) -> Opening
        ensures of { IsOpeningOf [] result }
        ensures kept { IsKept [] 0 result }
        ensures docs { result.docs ≡ docs }
        ensures places { result.places.items ≡ [] }
        ensures named { IsNamed result }
    {
        Opening {
            alloc,
            docs,
            fields: Vec::new(alloc),
            names: Vec::new(alloc),
            places: Vec::new(alloc),
            field: 0,
            term: None,
            state: TableState::new(),
        }
    }

    fn is_term_above(&self, name: &[u8]) -> bool
        requires { IsNamed self.now }
        ensures { result ≡ is_term_above (place_term (term_read self.now)) name.now }
    {
        match self.term {
            None => true,
            Some(place) => matches!(place.name(&self.names).cmp(name), Ordering::Less),
        }
    }

    /// The entries of the last term end here.
    fn close(&mut self, at: u64) -> Result<(), AllocError>
        requires { IsNamed self.old }
        ensures closes { OnOk result (Closes at self.old self.new) }
        ensures named { OnOk result (IsNamed self.new) }
    {
        if let Some(mut term) = self.term.take() {
            term.to = at;
            self.places.push(term)?;
        }
        Ok(())
    }

    /// The number of the next field.
    fn next_field(&self) -> Result<u32, AllocError>
        ensures { IfOk result (λ n. n ≡ length self.now.fields.items) }
    {
        narrow(self.fields.len())
    }

    /// A term of the last field, whose bytes come behind the names and whose entries begin at `from`.
    fn place_behind(&self, from: u64, name: &[u8]) -> Result<Place, AllocError>
        ensures { IfOk result (λ p. p ≡ record {
          from = from;
          to = from;
          start = length self.now.names.items;
          length = length name.now;
          field = self.now.field;
        }) }
    {
        let length = narrow(name.len())?;
        Ok(Place {
            from,
            to: from,
            start: self.names.len(),
            length,
            field: self.field,
        })
    }

    fn begin_field(&mut self, at: u64, behind: u64, name: &[u8]) -> Result<bool, AllocError>
        requires named { IsNamed self.old }
        ensures docs { OnOk result (self.new.docs ≡ self.old.docs) }
        ensures named { OnOk result (IsNamed self.new) }
        ensures takes { (past : List Form) → IsOpeningOf past self.old
            → IfOk result (Takes self.old.docs past (form.Field name.now) at behind self.old self.new) }
    {
        let _ = behind;
        if !self.state.may_begin_field() || has_name(&self.fields, name) {
            return Ok(false);
        }
        self.close(at)?;
        self.field = self.next_field()?;
        self.fields.push(Text::of(self.alloc, name)?)?;
        self.state.begin_field();
        Ok(true)
    }

    fn begin_term(&mut self, at: u64, behind: u64, name: &[u8]) -> Result<bool, AllocError>
        requires named { IsNamed self.old }
        ensures docs { OnOk result (self.new.docs ≡ self.old.docs) }
        ensures named { OnOk result (IsNamed self.new) }
        ensures takes { (past : List Form) → IsOpeningOf past self.old
            → IfOk result (Takes self.old.docs past (form.Term name.now) at behind self.old self.new) }
    {
        if !self.state.may_begin_term() || !self.is_term_above(name) {
            return Ok(false);
        }
        self.close(at)?;
        let place = self.place_behind(behind, name)?;
        push_bytes(&mut self.names, name)?;
        self.term = Some(place);
        self.state.begin_term();
        Ok(true)
    }

    fn take_end(&mut self, at: u64, behind: u64) -> Result<bool, AllocError>
        requires named { IsNamed self.old }
        ensures docs { OnOk result (self.new.docs ≡ self.old.docs) }
        ensures named { OnOk result (IsNamed self.new) }
        ensures takes { (past : List Form) → IsOpeningOf past self.old
            → IfOk result (Takes self.old.docs past form.End at behind self.old self.new) }
    {
        let _ = behind;
        if !self.state.take(self.docs, Shape::End) {
            return Ok(false);
        }
        self.close(at)?;
        Ok(true)
    }

    /// Takes the line of this content, which begins at `at` and ends before `behind`; false where it is not allowed.
    pub fn take(&mut self, at: u64, behind: u64, content: &[u8]) -> Result<bool, AllocError>
        requires named { IsNamed self.old }
        ensures docs { OnOk result (self.new.docs ≡ self.old.docs) }
        ensures named { OnOk result (IsNamed self.new) }
        ensures takes { (past : List Form) → IsOpeningOf past self.old
            → IfOk result (Takes self.old.docs past (form_of content.now) at behind self.old self.new) }
    {
        match shape_of(content) {
            Shape::Field => self.begin_field(at, behind, behind_mark(content, 6)),
            Shape::Term => self.begin_term(at, behind, behind_mark(content, 7)),
            Shape::End => self.take_end(at, behind),
            Shape::Indented => Ok(self.term.is_some()),
            shape => Ok(self.state.take(self.docs, shape)),
        }
    }

    /// Whether the last line is the checksum line.
    pub fn is_done(&self) -> bool
        ensures { (past : List Form) → IsOpeningOf past self.now → result ≡ at_checksum past }
    {
        self.state.is_done()
    }
}
