// Where a reader stands in the table of postings lines: what the lines so far say of the next one, names aside.
ghost use Rattle.std.specs.Prelude.{◌≡◌, ℕ, List, [], ◌∷◌, ◌||◌};
ghost use Rattle.text_lines.specs.Words.{is_above};
ghost use Rattle.simpletext_postings.specs.Postings.{is_not_below, may_begin_field, at_field_or_term, ends_entry};
ghost use Rattle.simpletext_postings.specs.Openings.{IsTableState, Moves, MovesBy, ends_of, is_whole, is_name, is_checksum_line};
ghost use Rattle.simpletext_postings.specs.Forms.{Form};
ghost use Rattle.simpletext_postings.specs.Forms as form;

use crate::shape::Shape;

/// The kind of the last line that was not passed over.
#[derive(Clone, Copy)]
pub enum LastLine {
    Start,
    Field,
    Term,
    Doc,
    Freq,
    Pos,
    StartOffset,
    EndOffset,
    Payload,
    End,
    Checksum,
}

/// What the lines so far say of the next one, names aside.
#[derive(Clone, Copy)]
pub struct TableState {
    last: LastLine,
    /// The last document of the term.
    doc: Option<u32>,
    /// The last frequency.
    frequency: u32,
    /// How many positions the last document has so far, and the last of them.
    count: u32,
    position: Option<u32>,
}

fn is_above(last: Option<u32>, number: u32) -> bool
    ensures { result ≡ is_above last number }
{
    match last {
        None => true,
        Some(last) => last < number,
    }
}

fn is_not_below(last: Option<u32>, number: u32) -> bool
    ensures { result ≡ is_not_below last number }
{
    match last {
        None => true,
        Some(last) => last <= number,
    }
}

fn is_name(last: LastLine) -> bool
    ensures { result ≡ is_name last }
{
    matches!(last, LastLine::Field | LastLine::Term)
}

fn is_whole(last: LastLine) -> bool
    ensures { result ≡ is_whole last }
{
    matches!(
        last,
        LastLine::Pos | LastLine::EndOffset | LastLine::Payload
    )
}

impl TableState {
    /// Before the first line.
    pub fn new() -> TableState
        ensures { IsTableState [] result }
    {
        TableState {
            last: LastLine::Start,
            doc: None,
            frequency: 0,
            count: 0,
            position: None,
        }
    }

    /// Whether the last document's entry is whole.
    fn ends_entry(&self) -> bool
        ensures { result ≡ ends_of self.now }
    {
        matches!(self.last, LastLine::Doc | LastLine::Freq)
            || is_whole(self.last) && self.count == self.frequency
    }

    /// Whether a field or the end may follow.
    pub fn may_begin_field(&self) -> bool
        ensures { (past : List Form) → IsTableState past self.now → result ≡ may_begin_field past }
    {
        matches!(self.last, LastLine::Start) || is_name(self.last) || self.ends_entry()
    }

    /// Whether a term may follow that is above the last one.
    pub fn may_begin_term(&self) -> bool
        ensures { (past : List Form) → IsTableState past self.now
            → result ≡ (at_field_or_term past || ends_entry past) }
    {
        is_name(self.last) || self.ends_entry()
    }

    /// Behind the line of a field.
    pub fn begin_field(&mut self)
        ensures { (past : List Form) (name : List ℕ) → IsTableState past self.old
            → IsTableState (form.Field name ∷ past) self.new }
    {
        self.last = LastLine::Field;
        self.doc = None;
    }

    /// Behind the line of a term.
    pub fn begin_term(&mut self)
        ensures { (past : List Form) (name : List ℕ) → IsTableState past self.old
            → IsTableState (form.Term name ∷ past) self.new }
    {
        self.last = LastLine::Term;
        self.doc = None;
    }

    fn take_doc(&mut self, docs: u32, number: u32) -> bool
        ensures { (past : List Form) → IsTableState past self.old → Moves docs past (form.Doc number) self.new result }
    {
        let may = matches!(self.last, LastLine::Term) || self.ends_entry();
        if !may || number >= docs || !is_above(self.doc, number) {
            return false;
        }
        self.last = LastLine::Doc;
        self.doc = Some(number);
        self.frequency = 0;
        self.count = 0;
        self.position = None;
        true
    }

    fn take_frequency(&mut self, number: u32) -> bool
        ensures { (docs : ℕ) (past : List Form) → IsTableState past self.old
            → Moves docs past (form.Freq number) self.new result }
    {
        if !matches!(self.last, LastLine::Doc) || number == 0 {
            return false;
        }
        self.last = LastLine::Freq;
        self.frequency = number;
        true
    }

    fn take_position(&mut self, number: u32) -> bool
        ensures { (docs : ℕ) (past : List Form) → IsTableState past self.old
            → Moves docs past (form.Pos number) self.new result }
    {
        let may = matches!(self.last, LastLine::Freq) || is_whole(self.last);
        if !may || self.count >= self.frequency || !is_not_below(self.position, number) {
            return false;
        }
        self.last = LastLine::Pos;
        self.count += 1;
        self.position = Some(number);
        true
    }

    fn take_start_offset(&mut self) -> bool
        ensures { (docs : ℕ) (past : List Form) → IsTableState past self.old
            → Moves docs past form.StartOffset self.new result }
    {
        if !matches!(self.last, LastLine::Pos) {
            return false;
        }
        self.last = LastLine::StartOffset;
        true
    }

    fn take_end_offset(&mut self) -> bool
        ensures { (docs : ℕ) (past : List Form) → IsTableState past self.old
            → Moves docs past form.EndOffset self.new result }
    {
        if !matches!(self.last, LastLine::StartOffset) {
            return false;
        }
        self.last = LastLine::EndOffset;
        true
    }

    fn take_payload(&mut self) -> bool
        ensures { (docs : ℕ) (past : List Form) → IsTableState past self.old
            → Moves docs past form.Payload self.new result }
    {
        if !matches!(self.last, LastLine::Pos | LastLine::EndOffset) {
            return false;
        }
        self.last = LastLine::Payload;
        true
    }

    fn take_end(&mut self) -> bool
        ensures { (docs : ℕ) (past : List Form) → IsTableState past self.old
            → Moves docs past form.End self.new result }
    {
        if !self.may_begin_field() {
            return false;
        }
        self.last = LastLine::End;
        true
    }

    fn take_checksum(&mut self) -> bool
        ensures { (docs : ℕ) (past : List Form) → IsTableState past self.old
            → Moves docs past form.Checksum self.new result }
    {
        if !matches!(self.last, LastLine::End) {
            return false;
        }
        self.last = LastLine::Checksum;
        true
    }

    /// Takes a line that begins neither a field nor a term; false where it is not allowed.
    pub fn take(&mut self, docs: u32, shape: Shape) -> bool
        ensures { (past : List Form) (s : List ℕ) → IsTableState past self.old
            → MovesBy docs past shape s self.new result }
    {
        match shape {
            Shape::Pos(number) => self.take_position(number),
            Shape::Doc(number) => self.take_doc(docs, number),
            Shape::Freq(number) => self.take_frequency(number),
            Shape::StartOffset => self.take_start_offset(),
            Shape::EndOffset => self.take_end_offset(),
            Shape::Payload => self.take_payload(),
            Shape::End => self.take_end(),
            Shape::Checksum => self.take_checksum(),
            Shape::Field => false,
            Shape::Term => false,
            Shape::Indented => false,
            Shape::Unknown => false,
        }
    }

    /// Whether the last line is the checksum line.
    pub fn is_done(&self) -> bool
        ensures { result ≡ is_checksum_line self.now.last }
    {
        matches!(self.last, LastLine::Checksum)
    }
}
