// The form of a line of a text of stored fields.
ghost use Rattle.std.specs.Prelude.{◌≡◌, ◌≤◌, length};
ghost use Rattle.simpletext_stored.specs.Stored.{kind_of, doc_of, field_of, type_of, form_of};

use crate::Kind;
use crate::words::behind;
use text_lines::{is_checksum, number};

/// What a line says, by its content.
#[derive(Clone, Copy, Debug, PartialEq, Eq)]
pub enum Form {
    Doc(u32),
    Field,
    Name,
    OfType(Kind),
    Value,
    End,
    Checksum,
    Unknown,
}

fn kind_of(word: &[u8]) -> Option<Kind>
    ensures { result ≡ kind_of word.now }
{
    if word == b"string".as_slice() {
        return Some(Kind::Str);
    }
    if word == b"binary".as_slice() {
        return Some(Kind::Binary);
    }
    if word == b"int".as_slice() {
        return Some(Kind::Int);
    }
    if word == b"long".as_slice() {
        return Some(Kind::Long);
    }
    if word == b"float".as_slice() {
        return Some(Kind::Float);
    }
    if word == b"double".as_slice() {
        return Some(Kind::Double);
    }
    None
}

fn doc_of(number: Option<u32>) -> Form
    ensures { result ≡ doc_of number }
{
    match number {
        Some(number) => Form::Doc(number),
        None => Form::Unknown,
    }
}

fn field_of(number: Option<u32>) -> Form
    ensures { result ≡ field_of number }
{
    match number {
        Some(_) => Form::Field,
        None => Form::Unknown,
    }
}

fn type_of(kind: Option<Kind>) -> Form
    ensures { result ≡ type_of kind }
{
    match kind {
        Some(kind) => Form::OfType(kind),
        None => Form::Unknown,
    }
}

/// The form of a line with this content.
#[tactic(auto, unfolding(crate::specs::Stored::form_of))]
pub fn form_of(s: &[u8]) -> Form
    ensures form { result ≡ form_of s.now }
    ensures name { result ≡ Form.Name → 9 ≤ length s.now }
    ensures value { result ≡ Form.Value → 10 ≤ length s.now }
{
    if s.starts_with(b"doc ") {
        return doc_of(number(behind(s, 4)));
    }
    if s.starts_with(b"  field ") {
        return field_of(number(behind(s, 8)));
    }
    if s.starts_with(b"    name ") {
        return Form::Name;
    }
    if s.starts_with(b"    type ") {
        return type_of(kind_of(behind(s, 9)));
    }
    if s.starts_with(b"    value ") {
        return Form::Value;
    }
    if s == b"END".as_slice() {
        return Form::End;
    }
    if is_checksum(s) {
        return Form::Checksum;
    }
    Form::Unknown
}
