// The shape of a line: its form, without the name that it may have.
ghost use Rattle.std.specs.Prelude.{◌≡◌, ◌≤◌, ◌+◌, ◌++◌, ℕ, List, false, IsTrue, codes, length, drop};
ghost use Rattle.text_lines.specs.Words.{begins};
ghost use Rattle.simpletext_postings.specs.Postings.{form_of, doc_of, freq_of, pos_of, start_of, end_of};
ghost use Rattle.simpletext_postings.specs.Shapes.{form_with, HasName};

use text_lines::{is_checksum, number};

/// What a line says, its name aside: a field's name stands behind its first 6 bytes, and a term's behind 7.
#[derive(Clone, Copy)]
pub enum Shape {
    Field,
    Term,
    Doc(u32),
    Freq(u32),
    Pos(u32),
    StartOffset,
    EndOffset,
    Payload,
    End,
    Checksum,
    /// Four blanks, and then none of the forms.
    Indented,
    Unknown,
}

/// What stands behind the first n bytes.
pub fn behind_mark(s: &[u8], n: usize) -> &[u8]
    requires { n ≤ length s.now }
    ensures { result.now ≡ drop n s.now }
{
    &s[n..]
}

/// Whether a line begins with this mark. The mark's length is a part of its type, so that the compiler compares up to
/// 8 bytes in place and calls nothing.
fn has_mark<const N: usize>(s: &[u8], mark: &[u8; N]) -> bool
    ensures bound { IsTrue result → N ≤ length s.now }
    ensures value { result ≡ begins mark.now s.now }
{
    match s.first_chunk::<N>() {
        Some(front) => mark == front,
        None => false,
    }
}

/// The same of a mark of more than 8 bytes, the first 8 of which are compared as one word.
fn has_long_mark<const N: usize>(s: &[u8], front: &[u8; 8], back: &[u8; N]) -> bool
    ensures bound { IsTrue result → 8 + N ≤ length s.now }
    ensures value { result ≡ begins (front.now ++ back.now) s.now }
{
    has_mark(s, front) && has_mark(behind_mark(s, 8), back)
}

fn doc_shape(number: Option<u32>) -> Shape
    ensures form { (s : List ℕ) → form_with result s ≡ doc_of number }
    ensures name { (s : List ℕ) → HasName result s }
{
    match number {
        Some(n) => Shape::Doc(n),
        None => Shape::Unknown,
    }
}

fn frequency_shape(number: Option<u32>) -> Shape
    ensures form { (s : List ℕ) → form_with result s ≡ freq_of number }
    ensures name { (s : List ℕ) → HasName result s }
{
    match number {
        Some(n) => Shape::Freq(n),
        None => Shape::Unknown,
    }
}

fn position_shape(number: Option<u32>) -> Shape
    ensures form { (s : List ℕ) → form_with result s ≡ pos_of number }
    ensures name { (s : List ℕ) → HasName result s }
{
    match number {
        Some(n) => Shape::Pos(n),
        None => Shape::Unknown,
    }
}

fn start_shape(number: Option<u32>) -> Shape
    ensures form { (s : List ℕ) → form_with result s ≡ start_of number }
    ensures name { (s : List ℕ) → HasName result s }
{
    match number {
        Some(_) => Shape::StartOffset,
        None => Shape::Unknown,
    }
}

fn end_shape(number: Option<u32>) -> Shape
    ensures form { (s : List ℕ) → form_with result s ≡ end_of number }
    ensures name { (s : List ℕ) → HasName result s }
{
    match number {
        Some(_) => Shape::EndOffset,
        None => Shape::Unknown,
    }
}

/// The shape of a line that has none of the forms of `shape_of`.
#[tactic(auto, unfolding(crate::specs::Postings::form_of, crate::specs::Postings::indented_form))]
fn rarer_shape(s: &[u8]) -> Shape
    requires position { begins (codes "      pos ") s.now ≡ false }
    requires document { begins (codes "    doc ") s.now ≡ false }
    requires frequency { begins (codes "      freq ") s.now ≡ false }
    requires field { begins (codes "field ") s.now ≡ false }
    requires term { begins (codes "  term ") s.now ≡ false }
    ensures form { form_with result s.now ≡ form_of s.now }
    ensures name { HasName result s.now }
{
    if has_mark(s, b"      startOffset ") {
        return start_shape(number(behind_mark(s, 18)));
    }
    if has_mark(s, b"      endOffset ") {
        return end_shape(number(behind_mark(s, 16)));
    }
    if has_mark(s, b"        payload ") {
        return Shape::Payload;
    }
    if has_mark(s, b"    ") {
        return Shape::Indented;
    }
    if s == b"END".as_slice() {
        return Shape::End;
    }
    if is_checksum(s) {
        return Shape::Checksum;
    }
    Shape::Unknown
}

/// The shape of a line with this content. The commonest are looked for first.
#[tactic(auto, unfolding(crate::specs::Postings::form_of))]
pub fn shape_of(s: &[u8]) -> Shape
    ensures form { form_with result s.now ≡ form_of s.now }
    ensures name { HasName result s.now }
{
    if has_long_mark(s, b"      po", b"s ") {
        return position_shape(number(behind_mark(s, 10)));
    }
    if has_mark(s, b"    doc ") {
        return doc_shape(number(behind_mark(s, 8)));
    }
    if has_long_mark(s, b"      fr", b"eq ") {
        return frequency_shape(number(behind_mark(s, 11)));
    }
    if has_mark(s, b"field ") {
        return Shape::Field;
    }
    if has_mark(s, b"  term ") {
        return Shape::Term;
    }
    rarer_shape(s)
}
