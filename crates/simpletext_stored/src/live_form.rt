// The form of a line of a text of live documents.
ghost use Rattle.std.specs.Prelude.{◌≡◌};
ghost use Rattle.simpletext_stored.specs.Live.{size_of, doc_of, form_of};

use crate::words::behind;
use text_lines::{is_checksum, number};

/// What a line says, by its content.
#[derive(Clone, Copy, Debug, PartialEq, Eq)]
pub enum LiveForm {
    Size(u32),
    Doc(u32),
    End,
    Checksum,
    Unknown,
}

fn size_of(number: Option<u32>) -> LiveForm
    ensures { result ≡ size_of number }
{
    match number {
        Some(number) => LiveForm::Size(number),
        None => LiveForm::Unknown,
    }
}

fn doc_of(number: Option<u32>) -> LiveForm
    ensures { result ≡ doc_of number }
{
    match number {
        Some(number) => LiveForm::Doc(number),
        None => LiveForm::Unknown,
    }
}

/// The form of a line with this content.
#[tactic(auto, unfolding(crate::specs::Live::form_of))]
pub fn form_of(s: &[u8]) -> LiveForm
    ensures { result ≡ form_of s.now }
{
    if s.starts_with(b"size ") {
        return size_of(number(behind(s, 5)));
    }
    if s.starts_with(b"  doc ") {
        return doc_of(number(behind(s, 6)));
    }
    if s == b"END".as_slice() {
        return LiveForm::End;
    }
    if is_checksum(s) {
        return LiveForm::Checksum;
    }
    LiveForm::Unknown
}
