// What the lines of a text of live documents so far say of the next one.
ghost use Rattle.std.specs.Prelude.{◌≡◌, ℕ, List, [], Bool, true, IfOk};
ghost use Rattle.text_lines.specs.Words.{is_above};
ghost use Rattle.simpletext_stored.specs.Live.{last, last_doc, is_allowed, is_listing, is_end, is_checksum_line};
ghost use Rattle.simpletext_stored.specs.Listing.{IsLiveState, LiveStep};
ghost use Rattle.simpletext_stored.specs.declared.live_form.LiveForm.{LiveForm};

use crate::live_form::LiveForm;

/// The last line and the last document.
#[derive(Clone, Copy, Drop)]
pub struct LiveState {
    pub last: Option<LiveForm>,
    pub doc: Option<u32>,
}

fn is_above(doc: Option<u32>, number: u32) -> bool
    ensures { result ≡ is_above doc number }
{
    match doc {
        None => true,
        Some(doc) => doc < number,
    }
}

fn is_listing(last: Option<LiveForm>) -> bool
    ensures { result ≡ is_listing last }
{
    matches!(last, Some(LiveForm::Size(_) | LiveForm::Doc(_)))
}

fn is_end(last: Option<LiveForm>) -> bool
    ensures { result ≡ is_end last }
{
    matches!(last, Some(LiveForm::End))
}

pub fn is_checksum_line(last: Option<LiveForm>) -> bool
    ensures { result ≡ is_checksum_line last }
{
    matches!(last, Some(LiveForm::Checksum))
}

/// Whether a line may stand after the last one, behind this last document.
fn may_stand(before: Option<LiveForm>, doc: Option<u32>, docs: u32, form: LiveForm) -> bool
    ensures { (past : List LiveForm) → before ≡ last past → doc ≡ last_doc past → result ≡ is_allowed docs past form }
{
    match form {
        LiveForm::Size(number) => before.is_none() && number == docs,
        LiveForm::Doc(number) => is_listing(before) && number < docs && is_above(doc, number),
        LiveForm::End => is_listing(before),
        LiveForm::Checksum => is_end(before),
        LiveForm::Unknown => false,
    }
}

impl LiveState {
    pub fn new() -> LiveState
        ensures { IsLiveState [] result }
    {
        LiveState {
            last: None,
            doc: None,
        }
    }

    /// Takes a line; false where it may not stand here.
    pub fn take(&mut self, docs: u32, form: LiveForm) -> bool
        ensures { (past : List LiveForm) → IsLiveState past self.old → LiveStep docs past form self.new result }
    {
        if !may_stand(self.last, self.doc, docs, form) {
            return false;
        }
        if let LiveForm::Doc(number) = form {
            self.doc = Some(number);
        }
        self.last = Some(form);
        true
    }
}
