//! The open gaps of a tracker. There are as many as fetch at a time, so they are walked.

ghost use Rattle.std.specs.Prelude.{◌≡◌, ◌<◌, ◌≤◌, ◌+◌, ℕ, length, ◌==◌, IsSome, find, not, vec_len, vec_capacity};
ghost use Rattle.std.specs.List.{list_any, prefix_len};
ghost use Rattle.sparse_tracker.specs.ByteStates.{move_gap, without_gap};
ghost use Rattle.sparse_tracker.specs.Kept.{meets};

use crate::unused::Numbered;
use region_ranges::ByteRange;

/// An open gap: its bytes below `upto` are present, those from there to `end` are pending.
#[derive(Clone, Copy, Debug, PartialEq, Eq)]
pub struct OpenGap {
    /// No other open gap of the tracker has it.
    pub id: u32,
    /// The place in bytes up to which it was fetched.
    pub upto: u64,
    /// The place in bytes behind its last byte.
    pub end: u64,
}

impl Numbered for OpenGap {
    ghost number = { λ g. g.id };

    fn number(&self) -> u32 {
        self.id
    }
}

// the place of the gap of that id
fn find_gap(gaps: &[OpenGap], id: u32) -> usize
    requires { IsSome (find (λ o. o.id == id) gaps.now) }
    ensures bound { result < length gaps.now }
    ensures place { result ≡ prefix_len (λ o. not (o.id == id)) gaps.now }
{
    for at in 0..gaps.len() {
        if gaps[at].id == id {
            return at;
        }
    }
    unreachable!()
}

/// The open gap of that id.
pub fn gap_of(gaps: &[OpenGap], id: u32) -> OpenGap
    requires { IsSome (find (λ o. o.id == id) gaps.now) }
    ensures { find (λ o. o.id == id) gaps.now ≡ Some result }
{
    gaps[find_gap(gaps, id)]
}

/// Moves the gap's present end, and closes it where that is its end.
pub fn move_gap(gaps: &mut Vec<OpenGap>, id: u32, to: u64)
    requires { IsSome (find (λ o. o.id == id) gaps.old.items) }
    ensures items { gaps.new.items ≡ move_gap id to gaps.old.items }
    ensures len { vec_len gaps.new ≤ vec_len gaps.old }
    ensures capacity { vec_capacity gaps.old ≤ vec_capacity gaps.new }
{
    let at = find_gap(gaps, id);
    if to == gaps[at].end {
        gaps.remove(at);
    } else {
        gaps[at].upto = to;
    }
}

/// Takes the gap of that id out.
pub fn take_gap(gaps: &mut Vec<OpenGap>, id: u32) -> OpenGap
    requires { IsSome (find (λ o. o.id == id) gaps.old.items) }
    ensures gap { find (λ o. o.id == id) gaps.old.items ≡ Some result }
    ensures items { gaps.new.items ≡ without_gap id gaps.old.items }
    ensures len { vec_len gaps.new + 1 ≡ vec_len gaps.old }
    ensures capacity { vec_capacity gaps.old ≤ vec_capacity gaps.new }
{
    let at = find_gap(gaps, id);
    gaps.remove(at)
}

/// Whether a byte of the range is pending under one of the gaps.
pub fn has_pending(gaps: &[OpenGap], sub: ByteRange) -> bool
    ensures { result ≡ list_any (meets sub) gaps.now }
{
    for gap in gaps {
        if gap.upto < sub.end && sub.start < gap.end {
            return true;
        }
    }
    false
}
