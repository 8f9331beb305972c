// What text is read from.
ghost use Rattle.std.specs.Prelude.{◌<◌, ◌≤◌, IfOk, IfSome, length};
ghost use Rattle.cache_outside.specs.Texts.{TextView, TextAfter, IsFront, left_after};

use crate::OutError;

/// A source of the bytes of one text, from its beginning to its end.
pub trait TextSource {
    /// How often it has failed, and, where it tells, the bytes that are left.
    ghost view: { Self → TextView };

    /// Puts some first bytes of those that are left into `out`, takes them off, and says how many: at most the length
    /// of `out`, and 0 exactly where none is left. A refusal takes none off; `out` may then hold anything.
    ///
    /// `Failed` comes only where the count of failures rose in this call. The count never falls, and stands still at
    /// the last value of its type.
    fn read(&mut self, out: &mut [u8]) -> Result<usize, OutError>
        requires { 0 < length out.old }
        ensures count { IfOk result (λ n. n ≤ length out.old) }
        ensures bytes { IfSome (view self.old).left (λ left. IfOk result (λ n. IsFront left out.new n)) }
        ensures text { TextAfter (view self.old) (view self.new) (left_after (view self.old).left result) result };
}
