// What text is written to.
ghost use Rattle.std.specs.Prelude.{IfOk, length};
ghost use Rattle.cache_outside.specs.Sources.{IsCountOf};
ghost use Rattle.cache_outside.specs.Sinks.{SinkView, SinkAfter, written_after};

use crate::OutError;

/// A sink of bytes, which may take fewer than it is given.
pub trait Sink {
    /// How often it has failed, and the bytes written so far, where it tells.
    ghost view: { Self → SinkView };

    /// Takes some first bytes of the piece, at least one where there is one, and says how many. A refusal takes none.
    ///
    /// `Failed` comes only where the count of failures rose in this call; to take nothing of a piece is `Failed`. The
    /// count never falls, and stands still at the last value of its type.
    fn write(&mut self, piece: &[u8]) -> Result<usize, OutError>
        ensures count { IfOk result (λ n. IsCountOf (length piece.now) n) }
        ensures sink { SinkAfter (view self.old) (view self.new)
            (written_after (view self.old).written piece.now result) result };
}
