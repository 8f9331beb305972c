// The calls that a source in memory was asked so far, and those of them that are to fail.
ghost use Rattle.std.specs.Prelude.{◌≡◌, ◌≤◌};
ghost use Rattle.byte_text.specs.Counts.{Rose};
ghost use Rattle.cache_outside.specs.Causes.{HasCause};

use crate::OutError;
use crate::fault::fail;

/// The calls of a source.
#[derive(Clone, Copy, Debug, PartialEq, Eq)]
pub enum SourceCall {
    Find,
    Manifest,
    Size,
    Read,
}

/// The calls made so far, by kind, those that are to fail, and how many have failed.
#[derive(Drop)]
pub(crate) struct Calls {
    fails: Vec<(SourceCall, u64)>,
    finds: u64,
    manifests: u64,
    sizes: u64,
    reads: u64,
    pub(crate) faults: u64,
}

impl Calls {
    pub(crate) fn new(fails: Vec<(SourceCall, u64)>) -> Calls
        ensures { result.faults ≡ 0 }
    {
        Calls {
            fails,
            finds: 0,
            manifests: 0,
            sizes: 0,
            reads: 0,
            faults: 0,
        }
    }

    /// Counts a failure.
    pub(crate) fn fail(&mut self) -> OutError
        ensures failed { result ≡ OutError.Failed }
        ensures rose { Rose self.old.faults self.new.faults }
        ensures later { self.old.faults ≤ self.new.faults }
    {
        fail(&mut self.faults)
    }

    /// Counts a call of this kind, and gives its number, from 1.
    fn next_number(&mut self, call: SourceCall) -> u64
        ensures { self.new.faults ≡ self.old.faults }
    {
        match call {
            SourceCall::Find => next(&mut self.finds),
            SourceCall::Manifest => next(&mut self.manifests),
            SourceCall::Size => next(&mut self.sizes),
            SourceCall::Read => next(&mut self.reads),
        }
    }

    /// Counts a call, and refuses it where it is listed.
    pub(crate) fn begin(&mut self, call: SourceCall) -> Result<(), OutError>
        ensures { HasCause self.old.faults self.new.faults result }
    {
        let number = self.next_number(call);
        if is_listed(&self.fails, call, number) {
            return Err(self.fail());
        }
        Ok(())
    }
}

fn next(count: &mut u64) -> u64 {
    *count = count.saturating_add(1);
    *count
}

fn is_listed(fails: &[(SourceCall, u64)], call: SourceCall, number: u64) -> bool {
    fails
        .iter()
        .any(|listed| listed.0 == call && listed.1 == number)
}
