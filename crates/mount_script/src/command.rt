// What a line of a script asks for.
use byte_text::{Name, Text};

/// What a line of a script asks for. A `name` is that of a mount, of 1 to 64 bytes.
#[derive(Drop)]
pub enum Command {
    /// Mount the index of this manifest under the name.
    Mount {
        name: Name,
        manifest: Name,
    },
    /// Take the mount away.
    Unmount {
        name: Name,
    },
    /// Make the cached regions of the mount's manifest free.
    Clear {
        name: Name,
    },
    /// Lower the frequencies of regions that were not read for a while.
    Decay,
    /// Say what the cache has counted.
    Stats,
    /// Count the documents of the mount that the query matches, and show the first `size` of them, at most 10,000. The
    /// query's text is not read yet.
    Search {
        name: Name,
        size: u32,
        query: Text,
    },
    /// Give the stored fields of document `doc` of a segment.
    Fetch {
        name: Name,
        segment: Name,
        doc: u32,
    },
    /// Give `len` bytes, at most 1,048,576, of the file with this physical name, from byte `at` on.
    Read {
        name: Name,
        file: Name,
        at: u64,
        len: u32,
    },
}

/// A line of a script that asks for something, and its number, from 1, among all lines of the script.
#[derive(Drop)]
pub struct Line {
    pub number: u32,
    pub command: Command,
}

impl Command {
    ghost use Rattle.std.specs.Prelude.{◌≡◌};
    ghost use Rattle.mount_script.specs.Blocks.{stands_alone};

    /// Whether a line with this command is a block of its own.
    pub(crate) fn stands_alone(&self) -> bool
        ensures { result ≡ stands_alone self.now }
    {
        matches!(self, Command::Mount { .. } | Command::Stats)
    }
}
