// The reply to a line of a script.
use crate::{Fields, Shown};
use byte_text::Text;

/// The reply to a line of a script.
#[derive(Drop)]
pub enum Reply {
    /// A mount: how many files its manifest has, and how many documents its segments have together.
    Mounted {
        files: u32,
        docs: u64,
    },
    Unmounted,
    Cleared,
    Decayed,
    /// A search: how many documents match, and the first of them.
    Hits {
        total: u64,
        shown: Shown,
    },
    /// A fetch: the stored fields of the document.
    Fields {
        fields: Fields,
    },
    /// A read: the bytes.
    Bytes {
        bytes: Text,
    },
    /// The regions of the cache that are free, mapped and leaving; how many evictions, promotions and demotions it
    /// made; and the bytes that the lines so far fetched into it and read past it.
    Stats {
        free: u32,
        listed: u32,
        leaving: u32,
        evictions: u64,
        promotions: u64,
        demotions: u64,
        fetched: u64,
        direct: u64,
    },
    /// What was asked for is refused: the text of the reply.
    Refused {
        text: Text,
    },
    /// A read of the archive failed.
    Fault,
    /// The mount was taken away meanwhile.
    Gone,
    /// Memory was wanted.
    NoMemory,
}
