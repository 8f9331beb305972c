// The outside: archives and sources of blobs, sources of text, sinks, clocks and frames; in memory, over a folder, and
// over the standard streams.
#![tactic(auto)]

mod calls;
mod clock;
mod fault;
mod folder;
mod frame;
mod listed;
mod mem_clock;
mod mem_sink;
mod mem_text;
mod memory;
mod sink;
mod source;
mod std_clock;
mod std_sink;
mod std_text;
mod text_source;

pub use calls::SourceCall;
pub use clock::Clock;
pub use fault::OutError;
pub use folder::{FolderSource, Untold};
pub use frame::{Frame, FrameFault, FrameMaker};
pub use listed::manifests_in;
pub use mem_clock::MemClock;
pub use mem_sink::MemSink;
pub use mem_text::MemText;
pub use memory::MemSource;
pub use sink::Sink;
pub use source::{Archive, BlobSource};
use std::rt::Files;
pub use std_clock::StdClock;
pub use std_sink::StdSink;
pub use std_text::StdText;
pub use text_source::TextSource;

// A missing proof of `Send` or `Sync` shows here, and not first at the threads above.
fn crosses<T: Send + Sync>() {}

/// Sources may be handed to other threads and shared.
pub fn sources_cross<A: Archive + Send + Sync, Rt: Files + Send + Sync + Drop>()
where
    Rt::File: Send + Sync,
{
    crosses::<MemSource<A>>();
    crosses::<FolderSource<Rt>>();
}
