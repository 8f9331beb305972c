// Names, byte texts and lists of named texts: the words of every format that this repository reads or writes.
#![tactic(auto)]

mod blobs;
mod name;
mod text;

pub use blobs::Blobs;
pub use name::Name;
pub use text::Text;

// A missing proof of `Send` or `Sync` shows here, and not first at the threads above.
fn crosses<T: Send + Sync>() {}

/// Names, texts and lists of blobs may be shared by threads.
pub fn texts_cross() {
    crosses::<Name>();
    crosses::<Text>();
    crosses::<Blobs>();
}
