// Why a document's fields are not given.
use directory_input::BytesError;
use text_lines::TextError;

/// Why a document's fields are not given.
#[derive(Clone, Copy, Debug, PartialEq, Eq)]
pub enum StoredError {
    /// The index has no document of this number.
    NoDoc { doc: u32 },
    /// The document's lines are not those that were there when the index was opened. `at` is where the first such line
    /// begins, in bytes from the start of the text.
    Bad { at: u64 },
    /// What gives the bytes refused, or there was no memory.
    Bytes(BytesError),
}
