// A stored field of a document.
use byte_text::Text;

/// What a stored value is, by the word of its `type` line: `string`, `binary`, `int`, `long`, `float`, `double`.
#[derive(Clone, Copy, Debug, PartialEq, Eq)]
pub enum Kind {
    Str,
    Binary,
    Int,
    Long,
    Float,
    Double,
}

/// A stored field. The value is carried as it stands in the text, whatever its kind.
#[derive(Drop)]
pub struct StoredField {
    pub name: Text,
    pub kind: Kind,
    pub value: Text,
}
