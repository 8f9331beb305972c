// A backslash takes the next byte as it is, so that a name or a term may hold any bytes and still be one line.
ghost use Rattle.std.specs.Prelude.{◌≡◌, ℕ, List, Some, IfOk};
ghost use Rattle.text_lines.specs.Escapes.{escape, unescape};

use byte_text::Text;
use memchr::memchr2;
use std::alloc::{AllocError, Global};

/// The bytes with a backslash before each newline and each backslash, so that they stand in one line.
pub fn escape(alloc: Global, bytes: &[u8]) -> Result<Text, AllocError>
    ensures { IfOk result (λ t. t ≡ escape bytes.now) }
{
    let mut text = Text::new(alloc);
    let mut left = bytes;
    while let Some(run) = memchr2(b'\n', b'\\', left) {
        text.extend(&left[..run])?;
        text.push(b'\\')?;
        text.push(left[run])?;
        left = &left[run + 1..];
    }
    text.extend(left)?;
    Ok(text)
}

/// The bytes without the backslashes that take a byte. None exactly where a backslash is last, or a newline stands
/// without one.
pub fn unescape(alloc: Global, bytes: &[u8]) -> Result<Option<Text>, AllocError>
    ensures { IfOk result (λ o. o ≡ unescape bytes.now) }
{
    let mut text = Text::new(alloc);
    let mut left = bytes;
    while let Some(run) = memchr2(b'\n', b'\\', left) {
        if left[run] == b'\n' || left.len() - run == 1 {
            return Ok(None);
        }
        text.extend(&left[..run])?;
        text.push(left[run + 1])?;
        left = &left[run + 2..];
    }
    text.extend(left)?;
    Ok(Some(text))
}

/// A law: what was escaped is read again.
pub fn escape_is_undone()
    ensures { (x : List ℕ) → unescape (escape x) ≡ Some x }
{}
