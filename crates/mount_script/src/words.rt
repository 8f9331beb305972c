// The words of a line: names, numbers and texts.
ghost use Rattle.std.specs.Prelude.{◌≡◌, ◌≤◌, length, IfOk};
ghost use Rattle.std.specs.List.{join_with_byte};
ghost use Rattle.mount_script.specs.Words.{words_of, texts, value_of, number_up_to, name_of, mount_name, some_bytes};
ghost use Rattle.mount_script.specs.Commands.{IsOf};

use crate::error::Misread;
use byte_text::{Name, Text};
use std::alloc::{AllocError, Global};

/// The words of a line, which are parted by one blank each.
pub(crate) fn words_of(alloc: Global, line: &[u8]) -> Result<Vec<&[u8]>, AllocError>
    ensures { IfOk result (λ v. texts v.items ≡ words_of line.now) }
{
    line.split(|b| *b == b' ').collect(alloc)
}

/// The name of a manifest, a file or a segment.
pub(crate) fn any_name(alloc: Global, word: &[u8]) -> Result<Name, Misread>
    ensures { IsOf result (name_of word.now) }
{
    Name::read(alloc, word)?.ok_or(Misread::Form)
}

/// The name of a mount.
pub(crate) fn mount_name(alloc: Global, word: &[u8]) -> Result<Name, Misread>
    ensures { IsOf result (mount_name word.now) }
{
    if word.len() > 64 {
        return Err(Misread::Form);
    }
    any_name(alloc, word)
}

/// The value of at most 20 decimal digits; None where another byte stands among them.
fn value_of(digits: &[u8]) -> Option<u128>
    requires { length digits.now ≤ 20 }
    ensures { result ≡ value_of digits.now }
{
    let mut value: u128 = 0;
    for digit in digits {
        if !digit.is_ascii_digit() {
            return None;
        }
        value = value * 10 + u128::from(*digit - b'0');
    }
    Some(value)
}

/// The number of 1 to 20 decimal digits, which is at most `most`.
pub(crate) fn number_up_to(most: u64, word: &[u8]) -> Result<u64, Misread>
    ensures { IsOf result (number_up_to most word.now) }
{
    if word.is_empty() || word.len() > 20 {
        return Err(Misread::Form);
    }
    match value_of(word) {
        Some(value) if value <= u128::from(most) => Ok(value as u64),
        _ => Err(Misread::Form),
    }
}

/// The same of a number that fits 32 bits.
pub(crate) fn small_number(most: u32, word: &[u8]) -> Result<u32, Misread>
    ensures { IsOf result (number_up_to most word.now) }
{
    let number = number_up_to(u64::from(most), word)?;
    Ok(number as u32)
}

/// The words with a blank between each two.
fn joined(alloc: Global, words: &[&[u8]]) -> Result<Text, AllocError>
    ensures { IfOk result (λ t. t ≡ join_with_byte 32 (texts words.now)) }
{
    let mut text = Text::new(alloc);
    let [first, rest @ ..] = words else {
        return Ok(text);
    };
    text.extend(first)?;
    for word in rest {
        text.push(b' ')?;
        text.extend(word)?;
    }
    Ok(text)
}

/// The rest of a line from a word on, of at least one byte.
pub(crate) fn rest_of_line(alloc: Global, words: &[&[u8]]) -> Result<Text, Misread>
    ensures { IsOf result (some_bytes (join_with_byte 32 (texts words.now))) }
{
    let text = joined(alloc, words)?;
    if text.as_bytes().is_empty() {
        return Err(Misread::Form);
    }
    Ok(text)
}
