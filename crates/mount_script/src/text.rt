// The text of each reply.
ghost use Rattle.std.specs.Prelude.{◌≡◌, ◌++◌, IfOk, OnOk, decimal, codes, map};
ghost use Rattle.std.specs.List.{flat_map};
ghost use Rattle.mount_script.specs.Replies.{text_of, mounted_text, hit_text, hits_text, field_text};
ghost use Rattle.mount_script.specs.Replies.{fields_text, bytes_text, counter_text, counter_of};

use crate::Reply;
use base64::engine::general_purpose::STANDARD;
use byte_text::{Name, Text};
use itoa::Buffer;
use std::alloc::{AllocError, Global};

/// Puts a number in decimal digits behind a text.
fn push_number(text: &mut Text, number: u64) -> Result<(), AllocError>
    ensures { OnOk result (text.new ≡ text.old ++ decimal number) }
{
    let mut buffer = Buffer::new();
    text.extend(buffer.format(number).as_bytes())
}

fn push_hit(text: &mut Text, hit: &(Name, u32)) -> Result<(), AllocError>
    ensures { OnOk result (text.new ≡ text.old ++ hit_text hit.now) }
{
    text.extend(b" ")?;
    text.extend(hit.0.as_str().as_bytes())?;
    text.extend(b"/")?;
    push_number(text, u64::from(hit.1))
}

/// The total, and the hits that are shown.
fn hits(alloc: Global, total: u64, shown: &[(Name, u32)]) -> Result<Text, AllocError>
    ensures { IfOk result (λ t. t ≡ hits_text total shown.now) }
{
    let mut text = Text::of(alloc, b"hits ")?;
    push_number(&mut text, total)?;
    for hit in shown {
        push_hit(&mut text, hit)?;
    }
    Ok(text)
}

/// A field's name and value in base64, and between them the word of its kind.
fn push_field(alloc: Global, text: &mut Text, field: &(Text, Text, Text)) -> Result<(), AllocError>
    ensures { OnOk result (text.new ≡ text.old ++ field_text field.now) }
{
    text.extend(b" ")?;
    text.extend(STANDARD.encode(alloc, field.0.as_bytes())?.as_bytes())?;
    text.extend(b":")?;
    text.extend(field.1.as_bytes())?;
    text.extend(b":")?;
    text.extend(STANDARD.encode(alloc, field.2.as_bytes())?.as_bytes())
}

fn fields(alloc: Global, fields: &[(Text, Text, Text)]) -> Result<Text, AllocError>
    ensures { IfOk result (λ t. t ≡ fields_text fields.now) }
{
    let mut text = Text::of(alloc, b"fields ")?;
    push_number(&mut text, fields.len() as u64)?;
    for field in fields {
        push_field(alloc, &mut text, field)?;
    }
    Ok(text)
}

/// How many bytes there are, and the bytes in hex.
fn bytes(alloc: Global, bytes: &[u8]) -> Result<Text, AllocError>
    ensures { IfOk result (λ t. t ≡ bytes_text bytes.now) }
{
    let mut text = Text::of(alloc, b"bytes ")?;
    push_number(&mut text, bytes.len() as u64)?;
    if !bytes.is_empty() {
        text.extend(b" ")?;
        text.extend(hex::encode(alloc, bytes)?.as_bytes())?;
    }
    Ok(text)
}

fn mounted(alloc: Global, files: u32, docs: u64) -> Result<Text, AllocError>
    ensures { IfOk result (λ t. t ≡ mounted_text files docs) }
{
    let mut text = Text::of(alloc, b"mounted ")?;
    push_number(&mut text, u64::from(files))?;
    text.extend(b" files ")?;
    push_number(&mut text, docs)?;
    text.extend(b" docs")?;
    Ok(text)
}

fn push_counter(text: &mut Text, word: &[u8], number: u64) -> Result<(), AllocError>
    ensures { OnOk result (text.new ≡ text.old ++ counter_text (word.now, number)) }
{
    text.extend(b" ")?;
    text.extend(word)?;
    text.extend(b" ")?;
    push_number(text, number)
}

/// Each counter's word and number, in order.
fn counters(alloc: Global, counters: &[(&[u8], u64)]) -> Result<Text, AllocError>
    ensures { IfOk result (λ t. t ≡ codes "stats" ++ flat_map counter_text (map counter_of counters.now)) }
{
    let mut text = Text::of(alloc, b"stats")?;
    for (word, number) in counters {
        push_counter(&mut text, word, *number)?;
    }
    Ok(text)
}

impl Reply {
    /// The reply's text, without the number of its line and without a newline: numbers in decimal digits, the bytes of
    /// a read in lower-case hex, and the names and values of stored fields in base64 with the alphabet of RFC 4648,
    /// section 4, padded.
    pub fn text(&self, alloc: Global) -> Result<Text, AllocError>
        ensures text { IfOk result (λ t. t ≡ text_of self.now) }
    {
        match self {
            Reply::Mounted { files, docs } => mounted(alloc, *files, *docs),
            Reply::Unmounted => Text::of(alloc, b"unmounted"),
            Reply::Cleared => Text::of(alloc, b"cleared"),
            Reply::Decayed => Text::of(alloc, b"decayed"),
            Reply::Hits { total, shown } => hits(alloc, *total, shown.as_slice()),
            Reply::Fields { fields: list } => fields(alloc, list.as_slice()),
            Reply::Bytes { bytes: list } => bytes(alloc, list.as_bytes()),
            Reply::Stats {
                free,
                listed,
                leaving,
                evictions,
                promotions,
                demotions,
                fetched,
                direct,
            } => counters(
                alloc,
                &[
                    (b"free", u64::from(*free)),
                    (b"listed", u64::from(*listed)),
                    (b"leaving", u64::from(*leaving)),
                    (b"evictions", *evictions),
                    (b"promotions", *promotions),
                    (b"demotions", *demotions),
                    (b"fetched", *fetched),
                    (b"direct", *direct),
                ],
            ),
            Reply::Refused { text } => Text::of(alloc, text.as_bytes()),
            Reply::Fault => Text::of(alloc, b"fault"),
            Reply::Gone => Text::of(alloc, b"gone"),
            Reply::NoMemory => Text::of(alloc, b"no memory"),
        }
    }
}
