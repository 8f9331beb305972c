// Writing the text of a postings file.
ghost use Rattle.std.specs.Prelude.{◌≡◌, ◌++◌, Ok, IfOk, OnOk};
ghost use Rattle.std.specs.Option.{option_copied};
ghost use Rattle.simpletext_postings.specs.Postings.{postings};
ghost use Rattle.simpletext_postings.specs.Written.{name_line, number_line, is_in_field, is_in_term, field_lines};
ghost use Rattle.simpletext_postings.specs.Written.{term_lines, frequency_line, position_line, position_lines};
ghost use Rattle.simpletext_postings.specs.Written.{row_lines, written};

use crate::{Positions, Row, Rows};
use byte_text::Text;
use itoa::Buffer;
use std::alloc::{AllocError, Global};
use text_lines::escape;

/// What stands behind the last row. The checksum is not computed: it is 20 zeros.
const CLOSING: &[u8] = b"END\nchecksum 00000000000000000000\n";

/// A mark, a name with its escapes, and the newline.
fn push_name(alloc: Global, text: &mut Text, mark: &[u8], name: &[u8]) -> Result<(), AllocError>
    ensures { OnOk result (text.new ≡ text.old ++ name_line mark.now name.now) }
{
    let escaped = escape(alloc, name)?;
    text.extend(mark)?;
    text.extend(escaped.as_bytes())?;
    text.push(b'\n')?;
    Ok(())
}

/// A mark, a number in decimal digits, and the newline.
fn push_number(text: &mut Text, mark: &[u8], number: u64) -> Result<(), AllocError>
    ensures { OnOk result (text.new ≡ text.old ++ number_line mark.now number) }
{
    let mut digits = Buffer::new();
    text.extend(mark)?;
    text.extend(digits.format(number).as_bytes())?;
    text.push(b'\n')?;
    Ok(())
}

fn is_in_field(before: Option<&Row>, row: &Row) -> bool
    ensures { result ≡ is_in_field (option_copied before.entry) row.now }
{
    match before {
        Some(before) => before.field.as_bytes() == row.field.as_bytes(),
        None => false,
    }
}

fn is_in_term(before: Option<&Row>, row: &Row) -> bool
    ensures { result ≡ is_in_term (option_copied before.entry) row.now }
{
    match before {
        Some(before) => {
            before.field.as_bytes() == row.field.as_bytes()
                && before.term.as_bytes() == row.term.as_bytes()
        }
        None => false,
    }
}

/// The line of the row's field, where it is not that of the row before.
fn push_field(
    alloc: Global,
    text: &mut Text,
    before: Option<&Row>,
    row: &Row,
) -> Result<(), AllocError>
    ensures { OnOk result (text.new ≡ text.old ++ field_lines (option_copied before.entry) row.now) }
{
    if is_in_field(before, row) {
        return Ok(());
    }
    push_name(alloc, text, b"field ", row.field.as_bytes())
}

/// The line of the row's term, where it is not that of the row before.
fn push_term(
    alloc: Global,
    text: &mut Text,
    before: Option<&Row>,
    row: &Row,
) -> Result<(), AllocError>
    ensures { OnOk result (text.new ≡ text.old ++ term_lines (option_copied before.entry) row.now) }
{
    if is_in_term(before, row) {
        return Ok(());
    }
    push_name(alloc, text, b"  term ", row.term.as_bytes())
}

/// The line of the number of positions.
fn push_frequency(text: &mut Text, count: usize) -> Result<(), AllocError>
    ensures { OnOk result (text.new ≡ text.old ++ frequency_line count) }
{
    push_number(text, b"      freq ", count as u64)
}

/// The line of one position.
fn push_position(text: &mut Text, position: u32) -> Result<(), AllocError>
    ensures { OnOk result (text.new ≡ text.old ++ position_line position) }
{
    push_number(text, b"      pos ", u64::from(position))
}

/// The lines of a document's positions: nothing where it has none.
fn push_positions(text: &mut Text, positions: &Positions) -> Result<(), AllocError>
    ensures { OnOk result (text.new ≡ text.old ++ position_lines positions.now) }
{
    if positions.is_empty() {
        return Ok(());
    }
    push_frequency(text, positions.len())?;
    for i in 0..positions.len() {
        push_position(text, *positions.get(i))?;
    }
    Ok(())
}

/// The lines of a row behind those of the row before.
fn push_row(
    alloc: Global,
    text: &mut Text,
    before: Option<&Row>,
    row: &Row,
) -> Result<(), AllocError>
    ensures { OnOk result (text.new ≡ text.old ++ row_lines (option_copied before.entry) row.now) }
{
    push_field(alloc, text, before, row)?;
    push_term(alloc, text, before, row)?;
    push_number(text, b"    doc ", u64::from(row.doc))?;
    push_positions(text, &row.positions)
}

/// The postings text of the rows, after Lucene SimpleText: a line for each field, each of its terms and each of the
/// term's documents, with the number of the document's positions and a line for each position where it has any, and
/// then `END` and a checksum of 20 zeros. Read for the same number of documents, it has exactly these rows.
pub fn write(alloc: Global, rows: &Rows) -> Result<Text, AllocError>
    ensures text { IfOk result (λ t. t ≡ written rows.now.rows) }
    ensures reads_back { IfOk result (λ t. postings t rows.now.docs ≡ Ok rows.now.rows) }
{
    let mut text = Text::new(alloc);
    let mut before = None;
    for i in 0..rows.len() {
        let row = rows.get(i);
        push_row(alloc, &mut text, before, row)?;
        before = Some(row);
    }
    text.extend(CLOSING)?;
    Ok(text)
}
