//! Worked texts of postings, opened, looked up and written.
ghost use Rattle.std.specs.Prelude.{◌≡◌, IfOk, ◌∷◌, [], codes};

use crate::samples::{POSTINGS, file_of, line_start};
use byte_text::Text;
use directory_input::{BytesError, Input};
use simpletext_postings::{Dictionary, Positions, Row, Rows, write};
use std::alloc::{AllocError, Global};
use std::test::Fail;
use text_lines::TextError;

/// Lines of offsets, payloads and terms with a newline and a backslash in them, lines that are passed over, and a
/// number with leading zeros.
const OFFSETS: &[u8] = b"field f
  term a\\
b
    skipList 
    doc 7
      freq 2
      pos 4
      startOffset 1
    child 3
      endOffset 2
        payload x\\
y
      pos 4
        payload \\\\
  term c\\\\
    doc 0002147483
END
checksum 00000000000000000000
";

// A missing proof of `Send` or `Sync` shows here, and not first at the threads above.
fn crosses<T: Send + Sync>() {}

fn dictionaries_cross() {
    crosses::<Dictionary>()
}

/// The place of the first line of a postings text that is not allowed.
fn bad_place(alloc: Global, bytes: &[u8], docs: u32) -> Result<Option<u64>, TextError> {
    let mut files = file_of(alloc, bytes, 0)?;
    let input = Input::open(&files, 0);
    match Dictionary::open(alloc, &mut files, input, docs) {
        Ok(_) => Ok(None),
        Err(TextError::Bad { at }) => Ok(Some(at)),
        Err(e) => Err(e),
    }
}

fn first(positions: &Positions) -> Option<u32> {
    if positions.len() == 0 {
        None
    } else {
        Some(*positions.get(0))
    }
}

#[test]
fn finds_documents(rt: HostRuntime) -> Result<(), Fail> {
    let alloc = rt.alloc();
    assert_eq!(rt; POSTINGS.len(), 172);
    let mut files = file_of(alloc, POSTINGS, 0)?;
    let input = Input::open(&files, 0);
    let dictionary = Dictionary::open(alloc, &mut files, input, 3)?;
    assert_eq!(rt; files.reads(), 1);
    let fox = dictionary.postings(&mut files, b"body", b"fox")?;
    assert_eq!(rt; fox.len(), 2);
    assert_eq!(rt; fox[0].doc, 0);
    assert_eq!(rt; first(&fox[0].positions), Some(1));
    assert_eq!(rt; fox[1].doc, 2);
    assert_eq!(rt; first(&fox[1].positions), Some(0));
    assert_eq!(rt; dictionary.postings(&mut files, b"body", b"red")?.len(), 1);
    assert_eq!(rt; files.reads(), 3);
    assert!(rt; dictionary.postings(&mut files, b"head", b"fox")?.is_empty());
    assert!(rt; dictionary.postings(&mut files, b"body", b"fo")?.is_empty());
    assert_eq!(rt; files.reads(), 3);
    Ok(())
}

#[test]
fn reads_every_form(rt: HostRuntime) -> Result<(), Fail> {
    let alloc = rt.alloc();
    let mut files = file_of(alloc, OFFSETS, 0)?;
    let input = Input::open(&files, 0);
    let dictionary = Dictionary::open(alloc, &mut files, input, 2_147_484)?;
    let found = dictionary.postings(&mut files, b"f", b"a\nb")?;
    assert_eq!(rt; found.len(), 1);
    assert_eq!(rt; found[0].doc, 7);
    assert_eq!(rt; found[0].positions.len(), 2);
    let last = dictionary.postings(&mut files, b"f", b"c\\")?;
    assert_eq!(rt; last.len(), 1);
    assert_eq!(rt; last[0].doc, 2_147_483);
    assert!(rt; last[0].positions.is_empty());
    Ok(())
}

/// The last digit of a number.
fn digit(number: u32) -> u8 {
    b'0' + (number % 10) as u8
}

/// The name of a term: `t` and three digits.
fn term_name(alloc: Global, number: u32) -> Result<Text, AllocError> {
    let mut name = Text::of(alloc, b"t")?;
    name.push(digit(number / 100))?;
    name.push(digit(number / 10))?;
    name.push(digit(number))?;
    Ok(name)
}

/// The lines of a field that has so many terms, `t001`, `t003` and so on, the term of number i in document `first` + i.
fn push_field(alloc: Global, text: &mut Text, terms: u32, first: u32) -> Result<(), AllocError> {
    for i in 0..terms {
        let name = term_name(alloc, i.wrapping_mul(2).wrapping_add(1))?;
        let doc = first.wrapping_add(i);
        text.extend(b"  term ")?;
        text.extend(name.as_bytes())?;
        let line = format!(in alloc; "\n    doc {doc}\n")?;
        text.extend(line.as_bytes())?;
    }
    Ok(())
}

/// A postings text of two fields of so many terms each.
fn two_fields(alloc: Global, terms: u32) -> Result<Text, AllocError> {
    let mut text = Text::of(alloc, b"field a\n")?;
    push_field(alloc, &mut text, terms, 0)?;
    text.extend(b"field b\n")?;
    push_field(alloc, &mut text, terms, 100)?;
    text.extend(b"END\nchecksum 00000000000000000000\n")?;
    Ok(text)
}

/// The document of a term, in a postings text of two fields of so many terms each; None where it is not there.
fn document_of(
    alloc: Global,
    terms: u32,
    field: &[u8],
    term: &[u8],
) -> Result<Option<u32>, TextError> {
    let text = two_fields(alloc, terms)?;
    let mut files = file_of(alloc, text.as_bytes(), 0)?;
    let input = Input::open(&files, 0);
    let dictionary = Dictionary::open(alloc, &mut files, input, 200)?;
    let found = dictionary.postings(&mut files, field, term)?;
    match found.first() {
        Some(posting) => Ok(Some(posting.doc)),
        None => Ok(None),
    }
}

/// Each term of two fields, and what would stand before it.
#[test]
fn finds_every_term(rt: HostRuntime) -> Result<(), Fail> {
    let alloc = rt.alloc();
    for terms in [0u32, 1, 2, 3, 100] {
        for i in 0..terms {
            let before = i.wrapping_mul(2);
            let name = term_name(alloc, before.wrapping_add(1))?;
            let absent = term_name(alloc, before)?;
            let in_a = document_of(alloc, terms, b"a", name.as_bytes())?;
            assert_eq!(rt; in_a, Some(i), "{i} of {terms}");
            let in_b = document_of(alloc, terms, b"b", name.as_bytes())?;
            assert_eq!(rt; in_b, Some(i.wrapping_add(100)), "{i} of {terms}");
            assert_eq!(rt; document_of(alloc, terms, b"a", absent.as_bytes())?, None);
            assert_eq!(rt; document_of(alloc, terms, b"b", absent.as_bytes())?, None);
        }
    }
    Ok(())
}

/// The empty term, fronts of terms, what goes on behind a term, and what stands before the first and behind the last.
#[test]
fn finds_no_other_term(rt: HostRuntime) -> Result<(), Fail> {
    let alloc = rt.alloc();
    for terms in [0u32, 1, 2, 3, 100] {
        for term in ["", "t", "t00", "t0010", "t00 ", "T001", "t000", "t200", "u"] {
            for field in ["a", "b"] {
                let found = document_of(alloc, terms, field.as_bytes(), term.as_bytes())?;
                assert_eq!(rt; found, None, "{term} of {terms}");
            }
        }
        for field in ["", "A", "aa", "c"] {
            let found = document_of(alloc, terms, field.as_bytes(), b"t001")?;
            assert_eq!(rt; found, None, "{field} of {terms}");
        }
    }
    Ok(())
}

#[test]
fn names_where_a_front_ends(rt: HostRuntime) -> Result<(), Fail> {
    let alloc = rt.alloc();
    for end in 0..POSTINGS.len() {
        let front = &POSTINGS[..end];
        assert_eq!(rt;
            bad_place(alloc, front, 3)?,
            Some(line_start(front)),
            "at {end}"
        );
    }
    Ok(())
}

#[test]
fn names_bad_lines(rt: HostRuntime) -> Result<(), Fail> {
    let alloc = rt.alloc();
    for (front, docs, place) in [
        ("", 1, 17),
        ("    doc 1\n", 1, 17),
        ("    doc 00000000000\n", 1, 17),
        ("    doc 2147483648\n", 4_294_967_295, 17),
        ("    doc 0\n    doc 0\n", 1, 27),
        ("    doc 0\n  term a\n", 1, 27),
        ("    doc 0\n      freq 0\n", 1, 27),
        ("    doc 0\n      freq 1\n        payload x\n", 1, 40),
        ("    doc 0\n      freq 2\n      pos 1\n    doc 1\n", 2, 52),
        ("    doc 0\n      freq 1\n      pos 1\n      pos 2\n", 1, 52),
        (
            "    doc 0\n      freq 1\n      pos 1\n      endOffset 2\n",
            1,
            52,
        ),
        (
            "    doc 2147483647\nEND\nchecksum 00000000000000000000\nx\n",
            2_147_483_648,
            70,
        ),
    ] {
        let text = format!(in alloc; "field f\n  term a\n{front}")?;
        assert_eq!(rt;
            bad_place(alloc, text.as_bytes(), docs)?,
            Some(place),
            "{front}"
        );
    }
    let escaped_end = b"field f\n  term a\\\nEND\nchecksum 00000000000000000000\n".as_slice();
    assert_eq!(rt; bad_place(alloc, escaped_end, 1)?, Some(22));
    Ok(())
}

/// The second read fails; the same dictionary answers afterwards.
#[test]
fn answers_after_a_fault(rt: HostRuntime) -> Result<(), Fail> {
    let alloc = rt.alloc();
    let mut files = file_of(alloc, POSTINGS, 2)?;
    let input = Input::open(&files, 0);
    let dictionary = Dictionary::open(alloc, &mut files, input, 3)?;
    let fault = matches!(
        dictionary.postings(&mut files, b"body", b"fox"),
        Err(TextError::Bytes(BytesError::Fault))
    );
    assert!(rt; fault);
    assert_eq!(rt; dictionary.postings(&mut files, b"body", b"fox")?.len(), 2);
    Ok(())
}

#[test]
fn positions_in_order(rt: HostRuntime) -> Result<(), AllocError> {
    let mut positions = Positions::new(rt.alloc());
    positions.push(3)?;
    positions.push(7)?;
    assert_eq!(rt; positions.len(), 2);
    assert_eq!(rt; *positions.get(1), 7);
    Ok(())
}

const ESCAPED: &[u8] = b"field f\n  term a\\\nb\n    doc 0\nEND\nchecksum 00000000000000000000\n";

/// A row of `body` with one position.
fn body_row(alloc: Global, term: &[u8], doc: u32, position: u32) -> Result<Row, AllocError>
    ensures { IfOk result (λ r. r
        ≡ record { field = codes "body"; term = term.now; doc = doc; positions = position ∷ [] }) }
{
    let mut positions = Positions::new(alloc);
    positions.push(position)?;
    Ok(Row {
        field: Text::of(alloc, b"body")?,
        term: Text::of(alloc, term)?,
        doc,
        positions,
    })
}

#[test]
fn writes_positions(rt: HostRuntime) -> Result<(), AllocError> {
    let alloc = rt.alloc();
    let mut rows = Rows::new(alloc, 3);
    rows.push(body_row(alloc, b"fox", 0, 1)?)?;
    rows.push(body_row(alloc, b"fox", 2, 0)?)?;
    rows.push(body_row(alloc, b"red", 0, 0)?)?;
    let text = write(alloc, &rows)?;
    assert_eq!(rt; text.as_bytes().len(), 172);
    assert_eq!(rt; text.as_bytes(), POSTINGS);
    Ok(())
}

#[test]
fn writes_no_rows(rt: HostRuntime) -> Result<(), AllocError> {
    let rows = Rows::new(rt.alloc(), 0);
    let text = write(rt.alloc(), &rows)?;
    assert_eq!(rt;
        text.as_bytes(),
        b"END\nchecksum 00000000000000000000\n".as_slice()
    );
    Ok(())
}

#[test]
fn writes_escapes(rt: HostRuntime) -> Result<(), AllocError> {
    let alloc = rt.alloc();
    let mut rows = Rows::new(alloc, 1);
    rows.push(Row {
        field: Text::of(alloc, b"f")?,
        term: Text::of(alloc, b"a\nb")?,
        doc: 0,
        positions: Positions::new(alloc),
    })?;
    let text = write(alloc, &rows)?;
    assert_eq!(rt; text.as_bytes(), ESCAPED);
    Ok(())
}
