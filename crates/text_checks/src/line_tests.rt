//! Inputs, lines, escapes and numbers.
ghost use Rattle.std.specs.Prelude.{◌<◌};
ghost use Rattle.text_lines.specs.Readers.{FitsBytes};

use crate::samples::file_of;
use directory_input::{BytesError, FileBytes, Input, InputError, MemBytes};
use std::alloc::Global;
use std::process::Abort;
use std::test::Fail;
use text_lines::{Line, LineError, LineReader, escape, is_checksum, number, unescape};

#[test]
fn escapes_and_numbers(rt: HostRuntime) -> Result<(), Fail> {
    let alloc = rt.alloc();
    let escaped = escape(alloc, b"a\n\\")?;
    assert_eq!(rt; escaped.as_bytes(), b"a\\\n\\\\".as_slice());
    let back = unescape(alloc, escaped.as_bytes())?;
    assert!(rt; back.is_some_and(|text| text.as_bytes() == b"a\n\\".as_slice()));
    assert!(rt; unescape(alloc, b"\\")?.is_none());
    assert!(rt; unescape(alloc, b"a\nb")?.is_none());
    assert_eq!(rt; number(b"0002147483647"), None);
    assert_eq!(rt; number(b"2147483647"), Some(2_147_483_647));
    assert_eq!(rt; number(b"2147483648"), None);
    assert_eq!(rt; number(b""), None);
    assert!(rt; is_checksum(b"checksum 00000000001234567890"));
    assert!(rt; !is_checksum(b"checksum 0000000000123456789"));
    Ok(())
}

/// A window of four bytes of six, a part of it, its end and what lies behind it.
#[test]
fn windows(rt: HostRuntime) -> Result<(), Fail> {
    let alloc = rt.alloc();
    let mut files = file_of(alloc, b"abcdef", 2)?;
    assert_eq!(rt; files.len(0), 6);
    let whole = Input::open(&files, 0);
    let mut part = whole.slice(1, 4)?;
    assert_eq!(rt; part.len(), 4);
    let past = matches!(part.slice(3, 2), Err(InputError::PastEnd { at: 3, len: 4 }));
    assert!(rt; past);
    let mut two = vec![in alloc; 0u8; 2]?;
    part.read(&mut files, two.as_mut_slice())?;
    assert_eq!(rt; two.as_slice(), b"bc".as_slice());
    let failed = matches!(
        part.read(&mut files, two.as_mut_slice()),
        Err(InputError::Bytes(BytesError::Fault))
    );
    assert!(rt; failed);
    assert_eq!(rt; files.faults(), 1);
    assert_eq!(rt; part.pos(), 2);
    part.seek(4)?;
    let end = matches!(
        part.read(&mut files, two.as_mut_slice()),
        Err(InputError::PastEnd { at: 4, len: 4 })
    );
    assert!(rt; end);
    let behind = matches!(part.seek(5), Err(InputError::PastEnd { at: 5, len: 4 }));
    assert!(rt; behind);
    assert_eq!(rt; files.reads(), 2);
    Ok(())
}

fn shows(
    rt: &impl Abort,
    answer: Result<Option<Line>, LineError>,
    expected: Result<Option<(u64, &[u8])>, LineError>,
) {
    match answer {
        Ok(Some(line)) => {
            assert!(rt; expected == Ok(Some((line.at, line.content.as_bytes()))));
        }
        Ok(None) => assert!(rt; expected == Ok(None)),
        Err(e) => assert!(rt; expected == Err(e)),
    }
}

/// Lines behind one of `front` bytes, whose end is counted, so that the first piece that is read ends among them.
fn reads_across(rt: &impl Abort, alloc: Global, front: usize) -> Result<(), Fail>
    requires { (0 < front) × (front < 70000) }
{
    let plain = vec![in alloc; b'p'; front - 1]?;
    let mut text = Vec::from_slice(alloc, &plain)?;
    text.extend_from_slice(b"\nx\\\nEND\nab\\\\\nc\n")?;
    let mut files = MemBytes::new(alloc);
    files.add(text)?;
    let mut reader = LineReader::new(alloc, Input::open(&files, 0))?;
    let at = front as u64;
    let first = reader.next_line(&mut files);
    shows(rt, first, Ok(Some((0, plain.as_slice()))));
    let second = reader.next_line(&mut files);
    shows(rt, second, Ok(Some((at, b"x\nEND"))));
    let third = reader.next_line(&mut files);
    shows(rt, third, Ok(Some((at + 7, b"ab\\"))));
    let fourth = reader.next_line(&mut files);
    shows(rt, fourth, Ok(Some((at + 12, b"c"))));
    let end = reader.next_line(&mut files);
    shows(rt, end, Ok(None));
    Ok(())
}

#[test]
fn reads_across_pieces(rt: HostRuntime) -> Result<(), Fail> {
    for front in 65_520..65_540 {
        reads_across(&rt, rt.alloc(), front)?;
    }
    Ok(())
}

/// How long the content of the first line is, of a text of so many equal bytes and what stands behind them.
fn first_length(alloc: Global, count: usize, end: &[u8]) -> Result<Result<usize, LineError>, Fail> {
    let mut text = vec![in alloc; b'p'; count]?;
    text.extend_from_slice(end)?;
    let mut files = MemBytes::new(alloc);
    files.add(text)?;
    let mut reader = LineReader::new(alloc, Input::open(&files, 0))?;
    match reader.next_line(&mut files) {
        Ok(Some(line)) => Ok(Ok(line.content.as_bytes().len())),
        Ok(None) => Ok(Ok(0)),
        Err(e) => Ok(Err(e)),
    }
}

#[test]
fn reads_long_lines(rt: HostRuntime) -> Result<(), Fail> {
    let alloc = rt.alloc();
    assert_eq!(rt; first_length(alloc, 16_777_215, b"\n")?, Ok(16_777_215));
    assert_eq!(rt;
        first_length(alloc, 16_777_216, b"\n")?,
        Err(LineError::TooLong { at: 0 })
    );
    assert_eq!(rt;
        first_length(alloc, 16_777_216, b"")?,
        Err(LineError::Unended { at: 0 })
    );
    assert_eq!(rt;
        first_length(alloc, 16_777_217, b"")?,
        Err(LineError::TooLong { at: 0 })
    );
    Ok(())
}

/// The first read fails; the last line is cut off inside an escape.
#[test]
fn reads_lines(rt: HostRuntime) -> Result<(), Fail> {
    let alloc = rt.alloc();
    let mut files = MemBytes::new(alloc);
    files.fail_at(1)?;
    files.add(b"x\\\nEND\nab\\\\\n\\".to_vec(alloc)?)?;
    let mut reader = LineReader::new(alloc, Input::open(&files, 0))?;
    shows(
        &rt,
        reader.next_line(&mut files),
        Err(LineError::Bytes(BytesError::Fault)),
    );
    shows(&rt, reader.next_line(&mut files), Ok(Some((0, b"x\nEND"))));
    shows(&rt, reader.next_line(&mut files), Ok(Some((7, b"ab\\"))));
    shows(
        &rt,
        reader.next_line(&mut files),
        Err(LineError::Unended { at: 12 }),
    );
    shows(
        &rt,
        reader.next_line(&mut files),
        Err(LineError::Unended { at: 12 }),
    );
    Ok(())
}

#[test]
fn reads_no_lines(rt: HostRuntime) -> Result<(), Fail> {
    let alloc = rt.alloc();
    let mut files = MemBytes::new(alloc);
    files.add(Vec::new(alloc))?;
    let mut reader = LineReader::new(alloc, Input::open(&files, 0))?;
    shows(&rt, reader.next_line(&mut files), Ok(None));
    Ok(())
}

/// Passes the line that the reader of these files lends, which is expected.
fn lends<B: FileBytes>(rt: &impl Abort, files: &B, reader: &mut LineReader, expected: Option<&[u8]>)
    requires { FitsBytes (B.view files.now) reader.old }
    ensures { FitsBytes (B.view files.now) reader.new }
{
    let _ = files;
    let Some(content) = reader.near() else {
        assert!(rt; expected.is_none());
        return;
    };
    assert!(rt; expected == Some(content));
    let count = content.len() + 1;
    reader.pass(count);
}

/// A line is lent where it ends among the next 32 bytes read ahead and has no backslash.
#[test]
fn lends_near_lines(rt: HostRuntime) -> Result<(), Fail> {
    let alloc = rt.alloc();
    let mut text = b"a\nbc\n\n\\d\n".to_vec(alloc)?;
    text.extend_from_slice(b"0123456789012345678901234567890\n")?;
    text.extend_from_slice(b"01234567890123456789012345678901\nz\n")?;
    let mut files = MemBytes::new(alloc);
    files.add(text)?;
    let mut reader = LineReader::new(alloc, Input::open(&files, 0))?;
    lends(&rt, &files, &mut reader, None);
    shows(&rt, reader.next_line(&mut files), Ok(Some((0, b"a"))));
    lends(&rt, &files, &mut reader, Some(b"bc"));
    assert_eq!(rt; reader.pos(), 5);
    lends(&rt, &files, &mut reader, Some(b""));
    assert_eq!(rt; reader.pos(), 6);
    lends(&rt, &files, &mut reader, None);
    shows(&rt, reader.next_line(&mut files), Ok(Some((6, b"d"))));
    lends(
        &rt,
        &files,
        &mut reader,
        Some(b"0123456789012345678901234567890"),
    );
    assert_eq!(rt; reader.pos(), 41);
    lends(&rt, &files, &mut reader, None);
    let long = reader.next_line(&mut files);
    shows(
        &rt,
        long,
        Ok(Some((41, b"01234567890123456789012345678901"))),
    );
    lends(&rt, &files, &mut reader, None);
    shows(&rt, reader.next_line(&mut files), Ok(Some((74, b"z"))));
    lends(&rt, &files, &mut reader, None);
    shows(&rt, reader.next_line(&mut files), Ok(None));
    Ok(())
}
