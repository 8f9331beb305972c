//! The texts of one segment of three documents, and files in memory.
ghost use Rattle.std.specs.Prelude.{◌≡◌, length, IfOk};

use directory_input::MemBytes;
use std::alloc::{AllocError, Global};

/// Postings of three documents: `fox` in the first and the last, `red` in the first.
pub const POSTINGS: &[u8] = b"field body
  term fox
    doc 0
      freq 1
      pos 1
    doc 2
      freq 1
      pos 0
  term red
    doc 0
      freq 1
      pos 0
END
checksum 00000000000000000000
";

/// Stored fields of three documents, of which the first has a title.
pub const STORED: &[u8] = b"doc 0
  field 0
    name title
    type string
    value red fox
doc 1
doc 2
END
checksum 00000000000000000000
";

/// Live documents: 0 and 2 of three.
pub const LIVE: &[u8] = b"size 3
  doc 0
  doc 2
END
checksum 00000000000000000000
";

/// One file of these bytes, of which the read of this number (from 1; 0 for none) fails.
pub fn file_of(alloc: Global, bytes: &[u8], failing: u64) -> Result<MemBytes, AllocError>
    ensures { IfOk result (λ m. length m.files ≡ 1) }
{
    let mut files = MemBytes::new(alloc);
    files.add(bytes.to_vec(alloc)?)?;
    files.fail_at(failing)?;
    Ok(files)
}

/// Three files, the postings, the stored fields and the live documents, of which the read of this number (from 1; 0 for
/// none) fails.
pub fn three_files(alloc: Global, failing: u64) -> Result<MemBytes, AllocError>
    ensures { IfOk result (λ m. length m.files ≡ 3) }
{
    let mut files = MemBytes::new(alloc);
    files.add(POSTINGS.to_vec(alloc)?)?;
    files.add(STORED.to_vec(alloc)?)?;
    files.add(LIVE.to_vec(alloc)?)?;
    files.fail_at(failing)?;
    Ok(files)
}

/// Where the last line that begins in these bytes begins; none of them is escaped.
pub fn line_start(bytes: &[u8]) -> u64 {
    let mut start: u64 = 0;
    let mut place: u64 = 0;
    for byte in bytes {
        place = place.saturating_add(1);
        if *byte == b'\n' {
            start = place;
        }
    }
    start
}
