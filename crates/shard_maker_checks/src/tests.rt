// Archives that are made: their postings, their parts and their scripts.
ghost use Rattle.std.specs.Prelude.{◌≡◌, length, IfOk};

use byte_text::Blobs;
use directory_input::{Input, MemBytes};
use shard_maker::{Made, can_make, make};
use simpletext_postings::Dictionary;
use std::alloc::{AllocError, Global};
use std::process::Abort;
use std::test::Fail;

fn made(
    rt: &impl Abort,
    alloc: Global,
    seed: u64,
    docs: u32,
    terms: u32,
) -> Result<Made, AllocError> {
    assert!(rt; can_make(docs, terms));
    make(alloc, seed, docs, terms)
}

/// The bytes of all blobs but the manifest, joined.
fn joined(alloc: Global, blobs: &Blobs) -> Result<Vec<u8>, AllocError> {
    let mut text = Vec::new(alloc);
    for i in 0..blobs.len() {
        let blob = blobs.get(i);
        if blob.0.as_str() != "mount-made" {
            text.extend_from_slice(blob.1.as_bytes())?;
        }
    }
    Ok(text)
}

fn file_of(alloc: Global, bytes: &[u8]) -> Result<MemBytes, AllocError>
    ensures { IfOk result (λ m. length m.files ≡ 1) }
{
    let mut files = MemBytes::new(alloc);
    files.add(Vec::from_slice(alloc, bytes)?)?;
    Ok(files)
}

const TERMS: [&str; 12] = [
    "t00000", "t00001", "t00002", "t00003", "t00004", "t00005", "t00006", "t00007", "t00008",
    "t00009", "t00010", "t00011",
];

/// The documents of a term, as a dictionary that is opened over a postings text finds them.
fn docs_with(alloc: Global, text: &[u8], docs: u32, term: &str) -> Result<Vec<u32>, Fail> {
    let mut files = file_of(alloc, text)?;
    let input = Input::open(&files, 0);
    let dictionary = Dictionary::open(alloc, &mut files, input, docs)?;
    let mut found = Vec::new(alloc);
    for posting in &dictionary.postings(&mut files, b"body", term.as_bytes())? {
        found.push(posting.doc)?;
    }
    Ok(found)
}

/// The pairs of a term and a document of a postings text, by term.
fn pairs_of(alloc: Global, text: &[u8], docs: u32) -> Result<Vec<(usize, u32)>, Fail> {
    let mut pairs = Vec::new(alloc);
    for t in 0..TERMS.len() {
        for doc in &docs_with(alloc, text, docs, TERMS[t])? {
            pairs.push((t, *doc))?;
        }
    }
    Ok(pairs)
}

/// A seed, documents, terms, and the pairs of a term and a document that have 0 drawn. The pairs come from a script of
/// ten lines of Python over the generator's definition, `x = (x * 6364136223846793005 + 1442695040888963407) % 2**64`
/// and `(x >> 33) % 16`, and none from this program. The first two by hand: seed 5 gives the state 0xCD9F40617652FD30,
/// whose quotient 0x66CFA030 ends in 0, and seed 1 gives 0x6C576FAC43FD007C, whose quotient 0x362BB7D6 ends in 6.
const DRAWN: [(u64, u32, u32, &[(usize, u32)]); 4] = [
    (5, 1, 1, &[(0, 0)]),
    (1, 1, 1, &[]),
    (
        7,
        25,
        4,
        &[
            (0, 12),
            (0, 13),
            (1, 0),
            (1, 4),
            (1, 17),
            (1, 21),
            (1, 22),
            (2, 6),
            (2, 7),
            (3, 7),
            (3, 8),
        ],
    ),
    (
        2026,
        6,
        12,
        &[(0, 5), (1, 1), (3, 3), (4, 3), (5, 5), (11, 2)],
    ),
];

#[test]
fn pairs_are_those_that_are_drawn(rt: HostRuntime) -> Result<(), Fail> {
    let alloc = rt.alloc();
    for (seed, docs, terms, wanted) in DRAWN {
        let made = made(&rt, rt.alloc(), seed, docs, terms)?;
        let text = joined(alloc, &made.blobs)?;
        let pairs = pairs_of(alloc, &text, docs)?;
        assert_eq!(rt; pairs.as_slice(), wanted, "seed {seed}");
        assert_eq!(rt; made.postings, wanted.len() as u64, "seed {seed}");
        assert_eq!(rt; made.blobs.len(), 2, "seed {seed}");
    }
    Ok(())
}

/// 20,000 documents and 100 terms, of which the same lines of Python draw 124,906 pairs: every part but the last has
/// 4,096 bytes, and the manifest is behind them.
#[test]
fn parts_have_their_sizes(rt: HostRuntime) -> Result<(), Fail> {
    let alloc = rt.alloc();
    let made = made(&rt, rt.alloc(), 3, 20_000, 100)?;
    assert_eq!(rt; made.postings, 124_906);
    let count = made.blobs.len();
    assert!(rt; count > 1000);
    for k in 0..count - 1 {
        let blob = made.blobs.get(k);
        let part = format!(in alloc; "__made.part{k}")?;
        assert_eq!(rt; blob.0.as_str(), part.as_str());
        let size = blob.1.as_bytes().len();
        assert!(rt; size == 4096 || (k + 2 == count && 0 < size && size < 4096));
    }
    assert_eq!(rt; made.blobs.get(count - 1).0.as_str(), "mount-made");
    Ok(())
}

/// The first lines of the script of seed 7, 25 documents and 4 terms. By the same lines of Python the first ten draws
/// behind those of all pairs, below 4, are 0, 2, 1, 0, 3, 3, 3, 0, 2, 3.
const FRONT: &[u8] = br#"mount made mount-made
search made 10 {"term":{"body":"t00000"}}
search made 10 {"bool":{"must":[{"term":{"body":"t00001"}},{"term":{"body":"t00000"}}]}}
search made 10 {"bool":{"should":[{"term":{"body":"t00003"}},{"term":{"body":"t00003"}}]}}
search made 10 {"bool":{"must":{"term":{"body":"t00003"}},"must_not":{"term":{"body":"t00000"}}}}
search made 10 {"term":{"body":"t00002"}}
"#;

#[test]
fn scripts_have_each_query(rt: HostRuntime) -> Result<(), Fail> {
    let once = made(&rt, rt.alloc(), 7, 25, 4)?;
    assert!(rt; once.script.as_bytes().starts_with(FRONT));
    let twice = made(&rt, rt.alloc(), 7, 25, 4)?;
    assert_eq!(rt; twice.script.as_bytes(), once.script.as_bytes());
    Ok(())
}

#[test]
fn limits_of_what_can_be_made(rt: HostRuntime) {
    for (docs, terms, can) in [
        (1, 1, true),
        (100_000, 40, true),
        (40, 100_000, true),
        (2000, 2000, true),
        (0, 1, false),
        (1, 0, false),
        (100_001, 1, false),
        (1, 100_001, false),
        (2000, 2001, false),
        (4_294_967_295, 4_294_967_295, false),
    ] {
        assert_eq!(rt; can_make(docs, terms), can, "at {docs} and {terms}");
    }
}
