// The blobs of the sample archive: three small manifests over one postings text and its parts, and one over 10,000
// counted bytes.
ghost use Rattle.std.specs.Prelude.{◌≡◌, ◌++◌, ◌∷◌, [], true, IfOk};
ghost use Rattle.byte_text.specs.Names.{is_name};
ghost use Rattle.sample_archive.specs.Sample.{sample, counting};

use byte_text::{Blobs, Name, Text};
use std::alloc::{AllocError, Global};

const MANIFEST_X: &[u8] =
    b"{\"version\":1,\"files\":[{\"name\":\"__a\",\"physical_name\":\"_0.pst\",\"length\":172,\"part_size\":100}],\"segments\":[{\"name\":\"_0\",\"docs\":3,\"postings\":\"_0.pst\"}]}";

const MANIFEST_Y: &[u8] =
    b"{\"version\":1,\"files\":[{\"name\":\"__b\",\"physical_name\":\"big.bin\",\"length\":10000}],\"segments\":[]}";

const MANIFEST_W: &[u8] =
    b"{\"version\":1,\"files\":[{\"name\":\"__w\",\"physical_name\":\"_0.pst\",\"length\":136}],\"segments\":[{\"name\":\"_0\",\"docs\":3,\"postings\":\"_0.pst\"}]}";

const MANIFEST_Z: &[u8] =
    b"{\"version\":1,\"files\":[{\"name\":\"__a\",\"physical_name\":\"_0.pst\",\"length\":172,\"part_size\":100},{\"name\":\"__c\",\"physical_name\":\"_0.fld\",\"length\":111},{\"name\":\"__d\",\"physical_name\":\"_0_1.liv\",\"length\":57}],\"segments\":[{\"name\":\"_0\",\"docs\":3,\"postings\":\"_0.pst\",\"stored\":\"_0.fld\",\"live\":\"_0_1.liv\"}]}";

const STORED_Z: &[u8] =
    b"doc 0\n  field 0\n    name title\n    type string\n    value red fox\ndoc 1\ndoc 2\nEND\nchecksum 00000000000000000000\n";

const LIVE_Z: &[u8] = b"size 3\n  doc 0\n  doc 2\nEND\nchecksum 00000000000000000000\n";

const PART_0: &[u8] =
    b"field body\n  term fox\n    doc 0\n      freq 1\n      pos 1\n    doc 2\n      freq 1\n      pos 0\n  term r";

const PART_1: &[u8] =
    b"ed\n    doc 0\n      freq 1\n      pos 0\nEND\nchecksum 00000000000000000000\n";

const POSTINGS_W: &[u8] =
    b"field body\n  term fox\n    doc 0\n      freq 1\n    doc 2\n      freq 1\n  term red\n    doc 0\n      freq 1\nEND\nchecksum 00000000000000000000\n";

// so many bytes, byte i being i mod 251
fn counting(alloc: Global, n: u32) -> Result<Text, AllocError>
    ensures { IfOk result (λ t. t ≡ counting n) }
{
    let mut text = Text::new(alloc);
    for i in 0..n {
        text.push((i % 251) as u8)?;
    }
    Ok(text)
}

fn add(alloc: Global, blobs: &mut Blobs, name: &[u8], bytes: Text) -> Result<(), AllocError>
    requires { is_name name.now ≡ true }
    ensures { IfOk result (λ _. blobs.new ≡ blobs.old ++ (name.now, bytes) ∷ []) }
{
    if let Some(name) = Name::read(alloc, name)? {
        blobs.push((name, bytes))?;
    }
    Ok(())
}

/// The blobs of the sample archive, in the order of their names.
///
/// Want of memory is the one refusal.
#[tactic(auto, unfolding(crate::specs::Sample::sample))]
pub fn sample_blobs(alloc: Global) -> Result<Blobs, AllocError>
    ensures { IfOk result (λ b. b ≡ sample) }
{
    let mut blobs = Blobs::new(alloc);
    add(alloc, &mut blobs, b"__a.part0", Text::of(alloc, PART_0)?)?;
    add(alloc, &mut blobs, b"__a.part1", Text::of(alloc, PART_1)?)?;
    add(alloc, &mut blobs, b"__b", counting(alloc, 10_000)?)?;
    add(alloc, &mut blobs, b"__c", Text::of(alloc, STORED_Z)?)?;
    add(alloc, &mut blobs, b"__d", Text::of(alloc, LIVE_Z)?)?;
    add(alloc, &mut blobs, b"__w", Text::of(alloc, POSTINGS_W)?)?;
    add(alloc, &mut blobs, b"mount-w", Text::of(alloc, MANIFEST_W)?)?;
    add(alloc, &mut blobs, b"mount-x", Text::of(alloc, MANIFEST_X)?)?;
    add(alloc, &mut blobs, b"mount-y", Text::of(alloc, MANIFEST_Y)?)?;
    add(alloc, &mut blobs, b"mount-z", Text::of(alloc, MANIFEST_Z)?)?;
    Ok(blobs)
}
