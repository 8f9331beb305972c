// An archive that tells, with one manifest of three files, and sources of its blobs.
ghost use Rattle.std.specs.Prelude.{◌≡◌, ◌<◌, true, IfOk, ◌++◌, ◌∷◌, []};
ghost use Rattle.byte_text.specs.Names.{is_name};
ghost use Rattle.blob_checks.specs.Example.{example};

use byte_text::{Blobs, Name, Text};
use cache_outside::{Archive, MemSource, SourceCall};
use std::alloc::{AllocError, Global};

/// The archive: the files `__a` of no bytes, `__b` of `abcdef` and `__c` of `xyz!`, cut after three bytes.
pub struct Example;

impl Archive for Example {
    ghost use Rattle.std.specs.Prelude.{true};
    ghost use Rattle.blob_checks.specs.Example.{example, few_blobs, few_manifests, different};

    ghost tells = { true };

    ghost blobs = { example };

    ghost few = { few_blobs };

    ghost few_manifests = { few_manifests };

    ghost different = { different };
}

const MANIFEST: &[u8] =
    b"{\"version\":1,\"files\":[{\"name\":\"__a\",\"physical_name\":\"a\",\"length\":0},{\"name\":\"__b\",\"physical_name\":\"b\",\"length\":6,\"part_size\":3},{\"name\":\"__c\",\"physical_name\":\"c\",\"length\":4,\"part_size\":3}],\"segments\":[]}";

fn add(alloc: Global, blobs: &mut Blobs, name: &[u8], bytes: &[u8]) -> Result<(), AllocError>
    requires { is_name name.now ≡ true }
    ensures { IfOk result (λ _. blobs.new ≡ blobs.old ++ (name.now, bytes.now) ∷ []) }
{
    let text = Text::of(alloc, bytes)?;
    if let Some(name) = Name::read(alloc, name)? {
        blobs.push((name, text))?;
    }
    Ok(())
}

#[tactic(auto, unfolding(crate::specs::Example::example))]
fn example_blobs(alloc: Global) -> Result<Blobs, AllocError>
    ensures { IfOk result (λ b. b ≡ example) }
{
    let mut blobs = Blobs::new(alloc);
    add(alloc, &mut blobs, b"__c.part0", b"xyz")?;
    add(alloc, &mut blobs, b"__a", b"")?;
    add(alloc, &mut blobs, b"mount-t", MANIFEST)?;
    add(alloc, &mut blobs, b"__b.part1", b"def")?;
    add(alloc, &mut blobs, b"__b.part0", b"abc")?;
    add(alloc, &mut blobs, b"__c.part1", b"!")?;
    Ok(blobs)
}

/// A source of its blobs that gives at most `step` bytes a read, and fails at the calls listed.
pub fn source(
    alloc: Global,
    step: usize,
    fails: Vec<(SourceCall, u64)>,
) -> Result<MemSource<Example>, AllocError>
    requires { 0 < step }
{
    let blobs = example_blobs(alloc)?;
    Ok(MemSource::<Example>::new(alloc, blobs, step, fails))
}
