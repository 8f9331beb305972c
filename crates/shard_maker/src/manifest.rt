// The manifest of what is made.
ghost use Rattle.std.specs.Prelude.{◌≡◌, ◌≤◌, IfOk, codes, string_bytes, Ok};
ghost use Rattle.serde_json.specs.View.{view};
ghost use Rattle.mount_manifest.specs.Manifest.{manifest};
ghost use Rattle.shard_maker.specs.Manifests.{manifest_value};
ghost use Rattle.shard_maker.specs.Made.{made_file, made_facts};

use byte_text::{Name, Text};
use mount_manifest::FileRecord;
use serde_json::{Value, json};
use std::alloc::{AllocError, Global};

/// The name of the manifest's blob.
pub(crate) fn manifest_name(alloc: Global) -> Result<Name, AllocError>
    ensures { IfOk result (λ n. n ≡ codes "mount-made") }
{
    Ok(Name::read(alloc, b"mount-made")?.unwrap())
}

/// The one file, whose text has so many bytes.
pub(crate) fn made_file(alloc: Global, size: u64) -> Result<FileRecord, AllocError>
    ensures { IfOk result (λ f. f ≡ made_file size) }
{
    Ok(FileRecord {
        name: Name::read(alloc, b"__made")?.unwrap(),
        physical_name: Name::read(alloc, b"_0.pst")?.unwrap(),
        length: size,
        part_size: 4096,
    })
}

fn manifest_value(alloc: Global, docs: u32, size: u64) -> Result<Value, AllocError>
    ensures { IfOk result (λ v. view v ≡ manifest_value docs size) }
{
    json!(in alloc; {
        "version": 1,
        "files": [{
            "name": "__made",
            "physical_name": "_0.pst",
            "length": size,
            "part_size": 4096,
        }],
        "segments": [{
            "name": "_0",
            "docs": docs,
            "postings": "_0.pst",
        }],
    })
}

fn text_of(text: String) -> Text
    ensures { result ≡ string_bytes text }
{
    Text::from_vec(text.into_bytes())
}

/// The text of the manifest for so many documents and a file of so many bytes.
pub(crate) fn made_manifest(alloc: Global, docs: u32, size: u64) -> Result<Text, AllocError>
    requires docs { docs ≤ 100000 }
    requires size { size ≤ 4294967296 }
    ensures { IfOk result (λ t. manifest t ≡ Ok (made_facts docs size)) }
{
    let value = manifest_value(alloc, docs, size)?;
    let text = value.to_string(alloc)?;
    Ok(text_of(text))
}
