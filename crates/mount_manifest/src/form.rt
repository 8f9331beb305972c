// The form of a manifest: its members, in their order.
ghost use Rattle.std.specs.Prelude.{◌≡◌, IfOk, max, map, codes, option_and_then, unwrap_or};
ghost use Rattle.serde_json.specs.View.{view};
ghost use Rattle.mount_manifest.specs.Steps.{Gives, GivesBy, GivesList, or_refuse, each};
ghost use Rattle.mount_manifest.specs.Json.{json_of, whole_at, name_at};
ghost use Rattle.mount_manifest.specs.Manifest.{shaped, file_facts, segment_facts, one, file_name};

use crate::member::{
    name_member, objects_member, optional_name_member, optional_whole_member, whole_member,
};
use crate::names::is_file_name;
use crate::record::{FileRecord, NamedSegment};
use crate::{Field, ManifestError};
use byte_text::Name;
use serde_json::Value;
use std::alloc::{AllocError, Global};
use std::marker::Model;

/// Files, and segments whose files still are names.
#[derive(Drop)]
pub struct ShapedText {
    pub files: Vec<FileRecord>,
    pub segments: Vec<NamedSegment>,
}

impl Model for ShapedText {
    ghost use Rattle.mount_manifest.specs.Manifest.{Shaped};
    ghost use Rattle.mount_manifest.specs.Sound.{AllNamed};

    ghost Value = { Shaped };

    ghost view = { λ t. record { files = t.files.items; segments = t.segments.items } };

    ghost invariant = { λ t. AllNamed t.files.items };
}

/// The JSON value of these bytes.
pub fn json_of(alloc: Global, bytes: &[u8]) -> Result<Value, ManifestError>
    ensures { GivesBy view result (or_refuse ManifestError.NotJson (json_of bytes.now)) }
{
    match Value::from_slice(alloc, bytes) {
        Ok(value) => Ok(value),
        Err(e) => {
            if e.is_memory() {
                Err(ManifestError::NoMemory)
            } else {
                Err(ManifestError::NotJson)
            }
        }
    }
}

fn file_name_member(alloc: Global, value: &Value) -> Result<Option<Name>, AllocError>
    ensures { IfOk result
        (λ o. o ≡ option_and_then file_name (name_at (codes "name") (view value.now))) }
{
    match name_member(alloc, value, "name")? {
        Some(name) => {
            if is_file_name(name.as_str().as_bytes()) {
                Ok(Some(name))
            } else {
                Ok(None)
            }
        }
        None => Ok(None),
    }
}

/// A file without part size is one part.
fn part_size_of(length: u64, part_size: Option<u64>) -> u64
    ensures { result ≡ unwrap_or part_size (max length 1) }
{
    match part_size {
        Some(size) => size,
        None => length.max(1),
    }
}

#[tactic(auto, unfolding(crate::specs::Manifest::file_facts))]
fn file_of(alloc: Global, value: &Value) -> Result<FileRecord, ManifestError>
    ensures { Gives result (file_facts (view value.now)) }
{
    let name = file_name_member(alloc, value)?.ok_or(ManifestError::Shape { field: Field::Name })?;
    let physical_name = name_member(alloc, value, "physical_name")?.ok_or(ManifestError::Shape {
        field: Field::PhysicalName,
    })?;
    let length = whole_member(value, "length").ok_or(ManifestError::Shape {
        field: Field::Length,
    })?;
    let part_size = optional_whole_member(value, "part_size").ok_or(ManifestError::Shape {
        field: Field::PartSize,
    })?;
    Ok(FileRecord {
        name,
        physical_name,
        length,
        part_size: part_size_of(length, part_size),
    })
}

#[tactic(auto, unfolding(crate::specs::Manifest::segment_facts))]
fn segment_of(alloc: Global, value: &Value) -> Result<NamedSegment, ManifestError>
    ensures { Gives result (segment_facts (view value.now)) }
{
    let name = name_member(alloc, value, "name")?.ok_or(ManifestError::Shape {
        field: Field::Name,
    })?;
    let docs = whole_member(value, "docs").ok_or(ManifestError::Shape { field: Field::Docs })?;
    let postings = name_member(alloc, value, "postings")?.ok_or(ManifestError::Shape {
        field: Field::Postings,
    })?;
    let stored = optional_name_member(alloc, value, "stored")?.ok_or(ManifestError::Shape {
        field: Field::Stored,
    })?;
    let live = optional_name_member(alloc, value, "live")?.ok_or(ManifestError::Shape {
        field: Field::Live,
    })?;
    Ok(NamedSegment {
        name,
        docs,
        postings,
        stored,
        live,
    })
}

fn files_of(alloc: Global, values: &[Value]) -> Result<Vec<FileRecord>, ManifestError>
    ensures { GivesList result (each file_facts (map view values.now)) }
{
    let mut files = Vec::new(alloc);
    for value in values {
        files.push(file_of(alloc, value)?)?;
    }
    Ok(files)
}

fn segments_of(alloc: Global, values: &[Value]) -> Result<Vec<NamedSegment>, ManifestError>
    ensures { GivesList result (each segment_facts (map view values.now)) }
{
    let mut segments = Vec::new(alloc);
    for value in values {
        segments.push(segment_of(alloc, value)?)?;
    }
    Ok(segments)
}

fn version_of(value: &Value) -> Option<u64>
    ensures { result ≡ option_and_then one (whole_at (codes "version") (view value.now)) }
{
    match whole_member(value, "version") {
        Some(1) => Some(1),
        _ => None,
    }
}

/// The files and segments of this value, or the first member that is missing or not of its form.
#[tactic(auto, unfolding(crate::specs::Manifest::shaped))]
pub fn shaped(alloc: Global, value: &Value) -> Result<ShapedText, ManifestError>
    ensures { Gives result (shaped (view value.now)) }
{
    value.as_object().ok_or(ManifestError::Shape {
        field: Field::Manifest,
    })?;
    version_of(value).ok_or(ManifestError::Shape {
        field: Field::Version,
    })?;
    let files = objects_member(value, "files").ok_or(ManifestError::Shape {
        field: Field::Files,
    })?;
    let files = files_of(alloc, files)?;
    let segments = objects_member(value, "segments").ok_or(ManifestError::Shape {
        field: Field::Segments,
    })?;
    let segments = segments_of(alloc, segments)?;
    Ok(ShapedText { files, segments })
}
