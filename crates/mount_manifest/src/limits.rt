// What is refused in a manifest whose form is right: limits, names that stand twice, files that are missing.
ghost use Rattle.std.specs.Prelude.{◌≡◌, ◌≤◌, [], length, IfSome, ◌<◌};
ghost use Rattle.std.specs.List.{list_any};
ghost use Rattle.mount_manifest.specs.Steps.{Gives, GivesList, at_most, each};
ghost use Rattle.mount_manifest.specs.Manifest.{not_zero, sum_with, file_limits, all_file_limits, segment_limits};
ghost use Rattle.mount_manifest.specs.Manifest.{all_segment_limits, no_doubles, same_file, physical_name_of};
ghost use Rattle.mount_manifest.specs.Manifest.{same_segment, segment_name_of, file_number, file_of, optional_file};
ghost use Rattle.mount_manifest.specs.Manifest.{placed};
ghost use Rattle.mount_manifest.specs.Sound.{FewDocs};

use crate::record::{FileRecord, NamedSegment, Segment};
use crate::{Field, ManifestError};
use byte_text::Name;
use std::alloc::Global;

/// Refuses a value above its limit.
pub fn at_most(limit: u64, field: Field, value: u64) -> Result<(), ManifestError>
    ensures { Gives result (at_most limit field value) }
{
    if value > limit {
        return Err(ManifestError::Limit { field, value });
    }
    Ok(())
}

fn not_zero(field: Field, value: u64) -> Result<(), ManifestError>
    ensures { Gives result (not_zero field value) }
{
    if value == 0 {
        return Err(ManifestError::Limit { field, value });
    }
    Ok(())
}

/// The number of parts of this file and of those before it, which have `sum`.
#[tactic(auto, unfolding(crate::specs::Manifest::file_limits))]
fn file_limits(sum: u64, file: &FileRecord) -> Result<u64, ManifestError>
    ensures { Gives result (file_limits sum file.now) }
{
    at_most(1_099_511_623_680, Field::Length, file.length)?;
    not_zero(Field::PartSize, file.part_size)?;
    let total = sum.saturating_add(file.parts());
    at_most(1_048_576, Field::Parts, total)?;
    Ok(total)
}

/// Goes through the limits of each file, and gives the number of all parts.
pub fn all_file_limits(files: &[FileRecord]) -> Result<u64, ManifestError>
    ensures { Gives result (all_file_limits 0 files.now) }
{
    let mut sum = 0;
    for file in files {
        sum = file_limits(sum, file)?;
    }
    Ok(sum)
}

pub fn all_segment_limits(segments: &[NamedSegment]) -> Result<(), ManifestError>
    ensures { Gives result (all_segment_limits segments.now) }
{
    for segment in segments {
        at_most(16_777_216, Field::Docs, segment.docs)?;
    }
    Ok(())
}

fn is_among_files(file: &FileRecord, files: &[FileRecord]) -> bool
    ensures { result ≡ list_any (same_file file.now) files.now }
{
    for other in files {
        if file.physical_name == other.physical_name || file.name == other.name {
            return true;
        }
    }
    false
}

fn is_among_segments(segment: &NamedSegment, segments: &[NamedSegment]) -> bool
    ensures { result ≡ list_any (same_segment segment.now) segments.now }
{
    for other in segments {
        if segment.name == other.name {
            return true;
        }
    }
    false
}

/// Refuses the first file whose physical name or name is that of an earlier one.
pub fn no_double_files(files: &[FileRecord]) -> Result<(), ManifestError>
    ensures { Gives result (no_doubles same_file physical_name_of [] files.now) }
{
    for i in 0..files.len() {
        if is_among_files(&files[i], &files[..i]) {
            return Err(ManifestError::Double {
                name: files[i].physical_name.clone()?,
            });
        }
    }
    Ok(())
}

/// Refuses the first segment whose name is that of an earlier one.
pub fn no_double_segments(segments: &[NamedSegment]) -> Result<(), ManifestError>
    ensures { Gives result (no_doubles same_segment segment_name_of [] segments.now) }
{
    for i in 0..segments.len() {
        if is_among_segments(&segments[i], &segments[..i]) {
            return Err(ManifestError::Double {
                name: segments[i].name.clone()?,
            });
        }
    }
    Ok(())
}

/// The number of the file with this physical name.
pub fn file_number(files: &[FileRecord], name: &Name) -> Option<u32>
    requires { length files.now ≤ 4096 }
    ensures number { result ≡ file_number files.now name.now }
    ensures below { IfSome result (λ i. i < length files.now) }
{
    for i in 0..files.len() {
        if files[i].physical_name == *name {
            return Some(i as u32);
        }
    }
    None
}

fn file_of(files: &[FileRecord], name: &Name) -> Result<u32, ManifestError>
    requires { length files.now ≤ 4096 }
    ensures { Gives result (file_of files.now name.now) }
{
    match file_number(files, name) {
        Some(n) => Ok(n),
        None => Err(ManifestError::NoFile {
            name: name.clone()?,
        }),
    }
}

fn optional_file(files: &[FileRecord], name: &Option<Name>) -> Result<Option<u32>, ManifestError>
    requires { length files.now ≤ 4096 }
    ensures { Gives result (optional_file files.now name.now) }
{
    match name {
        None => Ok(None),
        Some(name) => Ok(Some(file_of(files, name)?)),
    }
}

#[tactic(auto, unfolding(crate::specs::Manifest::placed))]
fn placed(files: &[FileRecord], segment: &NamedSegment) -> Result<Segment, ManifestError>
    requires files { length files.now ≤ 4096 }
    requires docs { segment.now.docs ≤ 16777216 }
    ensures { Gives result (placed files.now segment.now) }
{
    let postings = file_of(files, &segment.postings)?;
    let stored = optional_file(files, &segment.stored)?;
    let live = optional_file(files, &segment.live)?;
    Ok(Segment {
        name: segment.name.clone()?,
        docs: segment.docs as u32,
        postings,
        stored,
        live,
    })
}

/// The segments with the numbers of their files, or the first file that is missing.
pub fn all_placed(
    alloc: Global,
    files: &[FileRecord],
    segments: &[NamedSegment],
) -> Result<Vec<Segment>, ManifestError>
    requires files { length files.now ≤ 4096 }
    requires docs { FewDocs segments.now }
    ensures { GivesList result (each (placed files.now) segments.now) }
{
    let mut list = Vec::new(alloc);
    for segment in segments {
        list.push(placed(files, segment)?)?;
    }
    Ok(list)
}
