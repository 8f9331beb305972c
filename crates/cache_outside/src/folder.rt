// The files of a folder, as a source that tells nothing of their contents.
ghost use Rattle.std.specs.Prelude.{◌<◌, ◌≤◌, IfOk, IfSome, length};
ghost use Rattle.cache_outside.specs.Causes.{HasCause};

use crate::fault::fail;
use crate::listed::is_manifest_name;
use crate::{Archive, BlobSource, OutError};
use std::alloc::{AllocError, Global};
use std::fs::OpenFile;
use std::io::{Read, Seek, SeekFrom};
use std::rt::Files;
use std::{fs, io};

/// The archive of a folder, of which nothing is told.
#[derive(Clone, Copy, Debug)]
pub struct Untold;

impl Archive for Untold {
    ghost use Rattle.std.specs.Prelude.{false, []};
    ghost use Rattle.cache_outside.specs.Nothing.{few_of_none, few_manifests_of_none, different_of_none};

    ghost tells = { false };

    ghost blobs = { [] };

    ghost few = { few_of_none };

    ghost few_manifests = { few_manifests_of_none };

    ghost different = { different_of_none };
}

/// The most manifests that a folder has.
const MANIFESTS: u32 = 65_536;

/// The regular files of one folder with a name in UTF-8, in byte order, each a blob. Of those whose name begins
/// with `mount-` the first 65,536 count. It tells nothing of their contents, and counts its failures.
#[derive(Drop)]
pub struct FolderSource<Rt: Files + Drop> {
    rt: Rt,
    folder: String,
    names: Vec<String>,
    /// The file of the last read, with its blob number.
    last: Option<(u32, Rt::File)>,
    faults: u64,
}

/// The names of a folder's regular files, in byte order.
fn file_names<Rt: Files + AllocGlobal + Clone + Drop>(
    rt: &Rt,
    folder: &str,
) -> io::Result<Vec<String>> {
    let alloc = rt.alloc();
    let mut names = Vec::new(alloc);
    for entry in fs::read_dir(rt, folder)? {
        match entry {
            Ok(entry) => {
                if entry.file_type()?.is_file() {
                    names.push(String::from_str(alloc, entry.file_name())?)?;
                }
            }
            // a name that is no UTF-8
            Err(e) if e.kind() == io::ErrorKind::InvalidFilename => {}
            Err(e) => return Err(e),
        }
    }
    names.sort()?;
    Ok(names)
}

/// These names, but of the manifests only the first 65,536.
fn first_manifests(alloc: Global, names: Vec<String>) -> Result<Vec<String>, AllocError> {
    let mut kept = Vec::new(alloc);
    let mut manifests = 0;
    for name in names {
        if !is_manifest_name(name.as_str()) {
            kept.push(name)?;
        } else if manifests < MANIFESTS {
            manifests += 1;
            kept.push(name)?;
        }
    }
    Ok(kept)
}

impl<Rt: Files + AllocGlobal + Clone + Drop> FolderSource<Rt> {
    /// Lists the folder once. The error is that of the listing, or want of memory.
    pub fn open(rt: Rt, folder: &str) -> io::Result<FolderSource<Rt>> {
        let alloc = rt.alloc();
        let names = first_manifests(alloc, file_names(&rt, folder)?)?;
        Ok(FolderSource {
            folder: String::from_str(alloc, folder)?,
            rt,
            names,
            last: None,
            faults: 0,
        })
    }

    fn path(&self, name: &str) -> Result<String, AllocError> {
        let folder = self.folder.as_str();
        format!(in self.rt.alloc(); "{folder}/{name}")
    }

    /// Opens the file of a blob, unless it is that of the last read.
    fn take_file(&mut self, blob: u32) -> Result<Rt::File, OutError>
        ensures { HasCause self.old.faults self.new.faults result }
    {
        if let Some((last, file)) = self.last.take() {
            if last == blob {
                return Ok(file);
            }
        }
        let Some(name) = self.names.get(blob as usize) else {
            return Err(fail(&mut self.faults));
        };
        let path = self.path(name.as_str())?;
        match fs::open(&self.rt, path.as_str()) {
            Ok(file) => Ok(file),
            Err(_) => Err(fail(&mut self.faults)),
        }
    }
}

/// The place of a name among names in order.
fn place_among(names: &[String], name: &str) -> Option<usize> {
    match names.binary_search_by(|own| own.as_str().cmp(name)) {
        Ok(k) => Some(k),
        Err(_) => None,
    }
}

/// The place of a manifest among the manifests of names in order, where it is one of the first 65,536.
fn manifest_among(names: &[String], name: &str) -> Option<u32>
    ensures { IfSome result (λ n. n < 65536) }
{
    if !is_manifest_name(name) {
        return None;
    }
    let place = place_among(names, name)?;
    let first = names.partition_point(|own| own.as_str() < "mount-");
    let number = u32::try_from(place.checked_sub(first)?).ok()?;
    if number < MANIFESTS {
        Some(number)
    } else {
        None
    }
}

/// Some bytes of a file from a place on, and how many.
fn read_at<F: Read + Seek>(file: &mut F, at: u64, out: &mut [u8]) -> io::Result<usize>
    ensures { IfOk result (λ n. n ≤ length out.old) }
{
    file.seek(SeekFrom::Start(at))?;
    file.read(out)
}

impl<Rt: Files + AllocGlobal + Clone + Drop> BlobSource<Untold> for FolderSource<Rt> {
    ghost use Rattle.std.specs.Prelude.{None};

    ghost view = { λ s. record { identity = 0; faults = s.faults; reads = None } };

    fn find(&mut self, name: &str) -> Result<Option<u32>, OutError> {
        match place_among(&self.names, name) {
            None => Ok(None),
            Some(k) => match u32::try_from(k) {
                Ok(k) => Ok(Some(k)),
                Err(_) => Err(fail(&mut self.faults)),
            },
        }
    }

    fn manifest(&mut self, name: &str) -> Result<Option<u32>, OutError> {
        Ok(manifest_among(&self.names, name))
    }

    fn size(&mut self, blob: u32) -> Result<u64, OutError> {
        let Some(name) = self.names.get(blob as usize) else {
            return Err(fail(&mut self.faults));
        };
        let path = self.path(name.as_str())?;
        match fs::metadata(&self.rt, path.as_str()) {
            Ok(metadata) => Ok(metadata.len()),
            Err(_) => Err(fail(&mut self.faults)),
        }
    }

    fn read(&mut self, blob: u32, at: u64, out: &mut [u8]) -> Result<usize, OutError> {
        if out.is_empty() {
            return Ok(0);
        }
        let mut file = self.take_file(blob)?;
        match read_at(&mut file, at, out) {
            Ok(0) | Err(_) => Err(fail(&mut self.faults)),
            Ok(n) => {
                self.last = Some((blob, file));
                Ok(n)
            }
        }
    }
}
