// Files of the tests that a test cannot make on every system.
use std::alloc::Allocator;
use std::fs::{Metadata, OpenOptions};
use std::io::{self, Read};
use std::rt::Files;

/// The system's files, but each folder lists the same names, one of which is no UTF-8, and a file whose name ends
/// with `locked` cannot be opened.
#[derive(Clone, Drop)]
pub struct StrangeFiles<R: Files> {
    pub rt: R,
}

const NAMES: &[u8] = b"mount-b\0\xff\xfe\0__a\0below\0__locked\0";

/// The names of a folder, all given by one read.
#[derive(Drop)]
pub struct NameList {
    is_read: bool,
}

impl Read for NameList {
    fn read(&mut self, buf: &mut [u8]) -> io::Result<usize> {
        if self.is_read {
            return Ok(0);
        }
        self.is_read = true;
        let count = NAMES.len().min(buf.len());
        buf[..count].copy_from_slice(&NAMES[..count]);
        Ok(count)
    }
}

impl<R: Files> Files for StrangeFiles<R> {
    type File = R::File;

    type Dir = NameList;

    fn open_file(&self, how: &OpenOptions, path: &str) -> io::Result<R::File> {
        if path.ends_with("locked") {
            return Err(io::Error::from(io::ErrorKind::PermissionDenied));
        }
        self.rt.open_file(how, path)
    }

    fn open_dir(&self, _path: &str) -> io::Result<NameList> {
        Ok(NameList { is_read: false })
    }

    fn metadata(&self, path: &str) -> io::Result<Metadata> {
        self.rt.metadata(path)
    }

    fn symlink_metadata(&self, path: &str) -> io::Result<Metadata> {
        self.rt.symlink_metadata(path)
    }

    fn copy(&self, from: &str, to: &str) -> io::Result<u64> {
        self.rt.copy(from, to)
    }

    fn rename(&self, from: &str, to: &str) -> io::Result<()> {
        self.rt.rename(from, to)
    }

    fn remove_file(&self, path: &str) -> io::Result<()> {
        self.rt.remove_file(path)
    }

    fn create_dir(&self, path: &str) -> io::Result<()> {
        self.rt.create_dir(path)
    }

    fn remove_dir(&self, path: &str) -> io::Result<()> {
        self.rt.remove_dir(path)
    }

    fn remove_dir_all<B: Allocator>(&self, alloc: B, path: &str) -> io::Result<()> {
        self.rt.remove_dir_all(alloc, path)
    }
}
