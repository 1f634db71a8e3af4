//! A disk in tests, of which one kind of call fails and the others are the system's.

use std::alloc::Allocator;
use std::fs::{Metadata, OpenFile, OpenOptions, Permissions};
use std::io::{self, ErrorKind, Read, Seek, SeekFrom, Write};
use std::path::PathBuf;
use std::rt::Files;

/// What fails.
#[derive(Clone, Copy, Debug, PartialEq, Eq)]
pub(crate) enum Failing {
    /// Making a file, as in a folder without the right to write.
    Create,
    /// Writing the last byte, as on a full disk.
    Write,
    /// Waiting until the disk has a file's bytes.
    Sync,
    /// Giving a file another name.
    Rename,
}

/// The files of a runtime, but for what fails.
#[derive(Drop)]
pub(crate) struct FailingDisk<'a, R: Files> {
    pub(crate) rt: &'a R,
    pub(crate) failing: Failing,
}

/// A file of such a disk.
#[derive(Drop)]
pub(crate) struct FailingFile<F: Drop> {
    file: F,
    failing: Failing,
}

/// The error of a call that fails.
fn error() -> io::Error {
    io::Error::from(ErrorKind::Other)
}

impl<F: Read + Drop> Read for FailingFile<F> {
    /// As the file itself.
    fn read(&mut self, buf: &mut [u8]) -> io::Result<usize> {
        self.file.read(buf)
    }
}

impl<F: Write + Drop> Write for FailingFile<F> {
    /// All but the last byte where writes fail, and then no more.
    fn write(&mut self, buf: &[u8]) -> io::Result<usize> {
        if self.failing != Failing::Write {
            return self.file.write(buf);
        }
        if buf.len() < 2 {
            return Err(error());
        }
        self.file.write(&buf[..buf.len() - 1])
    }

    /// As the file itself.
    fn flush(&mut self) -> io::Result<()> {
        self.file.flush()
    }
}

impl<F: Seek + Drop> Seek for FailingFile<F> {
    /// As the file itself.
    fn seek(&mut self, to: SeekFrom) -> io::Result<u64> {
        self.file.seek(to)
    }
}

impl<F: OpenFile + Drop> OpenFile for FailingFile<F> {
    /// As the file itself.
    fn metadata(&self) -> io::Result<Metadata> {
        self.file.metadata()
    }

    /// As the file itself.
    fn set_len(&self, size: u64) -> io::Result<()> {
        self.file.set_len(size)
    }

    /// Fails where waiting for the disk does.
    fn sync_all(&self) -> io::Result<()> {
        match self.failing {
            Failing::Sync => Err(error()),
            _ => self.file.sync_all(),
        }
    }

    /// As the file itself.
    fn sync_data(&self) -> io::Result<()> {
        self.file.sync_data()
    }

    /// As the file itself.
    fn set_permissions(&self, perm: Permissions) -> io::Result<()> {
        self.file.set_permissions(perm)
    }
}

impl<'a, R: Files> Files for FailingDisk<'a, R> {
    type File = FailingFile<R::File>;

    type Dir = R::Dir;

    /// Fails for a new file where making files does.
    fn open_file(&self, how: &OpenOptions, path: &str) -> io::Result<FailingFile<R::File>> {
        if how.asks_create_new() && self.failing == Failing::Create {
            return Err(error());
        }
        Ok(FailingFile {
            file: self.rt.open_file(how, path)?,
            failing: self.failing,
        })
    }

    /// As the runtime's.
    fn open_dir(&self, path: &str) -> io::Result<R::Dir> {
        self.rt.open_dir(path)
    }

    /// As the runtime's.
    fn metadata(&self, path: &str) -> io::Result<Metadata> {
        self.rt.metadata(path)
    }

    /// As the runtime's.
    fn symlink_metadata(&self, path: &str) -> io::Result<Metadata> {
        self.rt.symlink_metadata(path)
    }

    /// As the runtime's.
    fn copy(&self, from: &str, to: &str) -> io::Result<u64> {
        self.rt.copy(from, to)
    }

    /// Fails where giving another name does.
    fn rename(&self, from: &str, to: &str) -> io::Result<()> {
        match self.failing {
            Failing::Rename => Err(error()),
            _ => self.rt.rename(from, to),
        }
    }

    /// As the runtime's.
    fn remove_file(&self, path: &str) -> io::Result<()> {
        self.rt.remove_file(path)
    }

    /// As the runtime's.
    fn create_dir(&self, path: &str) -> io::Result<()> {
        self.rt.create_dir(path)
    }

    /// As the runtime's.
    fn remove_dir(&self, path: &str) -> io::Result<()> {
        self.rt.remove_dir(path)
    }

    /// As the runtime's.
    fn remove_dir_all<B: Allocator>(&self, alloc: B, path: &str) -> io::Result<()> {
        self.rt.remove_dir_all(alloc, path)
    }

    /// As the runtime's.
    fn canonicalize<B: Allocator>(&self, alloc: B, path: &str) -> io::Result<PathBuf<B>> {
        self.rt.canonicalize(alloc, path)
    }
}
