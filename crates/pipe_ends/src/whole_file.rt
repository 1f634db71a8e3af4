//! Files of the system, read and replaced whole.
//!
//! A file is replaced by a new one beside it, which is written, synchronised with its disk and then
//! renamed. The rename is the one step that is seen under the name, so a full disk, a killed program
//! or a loss of power leaves the old bytes or the new ones, and never a part of them.

use std::alloc::Global;
use std::fs::{File, Metadata, OpenFile, OpenOptions};
use std::io::{ErrorKind, Read, Write};
use std::rt::Files;
use std::{fs, io};

/// How the name of a new file begins, in the folder of the file that it will replace.
const NEW_FILE: &str = ".flash_cli-new-";

/// How many names a new file is tried under, where files of that name are left from before.
const NEW_FILE_NAMES: u32 = 1000;

/// All bytes of a file, read into room that is taken once. A file that grew meanwhile is read to its
/// new end, into more room.
pub(crate) fn read_whole<R: Files>(rt: &R, alloc: Global, name: &str) -> io::Result<Vec<u8>> {
    let mut file = fs::open(rt, name)?;
    let length = file.metadata()?.len();
    // One byte more than the file has, so that the read that finds the end needs no new room.
    let mut bytes = Vec::with_capacity(alloc, length.saturating_add(1) as usize)?;
    file.read_to_end(&mut bytes)?;
    Ok(bytes)
}

/// Gives the file of this name these bytes whole, or leaves it as it was. A name that has no file
/// gets one. A link is followed. What is no file, as a device, is written to as it stands.
pub(crate) fn write_whole<R: Files + AllocGlobal>(
    rt: &R,
    name: &str,
    bytes: &[u8],
) -> io::Result<()> {
    match fs::symlink_metadata(rt, name) {
        Ok(found) if found.is_file() => replace(rt, name, &found, bytes),
        Ok(found) if found.is_symlink() => write_linked(rt, name, bytes),
        Ok(_) => fs::write(rt, name, bytes),
        Err(why) if why.kind() == ErrorKind::NotFound => {
            let (beside, file) = new_file_beside(rt, name)?;
            finish(rt, file, bytes, beside.as_str(), name)
        }
        Err(why) => Err(why),
    }
}

/// As `write_whole`, of the file that a link leads to.
fn write_linked<R: Files + AllocGlobal>(rt: &R, link: &str, bytes: &[u8]) -> io::Result<()> {
    let found = fs::metadata(rt, link)?;
    if !found.is_file() {
        return fs::write(rt, link, bytes);
    }
    let name = fs::canonicalize(rt, link)?;
    replace(rt, name.as_path().as_str(), &found, bytes)
}

/// Replaces a file that stands, by one with its permissions.
fn replace<R: Files + AllocGlobal>(
    rt: &R,
    name: &str,
    old: &Metadata,
    bytes: &[u8],
) -> io::Result<()> {
    // Only what may be written may be replaced.
    let _may_write = OpenOptions::new().write(true).open(rt, name)?;
    let (beside, file) = new_file_beside(rt, name)?;
    match file.set_permissions(old.permissions()) {
        Ok(()) => finish(rt, file, bytes, beside.as_str(), name),
        Err(why) => {
            let _removed = fs::remove_file(rt, beside.as_str());
            Err(why)
        }
    }
}

/// Writes the new file and renames it, or removes it where that fails.
fn finish<R: Files>(
    rt: &R,
    file: R::File,
    bytes: &[u8],
    beside: &str,
    name: &str,
) -> io::Result<()> {
    let renamed = match write_synced(file, bytes) {
        Ok(()) => fs::rename(rt, beside, name),
        Err(why) => Err(why),
    };
    if renamed.is_err() {
        let _removed = fs::remove_file(rt, beside);
    }
    renamed
}

/// Writes bytes to a file, waits until its disk has them, and closes it.
fn write_synced<F: Write + OpenFile + Drop>(mut file: F, bytes: &[u8]) -> io::Result<()> {
    file.write_all(bytes)?;
    file.sync_all()
}

/// A new and empty file in the folder of this name, with its own name.
fn new_file_beside<R: Files + AllocGlobal>(rt: &R, name: &str) -> io::Result<(String, R::File)> {
    for number in 0..NEW_FILE_NAMES {
        let beside = match name.rsplit_once('/') {
            Some((folder, _)) => format!(in rt.alloc(); "{folder}/{NEW_FILE}{number}")?,
            None => format!(in rt.alloc(); "{NEW_FILE}{number}")?,
        };
        match File::create_new(rt, beside.as_str()) {
            Ok(file) => return Ok((beside, file)),
            Err(why) if why.kind() == ErrorKind::AlreadyExists => {}
            Err(why) => return Err(why),
        }
    }
    Err(io::Error::from(ErrorKind::AlreadyExists))
}
