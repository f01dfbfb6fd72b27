//! A file's bytes are replaced whole or not at all.

use super::sink::write_whole;
use crate::traits::StoreError;
use std::alloc::{AllocError, Global};
use std::fs::{Metadata, OpenFile, OpenOptions, Permissions};
use std::io::{ErrorKind, Write};
use std::os::unix::fs::{MetadataExt, OpenOptionsExt, PermissionsExt, chown};
use std::path::{Path, PathBuf};
use std::rt::Files;
use std::{fs, io};

/// How many names of new files are tried.
const NAMES: u32 = 1000;

/// Puts bytes under a name, in place of what was there. A device or a pipe gets them as they come. A regular file, also
/// one behind a link, is replaced: a new file beside it is written and renamed, so until then the old one is whole.
pub fn put_file<R: Files>(
    rt: &R,
    alloc: Global,
    name: &str,
    bytes: &[u8],
) -> Result<(), StoreError> {
    match OpenOptions::new().write(true).open(rt, name) {
        Ok(mut file) => match file.metadata() {
            Ok(old) if old.is_file() => replace_real(rt, alloc, name, &old, bytes),
            Ok(_) => write_open(&mut file, bytes),
            Err(_) => Err(StoreError::Failed),
        },
        Err(e) if e.kind() == ErrorKind::NotFound => put_new(rt, alloc, name, bytes),
        Err(_) => Err(StoreError::Failed),
    }
}

/// Puts bytes under a name that has no file. A link that leads nowhere gets the file that it names.
fn put_new<R: Files>(rt: &R, alloc: Global, name: &str, bytes: &[u8]) -> Result<(), StoreError> {
    if !is_link(rt, name) {
        return replace(rt, alloc, Path::new(name), None, bytes);
    }
    match fs::create(rt, name) {
        Ok(mut file) => write_open(&mut file, bytes),
        Err(_) => Err(StoreError::Failed),
    }
}

fn write_open<F: Write>(file: &mut F, bytes: &[u8]) -> Result<(), StoreError> {
    match write_whole(file, bytes) {
        Ok(()) => Ok(()),
        Err(_) => Err(StoreError::Failed),
    }
}

fn is_link<R: Files>(rt: &R, name: &str) -> bool {
    match fs::symlink_metadata(rt, name) {
        Ok(found) => found.is_symlink(),
        Err(_) => false,
    }
}

/// Replaces a regular file under its own name, which a link only leads to.
fn replace_real<R: Files>(
    rt: &R,
    alloc: Global,
    name: &str,
    old: &Metadata,
    bytes: &[u8],
) -> Result<(), StoreError> {
    if !is_link(rt, name) {
        return replace(rt, alloc, Path::new(name), Some(old), bytes);
    }
    match rt.canonicalize(alloc, name) {
        Ok(real) => replace(rt, alloc, real.as_path(), Some(old), bytes),
        Err(e) if e.kind() == ErrorKind::OutOfMemory => Err(StoreError::Memory),
        Err(_) => Err(StoreError::Failed),
    }
}

/// Writes a new file beside a name and gives it that name. If a step fails, the new file is removed.
fn replace<R: Files>(
    rt: &R,
    alloc: Global,
    name: Path<'_>,
    old: Option<&Metadata>,
    bytes: &[u8],
) -> Result<(), StoreError> {
    let (path, file) = new_beside(rt, alloc, name, old)?;
    let filled = fill(rt, path.as_path(), file, old, bytes);
    if filled.is_ok() && fs::rename(rt, path.as_path(), name).is_ok() {
        return Ok(());
    }
    let _removed = fs::remove_file(rt, path.as_path());
    Err(StoreError::Failed)
}

/// A new file in the folder of a name, which nobody may read who could not read the old one.
fn new_beside<R: Files>(
    rt: &R,
    alloc: Global,
    name: Path<'_>,
    old: Option<&Metadata>,
) -> Result<(PathBuf, R::File), StoreError> {
    let mode = match old {
        Some(old) => old.permissions().mode() & 0o777,
        None => 0o666,
    };
    for n in 0..NAMES {
        let Ok(path) = name_beside(alloc, name, n) else {
            return Err(StoreError::Memory);
        };
        match create_new(rt, path.as_path(), mode) {
            Ok(file) => return Ok((path, file)),
            Err(e) if e.kind() == ErrorKind::AlreadyExists => {}
            Err(_) => return Err(StoreError::Failed),
        }
    }
    Err(StoreError::Failed)
}

fn create_new<R: Files>(rt: &R, path: Path<'_>, mode: u32) -> io::Result<R::File> {
    OpenOptions::new()
        .write(true)
        .create_new(true)
        .mode(mode)
        .open(rt, path)
}

fn name_beside(alloc: Global, name: Path<'_>, n: u32) -> Result<PathBuf, AllocError> {
    let own = format!(in alloc; ".ccc-{n}")?;
    name.with_file_name(alloc, own.as_str())
}

/// Writes the new file, gives it the old one's permissions and, if the system lets it, its owner, and waits until the
/// bytes are on the disk. The file is closed then.
fn fill<R: Files>(
    rt: &R,
    path: Path<'_>,
    file: R::File,
    old: Option<&Metadata>,
    bytes: &[u8],
) -> Result<(), StoreError> {
    let mut file = file;
    if let Some(old) = old {
        let _owned = chown(rt, path, Some(old.uid()), Some(old.gid()));
        let mode = Permissions::from_mode(old.permissions().mode() & 0o777);
        if file.set_permissions(mode).is_err() {
            return Err(StoreError::Failed);
        }
    }
    write_open(&mut file, bytes)?;
    match file.sync_all() {
        Ok(()) => Ok(()),
        Err(_) => Err(StoreError::Failed),
    }
}
