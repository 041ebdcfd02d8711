use std::alloc::Global;
use std::fs::{File, OpenFile, OpenOptions, Permissions};
use std::io::Write;
use std::{fs, io, rt};

// How many names are tried for the file beside.
const MOST_NAMES: u32 = 1000;

// The name of a file beside one.
fn name_beside(alloc: Global, name: &str, number: u32) -> io::Result<String> {
    match name.rsplit_once('/') {
        Some((folder, _)) => Ok(format!(in alloc; "{folder}/.act1-{number}.tmp")?),
        None => Ok(format!(in alloc; ".act1-{number}.tmp")?),
    }
}

// A new file beside the name, and its own name. No file that is there is touched.
fn new_beside<R: rt::Files>(rt: &R, alloc: Global, name: &str) -> io::Result<(R::File, String)> {
    for number in 0..MOST_NAMES {
        let beside = name_beside(alloc, name, number)?;
        match File::create_new(rt, beside.as_str()) {
            Ok(file) => return Ok((file, beside)),
            Err(e) if e.kind() == io::ErrorKind::AlreadyExists => {}
            Err(e) => return Err(e),
        }
    }
    Err(io::Error::from(io::ErrorKind::AlreadyExists))
}

// Puts the bytes into the new file, down to the disk, with the permissions of the file that it is to replace.
fn fill<F: Write + OpenFile + Drop>(
    mut file: F,
    bytes: &[u8],
    permissions: Option<Permissions>,
) -> io::Result<()> {
    if let Some(permissions) = permissions {
        file.set_permissions(permissions)?;
    }
    file.write_all(bytes)?;
    file.sync_all()
}

// Writes the bytes beside the name and renames them to it. Whatever fails, the name is as it was.
fn replace<R: rt::Files>(
    rt: &R,
    alloc: Global,
    name: &str,
    bytes: &[u8],
    permissions: Option<Permissions>,
) -> io::Result<()> {
    let (file, beside) = new_beside(rt, alloc, name)?;
    let mut done = fill(file, bytes, permissions);
    if done.is_ok() {
        done = fs::rename(rt, beside.as_str(), name);
    }
    if done.is_err() {
        let _ = fs::remove_file(rt, beside.as_str());
    }
    done
}

/// Puts the bytes in the place of the whole content of a name. A name that isn't there, or is a regular file that may be
/// written, holds all of them afterwards, or where anything fails what it held: they are written to a new file beside it,
/// which is then renamed. Any other name, as a link, a pipe or a terminal, is written as it stands.
pub fn write_whole<R: rt::Files>(
    rt: &R,
    alloc: Global,
    name: &str,
    bytes: &[u8],
) -> io::Result<()> {
    match fs::symlink_metadata(rt, name) {
        Ok(found) => {
            if !found.is_file() {
                return fs::write(rt, name, bytes);
            }
            // A file that may not be written is no file to replace.
            OpenOptions::new().write(true).open(rt, name)?;
            replace(rt, alloc, name, bytes, Some(found.permissions()))
        }
        Err(e) if e.kind() == io::ErrorKind::NotFound => replace(rt, alloc, name, bytes, None),
        Err(e) => Err(e),
    }
}
