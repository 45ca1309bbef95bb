// Saves that lose nothing: the bytes go into a new file of the same folder, which then takes the place of the old one.

use std::alloc::Global;
use std::fs::{OpenFile, OpenOptions, Permissions};
use std::io::{ErrorKind, Write};
use std::rt::Files;
use std::{fs, io};

/// How many names are tried for a new file.
const MAX_NAMES: u32 = 100;

// What stands under a name.
#[derive(Drop)]
enum Old {
    Nothing,
    // A plain file that may be written, and who may do what with it.
    Plain(Permissions),
    // A device, a pipe, a folder or a symbolic link.
    Other,
}

/// Puts bytes under a name. A plain file, or a name under which nothing stands, holds all of the bytes after it, or after
/// a fault what it held. What is no plain file is written as it stands, and so is a file whose place in its folder no new
/// one may take.
pub(crate) fn save_whole<R: Files + AllocGlobal>(
    rt: &R,
    name: &str,
    bytes: &[u8],
) -> io::Result<()> {
    let replaced = match old_file(rt, name)? {
        Old::Nothing => replace(rt, name, None, bytes),
        Old::Plain(mode) => replace(rt, name, Some(mode), bytes),
        Old::Other => return fs::write(rt, name, bytes),
    };
    match replaced {
        Ok(()) => Ok(()),
        Err(error) => {
            if is_no_place(error.kind()) {
                fs::write(rt, name, bytes)
            } else {
                Err(error)
            }
        }
    }
}

/// Whether bytes can be put under a name: a new file is made where a save would make it, and removed. Nothing else changes,
/// and what is no plain file is left alone.
pub(crate) fn try_place<R: Files + AllocGlobal>(rt: &R, name: &str) -> io::Result<()> {
    match old_file(rt, name)? {
        Old::Nothing => match try_new_file(rt, name) {
            Ok(()) => Ok(()),
            Err(error) => {
                if is_no_place(error.kind()) {
                    try_name(rt, name)
                } else {
                    Err(error)
                }
            }
        },
        Old::Plain(_) => match try_new_file(rt, name) {
            Ok(()) => Ok(()),
            Err(error) => {
                if is_no_place(error.kind()) {
                    Ok(())
                } else {
                    Err(error)
                }
            }
        },
        Old::Other => try_other(rt, name),
    }
}

// The file that a save would rename is made, and removed.
fn try_new_file<R: Files + AllocGlobal>(rt: &R, name: &str) -> io::Result<()> {
    let (_file, new_name) = new_file(rt, rt.alloc(), name)?;
    fs::remove_file(rt, new_name.as_str())
}

// A file is made under the name itself, under which nothing stands, and removed.
fn try_name<R: Files>(rt: &R, name: &str) -> io::Result<()> {
    let _file = OpenOptions::new()
        .write(true)
        .create_new(true)
        .open(rt, name)?;
    fs::remove_file(rt, name)
}

// A device or a pipe is taken for one that can be written. A link is followed: a plain file at its end has to be one that may
// be written, and none is made where there is none.
fn try_other<R: Files>(rt: &R, name: &str) -> io::Result<()> {
    let found = match fs::metadata(rt, name) {
        Ok(found) => found,
        Err(error) => {
            if error.kind() == ErrorKind::NotFound {
                return Ok(());
            }
            return Err(error);
        }
    };
    if found.is_dir() {
        return Err(io::Error::from(ErrorKind::IsADirectory));
    }
    if found.is_file() {
        let _file = OpenOptions::new().write(true).open(rt, name)?;
    }
    Ok(())
}

// A plain file that may not be written is a fault.
fn old_file<R: Files>(rt: &R, name: &str) -> io::Result<Old> {
    match fs::symlink_metadata(rt, name) {
        Ok(found) => {
            if !found.is_file() {
                return Ok(Old::Other);
            }
            let _file = OpenOptions::new().write(true).open(rt, name)?;
            Ok(Old::Plain(found.permissions()))
        }
        Err(error) => {
            if error.kind() == ErrorKind::NotFound {
                Ok(Old::Nothing)
            } else {
                Err(error)
            }
        }
    }
}

// The folder takes no new file, or none in the place of the old one: its rights don't permit it, a name is too long, or the
// old file is held in its place.
fn is_no_place(kind: ErrorKind) -> bool {
    match kind {
        ErrorKind::PermissionDenied | ErrorKind::InvalidFilename | ErrorKind::ResourceBusy => true,
        _ => false,
    }
}

// Writes a new file and renames it. After a fault it is removed.
fn replace<R: Files + AllocGlobal>(
    rt: &R,
    name: &str,
    mode: Option<Permissions>,
    bytes: &[u8],
) -> io::Result<()> {
    let (file, new_name) = new_file(rt, rt.alloc(), name)?;
    let renamed = match fill(file, mode, bytes) {
        Ok(()) => fs::rename(rt, new_name.as_str(), name),
        Err(error) => Err(error),
    };
    if renamed.is_err() {
        let _removed = fs::remove_file(rt, new_name.as_str());
    }
    renamed
}

// A file that wasn't there, in the same folder, and its name.
fn new_file<R: Files>(rt: &R, alloc: Global, name: &str) -> io::Result<(R::File, String)> {
    for number in 0..MAX_NAMES {
        let new_name = format!(in alloc; "{name}.new{number}")?;
        match OpenOptions::new()
            .write(true)
            .create_new(true)
            .open(rt, new_name.as_str())
        {
            Ok(file) => return Ok((file, new_name)),
            Err(error) => {
                if error.kind() != ErrorKind::AlreadyExists {
                    return Err(error);
                }
            }
        }
    }
    Err(io::Error::from(ErrorKind::AlreadyExists))
}

// Its bytes are on the disk before it takes another's place.
fn fill<F: Write + OpenFile + Drop>(
    mut file: F,
    mode: Option<Permissions>,
    bytes: &[u8],
) -> io::Result<()> {
    if let Some(mode) = mode {
        file.set_permissions(mode)?;
    }
    file.write_all(bytes)?;
    file.sync_all()
}
