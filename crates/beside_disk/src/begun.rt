//! Files that lie beside a disk: how they are begun.

use disk_files::number_of;
use std::alloc::{AllocError, Global};
use std::fs::{File, OpenFile};
use std::io::ErrorKind;
use std::rt::Files;

/// Under so many names is tried to begin a file.
const MOST_BEGUN: u8 = 10;

/// Why no file is begun: there was no memory, or the error of the system.
#[derive(Clone, Copy)]
pub(crate) enum NotBegun {
    NoMemory,
    System(u32),
}

/// A name with this behind it.
pub(crate) fn joined(alloc: Global, name: &str, end: &str) -> Result<String, AllocError> {
    let mut path = String::from_str(alloc, name)?;
    path.push_str(end)?;
    Ok(path)
}

/// The folder of a file.
pub(crate) fn folder_of(path: &str) -> &str {
    match path.rsplit_once('/') {
        Some(("", _)) => "/",
        Some((folder, _)) => folder,
        None => ".",
    }
}

// The name under which a file is begun that is to have this path, where so many such names are taken.
fn new_name(alloc: Global, path: &str, taken: u8) -> Result<String, AllocError> {
    if taken == 0 {
        joined(alloc, path, ".new")
    } else {
        format!(in alloc; "{path}.new{taken}")
    }
}

/// An empty file, and its name, which nothing had: this path with `.new` behind it, or a number behind that. What has such a name is
/// the disk of a unit perhaps, or what an earlier stop left; it stays as it is.
pub(crate) fn begun<R: Files<File = File>>(
    rt: &R,
    alloc: Global,
    path: &str,
) -> Result<(File, String), NotBegun> {
    let mut fault = NotBegun::System(0);
    for taken in 0..MOST_BEGUN {
        let Ok(new) = new_name(alloc, path, taken) else {
            return Err(NotBegun::NoMemory);
        };
        let opened = File::options()
            .read(true)
            .write(true)
            .create_new(true)
            .open(rt, new.as_str());
        match opened {
            Ok(file) => return Ok((file, new)),
            Err(e) if e.kind() == ErrorKind::AlreadyExists => {
                fault = NotBegun::System(number_of(&e));
            }
            Err(e) => return Err(NotBegun::System(number_of(&e))),
        }
    }
    Err(fault)
}
