//! As which unit a disk was served, which a file beside it says. Whoever changes the order of the words would else give hosts another
//! disk under the identity that they know.

use crate::begun::{NotBegun, begun, folder_of, joined};
use disk_files::{FileFault, SystemFile, give_name, make_name_last, number_of};
use std::alloc::{AllocError, Global};
use std::fs::{self, File};
use std::io::{self, Read, Write};
use std::rt::Files;
use std::str;
use thiserror::Error;

/// The most bytes of the file that are read.
const LONGEST: usize = 64;

/// A unit by its number, and the number of its array.
#[derive(Clone, Copy, Debug, PartialEq, Eq)]
pub struct UnitName {
    pub unit: u8,
    pub array: u32,
}

/// Why a disk is not served as a unit. A number is the error of the system, 0 where it told none.
#[derive(Clone, Copy, Debug, Error)]
pub enum UnitFileFault {
    /// It was served as this one.
    #[error("the disk is another unit")]
    Other(UnitName),
    /// Its file is there and names no unit.
    #[error("the file names no unit")]
    NamesNone,
    /// Its file cannot be read or made.
    #[error("the file cannot be read or made")]
    NotRead(u32),
    /// There was no memory for its name.
    #[error("no memory")]
    NoMemory,
}

impl From<AllocError> for UnitFileFault {
    fn from(_: AllocError) -> UnitFileFault {
        UnitFileFault::NoMemory
    }
}

// The unit that a text names.
fn name_in(text: &str) -> Option<UnitName> {
    let (unit, array) = text
        .strip_prefix("unit ")?
        .strip_suffix('\n')?
        .split_once(" array ")?;
    match (unit.parse::<u8>(), array.parse::<u32>()) {
        (Ok(unit), Ok(array)) => Some(UnitName { unit, array }),
        _ => None,
    }
}

// The unit that a file names.
fn name_of(mut file: &File) -> io::Result<Option<UnitName>> {
    let mut bytes = [0; LONGEST];
    let count = file.read(&mut bytes)?;
    match bytes.get(..count) {
        Some(text) => Ok(str::from_utf8(text).ok().and_then(name_in)),
        None => Ok(None),
    }
}

// Writes the name into a file, so that it lasts.
fn written(mut file: &File, text: &str) -> io::Result<()> {
    file.write_all(text.as_bytes())?;
    file.sync_all()
}

// Makes the file of this path, which names a unit, under another name, and gives it its own when it is whole.
fn make<R: Files<File = File>>(
    rt: &R,
    alloc: Global,
    path: &str,
    name: UnitName,
) -> Result<(), UnitFileFault> {
    let text = format!(in alloc; "unit {} array {}\n", name.unit, name.array)?;
    let (file, new) = match begun(rt, alloc, path) {
        Ok(begun) => begun,
        Err(NotBegun::NoMemory) => return Err(UnitFileFault::NoMemory),
        Err(NotBegun::System(error)) => return Err(UnitFileFault::NotRead(error)),
    };
    let end = match written(&file, text.as_str()) {
        Ok(()) => give_name(rt, new.as_str(), path),
        Err(e) => Err(number_of(&e)),
    };
    match end {
        Ok(()) => Ok(()),
        Err(error) => {
            let _ = fs::remove_file(rt, new.as_str());
            Err(UnitFileFault::NotRead(error))
        }
    }
}

// Whether a file names this unit, and its name in the folder lasts.
fn is_named<R: Files<File = File>>(
    rt: &R,
    path: &str,
    name: UnitName,
) -> Result<(), UnitFileFault> {
    let file = match SystemFile::open(rt, path) {
        Ok(file) => file,
        Err(FileFault::NotOpened(error)) => return Err(UnitFileFault::NotRead(error)),
        Err(_) => return Err(UnitFileFault::NotRead(0)),
    };
    match name_of(file.handle()) {
        Ok(Some(found)) if found == name => {}
        Ok(Some(found)) => return Err(UnitFileFault::Other(found)),
        Ok(None) => return Err(UnitFileFault::NamesNone),
        Err(e) => return Err(UnitFileFault::NotRead(number_of(&e))),
    }
    match make_name_last(rt, folder_of(path), path) {
        Ok(()) => Ok(()),
        Err(error) => Err(UnitFileFault::NotRead(error)),
    }
}

/// Sees to it that the disk of this name was served as no other unit than this one. Where it was served as none, nothing is made.
pub fn look_as<R: Files<File = File>>(
    rt: &R,
    alloc: Global,
    disk: &str,
    name: UnitName,
) -> Result<(), UnitFileFault> {
    let path = joined(alloc, disk, ".unit")?;
    if fs::symlink_metadata(rt, path.as_str()).is_err() {
        return Ok(());
    }
    is_named(rt, path.as_str(), name)
}

/// Sees to it that the disk of this name is served as this unit, and as no other one. The file beside it, which has `.unit` behind its
/// name, says as which; where there is none it is made, and lasts.
pub fn open_as<R: Files<File = File>>(
    rt: &R,
    alloc: Global,
    disk: &str,
    name: UnitName,
) -> Result<(), UnitFileFault> {
    let path = joined(alloc, disk, ".unit")?;
    if fs::symlink_metadata(rt, path.as_str()).is_err() {
        make(rt, alloc, path.as_str(), name)?;
    }
    is_named(rt, path.as_str(), name)
}
