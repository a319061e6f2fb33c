//! The file of the log, where one is asked for.

use command_line::Fault;
use event_log::Page;
use events::{Event, Stamp, put_line};
use std::alloc::{AllocError, Global};
use std::env::{self, Env, FillError, VarError};
use std::fs::{self, File, OpenFile, TryLockError};
use std::io::{ErrorKind, Write};
use std::os::unix::fs::{FileTypeExt, MetadataExt};
use std::rt::Files;
use std::time::Clock;

/// The variable of the environment that names the file.
pub const VARIABLE: &str = "ARRAYD_LOG";

/// Why no log is written where its name says: the name will not do, or what has it is a disk.
pub const UNFIT: &str = "ARRAYD_LOG: no UTF-8, a block device, a link to nothing, .reg or .unit";

pub const TAKEN: &str = "ARRAYD_LOG: a disk, or a file beside one";

/// What stands behind the name of a disk in its own name and in those of the files beside it.
const BESIDE: [&str; 3] = ["", ".reg", ".unit"];

/// What stands there in the names of the files beside it, which an array leaves.
const LEFT: [&str; 2] = [".reg", ".unit"];

/// The most bytes of a word that may name a file.
const ROOM: usize = 4096;

/// Why the file of the log is not held.
#[derive(Drop)]
pub enum NotHeld {
    /// It is a disk, was one, or is a file beside one.
    Disk,
    /// For want of memory.
    NoMemory,
    /// It was not opened: the error of the system, 0 where it told none.
    Closed(i32),
}

// Whether this is the name of a file beside a disk, whether the disk is there or not.
fn is_beside(path: &str) -> bool {
    path.ends_with(".reg") || path.ends_with(".unit")
}

// Whether no log may have this name: it leads to a block device, which may be a disk, or it is a link to what is not there. Opened, that
// would be made, and may be what comes beside a disk.
fn is_unfit<R: Files<File = File>>(rt: &R, path: &str) -> bool {
    match fs::metadata(rt, path) {
        Ok(metadata) => metadata.file_type().is_block_device(),
        Err(e) => e.kind() == ErrorKind::NotFound && fs::symlink_metadata(rt, path).is_ok(),
    }
}

// Reads a word of the command line into this room: how long it is. None: there is no such word. One that is too long is wrong.
fn read_word<R: Env>(rt: &R, place: usize, room: &mut Vec<u8>) -> Result<Option<usize>, Fault> {
    match rt.arg(place, room.as_mut_slice()) {
        Ok(length) => Ok(Some(length)),
        Err(FillError::NotPresent) => Ok(None),
        Err(FillError::TooLong) => Err(Fault::WrongWords),
    }
}

// What stands behind the first `=` of a word, all of it where there is none.
fn value_in(word: &str) -> &str {
    match word.split_once('=') {
        Some((_, value)) => value,
        None => word,
    }
}

// Keeps a word that may name a file, or whose value may. One that is not UTF-8 is wrong: it may name a file that no name here can.
fn keep_word(alloc: Global, names: &mut Vec<String>, word: &[u8]) -> Result<(), Fault> {
    let Ok(name) = str::from_utf8(word) else {
        return Err(Fault::WrongWords);
    };
    names.push(String::from_str(alloc, name)?)?;
    names.push(String::from_str(alloc, value_in(name))?)?;
    Ok(())
}

// The words of the command line that may name a file, unless one of them cannot be looked at.
fn names<R: Env + AllocGlobal>(rt: &R) -> Result<Vec<String>, Fault> {
    let mut names = Vec::new(rt.alloc());
    let mut room = Vec::new(rt.alloc());
    if room.resize(ROOM, 0u8).is_err() {
        return Err(Fault::NoMemory);
    }
    for place in 1..usize::MAX {
        let Some(length) = read_word(rt, place, &mut room)? else {
            break;
        };
        if let Some(word) = room.get(..length) {
            keep_word(rt.alloc(), &mut names, word)?;
        }
    }
    Ok(names)
}

// Whether this name leads to this file. What has the name is not opened: a pipe would wait for its other end.
fn leads_to<R: Files<File = File>>(rt: &R, path: &str, file: &File) -> bool {
    match (fs::metadata(rt, path), file.metadata()) {
        (Ok(other), Ok(own)) => (other.dev(), other.ino()) == (own.dev(), own.ino()),
        _ => false,
    }
}

/// The file of this name. Where there is none it is made.
#[derive(Drop)]
pub struct LogFile<R: Files<File = File> + Drop> {
    rt: R,
    path: String,
}

impl<R: Files<File = File> + Drop> LogFile<R> {
    /// The file that the environment names, where it names one. One that may be a disk, or lie beside one, is wrong, and is not made.
    pub fn named(rt: R) -> Result<Option<LogFile<R>>, Fault>
    where
        R: Env + AllocGlobal,
    {
        match env::var(&rt, VARIABLE) {
            Ok(path) if path.is_empty() => Ok(None),
            Ok(path) if is_beside(path.as_str()) || is_unfit(&rt, path.as_str()) => {
                Err(Fault::WrongWords)
            }
            Ok(path) => Ok(Some(LogFile { rt, path })),
            Err(VarError::NotPresent) => Ok(None),
            Err(VarError::OutOfMemory) => Err(Fault::NoMemory),
            Err(_) => Err(Fault::WrongWords),
        }
    }

    /// Its path.
    pub fn path(&self) -> &str {
        self.path.as_str()
    }

    /// Opens it; else the error of the system, 0 where it told none.
    pub fn opened(&self) -> Result<File, i32> {
        // For reading too: so a pipe that nobody reads is opened at once.
        let file = File::options()
            .read(true)
            .append(true)
            .create(true)
            .open(&self.rt, self.path.as_str());
        match file {
            Ok(file) => Ok(file),
            Err(e) => Err(e.raw_os_error().unwrap_or(0)),
        }
    }
}

impl<R: Files<File = File> + Drop> LogFile<R> {
    // Whether this file, which it is, is one of these disks, or lies beside one, whatever its names.
    fn is_one_of(&self, file: &File, disks: &[&str]) -> Result<bool, AllocError>
    where
        R: AllocGlobal,
    {
        for disk in disks {
            for ending in BESIDE {
                let mut path = String::from_str(self.rt.alloc(), disk)?;
                path.push_str(ending)?;
                if leads_to(&self.rt, path.as_str(), file) {
                    return Ok(true);
                }
            }
        }
        Ok(false)
    }

    // Whether a file lies beside this name that an array leaves beside each disk that it has served.
    fn was_served_as(&self, name: &str) -> Result<bool, AllocError>
    where
        R: AllocGlobal,
    {
        for ending in LEFT {
            let mut path = String::from_str(self.rt.alloc(), name)?;
            path.push_str(ending)?;
            if fs::symlink_metadata(&self.rt, path.as_str()).is_ok() {
                return Ok(true);
            }
        }
        Ok(false)
    }

    // Whether one lies where its name leads, by links: an array that served the disk by another name left it there.
    fn was_served_there(&self) -> Result<bool, AllocError>
    where
        R: AllocGlobal,
    {
        match fs::canonicalize(&self.rt, self.path()) {
            Ok(there) if is_beside(there.as_str()) => Ok(true),
            Ok(there) => self.was_served_as(there.as_str()),
            Err(e) if e.kind() == ErrorKind::OutOfMemory => Err(AllocError),
            // nothing is there yet
            Err(_) => Ok(false),
        }
    }

    // Whether it is a disk that was served, or a file beside one.
    fn was_served(&self) -> Result<bool, AllocError>
    where
        R: AllocGlobal,
    {
        if self.was_served_as(self.path())? {
            return Ok(true);
        }
        self.was_served_there()
    }

    // The file, unless it is one of these disks, or lies beside one.
    fn unless_disk(&self, file: File, disks: &[&str]) -> Result<File, NotHeld>
    where
        R: AllocGlobal,
    {
        match self.is_one_of(&file, disks) {
            Ok(false) => Ok(file),
            Ok(true) => Err(NotHeld::Disk),
            Err(_) => Err(NotHeld::NoMemory),
        }
    }

    /// Opens it, and locks it as somebody does who lets others do the same: then no array serves it as a disk, or keeps registrations in
    /// it. What cannot be locked, as a terminal, is used all the same.
    pub fn held(&self, disks: &[&str]) -> Result<File, NotHeld>
    where
        R: AllocGlobal,
    {
        if disks.contains(&self.path.as_str()) {
            return Err(NotHeld::Disk);
        }
        match self.was_served() {
            Ok(false) => {}
            Ok(true) => return Err(NotHeld::Disk),
            Err(_) => return Err(NotHeld::NoMemory),
        }
        let file = match self.opened() {
            Ok(file) => file,
            Err(error) => return Err(NotHeld::Closed(error)),
        };
        match file.try_lock_shared() {
            Err(TryLockError::WouldBlock) => Err(NotHeld::Disk),
            Ok(()) | Err(TryLockError::Error(_)) => self.unless_disk(file, disks),
        }
    }
}

impl<R: Files<File = File> + AllocGlobal + Drop> Page for LogFile<R> {
    // Its name may lead to another file by now, of which the same is asked as at the start. A disk that is served is locked.
    fn open(&self) -> Option<File> {
        if is_unfit(&self.rt, self.path()) {
            return None;
        }
        self.held(&[]).ok()
    }
}

// The file of this page, held, where none of these names leads to it, or to a file beside it.
fn held_beside<R: Files<File = File> + AllocGlobal + Drop>(
    page: &LogFile<R>,
    alloc: Global,
    names: &[String],
) -> Result<Option<File>, AllocError> {
    let mut disks = Vec::new(alloc);
    for name in names {
        disks.push(name.as_str())?;
    }
    Ok(page.held(disks.as_slice()).ok())
}

// The line of an event that happens now.
fn line_of(rt: &impl Clock, alloc: Global, event: &Event<'_>) -> Result<String, AllocError> {
    let mut line = String::new(alloc);
    put_line(&mut line, Stamp::now(rt), event)?;
    Ok(line)
}

/// Writes one event to the file that the environment names, where it names one, with no thread: the program ends behind it.
pub fn write_one<R: Clock + Env + AllocGlobal + Files<File = File> + Clone + Drop>(
    rt: &R,
    alloc: Global,
    event: &Event<'_>,
) -> Result<(), Fault> {
    let Some(page) = LogFile::named(rt.clone()?)? else {
        return Ok(());
    };
    // No disk gets a line: none that is served, and none that a word names, or that lies beside one. Where a word cannot be looked at,
    // none is written.
    let names = names(rt)?;
    if let Some(mut file) = held_beside(&page, alloc, &names)? {
        let line = line_of(rt, alloc, event)?;
        let _ = file.write_all(line.as_bytes());
    }
    Ok(())
}
