//! A file of the system: the calls that reach it, and its name.
//!
//! What is said of these calls over the program's own type is said here alone: no other proof opens the words of `specs/System`. That each
//! is the call of the system that it says, by its offset and its bytes, no contract can show. Tests call each.
ghost use Rattle.std.specs.Prelude.{false, [], refl, OnOk};
ghost use Rattle.disk_files.specs.System.{has_read, has_written, ended, lasts, is_named, name_lasts, none_has_ended};

use crate::backing::{BackingFile, Counted};
use crate::fault::FileFault;
use crate::flushes::LastingFile;
use crate::node::node_of;
use disk_preparer::Node;
use std::fs::{self, File, OpenFile};
use std::io::{self, ErrorKind, Seek, SeekFrom};
use std::os::unix::fs::FileExt;
use std::rt::Files;

/// The number of an error of the system, 0 where it told none, as where fewer bytes came than were asked for.
pub fn number_of(e: &io::Error) -> u32 {
    match e.raw_os_error() {
        Some(number) => u32::try_from(number).unwrap_or(0),
        None => 0,
    }
}

// Why a file is not opened.
fn fault_of(e: &io::Error) -> FileFault {
    if e.kind() == ErrorKind::NotFound {
        FileFault::NotThere
    } else {
        FileFault::NotOpened(number_of(e))
    }
}

/// A file of the system, through one handle that reads and writes.
#[derive(Drop)]
pub struct SystemFile {
    handle: File,
    node: Node,
}

impl SystemFile {
    /// The file of a handle; None where the system does not tell which file it is.
    pub fn of(handle: File) -> Option<SystemFile> {
        let node = node_of(&handle)?;
        Some(SystemFile { handle, node })
    }

    /// Opens the file of this name for reading and writing.
    #[tactic(auto, using(crate::specs::System::an_open_says))]
    pub fn open<R: Files<File = File>>(rt: &R, path: &str) -> Result<SystemFile, FileFault>
        ensures { OnOk result (is_named path.now) }
    {
        match File::options().read(true).write(true).open(rt, path) {
            Ok(handle) => SystemFile::of(handle).ok_or(FileFault::NotOpened(0)),
            Err(e) => Err(fault_of(&e)),
        }
    }

    /// The handle.
    pub fn handle(&self) -> &File {
        &self.handle
    }

    // Has the system flush the file, of whose device so many writes have ended.
    fn sync(&self, writes: u64) -> Result<(), u32>
        ensures { OnOk result (lasts self.now.node writes) }
    {
        let _ = writes;
        match self.handle.sync_data() {
            Ok(()) => Ok(()),
            Err(e) => Err(number_of(&e)),
        }
    }
}

impl Counted for SystemFile {
    ghost ended = { ended };
}

impl BackingFile for SystemFile {
    ghost claims = { false };

    ghost bytes = { λ f. [] };

    ghost may_hold = { λ f k value. Unit {0} };

    ghost node = { λ f. f.node };

    ghost has_read = { has_read };

    ghost has_written = { has_written };

    ghost lasts = { lasts };

    ghost is_outcome = { λ f k h lt. tt };

    ghost none_has_ended = { none_has_ended };

    fn node(&self) -> Node {
        self.node
    }

    // A block device has an end, and no length.
    fn end(&self) -> Result<u64, u32> {
        let mut handle = &self.handle;
        match handle.seek(SeekFrom::End(0)) {
            Ok(end) => Ok(end),
            Err(e) => Err(number_of(&e)),
        }
    }

    fn read_at(&self, room: &mut [u8], offset: u64) -> Result<(), u32> {
        match self.handle.read_exact_at(room, offset) {
            Ok(()) => Ok(()),
            Err(e) => Err(number_of(&e)),
        }
    }

    fn write_at(&mut self, part: &[u8], offset: u64, _writes: u64) -> Result<(), u32> {
        match self.handle.write_all_at(part, offset) {
            Ok(()) => Ok(()),
            Err(e) => Err(number_of(&e)),
        }
    }

    fn flush(&mut self, writes: u64) -> Result<(), u32> {
        self.sync(writes)
    }
}

impl LastingFile for SystemFile {
    ghost unclaimed = { refl };

    fn make_last(&self, writes: u64) -> Result<(), u32> {
        self.sync(writes)
    }
}

/// Gives a file another name, in place of the file that has it.
#[tactic(auto, using(crate::specs::System::a_rename_says))]
pub fn give_name<R: Files<File = File>>(rt: &R, from: &str, name: &str) -> Result<(), u32>
    ensures { OnOk result (is_named name.now) }
{
    match fs::rename(rt, from, name) {
        Ok(()) => Ok(()),
        Err(e) => Err(number_of(&e)),
    }
}

// Has the system flush a folder by a handle, in which a file has this name.
#[tactic(auto, using(crate::specs::System::a_flush_of_a_folder_says))]
fn sync_name(handle: &File, folder: &str, name: &str) -> Result<(), u32>
    requires { is_named name.now }
    ensures { OnOk result (name_lasts folder.now name.now) }
{
    let _ = folder;
    let _ = name;
    match handle.sync_all() {
        Ok(()) => Ok(()),
        Err(e) => Err(number_of(&e)),
    }
}

/// Makes the name last that a file has in a folder; else the error of the system.
pub fn make_name_last<R: Files<File = File>>(rt: &R, folder: &str, name: &str) -> Result<(), u32>
    requires { is_named name.now }
    ensures { OnOk result (name_lasts folder.now name.now) }
{
    match File::open(rt, folder) {
        Ok(handle) => sync_name(&handle, folder, name),
        Err(e) => Err(number_of(&e)),
    }
}
