//! The registration file of a unit.
ghost use Rattle.std.specs.Prelude.{◌≡◌, IfOk, OnOk};
ghost use Rattle.disk_files.specs.System.{is_named, name_lasts};

use crate::begun::{NotBegun, begun, folder_of, joined};
use crate::fault::RegistrationsFault;
use aptpl_file::{FILE_BLOCKS, OpenFault, RegFile};
use block_file::{BLOCK_LENGTH, Blocks};
use disk_files::{
    DiskFault, DiskLock, FileBlocks, FileFault, FileLog, NamedBlocks, SystemFile, give_name,
    make_name_last, number_of,
};
use registrants::Record;
use std::alloc::Global;
use std::fs::{self, File};
use std::os::unix::fs::MetadataExt;
use std::rt::Files;

/// A registration file: its blocks, the record that it holds, and its lock, which has to live as long as the unit does.
#[derive(Drop)]
pub struct Registrations<R: Files<File = File> + Drop> {
    pub file: RegFile<NamedBlocks<R>>,
    pub record: Record,
    pub lock: DiskLock,
}

/// Opens the registration file beside the disk of this name, which has `.reg` behind it, for one server alone. Where there is none
/// it is made. A file that is there and is no registration file is left as it was. Calls on it that fail are told by this file_log.
pub fn open_registrations<R: Files<File = File> + Drop>(
    rt: R,
    alloc: Global,
    disk: &str,
    file_log: Option<FileLog>,
) -> Result<Registrations<R>, RegistrationsFault> {
    if is_forgotten(&rt, disk) {
        return Err(RegistrationsFault::Forgotten);
    }
    let Ok(path) = joined(alloc, disk, ".reg") else {
        return Err(RegistrationsFault::NoMemory);
    };
    let mut blocks = match opened_or_made(&rt, alloc, folder_of(path.as_str()), path.as_str()) {
        Ok(blocks) => blocks,
        Err(fault) => return Err(fault),
    };
    let lock = match locked(&rt, path.as_str(), &blocks) {
        Ok(lock) => lock,
        Err(fault) => return Err(fault),
    };
    if let Some(file_log) = file_log {
        blocks.tell_by(file_log);
    }
    match NamedBlocks::new(rt, alloc, path.as_str(), blocks, lock.node()) {
        Ok(named) => held(alloc, named, lock),
        Err(_) => Err(RegistrationsFault::NoMemory),
    }
}

// Reads the record of a registration file.
fn held<R: Files<File = File> + Drop>(
    alloc: Global,
    named: NamedBlocks<R>,
    lock: DiskLock,
) -> Result<Registrations<R>, RegistrationsFault> {
    match RegFile::open(alloc, named) {
        Ok((file, record)) => Ok(Registrations { file, record, lock }),
        Err(OpenFault::NoMemory) => Err(RegistrationsFault::NoMemory),
        Err(fault) => Err(RegistrationsFault::Held(fault)),
    }
}

// Locks the file of these blocks, which has this name.
fn locked<R: Files<File = File>>(
    rt: &R,
    path: &str,
    blocks: &FileBlocks<SystemFile>,
) -> Result<DiskLock, RegistrationsFault>
    ensures { IfOk result (λ lock. blocks.now.file.node ≡ lock.node) }
{
    let lock = match DiskLock::take(rt, path) {
        Ok(lock) => lock,
        Err(DiskFault::InUse) => return Err(RegistrationsFault::InUse),
        Err(DiskFault::NotLocked(error)) => return Err(RegistrationsFault::NotLocked(error)),
        Err(_) => return Err(RegistrationsFault::NotLocked(0)),
    };
    // Another file may have taken the name in between.
    if !blocks.node().is(lock.node()) {
        return Err(RegistrationsFault::File(FileFault::NotOpened(0)));
    }
    Ok(lock)
}

// Whether the disk outlasts a reboot and what lies beside it does not: it is no regular file, and its folder lies in the file system
// of `/dev`, which is a mount of its own. A reboot makes that anew, and registrations that were told GOOD would be gone.
fn is_forgotten<R: Files<File = File>>(rt: &R, disk: &str) -> bool {
    let Ok(metadata) = fs::metadata(rt, disk) else {
        return false;
    };
    let devices = device_of(rt, "/dev");
    !metadata.is_file()
        && devices.is_some()
        && device_of(rt, folder_of(disk)) == devices
        && device_of(rt, "/") != devices
}

// The file system in which a folder lies.
fn device_of<R: Files<File = File>>(rt: &R, folder: &str) -> Option<u64> {
    match fs::metadata(rt, folder) {
        Ok(metadata) => Some(metadata.dev()),
        Err(_) => None,
    }
}

// The file's blocks, where it is there, or else of one that was made. A link to a file that is not there is left as it is: what it leads
// to may be there later, with the registrations of before. The name lasts: a stop may have come between the making of the file and the
// flush of its folder.
fn opened_or_made<R: Files<File = File>>(
    rt: &R,
    alloc: Global,
    folder: &str,
    path: &str,
) -> Result<FileBlocks<SystemFile>, RegistrationsFault>
    ensures { OnOk result (name_lasts folder.now path.now) }
{
    match FileBlocks::open(rt, path) {
        Ok(blocks) => return lasting(rt, folder, path, blocks),
        Err(FileFault::NotThere) => {}
        Err(fault) => return Err(RegistrationsFault::File(fault)),
    }
    if fs::symlink_metadata(rt, path).is_ok() {
        return Err(RegistrationsFault::File(FileFault::NotThere));
    }
    made(rt, alloc, path)?;
    match FileBlocks::open(rt, path) {
        Ok(blocks) => lasting(rt, folder, path, blocks),
        Err(fault) => Err(RegistrationsFault::File(fault)),
    }
}

// The blocks of the file that has this name in a folder, once the name lasts.
fn lasting<R: Files<File = File>>(
    rt: &R,
    folder: &str,
    path: &str,
    blocks: FileBlocks<SystemFile>,
) -> Result<FileBlocks<SystemFile>, RegistrationsFault>
    requires { is_named path.now }
    ensures { OnOk result (name_lasts folder.now path.now) }
{
    match make_name_last(rt, folder, path) {
        Ok(()) => Ok(blocks),
        Err(error) => Err(RegistrationsFault::NotMade(error)),
    }
}

// Makes a registration file of nothing under another name, and gives it its own when it is whole, so that a stop leaves none or a whole
// one.
fn made<R: Files<File = File>>(
    rt: &R,
    alloc: Global,
    path: &str,
) -> Result<(), RegistrationsFault> {
    let (file, new) = match begun(rt, alloc, path) {
        Ok(begun) => begun,
        Err(NotBegun::NoMemory) => return Err(RegistrationsFault::NoMemory),
        Err(NotBegun::System(error)) => return Err(RegistrationsFault::NotMade(error)),
    };
    match named(rt, file, new.as_str(), path) {
        Ok(()) => Ok(()),
        Err(error) => {
            let _ = fs::remove_file(rt, new.as_str());
            Err(RegistrationsFault::NotMade(error))
        }
    }
}

// Writes a registration file of nothing into an empty file, and gives it this path; else the error of the system.
fn named<R: Files<File = File>>(rt: &R, file: File, new: &str, path: &str) -> Result<(), u32> {
    match file.set_len(BLOCK_LENGTH as u64 * u64::from(FILE_BLOCKS)) {
        Ok(()) => {}
        Err(e) => return Err(number_of(&e)),
    }
    if !is_formatted(file) {
        return Err(0);
    }
    give_name(rt, new, path)
}

// Whether a registration file of nothing was written there.
fn is_formatted(file: File) -> bool {
    let Some(file) = SystemFile::of(file) else {
        return false;
    };
    let Ok(blocks) = FileBlocks::of(file) else {
        return false;
    };
    match formatted(blocks) {
        Some(blocks) => blocks.into_file().handle().sync_all().is_ok(),
        None => false,
    }
}

// The device, where a registration file of nothing was written there.
fn formatted<B: Blocks>(mut blocks: B) -> Option<B> {
    if !is_filled(&mut blocks) || blocks.count() < FILE_BLOCKS {
        return None;
    }
    match RegFile::format(blocks) {
        Ok(file) => Some(file.close()),
        Err(_) => None,
    }
}

// Whether all blocks were written and flushed, so that the file system has them, however full it becomes: a save that finds no
// room would be a fence that cannot be had.
fn is_filled<B: Blocks>(blocks: &mut B) -> bool {
    for block in 0..blocks.count() {
        if block >= blocks.count() || blocks.write_run(block, &[0; BLOCK_LENGTH]).is_err() {
            return false;
        }
    }
    blocks.flush().is_ok()
}
