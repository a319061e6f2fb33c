//! The disk of a unit.
ghost use Rattle.std.specs.Prelude.{◌≡◌, IfOk};
ghost use Rattle.disk_files.specs.Tally.{none};

use crate::node::node_of;
use crate::system::{SystemFile, number_of};
use crate::{DiskFault, FileBlocks, FileFault, FileOpener};
use disk_preparer::Node;
use std::alloc::Global;
use std::fs::{File, TryLockError};
use std::rt::Files;

/// The right to be the one server of a disk, or of a registration file, until it is dropped: an exclusive lock of the system on a handle
/// of its own, which is no part of the device. It is on the file, whatever its names.
#[derive(Drop)]
pub struct DiskLock {
    _handle: File,
    node: Node,
}

impl DiskLock {
    /// Locks the file that has this name.
    pub fn take<R: Files<File = File>>(rt: &R, path: &str) -> Result<DiskLock, DiskFault> {
        let handle = match File::open(rt, path) {
            Ok(handle) => handle,
            Err(e) => return Err(DiskFault::NotLocked(number_of(&e))),
        };
        match handle.try_lock() {
            Ok(()) => {}
            Err(TryLockError::WouldBlock) => return Err(DiskFault::InUse),
            Err(TryLockError::Error(e)) => return Err(DiskFault::NotLocked(number_of(&e))),
        }
        let Some(node) = node_of(&handle) else {
            return Err(DiskFault::NotLocked(0));
        };
        Ok(DiskLock {
            _handle: handle,
            node,
        })
    }

    /// The file that is locked.
    pub fn node(&self) -> Node
        ensures { result ≡ self.now.node }
    {
        self.node
    }
}

/// A file as the disk of a unit: its device, its opener for the other controller, and its lock, which has to live as
/// long as the unit does.
#[derive(Drop)]
pub struct Disk<R: Files<File = File> + Drop> {
    pub blocks: FileBlocks<SystemFile>,
    pub opener: FileOpener<R>,
    pub lock: DiskLock,
}

/// Opens the file of a unit's blocks, for one server alone.
pub fn open_disk<R: Files<File = File> + Drop>(
    rt: R,
    alloc: Global,
    path: &str,
) -> Result<Disk<R>, DiskFault>
    ensures { IfOk result (λ disk. disk.blocks.tally ≡ none) }
{
    let blocks = match FileBlocks::open(&rt, path) {
        Ok(blocks) => blocks,
        Err(fault) => return Err(DiskFault::File(fault)),
    };
    match locked(rt, alloc, path, blocks.node()) {
        Ok((lock, opener)) => Ok(Disk {
            blocks,
            opener,
            lock,
        }),
        Err(fault) => Err(fault),
    }
}

// The lock and the opener of this file, which had this name.
fn locked<R: Files<File = File> + Drop>(
    rt: R,
    alloc: Global,
    path: &str,
    node: Node,
) -> Result<(DiskLock, FileOpener<R>), DiskFault> {
    let lock = match DiskLock::take(&rt, path) {
        Ok(lock) => lock,
        Err(fault) => return Err(fault),
    };
    // Another file may have taken the name in between.
    if !node.is(lock.node) {
        return Err(DiskFault::File(FileFault::NotOpened(0)));
    }
    match FileOpener::new(rt, alloc, path) {
        Ok(opener) => Ok((lock, opener)),
        Err(_) => Err(DiskFault::NoMemory),
    }
}
