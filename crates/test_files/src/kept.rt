//! What a script over files keeps open (`scripts`): a disk, or a registration file; by a thread of its own, where calls have a deadline.
use crate::calls::{is_done, is_saved, said, told};
use aptpl_file::RegFile;
use beside_disk::{Registrations, open_registrations};
use block_file::{Blocks, KeepOpener, Opener};
use deadline::{Deadlined, DeadlinedOpener};
use disk_files::{
    Disk, DiskLock, FileBlocks, FileDevice, FileOpener, NamedBlocks, SystemFile, open_disk,
};
use reservations::Record;
use std::alloc::Global;
use std::fs::{File, Files};
use std::process::Abort;
use std::sync::Wait;
use std::thread::Threads;
use std::time::Clock;
use test_disks::{Row, timed, watch};

/// So many seconds a call may take.
const PATIENCE: u64 = 20;

/// A disk or a registration file. Of its calls nothing is promised here, so that what plays a script knows no type of a device.
pub trait AnyFile: Drop {
    /// Whether it is opened as a row says: by what its record says, if it is a registration file.
    fn is_so(&self, rt: &impl Abort, alloc: Global, row: &Row) -> bool;

    /// Whether the call of a row ends as it says.
    fn ends(&mut self, rt: &impl Abort, alloc: Global, row: &Row) -> bool;
}

/// A disk, or a registration file and what it held, with its lock.
#[derive(Drop)]
pub enum Held<B: Blocks, O: Opener<B>, F: Blocks> {
    Disk(B, O, DiskLock),
    Registrations(RegFile<F>, Record, DiskLock),
}

impl<B: Blocks, O: Opener<B>, F: Blocks> AnyFile for Held<B, O, F> {
    fn is_so(&self, rt: &impl Abort, alloc: Global, row: &Row) -> bool {
        match self {
            Held::Disk(..) => row.ends(true),
            Held::Registrations(_, record, _) => told(rt, alloc, record).as_str() == row.end,
        }
    }

    fn ends(&mut self, rt: &impl Abort, alloc: Global, row: &Row) -> bool {
        match self {
            Held::Disk(blocks, opener, _) => is_done(rt, alloc, blocks, opener, row),
            Held::Registrations(file, _, _) => {
                row.word == "save" && row.ends(is_saved(rt, alloc, file, row.on))
            }
        }
    }
}

/// Opens the disk of this path, or the registration file beside it; or tells why not.
pub fn opened<H: Files<File = File> + Drop>(
    rt: &impl Abort,
    alloc: Global,
    host: H,
    path: &str,
    is_disk: bool,
) -> Result<Held<FileBlocks<SystemFile>, FileOpener<H>, NamedBlocks<H>>, String> {
    if is_disk {
        match open_disk(host, alloc, path) {
            Ok(
                Disk {
                    blocks,
                    opener,
                    lock,
                },
            ) => Ok(Held::Disk(blocks, opener, lock)),
            Err(fault) => Err(said(rt, alloc, &fault)),
        }
    } else {
        match open_registrations(host, alloc, path, None) {
            Ok(Registrations { file, record, lock }) => {
                Ok(Held::Registrations(file, record, lock))
            }
            Err(fault) => Err(said(rt, alloc, &fault)),
        }
    }
}

impl<
    B: FileDevice + Send + 'static,
    O: Opener<B> + Send + 'static,
    F: FileDevice + Send + 'static,
> Held<B, O, F> {
    // The same, by a thread of its own, which reads the record once more.
    fn timed<R: Threads + Wait + Clock + Abort + Clone + Drop + Send + 'static>(
        self,
        rt: &R,
        alloc: Global,
    ) -> Held<Deadlined<R, B, O>, DeadlinedOpener, Deadlined<R, F, KeepOpener>> {
        match self {
            Held::Disk(blocks, opener, lock) => {
                let device = timed_at(rt, alloc, blocks, opener);
                Held::Disk(device, DeadlinedOpener::new(), lock)
            }
            Held::Registrations(file, _, lock) => {
                let device = timed_at(rt, alloc, file.close(), KeepOpener);
                let (file, record) = RegFile::open(alloc, device).expect(rt, "a record");
                Held::Registrations(file, record, lock)
            }
        }
    }
}

// A device of a file, whose calls have a deadline.
fn timed_at<
    R: Threads + Wait + Clock + Abort + Clone + Drop + Send + 'static,
    B: FileDevice + Send + 'static,
    O: Opener<B> + Send + 'static,
>(rt: &R, alloc: Global, blocks: B, opener: O) -> Deadlined<R, B, O> {
    let disk = blocks.disk();
    let watch = watch(alloc, PATIENCE, disk).expect(rt, "memory");
    let device = timed(rt, alloc, blocks, opener, disk, &watch);
    device.expect(rt, "a thread")
}

/// Opens a file as `opened` does, whose calls have a deadline.
pub fn opened_by_threads<
    R: Threads + Wait + Clock + AllocGlobal + Abort + Clone + Drop + Send + 'static,
>(
    rt: &R,
    host: HostRuntime,
    path: &str,
    is_disk: bool,
) -> Result<
    Held<
        Deadlined<R, FileBlocks<SystemFile>, FileOpener<HostRuntime>>,
        DeadlinedOpener,
        Deadlined<R, NamedBlocks<HostRuntime>, KeepOpener>,
    >,
    String,
> {
    match opened(rt, rt.alloc(), host, path, is_disk) {
        Ok(held) => Ok(held.timed(rt, rt.alloc())),
        Err(told) => Err(told),
    }
}
