//! The units of the array, over files whose calls have a deadline.
ghost use Rattle.std.specs.Prelude.{◌≡◌, ◌<◌, ◌≤◌, IfOk, length, map};
ghost use Rattle.std.specs.Arc.{arc_value};
ghost use Rattle.unit_state.specs.Serials.{IsOpening};

use crate::disks::{
    OpenArray, fault_of, look_at_units, open_blocks, open_preparer, open_record, place_of,
};
use aptpl_file::RegFile;
use block_file::{KeepOpener, Opener};
use command_line::{Fault, MAX_UNITS, Options};
use deadline::{Deadlined, DeadlinedOpener, DeadlinedPreparer};
use disk_files::{DiskLock, FileBlocks, FileDevice, FileOpener, NamedBlocks, SystemFile};
use disk_preparer::{Node, Preparer};
use event_log::Log;
use events::{Part, Unusable};
use file_preparer::FilePreparer;
use reservations::Record;
use scsi_types::Place;
use std::alloc::Global;
use std::fs::File;
use std::rt::Files;
use std::sync::{Arc, Wait};
use std::thread::Threads;
use std::time::{Clock, Duration};
use timed_calls::Watch;
use unit_state::{Unit, laws};

/// What a unit will be over: its disk with what opens it anew and its preparer, its registration file, and the locks of both.
#[derive(Drop)]
pub struct Parts<B: FileDevice, F: FileDevice, O: Opener<B>, P: Preparer> {
    place: Place,
    // Which file is the disk, and which holds its registrations.
    disk: Node,
    filed: Node,
    blocks: B,
    opener: O,
    preparer: P,
    file: F,
    locks: [DiskLock; 2],
    ghost some: { 0 < B.size blocks },
    ghost kept: { 0 < F.size file },
    ghost of_disk: { disk ≡ B.OnDisk.disk blocks },
    ghost of_file: { filed ≡ F.OnDisk.disk file },
    ghost prepared: { P.disk preparer ≡ disk },
}

/// One over files.
pub type FileParts<R> = Parts<
    FileBlocks<SystemFile>,
    NamedBlocks<R>,
    FileOpener<R>,
    FilePreparer<R, SystemFile>,
>;

// A unit whose calls have a deadline, over such parts.
type TimedUnit<R, B, F, O> = Unit<Deadlined<R, B, O>, Deadlined<R, F, KeepOpener>, DeadlinedOpener>;

/// An array of such units.
pub type TimedArray<R, B, F, O, P> = OpenArray<
    Deadlined<R, B, O>,
    Deadlined<R, F, KeepOpener>,
    DeadlinedOpener,
    DeadlinedPreparer<R, P>,
>;

// Opens the files of the unit at this place, and locks them.
fn open_parts<R: Files<File = File> + Clock + Wait + Clone + Drop>(
    rt: &R,
    alloc: Global,
    log: &Log,
    place: Place,
    path: &str,
) -> Result<FileParts<R>, Fault> {
    let mut disk = open_blocks(rt, alloc, log, place.unit, path)?;
    let preparer = open_preparer(rt, alloc, log, place.unit, path, &mut disk.blocks)?;
    let found = open_record(rt, alloc, log, place.unit, path)?;
    let file = found.file.close();
    Ok(Parts {
        place,
        disk: disk.blocks.node(),
        filed: file.node(),
        blocks: disk.blocks,
        opener: disk.opener,
        preparer,
        file,
        locks: [disk.lock, found.lock],
    })
}

/// Opens the files of the array that the words ask for, as `open` does. No thread has them yet.
pub fn open_files<R: Files<File = File> + Clock + Wait + Clone + Drop>(
    rt: &R,
    alloc: Global,
    log: &Log,
    options: &Options<'_>,
) -> Result<Vec<FileParts<R>>, Fault>
    requires { length options.now.paths.items ≤ MAX_UNITS }
{
    look_at_units(rt, alloc, log, options)?;
    let mut parts = Vec::new(alloc);
    for unit in 0..options.paths.len() as u8 {
        let (place, path) = place_of(options, unit);
        parts.push(open_parts(rt, alloc, log, place, path)?)?;
    }
    Ok(parts)
}

// What all share that ask calls of a file of a unit.
fn watch(
    alloc: Global,
    log: &Log,
    unit: u8,
    part: Part,
    patience: Duration,
    node: Node,
) -> Result<Arc<Watch, Global>, Fault>
    ensures { IfOk result (λ watch. (arc_value watch).node ≡ node) }
{
    Ok(Arc::new(alloc, Watch::new(patience, log.share()?, unit, part, node))?)
}

// A registration file by a thread of its own, and its record.
fn start_record<
    R: Threads + Wait + Clock + Clone + Drop + Send + Sync + 'static,
    F: FileDevice + Send + 'static,
>(
    rt: &R,
    alloc: Global,
    unit: u8,
    file: F,
    node: Node,
    watch: &Arc<Watch, Global>,
) -> Result<(RegFile<Deadlined<R, F, KeepOpener>>, Record), Fault>
    requires some { 0 < F.size file }
    requires disk { node ≡ F.OnDisk.disk file }
    requires watched { (arc_value watch.now).node ≡ node }
{
    let Ok(timed) = Deadlined::start(rt, alloc, file, KeepOpener, node, watch) else {
        return Err(Fault::NoMemory);
    };
    match RegFile::open(alloc, timed) {
        Ok(found) => Ok(found),
        Err(_) => Err(fault_of(unit, Part::Registrations, Unusable::Failed, 0)),
    }
}

impl<
    B: FileDevice + Send + 'static,
    F: FileDevice + Send + 'static,
    O: Opener<B> + Send + 'static,
    P: Preparer + Send + Sync + 'static,
> Parts<B, F, O, P> {
    // The unit over these parts, each by threads of its own; and its preparer, and its locks.
    fn start<R: Threads + Wait + Clock + Clone + Drop + Send + Sync + 'static>(
        self,
        rt: &R,
        alloc: Global,
        log: &Log,
        patience: Duration,
    ) -> Result<
        (
            TimedUnit<R, B, F, O>,
            DeadlinedPreparer<R, P>,
            [DiskLock; 2],
        ),
        Fault,
    >
        ensures opening { IfOk result (λ r. IsOpening r.0.control) }
        ensures disk { IfOk result (λ r. r.0.device.node ≡ r.1.node) }
    {
        let of_disk = watch(alloc, log, self.place.unit, Part::Disk, patience, self.disk)?;
        let part = Part::Registrations;
        let of_file = watch(alloc, log, self.place.unit, part, patience, self.filed)?;
        let Parts {
            place,
            disk,
            filed,
            blocks,
            opener,
            preparer,
            file,
            locks,
        } = self;
        let Ok(blocks) = Deadlined::start(rt, alloc, blocks, opener, disk, &of_disk) else {
            return Err(Fault::NoMemory);
        };
        let Ok(preparer) = DeadlinedPreparer::start(rt, alloc, preparer, disk, &of_disk) else {
            return Err(Fault::NoMemory);
        };
        let (file, record) = start_record(rt, alloc, place.unit, file, filed, &of_file)?;
        laws::nobody_is_attached_at_first();
        let unit = Unit::open(alloc, place, blocks, DeadlinedOpener::new(), file, record)?;
        Ok((unit, preparer, locks))
    }
}

/// The array over these parts, in order. Each call on their files takes so long at most.
pub fn start_timed<
    R: Threads + Wait + Clock + Clone + Drop + Send + Sync + 'static,
    B: FileDevice + Send + 'static,
    F: FileDevice + Send + 'static,
    O: Opener<B> + Send + 'static,
    P: Preparer + Send + Sync + 'static,
>(
    rt: &R,
    alloc: Global,
    log: &Log,
    parts: Vec<Parts<B, F, O, P>>,
    patience: Duration,
) -> Result<TimedArray<R, B, F, O, P>, Fault>
    ensures count { IfOk result (λ array. length array.units.items ≤ MAX_UNITS) }
    ensures disks { IfOk result (λ array.
        map (λ new. new.unit.device.node) array.units.items ≡ map (λ preparer. preparer.node) array.preparers.items) }
{
    let mut array = OpenArray::new(alloc);
    for part in parts {
        let (unit, preparer, locks) = part.start(rt, alloc, log, patience)?;
        array.push(alloc, unit, preparer, locks)?;
    }
    // There are no more than the words ask for.
    if array.units.len() > MAX_UNITS {
        return Err(Fault::WrongWords);
    }
    Ok(array)
}
