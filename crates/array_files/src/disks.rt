//! The units of the array, over files.
ghost use Rattle.std.specs.Prelude.{◌≡◌, ◌+◌, ◌<◌, ◌≤◌, [], IfOk, OnOk, length, map};
ghost use Rattle.unit_state.specs.Serials.{IsOpening};

use aptpl_file::OpenFault;
use beside_disk::{
    Registrations, RegistrationsFault, UnitFileFault, UnitName, look_as, open_as,
    open_registrations,
};
use block_file::{Blocks, Opener};
use command_line::{Fault, MAX_UNITS, Options};
use disk_files::{
    Disk, DiskFault, DiskLock, FileBlocks, FileFault, FileLog, FileOpener, NamedBlocks, SystemFile,
    open_disk,
};
use disk_preparer::{OnDisk, Preparer};
use event_log::Log;
use events::{Event, Part, Unusable};
use file_preparer::FilePreparer;
use scsi_types::Place;
use std::alloc::Global;
use std::fs::File;
use std::rt::Files;
use std::sync::Wait;
use std::time::Clock;
use unit_history::NewUnit;
use unit_state::{Unit, laws};

/// A unit over a file, with the registration file beside it.
type FileUnit<R> = Unit<FileBlocks<SystemFile>, NamedBlocks<R>, FileOpener<R>>;

/// An array before it is served: its units, the preparers of their disks, and the locks of both files of each, for as long as it is
/// served.
#[derive(Drop)]
pub struct OpenArray<B: Blocks, F: Blocks, O: Opener<B>, P> {
    pub units: Vec<NewUnit<B, F, O>>,
    pub preparers: Vec<P>,
    pub locks: Vec<[DiskLock; 2]>,
}

impl<B: Blocks + OnDisk, F: Blocks, O: Opener<B>, P: Preparer> OpenArray<B, F, O, P> {
    // An array of no units.
    pub(crate) fn new(alloc: Global) -> OpenArray<B, F, O, P>
        ensures units { result.units.items ≡ [] }
        ensures preparers { result.preparers.items ≡ [] }
    {
        OpenArray {
            units: Vec::new(alloc),
            preparers: Vec::new(alloc),
            locks: Vec::new(alloc),
        }
    }

    // Puts a unit behind those that there are, with the preparer of its disk, and its locks.
    pub(crate) fn push(
        &mut self,
        alloc: Global,
        unit: Unit<B, F, O>,
        preparer: P,
        locks: [DiskLock; 2],
    ) -> Result<(), Fault>
        requires opening { IsOpening unit.control }
        requires disk { B.OnDisk.disk unit.device ≡ P.disk preparer }
        requires disks { map (λ new. B.OnDisk.disk new.unit.device) self.old.units.items ≡ map P.disk self.old.preparers.items }
        ensures disks { OnOk result (
            map (λ new. B.OnDisk.disk new.unit.device) self.new.units.items ≡ map P.disk self.new.preparers.items) }
        ensures count { OnOk result (length self.new.units.items ≡ length self.old.units.items + 1) }
    {
        self.units.push(NewUnit::new(alloc, unit)?)?;
        self.preparers.push(preparer)?;
        self.locks.push(locks)?;
        Ok(())
    }
}

/// One over files.
pub type FileArray<R> = OpenArray<
    FileBlocks<SystemFile>,
    NamedBlocks<R>,
    FileOpener<R>,
    FilePreparer<R, SystemFile>,
>;

// ENOENT, as Linux numbers it.
const NO_ENTRY: u32 = 2;

// Why a file is no device of blocks, as the log names it, and the error of the system, 0 where it told none.
fn file_cause(fault: FileFault) -> (Unusable, u32) {
    match fault {
        FileFault::NotThere => (Unusable::NotThere, NO_ENTRY),
        FileFault::NotOpened(error) => (Unusable::NotOpened, error),
        FileFault::Length => (Unusable::Length, 0),
        FileFault::Empty => (Unusable::Empty, 0),
        FileFault::TooLong => (Unusable::TooLong, 0),
    }
}

// The same of a disk.
fn disk_cause(fault: DiskFault) -> (Unusable, u32) {
    match fault {
        DiskFault::File(fault) => file_cause(fault),
        DiskFault::InUse => (Unusable::InUse, 0),
        DiskFault::NotLocked(error) => (Unusable::NotLocked, error),
        DiskFault::NoMemory => (Unusable::NoMemory, 0),
    }
}

// The same of a registration file.
fn registrations_cause(fault: RegistrationsFault) -> (Unusable, u32) {
    match fault {
        RegistrationsFault::File(fault) => file_cause(fault),
        RegistrationsFault::NotMade(error) => (Unusable::NotMade, error),
        RegistrationsFault::InUse => (Unusable::InUse, 0),
        RegistrationsFault::NotLocked(error) => (Unusable::NotLocked, error),
        RegistrationsFault::Held(OpenFault::NotARegFile) => (Unusable::NotARegistrationFile, 0),
        RegistrationsFault::Held(OpenFault::Version) => (Unusable::Version, 0),
        RegistrationsFault::Held(OpenFault::DeviceFailed) => (Unusable::Failed, 0),
        RegistrationsFault::Held(OpenFault::NoMemory) => (Unusable::NoMemory, 0),
        RegistrationsFault::Forgotten => (Unusable::Forgotten, 0),
        RegistrationsFault::NoMemory => (Unusable::NoMemory, 0),
    }
}

// Why a file cannot be used, in words.
fn words_of(why: Unusable) -> &'static str {
    match why {
        Unusable::NotThere => "it is not there",
        Unusable::NotOpened => "it cannot be opened",
        Unusable::Length => "its length is no multiple of 512",
        Unusable::Empty => "it is empty",
        Unusable::TooLong => "it is too long",
        Unusable::InUse => "another server has it, or another unit",
        Unusable::NotLocked => "it cannot be locked",
        Unusable::NotMade => "it cannot be made",
        Unusable::NotARegistrationFile => "it is no registration file",
        Unusable::Version => "it is of another version",
        Unusable::Failed => "a call on it failed",
        Unusable::Forgotten => "a reboot would forget it",
        Unusable::NoMemory => "no memory",
    }
}

// That a file of a unit cannot be used, or that there was no memory.
pub(crate) fn fault_of(unit: u8, part: Part, why: Unusable, error: u32) -> Fault {
    match (why, part) {
        (Unusable::NoMemory, _) => Fault::NoMemory,
        (_, Part::Disk) => Fault::CannotUseUnit(unit, words_of(why), error),
        (_, Part::Registrations) => { Fault::CannotUseRegistrationFile(unit, words_of(why), error) }
    }
}

// Tells the log why a file of a unit cannot be used.
fn refuse(log: &Log, unit: u8, part: Part, path: &str, cause: (Unusable, u32)) -> Fault {
    let (why, error) = cause;
    log.note(&Event::CannotUse(unit, part, path.as_bytes(), why, error));
    fault_of(unit, part, why, error)
}

// What tells of calls that fail on a file of a unit.
fn file_log(log: &Log, unit: u8, part: Part) -> Result<FileLog, Fault> {
    Ok(FileLog::new(log.share()?, unit, part))
}

// The disk of a unit.
pub(crate) fn open_blocks<R: Files<File = File> + Clone + Drop>(
    rt: &R,
    alloc: Global,
    log: &Log,
    unit: u8,
    path: &str,
) -> Result<Disk<R>, Fault> {
    let mine = rt.clone()?;
    match open_disk(mine, alloc, path) {
        Ok(mut disk) => {
            disk.blocks.tell_by(file_log(log, unit, Part::Disk)?);
            if let Some(meters) = log.meters() {
                meters.measured(unit, u64::from(disk.blocks.count()));
            }
            Ok(disk)
        }
        Err(fault) => Err(refuse(log, unit, Part::Disk, path, disk_cause(fault))),
    }
}

// The preparer of a disk, which tells of its own flushes that fail.
pub(crate) fn open_preparer<R: Files<File = File> + Clock + Wait + Clone + Drop>(
    rt: &R,
    alloc: Global,
    log: &Log,
    unit: u8,
    path: &str,
    blocks: &mut FileBlocks<SystemFile>,
) -> Result<FilePreparer<R, SystemFile>, Fault>
    ensures same { blocks.new.file ≡ blocks.old.file }
    ensures disk { IfOk result (λ preparer. preparer.node ≡ blocks.old.file.node) }
{
    let mine = rt.clone()?;
    let file_log = file_log(log, unit, Part::Disk)?;
    Ok(FilePreparer::open(mine, alloc, path, blocks, Some(file_log)))
}

// The unit of a place, as the file beside its disk names it.
fn name_of(place: Place) -> UnitName {
    UnitName {
        unit: place.unit,
        array: place.array,
    }
}

// What came of a look at the file that says which unit a disk is; the log is told where it is another one.
fn told_unit(
    alloc: Global,
    log: &Log,
    name: UnitName,
    path: &str,
    found: Result<(), UnitFileFault>,
) -> Result<(), Fault> {
    let UnitName { unit, array } = name;
    match found {
        Ok(()) => Ok(()),
        Err(UnitFileFault::NoMemory) => Err(Fault::NoMemory),
        Err(UnitFileFault::Other(known)) => {
            let fault = Fault::OtherUnit(unit, array, known.unit, known.array);
            let text = format!(in alloc; "{fault}: {path}")?;
            log.note(&Event::WrongWords(text.as_bytes()));
            Err(fault)
        }
        Err(UnitFileFault::NamesNone) => Err(unnamed(log, unit, path, 0)),
        Err(UnitFileFault::NotRead(error)) => Err(unnamed(log, unit, path, error)),
    }
}

/// Looks whether a disk of the array that the words ask for was served as another unit, before any file is made: words that are refused
/// leave nothing behind by which the right ones would be refused. So disks are named last of all, by `name_units`.
pub(crate) fn look_at_units<R: Files<File = File>>(
    rt: &R,
    alloc: Global,
    log: &Log,
    options: &Options<'_>,
) -> Result<(), Fault>
    requires { length options.now.paths.items ≤ MAX_UNITS }
{
    for unit in 0..options.paths.len() as u8 {
        let (place, path) = place_of(options, unit);
        let found = look_as(rt, alloc, path, name_of(place));
        told_unit(alloc, log, name_of(place), path, found)?;
    }
    Ok(())
}

/// Sees to it that each disk of the array that the words ask for is served as its unit, and as no other one, from now on: where nothing is
/// left for which the start may be refused.
pub fn name_units<R: Files<File = File>>(
    rt: &R,
    alloc: Global,
    log: &Log,
    options: &Options<'_>,
) -> Result<(), Fault> {
    let mut unit = 0u8;
    for path in options.paths.as_slice() {
        let array = options.array;
        let name = UnitName { unit, array };
        let kept = open_as(rt, alloc, path, name);
        told_unit(alloc, log, name, path, kept)?;
        unit = unit.saturating_add(1);
    }
    Ok(())
}

// Tells the log of a disk beside which nothing can say as which unit it is served.
fn unnamed(log: &Log, unit: u8, path: &str, error: u32) -> Fault {
    let cannot = Event::CannotUse(unit, Part::Disk, path.as_bytes(), Unusable::NotMade, error);
    log.note(&cannot);
    Fault::CannotUseUnit(unit, "the file .unit beside it cannot be used", error)
}

// The registration file of a unit, and its record.
pub(crate) fn open_record<R: Files<File = File> + Clone + Drop>(
    rt: &R,
    alloc: Global,
    log: &Log,
    unit: u8,
    path: &str,
) -> Result<Registrations<R>, Fault> {
    let file_log = file_log(log, unit, Part::Registrations)?;
    let mine = rt.clone()?;
    match open_registrations(mine, alloc, path, Some(file_log)) {
        Ok(found) => Ok(found),
        Err(fault) => {
            let cause = registrations_cause(fault);
            Err(refuse(log, unit, Part::Registrations, path, cause))
        }
    }
}

// Where a unit stands in the array that the words ask for, and the path of its disk.
pub(crate) fn place_of<'a>(options: &Options<'a>, unit: u8) -> (Place, &'a str)
    requires few { length options.now.paths.items ≤ MAX_UNITS }
    requires there { unit < length options.now.paths.items }
{
    let place = Place {
        unit,
        units: options.paths.len() as u8,
        array: options.array,
    };
    (place, options.paths[usize::from(unit)])
}

// Opens the unit at this place over the file of this name, and locks it.
fn open_unit<R: Files<File = File> + Clock + Wait + Clone + Drop>(
    rt: &R,
    alloc: Global,
    log: &Log,
    place: Place,
    path: &str,
) -> Result<(FileUnit<R>, [DiskLock; 2], FilePreparer<R, SystemFile>), Fault>
    ensures opening { IfOk result (λ r. IsOpening r.0.control) }
    ensures disk { IfOk result (λ r. r.0.device.file.node ≡ r.2.node) }
{
    let mut disk = open_blocks(rt, alloc, log, place.unit, path)?;
    let preparer = open_preparer(rt, alloc, log, place.unit, path, &mut disk.blocks)?;
    let found = open_record(rt, alloc, log, place.unit, path)?;
    laws::nobody_is_attached_at_first();
    let unit = Unit::open(
        alloc,
        place,
        disk.blocks,
        disk.opener,
        found.file,
        found.record,
    )?;
    Ok((unit, [disk.lock, found.lock], preparer))
}

/// Opens the units of the array that the words ask for, in order, each over its file, with the preparer of that file. From then on no
/// other server may have these.
pub fn open<R: Files<File = File> + Clock + Wait + Clone + Drop>(
    rt: &R,
    alloc: Global,
    log: &Log,
    options: &Options<'_>,
) -> Result<FileArray<R>, Fault>
    requires { length options.now.paths.items ≤ MAX_UNITS }
    ensures count { IfOk result (λ array. length array.units.items ≤ MAX_UNITS) }
    ensures disks { IfOk result (λ array.
        map (λ new. new.unit.device.file.node) array.units.items ≡ map (λ preparer. preparer.node) array.preparers.items) }
{
    look_at_units(rt, alloc, log, options)?;
    let mut array = OpenArray::new(alloc);
    for unit in 0..options.paths.len() as u8 {
        let (place, path) = place_of(options, unit);
        let (opened, locks, preparer) = open_unit(rt, alloc, log, place, path)?;
        array.push(alloc, opened, preparer, locks)?;
    }
    Ok(array)
}
