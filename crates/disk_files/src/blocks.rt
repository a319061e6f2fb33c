//! A file as a device of blocks.
ghost use Rattle.std.specs.Prelude.{◌≡◌, ◌⊎◌, ◌<◌, ◌≤◌, ◌+◌, ◌*◌, ◌/◌, ◌^◌, length, min, true, false, None};
ghost use Rattle.std.specs.Prelude.{IfOk, IfErr, IfSome, IsSomeAnd, IsTrue, IsErr, OnOk, OnErr};
ghost use Rattle.std.specs.Arc.{arc_value};
ghost use Rattle.std.proofs.Common.{arith};
ghost use Rattle.std.proofs.Props.{props};
ghost use Rattle.block_file.specs.declared.blocks.TheConstants.{BLOCK_LENGTH};
ghost use Rattle.block_file.specs.Cut.{run_of, IsRun};
ghost use Rattle.block_file.specs.Disk.{written, range_bytes, Between, NoMore, Adds, Only};
ghost use Rattle.block_file.specs.Failures.{Counts, last_count};
ghost use Rattle.disk_files.specs.BackingLaws.{as_many, as_wide, lies_before};
ghost use Rattle.disk_files.specs.Tally.{none, lost, all_failures, IsOpenedAnew};
ghost use Rattle.disk_files.specs.Lasting.{IsSettled};
ghost use Rattle.disk_files.specs.Lengths.{IsLengthFault};
ghost use Rattle.disk_files.specs.System.{is_named};
ghost use Rattle.disk_files.specs.Told.{has_told};
ghost use Rattle.disk_files.specs.Beside.{WereRead};
ghost use Rattle.disk_preparer.specs.Beside.{was_read};

use crate::FileFault;
use crate::backing::BackingFile;
use crate::file_log::FileLog;
use crate::flushes::{Flushes, LastingFile};
use crate::system::SystemFile;
use crate::tally::Tally;
use crate::writes::Writes;
use block_file::{BLOCK_LENGTH, Blocks, DeviceFailed};
use disk_preparer::{BlockMemory, Node, OnDisk};
use events::Call;
use std::alloc::Global;
use std::fs::File;
use std::rt::Files;
use std::sync::{Arc, Mutex};

/// A file as a device of blocks: each run is one read or write at its place, 512 times the number of its first block. A flush is one
/// of the file. It does nothing where a flush beside the device is done, behind whose beginning no write has ended.
///
/// It claims what its file claims, which of a file of the system is nothing. Of every file it says which calls were made of it. Its
/// number of blocks is that of its length when it was opened, also where the file has become longer. Where it has become shorter each
/// write fails, and a read behind its end.
///
/// A flush that failed is not made good by the next one: the system drops what it could not write. So each later flush
/// fails too, also through a handle that was opened anew.
#[derive(Drop)]
pub struct FileBlocks<F: BackingFile> {
    file: F,
    count: u32,
    tally: Tally,
    // How many writes have ended.
    pub(crate) writes: Writes<F>,
    // What its preparer flushes, where it has one.
    flushes: Option<Arc<Flushes<F>, Global>>,
    // What tells of calls that failed.
    file_log: Option<FileLog>,
    ghost fits: { count < 2 ^ 32 },
    ghost some: { 0 < count },
    ghost whole: { IsTrue F.claims → length (F.bytes file) ≡ BLOCK_LENGTH * count },
    ghost alone: { IsTrue F.claims → flushes ≡ None },
    ghost told: { IfSome flushes (λ beside. IsTrue (has_told (arc_value beside) writes.count)) } by { Prim.hlevel props },
}

/// How many blocks a file of so many bytes has.
pub fn blocks_in(bytes: u64) -> Result<u32, FileFault>
    ensures ok { IfOk result (λ count. (BLOCK_LENGTH * count ≡ bytes) × (0 < count)) }
    ensures err { IfErr result (IsLengthFault bytes) }
{
    if bytes % BLOCK_LENGTH as u64 != 0 {
        return Err(FileFault::Length);
    }
    if bytes == 0 {
        return Err(FileFault::Empty);
    }
    match u32::try_from(bytes / BLOCK_LENGTH as u64) {
        Ok(count) => Ok(count),
        Err(_) => Err(FileFault::TooLong),
    }
}

impl<F: BackingFile> FileBlocks<F> {
    /// A file that is open for reading and writing. Its length is where it ends, which a block device has too.
    pub fn of(file: F) -> Result<FileBlocks<F>, FileFault>
        ensures unused { IfOk result (λ d. d.tally ≡ none) }
        ensures file { IfOk result (λ d. d.file ≡ file) }
    {
        let end = match file.end() {
            Ok(end) => end,
            Err(error) => return Err(FileFault::NotOpened(error)),
        };
        let count = match blocks_in(end) {
            Ok(count) => count,
            Err(fault) => return Err(fault),
        };
        Ok(FileBlocks {
            file,
            count,
            tally: Tally::NONE,
            writes: Writes::none(),
            flushes: None,
            file_log: None,
        })
    }

    /// From now on calls that fail are told.
    pub fn tell_by(&mut self, file_log: FileLog)
        ensures { (self.new.file ≡ self.old.file) × (self.new.count ≡ self.old.count)
            × (self.new.tally ≡ self.old.tally) × (self.new.writes ≡ self.old.writes) }
    {
        self.file_log = Some(file_log);
    }

    // Tells that a call failed at so many bytes from this block on, with this error of the system.
    pub(crate) fn tell(&self, call: Call, first: u32, bytes: usize, error: u32) {
        if let Some(file_log) = &self.file_log {
            file_log.tell(call, first, bytes / BLOCK_LENGTH, error);
        }
    }

    // Tells that a call of this kind has gone well.
    pub(crate) fn tell_well(&self, call: Call) {
        if let Some(file_log) = &self.file_log {
            file_log.works(call);
        }
    }

    // Tells that so many bytes from this block on were read.
    fn tell_read(&self, first: u32, bytes: usize) {
        if let Some(file_log) = &self.file_log {
            file_log.has_read(first, bytes / BLOCK_LENGTH);
        }
    }

    // Whether the file still has so many blocks; else the error of the system, 0 where it has become shorter. That it has become
    // longer is told.
    fn still_reaches(&self) -> Result<(), u32> {
        let is_longer = reaches(&self.file, self.count)?;
        if let Some(file_log) = &self.file_log {
            file_log.works(Call::Seek);
            if is_longer {
                file_log.tell_longer();
            }
        }
        Ok(())
    }

    /// Which file the device is over.
    pub fn node(&self) -> Node
        ensures { result ≡ F.node self.now.file }
    {
        self.file.node()
    }

    /// Ends the device and gives the handle.
    pub fn into_file(self) -> F
        ensures { result ≡ self.file }
    {
        self.file
    }

    // Whether memory holds the blocks from this one on, as they were read beside the device when each of its writes had ended. A count at
    // its end says nothing more.
    fn holds_now(&self, first: u32, memory: &BlockMemory) -> bool
        ensures behind { IsTrue result → self.now.writes.count < last_count }
        ensures read { IsTrue result
            → IsTrue (was_read (F.node self.now.file) first self.now.writes.count memory.now.bytes.items) }
    {
        let writes = self.writes.count;
        writes < u64::MAX && memory.holds(self.file.node(), u64::from(first), writes)
    }

    // Whether a flush beside the device has failed.
    fn is_lost_beside(&self) -> bool {
        match &self.flushes {
            Some(flushes) => flushes.is_lost(),
            None => false,
        }
    }

    // A flush has failed: so does each later one, of the device and beside it.
    fn lose(&mut self)
        ensures lost { self.new.tally ≡ lost self.old.tally }
        ensures same { (self.new.file ≡ self.old.file) × (self.new.count ≡ self.old.count) × (self.new.flushes ≡ self.old.flushes)
            × (self.new.writes ≡ self.old.writes) }
    {
        self.tally.is_lost = true;
        if let Some(flushes) = &self.flushes {
            flushes.lose();
        }
    }

    // Makes what was written last, where no flush of the device has failed: nothing is to be done where the preparer did it, and
    // nothing to be told where it has told already.
    fn make_last(&mut self) -> Result<(), DeviceFailed>
        ensures size { self.new.count ≡ self.old.count }
        ensures node { F.node self.new.file ≡ F.node self.old.file }
        ensures flushes { self.new.flushes ≡ self.old.flushes }
        ensures tally { (self.new.tally ≡ self.old.tally) × (self.new.writes ≡ self.old.writes) }
        ensures bytes { IsTrue F.claims → F.bytes self.new.file ≡ F.bytes self.old.file }
        ensures durable { IsTrue F.claims → OnOk result (Only (run_of (F.bytes self.old.file)) (F.may_hold self.new.file)) }
        ensures crash { IsTrue F.claims → NoMore (F.may_hold self.old.file) (F.may_hold self.new.file) }
        ensures lasts { OnOk result (IsSettled (F.lasts (F.node self.old.file)) self.old.writes.count) }
    {
        if self.is_lost_beside() {
            return Err(DeviceFailed);
        }
        if let Some(flushes) = &self.flushes {
            if flushes.covers(self.file.node(), self.writes.count) {
                return Ok(());
            }
        }
        match self.file.flush(self.writes.count) {
            // One that ran beside it may have had its blocks in hand.
            Ok(()) if self.is_lost_beside() => Err(DeviceFailed),
            Ok(()) => {
                self.tell_well(Call::Write);
                Ok(())
            }
            Err(error) => {
                self.tell(Call::Flush, 0, 0, error);
                Err(DeviceFailed)
            }
        }
    }
}

impl<F: LastingFile> FileBlocks<F> {
    /// Takes a handle through which the same file was opened anew, as the other controller's opener does. Of another file, or of one that
    /// has become shorter, the old handle stays. The counts of failures go over, and that a flush failed.
    ///
    /// The system tells an error once by each handle, so the file is flushed before the old one goes. Where that fails, a flush failed.
    pub fn renew(&mut self, file: F) -> Result<(), DeviceFailed>
        ensures ok { OnOk result (IsOpenedAnew self.old.tally self.new.tally) }
        ensures flushed { OnOk result ((self.new.tally.is_lost ≡ true)
            ⊎ IsSettled (F.lasts (F.node self.old.file)) self.old.writes.count) }
        ensures size { self.new.count ≡ self.old.count }
        ensures file { OnOk result (self.new.file ≡ file) }
        ensures node { F.node self.new.file ≡ F.node self.old.file }
        ensures flushes { self.new.flushes ≡ self.old.flushes }
        ensures written { self.new.writes ≡ self.old.writes }
        ensures err { OnErr result (self.new ≡ self.old) }
    {
        if !file.node().is(self.file.node()) {
            self.tell(Call::Open, 0, 0, 0);
            return Err(DeviceFailed);
        }
        if let Err(error) = reaches(&file, self.count) {
            self.tell(Call::Seek, 0, 0, error);
            return Err(DeviceFailed);
        }
        if self.tally.is_lost || self.make_last().is_err() {
            self.lose();
        }
        self.file = file;
        self.tally.opened = self.tally.opened.saturating_add(1);
        self.tell_well(Call::Open);
        self.tell_well(Call::Seek);
        Ok(())
    }

    /// From now on a preparer flushes the file too, by these handles: its share of what both tell each other. None where there was no
    /// memory for it.
    pub fn share(
        &mut self,
        alloc: Global,
        handles: Vec<Mutex<F>>,
    ) -> Option<Arc<Flushes<F>, Global>>
        ensures same { (self.new.file ≡ self.old.file) × (self.new.count ≡ self.old.count)
            × (self.new.tally ≡ self.old.tally) × (self.new.writes ≡ self.old.writes) }
        ensures shared { IfSome result (λ share. IsSomeAnd self.new.flushes (λ mine. arc_value mine ≡ arc_value share)) }
    {
        let Ok(flushes) = Arc::new(alloc, Flushes::new(handles)) else {
            return None;
        };
        let Ok(share) = Arc::try_clone(&flushes) else {
            return None;
        };
        flushes.tell(self.writes.count);
        self.flushes = Some(flushes);
        Some(share)
    }
}

impl FileBlocks<SystemFile> {
    /// Opens a file for reading and writing, as long as it is.
    pub fn open<R: Files<File = File>>(
        rt: &R,
        path: &str,
    ) -> Result<FileBlocks<SystemFile>, FileFault>
        ensures none { IfOk result (λ d. d.tally ≡ none) }
        ensures named { OnOk result (is_named path.now) }
    {
        match SystemFile::open(rt, path) {
            Ok(file) => FileBlocks::of(file),
            Err(fault) => Err(fault),
        }
    }
}

// Whether a file that still has so many blocks has become longer; else the error of the system, 0 where it has become shorter.
fn reaches<F: BackingFile>(file: &F, count: u32) -> Result<bool, u32> {
    match file.end() {
        Ok(end) if end >= at(count) => Ok(end != at(count)),
        Ok(_) => Err(0),
        Err(error) => Err(error),
    }
}

impl<F: BackingFile> Blocks for FileBlocks<F> {
    ghost claims = { F.claims };

    ghost claims_moments = { false };

    ghost size = { λ d. d.count };

    ghost contents = { λ d. run_of (F.bytes d.file) };

    ghost may_hold = { λ d. F.may_hold d.file };

    ghost moment = { λ d. 0 };

    ghost left_since = { λ d t disk. Unit {0} };

    ghost reads_failed = { λ d. min d.tally.failed_reads last_count };

    ghost writes_failed = { λ d. min d.tally.failed_writes last_count };

    ghost failures = { λ d. all_failures d.tally };

    ghost fits = { λ d. d.fits };

    ghost summed = { λ d. Prim.omega arith };

    ghost bounded = { λ d. Prim.omega arith };

    ghost sized = { λ d h. as_many d.count (F.bytes d.file) (d.whole h) };

    ghost wide = { λ d k h. as_wide d.count (F.bytes d.file) (d.whole h) k };

    ghost is_outcome = { λ d k h lt. F.is_outcome d.file k h (lies_before d.count (F.bytes d.file) (d.whole h) k lt) };

    ghost counts_now = { λ d t disk h. Prim.cc };

    ghost only_now = { λ d disk h. Prim.cc };

    fn count(&self) -> u32 {
        self.count
    }

    fn read_run(&mut self, first: u32, bytes: &mut [u8]) -> Result<(), DeviceFailed>
        requires { IsRun self.old.count first (length bytes.old) }
        ensures size { self.new.count ≡ self.old.count }
        ensures file { self.new.file ≡ self.old.file }
        ensures flushes { self.new.flushes ≡ self.old.flushes }
        ensures said { OnOk result (F.has_read (F.node self.old.file) (BLOCK_LENGTH * first) bytes.new) }
        ensures read { IsTrue F.claims → OnOk result
            (bytes.new ≡ range_bytes (run_of (F.bytes self.old.file)) first (length bytes.old / BLOCK_LENGTH)) }
        ensures failures { Counts (all_failures self.old.tally) (all_failures self.new.tally) result }
        ensures failed_reads { Counts (min self.old.tally.failed_reads last_count) (min self.new.tally.failed_reads last_count)
            result }
        ensures failed_writes { self.new.tally.failed_writes ≡ self.old.tally.failed_writes }
        ensures lost { self.new.tally.is_lost ≡ self.old.tally.is_lost }
        ensures written { self.new.writes.count ≡ self.old.writes.count }
    {
        match self.file.read_at(bytes, at(first)) {
            Ok(()) => {
                self.tell_read(first, bytes.len());
                Ok(())
            }
            Err(error) => {
                self.tell(Call::Read, first, bytes.len(), error);
                failed(&mut self.tally.failed_reads)
            }
        }
    }

    // What was read beside the device is what a read of its own would give, where all of its writes had ended before.
    fn read_into(&mut self, first: u32, memory: BlockMemory) -> Result<Vec<u8>, DeviceFailed>
        requires { IsRun self.old.count first (length memory.bytes.items) }
        ensures size { self.new.count ≡ self.old.count }
        ensures file { self.new.file ≡ self.old.file }
        ensures flushes { self.new.flushes ≡ self.old.flushes }
        ensures many { IfOk result (λ blocks. length blocks.items ≡ length memory.bytes.items) }
        ensures said { IfOk result (λ blocks.
            WereRead F.has_read (F.node self.old.file) first self.new.writes.count blocks.items) }
        ensures read { IsTrue F.claims → IfOk result (λ blocks. blocks.items
            ≡ range_bytes (run_of (F.bytes self.old.file)) first (length memory.bytes.items / BLOCK_LENGTH)) }
        ensures failures { Counts (all_failures self.old.tally) (all_failures self.new.tally) result }
        ensures failed_reads { Counts (min self.old.tally.failed_reads last_count) (min self.new.tally.failed_reads last_count)
            result }
        ensures failed_writes { self.new.tally.failed_writes ≡ self.old.tally.failed_writes }
        ensures lost { self.new.tally.is_lost ≡ self.old.tally.is_lost }
        ensures written { self.new.writes.count ≡ self.old.writes.count }
    {
        if self.flushes.is_some() && self.holds_now(first, &memory) {
            self.tell_read(first, memory.bytes.len());
            return Ok(memory.bytes);
        }
        let mut bytes = memory.bytes;
        self.read_run(first, bytes.as_mut_slice())?;
        Ok(bytes)
    }

    fn write_run(&mut self, first: u32, bytes: &[u8]) -> Result<(), DeviceFailed>
        requires { IsRun self.old.count first (length bytes.now) }
        ensures size { self.new.count ≡ self.old.count }
        ensures node { F.node self.new.file ≡ F.node self.old.file }
        ensures flushes { self.new.flushes ≡ self.old.flushes }
        ensures said { OnOk result (F.has_written (F.node self.old.file) (BLOCK_LENGTH * first) bytes.now) }
        ensures done { IsTrue F.claims → OnOk result
            (run_of (F.bytes self.new.file) ≡ written (run_of (F.bytes self.old.file)) first (run_of bytes.now)) }
        ensures torn { IsTrue F.claims
            → Between (run_of (F.bytes self.old.file)) first (run_of bytes.now) (run_of (F.bytes self.new.file)) }
        ensures crash { IsTrue F.claims
            → Adds first (run_of bytes.now) (F.may_hold self.old.file) (F.may_hold self.new.file) }
        ensures failures { Counts (all_failures self.old.tally) (all_failures self.new.tally) result }
        ensures failed_reads { self.new.tally.failed_reads ≡ self.old.tally.failed_reads }
        ensures failed_writes { Counts (min self.old.tally.failed_writes last_count) (min self.new.tally.failed_writes last_count)
            result }
        ensures lost { self.new.tally.is_lost ≡ self.old.tally.is_lost }
        // It has ended, well or not; or the file was not asked for it.
        ensures written { (self.new.writes.count ≡ min (self.old.writes.count + 1) last_count)
            ⊎ ((self.new.writes.count ≡ self.old.writes.count) × (self.new.file ≡ self.old.file)) }
        ensures counted { OnOk result (self.new.writes.count ≡ min (self.old.writes.count + 1) last_count) }
        ensures rises { self.old.writes.count ≤ self.new.writes.count }
    {
        // A write behind the end would make the file longer, with zeros in place of what was there.
        if let Err(error) = self.still_reaches() {
            self.tell(Call::Seek, first, bytes.len(), error);
            return failed(&mut self.tally.failed_writes);
        }
        let end = self.file.write_at(bytes, at(first), self.writes.count);
        self.writes = one_more(self.writes.count, &self.flushes);
        match end {
            Ok(()) => Ok(()),
            Err(error) => {
                self.tell(Call::Write, first, bytes.len(), error);
                failed(&mut self.tally.failed_writes)
            }
        }
    }

    fn flush(&mut self) -> Result<(), DeviceFailed>
        ensures size { self.new.count ≡ self.old.count }
        ensures node { F.node self.new.file ≡ F.node self.old.file }
        ensures flushes { self.new.flushes ≡ self.old.flushes }
        ensures bytes { IsTrue F.claims → F.bytes self.new.file ≡ F.bytes self.old.file }
        ensures durable { IsTrue F.claims → OnOk result (Only (run_of (F.bytes self.old.file)) (F.may_hold self.new.file)) }
        ensures crash { IsTrue F.claims → NoMore (F.may_hold self.old.file) (F.may_hold self.new.file) }
        ensures failures { Counts (all_failures self.old.tally) (all_failures self.new.tally) result }
        ensures failed_reads { self.new.tally.failed_reads ≡ self.old.tally.failed_reads }
        ensures failed_writes { Counts (min self.old.tally.failed_writes last_count) (min self.new.tally.failed_writes last_count)
            result }
        ensures lost { OnOk result (self.old.tally.is_lost ≡ false) }
        ensures loses { OnErr result (self.new.tally.is_lost ≡ true) }
        ensures written { self.new.writes.count ≡ self.old.writes.count }
        ensures lasts { OnOk result (IsSettled (F.lasts (F.node self.old.file)) self.old.writes.count) }
    {
        if !self.tally.is_lost && self.make_last().is_ok() {
            return Ok(());
        }
        self.lose();
        failed(&mut self.tally.failed_writes)
    }
}

impl<F: BackingFile> OnDisk for FileBlocks<F> {
    ghost disk = { λ d. F.node d.file };
}

// The place of a block in its file.
fn at(first: u32) -> u64
    ensures { result ≡ BLOCK_LENGTH * first }
{
    BLOCK_LENGTH as u64 * u64::from(first)
}

// How many writes have ended behind one more, well or not.
fn one_more<F: BackingFile>(written: u64, flushes: &Option<Arc<Flushes<F>, Global>>) -> Writes<F>
    requires { IsTrue (F.ended (min (written + 1) last_count)) }
    ensures count { result.count ≡ min (written + 1) last_count }
    ensures told { IfSome flushes.now (λ beside. IsTrue (has_told (arc_value beside) result.count)) }
{
    let written = written.saturating_add(1);
    if let Some(flushes) = flushes {
        flushes.tell(written);
    }
    Writes::of(written)
}

// Counts a call that failed.
fn failed(count: &mut u64) -> Result<(), DeviceFailed>
    ensures err { IsErr result }
    ensures count { count.new ≡ min (count.old + 1) last_count }
{
    *count = count.saturating_add(1);
    Err(DeviceFailed)
}
