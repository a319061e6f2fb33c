//! A file made ready for the calls of its device.
ghost use Rattle.std.specs.Prelude.{◌≡◌, ◌*◌, true, length, IfSome, IsSomeAnd};
ghost use Rattle.std.proofs.Props.{props};
ghost use Rattle.std.specs.Arc.{arc_value};
ghost use Rattle.block_file.specs.declared.blocks.TheConstants.{BLOCK_LENGTH};
ghost use Rattle.disk_files.specs.System.{has_read};
ghost use Rattle.disk_files.specs.Told.{HasFlushed, were_told};

use crate::backlog::{Backlog, FlushEnd};
use crate::kernel_limits::{KERNEL_FILES, KernelLimits};
use block_file::BLOCK_LENGTH;
use disk_files::{BackingFile, FileBlocks, FileLog, FlushFault, Flushes, LastingFile, SystemFile};
use disk_preparer::{Account, Beside, BlockMemory, Node, PAGE_BLOCKS, Preparer};
use events::Call;
use libc::{POSIX_FADV_WILLNEED, posix_fadvise};
use meters::UnflushedTally;
use std::alloc::Global;
use std::fs::File;
use std::os::fd::AsRawFd;
use std::os::unix::fs::FileExt;
use std::rt::Files;
use std::sync::atomic::{AtomicU64, Ordering};
use std::sync::{Arc, Mutex, Wait};
use std::thread;
use std::time::{Clock, Duration};

/// So many bytes are read at a time and thrown away: of a disk that counts as fast, which has no more looked at; of a run that has no
/// more; and of one that has.
const LEAST: usize = 512;

const FEW: usize = 4096;

const MOST: usize = 16384;

/// A read that takes so many microseconds came from the disk, and not from the memory of the system; one of many bytes may take
/// one more for each so many of them.
const SLOW_READ: u64 = 25;

const FOR_BYTES: usize = 4096;

/// So many slow reads in a row, of those that are looked at, make a disk count as slow.
const IN_A_ROW: u64 = 3;

/// It then counts as slow for so many reads.
const LATELY: u64 = 8192;

/// So many flushes of a file run at a time, each by a handle of its own. Sessions that want one while these run wait, and share the
/// next.
const AT_A_TIME: usize = 4;

/// Each slow read among them makes it so many more, up to as many again: so a disk counts as fast of which fewer are slow, as
/// where a thread was kept from its processor.
const MORE: u64 = 64;

/// Of so many commands of a session one is looked at while the disk counts as fast. It is a prime number, so that no pattern of
/// reads and writes hides the reads.
const LOOKED_AT: u64 = 61;

/// Who waits for a flush to be due looks after so many milliseconds how much may be unflushed; and who waits for room, whether there is
/// some, so often at most.
const NOW_AND_THEN: u64 = 1000;

const A_WHILE: u64 = 5;

const WHILES: u32 = 4096;

/// Who waits for room while a flush runs for which somebody has waited in vain waits for such a part of that: what its session asks
/// behind it, as whether its path is alive, waits with it.
const SHORTER: u64 = 40;

/// A wait of so many microseconds is counted.
const WAITED: u64 = 500;

/// A file as its preparer has it: through handles of its own, so that it waits beside the device.
///
/// While the disk counts as fast, as where the system has the file in memory, it only looks now and then whether a read takes time.
pub struct FilePreparer<R: Clock + Wait + Drop, F: LastingFile> {
    rt: R,
    // Which file it is of.
    node: Node,
    // None where there was no handle for it: then nothing is prepared.
    file: Option<SystemFile>,
    // What tells of its flushes that failed.
    file_log: Option<FileLog>,
    // Its flushes; none where it makes none.
    flushes: Option<Arc<Flushes<F>, Global>>,
    // For how many reads more the disk counts as slow; below IN_A_ROW how many slow ones in a row were looked at.
    slow: AtomicU64,
    // The serial of the WRITE that came last, of whatever session.
    last: AtomicU64,
    // What was written and is not flushed, and how much the kernel lets be; and what was flushed when somebody waited in vain for more.
    backlog: Backlog,
    limits: KernelLimits,
    in_vain: AtomicU64,
    ghost own: { IfSome file (λ f. f.node ≡ node) } by { Prim.hlevel props },
}

impl<R: Clock + Wait + Drop, F: LastingFile + Drop> Drop for FilePreparer<R, F> {
    fn drop(self) {
        let Self {
            rt: _,
            node: _,
            file: _,
            file_log: _,
            flushes: _,
            slow: _,
            last: _,
            backlog: _,
            limits: _,
            in_vain: _,
        } = self;
    }
}

impl<R: Clock + Wait + Files<File = File> + Drop> FilePreparer<R, SystemFile> {
    /// The preparer of a device, whose file has this name. Where the name is another file's by now, or has none, it does nothing;
    /// where there is no memory, or no handle more, it makes no flush.
    pub fn open(
        rt: R,
        alloc: Global,
        path: &str,
        blocks: &mut FileBlocks<SystemFile>,
        file_log: Option<FileLog>,
    ) -> FilePreparer<R, SystemFile>
        ensures same { (blocks.new.file ≡ blocks.old.file) × (blocks.new.count ≡ blocks.old.count)
            × (blocks.new.tally ≡ blocks.old.tally) × (blocks.new.writes ≡ blocks.old.writes) }
        ensures node { result.node ≡ blocks.old.file.node }
        ensures shared { IfSome result.flushes (λ share. IsSomeAnd blocks.new.flushes (λ theirs. arc_value theirs ≡ arc_value share)) }
    {
        let node = blocks.node();
        let file = again(&rt, path, node);
        let flushes = shared(alloc, &rt, path, blocks);
        let limits = KernelLimits::new(&rt, &KERNEL_FILES, 0);
        let backlog = Backlog::new(limits.free(&rt, &KERNEL_FILES, 0));
        FilePreparer {
            rt,
            node,
            file,
            file_log,
            flushes,
            slow: AtomicU64::new(0),
            last: AtomicU64::new(0),
            backlog,
            limits,
            in_vain: AtomicU64::new(u64::MAX),
        }
    }
}

// A handle more on this file, which has this name, unless the name is another's by now.
fn again<R: Files<File = File>>(rt: &R, path: &str, node: Node) -> Option<SystemFile>
    ensures { IfSome result (λ file. file.node ≡ node) }
{
    match SystemFile::open(rt, path) {
        Ok(again) if again.node().is(node) => Some(again),
        _ => None,
    }
}

// Handles for flushes, as many as there are.
fn handles<R: Files<File = File>>(
    alloc: Global,
    rt: &R,
    path: &str,
    node: Node,
) -> Vec<Mutex<SystemFile>> {
    let mut handles = Vec::new(alloc);
    for _ in 0..AT_A_TIME {
        if let Some(handle) = again(rt, path, node) {
            let _ = handles.push(Mutex::new(handle));
        }
    }
    handles
}

// The flushes of a device's preparer, which the device has from now on.
fn shared<R: Files<File = File>>(
    alloc: Global,
    rt: &R,
    path: &str,
    blocks: &mut FileBlocks<SystemFile>,
) -> Option<Arc<Flushes<SystemFile>, Global>>
    ensures same { (blocks.new.file ≡ blocks.old.file) × (blocks.new.count ≡ blocks.old.count)
        × (blocks.new.tally ≡ blocks.old.tally) × (blocks.new.writes ≡ blocks.old.writes) }
    ensures shared { IfSome result (λ share. IsSomeAnd blocks.new.flushes (λ theirs. arc_value theirs ≡ arc_value share)) }
{
    let handles = handles(alloc, rt, path, blocks.node());
    if handles.is_empty() {
        return None;
    }
    blocks.share(alloc, handles)
}

impl<R: Clock + Wait + Drop, F: LastingFile> FilePreparer<R, F> {
    // Whether the disk has been slow of late.
    fn is_slow(&self) -> bool {
        self.slow.load(Ordering::Relaxed) >= IN_A_ROW
    }

    // A read was looked at.
    fn count(&self, is_slow: bool) {
        let slow = self.slow.load(Ordering::Relaxed);
        let next = if slow >= IN_A_ROW {
            match is_slow {
                true => slow.saturating_add(MORE).min(LATELY),
                false => slow.saturating_sub(1),
            }
        } else {
            match is_slow {
                true if slow + 1 == IN_A_ROW => LATELY,
                true => slow + 1,
                false => 0,
            }
        };
        if next != slow {
            self.slow.store(next, Ordering::Relaxed);
        }
    }

    // How many writes have failed.
    fn failed_writes(&self) -> u64 {
        match &self.file_log {
            Some(file_log) => file_log.failed_writes(),
            None => 0,
        }
    }

    // Tells that a flush which began when so many writes had failed has gone well.
    fn tell_flushed(&self, failed_writes: u64) {
        if let Some(file_log) = &self.file_log {
            file_log.flushed(failed_writes);
        }
    }

    // Tells that a flush failed, once.
    fn tell(&self, fault: FlushFault) {
        if let (Some(file_log), FlushFault::Failed(error)) = (&self.file_log, fault) {
            file_log.tell(Call::Flush, 0, 0, error);
        }
    }

    // What is counted of what is not flushed, where it is counted.
    fn tally(&self) -> Option<&UnflushedTally> {
        self.file_log.as_ref()?.unflushed()
    }

    // Shows what is not flushed now.
    fn show(&self) {
        if let Some(tally) = self.tally() {
            tally.stand(self.backlog.unflushed(), self.backlog.bound());
        }
    }

    // The time of the clock that never goes back, in microseconds; none where it cannot be read.
    fn micros(&self) -> Option<u64> {
        u64::try_from(self.rt.monotonic().ok()?.as_micros()).ok()
    }

    // For how many microseconds of this time a session waits: for a part of them, where somebody has waited for this flush in vain.
    fn patience_now(&self, patience: Duration) -> u64 {
        let patience = u64::try_from(patience.as_micros()).unwrap_or(u64::MAX);
        if self.in_vain.load(Ordering::Relaxed) == self.backlog.flushed() {
            patience / SHORTER
        } else {
            patience
        }
    }

    // Waits for room for what a session writes, until this time at most, and not where nothing is flushed any more.
    fn await_room(&self, flushes: &Flushes<F>, is_heavy: bool, end: u64) {
        for _ in 0..WHILES {
            if self.backlog.has_room(is_heavy) || flushes.is_lost() {
                return;
            }
            match self.micros() {
                Some(now) if now < end => thread::sleep(&self.rt, Duration::from_millis(A_WHILE)),
                _ => {
                    let flushed = self.backlog.flushed();
                    self.in_vain.store(flushed, Ordering::Relaxed);
                    return;
                }
            }
        }
    }

    // Has a session wait before a write of so many bytes: for its turn, where it has its share of what is not flushed, and for room.
    fn pace(&self, flushes: &Flushes<F>, bytes: u64, account: &mut Account, patience: Duration) {
        let Some(begun) = self.micros() else {
            return;
        };
        let is_heavy = self.backlog.is_heavy(account);
        let patience = self.patience_now(patience);
        if is_heavy {
            let turn = self.backlog.turn(bytes, account, begun).min(patience);
            if turn > 0 {
                thread::sleep(&self.rt, Duration::from_micros(turn));
            }
        }
        self.await_room(flushes, is_heavy, begun.saturating_add(patience));
        let waited = self.micros().unwrap_or(begun).saturating_sub(begun);
        if waited >= WAITED
            && let Some(tally) = self.tally()
        {
            tally.wait(waited);
        }
        self.show();
    }

    // A read of so many bytes began then, and is done.
    fn took(&self, begun: Duration, length: usize) {
        let Ok(ended) = self.rt.monotonic() else {
            return;
        };
        let slow = SLOW_READ + (length / FOR_BYTES) as u64;
        self.count(ended.saturating_sub(begun) >= Duration::from_micros(slow));
    }

    // Reads some bytes of the file, and looks how long that takes.
    fn measure_read(&self, file: &File, at: u64, length: usize) {
        if let Ok(begun) = self.rt.monotonic() {
            read_away(file, at, length);
            self.took(begun, length);
        }
    }

    // Waits until the disk has so many bytes from this block on; of a disk that counts as fast it looks at the first ones.
    fn fetch_bytes(&self, first: u64, length: usize) {
        if let (Some(file), Some(at)) = (&self.file, first.checked_mul(BLOCK_LENGTH as u64)) {
            let length = if self.is_slow() {
                length
            } else {
                length.min(LEAST)
            };
            self.measure_read(file.handle(), at, length);
        }
    }

    // Reads blocks of the file, side by side where the disk counts as slow; where that cannot be done the memory holds nothing.
    fn read_now(&self, flushes: &Flushes<F>, first: u64, bytes: Vec<u8>) -> BlockMemory
        ensures { length result.bytes.items ≡ length bytes.items }
    {
        let (Some(file), Some(at)) = (&self.file, first.checked_mul(BLOCK_LENGTH as u64)) else {
            return BlockMemory::fresh(bytes);
        };
        if self.is_slow() {
            ask(file.handle(), at, bytes.len());
        }
        let (disk, writes) = (self.node, flushes.look(self.node));
        let beside = Beside {
            disk,
            first,
            writes,
        };
        read_behind(file, at, beside, bytes)
    }
}

// Asks the system for a part of a file.
fn ask(file: &File, at: u64, length: usize) {
    if let (Ok(at), Ok(length)) = (i64::try_from(at), i64::try_from(length as u64)) {
        let _ = posix_fadvise(file.as_raw_fd(), at, length, POSIX_FADV_WILLNEED);
    }
}

// Reads a part of a file, by as many bytes at a time as there is room for, until one read fails.
fn read_by(room: &mut [u8], file: &File, at: u64, length: usize) {
    for turn in 0..length / LEAST + 1 {
        let done = room.len().saturating_mul(turn);
        let piece = length.saturating_sub(done).min(room.len());
        let place = at.saturating_add(done as u64);
        if piece == 0 || file.read_exact_at(&mut room[..piece], place).is_err() {
            return;
        }
    }
}

// Reads a part of a file, of which the system fetches all pages side by side.
fn read_side_by_side(file: &File, at: u64, length: usize) {
    ask(file, at, length);
    read_by(&mut [0; MOST], file, at, length);
}

// Reads a part of a file away.
fn read_away(file: &File, at: u64, length: usize) {
    if length > FEW {
        read_side_by_side(file, at, length);
    } else if length > LEAST {
        read_by(&mut [0; FEW], file, at, length);
    } else {
        read_by(&mut [0; LEAST], file, at, length);
    }
}

// Reads a block of a file away, where there is one.
fn read_block(file: &File, block: Option<u64>) {
    if let Some((at, length)) = block.and_then(|first| place_of(first, 1)) {
        read_away(file, at, length);
    }
}

// Where a run of blocks lies in a file: its place and its length.
fn place_of(first: u64, blocks: u16) -> Option<(u64, usize)> {
    let at = first.checked_mul(BLOCK_LENGTH as u64)?;
    Some((at, BLOCK_LENGTH * usize::from(blocks)))
}

// The first block of a run and its last one, where they lie in pages of which the run has only a part; one of them, where it is one page.
fn edges_of(first: u64, blocks: u16) -> (Option<u64>, Option<u64>) {
    let behind = first.saturating_add(u64::from(blocks));
    let last = behind.saturating_sub(1);
    let head = if blocks > 0 && first % PAGE_BLOCKS != 0 {
        Some(first)
    } else {
        None
    };
    let is_page_of_head = head.is_some() && first / PAGE_BLOCKS == last / PAGE_BLOCKS;
    let tail = if blocks > 0 && behind % PAGE_BLOCKS != 0 && !is_page_of_head {
        Some(last)
    } else {
        None
    };
    (head, tail)
}

// What was read of a file, behind a look at how many writes its device had told.
#[tactic(auto, using(disk_preparer::specs::Beside::a_read_beside_says))]
fn read_beside(bytes: Vec<u8>, beside: Beside) -> BlockMemory
    requires told { were_told beside.disk beside.writes }
    requires read { has_read beside.disk (BLOCK_LENGTH * beside.first) bytes.items }
    ensures { result.bytes ≡ bytes }
{
    BlockMemory::read(bytes, beside)
}

// Reads blocks from this offset on, behind such a look; where that fails the memory holds nothing.
fn read_behind(file: &SystemFile, at: u64, beside: Beside, bytes: Vec<u8>) -> BlockMemory
    requires file { file.now.node ≡ beside.disk }
    requires place { at ≡ BLOCK_LENGTH * beside.first }
    requires told { were_told beside.disk beside.writes }
    ensures { length result.bytes.items ≡ length bytes.items }
{
    let mut bytes = bytes;
    match file.read_at(bytes.as_mut_slice(), at) {
        Ok(()) => read_beside(bytes, beside),
        Err(_) => BlockMemory::fresh(bytes),
    }
}

impl<R: Clock + Wait + Files<File = File> + Drop, F: LastingFile> Preparer for FilePreparer<R, F> {
    ghost may_flush = { true };

    ghost disk = { λ p. p.node };

    ghost has_flushed = { λ disk. HasFlushed disk (F.lasts disk) };

    fn wants_hints(&self) -> bool {
        self.is_slow()
    }

    fn advise(&self, first: u64, blocks: u16) {
        if !self.is_slow() {
            return;
        }
        if let (Some(file), Some((at, length))) = (&self.file, place_of(first, blocks)) {
            ask(file.handle(), at, length);
        }
    }

    fn advise_edges(&self, first: u64, blocks: u16) {
        let (head, tail) = edges_of(first, blocks);
        if let Some(head) = head {
            self.advise(head, 1);
        }
        if let Some(tail) = tail {
            self.advise(tail, 1);
        }
    }

    fn wants(&self, serial: u64) -> bool {
        self.is_slow() || serial % LOOKED_AT == 0
    }

    // A session that is alone has serials one behind the other.
    fn touch(&self, serial: u64, first: u64, blocks: u16) {
        let before = self.last.swap(serial, Ordering::Relaxed);
        if before.wrapping_add(1) == serial || u64::from(blocks) > PAGE_BLOCKS {
            return;
        }
        if let (Some(file), Some((at, length))) = (&self.file, place_of(first, blocks)) {
            read_away(file.handle(), at, length);
        }
    }

    fn fetch(&self, first: u64, blocks: u16) {
        self.fetch_bytes(first, BLOCK_LENGTH * usize::from(blocks));
    }

    // Both pages together are one look: the one that is asked for last came beside the other one.
    fn fetch_edges(&self, first: u64, blocks: u16) {
        let edges = edges_of(first, blocks);
        if edges == (None, None) {
            return;
        }
        if let (Some(file), Ok(begun)) = (&self.file, self.rt.monotonic()) {
            for edge in [edges.0, edges.1] {
                read_block(file.handle(), edge);
            }
            self.took(begun, BLOCK_LENGTH);
        }
    }

    // Without flushes it has nobody to ask how many writes have ended, so it only fetches.
    fn read(&self, first: u64, bytes: Vec<u8>, is_looked_at: bool) -> Option<BlockMemory> {
        let Some(flushes) = &self.flushes else {
            if is_looked_at {
                self.fetch_bytes(first, bytes.len());
            }
            return Some(BlockMemory::fresh(bytes));
        };
        let length = bytes.len();
        let begun = if is_looked_at {
            self.rt.monotonic().ok()
        } else {
            None
        };
        let memory = self.read_now(flushes, first, bytes);
        if let Some(begun) = begun {
            self.took(begun, length);
        }
        Some(memory)
    }

    fn flushes(&self) -> bool {
        self.flushes.is_some()
    }

    fn flush(&self) -> bool {
        let Some(flushes) = &self.flushes else {
            return false;
        };
        let failed_writes = self.failed_writes();
        let made = flushes.made();
        let begun = self.backlog.begin(self.micros().unwrap_or(0));
        let end = flushes.flush(&self.rt, self.node);
        let came_to = match &end {
            Ok(()) if flushes.made() == made => FlushEnd::Needless,
            Ok(()) => FlushEnd::Made,
            Err(_) => FlushEnd::Failed,
        };
        self.backlog.end(begun, self.micros().unwrap_or(0), came_to);
        self.show();
        match end {
            Ok(()) => {
                self.tell_flushed(failed_writes);
                true
            }
            Err(fault) => {
                self.tell(fault);
                false
            }
        }
    }

    fn let_in(&self, bytes: u64, account: &mut Account, patience: Duration) {
        let Some(flushes) = &self.flushes else {
            return;
        };
        if self.backlog.enter(bytes, account) && !flushes.is_lost() {
            self.pace(flushes, bytes, account, patience);
        }
    }

    fn await_flush(&self, among: u64) -> bool {
        let Some(flushes) = &self.flushes else {
            return false;
        };
        for _ in self.rt.forever() {
            let now = self.micros().unwrap_or(0);
            let free = self.limits.free(&self.rt, &KERNEL_FILES, now);
            self.backlog.bind(free, among);
            self.show();
            let is_due = self
                .backlog
                .await_due(&self.rt, Duration::from_millis(NOW_AND_THEN));
            if self.backlog.is_closed() {
                return false;
            }
            if is_due && !flushes.is_lost() {
                if let Some(tally) = self.tally() {
                    tally.flush();
                }
                return true;
            }
        }
        unreachable!()
    }

    fn close(&self) {
        self.backlog.close();
    }
}
