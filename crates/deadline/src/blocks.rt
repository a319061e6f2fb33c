//! A device whose calls have a deadline.
ghost use Rattle.std.specs.Prelude.{◌≡◌, ◌<◌, ◌≤◌, ◌+◌, ◌^◌, true, [], false, min, length, List, ℕ, Some};
ghost use Rattle.std.specs.Prelude.{IfOk, IfSome, IsTrue, OnOk, OnErr};
ghost use Rattle.std.specs.Arc.{arc_value};
ghost use Rattle.std.proofs.Common.{arith};
ghost use Rattle.block_file.specs.Cut.{IsRun};
ghost use Rattle.block_file.specs.Failures.{last_count};
ghost use Rattle.deadline.specs.Counted.{CountsRead, CountsWrite};
ghost use Rattle.deadline.specs.Answers.{calls, HasAnswered, HasFlushed, HasOpened, HasRead, HasWritten, WereGiven};

use crate::request::{DeviceRunner, Request, Wanted};
use block_file::{BLOCK_LENGTH, Blocks, DeviceFailed, Opener};
use disk_files::FileDevice;
use disk_preparer::{BlockMemory, Node, OnDisk};
use std::alloc::Global;
use std::io;
use std::sync::{Arc, Mutex, Wait};
use std::thread::Threads;
use std::time::Clock;
use timed_calls::{Asker, Turn, Watch};

/// A device whose calls its thread makes. One that does not come back in time has failed, and so does each later one until it has.
///
/// What is answered is what the device answered, or that it failed: which calls were made of its file it says as the device does. Of its
/// contents nothing is claimed: a write that has failed for time may land at any moment until it comes back, and no read is answered
/// before.
pub struct Deadlined<R: Wait + Clock + Drop, B: FileDevice, O: Opener<B>> {
    rt: R,
    asker: Mutex<Asker<R, Request<B, O>>>,
    count: u32,
    // Which file the device is over.
    node: Node,
    pub(crate) opened: u64,
    failed_reads: u64,
    failed_writes: u64,
    // How many writes have come back, or are waited for no more; and how many calls came back that were not.
    writes: u64,
    // How many of its writes the device has told as ended, with the last one that was done.
    ended: u64,
    ghost fits: { count < 2 ^ 32 },
    ghost some: { 0 < count },
}

impl<R: Wait + Clock + Drop, B: FileDevice, O: Opener<B>> Drop for Deadlined<R, B, O> {
    fn drop(self) {
        let Self {
            rt: _,
            asker: _,
            count: _,
            node: _,
            opened: _,
            failed_reads: _,
            failed_writes: _,
            writes: _,
            ended: _,
        } = self;
    }
}

impl<
    R: Threads + Wait + Clock + Clone + Drop + Send + 'static,
    B: FileDevice + Send + 'static,
    O: Opener<B> + Send + 'static,
> Deadlined<R, B, O> {
    /// Hands a device, which is over this file, and what opens it anew, to a thread of its own.
    pub fn start(
        rt: &R,
        alloc: Global,
        blocks: B,
        opener: O,
        node: Node,
        watch: &Arc<Watch, Global>,
    ) -> io::Result<Deadlined<R, B, O>>
        requires some { 0 < B.size blocks }
        requires disk { node ≡ B.OnDisk.disk blocks }
        requires watched { (arc_value watch.now).node ≡ node }
        ensures disk { IfOk result (λ d. d.node ≡ node) }
        ensures unused { IfOk result (λ d. (d.count ≡ B.size blocks) × (d.opened ≡ 0) × (d.failed_reads ≡ 0) × (d.failed_writes ≡ 0)
            × (d.ended ≡ 0)) }
    {
        let count = blocks.count();
        let request = Request::new(alloc)?;
        let served = DeviceRunner { blocks, opener };
        let asker = Asker::start(rt, alloc, served, request, watch)?;
        Ok(Deadlined {
            rt: rt.clone()?,
            asker: Mutex::new(asker),
            count,
            node,
            opened: 0,
            failed_reads: 0,
            failed_writes: 0,
            writes: 0,
            ended: 0,
        })
    }
}

// Takes the right to ask. Where the call before came late, what it was has landed since: it counts as one more write that came back, so
// that nothing is taken that was read beside the device before.
fn take_by<R: Wait + Clock + Drop, B: FileDevice, O: Opener<B>>(
    asker: &mut Asker<R, Request<B, O>>,
    writes: &mut u64,
) -> Option<(Turn, Request<B, O>)>
    ensures rises { writes.old ≤ writes.new }
    ensures told { IfSome result (λ t. asker.new.is_late ≡ false) }
{
    let taken = asker.take()?;
    if asker.has_come_late() {
        *writes = writes.saturating_add(1);
        asker.watch().wrote(*writes);
    }
    Some(taken)
}

// Reads a run of this file, by the thread of its device.
fn read_by<R: Wait + Clock + Drop, B: FileDevice, O: Opener<B>>(
    asker: &mut Asker<R, Request<B, O>>,
    writes: &mut u64,
    disk: Node,
    first: u32,
    bytes: &mut [u8],
) -> bool
    ensures answered { IsTrue result → HasRead (calls B.Blocks B.OnDisk B.has_read B.has_written B.lasts B.writes B.is_lost O.Opener)
        disk first bytes.new }
    ensures rises { writes.old ≤ writes.new }
{
    let Some((turn, request)) = take_by(asker, writes) else {
        return false;
    };
    let request = request.with_room(turn.serial, Wanted::Read(first), bytes.len());
    let Some(answered) = asker.ask(turn, request) else {
        return false;
    };
    let is_read = answered.gives(disk, first, bytes);
    asker.keep(answered);
    is_read
}

// Reads a run of this file into memory that goes to the thread of its device and comes back, by this right to ask and this request.
fn read_into_by<R: Wait + Clock + Drop, B: FileDevice, O: Opener<B>>(
    asker: &mut Asker<R, Request<B, O>>,
    turn: Turn,
    request: Request<B, O>,
    disk: Node,
    first: u32,
    bytes: Vec<u8>,
) -> Option<Vec<u8>>
    ensures read { IfSome result (λ blocks. HasRead (calls B.Blocks B.OnDisk B.has_read B.has_written B.lasts B.writes B.is_lost O.Opener)
        disk first blocks.items) }
    ensures many { IfSome result (λ blocks. length blocks.items ≡ length bytes.items) }
{
    let wanted = Wanted::Read(first);
    let count = bytes.len();
    let serial = turn.serial;
    let (request, own) = request.with_memory(serial, wanted, bytes);
    let answered = asker.ask(turn, request)?;
    let is_read = answered.has_done_all(disk, wanted, count);
    let (kept, read) = answered.with_memory(serial, Wanted::Flush(0), own);
    asker.keep(kept);
    if is_read { Some(read) } else { None }
}

// Writes a run of this file, by the thread of its device: how many of its writes have ended then, where it was done.
fn write_by<R: Wait + Clock + Drop, B: FileDevice, O: Opener<B>>(
    asker: &mut Asker<R, Request<B, O>>,
    writes: &mut u64,
    disk: Node,
    first: u32,
    bytes: &[u8],
) -> Option<u64>
    ensures answered { IfSome result (λ ended. HasWritten
        (calls B.Blocks B.OnDisk B.has_read B.has_written B.lasts B.writes B.is_lost O.Opener) disk first bytes.now ended) }
    ensures rises { writes.old ≤ writes.new }
{
    let (turn, request) = take_by(asker, writes)?;
    let (request, has_room) = request.with_bytes(turn.serial, first, bytes);
    if !has_room {
        asker.keep(request);
        return None;
    }
    asker.watch().writes_bytes(bytes.len());
    let answered = asker.ask(turn, request)?;
    let ended = answered.has_written(disk, first);
    asker.keep(answered);
    ended
}

// Takes how many writes the device has told as ended: whether it has, and one more at least than before.
fn one_more(told: Option<u64>, ended: &mut u64) -> bool
    ensures told { IsTrue result → told ≡ Some ended.new }
    ensures more { IsTrue result → min (ended.old + 1) last_count ≤ ended.new }
    ensures rises { ended.old ≤ ended.new }
{
    match told {
        Some(count) if count >= ended.saturating_add(1) => {
            *ended = count;
            true
        }
        _ => false,
    }
}

// Has the thread of the device of this file do what takes no bytes, by this right to ask and this request: whether that was done.
fn done_by<R: Wait + Clock + Drop, B: FileDevice, O: Opener<B>>(
    asker: &mut Asker<R, Request<B, O>>,
    turn: Turn,
    request: Request<B, O>,
    disk: Node,
    wanted: Wanted,
) -> bool
    ensures { IsTrue result → (writes : ℕ) × (bytes : List ℕ) ×
        HasAnswered (calls B.Blocks B.OnDisk B.has_read B.has_written B.lasts B.writes B.is_lost O.Opener) disk writes wanted bytes }
{
    let request = request.with_room(turn.serial, wanted, 0);
    let Some(answered) = asker.ask(turn, request) else {
        return false;
    };
    let is_done = answered.has_done(disk, wanted);
    asker.keep(answered);
    is_done
}

// Has the thread of the device of this file flush it, so many of whose writes have ended, and tells the watch of a flush that is done.
fn flush_by<R: Wait + Clock + Drop, B: FileDevice, O: Opener<B>>(
    asker: &mut Asker<R, Request<B, O>>,
    writes: &mut u64,
    disk: Node,
    ended: u64,
) -> bool
    ensures answered { IsTrue result → HasFlushed (calls B.Blocks B.OnDisk B.has_read B.has_written B.lasts B.writes B.is_lost O.Opener)
        disk ended }
    ensures rises { writes.old ≤ writes.new }
{
    let Some((turn, request)) = take_by(asker, writes) else {
        return false;
    };
    let written = asker.watch().written();
    let is_flushed = done_by(asker, turn, request, disk, Wanted::Flush(ended));
    if is_flushed {
        asker.watch().has_flushed(written);
    }
    is_flushed
}

impl<R: Wait + Clock + Drop, B: FileDevice, O: Opener<B>> Deadlined<R, B, O> {
    // Whether the device was opened anew.
    pub(crate) fn is_opened_anew(&self) -> bool
        ensures { IsTrue result → HasOpened (calls B.Blocks B.OnDisk B.has_read B.has_written B.lasts B.writes B.is_lost O.Opener)
            self.now.node self.now.ended }
    {
        let mut asker = self.asker.lock(&self.rt);
        match asker.take() {
            Some((turn, request)) => {
                done_by(
                    &mut asker,
                    turn,
                    request,
                    self.node,
                    Wanted::Open(self.ended),
                )
            }
            None => false,
        }
    }
}

impl<R: Wait + Clock + Drop, B: FileDevice, O: Opener<B>> OnDisk for Deadlined<R, B, O> {
    ghost disk = { λ d. d.node };
}

// Counts a call that failed.
fn ended(is_done: bool, failed: &mut u64) -> Result<(), DeviceFailed>
    ensures ok { OnOk result (is_done ≡ true × failed.new ≡ failed.old) }
    ensures err { OnErr result (failed.new ≡ min (failed.old + 1) last_count) }
{
    if is_done {
        return Ok(());
    }
    *failed = failed.saturating_add(1);
    Err(DeviceFailed)
}

impl<R: Wait + Clock + Drop, B: FileDevice, O: Opener<B>> Blocks for Deadlined<R, B, O> {
    ghost claims = { false };

    ghost claims_moments = { false };

    ghost size = { λ d. d.count };

    ghost contents = { λ d. [] };

    ghost may_hold = { λ d k value. Unit {0} };

    ghost moment = { λ d. 0 };

    ghost left_since = { λ d t disk. Unit {0} };

    ghost reads_failed = { λ d. min d.failed_reads last_count };

    ghost writes_failed = { λ d. min d.failed_writes last_count };

    ghost failures = { λ d. min (d.failed_reads + d.failed_writes) last_count };

    ghost fits = { λ d. d.fits };

    ghost summed = { λ d. Prim.omega arith };

    ghost bounded = { λ d. Prim.omega arith };

    ghost sized = { λ d h. Prim.cc };

    ghost wide = { λ d k h. Prim.cc };

    ghost is_outcome = { λ d k h lt. tt };

    ghost counts_now = { λ d t disk h. Prim.cc };

    ghost only_now = { λ d disk h. Prim.cc };

    fn count(&self) -> u32 {
        self.count
    }

    fn read_run(&mut self, first: u32, bytes: &mut [u8]) -> Result<(), DeviceFailed>
        requires { IsRun self.old.count first (length bytes.old) }
        ensures size { self.new.count ≡ self.old.count }
        ensures answered { OnOk result (HasRead (calls B.Blocks B.OnDisk B.has_read B.has_written B.lasts B.writes B.is_lost O.Opener)
            self.old.node first bytes.new) }
        ensures counted { CountsRead self.old.failed_reads self.old.failed_writes self.new.failed_reads self.new.failed_writes
            result }
        ensures rises { self.old.writes ≤ self.new.writes }
        ensures opened { (self.new.opened ≡ self.old.opened) × (self.new.node ≡ self.old.node) × (self.new.ended ≡ self.old.ended) }
    {
        let disk = self.node;
        let asker = self.asker.get_mut();
        let is_read = read_by(asker, &mut self.writes, disk, first, bytes);
        ended(is_read, &mut self.failed_reads)
    }

    // What was read beside the device is taken where all of its writes had come back before, and no call hangs.
    fn read_into(&mut self, first: u32, memory: BlockMemory) -> Result<Vec<u8>, DeviceFailed>
        requires { IsRun self.old.count first (length memory.bytes.items) }
        ensures size { self.new.count ≡ self.old.count }
        ensures many { IfOk result (λ blocks. length blocks.items ≡ length memory.bytes.items) }
        ensures answered { IfOk result (λ blocks.
            WereGiven (calls B.Blocks B.OnDisk B.has_read B.has_written B.lasts B.writes B.is_lost O.Opener)
            self.old.node first self.new.writes blocks.items) }
        ensures counted { CountsRead self.old.failed_reads self.old.failed_writes self.new.failed_reads self.new.failed_writes
            result }
        ensures rises { self.old.writes ≤ self.new.writes }
        ensures opened { (self.new.opened ≡ self.old.opened) × (self.new.node ≡ self.old.node) × (self.new.ended ≡ self.old.ended) }
    {
        let asker = self.asker.get_mut();
        let Some((turn, request)) = take_by(asker, &mut self.writes) else {
            self.failed_reads = self.failed_reads.saturating_add(1);
            return Err(DeviceFailed);
        };
        let writes = self.writes;
        if writes < u64::MAX && memory.holds(self.node, u64::from(first), writes) {
            asker.keep(request);
            let blocks = memory.bytes.len() / BLOCK_LENGTH;
            asker.watch().was_read(first, blocks);
            return Ok(memory.bytes);
        }
        match read_into_by(asker, turn, request, self.node, first, memory.bytes) {
            Some(blocks) => Ok(blocks),
            None => {
                self.failed_reads = self.failed_reads.saturating_add(1);
                Err(DeviceFailed)
            }
        }
    }

    fn write_run(&mut self, first: u32, bytes: &[u8]) -> Result<(), DeviceFailed>
        requires { IsRun self.old.count first (length bytes.now) }
        ensures size { self.new.count ≡ self.old.count }
        ensures answered { OnOk result (HasWritten (calls B.Blocks B.OnDisk B.has_read B.has_written B.lasts B.writes B.is_lost O.Opener)
            self.old.node first bytes.now self.new.ended) }
        ensures ended { OnOk result (min (self.old.ended + 1) last_count ≤ self.new.ended) }
        ensures told { self.old.ended ≤ self.new.ended }
        ensures counted { CountsWrite self.old.failed_reads self.old.failed_writes self.new.failed_reads self.new.failed_writes
            result }
        ensures written { min (self.old.writes + 1) last_count ≤ self.new.writes }
        ensures opened { (self.new.opened ≡ self.old.opened) × (self.new.node ≡ self.old.node) }
    {
        let disk = self.node;
        let asker = self.asker.get_mut();
        let told = write_by(asker, &mut self.writes, disk, first, bytes);
        let is_written = one_more(told, &mut self.ended);
        self.writes = self.writes.saturating_add(1);
        asker.watch().wrote(self.writes);
        ended(is_written, &mut self.failed_writes)
    }

    fn flush(&mut self) -> Result<(), DeviceFailed>
        ensures size { self.new.count ≡ self.old.count }
        ensures answered { OnOk result (HasFlushed (calls B.Blocks B.OnDisk B.has_read B.has_written B.lasts B.writes B.is_lost O.Opener)
            self.old.node self.old.ended) }
        ensures counted { CountsWrite self.old.failed_reads self.old.failed_writes self.new.failed_reads self.new.failed_writes
            result }
        ensures rises { self.old.writes ≤ self.new.writes }
        ensures opened { (self.new.opened ≡ self.old.opened) × (self.new.node ≡ self.old.node) × (self.new.ended ≡ self.old.ended) }
    {
        let disk = self.node;
        let asker = self.asker.get_mut();
        let is_flushed = flush_by(asker, &mut self.writes, disk, self.ended);
        ended(is_flushed, &mut self.failed_writes)
    }
}
