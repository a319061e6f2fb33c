//! Calls that have a deadline, over a disk that counts what it is asked, and stands still when it is told to (`seen`).
ghost use Rattle.std.specs.Prelude.{[], false};
ghost use Rattle.block_file.specs.Failures.{last_count};

use crate::ends::must;
use crate::fake::NODE;
use crate::files::memory;
use crate::seen::{SeeingPreparer, Seen, TRIES, share};
use block_file::{Blocks, DeviceFailed, KeepOpener, MemBlocks};
use deadline::DeadlinedPreparer;
use disk_files::FileDevice;
use disk_preparer::{Node, OnDisk, Preparer};
use std::alloc::Global;
use std::process::Abort;
use std::sync::{Arc, Wait};
use std::thread::{self, Threads};
use std::time::{Clock, Duration};
use test_disks::{Row, is_done_on, reads, row_of, timed, watch};

/// So many seconds a call may take.
const PATIENCE: u64 = 1;

/// The device of the disk. Of its contents it claims nothing.
#[derive(Drop)]
struct Seeing<B: Blocks> {
    inner: B,
    rt: HostRuntime,
    seen: Arc<Seen, Global>,
}

impl<B: Blocks> OnDisk for Seeing<B> {
    ghost disk = { λ d. record { device = 0; number = 0 } };
}

impl<B: Blocks> Blocks for Seeing<B> {
    ghost claims = { false };

    ghost claims_moments = { false };

    ghost size = { λ d. B.size d.inner };

    ghost contents = { λ d. [] };

    ghost may_hold = { λ d k value. Unit {0} };

    ghost moment = { λ d. 0 };

    ghost left_since = { λ d t disk. Unit {0} };

    ghost reads_failed = { λ d. B.reads_failed d.inner };

    ghost writes_failed = { λ d. B.writes_failed d.inner };

    ghost failures = { λ d. B.failures d.inner };

    ghost fits = { λ d. B.fits d.inner };

    ghost summed = { λ d. B.summed d.inner };

    ghost bounded = { λ d. B.bounded d.inner };

    ghost sized = { λ d h. Prim.cc };

    ghost wide = { λ d k h. Prim.cc };

    ghost is_outcome = { λ d k h lt. tt };

    ghost counts_now = { λ d t disk h. Prim.cc };

    ghost only_now = { λ d disk h. Prim.cc };

    fn count(&self) -> u32 {
        self.inner.count()
    }

    fn read_run(&mut self, first: u32, bytes: &mut [u8]) -> Result<(), DeviceFailed> {
        self.seen.call(&self.rt, &self.seen.reads);
        self.inner.read_run(first, bytes)
    }

    fn write_run(&mut self, first: u32, bytes: &[u8]) -> Result<(), DeviceFailed> {
        self.seen.call(&self.rt, &self.seen.writes);
        self.inner.write_run(first, bytes)
    }

    fn flush(&mut self) -> Result<(), DeviceFailed> {
        self.seen.call(&self.rt, &self.seen.flushes);
        self.inner.flush()
    }
}

// It lies in no file, and says nothing of one: a count at its end.
impl<B: Blocks> FileDevice for Seeing<B> {
    ghost has_read = { λ disk offset bytes. Unit {0} };

    ghost has_written = { λ disk offset bytes. Unit {0} };

    ghost lasts = { λ disk writes. Unit {0} };

    ghost writes = { λ d. last_count };

    ghost is_lost = { λ d. false };

    fn disk(&self) -> Node {
        NODE
    }

    fn ended_writes(&self) -> u64 {
        u64::MAX
    }

    fn read_of(&mut self, first: u32, bytes: &mut [u8]) -> Result<(), DeviceFailed> {
        self.read_run(first, bytes)
    }

    fn write_of(&mut self, first: u32, bytes: &[u8]) -> Result<(), DeviceFailed> {
        self.write_run(first, bytes)
    }

    fn flush_of(&mut self) -> Result<(), DeviceFailed> {
        self.flush()
    }
}

// Whether the device is served again in time: block 2 is read, which these bytes fill.
fn is_served<B: Blocks>(rt: &impl Clock, device: &mut B, bytes: &[u8]) -> bool {
    for _ in 0..TRIES {
        if reads(device, 2, bytes) {
            return true;
        }
        thread::sleep(rt, Duration::from_millis(1));
    }
    false
}

// Whether a read beside the device, which fails, gives memory that holds nothing.
fn is_fresh<P: Preparer>(alloc: Global, preparer: &P) -> bool {
    let Some(bytes) = memory(alloc) else {
        return false;
    };
    match preparer.read(2, bytes, true) {
        Some(memory) => memory.beside.is_none(),
        None => false,
    }
}

// How counts are told.
fn said(rt: &impl Abort, alloc: Global, counts: (u64, u64, u64)) -> String {
    format!(in alloc; "{counts:?}").expect(rt, "memory")
}

// Whether a row ends as it says.
fn ends_so<B: Blocks, P: Preparer>(
    rt: &(impl Clock + Abort),
    alloc: Global,
    device: &mut B,
    preparer: &P,
    seen: &Seen,
    row: &Row,
) -> bool {
    match row.word {
        "stand" => {
            seen.stand(row.on.parse().expect(rt, row.on));
            true
        }
        "served" => is_served(rt, device, &row.bytes(alloc).expect(rt, row.rest)),
        "beside" => row.ends(preparer.flush()),
        "fresh" => row.ends(is_fresh(alloc, preparer)),
        "counts" => said(rt, alloc, seen.counts()).as_str() == row.end,
        _ => row.ends(is_done_on(alloc, device, row).expect(rt, row.on)),
    }
}

// Plays the rows of a script, whose first line is its name.
fn play<B: Blocks, P: Preparer>(
    rt: &(impl Clock + Abort),
    alloc: Global,
    device: &mut B,
    preparer: &P,
    seen: &Seen,
    script: &str,
) {
    let (name, rows) = script.split_once('\n').unwrap_or((script, ""));
    for line in rows.split('\n') {
        let ends_so = ends_so(rt, alloc, device, preparer, seen, &row_of(line));
        must(rt, ends_so, name, &line);
    }
}

// The device of such a disk and its preparer, and what is seen of both.
fn disk(
    rt: &impl Abort,
    host: HostRuntime,
    alloc: Global,
) -> (Seeing<MemBlocks>, SeeingPreparer, Arc<Seen, Global>) {
    let seen = Seen::nothing(rt, alloc);
    let blocks = Seeing {
        inner: MemBlocks::new(alloc, 16).expect(rt, "memory"),
        rt: host,
        seen: share(rt, &seen),
    };
    let by = SeeingPreparer {
        rt: host,
        seen: share(rt, &seen),
        flushes: true,
        is_done: true,
    };
    (blocks, by, seen)
}

// Plays a script over a disk of its own.
fn play_over_a_disk<R: Threads + Wait + Clock + Abort + Clone + Drop + Send + Sync + 'static>(
    rt: &R,
    host: HostRuntime,
    alloc: Global,
    script: &str,
) {
    let (blocks, by, seen) = disk(rt, host, alloc);
    let watch = watch(alloc, PATIENCE, NODE).expect(rt, "memory");
    let preparer = DeadlinedPreparer::start(rt, alloc, by, NODE, &watch).expect(rt, "threads");
    let device = timed(rt, alloc, blocks, KeepOpener, NODE, &watch);
    let mut device = device.expect(rt, "a thread");
    play(rt, alloc, &mut device, &preparer, &seen, script);
}

// `read`, `write` and `flush` are calls on the device, as in the scripts of `test_files`, and `beside` is a flush by the preparer.
// `stand 10000`: from now on each call of the disk takes so many milliseconds. `served 2 11`: block 2 is read in time, which this byte
// fills. `fresh`: a read beside the device, which fails, gives memory that holds nothing. `counts; (1, 2, 3)`: so many reads, writes and
// flushes the disk was asked for.
fn scripts() -> &'static str {
    r#"each call is one of its own
write 2 11
read 2 11
write 2 22
read 2 22
flush
flush
counts; (2, 2, 2)
beside
beside
counts; (2, 2, 4)
fresh
counts; (3, 2, 4)

a call that hangs stops all until it is back
write 2 11
stand 10000
beside; failed
read 2 11; failed
beside; failed
write 3 33; failed
counts; (0, 1, 1)
stand 0
served 2 11
beside
counts; (1, 1, 2)
stand 10000
write 2 22; failed
read 2 11; failed
beside; failed
counts; (1, 2, 2)
stand 0
served 2 22
write 2 44
read 2 44

one that comes back by itself, too late
write 2 44
stand 1500
write 2 55; failed
stand 0
served 2 55"#
}

#[test]
fn each_call_has_a_deadline(rt: HostRuntime) {
    for script in scripts().split("\n\n") {
        play_over_a_disk(&rt, rt, rt.alloc(), script);
    }
}
