//! What is read ahead, where the calls of a disk have a deadline: of READs that came together a thread is asked for the first one, and
//! reads for the others behind its answer.
use crate::ends::must;
use crate::fake::NODE;
use crate::files::{disk_in, memory};
use crate::reads_beside::{BEFORE, SINCE};
use crate::seen::{SeeingPreparer, Seen, TRIES, share};
use block_file::{Blocks, KeepOpener};
use deadline::DeadlinedPreparer;
use disk_files::FileBlocks;
use disk_preparer::{BlockMemory, Preparer};
use file_preparer::FilePreparer;
use std::alloc::Global;
use std::fs::{File, Files};
use std::process::Abort;
use std::time::{Clock, Duration};
use std::{process, thread};
use test_disks::{clean, folder, given, timed, watch, writes};

/// So many seconds a call may take, and so many READs come together, from block 1 on.
const PATIENCE: u64 = 60;

const READS: u64 = 3;

// What the first of READs that came together finds.
fn first<P: Preparer>(alloc: Global, preparer: &P) -> Option<BlockMemory> {
    for block in 1..READS + 1 {
        preparer.advise(block, 1);
    }
    preparer.read(1, memory(alloc)?, false)
}

// What they find for block 2, which a thread has read ahead.
fn second<P: Preparer>(alloc: Global, preparer: &P) -> Option<BlockMemory> {
    for _ in 0..TRIES {
        first(alloc, preparer)?;
        let found = preparer.read(2, memory(alloc)?, false)?;
        if found.beside.is_some() {
            return Some(found);
        }
    }
    None
}

// The byte that fills block 2, where it was read ahead, and has changed behind that by another handle, of which the device is told
// nothing: so it shows whether it takes what was read ahead. A write of its own may come back before it does.
fn taken<B: Blocks, P: Preparer>(
    alloc: Global,
    device: &mut B,
    preparer: &P,
    other: &mut impl Blocks,
    is_written: bool,
) -> Option<u8> {
    if !writes(device, 2, &[BEFORE]) {
        return None;
    }
    let found = second(alloc, preparer)?;
    if !writes(other, 2, &[SINCE]) || is_written && !writes(device, 3, &[SINCE]) {
        return None;
    }
    given(device, 2, found)
}

// What is read ahead of the disk in this file is taken, unless a write of the device has come back since.
fn each_is_given<R: Files<File = File> + Abort, B: Blocks, P: Preparer>(
    rt: &R,
    alloc: Global,
    path: &str,
    device: &mut B,
    preparer: &P,
) {
    let mut other = FileBlocks::open(rt, path).expect(rt, path);
    for (is_written, expected) in &[(false, BEFORE), (true, SINCE)] {
        let given = taken(alloc, device, preparer, &mut other, *is_written);
        must(rt, given == Some(*expected), "block 2", &given);
    }
}

// The types of a preparer that threads take along are known here alone.
#[test]
fn what_is_read_ahead_is_taken_unless_a_write_has_come_back_since(rt: HostRuntime) {
    let alloc = rt.alloc();
    let folder = folder(&rt, process::id(rt.process()), "ahead").expect(&rt, "a folder");
    let path = disk_in(&rt, alloc, folder.as_str());
    let path = path.as_str();
    let mut blocks = FileBlocks::open(&rt, path).expect(&rt, path);
    let by = FilePreparer::open(rt, alloc, path, &mut blocks, None);
    let disk = blocks.node();
    let watch = watch(alloc, PATIENCE, disk).expect(&rt, "memory");
    let preparer = DeadlinedPreparer::start(&rt, alloc, by, disk, &watch).expect(&rt, "threads");
    let device = timed(&rt, alloc, blocks, KeepOpener, disk, &watch);
    let mut device = device.expect(&rt, "a thread");
    each_is_given(&rt, alloc, path, &mut device, &preparer);
    clean(&rt, folder.as_str()).expect(&rt, "a folder");
}

// How often a disk that was asked for all READs looked, and at which block last; none where it is not asked for them all.
fn looks(rt: &impl Clock, seen: &Seen) -> Option<(u64, u64)> {
    for _ in 0..TRIES {
        let looks = seen.looks_of(READS);
        if looks.is_some() {
            return looks;
        }
        thread::sleep(rt, Duration::from_millis(1));
    }
    None
}

// Else a disk that takes time, and of whose blocks all that are asked for first come in time, would count as fast for ever: nothing would
// be fetched side by side.
#[test]
fn the_first_block_that_is_read_ahead_is_looked_at(rt: HostRuntime) {
    let alloc = rt.alloc();
    let seen = Seen::nothing(&rt, alloc);
    let by = SeeingPreparer {
        rt,
        seen: share(&rt, &seen),
        flushes: false,
        is_done: false,
    };
    let watch = watch(alloc, PATIENCE, NODE).expect(&rt, "memory");
    let preparer = DeadlinedPreparer::start(&rt, alloc, by, NODE, &watch).expect(&rt, "threads");
    must(&rt, first(alloc, &preparer).is_some(), "block 1", &());
    let looks = looks(&rt, &seen);
    must(&rt, looks == Some((1, 2)), "looks", &looks);
}
