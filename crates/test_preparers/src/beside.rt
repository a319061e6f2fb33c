//! Flushes that end well, and ran beside one that failed: they may have had its blocks in hand.
use crate::ends::must;
use crate::fake::{FakeFile, NODE};
use crate::flushes::both_end_so;
use block_file::Blocks;
use disk_files::{FileBlocks, Flushes};
use std::alloc::Global;
use std::process::Abort;
use std::sync::{Mutex, Wait};
use std::thread::{Threads, join};

/// Handles, each of which fails one flush in a while, counted from 0, or none. Each other flush ends well, in twice that time.
pub fn slow_handles(
    rt: &impl Abort,
    clock: HostRuntime,
    alloc: Global,
    fails: &[Option<u32>],
) -> Vec<Mutex<FakeFile>> {
    let mut handles = Vec::new(alloc);
    for fails_at in fails {
        let handle = Mutex::new(FakeFile::slow(clock, *fails_at));
        handles.push(handle).expect(rt, "memory");
    }
    handles
}

// By two handles beside the device.
#[test]
fn a_flush_beside_one_that_failed_is_not_believed(rt: HostRuntime) {
    both_end_so(
        &rt,
        &Flushes::new(slow_handles(&rt, rt, rt.alloc(), &[Some(0), None])),
        false,
    );
}

// By the device, while one beside it fails.
#[test]
fn a_flush_of_the_device_beside_one_that_failed_is_not_believed(rt: HostRuntime) {
    let mut device = FileBlocks::of(FakeFile::slow(rt, None)).expect(&rt, "a device");
    let beside = device.share(rt.alloc(), slow_handles(&rt, rt, rt.alloc(), &[Some(0)]));
    neither_is_done(&rt, &mut device, &beside.expect(&rt, "memory"));
}

fn neither_is_done<B: Blocks + Send>(
    rt: &(impl Threads + Wait + Abort + Sync),
    device: &mut B,
    beside: &Flushes<FakeFile>,
) {
    let (device, beside) = join(
        rt,
        || device.flush().is_ok(),
        || beside.flush(rt, NODE).is_ok(),
    );
    must(rt, !device && !beside, "neither is done", &());
}
