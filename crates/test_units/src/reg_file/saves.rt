//! A save and an open that stop at each of their calls in turn, over a file of either version, and a format.
use crate::ends::must;
use crate::reg_file::files::{SAVE_CALLS, block_of, holds, put, put_bytes, registry_after};
use aptpl_file::{FILE_BLOCKS, OpenFault, RegFile, SaveFault};
use block_file::{Blocks, MemBlocks};
use crash_blocks::Pick;
use std::alloc::Global;
use std::process::Abort;
use test_connections::bytes_of;
use test_scripts::{Failing, FailingBlocks, OPEN_CALLS, crashed};

// The blocks of a file of version 1, as the program before this one left it: `iqn.2000-01.test:a`, ISID 400001370000h, has
// registered 11h with APTPL through group 1. In version 2 it differs in the version alone. Block 0 is the root, block 34 the slot, and
// block 35 its entry.
const OLD_BLOCKS: &str = r#"0 0 "ALUAREG1" 0001 01
34 0 "ALUASLT1" 01 01 00 FF
35 0 0000000000000011 0001 400001370000 12 "iqn.2000-01.test:a""#;

/// The root after the next save.
const NEW_ROOT: &[u8; 11] = b"ALUAREG1\x00\x02\x00";

/// What is registered then: the port with one key through both groups.
const REQUEST: &str = "A_LONG Register 0 0 22 ALL_TG_PT APTPL";

// What the file holds, as READ FULL STATUS tells it behind a restart (SPC-4, 6.15.5).
fn old_status() -> &'static str {
    r#"00000000 00000040
 0000000000000011 00000000 00 00 00000000 0001 00000028 45 00 0024 "iqn.2000-01.test:a,i,0x400001370000\0""#
}

// What it is to hold then.
fn new_status() -> &'static str {
    r#"00000000 00000080
 0000000000000022 00000000 00 00 00000000 0001 00000028 45 00 0024 "iqn.2000-01.test:a,i,0x400001370000\0"
 0000000000000022 00000000 00 00 00000000 0002 00000028 45 00 0024 "iqn.2000-01.test:a,i,0x400001370000\0""#
}

/// What a loss of power leaves of each block.
const PICKS: [Pick; 4] = [
    Pick::Oldest,
    Pick::Newest,
    Pick::Rotated(0),
    Pick::Rotated(1),
];

/// Where a save stops: in a file of this version, at this of its calls, counted from 0, of which so many blocks land if it is a
/// write. Then the power is lost.
#[derive(Clone, Copy, Debug)]
struct Stop {
    version: u8,
    calls: u64,
    lands: u32,
}

fn old_file(rt: &impl Abort, alloc: Global, version: u8) -> MemBlocks {
    let mut device = MemBlocks::new(alloc, FILE_BLOCKS).expect(rt, "memory");
    for line in OLD_BLOCKS.lines() {
        put(rt, alloc, &mut device, line);
    }
    put_bytes(&mut device, 0, 9, &[version]);
    device
}

// A device that stops at this call, and lands so many blocks of the write at which it stops.
fn stopping(
    rt: &impl Abort,
    alloc: Global,
    blocks: MemBlocks,
    behind: u64,
    lands: u32,
) -> FailingBlocks {
    let failing = Failing {
        behind,
        lands,
        alone: u64::MAX,
    };
    failing.device(alloc, blocks).expect(rt, "memory")
}

// Opens the file of this device, and saves: where the save failed, and the device.
fn saved<F: Blocks>(rt: &impl Abort, alloc: Global, device: F) -> (Option<SaveFault>, F) {
    let (mut file, _old) = RegFile::open(alloc, device).expect(rt, "a registration file");
    let registry = registry_after(rt, alloc, REQUEST);
    let fault = file.save(&registry.lasting()).err();
    (fault, file.close())
}

/// Opens the file, and saves over a device that stops there: where the save failed, and the blocks that these pick is left.
fn stopped(
    rt: &impl Abort,
    alloc: Global,
    stop: Stop,
    pick: Pick,
) -> (Option<SaveFault>, MemBlocks) {
    let old = old_file(rt, alloc, stop.version);
    let behind = stop.calls.saturating_add(OPEN_CALLS);
    let device = stopping(rt, alloc, old, behind, stop.lands);
    let (fault, device) = saved(rt, alloc, device);
    (fault, crashed(device, pick))
}

/// Where a save fails that stops at this call, counted from 0.
fn place_of(calls: u64) -> Option<SaveFault> {
    match calls {
        0..2 => Some(SaveFault::IdleSlot),
        2..4 => Some(SaveFault::NewRoot),
        _ => None,
    }
}

// Whether a restart finds the new root, by what is left of block 0: where the root landed and was not flushed, it has two values, the
// old one first.
fn is_new(stop: Stop, pick: Pick) -> bool {
    let has_landed = stop.calls > 2 || stop.lands > 0 && stop.calls == 2;
    let is_flushed = stop.calls > 3;
    match pick {
        Pick::Oldest => is_flushed,
        Pick::Newest => has_landed,
        Pick::Rotated(turn) => is_flushed || has_landed && turn % 2 == 1,
    }
}

/// Stops there, and compares what a restart finds: the old file or the new one.
fn stops_well(rt: &impl Abort, alloc: Global, stop: Stop, pick: Pick) {
    let (fault, left) = stopped(rt, alloc, stop, pick);
    must(rt, fault == place_of(stop.calls), "a save", &(stop, fault));
    let status = if is_new(stop, pick) {
        new_status()
    } else {
        old_status()
    };
    let wanted = bytes_of(alloc, &[], status).expect(rt, status);
    must(rt, holds(rt, alloc, left, &wanted), status, &stop);
}

// Stops there, with each loss of power.
fn stop_by_each(rt: &impl Abort, alloc: Global, at: Stop) {
    for pick in &PICKS {
        stops_well(rt, alloc, at, *pick);
    }
}

/// The root after a save that is done.
fn has_the_new_root(rt: &impl Abort, alloc: Global, version: u8) -> bool {
    let done = Stop {
        version,
        calls: SAVE_CALLS,
        lands: 0,
    };
    let (fault, mut device) = stopped(rt, alloc, done, Pick::Oldest);
    let mut root = [0; 512];
    root[..11].copy_from_slice(NEW_ROOT);
    fault == None && block_of(&mut device, 0) == root
}

// Where a format of this device fails.
fn format_fault<F: Blocks>(rt: &impl Abort, device: F) -> Option<SaveFault> {
    assert!(rt;
        device.count() >= FILE_BLOCKS,
        "a registration file's blocks"
    );
    RegFile::format(device).err()
}

/// A format fails that stops at one of its four calls.
fn format(rt: &impl Abort, alloc: Global, calls: u64) {
    let device = MemBlocks::new(alloc, FILE_BLOCKS).expect(rt, "memory");
    let fault = format_fault(rt, stopping(rt, alloc, device, calls, 0));
    must(rt, fault == place_of(calls), "a format", &(calls, fault));
}

// Why the file of this device does not open.
fn open_fault<F: Blocks>(alloc: Global, device: F) -> Option<OpenFault> {
    RegFile::open(alloc, device).err()
}

/// An open fails that stops at one of its three calls.
fn open(rt: &impl Abort, alloc: Global, version: u8, calls: u64) {
    let old = old_file(rt, alloc, version);
    let fault = open_fault(alloc, stopping(rt, alloc, old, calls, 0));
    let wanted = (calls < OPEN_CALLS).then_some(OpenFault::DeviceFailed);
    must(rt, fault == wanted, "an open", &(calls, fault));
}

#[test]
fn each_call_of_a_save_an_open_and_a_format(rt: HostRuntime) {
    let alloc = rt.alloc();
    for version in 1..3u8 {
        let is_new = has_the_new_root(&rt, alloc, version);
        must(&rt, is_new, "the new root", &version);
        for lands in &[0, 1, 2, 32, 33] {
            for calls in 0..SAVE_CALLS + 1 {
                let at = Stop {
                    version,
                    calls,
                    lands: *lands,
                };
                stop_by_each(&rt, alloc, at);
            }
        }
        for calls in 0..OPEN_CALLS + 1 {
            open(&rt, alloc, version, calls);
        }
    }
    for calls in 0..SAVE_CALLS + 1 {
        format(&rt, alloc, calls);
    }
}
