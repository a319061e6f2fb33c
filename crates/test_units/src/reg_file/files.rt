//! Records, and devices with their blocks.
use crate::registrations::run::out;
use aptpl_file::RegFile;
use block_file::{Blocks, MemBlocks};
use reservations::{Record, Registry};
use std::alloc::Global;
use std::process::Abort;
use test_connections::bytes_of;

/// The calls of a save: the slot, a flush, the root, and a flush.
pub const SAVE_CALLS: u64 = 4;

/// A registry after these requests, with commas between, each as the tables have it (`registrations/run.rt`).
pub fn registry_after(rt: &impl Abort, alloc: Global, requests: &str) -> Registry {
    let mut registry = Registry::new(alloc).expect(rt, "memory");
    for request in requests.split(", ") {
        let _ = out(rt, alloc, &mut registry, request);
    }
    registry
}

// What a record says, as READ FULL STATUS of the registry that begins with it.
fn told(rt: &impl Abort, alloc: Global, record: Record) -> Vec<u8> {
    let registry = Registry::from_record(alloc, record).expect(rt, "memory");
    registry.full_status(65535).expect(rt, "memory")
}

/// Whether the file of a device, opened, holds a record that is to last, which READ FULL STATUS tells in these bytes.
pub fn holds(rt: &impl Abort, alloc: Global, device: MemBlocks, status: &[u8]) -> bool {
    let (_file, record) = RegFile::open(alloc, device).expect(rt, "a registration file");
    record.aptpl() && told(rt, alloc, record).as_slice() == status
}

/// The bytes of a block; zeros where it cannot be read.
pub fn block_of(device: &mut MemBlocks, index: u32) -> [u8; 512] {
    let mut block = [0; 512];
    if index < device.count() {
        let _ = device.read_run(index, &mut block);
    }
    block
}

/// Puts bytes into a block: its number, their place there, and what they are.
pub fn put(rt: &impl Abort, alloc: Global, device: &mut MemBlocks, words: &str) {
    let (index, rest) = words.split_once(' ').expect(rt, words);
    let (at, bytes) = rest.split_once(' ').expect(rt, words);
    let bytes = bytes_of(alloc, &[], bytes).expect(rt, words);
    let (index, at) = (
        index.parse().expect(rt, words),
        at.parse().expect(rt, words),
    );
    put_bytes(device, index, at, &bytes);
}

/// Puts these bytes into a block.
pub fn put_bytes(device: &mut MemBlocks, index: u32, at: usize, bytes: &[u8]) {
    let mut block = block_of(device, index);
    if index < device.count() && at <= 512 && bytes.len() <= 512 - at {
        block[at..at + bytes.len()].copy_from_slice(bytes);
        let _ = device.write_run(index, &block);
    }
}
