//! In which order a registration file is written and flushed, in the calls that its device makes of the file.
use crate::ends::must;
use crate::fake::FakeFile;
use aptpl_file::{FILE_BLOCKS, RegFile, SaveFault};
use block_file::{BLOCK_LENGTH, Blocks};
use disk_files::FileBlocks;
use std::alloc::Global;
use std::process::Abort;
use test_disks::registered;

/// The write that fails, counted from 0.
const FAILS_AT: u64 = 5;

// The calls of a format, and of three saves: a slot of 33 blocks, and then the root, each with a flush of its own that ended well before
// the next write. The second save fails at its root: the third one first writes the old root again.
const CALLS: &str = "
write 16896 at 512 behind 0
flush behind 1
write 512 at 0 behind 1
flush behind 2
write 16896 at 17408 behind 2
flush behind 3
write 512 at 0 behind 3
flush behind 4
write 16896 at 512 behind 4
flush behind 5
write 512 at 0 behind 5
write 512 at 0 behind 6
flush behind 7
write 16896 at 512 behind 7
flush behind 8
write 512 at 0 behind 8
flush behind 9";

// Saves what is registered by a key.
fn save<B: Blocks>(rt: &impl Abort, alloc: Global, file: &mut RegFile<B>) -> Option<SaveFault> {
    let registry = registered(alloc, 0x22, true).expect(rt, "registrations");
    file.save(&registry.lasting()).err()
}

#[test]
fn a_root_is_written_behind_a_flush_of_its_slot(rt: HostRuntime) {
    let alloc = rt.alloc();
    let length = BLOCK_LENGTH as u64 * u64::from(FILE_BLOCKS);
    let file = FakeFile::keeping(alloc, length, FAILS_AT);
    let device = FileBlocks::of(file).expect(&rt, "a device");
    assert!(&rt;
        device.count() >= FILE_BLOCKS,
        "a registration file's blocks"
    );
    let mut file = RegFile::format(device).expect(&rt, "a registration file");
    for wanted in &[None, Some(SaveFault::NewRoot), None] {
        let fault = save(&rt, alloc, &mut file);
        must(&rt, fault == *wanted, "a save", &fault);
    }
    let calls = file.close().into_file().calls.expect(&rt, "calls");
    must(&rt, calls.as_str() == CALLS, "calls", &calls);
}
