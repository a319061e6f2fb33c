//! Preparers that cannot prepare: the device does the same.
use crate::ends::must;
use crate::files::{disk_in, make};
use block_file::Blocks;
use disk_files::{FileBlocks, SystemFile, open_disk};
use disk_preparer::Preparer;
use file_preparer::FilePreparer;
use std::alloc::Global;
use std::fs::File;
use std::process;
use std::process::Abort;
use std::rt::{Clock, Files};
use std::sync::Wait;
use test_disks::{clean, folder, path_of, reads, writes};

// Runs that lie in the disk of four blocks, reach behind it, or lie behind all that a file can have.
const RUNS: [(u64, u16); 5] = [(0, 4), (1, 1), (3, 2048), (8, 1), (u64::MAX, 65535)];

// The preparer opens the name of the disk, or that of another file, or of none.
#[test]
fn a_preparer_costs_time_alone(rt: HostRuntime) {
    let process = process::id(rt.process());
    let folder = folder(&rt, process, "preparers").expect(&rt, "a folder");
    let other = path_of(rt.alloc(), folder.as_str(), "other").expect(&rt, "memory");
    make(&rt, other.as_str(), 2048);
    for name in &["disk", "other", "none"] {
        under_a_name(&rt, rt.alloc(), folder.as_str(), *name);
    }
    clean(&rt, folder.as_str()).expect(&rt, "a folder");
}

fn under_a_name<R: Clock + Wait + Files<File = File> + Abort + Copy + Drop>(
    rt: &R,
    alloc: Global,
    folder: &str,
    name: &str,
) {
    let disk = disk_in(rt, alloc, folder);
    let mut blocks = device(rt, alloc, disk.as_str());
    let opened = path_of(alloc, folder, name).expect(rt, "memory");
    let preparer = FilePreparer::open(*rt, alloc, opened.as_str(), &mut blocks, None);
    must(
        rt,
        is_as_ever(&mut blocks, &preparer, name == "disk"),
        "a device",
        &name,
    );
    make(rt, disk.as_str(), 512);
    must(
        rt,
        is_cut_short(&mut blocks, &preparer),
        "a device that is cut short",
        &name,
    );
}

// The device of a disk.
fn device<R: Files<File = File> + Abort + Copy + Drop>(
    rt: &R,
    alloc: Global,
    path: &str,
) -> FileBlocks<SystemFile> {
    open_disk(*rt, alloc, path).expect(rt, path).blocks
}

// The disk's device does what it does without a preparer, which flushes where it opened the disk.
fn is_as_ever<B: Blocks>(blocks: &mut B, preparer: &impl Preparer, flushes: bool) -> bool {
    let is_written = preparer.flushes() == flushes
        && preparer.flush() == flushes
        && writes(blocks, 0, &[1, 2, 3, 4]);
    prepare(preparer);
    is_written && reads(blocks, 0, &[1, 2, 3, 4]) && blocks.flush().is_ok()
}

// Behind the end of the file nothing is read.
fn is_cut_short<B: Blocks>(blocks: &mut B, preparer: &impl Preparer) -> bool {
    prepare(preparer);
    !reads(blocks, 0, &[1, 2, 3, 4])
}

fn prepare(preparer: &impl Preparer) {
    for (first, blocks) in &RUNS {
        preparer.advise(*first, *blocks);
        preparer.advise_edges(*first, *blocks);
        preparer.fetch(*first, *blocks);
        preparer.fetch_edges(*first, *blocks);
        preparer.flush();
    }
}
