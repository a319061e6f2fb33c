//! The files of disks, and memory for what is read of them.
use crate::ends::must;
use std::alloc::Global;
use std::fs::{File, Files};
use std::process::Abort;
use test_disks::{path_of, sized};

/// Makes a file of so many zeros.
pub fn make<R: Files<File = File> + Abort>(rt: &R, path: &str, bytes: u64) {
    must(rt, sized(File::create(rt, path), bytes), "a file", &path);
}

/// Makes the file of a disk of four blocks in a folder: its path.
pub fn disk_in<R: Files<File = File> + Abort>(rt: &R, alloc: Global, folder: &str) -> String {
    let path = path_of(alloc, folder, "disk").expect(rt, "memory");
    make(rt, path.as_str(), 2048);
    path
}

/// Memory for one block.
pub fn memory(alloc: Global) -> Option<Vec<u8>> {
    vec![in alloc; 0xDD; 512].ok()
}
