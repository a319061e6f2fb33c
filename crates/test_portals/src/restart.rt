//! The files of tests.
use std::alloc::Global;
use std::fs::File;
use std::process::{Abort, Process};
use std::rt::Files;
use std::{fs, process};

/// Makes a file of this process for the test of this name, of so many bytes, which are zeros: its path.
pub fn zeros<R: Abort + Files<File = File>>(
    rt: &R,
    alloc: Global,
    process: Process,
    test: &str,
    bytes: u64,
) -> String {
    let id = process::id(process);
    let path = format!(in alloc; "arrayd_{id}_{test}").expect(rt, "memory");
    let name = path.as_str();
    File::create(rt, name)
        .expect(rt, name)
        .set_len(bytes)
        .expect(rt, name);
    path
}

/// Takes the files away.
pub fn removed<R: Abort + Files<File = File>>(rt: &R, alloc: Global, path: &str) {
    fs::remove_file(rt, path).expect(rt, path);
    let registrations = format!(in alloc; "{path}.reg").expect(rt, "memory");
    fs::remove_file(rt, registrations.as_str()).expect(rt, path);
}
