//! Each call on a file of the system, by handles and on files by which the system cannot do it: so each is that call.
use crate::ends::must;
use disk_files::{BackingFile, FileBlocks, LastingFile, SystemFile, give_name, make_name_last};
use std::fs::{self, File, OpenFile};
use std::process::Abort;
use std::rt::Files;

// The call, what the handle is opened for, the file, and the error as Linux numbers it: EINVAL, ENOSPC, EBADF, and 0 where fewer bytes
// came than were asked for.
const CALLS: &str = "flush both /dev/null 22
flush beside both /dev/null 22
write both /dev/full 28
write reading /dev/null 9
read writing /dev/null 9
read both /dev/null 0";

// A handle of this file that is opened for this.
fn opened<R: Files<File = File> + Abort>(rt: &R, by: &str, path: &str) -> SystemFile {
    let handle = File::options()
        .read(by != "writing")
        .write(by != "reading")
        .open(rt, path);
    SystemFile::of(handle.expect(rt, path)).expect(rt, path)
}

// Makes a call on a file that has written nothing yet.
#[tactic(auto)]
fn end<F: LastingFile>(file: &mut F, call: &str) -> Result<(), u32> {
    match call {
        "flush" => file.flush(0),
        "flush beside" => file.make_last(0),
        "write" => file.write_at(&[0x11; 512], 0, 0),
        _ => file.read_at(&mut [0; 512], 0),
    }
}

#[test]
fn each_call_is_one_of_the_system(rt: HostRuntime) {
    for row in CALLS.split('\n') {
        let mut words = row.rsplitn(4, ' ');
        let error = words.next().unwrap_or("");
        let path = words.next().unwrap_or("");
        let mut file = opened(&rt, words.next().unwrap_or(""), path);
        let end = end(&mut file, words.next().unwrap_or(""));
        must(&rt, end.err() == error.parse().ok(), "a call", &row);
    }
}

// By whose flush a name would last.
fn lasts<R: Files<File = File> + Abort>(rt: &R, folder: &str) -> bool {
    drop(File::create(rt, "begun").expect(rt, "a file"));
    match give_name(rt, "begun", "named") {
        Ok(()) => make_name_last(rt, folder, "named").is_ok(),
        Err(_) => false,
    }
}

// By its own folder, and by none that cannot be flushed or is not there.
#[test]
fn a_name_lasts_by_a_flush_of_its_folder(rt: HostRuntime) {
    must(&rt, lasts(&rt, "."), "a folder", &".");
    must(&rt, !lasts(&rt, "/proc/self"), "a folder", &"/proc/self");
    must(&rt, !lasts(&rt, "none"), "a folder", &"none");
    fs::remove_file(&rt, "named").expect(&rt, "a file");
}
