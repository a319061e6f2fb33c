//! Devices and openers that fail, what is then seen through both controllers, and what an array finds that is started again at the same
//! ports.
use crate::ends::done;
use crate::restart::{removed, zeros};
use beside_disk::open_registrations;
use disk_files::{FileBlocks, SystemFile};
use std::alloc::Global;
use std::fs::File;
use std::process::Abort;
use std::rt::Files;
use std::test::*;
use test_scenes::{Machine, Story};

// Stories, each with its name, and behind that what fails. A script stands before the restart, and one behind it.
fn stories() -> &'static str {
    r#"
restart;
# It is ended while a session is open, and started again: nothing fails, and the registrations are there after the restart.
# REGISTER of 11h with APTPL, and WRITE (10) of block 5
A alone
A does WRITE 7:18 20:00000018 32:5F000000000000001800 0000000000000000 0000000000000011 00000000 01000000
A does WRITE 5:000200 pattern 512

# READ KEYS, whose generation is 0 again, and READ (10)
B comes 2 / HOST_B / WELCOME_2
B power
B reads 20:00000010 32:5E000000000000001000 / 7:10 00000000 00000008 0000000000000011
B reads 20:00000200 32:28000000000500000100 / 5:000200 pattern 512


torn; the third block fails
# The device fails at the third block of a WRITE (10) of blocks 10 to 13, and from then on.
A and B
A > WRITE 5:000800 20:00000800 32:2A000000000A00000400 2048*5A
A < CHECK_CONDITION 0012 70000300000000 0A00000000 0C00 00000000
B > COMMAND 1:C1 20:00000200 32:28000000000A00000100
B < CHECK_CONDITION 1:82 44:00000200 0012 70000300000000 0A00000000 1100 00000000

# Of all 16 blocks 10 and 11 are new, and the others old.
A and B
A reads 20:00002000 32:28000000000000001000 / 5:002000 5120*00 1024*5A 2048*00
B reads 20:00002000 32:28000000000000001000 / 5:002000 5120*00 1024*5A 2048*00


unopened; no open
# No open succeeds: SET TARGET PORT GROUPS through controller 2 changes nothing, and A is told of nothing.
A and B
B > WRITE 7:08 20:00000008 32:A40A00000000000000080000 0000000000000002
B < CHECK_CONDITION 0012 70000400000000 0A00000000 670A 00000000
A reads 20:0000001C 32:A30A000000000000001C / 7:1C 00000018 800F000100000001 00000001 010F000200000001 00000002
B reads 20:0000001C 32:A30A000000000000001C / 7:1C 00000018 800F000100000001 00000001 010F000200000001 00000002

A and B
B does WRITE 7:08 20:00000008 32:A40A00000000000000080000 0000000000000002
A > TEST_UNIT_READY
A < CHECK_CONDITION 0012 70000600000000 0A00000000 2A06 00000000


unsaved; the fourth call of a save fails
# A save is a run, a flush, a run, and the flush that fails: READ KEYS tells of nobody, and after a restart of nobody or of A.
A and B
A > WRITE 7:18 20:00000018 32:5F000000000000001800 0000000000000000 0000000000000011 00000000 01000000
A < CHECK_CONDITION 0012 70000400000000 0A00000000 4400 00000000
A reads 20:00000008 32:5E000000000000000800 / 7:08 00000000 00000000
B reads 20:00000008 32:5E000000000000000800 / 7:08 00000000 00000000

A and B
A > COMMAND 1:C1 20:00000010 32:5E000000000000001000
A < DATA_IN 7:08 00000000 00000000 / DATA_IN 7:10 00000000 00000008 0000000000000011
A < GOOD 1:82 36:00000001 44:00000008 / GOOD 36:00000001
B > COMMAND 1:C1 20:00000010 32:5E000000000000001000
B < DATA_IN 7:08 00000000 00000000 / DATA_IN 7:10 00000000 00000008 0000000000000011
B < GOOD 1:82 36:00000001 44:00000008 / GOOD 36:00000001
"#
}

// The file of this name as a device.
fn file_of<R: Files<File = File> + Abort>(rt: &R, path: &str) -> FileBlocks<SystemFile> {
    FileBlocks::open(rt, path).expect(rt, path)
}

// The device of the registration file beside it, which is made where it is not there.
fn registrations_of<R: Files<File = File> + Abort>(
    rt: &R,
    alloc: Global,
    path: &str,
) -> FileBlocks<SystemFile> {
    drop(open_registrations(rt, alloc, path, None).expect(rt, path));
    let name = format!(in alloc; "{path}.reg").expect(rt, path);
    FileBlocks::open(rt, name.as_str()).expect(rt, path)
}

#[test]
fn a_restart_and_a_write_an_open_and_a_save_that_fail(rt: HostRuntime) {
    let alloc = rt.alloc();
    for story in stories().split("\n\n\n") {
        let (head, scripts) = story.trim_start().split_once('\n').expect(&rt, "a story");
        let (name, fault) = head.split_once(';').expect(&rt, head);
        let path = zeros(&rt, alloc, rt.process(), name, 8192);
        let path = path.as_str();
        let first = file_of(&rt, path);
        let first_file = registrations_of(&rt, alloc, path);
        let blocks = file_of(&rt, path);
        let file = registrations_of(&rt, alloc, path);
        let story = Story {
            name,
            fault: fault.trim(),
            scripts,
        };
        done(
            &rt,
            Machine::of(&rt).run_twice(&story, first, first_file, blocks, file),
        );
        removed(&rt, alloc, path);
    }
}
