//! The scripts of an array of units and of the desk of group 1, a line for what is done and what it comes to (`Array`). Hosts go by the
//! order in which they attached: `last` is the one who attached last, and `next` the one behind that who was `next` before. Units go by
//! their places.
//!
//! - `attach 0 1 = done`: the next host attaches to unit 0 by group 1, and `again 0 1 = done`: so does the initiator port of host 0;
//! - `send-2 0 test = moved 1`: a command of host 0 comes by group 2, and ends so; `desk 0 test`: it comes by way of the desk, as the
//!   program has it served; `hand 0 test = waits`: it is handed in at the desk;
//! - `collect 0 = good 512*00`: host 0 waits until a lane has served it: GOOD with these data, as `test_connections` spells them; `own 0`:
//!   it serves it itself, unless a lane was first;
//! - `kept 0 = done`: these data lie in the memory that was handed in with the command;
//! - `reset 0 = done`, `retire 0 = done`: it resets its unit, or its session ends; `failed`: not so;
//! - `first = job 0`: a lane takes the first job and serves it, one of unit 0; `close = done`: the desk closes;
//! - `board 0 = 1 0 1 6`: unit 0 belongs to group 1, the states of the groups are 0 and 1, and its history has six entries;
//! - `move 0 2 = done`: the array moves unit 0 so that group 2 is active/optimized; `none`: no group would be; `short`: a byte is missing;
//! - `down 1 = unopened 0`: the controller of group 1 goes down, and unit 0 stays, since it is not opened;
//! - `64 times LINE; LINE`: these are done so often.
use scsi_types::{Command, Group};

/// The block that commands read and write.
const LBA: u64 = 5;

/// What a WRITE puts there.
const NEW: [u8; 512] = [0xA5; 512];

/// A parameter list of SET TARGET PORT GROUPS (SPC-4, 6.45).
pub fn list_of(word: &str) -> &'static [u8] {
    match word {
        "1" => &[0, 0, 0, 0, 0, 0, 0, 1],
        "2" => &[0, 0, 0, 0, 0, 0, 0, 2],
        "none" => &[0, 0, 0, 0, 1, 0, 0, 1],
        "short" => &[0, 0, 0, 0, 0, 0, 2],
        _ => &[],
    }
}

/// The group of a number.
pub fn group_of(number: &str) -> Option<Group> {
    match number {
        "1" => Some(Group::One),
        "2" => Some(Group::Two),
        _ => None,
    }
}

/// A command, and its data. `spare` is TEST UNIT READY with data for which it has no use.
pub fn command_of(word: &str) -> Option<(Command, &'static [u8])> {
    let (lba, blocks, fua) = (LBA, 1, false);
    match word {
        "test" => Some((Command::TestUnitReady, &[])),
        "spare" => Some((Command::TestUnitReady, b"abc")),
        "read" => Some((Command::Read { lba, blocks, fua }, &[])),
        "write" => Some((Command::Write { lba, blocks, fua }, &NEW)),
        "report" => Some((Command::ReportTargetPortGroups { allocation: 256 }, &[])),
        "set" => Some((
            Command::SetTargetPortGroups { list_length: 8 },
            list_of("2"),
        )),
        _ => None,
    }
}
