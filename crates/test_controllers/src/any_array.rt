//! An array as its tests see it: units that threads share, a desk, and the sessions of hosts. No type of a unit stands here, so
//! that tests see plain values alone, and cost little to prove.
use scsi_types::{Command, Group};
use status::Row;

/// What a command or a move came to: a word, and a number behind it.
#[derive(Clone, Copy)]
pub struct End {
    pub word: &'static str,
    pub number: u64,
}

/// An end of this word alone.
pub fn ended(word: &'static str) -> End {
    End { word, number: 0 }
}

/// A sense key, an additional sense code and a qualifier as one number of six digits in hexadecimal.
pub fn sense_number(key: u8, asc: u8, ascq: u8) -> u64 {
    u64::from(u32::from_be_bytes([0, key, asc, ascq]))
}

/// The number of a group.
pub fn number_of(group: Group) -> u64 {
    match group {
        Group::One => 1,
        Group::Two => 2,
    }
}

/// Units that threads share, a desk of the first controller, and the sessions S of hosts, or what is left of them.
///
/// A command of a host ends `good`, `check` with the number of its sense, `conflict`, `gone`, `moved` to the group of a number, with
/// `memory` that is wanting, at a desk that is `full` or `closed`, and `waits` in its queue. `nobody`: there is no session that could send
/// it, or no command that waits. A unit that was to move is `done`, or stays with a `list`, a `length`, blocks that are `unopened`, or
/// `gone`.
pub trait Array<S> {
    /// The host of this ISID attaches to a unit by a group. None: there is no such unit, no room for a session, or no memory.
    fn attach(&self, place: usize, isid: u32, group: Group) -> Option<S>;

    /// How a host's command ends, which comes by this group.
    fn ask(&self, host: &mut S, by_group: Group, command: Command, bytes: &[u8]) -> End;

    /// How it ends by way of the desk, as the program has it served.
    fn ask_at_desk(&self, host: &mut S, command: Command, bytes: &[u8]) -> End;

    /// Hands it in at the desk, in whose queue it waits then.
    fn hand_in(&self, host: &mut S, command: Command, bytes: &'static [u8]) -> End;

    /// Waits until a lane has served it.
    fn collect(&self, host: &mut S) -> End;

    /// Serves it, unless a lane is first.
    fn serve_own(&self, host: &mut S) -> End;

    /// The data of the last reply to a host.
    fn data<'s>(&self, host: &'s S) -> &'s [u8];

    /// Whether these lie in memory that was handed in at the desk with their command.
    fn is_kept(&self, host: &S) -> bool;

    /// Whether a LOGICAL UNIT RESET was done.
    fn reset(&self, host: &mut S) -> bool;

    /// Whether a session ended by this call.
    fn retire(&self, host: &mut S) -> bool;

    /// What the board of a unit shows.
    fn row(&self, place: usize) -> Option<Row>;

    /// The unit at a place moves by this list of SET TARGET PORT GROUPS, or stays. `nobody`: there is no such unit.
    fn move_by(&self, place: usize, list: &[u8]) -> End;

    /// The controller of a group goes down, or the first unit that does not move is told: its place is the number.
    fn take_down(&self, group: Group) -> End;

    /// A lane takes the first job and serves it: `job`, with the place of its unit. `no-job`: the desk is closed, and no job is left.
    fn serve_first(&self) -> End;

    /// It serves the first job as the program's lanes do: whether there was one.
    fn serve_next(&self) -> bool;

    /// The desk closes.
    fn close(&self);
}

/// A host of unit 0, which was attached by the first group and has been told of the power.
pub fn attached<S: Drop, A: Array<S>>(array: &A, isid: u32) -> Option<S> {
    let mut host = array.attach(0, isid, Group::One)?;
    let told = array.ask(&mut host, Group::One, Command::TestUnitReady, &[]);
    if told.word == "check" && told.number == 0x062900 {
        Some(host)
    } else {
        None
    }
}
