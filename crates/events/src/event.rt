//! What happened.

use crate::words::{
    Access, Action, Call, Cause, Operation, Part, Resource, Sense, SessionType, Stayed, Unusable,
    Why,
};
use std::net::SocketAddrV4;

/// An initiator port (SAM-5, 4.7.2): the InitiatorName and the ISID of a login.
#[derive(Clone, Copy)]
pub struct Initiator<'a> {
    pub name: &'a [u8],
    pub isid: u64,
}

/// How a connection came: from which address, at which portal, of the group with which tag.
#[derive(Clone, Copy)]
pub struct Path {
    pub from: SocketAddrV4,
    pub portal: SocketAddrV4,
    pub tag: u16,
}

/// By whom something was done.
#[derive(Clone, Copy)]
pub enum By<'a> {
    Console,
    Session(Initiator<'a>),
}

/// Blocks of a file: the first one, and how many.
#[derive(Clone, Copy)]
pub struct Place {
    pub first: u32,
    pub count: u32,
}

/// What a PERSISTENT RESERVE OUT asked for (SPC-4, 6.16).
#[derive(Clone, Copy)]
pub struct Reservation {
    pub action: Action,
    pub key: u64,
    pub service_action_key: u64,
    pub kind: u8,
}

/// What happened.
#[derive(Clone, Copy)]
pub enum Event<'a> {
    /// The program began: its version.
    Started(&'a [u8]),
    /// The command line, or a variable of the environment, asks for nothing that there is: what of it.
    WrongWords(&'a [u8]),
    /// A portal of a controller takes connections.
    Listening(u16, SocketAddrV4),
    /// A portal could not: the system's error.
    CannotListen(u16, SocketAddrV4, u32),
    /// The control socket could not be made: the system's error.
    CannotControl(u32),
    /// All portals listen.
    Ready,
    /// No command is taken in any more.
    Stopping,
    /// A login was done: the session's TSIH and kind.
    LoggedIn(Initiator<'a>, Path, u16, SessionType),
    /// A login was refused: Status-Class and Status-Detail (RFC 7143, 11.13.5), and what the array lacked.
    LoginRefused(Initiator<'a>, Path, u16, Cause),
    /// A session ended that had logged in: its TSIH and kind, and why.
    SessionEnded(Initiator<'a>, Path, u16, SessionType, Why),
    /// A connection ended that had not.
    ConnectionEnded(Path, Why),
    /// So many more ended so, of which no line tells.
    ConnectionsEnded(u64),
    /// So many more logins were refused, of which no line tells.
    LoginsRefused(u64),
    /// So many more discovery sessions began or ended, of which no line tells.
    Discoveries(u64),
    /// An administrator told the array this line by the control socket, which is no mere question.
    Ordered(&'a [u8]),
    /// The access states of a unit's groups were set: the tag of the one that is active/optimized now, and the states of both.
    GroupsSet(u8, u16, Access, Access, By<'a>),
    /// A unit was to move to a group, and stayed.
    NotMoved(u8, u16, Stayed, By<'a>),
    /// A PERSISTENT RESERVE OUT was GOOD, by a session of this initiator through the group with this tag.
    Reserved(u8, Reservation, Initiator<'a>, u16),
    /// A LOGICAL UNIT RESET was done.
    Reset(u8, Initiator<'a>, u16),
    /// A command ended with MEDIUM ERROR or HARDWARE ERROR.
    CommandFailed(u8, Operation, Sense, Initiator<'a>, u16),
    /// A command was answered BUSY.
    Busy(u8, Operation, Initiator<'a>, u16),
    /// A call on a unit's file failed, at these blocks, with this error of the system, 0 where it told none.
    DeviceFailed(u8, Part, Call, Place, u32),
    /// A call on a unit's file took longer than the deadline. No call on it is made until that one has come back.
    Hung(u8, Part, Call),
    /// All such calls have come back, the last of them by this one, and the file is served again: how many milliseconds it was not.
    Back(u8, Part, Call, u64),
    /// A unit's file became longer while it was served.
    Grew(u8, Part),
    /// A unit's blocks could not be flushed when the array stopped.
    NotFlushed(u8),
    /// A file of a unit, whose disk has this name, cannot be used; with the error of the system, 0 where it told none.
    CannotUse(u8, Part, &'a [u8], Unusable, u32),
    /// The system does not look whether the host at this address is still there: it refused to.
    NoKeepalive(SocketAddrV4),
    /// This is wanting.
    Wanting(Resource),
    /// So many lines were dropped.
    Dropped(u64),
}
