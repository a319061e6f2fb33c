//! What may happen.
use scsi_types::{Asked, Group, PortName};
use unit_events::Bytes;

/// One atomic action of one actor. A session is named by its place in the list of the world's sessions, in the order in which
/// they attached; a unit by its place. An event that can't happen where it stands changes nothing.
#[derive(Drop)]
pub enum Event {
    /// A session attaches to the unit at a place, by a port of this group.
    Attach {
        place: usize,
        port: PortName,
        group: Group,
    },
    /// A session ends.
    Detach {
        session: usize,
    },
    /// A session resets its unit.
    Reset {
        session: usize,
    },
    /// The unit at a place moves as a parameter list of SET TARGET PORT GROUPS says.
    Move {
        place: usize,
        list: Bytes,
    },
    /// A session that has no command on its way hands one in at the desk of a group. Where flushes are left to come behind their
    /// commands (`is_late`), the unit is asked the command without its own.
    Submit {
        session: usize,
        by_group: Group,
        asked: Asked,
        bytes: Bytes,
        is_late: bool,
    },
    /// A session whose command came to Moved hands it in once more, at the desk of the group that this named.
    SubmitAgain {
        session: usize,
        is_late: bool,
    },
    /// A session that has no command on its way has its worker serve one at once, past those that wait at the desk of a group: its
    /// data is long, few others are served so, or there was no memory for a job.
    Begin {
        session: usize,
        by_group: Group,
        asked: Asked,
        bytes: Bytes,
        is_late: bool,
    },
    /// A session whose command came to Moved has its worker serve it at once, past those that wait at the desk that this named.
    BeginAgain {
        session: usize,
        is_late: bool,
    },
    /// A session's worker takes its job back from the desk where it waits, to serve it itself.
    TakeBack {
        session: usize,
    },
    /// The desk of a group closes: it takes no command any more.
    Close {
        group: Group,
    },
    /// A lane takes the first job of a group's desk.
    Take {
        group: Group,
    },
    /// A lane, or its worker, has the unit serve a session's command.
    Serve {
        session: usize,
    },
    /// A lane, or its worker, posts the answer of a session's command.
    Post {
        session: usize,
    },
    /// A session collects its answer. Behind GOOD of a command whose flush was left off, that flush begins.
    Collect {
        session: usize,
    },
    /// The flush behind a session's command ends: it was done, or it has failed. The session has its reply.
    EndFlush {
        session: usize,
        is_done: bool,
    },
}
