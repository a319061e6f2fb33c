//! A job of a session, and what it came to.
use crate::bytes::Bytes;
use scsi_types::{Asked, Group, Reply};
use unit_lock::Refused;

/// A command that was handed in at the desk of a group.
#[derive(Drop)]
pub struct Job {
    /// The group of the desk.
    pub by_group: Group,
    /// What its unit is asked.
    pub asked: Asked,
    /// The data that came for it.
    pub bytes: Bytes,
    /// Whether it came to Moved before.
    pub is_second: bool,
    /// What its session asked, where the flush of that comes behind it: the unit is asked the same without the flush. Of this the
    /// unit knows nothing.
    pub late: Option<Asked>,
}

/// What a job came to.
#[derive(Drop)]
pub enum End {
    /// The reply of the entry at this place of the unit's history, and the serial of the session's next command.
    Replied(Reply, u64, u64),
    /// The command is no entry.
    Refused(Refused<Group>),
}
