//! What is noted of each session, in the order in which it happened. Contracts speak of this list.
use scsi_types::Reply;
use unit_events::Job;

/// What a session did.
#[derive(Drop)]
pub enum What {
    /// It submitted its command, or submitted it once more.
    Submitted,
    /// It collected GOOD for its command without the flush, and the flush has begun.
    FlushBegan,
    /// It collected this reply to this job, which is that of the entry at this place of the unit's history.
    Replied(Job, Reply, u64),
    /// It was told this of its command, whose flush was left to come behind it. The job is the command as it was asked. The entry at
    /// this place of the unit's history is that of the command without its flush. The last is whether a flush was done behind it.
    Settled(Job, Reply, u64, bool),
    /// Its command ended in BUSY: the desk was full or closed, there was no memory for its reply, or the unit had moved a second time.
    Busy,
    /// Its unit answered that the session is gone there.
    Gone,
}

/// A submit, a collect, or the end of a flush: of which unit and session, the serial of the command, and how many entries the unit's
/// history had when it was noted.
#[derive(Drop)]
pub struct Note {
    pub place: usize,
    pub session: u64,
    pub serial: u64,
    pub count: u64,
    pub what: What,
}
