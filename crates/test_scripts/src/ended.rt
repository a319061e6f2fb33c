//! How calls of a unit end, as a row says it.
use access_states::{AsetFault, Change};
use scsi_types::{Group, Reply, Status};
use std::alloc::{AllocError, Global};
use unit_state::{MoveFault, StepEnd};

/// How a call ended: its word, and behind that a number, as that of a group, or the bytes of data or of sense.
#[derive(Debug, Drop)]
pub struct Ended {
    pub word: &'static str,
    pub number: u64,
    pub bytes: Vec<u8>,
}

/// An end of a word alone.
pub fn worded(alloc: Global, word: &'static str) -> Ended {
    numbered(alloc, word, 0)
}

/// An end of a word and a number.
pub fn numbered(alloc: Global, word: &'static str, number: u64) -> Ended {
    Ended {
        word,
        number,
        bytes: Vec::new(alloc),
    }
}

/// The end of a command.
pub fn stepped(alloc: Global, end: &StepEnd) -> Result<Ended, AllocError> {
    Ok(match end {
        StepEnd::Reply(reply) => return replied(alloc, reply),
        StepEnd::Moved(owner) => numbered(alloc, "MOVED", number(*owner)),
        StepEnd::Gone => worded(alloc, "GONE"),
        StepEnd::NoMemory => worded(alloc, "no memory"),
    })
}

// A reply.
fn replied(alloc: Global, reply: &Reply) -> Result<Ended, AllocError> {
    match (reply.status(), reply.sense()) {
        (Status::Good, None) => told(alloc, "GOOD", reply.bytes()),
        (Status::ReservationConflict, None) => told(alloc, "CONFLICT", reply.bytes()),
        (Status::CheckCondition, Some(sense)) if reply.bytes().is_empty() => {
            told(alloc, "CHECK", sense.to_bytes().as_slice())
        }
        _ => Ok(worded(alloc, "another reply")),
    }
}

// An end of a word and bytes.
fn told(alloc: Global, word: &'static str, bytes: &[u8]) -> Result<Ended, AllocError> {
    Ok(Ended {
        word,
        number: 0,
        bytes: Vec::from_slice(alloc, bytes)?,
    })
}

/// The end of a move.
pub fn moved(alloc: Global, end: Result<Change, MoveFault>) -> Ended {
    match end {
        Ok(change) => changed(alloc, change),
        Err(MoveFault::List(AsetFault::Length)) => worded(alloc, "BAD-LENGTH"),
        Err(MoveFault::List(AsetFault::BadList)) => worded(alloc, "BAD-LIST"),
        Err(MoveFault::OpenFailed) => worded(alloc, "NOT-OPENED"),
        Err(_) => worded(alloc, "another fault"),
    }
}

// What a move changed.
fn changed(alloc: Global, change: Change) -> Ended {
    match change.owner {
        None if change.changed == [false, false] => worded(alloc, "NEITHER-CHANGES"),
        Some(owner) if change.changed == [true, true] => {
            numbered(alloc, "BOTH-CHANGE", number(owner))
        }
        _ => worded(alloc, "another change"),
    }
}

// The number of a group.
fn number(group: Group) -> u64 {
    match group {
        Group::One => 1,
        Group::Two => 2,
    }
}
