//! What of commands is counted.

use crate::log_words::operation_of;
use meters::{Ended, Served};
use scsi_types::{Asked, Command, Reply, Status};
use session::TargetAnswer;

/// The length of a block, in bytes.
const BLOCK: u64 = 512;

// How a command with this reply ended.
fn ended_by(reply: &Reply) -> Ended {
    match reply.status() {
        Status::Good => Ended::Good,
        Status::CheckCondition => match reply.sense() {
            Some(sense) => Ended::Check(sense.key),
            None => Ended::Check(0),
        },
        Status::ReservationConflict => Ended::Conflict,
        Status::Busy => Ended::Busy,
        Status::TaskSetFull => Ended::Busy,
    }
}

// How a command ended, where it was answered.
fn ended(answer: &TargetAnswer) -> Option<Ended> {
    match answer {
        TargetAnswer::Replied(reply) => Some(ended_by(reply)),
        TargetAnswer::Outside(reply) => Some(ended_by(reply)),
        TargetAnswer::Busy => Some(Ended::Busy),
        TargetAnswer::Gone => None,
    }
}

// The bytes that a command reads and those that it writes.
fn bytes_of(asked: &Asked) -> (u64, u64) {
    match asked {
        Ok(Command::Read { blocks, .. }) => (BLOCK * u64::from(*blocks), 0),
        Ok(Command::Write { blocks, .. }) => (0, BLOCK * u64::from(*blocks)),
        Ok(Command::CompareAndWrite { blocks, .. }) => (0, BLOCK * u64::from(*blocks)),
        _ => (0, 0),
    }
}

// Whether a command asks that its blocks are flushed before it is answered.
fn asks_for_flush(asked: &Asked) -> bool {
    match asked {
        Ok(Command::Write { fua, .. }) => *fua,
        Ok(Command::CompareAndWrite { fua, .. }) => *fua,
        Ok(Command::SynchronizeCache { .. }) => true,
        _ => false,
    }
}

/// What of a command is counted, where it was answered.
pub(crate) fn served_of(asked: &Asked, answer: &TargetAnswer) -> Option<Served> {
    let ended = ended(answer)?;
    let (read, written) = match ended {
        Ended::Good => bytes_of(asked),
        _ => (0, 0),
    };
    Some(Served {
        operation: operation_of(asked),
        ended,
        read,
        written,
        flushes: asks_for_flush(asked),
    })
}
