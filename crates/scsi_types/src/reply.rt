//! What a command is answered.
ghost use Rattle.std.specs.Prelude.{◌≡◌, IsTrue};
ghost use Rattle.scsi_types.specs.ReplyValue;

use crate::{Sense, Status};
use std::alloc::Global;
use std::marker::Model;

/// What a command is answered: its status, its sense with CHECK CONDITION, its data with GOOD.
#[derive(Debug, Drop)]
pub struct Reply {
    status: Status,
    sense: Option<Sense>,
    bytes: Vec<u8>,
}

impl Model for Reply {
    ghost use Rattle.std.specs.Prelude.{IsTrue};
    ghost use Rattle.scsi_types.specs.ReplyValue.{ReplyValue, is_formed};

    ghost Value = { ReplyValue };

    ghost view = { λ r. record { status = r.status; sense = r.sense; bytes = r.bytes.items } };

    ghost invariant = { λ r. IsTrue (is_formed r.status r.sense r.bytes.items) };
}

impl Reply {
    /// GOOD with this data.
    pub fn good(bytes: Vec<u8>) -> Self
        ensures { result ≡ ReplyValue.good bytes.items }
    {
        Reply {
            status: Status::Good,
            sense: None,
            bytes,
        }
    }

    /// CHECK CONDITION with this sense.
    pub fn check(alloc: Global, sense: Sense) -> Self
        ensures { result ≡ ReplyValue.check sense }
    {
        Reply {
            status: Status::CheckCondition,
            sense: Some(sense),
            bytes: Vec::new(alloc),
        }
    }

    /// RESERVATION CONFLICT.
    pub fn conflict(alloc: Global) -> Self
        ensures { result ≡ ReplyValue.conflict }
    {
        let sense = None;
        let bytes = Vec::new(alloc);
        Reply {
            status: Status::ReservationConflict,
            sense,
            bytes,
        }
    }

    /// The status.
    pub fn status(&self) -> Status
        ensures status { result ≡ self.now.status }
        ensures formed { IsTrue (ReplyValue.is_formed self.now.status self.now.sense self.now.bytes) }
    {
        self.status
    }

    /// The sense, which is there with CHECK CONDITION.
    pub fn sense(&self) -> Option<Sense>
        ensures { result ≡ self.now.sense }
    {
        self.sense
    }

    /// The memory of its data.
    pub fn into_bytes(self) -> Vec<u8>
        ensures { result.items ≡ self.bytes }
    {
        self.bytes
    }

    /// The data for the initiator, which is empty without GOOD.
    pub fn bytes(&self) -> &[u8]
        ensures { result.now ≡ self.now.bytes }
    {
        &self.bytes
    }
}
