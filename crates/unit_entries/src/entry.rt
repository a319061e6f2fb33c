//! What contracts see of a history, and who attaches.
use scsi_types::{Group, PortName};
use std::marker::Model;

/// An entry of a unit's history, as contracts see it. No value of it is made.
pub struct Noted {
    never: u64,
}

impl Model for Noted {
    ghost use Rattle.unit_control.specs.Entry.{Entry, Detach};

    ghost Value = { Entry };

    ghost view = { λ n. Detach n.never };
}

/// The state that a unit opened in, as contracts see it. No value of it is made.
pub struct Opened {
    never: u64,
}

impl Model for Opened {
    ghost use Rattle.unit_control.specs.State.{UnitState};
    ghost use Rattle.unit_entries.specs.Histories.{no_state};

    ghost Value = { UnitState };

    ghost view = { λ o. no_state };
}

/// Who attaches: an initiator port, and the group by which it comes.
#[derive(Drop)]
pub struct Arrival {
    pub port: PortName,
    pub group: Group,
}
