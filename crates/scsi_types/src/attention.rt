//! Unit attention conditions.
ghost use Rattle.std.specs.Prelude.{◌≡◌};
ghost use Rattle.scsi_types.specs.Attention.{attention_sense};

use crate::Sense;

/// What a unit tells a session once that others changed (SAM-5, 5.14; SPC-4, 4.5.6).
#[derive(Clone, Copy, Debug, PartialEq, Eq)]
pub enum UnitAttention {
    /// POWER ON, RESET, OR BUS DEVICE RESET OCCURRED.
    PowerOn,
    /// RESERVATIONS PREEMPTED.
    ReservationsPreempted,
    /// RESERVATIONS RELEASED.
    ReservationsReleased,
    /// REGISTRATIONS PREEMPTED.
    RegistrationsPreempted,
    /// ASYMMETRIC ACCESS STATE CHANGED.
    AccessStateChanged,
}

impl UnitAttention {
    /// The sense that tells it.
    pub fn sense(self) -> Sense
        ensures { result ≡ attention_sense self }
    {
        match self {
            UnitAttention::PowerOn => Sense::POWER_ON,
            UnitAttention::ReservationsPreempted => Sense::RESERVATIONS_PREEMPTED,
            UnitAttention::ReservationsReleased => Sense::RESERVATIONS_RELEASED,
            UnitAttention::RegistrationsPreempted => Sense::REGISTRATIONS_PREEMPTED,
            UnitAttention::AccessStateChanged => Sense::ACCESS_STATE_CHANGED,
        }
    }
}
