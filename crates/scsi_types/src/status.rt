//! Status codes.
ghost use Rattle.std.specs.Prelude.{◌≡◌};
ghost use Rattle.scsi_types.specs.Status.{status_code};

/// The status with which a command ends (SAM-5, 5.3.1).
#[derive(Clone, Copy, Debug, PartialEq, Eq)]
pub enum Status {
    Good,
    CheckCondition,
    Busy,
    ReservationConflict,
    TaskSetFull,
}

impl Status {
    /// The status code, as it stands in a response (SAM-5, 5.3.1).
    pub fn code(self) -> u8
        ensures { result ≡ status_code self }
    {
        match self {
            Status::Good => 0x00,
            Status::CheckCondition => 0x02,
            Status::Busy => 0x08,
            Status::ReservationConflict => 0x18,
            Status::TaskSetFull => 0x28,
        }
    }
}
