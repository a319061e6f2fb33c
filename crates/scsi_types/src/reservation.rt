//! Persistent reservations.
ghost use Rattle.std.specs.Prelude.{◌≡◌};
ghost use Rattle.scsi_types.specs.Found.{IsFoundBy};

use crate::found::found_by;

/// A service action of PERSISTENT RESERVE IN (SPC-4, 6.15.1), 0 to 3 in this order.
#[derive(Clone, Copy, Debug, PartialEq, Eq)]
pub enum PrInAction {
    ReadKeys,
    ReadReservation,
    ReportCapabilities,
    ReadFullStatus,
}

/// A service action of PERSISTENT RESERVE OUT (SPC-4, 6.16.2), 0 to 6 in this order.
#[derive(Clone, Copy, Debug, PartialEq, Eq)]
pub enum PrOutAction {
    Register,
    Reserve,
    Release,
    Clear,
    Preempt,
    PreemptAndAbort,
    RegisterAndIgnoreExistingKey,
}

impl PrInAction {
    ghost use Rattle.scsi_types.specs.Reservation.{in_code};

    // The action of a service action code.
    pub(crate) fn of(code: u8) -> Option<PrInAction>
        ensures { IsFoundBy (λ action. code ≡ in_code action) result }
    {
        found_by!(code, PrInAction: 0 = ReadKeys, 1 = ReadReservation, 2 = ReportCapabilities, 3 = ReadFullStatus)
    }
}

impl PrOutAction {
    ghost use Rattle.scsi_types.specs.Reservation.{out_code};

    // The action of a service action code.
    pub(crate) fn of(code: u8) -> Option<PrOutAction>
        ensures { IsFoundBy (λ action. code ≡ out_code action) result }
    {
        found_by!(
            code, PrOutAction: 0 = Register, 1 = Reserve, 2 = Release, 3 = Clear, 4 = Preempt, 5 = PreemptAndAbort,
            6 = RegisterAndIgnoreExistingKey
        )
    }
}
