//! What the kind of a command alone decides.
ghost use Rattle.std.specs.Prelude.{◌≡◌};
ghost use Rattle.scsi_types.specs.Traits.{row, traits_of};

use crate::Op;

/// In which states of its target port group a command is served (SPC-4, 5.15.2.4).
#[derive(Clone, Copy)]
pub enum ServedIn {
    /// In active/optimized and active/non-optimized alone.
    Active,
    /// In standby too.
    Standby,
    /// In standby and in unavailable too.
    Unavailable,
}

/// How a command uses the medium, as reservations see it (SPC-4, 5.13.1).
#[derive(Clone, Copy, PartialEq, Eq)]
pub enum Access {
    /// It reads blocks.
    Read,
    /// It writes blocks, or changes what other sessions may do.
    Write,
    /// No reservation keeps it out.
    Other,
}

/// What the kind of a command alone decides, whatever its fields.
#[derive(Clone, Copy)]
pub struct Traits {
    pub served_in: ServedIn,
    /// Whether a pending unit attention condition lets it pass (SAM-5, 5.14).
    pub passes_attention: bool,
    pub access: Access,
}

fn row(served_in: ServedIn, passes_attention: bool, access: Access) -> Traits
    ensures { result ≡ row served_in passes_attention access }
{
    Traits {
        served_in,
        passes_attention,
        access,
    }
}

impl Op {
    /// What this kind of command decides.
    pub fn traits(self) -> Traits
        ensures { result ≡ traits_of self }
    {
        match self {
            Op::TestUnitReady => row(ServedIn::Active, false, Access::Other),
            Op::RequestSense => row(ServedIn::Unavailable, true, Access::Other),
            Op::Inquiry => row(ServedIn::Unavailable, true, Access::Other),
            Op::ModeSense => row(ServedIn::Standby, false, Access::Other),
            Op::ReadCapacity => row(ServedIn::Active, false, Access::Other),
            Op::Read => row(ServedIn::Active, false, Access::Read),
            Op::Write => row(ServedIn::Active, false, Access::Write),
            Op::CompareAndWrite => row(ServedIn::Active, false, Access::Write),
            Op::SynchronizeCache => row(ServedIn::Active, false, Access::Write),
            Op::PersistentReserveIn => row(ServedIn::Standby, false, Access::Other),
            Op::PersistentReserveOut => row(ServedIn::Standby, false, Access::Other),
            Op::ReportLuns => row(ServedIn::Unavailable, true, Access::Other),
            Op::ReportTargetPortGroups => row(ServedIn::Unavailable, false, Access::Other),
            Op::SetTargetPortGroups => row(ServedIn::Unavailable, false, Access::Write),
        }
    }
}
