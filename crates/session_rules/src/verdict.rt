//! What becomes of a PDU that comes (RFC 7143, 4.2.2.1, 7.3 and 11.17).
ghost use Rattle.std.specs.Prelude.{◌≡◌};
ghost use Rattle.session_rules.specs.Verdict.{reason_of};

use iscsi_pdu::PduFault;

/// What becomes of a PDU that comes.
#[derive(Clone, Copy, PartialEq, Eq)]
pub enum Verdict {
    Accepted,
    /// An immediate SCSI Command, while another one waits for its data: the task set is full (SAM-5, 5.3.1).
    Full,
    /// Passed over: it lies outside the command window.
    Ignored,
    /// Out of order: commands before it are missing.
    Gap,
    /// Rejected for this reason.
    Refused(u8),
}

/// The Initiator Task Tag that no task has (RFC 7143, 11.2.1.8).
pub const RESERVED_TAG: u32 = 0xFFFF_FFFF;

/// Reasons of a Reject (RFC 7143, 11.17.1).
pub const PROTOCOL_ERROR: u8 = 0x04;

pub const COMMAND_NOT_SUPPORTED: u8 = 0x05;

pub const INVALID_PDU_FIELD: u8 = 0x09;

/// Why a fault is rejected that stands in place of a PDU.
pub fn reject_reason(fault: PduFault) -> u8
    ensures { result ≡ reason_of fault }
{
    match fault {
        PduFault::UnknownOpcode => COMMAND_NOT_SUPPORTED,
        PduFault::HasAhs
        | PduFault::TooLong
        | PduFault::BadFlags
        | PduFault::BadReserved
        | PduFault::NonZeroPad => INVALID_PDU_FIELD,
    }
}
