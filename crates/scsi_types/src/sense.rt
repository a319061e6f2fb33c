//! Sense data.
ghost use Rattle.std.specs.Prelude.{◌≡◌};

use byteorder::{BigEndian, ByteOrder};

/// Sense data in its fixed format (SPC-4, 4.5.3).
#[derive(Clone, Copy, Debug, PartialEq, Eq)]
pub struct Sense {
    /// The INFORMATION field holds what the standard says for this sense.
    pub valid: bool,
    /// The sense key, 0 to 15 (SPC-4, 4.5.6).
    pub key: u8,
    /// The INFORMATION field, 0 without VALID.
    pub information: u32,
    /// The additional sense code.
    pub asc: u8,
    /// The additional sense code qualifier.
    pub ascq: u8,
}

// Sense with no information: its key, ASC and ASCQ.
macro_rules! coded {
    ($key:literal, $asc:literal, $ascq:literal) => {
        Sense {
            valid: false,
            key: $key,
            information: 0,
            asc: $asc,
            ascq: $ascq,
        }
    };
}

/// The sense that this array tells, by the names of its keys and additional sense codes (SPC-4, 4.5.6).
impl Sense {
    /// NO SENSE: there is nothing to tell.
    pub const NO_SENSE: Sense = coded!(0x00, 0x00, 0x00);

    /// NOT READY: LOGICAL UNIT NOT ACCESSIBLE, TARGET PORT IN STANDBY STATE.
    pub const TARGET_PORT_IN_STANDBY_STATE: Sense = coded!(0x02, 0x04, 0x0B);

    /// NOT READY: LOGICAL UNIT NOT ACCESSIBLE, TARGET PORT IN UNAVAILABLE STATE.
    pub const TARGET_PORT_IN_UNAVAILABLE_STATE: Sense = coded!(0x02, 0x04, 0x0C);

    /// MEDIUM ERROR: WRITE ERROR.
    pub const WRITE_ERROR: Sense = coded!(0x03, 0x0C, 0x00);

    /// MEDIUM ERROR: UNRECOVERED READ ERROR.
    pub const UNRECOVERED_READ_ERROR: Sense = coded!(0x03, 0x11, 0x00);

    /// HARDWARE ERROR: INTERNAL TARGET FAILURE.
    pub const INTERNAL_TARGET_FAILURE: Sense = coded!(0x04, 0x44, 0x00);

    /// HARDWARE ERROR: SET TARGET PORT GROUPS COMMAND FAILED.
    pub const SET_TARGET_PORT_GROUPS_COMMAND_FAILED: Sense = coded!(0x04, 0x67, 0x0A);

    /// ILLEGAL REQUEST: PARAMETER LIST LENGTH ERROR.
    pub const PARAMETER_LIST_LENGTH_ERROR: Sense = coded!(0x05, 0x1A, 0x00);

    /// ILLEGAL REQUEST: INVALID COMMAND OPERATION CODE.
    pub const INVALID_OPCODE: Sense = coded!(0x05, 0x20, 0x00);

    /// ILLEGAL REQUEST: LOGICAL BLOCK ADDRESS OUT OF RANGE.
    pub const LBA_OUT_OF_RANGE: Sense = coded!(0x05, 0x21, 0x00);

    /// ILLEGAL REQUEST: INVALID FIELD IN CDB.
    pub const INVALID_FIELD_IN_CDB: Sense = coded!(0x05, 0x24, 0x00);

    /// ILLEGAL REQUEST: LOGICAL UNIT NOT SUPPORTED.
    pub const LOGICAL_UNIT_NOT_SUPPORTED: Sense = coded!(0x05, 0x25, 0x00);

    /// ILLEGAL REQUEST: INVALID FIELD IN PARAMETER LIST.
    pub const INVALID_FIELD_IN_PARAMETER_LIST: Sense = coded!(0x05, 0x26, 0x00);

    /// ILLEGAL REQUEST: INVALID RELEASE OF PERSISTENT RESERVATION.
    pub const INVALID_RELEASE_OF_PERSISTENT_RESERVATION: Sense = coded!(0x05, 0x26, 0x04);

    /// ILLEGAL REQUEST: SAVING PARAMETERS NOT SUPPORTED.
    pub const SAVING_PARAMETERS_NOT_SUPPORTED: Sense = coded!(0x05, 0x39, 0x00);

    /// ILLEGAL REQUEST: INSUFFICIENT REGISTRATION RESOURCES.
    pub const INSUFFICIENT_REGISTRATION_RESOURCES: Sense = coded!(0x05, 0x55, 0x04);

    /// UNIT ATTENTION: POWER ON, RESET, OR BUS DEVICE RESET OCCURRED.
    pub const POWER_ON: Sense = coded!(0x06, 0x29, 0x00);

    /// UNIT ATTENTION: RESERVATIONS PREEMPTED.
    pub const RESERVATIONS_PREEMPTED: Sense = coded!(0x06, 0x2A, 0x03);

    /// UNIT ATTENTION: RESERVATIONS RELEASED.
    pub const RESERVATIONS_RELEASED: Sense = coded!(0x06, 0x2A, 0x04);

    /// UNIT ATTENTION: REGISTRATIONS PREEMPTED.
    pub const REGISTRATIONS_PREEMPTED: Sense = coded!(0x06, 0x2A, 0x05);

    /// UNIT ATTENTION: ASYMMETRIC ACCESS STATE CHANGED.
    pub const ACCESS_STATE_CHANGED: Sense = coded!(0x06, 0x2A, 0x06);
}

impl Sense {
    ghost use Rattle.scsi_types.specs.Sense.{sense, miscompare, sense_bytes};

    /// Sense with no information.
    pub fn new(key: u8, asc: u8, ascq: u8) -> Self
        ensures { result ≡ sense key asc ascq }
    {
        Sense {
            valid: false,
            key,
            information: 0,
            asc,
            ascq,
        }
    }

    /// MISCOMPARE: MISCOMPARE DURING VERIFY OPERATION, whose INFORMATION is the offset in bytes of the first
    /// difference (SBC-3, COMPARE AND WRITE command).
    pub fn miscompare(offset: u32) -> Self
        ensures { result ≡ miscompare offset }
    {
        Sense {
            valid: true,
            key: 0x0E,
            information: offset,
            asc: 0x1D,
            ascq: 0x00,
        }
    }

    /// The 18 bytes of the fixed format, as a current error.
    pub fn to_bytes(&self) -> [u8; 18]
        ensures { result ≡ sense_bytes self.now }
    {
        let mut bytes = [0; 18];
        bytes[0] = if self.valid { 0xF0 } else { 0x70 };
        bytes[2] = self.key;
        BigEndian::write_u32(&mut bytes[3..7], self.information);
        bytes[7] = 0x0A;
        bytes[12] = self.asc;
        bytes[13] = self.ascq;
        bytes
    }
}
