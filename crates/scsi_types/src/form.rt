//! The forms of command descriptor blocks.
ghost use Rattle.std.specs.Prelude.{◌≡◌};

use crate::Op;

/// The forms of CDBs that the array knows, each with its fields at places of its own: the commands of the
/// standards by their full names (SPC-4, 6.1; SBC-3, 5.1).
#[derive(Clone, Copy, PartialEq, Eq)]
pub enum CdbForm {
    TestUnitReady,
    RequestSense,
    Read6,
    Write6,
    Inquiry,
    ModeSense6,
    ReadCapacity10,
    Read10,
    Write10,
    SynchronizeCache10,
    ModeSense10,
    PersistentReserveIn,
    PersistentReserveOut,
    Read16,
    CompareAndWrite,
    Write16,
    SynchronizeCache16,
    ReadCapacity16,
    ReportLuns,
    ReportTargetPortGroups,
    SetTargetPortGroups,
}

const TEST_UNIT_READY: u8 = 0x00;

const REQUEST_SENSE: u8 = 0x03;

const READ_6: u8 = 0x08;

const WRITE_6: u8 = 0x0A;

const INQUIRY: u8 = 0x12;

const MODE_SENSE_6: u8 = 0x1A;

const READ_CAPACITY_10: u8 = 0x25;

const READ_10: u8 = 0x28;

const WRITE_10: u8 = 0x2A;

const SYNCHRONIZE_CACHE_10: u8 = 0x35;

const MODE_SENSE_10: u8 = 0x5A;

const PERSISTENT_RESERVE_IN: u8 = 0x5E;

const PERSISTENT_RESERVE_OUT: u8 = 0x5F;

const READ_16: u8 = 0x88;

const COMPARE_AND_WRITE: u8 = 0x89;

const WRITE_16: u8 = 0x8A;

const SYNCHRONIZE_CACHE_16: u8 = 0x91;

const REPORT_LUNS: u8 = 0xA0;

// Operation codes whose commands are told apart by their service action.
const SERVICE_ACTION_IN_16: u8 = 0x9E;

const MAINTENANCE_IN: u8 = 0xA3;

const MAINTENANCE_OUT: u8 = 0xA4;

const READ_CAPACITY_16: u8 = 0x10;

const REPORT_TARGET_PORT_GROUPS: u8 = 0x0A;

const SET_TARGET_PORT_GROUPS: u8 = 0x0A;

impl CdbForm {
    ghost use Rattle.scsi_types.specs.Form.{HasForm, op_of};
    ghost use Rattle.scsi_types.specs.Found.{IsFoundBy};

    /// The form of a CDB, by its operation code and, where several commands have that, its service action; none
    /// where the array knows no such command.
    pub fn of(cdb: &[u8; 16]) -> Option<CdbForm>
        ensures { IsFoundBy (HasForm cdb.now) result }
    {
        let service_action = cdb[1] % 32;
        match cdb[0] {
            TEST_UNIT_READY => Some(CdbForm::TestUnitReady),
            REQUEST_SENSE => Some(CdbForm::RequestSense),
            READ_6 => Some(CdbForm::Read6),
            WRITE_6 => Some(CdbForm::Write6),
            INQUIRY => Some(CdbForm::Inquiry),
            MODE_SENSE_6 => Some(CdbForm::ModeSense6),
            READ_CAPACITY_10 => Some(CdbForm::ReadCapacity10),
            READ_10 => Some(CdbForm::Read10),
            WRITE_10 => Some(CdbForm::Write10),
            SYNCHRONIZE_CACHE_10 => Some(CdbForm::SynchronizeCache10),
            MODE_SENSE_10 => Some(CdbForm::ModeSense10),
            PERSISTENT_RESERVE_IN => Some(CdbForm::PersistentReserveIn),
            PERSISTENT_RESERVE_OUT => Some(CdbForm::PersistentReserveOut),
            READ_16 => Some(CdbForm::Read16),
            COMPARE_AND_WRITE => Some(CdbForm::CompareAndWrite),
            WRITE_16 => Some(CdbForm::Write16),
            SYNCHRONIZE_CACHE_16 => Some(CdbForm::SynchronizeCache16),
            SERVICE_ACTION_IN_16 if service_action == READ_CAPACITY_16 => {
                Some(CdbForm::ReadCapacity16)
            }
            REPORT_LUNS => Some(CdbForm::ReportLuns),
            MAINTENANCE_IN if service_action == REPORT_TARGET_PORT_GROUPS => {
                Some(CdbForm::ReportTargetPortGroups)
            }
            MAINTENANCE_OUT if service_action == SET_TARGET_PORT_GROUPS => {
                Some(CdbForm::SetTargetPortGroups)
            }
            _ => None,
        }
    }

    /// The kind of command that has this form.
    pub fn op(self) -> Op
        ensures { result ≡ op_of self }
    {
        match self {
            CdbForm::TestUnitReady => Op::TestUnitReady,
            CdbForm::RequestSense => Op::RequestSense,
            CdbForm::Inquiry => Op::Inquiry,
            CdbForm::ModeSense6 | CdbForm::ModeSense10 => Op::ModeSense,
            CdbForm::ReadCapacity10 | CdbForm::ReadCapacity16 => Op::ReadCapacity,
            CdbForm::Read6 | CdbForm::Read10 | CdbForm::Read16 => Op::Read,
            CdbForm::Write6 | CdbForm::Write10 | CdbForm::Write16 => Op::Write,
            CdbForm::CompareAndWrite => Op::CompareAndWrite,
            CdbForm::SynchronizeCache10 | CdbForm::SynchronizeCache16 => Op::SynchronizeCache,
            CdbForm::PersistentReserveIn => Op::PersistentReserveIn,
            CdbForm::PersistentReserveOut => Op::PersistentReserveOut,
            CdbForm::ReportLuns => Op::ReportLuns,
            CdbForm::ReportTargetPortGroups => Op::ReportTargetPortGroups,
            CdbForm::SetTargetPortGroups => Op::SetTargetPortGroups,
        }
    }
}
