//! Commands.
ghost use Rattle.std.specs.Prelude.{◌≡◌, Ok};
ghost use Rattle.scsi_types.specs.Cdb.{is_group_list, need_of};

use crate::{InquiryPage, LunSelect, ModeHeader, ModePage, PageControl, PrInAction, PrOutAction};
use thiserror::Error;

/// A command by its kind, whatever the form of its CDB.
#[derive(Clone, Copy, Debug, PartialEq, Eq)]
pub enum Op {
    /// TEST UNIT READY (SPC-4, 6.47).
    TestUnitReady,
    /// REQUEST SENSE (SPC-4, 6.39).
    RequestSense,
    /// INQUIRY (SPC-4, 6.6).
    Inquiry,
    /// MODE SENSE (6) and (10) (SPC-4, 6.13 and 6.14).
    ModeSense,
    /// READ CAPACITY (10) and (16) (SBC-3, READ CAPACITY commands).
    ReadCapacity,
    /// READ (6), (10) and (16) (SBC-3, READ commands).
    Read,
    /// WRITE (6), (10) and (16) (SBC-3, WRITE commands).
    Write,
    /// COMPARE AND WRITE (SBC-3, 5.2).
    CompareAndWrite,
    /// SYNCHRONIZE CACHE (10) and (16) (SBC-3, SYNCHRONIZE CACHE commands).
    SynchronizeCache,
    /// PERSISTENT RESERVE IN (SPC-4, 6.15).
    PersistentReserveIn,
    /// PERSISTENT RESERVE OUT (SPC-4, 6.16).
    PersistentReserveOut,
    /// REPORT LUNS (SPC-4, 6.33).
    ReportLuns,
    /// REPORT TARGET PORT GROUPS (SPC-4, 6.37).
    ReportTargetPortGroups,
    /// SET TARGET PORT GROUPS (SPC-4, 6.45).
    SetTargetPortGroups,
}

/// A command that a CDB asks for. `allocation` is the ALLOCATION LENGTH, the most bytes of data that are to be
/// returned (SPC-4, 4.2.5.6). In what [`decode`](crate::decode) gives, a READ or a WRITE has at most 2048 `blocks`,
/// and a COMPARE AND WRITE at most 32.
#[derive(Clone, Copy, Debug, PartialEq, Eq)]
pub enum Command {
    /// TEST UNIT READY (SPC-4, 6.47).
    TestUnitReady,
    /// REQUEST SENSE (SPC-4, 6.39) in fixed format.
    RequestSense {
        allocation: u8,
    },
    /// INQUIRY (SPC-4, 6.6).
    Inquiry {
        page: InquiryPage,
        allocation: u16,
    },
    /// MODE SENSE (6) and (10) (SPC-4, 6.13 and 6.14).
    ModeSense {
        header: ModeHeader,
        control: PageControl,
        page: ModePage,
        allocation: u16,
    },
    /// READ CAPACITY (10) (SBC-3, READ CAPACITY (10) command).
    ReadCapacity10,
    /// READ CAPACITY (16) (SBC-3, READ CAPACITY (16) command).
    ReadCapacity16 {
        allocation: u32,
    },
    /// READ (SBC-3, READ (10) command); `fua`: from the medium, past every cache.
    Read {
        lba: u64,
        blocks: u16,
        fua: bool,
    },
    /// WRITE (SBC-3, WRITE (10) command); `fua`: onto the medium, before the answer.
    Write {
        lba: u64,
        blocks: u16,
        fua: bool,
    },
    /// COMPARE AND WRITE (SBC-3, 5.2): so many `blocks` to compare, and as many to write.
    CompareAndWrite {
        lba: u64,
        blocks: u16,
        fua: bool,
    },
    /// SYNCHRONIZE CACHE (SBC-3, SYNCHRONIZE CACHE (10) command); 0 `blocks` go to the end.
    SynchronizeCache {
        lba: u64,
        blocks: u32,
    },
    /// PERSISTENT RESERVE IN (SPC-4, 6.15).
    PersistentReserveIn {
        action: PrInAction,
        allocation: u16,
    },
    /// PERSISTENT RESERVE OUT (SPC-4, 6.16): SCOPE, TYPE (`kind`) and PARAMETER LIST LENGTH in bytes.
    PersistentReserveOut {
        action: PrOutAction,
        scope: u8,
        kind: u8,
        list_length: u32,
    },
    /// REPORT LUNS (SPC-4, 6.33).
    ReportLuns {
        select: LunSelect,
        allocation: u32,
    },
    /// REPORT TARGET PORT GROUPS (SPC-4, 6.37).
    ReportTargetPortGroups {
        allocation: u32,
    },
    /// SET TARGET PORT GROUPS (SPC-4, 6.45): PARAMETER LIST LENGTH in bytes.
    SetTargetPortGroups {
        list_length: u32,
    },
}

/// Why a CDB asks for no command.
#[derive(Clone, Copy, Debug, PartialEq, Eq, Error)]
pub enum CdbFault {
    /// No command of this array has the operation code, or the operation code with the service action.
    #[error("unknown operation code")]
    UnknownOpcode,
    /// A field of this command has a value that the array does not take.
    #[error("invalid field in the CDB")]
    BadField(Op),
}

/// What a CDB asks for, or why it asks for nothing.
pub type Asked = Result<Command, CdbFault>;

/// The bytes of the parameter list of PERSISTENT RESERVE OUT (SPC-4, 6.16.3).
const RESERVE_LIST: u32 = 24;

/// The most bytes of the parameter list of SET TARGET PORT GROUPS that are taken.
const MOST_GROUP_LIST: u32 = 260;

/// Whether the parameter list of SET TARGET PORT GROUPS may have so many bytes: a multiple of 4 up to 260.
pub fn is_group_list(list_length: u32) -> bool
    ensures { result ≡ is_group_list list_length }
{
    list_length % 4 == 0 && list_length <= MOST_GROUP_LIST
}

/// How many bytes of data the command needs from its initiator: 512 for each block that a WRITE writes, 1024 for
/// each block that a COMPARE AND WRITE compares and writes, and the parameter list, where its length is one that
/// the command may have: 24 bytes for PERSISTENT RESERVE OUT, multiples of 4 up to 260 for SET TARGET PORT GROUPS.
pub fn need(command: &Command) -> u32
    ensures { result ≡ need_of (Ok command.now) }
{
    match command {
        Command::Write { blocks, .. } => 512 * u32::from(*blocks),
        Command::CompareAndWrite { blocks, .. } => 1024 * u32::from(*blocks),
        Command::PersistentReserveOut { list_length, .. } if *list_length == RESERVE_LIST => {
            RESERVE_LIST
        }
        Command::SetTargetPortGroups { list_length } if is_group_list(*list_length) => *list_length,
        _ => 0,
    }
}
