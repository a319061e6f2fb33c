//! Task management (RFC 7143, 11.5 and 11.6).
ghost use Rattle.std.specs.Prelude.{◌≡◌, false};
ghost use Rattle.session_rules.specs.Drops.{is_same_unit, drops};
ghost use Rattle.session_rules.specs.TaskManagement.{there, management_of, IsManagement};

use crate::collecting::WaitingCommands;
use iscsi_pdu::{ScsiCommand, TaskManagementRequest};
use scsi_types::Lun;
use session_rules::{ManagementOutcome, TaskFunction};

/// Responses (RFC 7143, 11.6.1).
pub const FUNCTION_COMPLETE: u8 = 0;

pub const TASK_DOES_NOT_EXIST: u8 = 1;

pub const LUN_DOES_NOT_EXIST: u8 = 2;

pub const REASSIGNMENT_NOT_SUPPORTED: u8 = 4;

pub const FUNCTION_NOT_SUPPORTED: u8 = 5;

pub const FUNCTION_REJECTED: u8 = 255;

/// What a request comes to, where there are so many units. The commands that it drops wait for their data no more.
pub fn management_for(
    request: &TaskManagementRequest,
    units: u16,
    waiting: &mut WaitingCommands,
) -> ManagementOutcome
    ensures { IsManagement units waiting.old request.now result waiting.new }
{
    let unit = there(units, Lun::parse(&request.lun));
    let dropped = unit.is_some() && waiting.drop_by(request);
    managed(TaskFunction::of(request.function), dropped, unit)
}

/// Whether a request drops a command that waits for its data, where its unit is there.
pub fn drops(request: &TaskManagementRequest, command: &ScsiCommand) -> bool
    ensures { result ≡ drops request.now command.now }
{
    match TaskFunction::of(request.function) {
        TaskFunction::AbortTask => request.referenced_tag == command.task_tag,
        TaskFunction::AbortTaskSet | TaskFunction::LogicalUnitReset => {
            is_same_unit(&request.lun, &command.lun)
        }
        TaskFunction::TaskReassign | TaskFunction::Other => false,
    }
}

// Whether the second LUN names the unit that the first one names.
fn is_same_unit(named: &[u8; 8], other: &[u8; 8]) -> bool
    ensures { result ≡ is_same_unit named.now other.now }
{
    match other[0] {
        0x00 | 0x40 => named[1..] == other[1..],
        _ => false,
    }
}

// The unit, where it is one of so many.
fn there(units: u16, unit: Option<u8>) -> Option<u8>
    ensures { result ≡ there units unit }
{
    match unit {
        Some(unit) if u16::from(unit) < units => Some(unit),
        _ => None,
    }
}

// What a function comes to on a unit, where that is there.
fn managed(function: TaskFunction, dropped: bool, unit: Option<u8>) -> ManagementOutcome
    ensures { result ≡ management_of function dropped unit }
{
    match (function, unit) {
        (TaskFunction::TaskReassign, _) => ManagementOutcome::Respond(REASSIGNMENT_NOT_SUPPORTED),
        (TaskFunction::Other, _) => ManagementOutcome::Respond(FUNCTION_NOT_SUPPORTED),
        (
            TaskFunction::AbortTask | TaskFunction::AbortTaskSet | TaskFunction::LogicalUnitReset,
            None,
        ) => ManagementOutcome::Respond(LUN_DOES_NOT_EXIST),
        (TaskFunction::AbortTask, Some(_)) => ManagementOutcome::Respond(if dropped {
            FUNCTION_COMPLETE
        } else {
            TASK_DOES_NOT_EXIST
        }),
        (TaskFunction::AbortTaskSet, Some(_)) => ManagementOutcome::Respond(FUNCTION_COMPLETE),
        (TaskFunction::LogicalUnitReset, Some(unit)) => ManagementOutcome::Reset(unit),
    }
}
