//! The SCSI Response of a command (RFC 7143, 11.4).
ghost use Rattle.std.specs.Prelude.{◌≡◌, None};
ghost use Rattle.session_rules.specs.Transfer.{transfer_of};
ghost use Rattle.session_full_feature.specs.AnswerPdus.{response_for};

use crate::actions::OpenTask;
use iscsi_pdu::{Numbers, ScsiResponse};
use scsi_types::{Reply, Sense, Status};
use session_tasks::{expected_data_length, residual};

/// The response code of each command (RFC 7143, 11.4.3): it was completed at the target, with a status.
pub const COMPLETED: u8 = 0x00;

/// What a SCSI Response tells of an answer.
#[derive(Clone, Copy)]
pub struct Completion {
    pub status: Status,
    pub sense: Option<Sense>,
}

impl Completion {
    /// What a reply tells.
    pub fn of(reply: &Reply) -> Completion
        ensures { result ≡ record { status = reply.now.status; sense = reply.now.sense } }
    {
        Completion {
            status: reply.status(),
            sense: reply.sense(),
        }
    }

    /// A status without sense.
    pub fn bare(status: Status) -> Completion
        ensures { result ≡ record { status = status; sense = None } }
    {
        Completion {
            status,
            sense: None,
        }
    }
}

/// The SCSI Response with these numbers, behind so many Data-In, where the target returned so many bytes.
pub fn scsi_response(
    numbers: Numbers,
    task: &OpenTask,
    returned: usize,
    data_ins: u32,
    completion: Completion,
) -> ScsiResponse
    ensures { result ≡ response_for numbers task.now.command
        (transfer_of task.now.command task.now.need returned) data_ins completion }
{
    let expected_length = u64::from(expected_data_length(&task.command));
    let transfer = if task.command.write {
        u64::from(task.need)
    } else {
        returned as u64
    };
    ScsiResponse {
        overflow: expected_length < transfer,
        underflow: transfer < expected_length,
        response: COMPLETED,
        status: completion.status.code(),
        task_tag: task.command.task_tag,
        numbers,
        exp_data_sn: data_ins,
        residual: residual(expected_length, transfer),
    }
}
