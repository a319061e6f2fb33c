//! The response to a request for task management (RFC 7143, 11.6).
ghost use Rattle.std.specs.Prelude.{◌≡◌, [], IfSome};
ghost use Rattle.session_stream.specs.Pdus.{out_of};
ghost use Rattle.session_rules.specs.Legal.{end_by_reset};
ghost use Rattle.session_rules.specs.TaskManagement.{management_answer, reset_response};

use iscsi_pdu::{Numbers, TargetHeader, TaskManagementRequest, TaskManagementResponse};
use session_rules::{End, ResetAnswer};
use session_stream::ResponsePdu;
use session_tasks::{FUNCTION_COMPLETE, FUNCTION_REJECTED};

/// The response that tells of a reset; none where the session is gone.
pub fn reset_response(answer: ResetAnswer) -> Option<u8>
    ensures { result ≡ reset_response answer }
{
    match answer {
        ResetAnswer::Done => Some(FUNCTION_COMPLETE),
        ResetAnswer::Gone => None,
        ResetAnswer::Failed => Some(FUNCTION_REJECTED),
    }
}

/// The end that a reset calls for, if any.
pub fn reset_end(answer: ResetAnswer) -> Option<End>
    ensures { result ≡ end_by_reset answer }
{
    match answer {
        ResetAnswer::Gone => Some(End::Reinstated),
        ResetAnswer::Done | ResetAnswer::Failed => None,
    }
}

/// The Task Management Function Response with these numbers, if there is one.
pub fn management_response<'a>(
    numbers: Numbers,
    request: &TaskManagementRequest,
    response: Option<u8>,
) -> Option<ResponsePdu<'a>>
    ensures pdu { out_of result ≡ management_answer numbers request.now response }
    ensures empty { IfSome result (λ x. x.bytes.now ≡ []) }
{
    let header = TargetHeader::TaskManagementResponse(TaskManagementResponse {
        response: response?,
        task_tag: request.task_tag,
        numbers,
    });
    Some(ResponsePdu { header, bytes: &[] })
}
