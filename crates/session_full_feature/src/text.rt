//! Text Requests (RFC 7143, 11.10 and 11.11).
ghost use Rattle.std.specs.Prelude.{◌≡◌};
ghost use Rattle.session_rules.specs.Setting.{discovers};
ghost use Rattle.session_rules.specs.Text.{is_part};

use iscsi_pdu::{Numbers, TargetHeader, TextRequest, TextResponse};
use login::SessionType;
use session_stream::{NO_TRANSFER_TAG, ResponsePdu};

/// What was made of the text of a Text Request: its answer, if it has one that the initiator takes.
#[derive(Clone, Copy)]
pub struct MadeText<'a> {
    pub is_made: bool,
    pub bytes: &'a [u8],
}

/// Whether a request goes on in another, or asks for more of an answer: each is to be whole.
pub fn is_part(request: &TextRequest) -> bool
    ensures { result ≡ is_part request.now }
{
    !request.last || request.continues || request.transfer_tag != NO_TRANSFER_TAG
}

/// Whether a session is a discovery session, which serves no command.
pub fn discovers(kind: SessionType) -> bool
    ensures { result ≡ discovers kind }
{
    match kind {
        SessionType::Normal => false,
        SessionType::Discovery => true,
    }
}

/// The Text Response with these numbers and this answer.
pub fn text_response<'a>(
    numbers: Numbers,
    request: &TextRequest,
    answer: &'a [u8],
) -> ResponsePdu<'a>
    ensures header { result.header ≡ TargetHeader.TextResponse (record {
      task_tag = request.now.task_tag;
      transfer_tag = NO_TRANSFER_TAG;
      numbers = numbers;
    }) }
    ensures bytes { result.bytes.now ≡ answer.now }
{
    let header = TargetHeader::TextResponse(TextResponse {
        task_tag: request.task_tag,
        transfer_tag: NO_TRANSFER_TAG,
        numbers,
    });
    ResponsePdu {
        header,
        bytes: answer,
    }
}
