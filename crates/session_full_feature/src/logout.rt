//! Logout (RFC 7143, 11.14 and 11.15).
ghost use Rattle.std.specs.Prelude.{◌≡◌, [], Some, None, if◌then◌else◌};
ghost use Rattle.session_rules.specs.declared.end.End.TheVariants.{LoggedOut};
ghost use Rattle.session_stream.specs.Pdus.{out_of};
ghost use Rattle.session_rules.specs.Logout.{closes, logout_answer};

use iscsi_pdu::{LogoutRequest, LogoutResponse, Numbers, TargetHeader};
use session_rules::End;
use session_stream::ResponsePdu;

/// Responses (RFC 7143, 11.15.1): the connection or the session is closed.
pub const CLOSED: u8 = 0;

/// Connection recovery is not supported.
pub const RECOVERY_NOT_SUPPORTED: u8 = 2;

/// Time2Wait and Time2Retain in seconds (RFC 7143, 11.15.3 and 11.15.4).
pub const TIME_TO_WAIT: u16 = 2;

pub const TIME_TO_RETAIN: u16 = 0;

/// The last reason that closes the session's connection: 0 closes the session, 1 the connection (RFC 7143, 11.14.1).
const CLOSE_THE_CONNECTION: u8 = 1;

/// The Logout Response with these numbers.
pub fn logout_response<'a>(numbers: Numbers, request: &LogoutRequest) -> ResponsePdu<'a>
    ensures pdu { out_of (Some result) ≡ logout_answer numbers request.now }
    ensures empty { result.bytes.now ≡ [] }
{
    let response = if request.reason <= CLOSE_THE_CONNECTION {
        CLOSED
    } else {
        RECOVERY_NOT_SUPPORTED
    };
    let header = TargetHeader::LogoutResponse(LogoutResponse {
        response,
        task_tag: request.task_tag,
        numbers,
        time_to_wait: TIME_TO_WAIT,
        time_to_retain: TIME_TO_RETAIN,
    });
    ResponsePdu { header, bytes: &[] }
}

/// The end that a logout calls for, if any.
pub fn logout_end(request: &LogoutRequest) -> Option<End>
    ensures { result ≡ (if closes request.now then Some LoggedOut else None) }
{
    if request.reason <= CLOSE_THE_CONNECTION {
        Some(End::LoggedOut)
    } else {
        None
    }
}
