//! NOP-Out and NOP-In (RFC 7143, 11.18 and 11.19).
ghost use Rattle.std.specs.Prelude.{◌≡◌, ◌≤◌, length, IfSome};
ghost use Rattle.session_stream.specs.Pdus.{out_of};
ghost use Rattle.session_rules.specs.Nop.{nop_answer};

use iscsi_pdu::{MAX_DATA_SEGMENT_LENGTH, NopIn, NopOut, Numbers, TargetHeader};
use session_rules::{Lengths, RESERVED_TAG};
use session_stream::{NO_TRANSFER_TAG, ResponsePdu};
use session_tasks::first_bytes;

/// The NOP-In that a NOP-Out asks for, with these numbers and its data, as much as the initiator takes; none where it has the
/// reserved tag.
pub fn nop_in<'a>(
    numbers: Numbers,
    lengths: Lengths,
    request: &NopOut,
    bytes: &'a [u8],
) -> Option<ResponsePdu<'a>>
    ensures pdu { out_of result ≡ nop_answer numbers lengths request.now bytes.now }
    ensures within { IfSome result (λ x. length x.bytes.now ≤ MAX_DATA_SEGMENT_LENGTH) }
{
    if request.task_tag == RESERVED_TAG {
        return None;
    }
    let most = lengths.data_segment.min(MAX_DATA_SEGMENT_LENGTH as u32);
    let header = TargetHeader::NopIn(NopIn {
        lun: request.lun,
        task_tag: request.task_tag,
        transfer_tag: NO_TRANSFER_TAG,
        numbers,
    });
    Some(ResponsePdu {
        header,
        bytes: first_bytes(bytes, most),
    })
}
