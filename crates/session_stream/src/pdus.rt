//! The PDUs that go out.

use iscsi_pdu::{DataIn, Numbers, R2t, Reject, ScsiResponse, TargetHeader};
use scsi_types::Sense;
use session_rules::Lengths;

/// PDUs to write, in order.
#[derive(Clone, Copy)]
pub enum Pdus<'a> {
    /// None.
    Nothing,
    /// A Reject, whose data is the basic header segment of what is rejected (RFC 7143, 11.17).
    Reject(Reject),
    /// The next R2T of a write (RFC 7143, 11.8).
    R2t(R2t),
    /// The answer to a request that is no SCSI Command.
    Response(ResponsePdu<'a>),
    /// The data of an answer, where it has any, and its SCSI Response with its sense (RFC 7143, 11.4 and 11.7).
    Answer {
        data_ins: DataIns<'a>,
        response: ScsiResponse,
        sense: Option<Sense>,
    },
}

/// The one PDU that answers a request, with its data, of at most 65536 bytes.
#[derive(Clone, Copy)]
pub struct ResponsePdu<'a> {
    pub header: TargetHeader,
    pub bytes: &'a [u8],
}

/// The Data-In of a read: its data, which goes out in runs of MaxBurstLength, each cut into Data-In as long as the
/// initiator takes (RFC 7143, 11.7). There are none where there is no data.
#[derive(Clone, Copy)]
pub struct DataIns<'a> {
    pub task_tag: u32,
    /// The numbers of each.
    pub numbers: Numbers,
    pub lengths: Lengths,
    /// The data: less than 4 GiB, as offsets have 32 bits.
    pub bytes: &'a [u8],
}

/// A Data-In with its data, of 1 to 65536 bytes (RFC 7143, 11.7).
#[derive(Clone, Copy)]
pub struct DataInPdu<'a> {
    pub header: DataIn,
    pub bytes: &'a [u8],
}
