//! The Data-In of a read (RFC 7143, 11.7).
ghost use Rattle.std.specs.Prelude.{◌≡◌, ◌+◌, ◌<◌, ◌≤◌, length};
ghost use Rattle.session_rules.specs.DataIn.{left_of_run, segment_size};
ghost use Rattle.session_stream.specs.Pdus.{data_ins_of, data_in_at, data_in_out};

use crate::pdus::{DataInPdu, DataIns};
use iscsi_pdu::{DataIn, MAX_DATA_SEGMENT_LENGTH};
use session_rules::Lengths;

/// The Target Transfer Tag of a Data-In that asks for no acknowledgement (RFC 7143, 11.7.4).
pub const NO_TRANSFER_TAG: u32 = 0xFFFF_FFFF;

// What is left behind this offset of its run of MaxBurstLength, and of so many bytes.
fn what_is_left(lengths: Lengths, offset: u32, total: u32) -> u32
    requires { offset < total }
    ensures left { result ≡ left_of_run lengths offset total }
    ensures some { 0 < result }
    ensures within { offset + result ≤ total }
{
    (lengths.burst - offset % lengths.burst).min(total - offset)
}

/// The Data-In at this offset, with this DataSN.
pub fn segment_at<'a>(data_ins: &DataIns<'a>, data_sn: u32, offset: u32) -> DataInPdu<'a>
    requires reach { length data_ins.now.bytes.now ≤ 4294967295 }
    requires more { offset < length data_ins.now.bytes.now }
    ensures pdu { data_in_out result ≡ data_in_at data_ins.now.numbers data_ins.now.task_tag data_ins.now.lengths
        data_sn offset data_ins.now.bytes.now }
    ensures size { length result.bytes.now
        ≡ segment_size data_ins.now.lengths offset (length data_ins.now.bytes.now) }
    ensures some { 0 < length result.bytes.now }
    ensures within { offset + length result.bytes.now ≤ length data_ins.now.bytes.now }
    ensures short { length result.bytes.now ≤ MAX_DATA_SEGMENT_LENGTH }
{
    let left = what_is_left(data_ins.lengths, offset, data_ins.bytes.len() as u32);
    let size = left
        .min(data_ins.lengths.data_segment)
        .min(MAX_DATA_SEGMENT_LENGTH as u32);
    let header = DataIn {
        last: size == left,
        task_tag: data_ins.task_tag,
        transfer_tag: NO_TRANSFER_TAG,
        numbers: data_ins.numbers,
        data_sn,
        offset,
    };
    let start = offset as usize;
    DataInPdu {
        header,
        bytes: &data_ins.bytes[start..start + size as usize],
    }
}

/// How many Data-In there are.
pub fn count(data_ins: &DataIns<'_>) -> u32
    requires reach { length data_ins.now.bytes.now ≤ 4294967295 }
    ensures { result ≡ length (data_ins_of data_ins.now) }
{
    let mut data_sn = 0;
    let mut offset = 0;
    while (offset as usize) < data_ins.bytes.len() {
        let pdu = segment_at(data_ins, data_sn, offset);
        offset += pdu.bytes.len() as u32;
        data_sn += 1;
    }
    data_sn
}
