//! PDUs without data, the longest PDU, and bytes that come one by one.
use crate::ends::must;
use crate::pdus::rows::{Figure, NUMBERS, expect_pdu, is_waited_for, put_pdu, spelled};
use iscsi_coding::decode;
use iscsi_pdu::{BHS_LENGTH, DataIn, Header, LONGEST_PDU, TargetHeader};
use std::test::*;

// TEST UNIT READY to LUN 0 with the tag 1, CmdSN 1 and ExpStatSN 1, and the first bytes of another PDU.
const TEST_UNIT_READY: Figure = "01810000 12*00 00000001 00000000 2*00000001 16*00 2A000000";

#[test]
fn a_pdu_is_waited_for(rt: HostRuntime) {
    let bytes = spelled(&rt, rt.alloc(), TEST_UNIT_READY);
    for n in 0..48 {
        let front = bytes.get(..n).expect(&rt, "the front is there");
        must(&rt, is_waited_for(front), "the first bytes", &n);
    }
    must(
        &rt,
        has_no_data(&bytes),
        "the whole",
        &"another PDU, or none",
    );
}

// These bytes begin with a PDU of 48 bytes, which has no data.
fn has_no_data(bytes: &[u8]) -> bool {
    matches!(decode(bytes), Ok(Some((pdu, 48))) if pdu.data.is_empty())
}

// The longest PDU: F, a data segment of 65536 bytes, LUN 0, the tag 3, no Target Transfer Tag, the numbers, DataSN and offset 0.
const LONGEST: Figure =
    "25800000 00010000 8*00 00000003 FFFFFFFF 21222324 31323334 41424344 12*00 65536*5A";

const LAST_DATA_IN: Header = Header::Target(TargetHeader::DataIn(DataIn {
    last: true,
    task_tag: 3,
    transfer_tag: 0xFFFFFFFF,
    numbers: NUMBERS,
    data_sn: 0,
    offset: 0,
}));

#[test]
fn the_longest_pdu(rt: HostRuntime) {
    let want = spelled(&rt, rt.alloc(), LONGEST);
    must(&rt, want.len() == LONGEST_PDU, "the bytes", &want.len());
    let data = want.get(BHS_LENGTH..).expect(&rt, "the data");
    let mut out = Vec::new(rt.alloc());
    put_pdu(&rt, &mut out, &LAST_DATA_IN, data);
    must(&rt, out == want, "encoded", &"other bytes");
    expect_pdu(&rt, rt.alloc(), "decoded", &want, &want);
}
