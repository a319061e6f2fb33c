//! How the rows of the tables are run.
use crate::ends::{fail, must};
use crate::run::put;
use iscsi_coding::{decode, encode};
use iscsi_pdu::{CommandNumbers, Header, MAX_DATA_SEGMENT_LENGTH, Numbers, Pdu};
use std::alloc::Global;
use std::process::Abort;
use std::test::*;
use test_connections::bytes_of;

/// A PDU as its figure shows it: the lines of four bytes of its header segment and of its data, spelled as in a row.
pub type Figure = &'static str;

/// The data of each row's PDU, which two bytes pad.
pub const DATA: [u8; 2] = [7, 8];

pub const LUN: [u8; 8] = [1, 2, 3, 4, 5, 6, 7, 8];

pub const ISID: [u8; 6] = [0x00, 0x02, 0x3D, 0x01, 0x02, 0x03];

pub const COMMAND_NUMBERS: CommandNumbers = CommandNumbers {
    cmd_sn: 0x21222324,
    exp_stat_sn: 0x31323334,
};

pub const NUMBERS: Numbers = Numbers {
    stat_sn: 0x21222324,
    exp_cmd_sn: 0x31323334,
    max_cmd_sn: 0x41424344,
};

/// The bytes of a figure.
pub fn spelled(rt: &impl Abort, alloc: Global, figure: &str) -> Vec<u8> {
    bytes_of(alloc, &[], figure).expect(rt, figure)
}

/// Appends a PDU.
pub fn put_pdu(rt: &impl Abort, out: &mut Vec<u8>, header: &Header, data: &[u8]) {
    assert!(rt; data.len() <= MAX_DATA_SEGMENT_LENGTH, "too much data");
    let pdu = Pdu {
        header: *header,
        data,
    };
    encode(&pdu, out).expect(rt, "memory");
}

/// Behind another byte, the header with the data is encoded as this figure, and that is decoded as it.
pub fn check(rt: &impl Abort, alloc: Global, name: &str, header: &Header, figure: &str) {
    let mut out = Vec::new(alloc);
    put(rt, &mut out, &[9]);
    put_pdu(rt, &mut out, header, &DATA);
    let want = spelled(rt, alloc, figure);
    must(rt, stands_behind_9(&out, &want), name, &out);
    expect_pdu(rt, alloc, name, &want, &want);
}

// Whether these bytes are 9, and those that are wanted.
fn stands_behind_9(bytes: &[u8], want: &[u8]) -> bool {
    match bytes {
        [9, rest @ ..] => rest == want,
        _ => false,
    }
}

/// The bytes of this figure are decoded as a PDU that is encoded as that one.
pub fn expect_decoded(rt: &impl Abort, alloc: Global, name: &str, figure: &str, want: &str) {
    let bytes = spelled(rt, alloc, figure);
    expect_pdu(rt, alloc, name, &bytes, &spelled(rt, alloc, want));
}

/// These bytes begin with a PDU that takes as many as are wanted, and is encoded as those. No other PDU is.
pub fn expect_pdu(rt: &impl Abort, alloc: Global, name: &str, bytes: &[u8], want: &[u8]) {
    match decode(bytes) {
        Ok(Some((pdu, size))) if size == want.len() => {
            let mut out = Vec::new(alloc);
            put_pdu(rt, &mut out, &pdu.header, pdu.data);
            must(rt, out.as_slice() == want, name, &"another PDU");
        }
        _ => fail(rt, name, &"a fault, no whole PDU, or another size"),
    }
}

/// Whether these bytes are the front of a PDU, and more are waited for.
pub fn is_waited_for(bytes: &[u8]) -> bool {
    matches!(decode(bytes), Ok(None))
}
