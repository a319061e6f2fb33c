//! The faults, in their order.
use crate::ends::must;
use crate::pdus::rows::{is_waited_for, spelled};
use crate::run::{part, spells};
use iscsi_coding::decode;
use std::alloc::Global;
use std::process::Abort;
use std::test::*;

// A name, a figure and its fault. Each row has the faults behind its own too: its one byte of data is padded by 1, 0, 0.
fn rows() -> &'static str {
    "
opcode 07h; 07E10000 01010001 8*00 00000001 00000000 2*00000001 16*00 07010000; UnknownOpcode
SNACK; 10800000 01010001 8*00 00000001 00000000 2*00000001 16*00 07010000; UnknownOpcode
opcode 1Fh; 1F800000 12*00 00000001 00000000 2*00000001 16*00 07010000; UnknownOpcode
opcode 27h; 27800000 12*00 00000001 00000000 2*00000001 16*00 07010000; UnknownOpcode
opcode 30h; 30800000 12*00 00000001 00000000 2*00000001 16*00 07010000; UnknownOpcode
an Asynchronous Message; 32800000 12*00 00000001 00000000 2*00000001 16*00 07010000; UnknownOpcode
opcode 3Eh; 3E800000 12*00 00000001 00000000 2*00000001 16*00 07010000; UnknownOpcode
another segment; 01E10000 01010001 8*00 00000001 00000000 2*00000001 16*00 07010000; HasAhs
another segment of a target; 21810000 01010001 8*00 00000001 00000000 2*00000001 16*00 07010000; HasAhs
65537 bytes; 01E10000 00010001 8*00 00000001 00000000 2*00000001 16*00 07010000; TooLong
65537 bytes of a target; 21810000 00010001 8*00 00000001 00000000 2*00000001 16*00 07010000; TooLong
no F; 01410000 12*00 00000001 00000000 2*00000001 16*00 07010000; BadFlags
R and W; 01E10000 12*00 00000001 00000000 2*00000001 16*00 07010000; BadFlags
a NOP-In without its first bit; 20000000 00000001 8*00 00000001 00000000 3*00000001 12*00 07010000; BadReserved
an immediate SCSI Response; 61800000 00000001 8*00 00000001 00000000 3*00000001 12*00 07010000; BadReserved
a LUN in a SCSI Response; 21800000 00000001 00000000 00000100 00000001 00000000 3*00000001 12*00 07010000; BadReserved
a byte behind the response; 22800001 00000001 8*00 00000001 00000000 3*00000001 12*00 07010000; BadReserved
a version in a Login Response; 23870001 00000001 8*00 00000001 00000000 3*00000001 12*00 07010000; BadReserved
a Text Response that continues; 24C00000 00000001 8*00 00000001 00000000 3*00000001 12*00 07010000; BadReserved
a residual in a Data-In; 25800000 00000001 8*00 00000001 00000000 3*00000001 8*00 00000001 07010000; BadReserved
a number behind the times of a Logout Response; 26800000 00000001 8*00 00000001 00000000 3*00000001 8*00 00000001 07010000; BadReserved
an R2T with other flags; 31810000 00000001 8*00 00000001 00000000 3*00000001 8*00 00000001 07010000; BadReserved
a Reject's tag; 3F800900 00000001 8*00 FFFFFFFE 00000000 3*00000001 12*00 07010000; BadReserved
padding of a Reject; 3F800900 00000001 8*00 FFFFFFFF 00000000 3*00000001 12*00 07010000; NonZeroPad
"
}

// The whole, and of its fronts the shortest that has the fault and the one below it.
fn check(rt: &impl Abort, alloc: Global, row: &str) {
    let (name, fault) = (part(row, 0), part(row, 2));
    let bytes = spelled(rt, alloc, part(row, 1));
    expect_fault(rt, alloc, &bytes, fault, name);
    let needed: usize = match fault {
        "UnknownOpcode" => 1,
        "NonZeroPad" => 52,
        _ => 48,
    };
    let front = bytes.get(..needed).expect(rt, "the front is there");
    expect_fault(rt, alloc, front, fault, name);
    let less = bytes.get(..needed - 1).expect(rt, "less is there");
    must(rt, is_waited_for(less), name, &less.len());
}

// These bytes have this fault.
fn expect_fault(rt: &impl Abort, alloc: Global, bytes: &[u8], want: &str, name: &str) {
    let fault = decode(bytes).err().expect(rt, name);
    let is_right = spells(rt, alloc, &fault, want);
    must(rt, is_right, name, &(bytes.len(), fault));
}

#[test]
fn each_fault_is_found_first_and_in_time(rt: HostRuntime) {
    for row in rows().trim().split('\n') {
        check(&rt, rt.alloc(), row);
    }
}
