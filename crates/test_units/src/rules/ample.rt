//! Calls that may want memory, each with enough of it. More of what a unit says of itself stands in `identities.rt` and
//! `access.rt`.
use crate::ends::must;
use access_states::AccessMap;
use identity::{
    absent, inquiry, mode_sense, read_capacity_10, read_capacity_16, report_luns, request_sense,
};
use scsi_types::{
    Group, InquiryPage, LunSelect, ModeHeader, ModePage, NoMemory, PageControl, Place, Reply,
    Status, UnitAttention, decode,
};
use std::alloc::Global;
use std::process::Abort;
use test_connections::{bytes_of, lines_of};
use test_scripts::cdb_of;

/// The last of eight units.
const PLACE: Place = Place {
    unit: 7,
    units: 8,
    array: 0xFEDC_BA98,
};

// What a unit says of itself: of what, and the bytes.
fn told() -> &'static str {
    r#"
serial; 00 80 00 0A "fedcba9807"
names; 00 83 00 1C 01 03 00 08 30 00 FEDCBA98 00 07 51 94 00 04 00 00 00 01 51 95 00 04 00 00 00 01
mode pages; 001A 00 10 0000 0000 08 12
units; 00000040 13*00 01 7*00 02
capacity; FFFFFFFE 00000200
capacity of 16 bytes; 00000000 FFFFFFFE 00000200 20*00
sense; 70 00 06 4*00 0A 4*00 2A 05 4*00
access states; 00000018 01 0F 0001 00 00 00 01 00000001 80 0F 0002 00 00 00 01 00000002
"#
}

fn said(alloc: Global, of: &str) -> Result<Vec<u8>, NoMemory> {
    match of {
        "serial" => inquiry(alloc, PLACE, Group::Two, InquiryPage::UnitSerialNumber, 255),
        "names" => inquiry(
            alloc,
            PLACE,
            Group::One,
            InquiryPage::DeviceIdentification,
            255,
        ),
        "mode pages" => {
            let (control, page) = (PageControl::Default, ModePage::Caching);
            mode_sense(alloc, ModeHeader::Ten, control, page, 10)
        }
        "units" => report_luns(alloc, PLACE, LunSelect::Units, 26),
        "capacity" => read_capacity_10(alloc, 0xFFFF_FFFF),
        "capacity of 16 bytes" => read_capacity_16(alloc, 0xFFFF_FFFF, 255),
        "sense" => request_sense(alloc, Some(UnitAttention::RegistrationsPreempted), 255),
        "access states" => AccessMap::opening(Group::Two).report(alloc, Group::Two, 28),
        _ => Err(NoMemory),
    }
}

// It says what a row has.
fn says(rt: &impl Abort, alloc: Global, row: &str) {
    let (of, bytes) = row.split_once(';').expect(rt, row);
    let data = said(alloc, of).expect(rt, row);
    let want = bytes_of(alloc, &[], bytes).expect(rt, row);
    must(rt, data == want, row, &data);
}

// CDBs for a unit that is not there, and the data, or the sense.
fn rows() -> &'static str {
    r#"
12 00 00 0001 00; 7F
12 00 00 00FF 00; 7F 00 06 12 1F 30 10 02 "TWINCTL ALUA DISK       0001"
03 00 0000 FC 00; 70 00 05 4*00 0A 4*00 25 00 4*00
03 00 0000 00 00;
# A page of vital product data, an unknown one, and descriptor format.
12 01 00 00FF 00; CHECK 70 00 05 4*00 0A 4*00 24 00 4*00
12 01 81 00FF 00; CHECK 70 00 05 4*00 0A 4*00 24 00 4*00
03 01 0000 FC 00; CHECK 70 00 05 4*00 0A 4*00 24 00 4*00
# REPORT LUNS, TEST UNIT READY, a READ with a bad field, and an unknown operation code.
A0 00 00 000000 000000FF 00 00; CHECK 70 00 05 4*00 0A 4*00 25 00 4*00
00 00 000000 00; CHECK 70 00 05 4*00 0A 4*00 25 00 4*00
28 00 00000000 00 0801 00; CHECK 70 00 05 4*00 0A 4*00 25 00 4*00
04 00 000000 00; CHECK 70 00 05 4*00 0A 4*00 25 00 4*00
"#
}

// Whether a reply has these bytes of data, or of sense behind CHECK.
fn has(rt: &impl Abort, alloc: Global, reply: &Reply, want: &str) -> bool {
    let (refused, digits) = match want.strip_prefix("CHECK ") {
        None => (false, want),
        Some(digits) => (true, digits),
    };
    let bytes = bytes_of(alloc, &[], digits).expect(rt, want);
    match reply.sense() {
        None => !refused && reply.status() == Status::Good && reply.bytes() == bytes.as_slice(),
        Some(sense) => refused
            && sense.to_bytes().as_slice() == bytes.as_slice()
            && reply.bytes().is_empty(),
    }
}

// A unit that is not there answers as a row says.
fn answers(rt: &impl Abort, alloc: Global, row: &str) {
    let (digits, want) = row.split_once(';').expect(rt, row);
    let cdb = cdb_of(alloc, digits, 0xEE).expect(rt, digits);
    let reply = absent(alloc, &decode(&cdb)).expect(rt, row);
    let is_right = has(rt, alloc, &reply, want.trim());
    must(rt, is_right, row, &reply);
}

#[test]
fn what_a_unit_says_of_itself_and_one_that_is_not_there(rt: HostRuntime) {
    let told = lines_of(rt.alloc(), told()).expect(&rt, "memory");
    let rows = lines_of(rt.alloc(), rows()).expect(&rt, "memory");
    let are_rows = !told.is_empty() && !rows.is_empty();
    must(&rt, are_rows, "identity", &"tables have rows");
    for row in &told {
        says(&rt, rt.alloc(), row);
    }
    for row in &rows {
        answers(&rt, rt.alloc(), row);
    }
}
