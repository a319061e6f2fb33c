//! Each of an initiator's PDUs.
use crate::pdus::rows::{COMMAND_NUMBERS, Figure, ISID, LUN, check, expect_decoded};
use iscsi_pdu::{
    DataOut, Header, InitiatorHeader, LoginRequest, LogoutRequest, NopOut, ScsiCommand,
    TaskManagementRequest, TextRequest,
};
use std::test::*;

/// A header, its plainest figure, and one with other values in the reserved bits.
struct Row {
    name: &'static str,
    header: InitiatorHeader,
    plain: Figure,
    reserved: Figure,
}

fn rows() -> &'static [Row] {
    &[
        Row {
            name: "NOP-Out",
            header: InitiatorHeader::NopOut(NopOut {
                immediate: true,
                lun: LUN,
                task_tag: 0x0A0B0C0D,
                transfer_tag: 0x1A1B1C1D,
                numbers: COMMAND_NUMBERS,
            }),
            plain: "40800000 00000002 01020304 05060708 0A0B0C0D 1A1B1C1D 21222324 31323334 16*00 07080000",
            reserved: "C07FAABB 00000002 01020304 05060708 0A0B0C0D 1A1B1C1D 21222324 31323334 4*DEADBEEF 0708EEFF",
        },
        Row {
            name: "a SCSI Command that reads",
            header: InitiatorHeader::ScsiCommand(ScsiCommand {
                immediate: false,
                read: true,
                write: false,
                attribute: 5,
                lun: LUN,
                task_tag: 0x0A0B0C0D,
                expected_length: 0x1A1B1C1D,
                numbers: COMMAND_NUMBERS,
                cdb: [0x28, 1, 2, 3, 4, 5, 6, 7, 8, 9, 10, 11, 12, 13, 14, 15],
            }),
            plain: "01C50000 00000002 01020304 05060708 0A0B0C0D 1A1B1C1D 21222324 31323334 280102030405060708090A0B0C0D0E0F 07080000",
            reserved: "81DDAABB 00000002 01020304 05060708 0A0B0C0D 1A1B1C1D 21222324 31323334 280102030405060708090A0B0C0D0E0F 0708EEFF",
        },
        Row {
            name: "an immediate SCSI Command that writes",
            header: InitiatorHeader::ScsiCommand(ScsiCommand {
                immediate: true,
                read: false,
                write: true,
                attribute: 0,
                lun: [0; 8],
                task_tag: 1,
                expected_length: 0x0200,
                numbers: COMMAND_NUMBERS,
                cdb: [0x0A, 0, 0, 0, 1, 0, 0, 0, 0, 0, 0, 0, 0, 0, 0, 0],
            }),
            plain: "41A00000 00000002 8*00 00000001 00000200 21222324 31323334 0A000000 01000000 8*00 07080000",
            reserved: "41B800FF 00000002 8*00 00000001 00000200 21222324 31323334 0A000000 01000000 8*00 0708EEFF",
        },
        Row {
            name: "a Task Management Function Request",
            header: InitiatorHeader::TaskManagementRequest(TaskManagementRequest {
                immediate: true,
                function: 5,
                lun: LUN,
                task_tag: 0x0A0B0C0D,
                referenced_tag: 0x1A1B1C1D,
                numbers: COMMAND_NUMBERS,
                ref_cmd_sn: 0x41424344,
            }),
            plain: "42850000 00000002 01020304 05060708 0A0B0C0D 1A1B1C1D 21222324 31323334 41424344 12*00 07080000",
            reserved: "C205AABB 00000002 01020304 05060708 0A0B0C0D 1A1B1C1D 21222324 31323334 41424344 3*DEADBEEF 0708EEFF",
        },
        Row {
            name: "a Login Request",
            header: InitiatorHeader::LoginRequest(LoginRequest {
                transit: true,
                continues: false,
                current_stage: 1,
                next_stage: 3,
                version_max: 2,
                version_min: 1,
                isid: ISID,
                tsih: 0x0405,
                task_tag: 0x0A0B0C0D,
                cid: 0x1A1B,
                numbers: COMMAND_NUMBERS,
            }),
            plain: "43870201 00000002 00023D01 02030405 0A0B0C0D 1A1B0000 21222324 31323334 16*00 07080000",
            reserved: "83B70201 00000002 00023D01 02030405 0A0B0C0D 1A1BBEEF 21222324 31323334 4*DEADBEEF 0708EEFF",
        },
        Row {
            name: "a Text Request that continues",
            header: InitiatorHeader::TextRequest(TextRequest {
                immediate: false,
                last: false,
                continues: true,
                lun: LUN,
                task_tag: 0x0A0B0C0D,
                transfer_tag: 0x1A1B1C1D,
                numbers: COMMAND_NUMBERS,
            }),
            plain: "04400000 00000002 01020304 05060708 0A0B0C0D 1A1B1C1D 21222324 31323334 16*00 07080000",
            reserved: "847FAABB 00000002 01020304 05060708 0A0B0C0D 1A1B1C1D 21222324 31323334 4*DEADBEEF 0708EEFF",
        },
        Row {
            name: "the last Data-Out",
            header: InitiatorHeader::DataOut(DataOut {
                last: true,
                lun: LUN,
                task_tag: 0x0A0B0C0D,
                transfer_tag: 0x1A1B1C1D,
                exp_stat_sn: 0x31323334,
                data_sn: 0x51525354,
                offset: 0x61626364,
            }),
            plain: "05800000 00000002 01020304 05060708 0A0B0C0D 1A1B1C1D 00000000 31323334 00000000 51525354 61626364 00000000 07080000",
            reserved: "C5FFAABB 00000002 0102030405060708 0A0B0C0D 1A1B1C1D DEADBEEF 31323334 DEADBEEF 51525354 61626364 DEADBEEF 0708EEFF",
        },
        Row {
            name: "a Logout Request",
            header: InitiatorHeader::LogoutRequest(LogoutRequest {
                immediate: true,
                reason: 1,
                task_tag: 0x0A0B0C0D,
                cid: 0x1A1B,
                numbers: COMMAND_NUMBERS,
            }),
            plain: "46810000 00000002 8*00 0A0B0C0D 1A1B0000 21222324 31323334 16*00 07080000",
            reserved: "C601AABB 00000002 2*DEADBEEF 0A0B0C0D 1A1BBEEF 21222324 31323334 4*DEADBEEF 0708EEFF",
        },
    ]
}

#[test]
fn each_initiator_pdu_is_read_whatever_its_reserved_bits_hold(rt: HostRuntime) {
    for row in rows() {
        let header = Header::Initiator(row.header);
        check(&rt, rt.alloc(), row.name, &header, row.plain);
        expect_decoded(&rt, rt.alloc(), row.name, row.reserved, row.plain);
    }
}
