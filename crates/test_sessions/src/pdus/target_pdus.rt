//! Each of a target's PDUs.
use crate::pdus::rows::{Figure, ISID, LUN, NUMBERS, check};
use iscsi_pdu::{
    DataIn, Header, LoginResponse, LogoutResponse, NopIn, R2t, Reject, ScsiResponse, TargetHeader,
    TaskManagementResponse, TextResponse,
};
use std::test::*;

/// A name, a header, and its figure.
type Row = (&'static str, TargetHeader, Figure);

fn rows() -> &'static [Row] {
    &[
        (
            "NOP-In",
            TargetHeader::NopIn(NopIn {
                lun: LUN,
                task_tag: 0x0A0B0C0D,
                transfer_tag: 0x1A1B1C1D,
                numbers: NUMBERS,
            }),
            "20800000 00000002 01020304 05060708 0A0B0C0D 1A1B1C1D 21222324 31323334 41424344 12*00 07080000",
        ),
        (
            "a SCSI Response with overflow",
            TargetHeader::ScsiResponse(ScsiResponse {
                overflow: true,
                underflow: false,
                response: 1,
                status: 2,
                task_tag: 0x0A0B0C0D,
                numbers: NUMBERS,
                exp_data_sn: 0x51525354,
                residual: 0x71727374,
            }),
            "21840102 00000002 8*00 0A0B0C0D 00000000 21222324 31323334 41424344 51525354 00000000 71727374 07080000",
        ),
        (
            "a SCSI Response with underflow",
            TargetHeader::ScsiResponse(ScsiResponse {
                overflow: false,
                underflow: true,
                response: 0,
                status: 0,
                task_tag: 1,
                numbers: NUMBERS,
                exp_data_sn: 0,
                residual: 256,
            }),
            "21820000 00000002 8*00 00000001 00000000 21222324 31323334 41424344 8*00 00000100 07080000",
        ),
        (
            "a Task Management Function Response",
            TargetHeader::TaskManagementResponse(TaskManagementResponse {
                response: 5,
                task_tag: 0x0A0B0C0D,
                numbers: NUMBERS,
            }),
            "22800500 00000002 8*00 0A0B0C0D 00000000 21222324 31323334 41424344 12*00 07080000",
        ),
        (
            "a Login Response that goes from stage 1 to 3",
            TargetHeader::LoginResponse(LoginResponse {
                transit: true,
                continues: false,
                current_stage: 1,
                next_stage: 3,
                isid: ISID,
                tsih: 0x0405,
                task_tag: 0x0A0B0C0D,
                numbers: NUMBERS,
                status_class: 0,
                status_detail: 0,
            }),
            "23870000 00000002 00023D01 02030405 0A0B0C0D 00000000 21222324 31323334 41424344 12*00 07080000",
        ),
        (
            "a Login Response that refuses",
            TargetHeader::LoginResponse(LoginResponse {
                transit: false,
                continues: true,
                current_stage: 0,
                next_stage: 0,
                isid: ISID,
                tsih: 0,
                task_tag: 0x0A0B0C0D,
                numbers: NUMBERS,
                status_class: 2,
                status_detail: 7,
            }),
            "23400000 00000002 00023D01 02030000 0A0B0C0D 00000000 21222324 31323334 41424344 02070000 8*00 07080000",
        ),
        (
            "a Text Response",
            TargetHeader::TextResponse(TextResponse {
                task_tag: 0x0A0B0C0D,
                transfer_tag: 0x1A1B1C1D,
                numbers: NUMBERS,
            }),
            "24800000 00000002 8*00 0A0B0C0D 1A1B1C1D 21222324 31323334 41424344 12*00 07080000",
        ),
        (
            "the last Data-In",
            TargetHeader::DataIn(DataIn {
                last: true,
                task_tag: 0x0A0B0C0D,
                transfer_tag: 0x1A1B1C1D,
                numbers: NUMBERS,
                data_sn: 0x51525354,
                offset: 0x61626364,
            }),
            "25800000 00000002 8*00 0A0B0C0D 1A1B1C1D 21222324 31323334 41424344 51525354 61626364 00000000 07080000",
        ),
        (
            "a Data-In before the last",
            TargetHeader::DataIn(DataIn {
                last: false,
                task_tag: 3,
                transfer_tag: 0xFFFFFFFF,
                numbers: NUMBERS,
                data_sn: 0,
                offset: 0,
            }),
            "25000000 00000002 8*00 00000003 FFFFFFFF 21222324 31323334 41424344 12*00 07080000",
        ),
        (
            "a Logout Response",
            TargetHeader::LogoutResponse(LogoutResponse {
                response: 2,
                task_tag: 0x0A0B0C0D,
                numbers: NUMBERS,
                time_to_wait: 0x6162,
                time_to_retain: 0x6364,
            }),
            "26800200 00000002 8*00 0A0B0C0D 00000000 21222324 31323334 41424344 00000000 61626364 00000000 07080000",
        ),
        (
            "an R2T",
            TargetHeader::R2t(R2t {
                lun: LUN,
                task_tag: 0x0A0B0C0D,
                transfer_tag: 0x1A1B1C1D,
                numbers: NUMBERS,
                r2t_sn: 0x51525354,
                offset: 0x61626364,
                desired_length: 0x71727374,
            }),
            "31800000 00000002 01020304 05060708 0A0B0C0D 1A1B1C1D 21222324 31323334 41424344 51525354 61626364 71727374 07080000",
        ),
        (
            "a Reject",
            TargetHeader::Reject(Reject {
                reason: 9,
                numbers: NUMBERS,
            }),
            "3F800900 00000002 8*00 FFFFFFFF 00000000 21222324 31323334 41424344 12*00 07080000",
        ),
    ]
}

#[test]
fn each_target_pdu_has_its_bytes(rt: HostRuntime) {
    for (name, header, figure) in rows() {
        check(&rt, rt.alloc(), name, &Header::Target(*header), figure);
    }
}
