//! The fields of basic header segments at their places (RFC 7143, section 11).

ghost use Rattle.iscsi_pdu.specs.Fields.{opcode_of, HasInitiatorFields, HasTargetFields};
ghost use Rattle.iscsi_pdu.specs.Fault.{IsInitiatorOpcode, IsTargetOpcode};

use crate::BHS_LENGTH;
use crate::header::{
    DataIn, DataOut, InitiatorHeader, LoginRequest, LoginResponse, LogoutRequest, LogoutResponse,
    NopIn, NopOut, R2t, Reject, ScsiCommand, ScsiResponse, TargetHeader, TaskManagementRequest,
    TaskManagementResponse, TextRequest, TextResponse,
};
use crate::numbers::{cdb, command_numbers, half, has_bit, isid, lun, numbers, word};

// A field that several kinds of PDU have, at its place.
macro_rules! field {
    ($bhs:ident, immediate) => { has_bit($bhs, 0, 0x40) };
    ($bhs:ident, last) => { has_bit($bhs, 1, 0x80) };
    ($bhs:ident, transit) => { has_bit($bhs, 1, 0x80) };
    ($bhs:ident, continues) => { has_bit($bhs, 1, 0x40) };
    ($bhs:ident, current_stage) => { $bhs[1] / 4 % 4 };
    ($bhs:ident, next_stage) => { $bhs[1] % 4 };
    ($bhs:ident, response) => { $bhs[2] };
    ($bhs:ident, lun) => { lun($bhs) };
    ($bhs:ident, isid) => { isid($bhs) };
    ($bhs:ident, tsih) => { half($bhs, 14) };
    ($bhs:ident, task_tag) => { word($bhs, 16) };
    ($bhs:ident, transfer_tag) => { word($bhs, 20) };
    ($bhs:ident, cid) => { half($bhs, 20) };
    ($bhs:ident, data_sn) => { word($bhs, 36) };
    ($bhs:ident, offset) => { word($bhs, 40) };
}

// A header of such fields, and of others with what they hold.
macro_rules! header {
    ($bhs:ident, $kind:ident: $($field:ident)* $(, $other:ident = $value:expr)*) => {
        $kind { $($field: field!($bhs, $field),)* $($other: $value),* }
    };
}

/// What an initiator's basic header segment says.
pub fn read_initiator(bhs: &[u8; BHS_LENGTH]) -> InitiatorHeader
    requires { IsInitiatorOpcode (opcode_of bhs.now) }
    ensures { HasInitiatorFields bhs.now result }
{
    match bhs[0] % 64 {
        0x00 => InitiatorHeader::NopOut(header!(
            bhs, NopOut: immediate lun task_tag transfer_tag,
            numbers = command_numbers(bhs)
        )),
        0x01 => InitiatorHeader::ScsiCommand(header!(
            bhs, ScsiCommand: immediate lun task_tag,
            read = has_bit(bhs, 1, 0x40),
            write = has_bit(bhs, 1, 0x20),
            attribute = bhs[1] % 8,
            expected_length = word(bhs, 20),
            numbers = command_numbers(bhs),
            cdb = cdb(bhs)
        )),
        0x02 => InitiatorHeader::TaskManagementRequest(header!(
            bhs, TaskManagementRequest: immediate lun task_tag,
            function = bhs[1] % 128,
            referenced_tag = word(bhs, 20),
            numbers = command_numbers(bhs),
            ref_cmd_sn = word(bhs, 32)
        )),
        0x03 => InitiatorHeader::LoginRequest(header!(
            bhs, LoginRequest: transit continues current_stage next_stage isid tsih task_tag cid,
            version_max = bhs[2],
            version_min = bhs[3],
            numbers = command_numbers(bhs)
        )),
        0x04 => InitiatorHeader::TextRequest(header!(
            bhs, TextRequest: immediate last continues lun task_tag transfer_tag,
            numbers = command_numbers(bhs)
        )),
        0x05 => InitiatorHeader::DataOut(header!(
            bhs, DataOut: last lun task_tag transfer_tag data_sn offset,
            exp_stat_sn = word(bhs, 28)
        )),
        _ => InitiatorHeader::LogoutRequest(header!(
            bhs, LogoutRequest: immediate task_tag cid,
            reason = bhs[1] % 128,
            numbers = command_numbers(bhs)
        )),
    }
}

/// What a target's basic header segment says.
pub fn read_target(bhs: &[u8; BHS_LENGTH]) -> TargetHeader
    requires { IsTargetOpcode (opcode_of bhs.now) }
    ensures { HasTargetFields bhs.now result }
{
    match bhs[0] % 64 {
        0x20 => TargetHeader::NopIn(
            header!(bhs, NopIn: lun task_tag transfer_tag, numbers = numbers(bhs)),
        ),
        0x21 => TargetHeader::ScsiResponse(header!(
            bhs, ScsiResponse: response task_tag,
            overflow = has_bit(bhs, 1, 0x04),
            underflow = has_bit(bhs, 1, 0x02),
            status = bhs[3],
            numbers = numbers(bhs),
            exp_data_sn = word(bhs, 36),
            residual = word(bhs, 44)
        )),
        0x22 => TargetHeader::TaskManagementResponse(header!(
            bhs, TaskManagementResponse: response task_tag, numbers = numbers(bhs)
        )),
        0x23 => TargetHeader::LoginResponse(header!(
            bhs, LoginResponse: transit continues current_stage next_stage isid tsih task_tag,
            numbers = numbers(bhs),
            status_class = bhs[36],
            status_detail = bhs[37]
        )),
        0x24 => TargetHeader::TextResponse(header!(
            bhs, TextResponse: task_tag transfer_tag, numbers = numbers(bhs)
        )),
        0x25 => TargetHeader::DataIn(header!(
            bhs, DataIn: last task_tag transfer_tag data_sn offset, numbers = numbers(bhs)
        )),
        0x26 => TargetHeader::LogoutResponse(header!(
            bhs, LogoutResponse: response task_tag,
            numbers = numbers(bhs),
            time_to_wait = half(bhs, 40),
            time_to_retain = half(bhs, 42)
        )),
        0x31 => TargetHeader::R2t(header!(
            bhs, R2t: lun task_tag transfer_tag offset,
            numbers = numbers(bhs),
            r2t_sn = word(bhs, 36),
            desired_length = word(bhs, 44)
        )),
        _ => TargetHeader::Reject(header!(bhs, Reject:, reason = bhs[2], numbers = numbers(bhs))),
    }
}
