//! The plainest basic header segment of each of an initiator's headers (RFC 7143, section 11).
#![tactic(auto, unfolding(crate::specs::Spelling::initiator_bhs))]

ghost use Rattle.std.specs.Prelude.{◌≡◌, ◌<◌, ◌^◌};
ghost use Rattle.iscsi_pdu.specs.declared.header.InitiatorHeader.TheVariants.{NopOut, ScsiCommand};
ghost use Rattle.iscsi_pdu.specs.declared.header.InitiatorHeader.TheVariants.{TaskManagementRequest, LoginRequest};
ghost use Rattle.iscsi_pdu.specs.declared.header.InitiatorHeader.TheVariants.{TextRequest, DataOut, LogoutRequest};
ghost use Rattle.iscsi_pdu.specs.Spelling.{initiator_bhs};

use crate::header::InitiatorHeader;
use crate::pieces::{
    bhs_with, flag_value, halves, initiator_words, login_flags_value, session_place,
};
use crate::{BHS_LENGTH, header};

fn nop_out(p: &header::NopOut, len: u32) -> [u8; BHS_LENGTH]
    requires { len < 2 ^ 24 }
    ensures { result ≡ initiator_bhs (NopOut p.now) len }
{
    let first = [flag_value(p.immediate, 0x40), 0x80, 0, 0];
    let words = initiator_words(p.task_tag, p.transfer_tag, &p.numbers, [0; 4]);
    bhs_with(first, len, p.lun, words)
}

fn scsi_command(p: &header::ScsiCommand, len: u32) -> [u8; BHS_LENGTH]
    requires { len < 2 ^ 24 }
    ensures { result ≡ initiator_bhs (ScsiCommand p.now) len }
{
    let opcode = 0x01 + flag_value(p.immediate, 0x40);
    let flags = 0x80 + flag_value(p.read, 0x40) + flag_value(p.write, 0x20) + p.attribute % 8;
    let words = initiator_words(p.task_tag, p.expected_length, &p.numbers, [0; 4]);
    let mut bhs = bhs_with([opcode, flags, 0, 0], len, p.lun, words);
    bhs[32..48].copy_from_slice(&p.cdb);
    bhs
}

fn task_management_request(p: &header::TaskManagementRequest, len: u32) -> [u8; BHS_LENGTH]
    requires { len < 2 ^ 24 }
    ensures { result ≡ initiator_bhs (TaskManagementRequest p.now) len }
{
    let opcode = 0x02 + flag_value(p.immediate, 0x40);
    let function = 0x80 + p.function % 128;
    let rest = [p.ref_cmd_sn, 0, 0, 0];
    let words = initiator_words(p.task_tag, p.referenced_tag, &p.numbers, rest);
    bhs_with([opcode, function, 0, 0], len, p.lun, words)
}

fn login_request(p: &header::LoginRequest, len: u32) -> [u8; BHS_LENGTH]
    requires { len < 2 ^ 24 }
    ensures { result ≡ initiator_bhs (LoginRequest p.now) len }
{
    let flags = login_flags_value(p.transit, p.continues, p.current_stage, p.next_stage);
    let first = [0x43, flags, p.version_max, p.version_min];
    let words = initiator_words(p.task_tag, halves(p.cid, 0), &p.numbers, [0; 4]);
    bhs_with(first, len, session_place(&p.isid, p.tsih), words)
}

fn text_request(p: &header::TextRequest, len: u32) -> [u8; BHS_LENGTH]
    requires { len < 2 ^ 24 }
    ensures { result ≡ initiator_bhs (TextRequest p.now) len }
{
    let opcode = 0x04 + flag_value(p.immediate, 0x40);
    let flags = flag_value(p.last, 0x80) + flag_value(p.continues, 0x40);
    let words = initiator_words(p.task_tag, p.transfer_tag, &p.numbers, [0; 4]);
    bhs_with([opcode, flags, 0, 0], len, p.lun, words)
}

fn data_out(p: &header::DataOut, len: u32) -> [u8; BHS_LENGTH]
    requires { len < 2 ^ 24 }
    ensures { result ≡ initiator_bhs (DataOut p.now) len }
{
    let (tag, stat_sn) = (p.task_tag, p.exp_stat_sn);
    let words = [tag, p.transfer_tag, 0, stat_sn, 0, p.data_sn, p.offset, 0];
    bhs_with([0x05, flag_value(p.last, 0x80), 0, 0], len, p.lun, words)
}

fn logout_request(p: &header::LogoutRequest, len: u32) -> [u8; BHS_LENGTH]
    requires { len < 2 ^ 24 }
    ensures { result ≡ initiator_bhs (LogoutRequest p.now) len }
{
    let opcode = 0x06 + flag_value(p.immediate, 0x40);
    let reason = 0x80 + p.reason % 128;
    let words = initiator_words(p.task_tag, halves(p.cid, 0), &p.numbers, [0; 4]);
    bhs_with([opcode, reason, 0, 0], len, [0; 8], words)
}

/// The plainest BHS of an initiator's header, with this length of its data segment.
pub fn spell_initiator(header: &InitiatorHeader, len: u32) -> [u8; BHS_LENGTH]
    requires { len < 2 ^ 24 }
    ensures { result ≡ initiator_bhs header.now len }
{
    match header {
        InitiatorHeader::NopOut(p) => nop_out(p, len),
        InitiatorHeader::ScsiCommand(p) => scsi_command(p, len),
        InitiatorHeader::TaskManagementRequest(p) => task_management_request(p, len),
        InitiatorHeader::LoginRequest(p) => login_request(p, len),
        InitiatorHeader::TextRequest(p) => text_request(p, len),
        InitiatorHeader::DataOut(p) => data_out(p, len),
        InitiatorHeader::LogoutRequest(p) => logout_request(p, len),
    }
}
