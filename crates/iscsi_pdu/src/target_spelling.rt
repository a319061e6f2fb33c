//! The one basic header segment of each of a target's headers (RFC 7143, section 11).
#![tactic(auto, unfolding(crate::specs::Spelling::target_bhs))]

ghost use Rattle.std.specs.Prelude.{◌≡◌, ◌<◌, ◌^◌};
ghost use Rattle.iscsi_pdu.specs.declared.header.TargetHeader.TheVariants.{NopIn, ScsiResponse};
ghost use Rattle.iscsi_pdu.specs.declared.header.TargetHeader.TheVariants.{TaskManagementResponse, LoginResponse};
ghost use Rattle.iscsi_pdu.specs.declared.header.TargetHeader.TheVariants.{TextResponse, DataIn, LogoutResponse};
ghost use Rattle.iscsi_pdu.specs.declared.header.TargetHeader.TheVariants.{R2t, Reject};
ghost use Rattle.iscsi_pdu.specs.Spelling.{target_bhs};

use crate::header::TargetHeader;
use crate::pieces::{
    bhs_with, flag_value, halves, login_flags_value, session_place, status_value, target_words,
};
use crate::{BHS_LENGTH, header};

fn nop_in(p: &header::NopIn, len: u32) -> [u8; BHS_LENGTH]
    requires { len < 2 ^ 24 }
    ensures { result ≡ target_bhs (NopIn p.now) len }
{
    let words = target_words(p.task_tag, p.transfer_tag, &p.numbers, [0; 3]);
    bhs_with([0x20, 0x80, 0, 0], len, p.lun, words)
}

fn scsi_response(p: &header::ScsiResponse, len: u32) -> [u8; BHS_LENGTH]
    requires { len < 2 ^ 24 }
    ensures { result ≡ target_bhs (ScsiResponse p.now) len }
{
    let flags = 0x80 + flag_value(p.overflow, 0x04) + flag_value(p.underflow, 0x02);
    let words = target_words(p.task_tag, 0, &p.numbers, [p.exp_data_sn, 0, p.residual]);
    bhs_with([0x21, flags, p.response, p.status], len, [0; 8], words)
}

fn task_management_response(p: &header::TaskManagementResponse, len: u32) -> [u8; BHS_LENGTH]
    requires { len < 2 ^ 24 }
    ensures { result ≡ target_bhs (TaskManagementResponse p.now) len }
{
    let words = target_words(p.task_tag, 0, &p.numbers, [0; 3]);
    bhs_with([0x22, 0x80, p.response, 0], len, [0; 8], words)
}

fn login_response(p: &header::LoginResponse, len: u32) -> [u8; BHS_LENGTH]
    requires { len < 2 ^ 24 }
    ensures { result ≡ target_bhs (LoginResponse p.now) len }
{
    let flags = login_flags_value(p.transit, p.continues, p.current_stage, p.next_stage);
    let status = status_value(p.status_class, p.status_detail);
    let words = target_words(p.task_tag, 0, &p.numbers, [status, 0, 0]);
    bhs_with(
        [0x23, flags, 0, 0],
        len,
        session_place(&p.isid, p.tsih),
        words,
    )
}

fn text_response(p: &header::TextResponse, len: u32) -> [u8; BHS_LENGTH]
    requires { len < 2 ^ 24 }
    ensures { result ≡ target_bhs (TextResponse p.now) len }
{
    let words = target_words(p.task_tag, p.transfer_tag, &p.numbers, [0; 3]);
    bhs_with([0x24, 0x80, 0, 0], len, [0; 8], words)
}

fn data_in(p: &header::DataIn, len: u32) -> [u8; BHS_LENGTH]
    requires { len < 2 ^ 24 }
    ensures { result ≡ target_bhs (DataIn p.now) len }
{
    let rest = [p.data_sn, p.offset, 0];
    let words = target_words(p.task_tag, p.transfer_tag, &p.numbers, rest);
    bhs_with([0x25, flag_value(p.last, 0x80), 0, 0], len, [0; 8], words)
}

fn logout_response(p: &header::LogoutResponse, len: u32) -> [u8; BHS_LENGTH]
    requires { len < 2 ^ 24 }
    ensures { result ≡ target_bhs (LogoutResponse p.now) len }
{
    let times = halves(p.time_to_wait, p.time_to_retain);
    let words = target_words(p.task_tag, 0, &p.numbers, [0, times, 0]);
    bhs_with([0x26, 0x80, p.response, 0], len, [0; 8], words)
}

fn r2t(p: &header::R2t, len: u32) -> [u8; BHS_LENGTH]
    requires { len < 2 ^ 24 }
    ensures { result ≡ target_bhs (R2t p.now) len }
{
    let rest = [p.r2t_sn, p.offset, p.desired_length];
    let words = target_words(p.task_tag, p.transfer_tag, &p.numbers, rest);
    bhs_with([0x31, 0x80, 0, 0], len, p.lun, words)
}

fn reject(p: &header::Reject, len: u32) -> [u8; BHS_LENGTH]
    requires { len < 2 ^ 24 }
    ensures { result ≡ target_bhs (Reject p.now) len }
{
    let words = target_words(0xFFFF_FFFF, 0, &p.numbers, [0; 3]);
    bhs_with([0x3F, 0x80, p.reason, 0], len, [0; 8], words)
}

/// The one BHS of a target's header, with this length of its data segment.
pub fn spell_target(header: &TargetHeader, len: u32) -> [u8; BHS_LENGTH]
    requires { len < 2 ^ 24 }
    ensures { result ≡ target_bhs header.now len }
{
    match header {
        TargetHeader::NopIn(p) => nop_in(p, len),
        TargetHeader::ScsiResponse(p) => scsi_response(p, len),
        TargetHeader::TaskManagementResponse(p) => task_management_response(p, len),
        TargetHeader::LoginResponse(p) => login_response(p, len),
        TargetHeader::TextResponse(p) => text_response(p, len),
        TargetHeader::DataIn(p) => data_in(p, len),
        TargetHeader::LogoutResponse(p) => logout_response(p, len),
        TargetHeader::R2t(p) => r2t(p, len),
        TargetHeader::Reject(p) => reject(p, len),
    }
}
