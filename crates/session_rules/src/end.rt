//! How a session ends, and for which cause.
ghost use Rattle.std.specs.Prelude.{◌≡◌};
ghost use Rattle.session_rules.specs.Causes.{end_by_reject, end_by_refusal};

use iscsi_pdu::BHS_LENGTH;
use iscsi_pdu::numbers::word;
use login::LoginStatus;

/// How a session ended.
#[derive(Clone, Copy, Debug, PartialEq, Eq)]
pub enum End {
    /// The input ended, perhaps in the middle of a PDU; or 2^64 - 1 bytes or more were read.
    EndOfInput,
    /// The source failed. No whole PDU that came before was left.
    InputFailed,
    /// The sink failed. A beginning of the bytes was written.
    OutputFailed,
    /// A PDU, or what stood in place of one, was rejected: the reason of the Reject, and opcode and Initiator Task Tag of what
    /// it rejects (RFC 7143, 7.3, 11.17.1 and 11.2.1).
    Rejected { reason: u8, opcode: u8, tag: u32 },
    /// The CmdSN of a PDU left a gap, for which nothing goes out (RFC 7143, 4.2.2.1).
    Gap,
    /// The login was refused with this status: the byte of its Status-Class, then that of its Status-Detail (RFC 7143, 11.13.5).
    LoginRefused(u16),
    /// The session is attached no more: another one took its nexus (RFC 7143, 6.3.5).
    Reinstated,
    /// The initiator logged out (RFC 7143, 11.14).
    LoggedOut,
}

/// The end of a session in which a PDU with this basic header segment is rejected for this reason.
pub fn reject_end(reason: u8, bhs: &[u8; BHS_LENGTH]) -> End
    ensures { result ≡ end_by_reject reason bhs.now }
{
    End::Rejected {
        reason,
        opcode: bhs[0] % 64,
        tag: word(bhs, 16),
    }
}

/// The end of a session whose login is refused with this status.
pub fn refusal_end(status: LoginStatus) -> End
    ensures { result ≡ end_by_refusal status }
{
    End::LoginRefused(256 * u16::from(status.class()) + u16::from(status.detail()))
}
