//! What a turn of a login comes to.
ghost use Rattle.std.specs.Prelude.{◌≡◌, Option};
ghost use Rattle.session_rules.specs.LoginPhase.{login_end, begins};

use crate::end::{End, refusal_end, reject_end};
use iscsi_pdu::BHS_LENGTH;
use login::LoginStatus;

/// What comes to a PDU during the login, with what the target answers.
#[derive(Clone, Copy)]
pub enum LoginOutcome {
    /// The login goes on.
    GoesOn,
    /// The session has begun, with this TSIH: full feature phase is next.
    Begun(u16),
    /// The login is refused.
    Refused(LoginStatus),
    /// The PDU, or the fault that stands in its place, is rejected for this reason.
    Rejected(u8),
}

impl LoginOutcome {
    /// Whether full feature phase is next.
    pub fn begins(self) -> bool
        ensures { result ≡ begins self }
    {
        matches!(self, LoginOutcome::Begun(_))
    }

    /// The end that it calls for, where what came has this basic header segment.
    pub fn end(self, bhs: &[u8; BHS_LENGTH]) -> Option<End>
        ensures { result ≡ login_end bhs.now self }
    {
        match self {
            LoginOutcome::GoesOn | LoginOutcome::Begun(_) => None,
            LoginOutcome::Refused(status) => Some(refusal_end(status)),
            LoginOutcome::Rejected(reason) => Some(reject_end(reason, bhs)),
        }
    }
}
