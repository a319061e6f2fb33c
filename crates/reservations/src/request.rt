//! What PERSISTENT RESERVE OUT asks, and what it is answered.
ghost use Rattle.std.specs.Prelude.{◌≡◌, if◌then◌else◌, nat_eq};
ghost use Rattle.registrants.specs.Kind.{type_of};
ghost use Rattle.reservations.specs.Table.{is_bad_reserve, shows_key};

use crate::{ReservationType, Telling};
use scsi_types::{PrOutAction, Sense};

/// A PERSISTENT RESERVE OUT: the fields of its CDB and of its parameter list (SPC-4, 6.16).
#[derive(Clone, Copy, PartialEq, Eq)]
pub struct PrOut {
    /// The service action.
    pub action: PrOutAction,
    /// SCOPE, the high half of byte 2 of the CDB; 0 is the logical unit.
    pub scope: u8,
    /// TYPE, the low half of byte 2 of the CDB.
    pub kind: u8,
    /// RESERVATION KEY.
    pub key: u64,
    /// SERVICE ACTION RESERVATION KEY.
    pub sakey: u64,
    /// SPEC_I_PT.
    pub spec_i_pt: bool,
    /// ALL_TG_PT.
    pub all_tg_pt: bool,
    /// APTPL.
    pub aptpl: bool,
}

/// How a PERSISTENT RESERVE OUT ends.
#[derive(Drop)]
pub enum PrEnd {
    /// GOOD; who is told what.
    Good(Telling),
    /// RESERVATION CONFLICT.
    Conflict,
    /// CHECK CONDITION with this sense, whose key is ILLEGAL REQUEST (SPC-4, 4.5.6).
    Illegal(Sense),
}

/// The type that a request names, if its scope is the logical unit and the type is one.
pub fn type_asked(request: PrOut) -> Option<ReservationType>
    ensures { result ≡ (if nat_eq request.scope 0 then type_of request.kind else None) }
{
    if request.scope != 0 {
        return None;
    }
    ReservationType::from_code(request.kind)
}

/// Whether a RESERVE has a scope or type that it may not have.
pub fn is_bad_reserve(request: PrOut) -> bool
    ensures { result ≡ is_bad_reserve request.action request }
{
    match request.action {
        PrOutAction::Reserve => type_asked(request).is_none(),
        PrOutAction::Register
        | PrOutAction::Release
        | PrOutAction::Clear
        | PrOutAction::Preempt
        | PrOutAction::PreemptAndAbort
        | PrOutAction::RegisterAndIgnoreExistingKey => false,
    }
}

/// Whether the reservation key is the one that the action must show, by the key with which its nexus is registered.
pub fn shows_key(action: PrOutAction, own: Option<u64>, key: u64) -> bool
    ensures { result ≡ shows_key action own key }
{
    match action {
        PrOutAction::RegisterAndIgnoreExistingKey => true,
        PrOutAction::Register => match own {
            None => key == 0,
            Some(own) => key == own,
        },
        PrOutAction::Reserve
        | PrOutAction::Release
        | PrOutAction::Clear
        | PrOutAction::Preempt
        | PrOutAction::PreemptAndAbort => match own {
            None => false,
            Some(own) => key == own,
        },
    }
}
