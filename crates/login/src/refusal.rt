//! What a Login Request is refused for (RFC 7143, 6.3, 11.12 and 11.13.5): the rules that take more than a line. All of them stand in
//! their order in `Negotiation::refusal`.
ghost use Rattle.std.specs.Prelude.{◌≡◌, option_map};
ghost use Rattle.login.specs.Text.{pairs};
ghost use Rattle.login.specs.Refusal.{is_stage, may_go, has_wrong_flags, is_too_long, has_repeated, stands_from_first};
ghost use Rattle.login.specs.Refusal.{has_bad_length, has_bad_name, session_type_of, is_other, wants_authentication, value_said};
ghost use Rattle.login.specs.Table.{key_named};

use crate::key::Key;
use crate::status::{FULL_FEATURE, LoginFlags, OPERATIONAL, SECURITY, SessionType};
use crate::text::{MOST_PAIRS, count_of_pairs, first_pair, found};
use crate::value::is_listed;
use scsi_types::LONGEST_NAME;

/// The most bytes of text of a negotiation.
pub const MOST_BYTES: usize = 8192;

/// Whether T comes with C, or CSG is not the current stage, or T asks for a transition that there is not (RFC 7143, 11.12.1 to 11.12.3).
/// Before the first request there is no current stage.
pub fn has_wrong_flags(stage: Option<u8>, flags: LoginFlags) -> bool
    ensures { result ≡ has_wrong_flags stage flags }
{
    flags.transit && flags.continues
        || !is_stage(stage, flags.current_stage)
        || flags.transit && !may_go(flags.current_stage, flags.next_stage)
}

// Whether a request may be of this stage: security or operational, and the current one behind the first request (RFC 7143, 6.3).
fn is_stage(current: Option<u8>, asked: u8) -> bool
    ensures { result ≡ is_stage current asked }
{
    match current {
        None => asked < 2,
        Some(current) => asked < 2 && asked == current,
    }
}

// Whether there is a transition from one stage to another (RFC 7143, 11.12.3).
fn may_go(from: u8, to: u8) -> bool
    ensures { result ≡ may_go from to }
{
    from == SECURITY && to == OPERATIONAL
        || (from == SECURITY && to == FULL_FEATURE)
        || (from == OPERATIONAL && to == FULL_FEATURE)
}

/// Whether a negotiation that has said so much would have more than 8192 bytes of text or more than 64 pairs with this text.
pub fn is_too_long(said: &[u8], text: &[u8]) -> bool
    ensures { result ≡ is_too_long said.now text.now }
{
    let bytes = said.len() as u128 + text.len() as u128;
    let pairs = count_of_pairs(said) as u128 + count_of_pairs(text) as u128;
    bytes > MOST_BYTES as u128 || pairs > MOST_PAIRS as u128
}

/// Whether a key of this text stands there twice, or in what was said before (RFC 7143, 6.3). Behind the first request the keys of
/// `stands_from_first` may come again.
pub fn has_repeated(first: bool, said: &[u8], text: &[u8]) -> bool
    ensures { result ≡ has_repeated first (pairs said.now) (pairs text.now) }
{
    let mut rest = text;
    while let Some(pair) = first_pair(rest) {
        let counts = first || !stands_from_first(pair.key);
        if counts && (found(said, pair.key).is_some() || found(pair.rest, pair.key).is_some()) {
            return true;
        }
        rest = pair.rest;
    }
    false
}

/// Whether of this key stands what the first request said: a later one may say it again, which changes nothing.
fn stands_from_first(key: &[u8]) -> bool
    ensures { result ≡ stands_from_first (key_named key.now) }
{
    matches!(
        Key::named(key),
        Some(Key::InitiatorName | Key::InitiatorAlias | Key::TargetName | Key::SessionType)
    )
}

/// Whether the InitiatorName is empty, or one of the two names has more than 223 bytes (RFC 7143, 4.2.7.1).
pub fn has_bad_name(text: &[u8]) -> bool
    ensures { result ≡ has_bad_name (pairs text.now) }
{
    has_bad_length(1, found(text, b"InitiatorName"))
        || has_bad_length(0, found(text, b"TargetName"))
}

// Whether a name, where it is said, has fewer bytes than these or more than a name may have.
fn has_bad_length(least: usize, name: Option<&[u8]>) -> bool
    ensures { result ≡ has_bad_length least (option_map (λ v. v.now) name.entry) }
{
    match name {
        None => false,
        Some(name) => name.len() < least || LONGEST_NAME < name.len(),
    }
}

/// The session type that a text asks for (RFC 7143, 13.21): Normal where it says none, and none where it says another word.
pub fn session_type_of(text: &[u8]) -> Option<SessionType>
    ensures { result ≡ session_type_of (pairs text.now) }
{
    match found(text, b"SessionType") {
        None => Some(SessionType::Normal),
        Some(kind) => {
            if kind == b"Normal".as_slice() {
                Some(SessionType::Normal)
            } else if kind == b"Discovery".as_slice() {
                Some(SessionType::Discovery)
            } else {
                None
            }
        }
    }
}

/// Whether a text names another target than the one with this name.
pub fn names_other(target: &[u8], text: &[u8]) -> bool
    ensures { result ≡ is_other target.now (value_said Key.TargetName (pairs text.now)) }
{
    match found(text, b"TargetName") {
        None => false,
        Some(name) => name != target,
    }
}

/// Whether a text offers methods of authentication, and None is not among them (RFC 7143, 12.1).
pub fn wants_authentication(text: &[u8]) -> bool
    ensures { result ≡ wants_authentication (value_said Key.AuthMethod (pairs text.now)) }
{
    match found(text, b"AuthMethod") {
        None => false,
        Some(methods) => !is_listed(b"None", methods),
    }
}
