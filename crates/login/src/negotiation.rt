//! The negotiation of a login, in memory that is taken before its first request.
ghost use Rattle.std.specs.Prelude.{◌≡◌, ◌+◌, ◌++◌, ◌≤◌, ◌<◌, ◌||◌, ℕ, List, IfOk, is_none, not, true, false};
ghost use Rattle.std.specs.Prelude.{length, vec_capacity, Some, None};
ghost use Rattle.login.specs.Request.{next_stage, kind_after, kind_in, initiator_of};
ghost use Rattle.login.specs.Text.{is_text, pairs};
ghost use Rattle.login.specs.Parameters.{parameters_of};
ghost use Rattle.login.specs.Progress.{Progress, beginning};

use crate::answer::{put_answers, put_bytes, put_number};
use crate::key::DATA_SEGMENT_LENGTH;
use crate::parameters::Parameters;
use crate::refusal::{
    MOST_BYTES, has_bad_name, has_repeated, has_wrong_flags, is_too_long, names_other,
    session_type_of, wants_authentication,
};
use crate::status::{
    FULL_FEATURE, LoginFlags, LoginRefusal, LoginStatus, OPERATIONAL, SessionType,
};
use crate::text::{found, is_text};
use scsi_types::NoMemory;
use std::alloc::Global;
use std::marker::Model;

/// The longest text of a response (bytes). A request that is answered has at most 8192 bytes and 64 pairs, with the
/// others of its run. The answer to a pair is at most 13 bytes longer than the pair (NotUnderstood); 14 are counted, as if
/// it lacked its `=`. What the target says by itself has at most 58. Together that is 9146, here rounded up to 9 KiB.
pub const LONGEST_RESPONSE: u32 = 9216;

/// What a Login Request comes to.
#[derive(Clone, Copy)]
pub enum LoginEnd {
    /// The login goes on. The text of the response stands in the memory that was given; T and NSG are as they were asked
    /// for.
    GoesOn,
    /// The session goes to full feature phase. The text of the last response stands in the memory.
    Accepted,
    /// The login is refused with this status; the negotiation stands where it stood.
    Refused(LoginStatus),
    /// Its TSIH is not 0: refused as one connection too many where that session lives, else as a session that does not
    /// exist. Its InitiatorName stands in the memory, and the negotiation where it stood.
    NamesSession,
}

/// The negotiation of a login, from its first request on. It takes all its memory when it is made.
#[derive(Drop)]
pub struct Negotiation {
    // The target's name.
    target: Vec<u8>,
    // The tag of the group of the portal by which the login came.
    tag: u16,
    // The current stage, once a request was answered.
    stage: Option<u8>,
    // The session type, once a request without C was answered.
    kind: Option<SessionType>,
    // Whether the target has declared its MaxRecvDataSegmentLength.
    length_declared: bool,
    // The texts of the requests that were answered, one behind the other, but for those that wait.
    said: Vec<u8>,
    // The text of the requests with C that wait for the last of their run.
    run_text: Vec<u8>,
}

impl Model for Negotiation {
    ghost use Rattle.std.specs.Prelude.{◌≤◌, ◌<◌, length, vec_capacity};
    ghost use Rattle.login.specs.Progress.{Progress};
    ghost use Rattle.login.specs.declared.refusal.TheConstants.{MOST_BYTES};

    ghost Value = { Progress };

    ghost view = { λ n. record {
      target = n.target.items;
      tag = n.tag;
      stage = n.stage;
      kind = n.kind;
      length_declared = n.length_declared;
      said = n.said.items;
      run_text = n.run_text.items;
    } };

    ghost invariant = { λ n. (length n.run_text.items ≤ MOST_BYTES) × (MOST_BYTES ≤ vec_capacity n.run_text)
        × (MOST_BYTES ≤ vec_capacity n.said) × (n.tag < 65536) };
}

impl Negotiation {
    ghost use Rattle.login.specs.Refusal.{refusal_in, first_refusal, rules_of_first, rules_of_later, rules_of_names, has_repeated};
    ghost use Rattle.login.specs.Refusal.{is_too_long};
    ghost use Rattle.login.specs.Request.{answer_to, answer_by, after, passed, told};
    ghost use Rattle.login.specs.Request.{response, group_text, length_text, tells_length};

    /// A negotiation that has not begun, with the target of this name, by a portal of the group with this tag.
    pub fn new(alloc: Global, target: &[u8], tag: u16) -> Result<Negotiation, NoMemory>
        ensures { IfOk result (λ n. n ≡ beginning target.now tag) }
    {
        Ok(Negotiation {
            target: Vec::from_slice(alloc, target)?,
            tag,
            stage: None,
            kind: None,
            length_declared: false,
            said: Vec::with_capacity(alloc, MOST_BYTES)?,
            run_text: Vec::with_capacity(alloc, MOST_BYTES)?,
        })
    }

    /// What a Login Request with these fields of its header and this text comes to. `out` then has the text of the response where it is
    /// answered, which is empty for one whose text goes on (C); the InitiatorName behind `NamesSession`; else nothing.
    #[tactic(auto, unfolding(crate::specs::Request::answer_to, crate::specs::Request::after))]
    pub fn request(&mut self, out: &mut Vec<u8>, flags: LoginFlags, text: &[u8]) -> LoginEnd
        requires room { LONGEST_RESPONSE ≤ vec_capacity out.old }
        ensures answer { told result out.new.items ≡ answer_to self.old flags text.now }
        ensures state { self.new ≡ after self.old flags text.now }
        ensures named { result ≡ LoginEnd.NamesSession
            → out.new.items ≡ initiator_of (pairs (self.old.run_text ++ text.now)) }
        ensures short { length out.new.items ≤ LONGEST_RESPONSE }
        ensures kept { vec_capacity out.old ≤ vec_capacity out.new }
    {
        out.clear();
        if MOST_BYTES - self.run_text.len() < text.len() {
            return LoginEnd::Refused(self.status_of_long(flags));
        }
        let before = self.run_text.len();
        put_bytes(&mut self.run_text, text);
        match self.refusal(flags, &self.run_text) {
            Some(LoginRefusal::Refused(status)) => {
                self.run_text.truncate(before);
                LoginEnd::Refused(status)
            }
            Some(LoginRefusal::NamesSession) => {
                put_bytes(out, initiator_of(&self.run_text));
                self.run_text.truncate(before);
                LoginEnd::NamesSession
            }
            None => self.proceed(out, flags),
        }
    }

    /// The session type, Normal before the first request was answered.
    pub fn session_kind(&self) -> SessionType
        ensures { result ≡ kind_in self.now.kind }
    {
        match self.kind {
            Some(kind) => kind,
            None => SessionType::Normal,
        }
    }

    /// The InitiatorName, empty before the first request was answered.
    pub fn initiator(&self) -> &[u8]
        ensures { result.now ≡ initiator_of (pairs self.now.said) }
    {
        initiator_of(&self.said)
    }

    /// The values in force by what was said so far.
    pub fn parameters(&self) -> Parameters
        ensures values { result ≡ parameters_of (pairs self.now.said) }
        ensures lengths { (512 ≤ result.max_burst_length) × (512 ≤ result.max_recv_data_segment_length) }
    {
        Parameters::after(&self.said)
    }

    /// The status of a request that has more than 8192 bytes with the others of its run, so that its text is not looked at.
    #[tactic(auto, unfolding(crate::specs::Refusal::refusal_in))]
    fn status_of_long(&self, flags: LoginFlags) -> LoginStatus
        ensures { (whole : List ℕ) → MOST_BYTES < length whole
            → refusal_in self.now flags whole ≡ Some (LoginRefusal.Refused result) }
    {
        if has_wrong_flags(self.stage, flags) || flags.continues || self.kind.is_some() {
            return LoginStatus::InitiatorError;
        }
        if flags.version_min != 0 {
            LoginStatus::UnsupportedVersion
        } else {
            LoginStatus::InitiatorError
        }
    }

    /// Whether no request without C was answered yet.
    fn is_first(&self) -> bool
        ensures { result ≡ is_none self.now.kind }
    {
        self.kind.is_none()
    }

    /// Why a request is refused, if it is: by the first rule that applies. `whole` is its text with those of its run.
    #[tactic(auto, unfolding(crate::specs::Refusal::refusal_in))]
    fn refusal(&self, flags: LoginFlags, whole: &[u8]) -> Option<LoginRefusal>
        ensures { result ≡ refusal_in self.now flags whole.now }
    {
        if has_wrong_flags(self.stage, flags) {
            return refused(LoginStatus::InitiatorError);
        }
        if flags.continues {
            if is_too_long(&self.said, whole) {
                return refused(LoginStatus::InitiatorError);
            }
            return None;
        }
        if self.is_first() {
            self.refusal_of_first(flags, whole)
        } else {
            self.refusal_of_later(flags, whole)
        }
    }

    /// The same of a login's first request without C, behind the rule of its flags.
    fn refusal_of_first(&self, flags: LoginFlags, whole: &[u8]) -> Option<LoginRefusal>
        requires { is_none self.now.kind ≡ true }
        ensures { result ≡ first_refusal rules_of_first self.now flags whole.now }
    {
        if flags.version_min != 0 {
            return refused(LoginStatus::UnsupportedVersion);
        }
        if self.has_bad_text(true, whole) || has_bad_name(whole) {
            return refused(LoginStatus::InitiatorError);
        }
        self.refusal_by_names(flags, whole)
    }

    /// The same behind the rules of its length and its form: by its names, its session and its authentication.
    fn refusal_by_names(&self, flags: LoginFlags, whole: &[u8]) -> Option<LoginRefusal>
        ensures { result ≡ first_refusal rules_of_names self.now flags whole.now }
    {
        if found(whole, b"InitiatorName").is_none() {
            return refused(LoginStatus::MissingParameter);
        }
        let kind = session_type_of(whole);
        if kind.is_none() {
            return refused(LoginStatus::SessionTypeNotSupported);
        }
        if kind == Some(SessionType::Normal) && found(whole, b"TargetName").is_none() {
            return refused(LoginStatus::MissingParameter);
        }
        if names_other(&self.target, whole) {
            return refused(LoginStatus::NotFound);
        }
        if flags.tsih != 0 {
            return Some(LoginRefusal::NamesSession);
        }
        if wants_authentication(whole) {
            return refused(LoginStatus::AuthenticationFailure);
        }
        None
    }

    /// The same of a later request without C, behind the rule of its flags.
    fn refusal_of_later(&self, flags: LoginFlags, whole: &[u8]) -> Option<LoginRefusal>
        requires { is_none self.now.kind ≡ false }
        ensures { result ≡ first_refusal rules_of_later self.now flags whole.now }
    {
        if self.has_bad_text(false, whole) {
            return refused(LoginStatus::InitiatorError);
        }
        if wants_authentication(whole) {
            return refused(LoginStatus::AuthenticationFailure);
        }
        None
    }

    /// Whether a text is too long with what was said, no list of pairs, or names a key again.
    fn has_bad_text(&self, first: bool, whole: &[u8]) -> bool
        ensures { result ≡ (is_too_long self.now.said whole.now
            || (not (is_text whole.now) || has_repeated first (pairs self.now.said) (pairs whole.now))) }
    {
        is_too_long(&self.said, whole) || !is_text(whole) || has_repeated(first, &self.said, whole)
    }

    /// Answers a request that no rule refuses, whose text stands in `run_text` with those of its run.
    fn proceed(&mut self, out: &mut Vec<u8>, flags: LoginFlags) -> LoginEnd
        requires empty { length out.old.items ≡ 0 }
        requires room { LONGEST_RESPONSE ≤ vec_capacity out.old }
        requires fits { is_too_long self.old.said self.old.run_text ≡ false }
        ensures answer { told result out.new.items
            ≡ answer_by None flags (response self.old flags (pairs self.old.run_text)) }
        ensures state { self.new ≡ passed self.old flags self.old.run_text }
        ensures going { result ≡ LoginEnd.NamesSession → ⊥ }
        ensures short { length out.new.items ≤ LONGEST_RESPONSE }
        ensures kept { vec_capacity out.old ≤ vec_capacity out.new }
    {
        if flags.continues {
            self.stage = Some(flags.current_stage);
            return LoginEnd::GoesOn;
        }
        self.put_response(out, flags, &self.run_text);
        put_bytes(&mut self.said, &self.run_text);
        let next = next_stage(flags);
        self.stage = Some(next);
        self.kind = kind_after(self.kind, &self.run_text);
        self.length_declared = self.length_declared || flags.current_stage == OPERATIONAL;
        self.run_text.clear();
        if next == FULL_FEATURE {
            LoginEnd::Accepted
        } else {
            LoginEnd::GoesOn
        }
    }

    /// Appends what the target says by itself, and the answers.
    fn put_response(&self, out: &mut Vec<u8>, flags: LoginFlags, whole: &[u8])
        requires room { length out.old.items + length (response self.now flags (pairs whole.now)) ≤ vec_capacity out.old }
        ensures put { out.new.items ≡ out.old.items ++ response self.now flags (pairs whole.now) }
        ensures kept { vec_capacity out.old ≤ vec_capacity out.new }
    {
        self.put_group(out, whole);
        self.put_length(out, flags);
        put_answers(out, whole);
    }

    /// Appends TargetPortalGroupTag, in the response of a normal session to its first request.
    fn put_group(&self, out: &mut Vec<u8>, whole: &[u8])
        requires room { length out.old.items
            + length (group_text self.now.tag self.now.kind (kind_after self.now.kind (pairs whole.now)))
            ≤ vec_capacity out.old }
        ensures put { out.new.items
            ≡ out.old.items ++ group_text self.now.tag self.now.kind (kind_after self.now.kind (pairs whole.now)) }
        ensures kept { vec_capacity out.old ≤ vec_capacity out.new }
    {
        if self.is_first() && session_type_of(whole) == Some(SessionType::Normal) {
            put_number(out, b"TargetPortalGroupTag", self.tag as u32);
        }
    }

    /// Appends MaxRecvDataSegmentLength, in the first response of the operational stage.
    fn put_length(&self, out: &mut Vec<u8>, flags: LoginFlags)
        requires room { length out.old.items + length (length_text (tells_length self.now flags)) ≤ vec_capacity out.old }
        ensures put { out.new.items ≡ out.old.items ++ length_text (tells_length self.now flags) }
        ensures kept { vec_capacity out.old ≤ vec_capacity out.new }
    {
        if !self.length_declared && flags.current_stage == OPERATIONAL {
            put_number(out, b"MaxRecvDataSegmentLength", DATA_SEGMENT_LENGTH);
        }
    }
}

// Refused with this status.
fn refused(status: LoginStatus) -> Option<LoginRefusal>
    ensures { result ≡ Some (LoginRefusal.Refused status) }
{
    Some(LoginRefusal::Refused(status))
}

// The stage behind a request: as T asks for it, else that of the request.
fn next_stage(flags: LoginFlags) -> u8
    ensures { result ≡ next_stage flags }
{
    if flags.transit {
        flags.next_stage
    } else {
        flags.current_stage
    }
}

// The session type behind a request, as the first one said it.
fn kind_after(kind: Option<SessionType>, text: &[u8]) -> Option<SessionType>
    ensures { result ≡ kind_after kind (pairs text.now) }
{
    match kind {
        Some(kind) => Some(kind),
        None => session_type_of(text),
    }
}

/// The InitiatorName that a text says, empty where it says none.
fn initiator_of(text: &[u8]) -> &[u8]
    ensures said { result.now ≡ initiator_of (pairs text.now) }
    ensures within { length result.now ≤ length text.now }
{
    match found(text, b"InitiatorName") {
        Some(name) => name,
        None => &[],
    }
}
