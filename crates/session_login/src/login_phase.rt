//! The login phase of a session (RFC 7143, 6.3): what each PDU comes to, and its one answer.
ghost use Rattle.std.specs.Prelude.{◌≡◌, ℕ, ◌+◌, ◌≤◌, List, [], length, vec_capacity, IfOk, Bool, Option};
ghost use Rattle.std.specs.Option.{option_or, unwrap_or};
ghost use Rattle.byteorder.specs.Endian.{big_number};
ghost use Rattle.iscsi_pdu.specs.declared.TheConstants.{MAX_DATA_SEGMENT_LENGTH};
ghost use Rattle.login.specs.declared.negotiation.TheConstants.{LONGEST_RESPONSE};
ghost use Rattle.login.specs.Progress.{Progress};
ghost use Rattle.login.specs.Request.{answer_to, after, kind_in};
ghost use Rattle.session_rules.specs.Asking.{Asking, began, lives};
ghost use Rattle.session_rules.specs.Handle.{HasHandle};
ghost use Rattle.session_rules.specs.Turn.{pdu as came, IsLed};
ghost use Rattle.session_rules.specs.Window.{wrap};
ghost use Rattle.session_rules.specs.Standing.{numbers_for};
ghost use Rattle.session_stream.specs.Pdus.{AreInReach, sent_by};
ghost use Rattle.session_rules.specs.LoginPhase.{flags_of, login_standing, cmd_sn_in, port_of, outcome_of_begin};
ghost use Rattle.session_rules.specs.LoginPhase.{outcome_of_lives, IsNegotiated, HasOutcome, progress_after, out};
ghost use Rattle.session_rules.specs.LoginPhase.{passed_header, refusal_of, bare_header, login_outs, begins};
ghost use Rattle.session_rules.specs.LoginPhase.{IsStart};
ghost use Rattle.session_login.specs.MakesLoginTurn.{IsResponseText, IsResponseTextOf};

use byteorder::{BigEndian, ByteOrder};
use iscsi_pdu::{
    Header, InitiatorHeader, LoginRequest, LoginResponse, Numbers, Pdu, Reject, TargetHeader,
};
use login::{LoginEnd, LoginFlags, LoginStatus, Negotiation, SessionType};
use scsi_types::NoMemory;
use session_rules::{
    BeginAnswer, COMMAND_NOT_SUPPORTED, Lengths, LoginOutcome, Start, Target, target_numbers,
};
use session_stream::{Pdus, ResponsePdu};
use std::alloc::Global;
use std::marker::Model;

/// A login that goes on.
#[derive(Drop)]
pub struct LoginPhase {
    negotiation: Negotiation,
    // The CmdSN of the first Login Request.
    first: Option<u32>,
    stat_sn: u32,
}

impl Model for LoginPhase {
    ghost use Rattle.session_rules.specs.LoginPhase.{LoginStanding};

    ghost Value = { LoginStanding };

    ghost view = { λ l. record { progress = l.negotiation; first = l.first; stat_sn = l.stat_sn } };
}

impl LoginPhase {
    /// A login that has not begun, with the target of this name, by a portal of the group with this tag. Takes all memory
    /// that it needs.
    pub fn new(alloc: Global, target: &[u8], tag: u16) -> Result<LoginPhase, NoMemory>
        ensures { IfOk result (λ l. l ≡ login_standing target.now tag []) }
    {
        Ok(LoginPhase {
            negotiation: Negotiation::new(alloc, target, tag)?,
            first: None,
            stat_sn: 1,
        })
    }

    /// The numbers of the PDU that answers one with this CmdSN, if it is a Login Request. It uses up a StatSN.
    pub fn take_numbers(&mut self, cmd_sn: Option<u32>) -> Numbers
        ensures numbers { result ≡ numbers_for self.old.stat_sn (unwrap_or (option_or self.old.first cmd_sn) 0) 0 }
        ensures after { self.new ≡ record {
          progress = self.old.progress;
          first = option_or self.old.first cmd_sn;
          stat_sn = wrap (self.old.stat_sn + 1);
        } }
    {
        self.first = self.first.or(cmd_sn);
        let numbers = target_numbers(self.stat_sn, self.first.unwrap_or(0), 0);
        self.stat_sn = self.stat_sn.wrapping_add(1);
        numbers
    }

    /// What a PDU comes to, with what the target answers. A text that answers it stands in the memory then.
    pub fn on_pdu<T: Target>(
        &mut self,
        target: &mut T,
        room: &mut Vec<u8>,
        pdu: &Pdu<'_>,
    ) -> LoginOutcome
        requires room { LONGEST_RESPONSE ≤ vec_capacity room.old }
        ensures outcome { (bhs : List ℕ) → (call : Option Asking) × IsLed T.leads call target.old target.new
            × HasOutcome self.old.progress (came bhs pdu.now.header pdu.now.data.now) call result }
        ensures state { (bhs : List ℕ) → self.new ≡ record self.old {
          progress = progress_after self.old.progress (came bhs pdu.now.header pdu.now.data.now);
        } }
        ensures text { IsResponseTextOf self.old.progress pdu.now.header pdu.now.data.now result room.new.items }
        ensures short { length room.new.items ≤ LONGEST_RESPONSE }
        ensures kept { vec_capacity room.old ≤ vec_capacity room.new }
    {
        match pdu.header {
            Header::Initiator(InitiatorHeader::LoginRequest(request)) => {
                self.negotiate(target, room, &request, pdu.data)
            }
            Header::Initiator(_) => {
                room.clear();
                LoginOutcome::Refused(LoginStatus::InvalidDuringLogin)
            }
            Header::Target(_) => {
                room.clear();
                LoginOutcome::Rejected(COMMAND_NOT_SUPPORTED)
            }
        }
    }

    // What a Login Request comes to, with what the target answers.
    fn negotiate<T: Target>(
        &mut self,
        target: &mut T,
        room: &mut Vec<u8>,
        request: &LoginRequest,
        text: &[u8],
    ) -> LoginOutcome
        requires room { LONGEST_RESPONSE ≤ vec_capacity room.old }
        ensures outcome { (call : Option Asking) × IsLed T.leads call target.old target.new
            × IsNegotiated self.old.progress request.now text.now
            (answer_to self.old.progress (flags_of request.now) text.now) call result }
        ensures state { self.new
            ≡ record self.old { progress = after self.old.progress (flags_of request.now) text.now } }
        ensures text { IsResponseText (answer_to self.old.progress (flags_of request.now) text.now) result room.new.items }
        ensures short { length room.new.items ≤ LONGEST_RESPONSE }
        ensures kept { vec_capacity room.old ≤ vec_capacity room.new }
    {
        match self.negotiation.request(room, flags_of(request), text) {
            LoginEnd::GoesOn => LoginOutcome::GoesOn,
            LoginEnd::Accepted => self.begin_session(target, request),
            LoginEnd::Refused(status) => LoginOutcome::Refused(status),
            LoginEnd::NamesSession => find_session(target, request, room),
        }
    }

    // Where all checks passed: the target is asked to begin the session.
    fn begin_session<T: Target>(&self, target: &mut T, request: &LoginRequest) -> LoginOutcome
        ensures { (answer : BeginAnswer) × T.leads target.old
            (began (port_of request.now self.now.progress.said) (kind_in self.now.progress.kind) answer) target.new
            × HasHandle answer × (result ≡ outcome_of_begin answer) }
    {
        let name = self.negotiation.initiator();
        match target.begin(name, isid_of(request), self.kind()) {
            BeginAnswer::Begun(tsih) => LoginOutcome::Begun(tsih),
            BeginAnswer::Refused => LoginOutcome::Refused(LoginStatus::OutOfResources),
        }
    }

    /// The kind of the session that the login begins.
    pub fn kind(&self) -> SessionType
        ensures { result ≡ kind_in self.now.progress.kind }
    {
        self.negotiation.session_kind()
    }

    /// What full feature phase begins with.
    pub fn start(&self) -> Start
        ensures { IsStart self.now result }
    {
        let parameters = self.negotiation.parameters();
        Start {
            exp_cmd_sn: self.first.unwrap_or(0),
            stat_sn: self.stat_sn,
            lengths: Lengths {
                data_segment: parameters.max_recv_data_segment_length,
                burst: parameters.max_burst_length,
                first_burst: parameters.first_burst_length,
                immediate_data: parameters.immediate_data,
            },
        }
    }
}

// Where a request names a session: the target is asked whether it lives, and is of the port with this InitiatorName.
fn find_session<T: Target>(target: &mut T, request: &LoginRequest, name: &[u8]) -> LoginOutcome
    ensures { (answer : Bool) × T.leads target.old
        (lives request.now.tsih (record { name = name.now; isid = big_number 6 request.now.isid }) answer) target.new
        × (result ≡ outcome_of_lives answer) }
{
    if target.lives(request.tsih, name, isid_of(request)) {
        LoginOutcome::Refused(LoginStatus::TooManyConnections)
    } else {
        LoginOutcome::Refused(LoginStatus::SessionDoesNotExist)
    }
}

// The ISID, six bytes read as a number.
fn isid_of(request: &LoginRequest) -> u64
    ensures { result ≡ big_number 6 request.now.isid }
{
    BigEndian::read_u48(&request.isid)
}

// What the negotiation looks at in a header.
fn flags_of(request: &LoginRequest) -> LoginFlags
    ensures { result ≡ flags_of request.now }
{
    LoginFlags {
        transit: request.transit,
        continues: request.continues,
        current_stage: request.current_stage,
        next_stage: request.next_stage,
        version_min: request.version_min,
        tsih: request.tsih,
    }
}

/// The CmdSN of a Login Request.
pub fn login_cmd_sn(header: &Header) -> Option<u32>
    ensures { (bhs d : List ℕ) → result ≡ cmd_sn_in (came bhs header.now d) }
{
    match header {
        Header::Initiator(InitiatorHeader::LoginRequest(request)) => Some(request.numbers.cmd_sn),
        Header::Initiator(InitiatorHeader::NopOut(_))
        | Header::Initiator(InitiatorHeader::ScsiCommand(_))
        | Header::Initiator(InitiatorHeader::TaskManagementRequest(_))
        | Header::Initiator(InitiatorHeader::TextRequest(_))
        | Header::Initiator(InitiatorHeader::DataOut(_))
        | Header::Initiator(InitiatorHeader::LogoutRequest(_))
        | Header::Target(_) => None,
    }
}

/// The one PDU that answers a PDU in a login, with these numbers, by what it came to, and with this text where it passed.
pub fn login_pdus<'a>(
    numbers: Numbers,
    header: &Header,
    outcome: LoginOutcome,
    text: &'a [u8],
) -> Pdus<'a>
    requires short { length text.now ≤ LONGEST_RESPONSE }
    ensures pdus { (s : Progress) (bhs d : List ℕ) → IsResponseTextOf s header.now d outcome text.now
        → sent_by bhs result ≡ login_outs numbers s (came bhs header.now d) outcome }
    ensures within { AreInReach result }
{
    match (outcome, header) {
        (LoginOutcome::Rejected(reason), _) => Pdus::Reject(Reject { reason, numbers }),
        (LoginOutcome::Refused(status), Header::Initiator(header)) => response(
            refusal_of(numbers, header, status),
            &[],
        ),
        (LoginOutcome::GoesOn, Header::Initiator(InitiatorHeader::LoginRequest(request))) => {
            response(passed(numbers, request, 0), text)
        }
        (LoginOutcome::Begun(tsih), Header::Initiator(InitiatorHeader::LoginRequest(request))) => {
            response(passed(numbers, request, tsih), text)
        }
        (LoginOutcome::GoesOn, Header::Initiator(InitiatorHeader::NopOut(_)))
        | (LoginOutcome::Begun(_), Header::Initiator(InitiatorHeader::NopOut(_)))
        | (LoginOutcome::GoesOn, Header::Initiator(InitiatorHeader::ScsiCommand(_)))
        | (LoginOutcome::Begun(_), Header::Initiator(InitiatorHeader::ScsiCommand(_)))
        | (LoginOutcome::GoesOn, Header::Initiator(InitiatorHeader::TaskManagementRequest(_)))
        | (LoginOutcome::Begun(_), Header::Initiator(InitiatorHeader::TaskManagementRequest(_)))
        | (LoginOutcome::GoesOn, Header::Initiator(InitiatorHeader::TextRequest(_)))
        | (LoginOutcome::Begun(_), Header::Initiator(InitiatorHeader::TextRequest(_)))
        | (LoginOutcome::GoesOn, Header::Initiator(InitiatorHeader::DataOut(_)))
        | (LoginOutcome::Begun(_), Header::Initiator(InitiatorHeader::DataOut(_)))
        | (LoginOutcome::GoesOn, Header::Initiator(InitiatorHeader::LogoutRequest(_)))
        | (LoginOutcome::Begun(_), Header::Initiator(InitiatorHeader::LogoutRequest(_)))
        | (LoginOutcome::GoesOn, Header::Target(_))
        | (LoginOutcome::Begun(_), Header::Target(_))
        | (LoginOutcome::Refused(_), Header::Target(_)) => Pdus::Nothing,
    }
}

// A Login Response with this text.
fn response<'a>(header: LoginResponse, bytes: &'a [u8]) -> Pdus<'a>
    requires { length bytes.now ≤ MAX_DATA_SEGMENT_LENGTH }
    ensures pdus { (bhs : List ℕ) → sent_by bhs result ≡ out (TargetHeader.LoginResponse header) bytes.now }
    ensures within { AreInReach result }
{
    Pdus::Response(ResponsePdu {
        header: TargetHeader::LoginResponse(header),
        bytes,
    })
}

// The response to a request that passed (RFC 7143, 11.13): the last alone has a TSIH.
fn passed(numbers: Numbers, request: &LoginRequest, tsih: u16) -> LoginResponse
    ensures { TargetHeader.LoginResponse result ≡ passed_header numbers request.now tsih }
{
    LoginResponse {
        transit: request.transit,
        continues: false,
        current_stage: request.current_stage,
        next_stage: if request.transit {
            request.next_stage
        } else {
            0
        },
        isid: request.isid,
        tsih,
        task_tag: request.task_tag,
        numbers,
        status_class: 0,
        status_detail: 0,
    }
}

// The refusal of a PDU of an initiator: that of a Login Request has its stage, its ISID and its TSIH.
fn refusal_of(numbers: Numbers, header: &InitiatorHeader, status: LoginStatus) -> LoginResponse
    ensures { TargetHeader.LoginResponse result ≡ refusal_of numbers header.now status }
{
    match header {
        InitiatorHeader::LoginRequest(p) => LoginResponse {
            current_stage: p.current_stage,
            isid: p.isid,
            tsih: p.tsih,
            ..bare(numbers, p.task_tag, status)
        },
        InitiatorHeader::NopOut(p) => bare(numbers, p.task_tag, status),
        InitiatorHeader::ScsiCommand(p) => bare(numbers, p.task_tag, status),
        InitiatorHeader::TaskManagementRequest(p) => bare(numbers, p.task_tag, status),
        InitiatorHeader::TextRequest(p) => bare(numbers, p.task_tag, status),
        InitiatorHeader::DataOut(p) => bare(numbers, p.task_tag, status),
        InitiatorHeader::LogoutRequest(p) => bare(numbers, p.task_tag, status),
    }
}

// A refusal with neither stage, ISID nor TSIH.
fn bare(numbers: Numbers, task_tag: u32, status: LoginStatus) -> LoginResponse
    ensures { TargetHeader.LoginResponse result ≡ bare_header numbers task_tag status }
{
    LoginResponse {
        transit: false,
        continues: false,
        current_stage: 0,
        next_stage: 0,
        isid: [0; 6],
        tsih: 0,
        task_tag,
        numbers,
        status_class: status.class(),
        status_detail: status.detail(),
    }
}
