//! A session without bytes: what it makes of PDUs and of answers.
ghost use Rattle.std.specs.Prelude.{◌≡◌, ℕ, List, [], ◌≤◌, Some, None, length, vec_capacity, IfOk, IfSome, MatchOption};
ghost use Rattle.scsi_types.specs.Cdb.{need_of};
ghost use Rattle.iscsi_pdu.specs.declared.TheConstants.{MAX_DATA_SEGMENT_LENGTH};
ghost use Rattle.session_full_feature.specs.declared.text.MadeText.{MadeText};
ghost use Rattle.session_rules.specs.declared.verdict.Verdict.TheVariants.{Accepted, Full};
ghost use Rattle.session_rules.specs.Setting.{setting_of, discovers};
ghost use Rattle.session_rules.specs.Text.{IsMadeOf};
ghost use Rattle.session_full_feature.specs.Machine.{IsMade, OnPdu, OnCommand, OnUnaccepted, OnRefusal, OnAnswer, Sends};
ghost use Rattle.session_full_feature.specs.Machine.{Answers, Calls, OnAccepted, OnFull, OnData, r2t_with_for, BeginsToWait, CanTake};
ghost use Rattle.session_full_feature.specs.Step.{says, says_r2t, said, step_of, call_data, pdus_of};
ghost use Rattle.session_rules.specs.Transfer.{data_for};
ghost use Rattle.session_rules.specs.Collecting.{HasToCollect};
ghost use Rattle.session_tasks.specs.Slots.{IsAskedBy};
ghost use Rattle.session_rules.specs.Tasks.{Collecting};
ghost use Rattle.session_rules.specs.Standing.{window_of};
ghost use Rattle.session_full_feature.specs.Counters.{Counters, begun, after_number, after_collecting, next_numbers};
ghost use Rattle.session_rules.specs.TaskManagement.{IsManagement};
ghost use Rattle.session_rules.specs.Verdict.{is_open, reason_of, window_verdict};
ghost use Rattle.session_stream.specs.Pdus.{AreInReach, out_of};
ghost use Rattle.session_full_feature.specs.AnswerPdus.{reply_with};

use crate::actions::{Actions, Call, CommandData, OpenTask, Sending, ServeCall};
use crate::response::{Completion, scsi_response};
use crate::text::{MadeText, discovers};
use crate::verdict::{command_verdict, window_verdict};
use iscsi_pdu::{
    DataOut, Header, InitiatorHeader, Numbers, Pdu, PduFault, R2t, Reject, ScsiCommand,
    TaskManagementRequest,
};
use login::{SessionType, TextAnswer, answer_within, target_text};
use scsi_types::{Asked, Lun, NoMemory, Status, decode, need};
use session_rules::{
    COMMAND_NOT_SUPPORTED, End, LONGEST_TEXT, Lengths, ManagementOutcome, PROTOCOL_ERROR, Start,
    TargetAnswer, TargetRecord, Verdict, WINDOW, Window, next_exp_cmd_sn, next_transfer_tag,
    reject_reason, target_numbers,
};
use session_stream::{DataIns, Pdus, ResponsePdu, count};
use session_tasks::{
    R2tWith, WaitingCommand, WaitingCommands, command_data, has_to_collect, management_for,
    returned_data,
};
use std::alloc::Global;
use std::marker::Model;

/// A session in full feature phase: what it makes of PDUs and of answers. It reads and writes nothing itself.
#[derive(Drop)]
pub struct Session {
    alloc: Global,
    stat_sn: u32,
    exp_cmd_sn: u32,
    waiting: WaitingCommands,
    transfer_tag: u32,
    // How many units the target has.
    units: u16,
    kind: SessionType,
    target_name: Vec<u8>,
    // What the target tells of itself.
    told: Vec<u8>,
    start: Start,
}

impl Model for Session {
    ghost use Rattle.session_full_feature.specs.Counters.{Counters};

    ghost Value = { Counters };

    ghost view = { λ s. record {
      setting = record {
        units = s.units;
        kind = s.kind;
        target_name = s.target_name.items;
        told = s.told.items;
        start = s.start;
      };
      stat_sn = s.stat_sn;
      standing = record { exp_cmd_sn = s.exp_cmd_sn; collecting = s.waiting; transfer_tag = s.transfer_tag };
    } };
}

impl Session {
    /// A session of this kind that begins so, with a target of this record that has so many units. Takes the memory for the
    /// commands that wait for their data; later only the data itself takes memory.
    pub fn new(
        alloc: Global,
        kind: SessionType,
        start: Start,
        units: u16,
        me: &TargetRecord<'_>,
    ) -> Result<Session, NoMemory>
        ensures { IfOk result (λ s. s ≡ begun (setting_of units me.now kind start)) }
    {
        Ok(Session {
            alloc,
            stat_sn: start.stat_sn,
            exp_cmd_sn: start.exp_cmd_sn,
            waiting: WaitingCommands::new(alloc)?,
            transfer_tag: 0,
            units,
            kind,
            target_name: me.target_name.to_vec(alloc)?,
            told: target_text(alloc, me.target_name, me.first, me.second)?,
            start,
        })
    }

    /// Begins anew, as a session of this kind: before anything came.
    pub fn begin(&mut self, kind: SessionType, start: Start)
        ensures { self.old.standing.collecting ≡ []
            → self.new ≡ begun (record (self.old.setting) { kind = kind; start = start }) }
    {
        self.kind = kind;
        self.start = start;
        self.stat_sn = start.stat_sn;
        self.exp_cmd_sn = start.exp_cmd_sn;
        self.transfer_tag = 0;
    }

    /// Gives memory back while nothing comes.
    pub fn rest(&mut self)
        ensures { self.new ≡ self.old }
    {
        self.waiting.rest();
    }

    /// Answers the text of a PDU, where it is a Text Request, in memory with room for the longest answer: whether it has
    /// one that the initiator takes.
    pub fn make_text(&self, room: &mut Vec<u8>, pdu: &Pdu<'_>) -> bool
        requires room { LONGEST_TEXT ≤ vec_capacity room.old }
        ensures made { (text : MadeText) → text.is_made ≡ result → text.bytes.now ≡ room.new.items
            → IsMade self.now.setting pdu.now.header pdu.now.data.now text }
        ensures kept { vec_capacity room.old ≤ vec_capacity room.new }
    {
        match pdu.header {
            Header::Initiator(InitiatorHeader::TextRequest(_)) => self.answer_in(room, pdu.data),
            _ => false,
        }
    }

    // Answers a text, where it has an answer that the initiator takes.
    fn answer_in(&self, room: &mut Vec<u8>, bytes: &[u8]) -> bool
        requires room { LONGEST_TEXT ≤ vec_capacity room.old }
        ensures made { IsMadeOf result self.now.setting bytes.now room.new.items }
        ensures kept { vec_capacity room.old ≤ vec_capacity room.new }
    {
        let most = self.start.lengths.data_segment.min(LONGEST_TEXT) as usize;
        match answer_within(room, most, &self.target_name, self.kind, &self.told, bytes) {
            TextAnswer::Answered => true,
            TextAnswer::Fault => false,
            TextAnswer::TooLong => false,
        }
    }

    /// What a PDU with this header and this data calls for: the window first, then the causes of a Reject (RFC 7143, 4.2.2.1
    /// and 7.3). A command that is accepted is to be called. A PDU of a kind that is not served is rejected. `text` is what
    /// [`make_text`](Session::make_text) made of the PDU.
    pub fn on_pdu<'a>(
        &mut self,
        header: &Header,
        bytes: &'a [u8],
        text: MadeText<'a>,
    ) -> Actions<'a>
        requires made { IsMade self.old.setting header.now bytes.now text }
        ensures on { OnPdu self.old header.now bytes.now (step_of result) self.new }
        ensures within { AreInReach (pdus_of result) }
    {
        match header {
            Header::Initiator(header) => self.on_initiator(header, bytes, text),
            Header::Target(_) => Actions::Send(self.reject(COMMAND_NOT_SUPPORTED)),
        }
    }

    // What an initiator's PDU calls for.
    fn on_initiator<'a>(
        &mut self,
        header: &InitiatorHeader,
        bytes: &'a [u8],
        text: MadeText<'a>,
    ) -> Actions<'a>
        requires made { IsMade self.old.setting (Header.Initiator header.now) bytes.now text }
        ensures on { OnPdu self.old (Header.Initiator header.now) bytes.now (step_of result) self.new }
        ensures within { AreInReach (pdus_of result) }
    {
        match header {
            InitiatorHeader::NopOut(request) => Actions::Send(self.on_nop_out(*request, bytes)),
            InitiatorHeader::ScsiCommand(command) => self.on_command(command, bytes),
            InitiatorHeader::TaskManagementRequest(request) => self.on_task_management(*request),
            InitiatorHeader::LoginRequest(_) => Actions::Send(self.reject(PROTOCOL_ERROR)),
            InitiatorHeader::TextRequest(request) => {
                Actions::Send(self.on_text(*request, bytes, text))
            }
            InitiatorHeader::DataOut(header) => self.on_data_out(*header, bytes),
            InitiatorHeader::LogoutRequest(request) => Actions::Send(self.on_logout(*request)),
        }
    }

    /// The lengths in force.
    pub(crate) fn lengths(&self) -> Lengths
        ensures { result ≡ self.now.setting.start.lengths }
    {
        self.start.lengths
    }

    /// Whether it is a discovery session.
    pub(crate) fn discovers(&self) -> bool
        ensures { result ≡ discovers self.now.setting.kind }
    {
        discovers(self.kind)
    }

    /// Whether a command that waits for its data has this task tag.
    pub(crate) fn is_open(&self, task_tag: u32) -> bool
        ensures { result ≡ is_open self.now.standing task_tag }
    {
        self.waiting.has(task_tag)
    }

    /// What a request for task management comes to. The commands that it drops wait for their data no more.
    pub(crate) fn drop_tasks(&mut self, request: &TaskManagementRequest) -> ManagementOutcome
        ensures { (kept : List Collecting)
            × IsManagement self.old.setting.units self.old.standing.collecting request.now result kept
            × (self.new ≡ after_collecting kept self.old) }
    {
        management_for(request, self.units, &mut self.waiting)
    }

    // The command window.
    fn window(&self) -> Window
        ensures { result ≡ window_of self.now.standing }
    {
        Window {
            exp_cmd_sn: self.exp_cmd_sn,
            size: WINDOW.saturating_sub(self.waiting.numbered()),
        }
    }

    /// What becomes of a PDU with this I bit and CmdSN, which is rejected in its turn if there is a cause.
    pub(crate) fn verdict(&self, immediate: bool, cmd_sn: u32, refused: bool) -> Verdict
        ensures { result ≡ window_verdict self.now.standing immediate cmd_sn refused }
    {
        window_verdict(self.window(), immediate, cmd_sn, refused)
    }

    /// What a verdict calls for that does not accept its PDU.
    pub(crate) fn turned_away<'a>(&mut self, verdict: Verdict) -> Option<Sending<'a>>
        requires { verdict ≡ Full → ⊥ }
        ensures away { MatchOption result ((verdict ≡ Accepted) × (self.new ≡ self.old))
            (λ x. OnUnaccepted verdict self.old (said x) self.new) }
        ensures within { IfSome result (λ x. AreInReach x.pdus) }
    {
        match verdict {
            Verdict::Accepted => None,
            Verdict::Full => unreachable!(),
            Verdict::Ignored => Some(silence()),
            Verdict::Gap => Some(Sending {
                pdus: Pdus::Nothing,
                end: Some(End::Gap),
            }),
            Verdict::Refused(reason) => Some(self.reject(reason)),
        }
    }

    /// The numbers of the next PDU that uses up a StatSN.
    pub(crate) fn next_numbers(&self) -> Numbers
        ensures { result ≡ next_numbers self.now }
    {
        target_numbers(self.stat_sn, self.exp_cmd_sn, self.waiting.numbered())
    }

    /// The answer to a request, if it asks for one, which uses up a StatSN.
    pub(crate) fn answer<'a>(
        &mut self,
        pdu: Option<ResponsePdu<'a>>,
        end: Option<End>,
    ) -> Sending<'a>
        requires { IfSome pdu (λ x. length x.bytes.now ≤ MAX_DATA_SEGMENT_LENGTH) }
        ensures on { Answers self.old (out_of pdu.entry) end (said result) self.new }
        ensures within { AreInReach result.pdus }
    {
        let pdus = match pdu {
            None => Pdus::Nothing,
            Some(pdu) => {
                self.stat_sn = self.stat_sn.wrapping_add(1);
                Pdus::Response(pdu)
            }
        };
        Sending { pdus, end }
    }

    // What a SCSI Command calls for.
    fn on_command<'a>(&mut self, command: &ScsiCommand, bytes: &'a [u8]) -> Actions<'a>
        ensures on { OnCommand self.old command.now bytes.now (step_of result) self.new }
        ensures within { AreInReach (pdus_of result) }
    {
        let verdict = command_verdict(
            self.kind,
            self.start.lengths,
            self.window(),
            &self.waiting,
            command,
            bytes,
        );
        if verdict == Verdict::Full {
            return Actions::Send(self.find_full(command));
        }
        match self.turned_away(verdict) {
            Some(sending) => Actions::Send(sending),
            None => self.take_command(command, bytes),
        }
    }

    // An immediate command that finds the task set full.
    fn find_full<'a>(&mut self, command: &ScsiCommand) -> Sending<'a>
        ensures on { OnFull self.old command.now (said result) self.new }
        ensures within { AreInReach result.pdus }
    {
        let need = data_needed(&decode(&command.cdb));
        let full = Completion::bare(Status::TaskSetFull);
        let task = OpenTask {
            command: *command,
            need,
        };
        self.respond(&task, &[], full)
    }

    // A command that is accepted: it is to be called, or waits for its data.
    fn take_command<'a>(&mut self, command: &ScsiCommand, bytes: &'a [u8]) -> Actions<'a>
        ensures on { OnAccepted self.old command.now bytes.now (step_of result) self.new }
        ensures within { AreInReach (pdus_of result) }
    {
        let asked = decode(&command.cdb);
        let need = data_needed(&asked);
        self.accept(command.immediate);
        if !has_to_collect(command, need, bytes.len()) {
            let data = CommandData::Came(command_data(command, need, bytes));
            return call(command, asked, need, data);
        }
        match self.wait(*command, asked, need, bytes) {
            Some(r2t) => Actions::Send(send_r2t(r2t)),
            None => {
                let busy = Completion::bare(Status::Busy);
                let task = OpenTask {
                    command: *command,
                    need,
                };
                Actions::Send(self.respond(&task, &[], busy))
            }
        }
    }

    // A command that has to collect its data begins to wait, if there is a buffer for it: its first R2T.
    fn wait(&mut self, command: ScsiCommand, asked: Asked, need: u32, bytes: &[u8]) -> Option<R2t>
        requires asked { IsAskedBy command asked }
        requires need { need ≡ need_of asked }
        requires collects { HasToCollect command need (length bytes.now) }
        ensures { MatchOption result (self.new ≡ self.old)
            (λ next. BeginsToWait self.old command need bytes.now next self.new) }
    {
        if !self.waiting.has_room() {
            return None;
        }
        let waiting = self.waiting.numbered() + u32::from(!command.immediate);
        let with = self.r2t_with(waiting);
        match self.waiting.buffer(self.alloc, need) {
            Ok(buffer) => {
                let waiting = WaitingCommand::begin(buffer, command, asked, need, bytes, with);
                let r2t = waiting.outstanding();
                self.waiting.push(waiting);
                self.transfer_tag = next_transfer_tag(self.transfer_tag);
                Some(r2t)
            }
            Err(NoMemory) => None,
        }
    }

    // What the next R2T is sent with, where so many numbered commands wait.
    fn r2t_with(&self, waiting: u32) -> R2tWith
        ensures { result ≡ r2t_with_for self.now waiting }
    {
        R2tWith {
            numbers: target_numbers(self.stat_sn, self.exp_cmd_sn, waiting),
            transfer_tag: self.transfer_tag,
            burst: self.start.lengths.burst,
        }
    }

    // What a Data-Out calls for.
    fn on_data_out<'a>(&mut self, header: DataOut, bytes: &[u8]) -> Actions<'a>
        ensures on { OnPdu self.old (Header.Initiator (InitiatorHeader.DataOut header)) bytes.now (step_of result) self.new }
        ensures within { AreInReach (pdus_of result) }
    {
        match self.waiting.position(header.task_tag) {
            None => Actions::Send(silence()),
            Some(at) => {
                if self.waiting.at(at).continues(&header, bytes) {
                    self.take_data(at, header, bytes)
                } else {
                    Actions::Send(self.reject(PROTOCOL_ERROR))
                }
            }
        }
    }

    // A Data-Out of the command that stands there among those that wait.
    fn take_data<'a>(&mut self, at: usize, header: DataOut, bytes: &[u8]) -> Actions<'a>
        requires { CanTake self.old at header bytes.now }
        ensures on { OnData self.old header bytes.now (step_of result) self.new }
        ensures within { AreInReach (pdus_of result) }
    {
        self.waiting.feed_at(at, &header, bytes);
        let command = self.waiting.at(at);
        if !command.is_filled() {
            return Actions::Send(silence());
        }
        if command.len() >= command.need() as usize {
            let done = self.waiting.remove(at).finish();
            let data = CommandData::Gathered(done.bytes);
            return call(&done.command, done.asked, done.need, data);
        }
        let with = self.r2t_with(self.waiting.numbered());
        let r2t = self.waiting.next_r2t_at(at, with);
        self.transfer_tag = next_transfer_tag(self.transfer_tag);
        Actions::Send(send_r2t(r2t))
    }

    /// Takes the number of a PDU with this I bit, unless it is immediate.
    pub(crate) fn accept(&mut self, immediate: bool)
        ensures { self.new ≡ after_number immediate self.old }
    {
        self.exp_cmd_sn = next_exp_cmd_sn(self.exp_cmd_sn, immediate);
    }

    /// What the fault calls for that stands in place of a PDU: a Reject, and the end.
    pub fn on_fault<'a>(&mut self, fault: PduFault) -> Sending<'a>
        ensures on { OnRefusal self.old (reason_of fault) (said result) self.new }
        ensures within { AreInReach result.pdus }
    {
        self.reject(reject_reason(fault))
    }

    // A Reject for this reason, and the end.
    fn reject<'a>(&mut self, reason: u8) -> Sending<'a>
        ensures on { OnRefusal self.old reason (said result) self.new }
        ensures within { AreInReach result.pdus }
    {
        let numbers = self.next_numbers();
        self.stat_sn = self.stat_sn.wrapping_add(1);
        Sending {
            pdus: Pdus::Reject(Reject { reason, numbers }),
            end: None,
        }
    }

    /// Takes back the data of a command that was served: the buffer is kept for another's.
    pub fn keep(&mut self, bytes: CommandData<'_>)
        ensures { self.new ≡ self.old }
    {
        match bytes {
            CommandData::Came(_) => {}
            CommandData::Gathered(buffer) => self.waiting.keep(buffer),
        }
    }

    /// What the answer to a task calls for: its data and its SCSI Response, or the end where the session is gone.
    pub fn on_answer<'a>(&mut self, task: &OpenTask, answer: &'a TargetAnswer) -> Sending<'a>
        ensures answered { OnAnswer self.old task.now.command task.now.need answer.now (said result) self.new }
        ensures reach { AreInReach result.pdus }
    {
        match answer {
            TargetAnswer::Replied(reply) | TargetAnswer::Outside(reply) => {
                self.respond(task, reply.bytes(), Completion::of(reply))
            }
            TargetAnswer::Busy => self.respond(task, &[], Completion::bare(Status::Busy)),
            TargetAnswer::Gone => Sending {
                pdus: Pdus::Nothing,
                end: Some(End::Reinstated),
            },
        }
    }

    // The Data-In of what a read returns, and the SCSI Response.
    fn respond<'a>(
        &mut self,
        task: &OpenTask,
        bytes: &'a [u8],
        completion: Completion,
    ) -> Sending<'a>
        ensures sent { Sends self.old
            (reply_with self.old task.now.command task.now.need bytes.now completion) (said result) self.new }
        ensures reach { AreInReach result.pdus }
    {
        // A Data-In without a status has no StatSN (RFC 7143, 11.7.3).
        let data_ins = DataIns {
            task_tag: task.command.task_tag,
            numbers: target_numbers(0, self.exp_cmd_sn, self.waiting.numbered()),
            lengths: self.start.lengths,
            bytes: returned_data(&task.command, bytes),
        };
        let numbers = self.next_numbers();
        let response = scsi_response(numbers, task, bytes.len(), count(&data_ins), completion);
        self.stat_sn = self.stat_sn.wrapping_add(1);
        Sending {
            pdus: Pdus::Answer {
                data_ins,
                response,
                sense: completion.sense,
            },
            end: None,
        }
    }
}

// Nothing goes out.
fn silence<'a>() -> Sending<'a>
    ensures silent { said result ≡ says [] None }
    ensures within { AreInReach result.pdus }
{
    Sending {
        pdus: Pdus::Nothing,
        end: None,
    }
}

// The next R2T of a write goes out.
fn send_r2t<'a>(r2t: R2t) -> Sending<'a>
    ensures sends { said result ≡ says_r2t r2t }
    ensures within { AreInReach result.pdus }
{
    Sending {
        pdus: Pdus::R2t(r2t),
        end: None,
    }
}

// A command is to be called, for what its CDB asks, with its data.
fn call<'a>(command: &ScsiCommand, asked: Asked, need: u32, bytes: CommandData<'a>) -> Actions<'a>
    requires need { need ≡ need_of asked }
    ensures calls { (gathered : List ℕ) → call_data bytes.entry ≡ data_for command.now (need_of asked) gathered
        → Calls command.now asked gathered (step_of result) }
    ensures within { AreInReach (pdus_of result) }
{
    Actions::Call(Call::Serve(ServeCall {
        task: OpenTask {
            command: *command,
            need,
        },
        unit: Lun::parse(&command.lun),
        asked,
        bytes,
    }))
}

// How much data a command needs; one that is not served needs none.
fn data_needed(asked: &Asked) -> u32
    ensures { result ≡ need_of asked.now }
{
    match asked {
        Ok(command) => need(command),
        Err(_) => 0,
    }
}
