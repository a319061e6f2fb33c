//! What a session makes of requests that are no SCSI Command: NOP-Out, Text, task management and Logout.
ghost use Rattle.std.specs.Prelude.{ℕ, List};
ghost use Rattle.session_stream.specs.Pdus.{AreInReach};
ghost use Rattle.session_full_feature.specs.Counters.{next_numbers};
ghost use Rattle.session_full_feature.specs.Machine.{OnPdu, OnNopOut, OnText, OnLogout, OnManagement, OnResetAnswer, Answers};
ghost use Rattle.session_full_feature.specs.Step.{said, step_of, pdus_of};
ghost use Rattle.session_rules.specs.TaskManagement.{management_answer};
ghost use Rattle.session_rules.specs.Text.{IsAnswerOf, IsMadeOf};

use crate::actions::{Actions, Call, ResetCall, Sending};
use crate::logout::{logout_end, logout_response};
use crate::management_response::{management_response, reset_end, reset_response};
use crate::nop::nop_in;
use crate::session::Session;
use crate::text::{MadeText, is_part, text_response};
use iscsi_pdu::{
    Header, InitiatorHeader, LogoutRequest, NopOut, TaskManagementRequest, TextRequest,
};
use session_rules::{End, ManagementOutcome, ResetAnswer};

impl Session {
    /// What a NOP-Out calls for.
    pub(crate) fn on_nop_out<'a>(&mut self, request: NopOut, bytes: &'a [u8]) -> Sending<'a>
        ensures on { OnPdu self.old (Header.Initiator (InitiatorHeader.NopOut request)) bytes.now (said result) self.new }
        ensures within { AreInReach result.pdus }
    {
        let refused = self.is_open(request.task_tag);
        let verdict = self.verdict(request.immediate, request.numbers.cmd_sn, refused);
        match self.turned_away(verdict) {
            Some(sending) => sending,
            None => self.answer_nop_out(request, bytes),
        }
    }

    // An accepted NOP-Out.
    fn answer_nop_out<'a>(&mut self, request: NopOut, bytes: &'a [u8]) -> Sending<'a>
        ensures on { OnNopOut self.old request bytes.now (said result) self.new }
        ensures within { AreInReach result.pdus }
    {
        self.accept(request.immediate);
        let pdu = nop_in(self.next_numbers(), self.lengths(), &request, bytes);
        self.answer(pdu, None)
    }

    /// What a Text Request calls for.
    pub(crate) fn on_text<'a>(
        &mut self,
        request: TextRequest,
        bytes: &'a [u8],
        text: MadeText<'a>,
    ) -> Sending<'a>
        requires made { IsMadeOf text.is_made self.old.setting bytes.now text.bytes.now }
        ensures on { OnPdu self.old (Header.Initiator (InitiatorHeader.TextRequest request)) bytes.now (said result)
            self.new }
        ensures within { AreInReach result.pdus }
    {
        let refused = is_part(&request) || !text.is_made || self.is_open(request.task_tag);
        let verdict = self.verdict(request.immediate, request.numbers.cmd_sn, refused);
        match self.turned_away(verdict) {
            Some(sending) => sending,
            None => self.answer_text(request, bytes, text.bytes),
        }
    }

    // An accepted Text Request, whose text has this answer.
    fn answer_text<'a>(
        &mut self,
        request: TextRequest,
        bytes: &'a [u8],
        answer: &'a [u8],
    ) -> Sending<'a>
        requires made { IsAnswerOf self.old.setting bytes.now answer.now }
        ensures on { OnText self.old request bytes.now (said result) self.new }
        ensures within { AreInReach result.pdus }
    {
        self.accept(request.immediate);
        let pdu = text_response(self.next_numbers(), &request, answer);
        self.answer(Some(pdu), None)
    }

    /// What a request for task management calls for.
    pub(crate) fn on_task_management<'a>(&mut self, request: TaskManagementRequest) -> Actions<'a>
        ensures on { (d : List ℕ)
            → OnPdu self.old (Header.Initiator (InitiatorHeader.TaskManagementRequest request)) d (step_of result) self.new }
        ensures within { AreInReach (pdus_of result) }
    {
        let refused = self.discovers() || self.is_open(request.task_tag);
        let verdict = self.verdict(request.immediate, request.numbers.cmd_sn, refused);
        match self.turned_away(verdict) {
            Some(sending) => Actions::Send(sending),
            None => self.manage(request),
        }
    }

    // An accepted request for task management: its response, or the reset of a unit that is there.
    fn manage<'a>(&mut self, request: TaskManagementRequest) -> Actions<'a>
        ensures on { OnManagement self.old request (step_of result) self.new }
        ensures within { AreInReach (pdus_of result) }
    {
        self.accept(request.immediate);
        match self.drop_tasks(&request) {
            ManagementOutcome::Respond(response) => {
                Actions::Send(self.respond_to_management(&request, Some(response), None))
            }
            ManagementOutcome::Reset(unit) => Actions::Call(Call::Reset(ResetCall {
                request,
                unit,
            })),
        }
    }

    /// What the answer to a reset calls for: the response, or the end where the session is gone.
    pub fn on_reset<'a>(
        &mut self,
        request: TaskManagementRequest,
        answer: ResetAnswer,
    ) -> Sending<'a>
        ensures on { OnResetAnswer self.old request answer (said result) self.new }
        ensures within { AreInReach result.pdus }
    {
        self.respond_to_management(&request, reset_response(answer), reset_end(answer))
    }

    // The response to a request for task management, if there is one.
    fn respond_to_management<'a>(
        &mut self,
        request: &TaskManagementRequest,
        response: Option<u8>,
        end: Option<End>,
    ) -> Sending<'a>
        ensures on { Answers self.old (management_answer (next_numbers self.old) request.now response) end (said result)
            self.new }
        ensures within { AreInReach result.pdus }
    {
        let pdu = management_response(self.next_numbers(), request, response);
        self.answer(pdu, end)
    }

    /// What a Logout Request calls for.
    pub(crate) fn on_logout<'a>(&mut self, request: LogoutRequest) -> Sending<'a>
        ensures on { (d : List ℕ)
            → OnPdu self.old (Header.Initiator (InitiatorHeader.LogoutRequest request)) d (said result) self.new }
        ensures within { AreInReach result.pdus }
    {
        let refused = self.is_open(request.task_tag);
        let verdict = self.verdict(request.immediate, request.numbers.cmd_sn, refused);
        match self.turned_away(verdict) {
            Some(sending) => sending,
            None => self.answer_logout(request),
        }
    }

    // An accepted logout.
    fn answer_logout<'a>(&mut self, request: LogoutRequest) -> Sending<'a>
        ensures on { OnLogout self.old request (said result) self.new }
        ensures within { AreInReach result.pdus }
    {
        self.accept(request.immediate);
        let pdu = logout_response(self.next_numbers(), &request);
        self.answer(Some(pdu), logout_end(&request))
    }
}
