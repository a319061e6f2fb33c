//! A turn of a login: what came, what the target answers, and what goes out for it.
ghost use Rattle.std.specs.Prelude.{◌<◌, ◌≤◌, length, vec_capacity};
ghost use Rattle.session_rules.specs.Turn.{pdu as came, faulty};
ghost use Rattle.session_rules.specs.Verdict.{reason_of};
ghost use Rattle.session_login.specs.MakesLoginTurn.{MakesLoginTurn};
ghost use Rattle.session_stream.specs.declared.outbox.TheConstants.{ENOUGH_TO_WRITE};

use crate::login_phase::{LoginPhase, login_cmd_sn, login_pdus};
use iscsi_pdu::{BHS_LENGTH, Pdu, PduFault, Reject};
use session_rules::{LONGEST_TEXT, LoginOutcome, Target, reject_reason};
use session_stream::{Outbox, Pdus, Sink};

/// One turn of a login: what a PDU comes to, with the target's answer, and its one answer, put into the outbox.
pub fn login_turn<K: Sink, T: Target>(
    login: &mut LoginPhase,
    target: &mut T,
    sink: &mut K,
    outbox: &mut Outbox,
    room: &mut Vec<u8>,
    bhs: &[u8; BHS_LENGTH],
    pdu: &Pdu<'_>,
) -> LoginOutcome
    requires room { LONGEST_TEXT ≤ vec_capacity room.old }
    ensures kept { vec_capacity room.old ≤ vec_capacity room.new }
    ensures few { length outbox.new.waiting < ENOUGH_TO_WRITE }
    ensures turn { MakesLoginTurn T.leads login.old login.new target.old target.new (K.held sink.old) (K.held sink.new)
        (K.failures sink.old) (K.failures sink.new) outbox.old outbox.new
        (came bhs.now pdu.now.header pdu.now.data.now) result }
{
    let numbers = login.take_numbers(login_cmd_sn(&pdu.header));
    let outcome = login.on_pdu(target, room, pdu);
    let pdus = login_pdus(numbers, &pdu.header, outcome, room);
    outbox.fill(sink, bhs, &pdus);
    outcome
}

/// The last turn of a login: a fault stands where a PDU should.
pub fn login_fault_turn<K: Sink, T: Target>(
    login: &mut LoginPhase,
    target: &T,
    sink: &mut K,
    outbox: &mut Outbox,
    bhs: &[u8; BHS_LENGTH],
    fault: PduFault,
)
    ensures { MakesLoginTurn T.leads login.old login.new target.now target.now (K.held sink.old) (K.held sink.new)
        (K.failures sink.old) (K.failures sink.new) outbox.old outbox.new (faulty fault bhs.now)
        (LoginOutcome.Rejected (reason_of fault)) }
{
    let numbers = login.take_numbers(None);
    let reason = reject_reason(fault);
    outbox.fill(sink, bhs, &Pdus::Reject(Reject { reason, numbers }));
}
