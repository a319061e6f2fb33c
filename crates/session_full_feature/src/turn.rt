//! A turn of full feature phase: what came, what the target answers, and what goes out for it.
ghost use Rattle.std.specs.Prelude.{◌<◌, ◌≤◌, length, vec_capacity, Some};
ghost use Rattle.session_rules.specs.Causes.{end_by_reject};
ghost use Rattle.session_rules.specs.Turn.{pdu as came, faulty};
ghost use Rattle.session_rules.specs.Verdict.{reason_of};
ghost use Rattle.session_full_feature.specs.MakesTurn.{MakesTurn};
ghost use Rattle.session_stream.specs.declared.outbox.TheConstants.{ENOUGH_TO_WRITE};

use crate::actions::{Actions, Call};
use crate::session::Session;
use crate::text::MadeText;
use iscsi_pdu::{BHS_LENGTH, Pdu, PduFault};
use session_rules::{End, LONGEST_TEXT, Target};
use session_stream::{Outbox, Sink};

/// One turn of full feature phase: what a PDU calls for, with the target's answer, put into the outbox; the end that it
/// calls for.
pub fn feature_turn<K: Sink, T: Target>(
    session: &mut Session,
    target: &mut T,
    sink: &mut K,
    outbox: &mut Outbox,
    room: &mut Vec<u8>,
    bhs: &[u8; BHS_LENGTH],
    pdu: &Pdu<'_>,
) -> Option<End>
    requires room { LONGEST_TEXT ≤ vec_capacity room.old }
    ensures kept { vec_capacity room.old ≤ vec_capacity room.new }
    ensures few { length outbox.new.waiting < ENOUGH_TO_WRITE }
    ensures turn { MakesTurn T.leads session.old session.new target.old target.new (K.held sink.old) (K.held sink.new)
        (K.failures sink.old) (K.failures sink.new) outbox.old outbox.new
        (came bhs.now pdu.now.header pdu.now.data.now) result }
{
    let is_made = session.make_text(room, pdu);
    let text = MadeText {
        is_made,
        bytes: room.as_slice(),
    };
    let actions = session.on_pdu(&pdu.header, pdu.data, text);
    match actions {
        Actions::Send(sending) => {
            outbox.fill(sink, bhs, &sending.pdus);
            sending.end_behind(bhs)
        }
        Actions::Call(call) => match call {
            Call::Serve(call) => {
                let answer = target.serve(call.unit, call.asked, call.bytes.bytes());
                let sending = session.on_answer(&call.task, &answer);
                outbox.fill(sink, bhs, &sending.pdus);
                session.keep(call.bytes);
                let end = sending.end_behind(bhs);
                target.reuse(answer);
                end
            }
            Call::Reset(call) => {
                let answer = target.reset(call.unit);
                let sending = session.on_reset(call.request, answer);
                outbox.fill(sink, bhs, &sending.pdus);
                sending.end_behind(bhs)
            }
        },
    }
}

/// The last turn of full feature phase: a fault stands where a PDU should.
pub fn fault_turn<K: Sink, T: Target>(
    session: &mut Session,
    target: &T,
    sink: &mut K,
    outbox: &mut Outbox,
    bhs: &[u8; BHS_LENGTH],
    fault: PduFault,
)
    ensures { MakesTurn T.leads session.old session.new target.now target.now (K.held sink.old) (K.held sink.new)
        (K.failures sink.old) (K.failures sink.new) outbox.old outbox.new (faulty fault bhs.now)
        (Some (end_by_reject (reason_of fault) bhs.now)) }
{
    let sending = session.on_fault(fault);
    outbox.fill(sink, bhs, &sending.pdus);
}
