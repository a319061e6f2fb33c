//! A session from its first byte to its last, turn by turn.
ghost use Rattle.std.specs.Prelude.{◌≡◌, ℕ, ◌<◌, ◌≤◌, [], false, length, vec_capacity, IfOk, OnErr};
ghost use Rattle.std.specs.Io.KnownBytes.{Keeps};
ghost use Rattle.session_rules.specs.declared.end.End.TheVariants.{InputFailed, OutputFailed};
ghost use Rattle.session_stream.specs.Source.{Counted};
ghost use Rattle.session_stream.specs.Outbox.{IsClosedAs};
ghost use Rattle.session.specs.Inbox.{Filled};
ghost use Rattle.session_rules.specs.declared.target_record.TargetRecord.{TargetRecord};
ghost use Rattle.session_rules.specs.declared.opening.Opening.{Opening};
ghost use Rattle.session.specs.Stream.{OpensWith, IsFresh};
ghost use Rattle.session.specs.Transcript.{HasPassed, IsTranscribed, IsFailureOf};

use crate::ahead::look_ahead;
use crate::front::{Front, front_of};
use crate::inbox::{INBOX_CAPACITY, Inbox};
use crate::phases::Phases;
use iscsi_pdu::LONGEST_PDU;
use scsi_types::NoMemory;
use session_rules::{End, LONGEST_TEXT, Opening, Target, TargetRecord, reject_end, reject_reason};
use session_stream::{Failed, Outbox, Sink, Source, Unread};
use std::alloc::Global;

// Writes what waits at the session's end: this end, or that the sink failed.
fn finish<K: Sink>(sink: &mut K, outbox: &mut Outbox, end: End) -> End
    ensures { IsClosedAs (K.held sink.old) (K.held sink.new) (K.failures sink.old) (K.failures sink.new)
        outbox.old end result }
{
    outbox.flush(sink);
    if outbox.has_failed() {
        End::OutputFailed
    } else {
        end
    }
}

// One read, for which silence is a failure: how many bytes came.
fn read_once<S: Source>(inbox: &mut Inbox, source: &mut S) -> Result<usize, Failed>
    requires { length inbox.old < LONGEST_PDU }
    ensures ok { IfOk result (λ n. Filled (S.left source.old) (S.left source.new) inbox.old inbox.new n) }
    ensures err { OnErr result ((inbox.new ≡ inbox.old) × Keeps (S.left source.old) (S.left source.new)) }
    ensures failures { Counted (S.failures source.old) (S.failures source.new) result }
    ensures bound { length inbox.new ≤ INBOX_CAPACITY }
{
    match inbox.fill(source, false) {
        Ok(n) => Ok(n),
        Err(Unread::Failed) => Err(Failed),
        Err(Unread::Silence) => unreachable!(),
    }
}

// Waits until bytes came: how many. No answer waits meanwhile, for its initiator may send no more before it has it. Behind its
// login it may be silent: then memory is given back.
fn read_more<S: Source>(
    inbox: &mut Inbox,
    outbox: &mut Outbox,
    phases: &mut Phases,
    source: &mut S,
) -> Result<usize, Failed>
    requires all_written { outbox.old.waiting ≡ [] }
    requires partial { length inbox.old < LONGEST_PDU }
    ensures same { (outbox.new ≡ outbox.old) × (phases.new ≡ phases.old) }
    ensures ok { IfOk result (λ n. Filled (S.left source.old) (S.left source.new) inbox.old inbox.new n) }
    ensures err { OnErr result ((inbox.new ≡ inbox.old) × Keeps (S.left source.old) (S.left source.new)) }
    ensures failures { Counted (S.failures source.old) (S.failures source.new) result }
    ensures bound { length inbox.new ≤ INBOX_CAPACITY }
{
    if !phases.is_open() {
        return read_once(inbox, source);
    }
    for _ in 0..u64::MAX {
        match inbox.fill(source, true) {
            Ok(n) => return Ok(n),
            Err(Unread::Failed) => return Err(Failed),
            Err(Unread::Silence) => {
                inbox.rest();
                outbox.rest();
                phases.rest();
            }
        }
    }
    read_once(inbox, source)
}

/// Serves a session over a stream until its end, from its login on, or in full feature phase: what is written spells a legal
/// transcript of what is read, and the target answers what it asks. The last that it asks is that the session is over.
/// Answers wait in the outbox and leave together, before each read, where they fill it, and at the end. The memory that it
/// cannot do without, but that of the data of writes, is taken before the first read; refused, nothing was read, written or
/// asked. For much at once it takes more, if that is there, and gives it back where nothing comes.
pub fn serve_stream<S: Source, K: Sink, T: Target>(
    alloc: Global,
    source: &mut S,
    sink: &mut K,
    target: &mut T,
    opening: Opening,
    me: &TargetRecord<'_>,
) -> Result<End, NoMemory>
    ensures transcribed { IfOk result (IsTranscribed T.leads (T.unit_count target.old) me.now opening
        (S.left source.old) (S.left source.new) (K.held sink.old) (K.held sink.new) target.old target.new) }
    ensures input_failed { IfOk result (IsFailureOf InputFailed (S.failures source.old) (S.failures source.new)) }
    ensures output_failed { IfOk result (IsFailureOf OutputFailed (K.failures sink.old) (K.failures sink.new)) }
    ensures no_memory { OnErr result ((target.new ≡ target.old) × (source.new ≡ source.old) × (sink.new ≡ sink.old)) }
{
    let mut inbox = Inbox::new(alloc)?;
    let mut outbox = Outbox::new(alloc)?;
    let mut phases = Phases::new(alloc, opening, target.units(), me)?;
    let mut room = Vec::with_capacity(alloc, LONGEST_TEXT as usize)?;
    let end = serve_turns(
        source,
        sink,
        target,
        &mut inbox,
        &mut outbox,
        &mut phases,
        &mut room,
    );
    target.end();
    Ok(end)
}

// Serves a session that was opened until its end.
fn serve_turns<S: Source, K: Sink, T: Target>(
    source: &mut S,
    sink: &mut K,
    target: &mut T,
    inbox: &mut Inbox,
    outbox: &mut Outbox,
    phases: &mut Phases,
    room: &mut Vec<u8>,
) -> End
    requires empty { inbox.old ≡ [] }
    requires unwritten { outbox.old ≡ record { waiting = []; failed = false } }
    requires fresh { IsFresh phases.old }
    requires room { LONGEST_TEXT ≤ vec_capacity room.old }
    ensures { (units : ℕ) (me : TargetRecord) (opening : Opening) → OpensWith units me opening phases.old
        → HasPassed T.leads units me opening (S.left source.old) (S.left source.new) (K.held sink.old) (K.held sink.new)
        (S.failures source.old) (S.failures source.new) (K.failures sink.old) (K.failures sink.new)
        target.old target.new result }
{
    let mut reads: u64 = 0;
    while reads < u64::MAX {
        match front_of(inbox.bytes()) {
            Front::Whole { bhs, pdu, taken } => {
                match phases.turn(target, sink, outbox, room, bhs, &pdu) {
                    Some(end) => return finish(sink, outbox, end),
                    None => inbox.consume(taken),
                }
                if outbox.has_failed() {
                    return End::OutputFailed;
                }
            }
            Front::Faulty { bhs, fault } => {
                phases.fault(target, sink, outbox, bhs, fault);
                let end = reject_end(reject_reason(fault), bhs);
                return finish(sink, outbox, end);
            }
            Front::Partial => {
                outbox.flush(sink);
                if outbox.has_failed() {
                    return End::OutputFailed;
                }
                match read_more(inbox, outbox, phases, source) {
                    Ok(0) => return End::EndOfInput,
                    Ok(_) => {
                        look_ahead(target, inbox.bytes());
                        reads += 1;
                    }
                    Err(_) => return End::InputFailed,
                }
            }
        }
    }
    finish(sink, outbox, End::EndOfInput)
}
