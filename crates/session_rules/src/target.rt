//! What a session asks of its target, and how that answers.
ghost use Rattle.std.specs.Prelude.{◌≡◌, ℕ};
ghost use Rattle.session_rules.specs.Asking.{Asking, began, lives, served, reset, over};
ghost use Rattle.session_rules.specs.Handle.{HasHandle};

use login::SessionType;
use scsi_types::{Asked, Reply};

/// What a target answers where a session is to begin.
#[derive(Clone, Copy)]
pub enum BeginAnswer {
    /// It has begun, with this Target Session Identifying Handle (TSIH): 1 to 65535, that of no other session that lives.
    Begun(u16),
    /// There is no room for it: the session is attached to nothing.
    Refused,
}

/// What a target answers to a command.
#[derive(Drop)]
pub enum TargetAnswer {
    /// The unit's reply.
    Replied(Reply),
    /// The reply for a unit that is not there.
    Outside(Reply),
    /// There was no memory or no room: nothing happened. The status is BUSY (SAM-5, 5.3.1).
    Busy,
    /// The session is attached no more: nothing happened.
    Gone,
}

/// What a target answers to a LOGICAL UNIT RESET (SAM-5, 7.7).
#[derive(Clone, Copy, PartialEq, Eq)]
pub enum ResetAnswer {
    /// The unit is reset.
    Done,
    /// The session is attached no more: nothing happened.
    Gone,
    /// The unit could not be reset: nothing happened.
    Failed,
}

/// What a session's commands are served by.
pub trait Target {
    /// From the first state this may be asked, with this answer, and lead to the second.
    ghost leads: { Self → Asking → Self → Type 0 };

    /// How many units there are.
    ghost unit_count: { Self → ℕ };

    /// How many units there are, from unit 0 on: a session asks once, before anything else.
    fn units(&self) -> u16
        ensures { result ≡ unit_count self.now };

    /// Begins a session of this kind, of the initiator port with this InitiatorName, of 1 to 223 bytes, and this ISID, below
    /// 2^48. Where it begins, the session of the same port and kind that lives is over from then on (RFC 7143, 6.3.5).
    fn begin(&mut self, name: &[u8], isid: u64, kind: SessionType) -> BeginAnswer
        ensures leads { leads self.old (began (record { name = name.now; isid = isid }) kind result) self.new }
        ensures handle { HasHandle result };

    /// Whether the session with this TSIH lives, and is of this initiator port.
    fn lives(&mut self, tsih: u16, name: &[u8], isid: u64) -> bool
        ensures { leads self.old (lives tsih (record { name = name.now; isid = isid }) result) self.new };

    /// The session is over, or its login was refused: a session says so once, at its end.
    fn end(&mut self)
        ensures { leads self.old over self.new };

    /// Whether it is told of commands that wait: a target whose disks take no time has no use for it.
    fn wants_prefetch(&self) -> bool {
        false
    }

    /// A command that has come, for the unit that its LUN names, and that is to be served when those before it are. A target
    /// may have its disk fetch what the command needs: nothing else, for it may never be served.
    fn prefetch(&self, _unit: Option<u8>, _asked: &Asked) {}

    /// Serves a command of the unit that its LUN names, with the bytes that came for it: of a write as many as it
    /// needs and the initiator expects to send, else none. `unit` is none where the LUN names no unit.
    fn serve(&mut self, unit: Option<u8>, asked: Asked, bytes: &[u8]) -> TargetAnswer
        ensures { leads self.old (served unit asked bytes.now result) self.new };

    /// Gets an answer back that was put into the outbox: its memory may serve for another one.
    fn reuse(&mut self, _answer: TargetAnswer)
        ensures { self.new ≡ self.old }
    {}

    /// Resets a unit: its other sessions are told so (SAM-5, 7.7).
    fn reset(&mut self, unit: u8) -> ResetAnswer
        ensures { leads self.old (reset unit result) self.new };
}
