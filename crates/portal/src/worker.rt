//! What a session's worker runs.
ghost use Rattle.std.specs.Prelude.{◌≡◌, map, IfOk, OnErr};
ghost use Rattle.session_rules.specs.declared.end.End.TheVariants.{InputFailed, OutputFailed};
ghost use Rattle.session.specs.Transcript.{IsFailureOf};
ghost use Rattle.session_units.specs.Late.{late_of};
ghost use Rattle.live_sessions.specs.Silence.{login_silence};
ghost use Rattle.portal.specs.Worker.{IsSession};

use crate::logged_target::{LoggedTarget, Visitor};
use crate::observer::Observer;
use live_sessions::{Connection, SessionTarget, Sessions, TargetDevice};
use scsi_types::{Group, NoMemory};
use session::{End, Opening, Sink, Source, TargetRecord, serve_stream};
use session_units::{Gate, LogicalUnits};
use std::alloc::Global;
use std::sync::Wait;
use std::time::Clock;

/// Serves a session that comes by the portals of a group over a connection, from the first byte of its login to its end.
/// Refused for want of memory, it has read and written nothing. It says how the session ended, and whose it was, and hands
/// out what was seen of each unit as the session left it, or was refused there: of what several sessions have so seen of a unit, one
/// history begins the other (`LogicalUnits::in_one_history`). Of what happens meanwhile the log is told, and commands are counted. The
/// connection has to end where its initiator is silent before its login is over.
pub fn serve_session<
    R: Wait + Clock,
    U: LogicalUnits + Drop,
    G: Gate + Drop,
    T: Sessions + Drop,
    S: Source,
    K: Sink,
>(
    rt: &R,
    alloc: Global,
    device: &TargetDevice<U, G, T>,
    group: Group,
    connection: T::Connection,
    source: &mut S,
    sink: &mut K,
    me: &TargetRecord<'_>,
    observer: &Observer<'_, R>,
) -> Result<(End, Visitor, Vec<U::History>), NoMemory>
    requires silence { T.Connection.is_limited connection login_silence }
    ensures served { IfOk result (λ r. IsSession U.claims T.says (late_of G.is_late G.lasts) U.opening (U.unit_count device.now.units)
        group me.now (S.left source.old) (S.left source.new) (K.held sink.old) (K.held sink.new) r.0 (map U.seen r.2.items)) }
    ensures input_failed { IfOk result (λ r. IsFailureOf InputFailed (S.failures source.old) (S.failures source.new) r.0) }
    ensures output_failed { IfOk result (λ r. IsFailureOf OutputFailed (K.failures sink.old) (K.failures sink.new) r.0) }
    ensures no_memory { OnErr result ((source.new ≡ source.old) × (sink.new ≡ sink.old)) }
{
    let target = SessionTarget::<R, U, G, T>::new(rt, alloc, device, group, connection);
    let mut target = LoggedTarget::new(alloc, target, observer);
    let end = serve_stream(
        alloc,
        source,
        sink,
        &mut target,
        Opening::Login(u16::from(group.number())),
        me,
    );
    let (visitor, seen) = target.into_parts();
    match end {
        Ok(end) => Ok((end, visitor, seen)),
        Err(NoMemory) => Err(NoMemory),
    }
}
