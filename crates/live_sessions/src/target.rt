//! The target of one session: its passes of all units.
ghost use Rattle.std.specs.Prelude.{◌≡◌, ◌+◌, ◌<◌, ◌≤◌, ◌↔◌, ◌∷◌, ◌++◌, [], false, true, All, IfErr, IfOk, IfSome, IsTrue, MatchOption};
ghost use Rattle.std.specs.Prelude.{length, map, vec_capacity};
ghost use Rattle.registrants.specs.Nexus.{through};
ghost use Rattle.scsi_types.specs.Nexus.{IsPortName};
ghost use Rattle.live_sessions.specs.Target.{IsAbsent, IsAttachedTo, IsFullAt, IsGrounded, IsJoined, IsOfUnits, IsOverAt, IsTurnedBack};
ghost use Rattle.live_sessions.specs.Target.{IsUnnamed, Leaves};
ghost use Rattle.session_units.specs.Late.{late_of};
ghost use Rattle.live_sessions.specs.Turns.{were_attached};
ghost use Rattle.live_sessions.specs.Target.{HasTried, IsServedAt, IsResetIn, unbegun};
ghost use Rattle.live_sessions.specs.declared.target.BeginFault.TheVariants as faults;

use crate::connection::Connection;
use crate::device::{TargetDevice, Turn};
use crate::live::{EnterFault, NewSession};
use crate::sessions::Sessions;
use identity::absent;
use login::SessionType;
use scsi_types::{Asked, Group, NoMemory, PortName};
use session::{BeginAnswer, ResetAnswer, Target, TargetAnswer};
use session_units::{Gate, LogicalUnits, Pass, Rooms, UnitSession};
use std::alloc::Global;
use std::marker::Model;
use std::sync::Wait;
use std::sync::atomic::AtomicU64;
use std::time::Duration;

/// For so many milliseconds a login rests before it looks again whether a unit is free.
const BETWEEN: u64 = 5;

/// Why a session does not begin. It is attached to no unit.
#[derive(Clone, Copy)]
pub enum BeginFault {
    /// It was asked before.
    Begun,
    /// The InitiatorName has not 1 to 223 bytes, or the ISID is not below 2^48.
    NoPortName,
    /// This unit has no room for it.
    NoRoom(u8),
    /// Its connection was over when its turn came.
    Left,
    /// A session has each TSIH.
    NoTsih,
    /// As many sessions have begun as are counted.
    NoNumber,
    /// There was no memory.
    NoMemory,
}

impl From<EnterFault> for BeginFault {
    ghost use Rattle.live_sessions.specs.Target.{fault_of};

    ghost from_gives = { λ old fault. fault ≡ fault_of old };

    fn from(fault: EnterFault) -> BeginFault {
        match fault {
            EnterFault::NoTsih => BeginFault::NoTsih,
            EnterFault::NoNumber => BeginFault::NoNumber,
            EnterFault::NoMemory => BeginFault::NoMemory,
        }
    }
}

/// What a session's worker asks: it reaches the units by the session's passes, which it has from the session's beginning to
/// its end. What was seen of the units then stays.
#[derive(Drop)]
pub struct SessionTarget<'a, R: Wait, U: LogicalUnits + Drop, G: Gate + Drop, S: Sessions + Drop> {
    rt: &'a R,
    alloc: Global,
    device: &'a TargetDevice<U, G, S>,
    // Where the memory of its replies is kept.
    place: usize,
    // The group of the portals by which the initiator came.
    group: Group,
    // What the session runs over, until it is asked to begin.
    connection: Option<S::Connection>,
    // The number of the session that has begun, until it is over.
    number: Option<u64>,
    // Whether the session has begun.
    begun: bool,
    // The session at each unit in order.
    at: Vec<UnitSession<U::Right>>,
    // What was seen of units that it has left, or at which it was refused. There is room for the others.
    seen: Vec<U::History>,
}

impl<'a, R: Wait, U: LogicalUnits + Drop, G: Gate + Drop, S: Sessions + Drop> Model
    for SessionTarget<'a, R, U, G, S> {
    ghost use Rattle.std.specs.Prelude.{All, ◌≡◌, ◌+◌, ◌<◌, ◌≤◌, [], false, IfSome, length, map, vec_capacity};
    ghost use Rattle.live_sessions.specs.Target.{TargetValue, is_taken};

    ghost Value = { TargetValue };

    ghost view = { λ t. record {
      units = U.unit_count t.device.now.units;
      group = t.group;
      asked = is_taken t.connection;
      begun = t.begun;
      number = t.number;
      at = t.at.items;
      seen = map U.seen t.seen.items;
    } };

    ghost invariant = { λ t. All (λ a. a.place < U.unit_count t.device.now.units) t.at.items
        × (length t.seen.items + length t.at.items ≤ vec_capacity t.seen)
        × IfSome t.connection (λ c. (t.begun ≡ false) × (t.at.items ≡ []) × (t.seen.items ≡ [])) };
}

// The initiator port with this name and ISID.
fn port_of(alloc: Global, name: &[u8], isid: u64) -> Result<PortName, BeginFault>
    ensures port { IfOk result (λ port. port ≡ record { name = name.now; isid = isid }) }
    ensures name { IfOk result (λ port. IsPortName (record { name = name.now; isid = isid })) }
    ensures unnamed { IfErr result (IsUnnamed (record { name = name.now; isid = isid })) }
{
    let Ok(name) = name.to_vec(alloc) else {
        return Err(BeginFault::NoMemory);
    };
    match PortName::new(name, isid) {
        Some(port) => Ok(port),
        None => Err(BeginFault::NoPortName),
    }
}

// Attaches a session to a unit. Refused, this was seen of a unit that is full, or there was no memory.
fn attach_to<R: Wait, U: LogicalUnits>(
    rt: &R,
    alloc: Global,
    units: &U,
    unit: u8,
    port: &PortName,
    group: Group,
) -> Result<UnitSession<U::Right>, Option<U::History>>
    requires { unit < U.unit_count units.now }
    ensures attached { IfOk result (IsAttachedTo U.claims U.opening (through port.now group) unit) }
    ensures full { IfErr result (λ full. IfSome full (λ s. IsFullAt U.claims U.opening (through port.now group) unit (U.seen s))) }
{
    let Ok(port) = port.copy(alloc) else {
        return Err(None);
    };
    match units.attach(rt, unit, port, group) {
        Ok(pass) => Ok(UnitSession::new(pass, group)),
        Err(seen) => Err(Some(seen)),
    }
}

// Ends a session at a unit: what was seen there.
fn retire<R: Wait, U: LogicalUnits>(
    rt: &R,
    units: &U,
    attached: UnitSession<U::Right>,
) -> U::History
    requires { attached.place < U.unit_count units.now }
    ensures { IsOverAt U.claims U.opening attached (U.seen result) }
{
    units.retire(rt, attached.into_pass())
}

// Ends a session at each of these units, and keeps what was seen there.
fn retire_all<R: Wait, U: LogicalUnits>(
    rt: &R,
    units: &U,
    attached: &mut Vec<UnitSession<U::Right>>,
    seen: &mut Vec<U::History>,
)
    requires placed { All (λ a. a.place < U.unit_count units.now) attached.old.items }
    requires room { length seen.old.items + length attached.old.items ≤ vec_capacity seen.old }
    ensures over { Leaves U.claims U.opening attached.old.items (map U.seen seen.old.items) (map U.seen seen.new.items) }
    ensures room { length seen.new.items ≡ length seen.old.items + length attached.old.items }
    ensures capacity { vec_capacity seen.new ≡ vec_capacity seen.old }
    ensures left { attached.new.items ≡ [] }
{
    'units: while !attached.is_empty() {
        let one = attached.remove(0);
        seen.push_reserved(retire(rt, units, one));
    }
}

// Why a session was refused at this unit, of which this was seen, which is kept; or there was no memory.
fn refused_at<S: Drop>(unit: u8, full: Option<S>, seen: &mut Vec<S>) -> BeginFault
    requires { length seen.old.items < vec_capacity seen.old }
    ensures fault { MatchOption full ((result ≡ faults.NoMemory) × (seen.new.items ≡ seen.old.items))
        (λ one. (result ≡ faults.NoRoom unit) × (seen.new.items ≡ seen.old.items ++ one ∷ [])) }
    ensures of_units { IsOfUnits result }
{
    match full {
        Some(one) => {
            seen.push_reserved(one);
            BeginFault::NoRoom(unit)
        }
        None => BeginFault::NoMemory,
    }
}

// Attaches a normal session to all units in order, in a turn, which is held from before the first unit to behind the last. Where one
// refuses, it is over at those before. What was seen then is kept.
#[tactic(auto, using(crate::specs::Turns::an_attach_says))]
fn attach_in_turn<R: Wait, U: LogicalUnits>(
    turn: &mut Turn,
    rt: &R,
    alloc: Global,
    units: &U,
    port: &PortName,
    group: Group,
    attached: &mut Vec<UnitSession<U::Right>>,
    seen: &mut Vec<U::History>,
) -> Result<(), BeginFault>
    requires none { attached.old.items ≡ [] }
    requires room { length seen.old.items + U.unit_count units.now ≤ vec_capacity seen.old }
    ensures joined { IfOk result (λ _. IsJoined U.claims U.opening SessionType.Normal (through port.now group)
        (U.unit_count units.now) attached.new.items) }
    ensures placed { IfOk result (λ _. All (λ a. a.place < U.unit_count units.now) attached.new.items) }
    ensures unseen { IfOk result (λ _. seen.new ≡ seen.old) }
    ensures turn { IfOk result (λ _. were_attached turn.new attached.new.items) }
    ensures turned_back { IfErr result (λ fault. IsTurnedBack U.claims U.opening (through port.now group) SessionType.Normal
        (U.unit_count units.now) fault (map U.seen seen.old.items) (map U.seen seen.new.items)) }
    ensures of_units { IfErr result IsOfUnits }
    ensures left { IfErr result (λ _. attached.new.items ≡ []) }
{
    turn.begin();
    let count = units.count();
    if attached.reserve_exact(usize::from(count)).is_err() {
        return Err(BeginFault::NoMemory);
    }
    for unit in 0..count {
        match attach_to(rt, alloc, units, unit, port, group) {
            Ok(one) => attached.push_reserved(one),
            Err(full) => {
                retire_all(rt, units, attached, seen);
                return Err(refused_at(unit, full, seen));
            }
        }
    }
    Ok(())
}

// A session begins to live: its number and its TSIH.
fn enter<R: Wait, S: Sessions>(
    rt: &R,
    sessions: &S,
    new: NewSession,
    connection: S::Connection,
) -> Result<(u64, u16), EnterFault>
    ensures entered { IfOk result (λ r. S.says.entered (through new.port new.group) new.kind r.0 r.1) }
    ensures tsih { IfOk result (λ r. 0 < r.1) }
    ensures refused { IfErr result S.says.refused }
{
    connection.end_limit();
    sessions.enter(rt, new, connection)
}

// The same of a normal session which was attached to these units in this turn, that has not ended since.
fn enter_in_turn<R: Wait, S: Sessions, P: Pass>(
    _turn: &mut Turn,
    rt: &R,
    sessions: &S,
    new: NewSession,
    connection: S::Connection,
    _at: &Vec<UnitSession<P>>,
) -> Result<(u64, u16), EnterFault>
    requires turn { were_attached _turn.old _at.now.items }
    ensures entered { IfOk result (λ r. S.says.entered (through new.port new.group) new.kind r.0 r.1) }
    ensures tsih { IfOk result (λ r. 0 < r.1) }
    ensures refused { IfErr result S.says.refused }
{
    enter(rt, sessions, new, connection)
}

// Waits until this unit was seen to be free. False: the connection is over before.
fn is_held_until_free<R: Wait, U: LogicalUnits, C: Connection>(
    rt: &R,
    units: &U,
    unit: u8,
    connection: &C,
) -> bool
    requires { unit < U.unit_count units.now }
{
    for _ in rt.forever() {
        if units.is_free(unit) {
            return true;
        }
        if !connection.is_held() {
            return false;
        }
        AtomicU64::new(0).park_timeout(rt, 0, Duration::from_millis(BETWEEN));
    }
    unreachable!()
}

// Waits until each unit was seen to be free, whatever has it for long: whether the connection is still held then.
fn is_held_behind<R: Wait, U: LogicalUnits, C: Connection>(
    rt: &R,
    units: &U,
    connection: &C,
) -> bool {
    for unit in 0..units.count() {
        if !is_held_until_free(rt, units, unit, connection) {
            return false;
        }
    }
    connection.is_held()
}

// Attaches a normal session that has its turn to all units; then it begins to live: its number and its TSIH. It may have waited for long,
// for its turn and for units, and would end a session of its port that lives: so it is refused where its connection is over by then.
// Where a unit or the table refuses it, it is over at all units. What was seen then is kept.
#[tactic(auto, using(crate::proofs::Refusing::too_late))]
fn attach_and_enter<R: Wait, U: LogicalUnits, S: Sessions>(
    turn: &mut Turn,
    rt: &R,
    alloc: Global,
    units: &U,
    sessions: &S,
    port: PortName,
    group: Group,
    connection: S::Connection,
    at: &mut Vec<UnitSession<U::Right>>,
    seen: &mut Vec<U::History>,
) -> Result<(u64, u16), BeginFault>
    requires none { at.old.items ≡ [] }
    requires room { length seen.old.items + U.unit_count units.now ≤ vec_capacity seen.old }
    ensures joined { IfOk result (λ _. IsJoined U.claims U.opening SessionType.Normal (through port group)
        (U.unit_count units.now) at.new.items) }
    ensures placed { IfOk result (λ _. All (λ a. a.place < U.unit_count units.now) at.new.items) }
    ensures entered { IfOk result (λ r. S.says.entered (through port group) SessionType.Normal r.0 r.1) }
    ensures tsih { IfOk result (λ r. 0 < r.1) }
    ensures unseen { IfOk result (λ _. seen.new ≡ seen.old) }
    ensures turned_back { IfErr result (λ fault. IsTurnedBack U.claims U.opening (through port group) SessionType.Normal
        (U.unit_count units.now) fault (map U.seen seen.old.items) (map U.seen seen.new.items)) }
    ensures grounds { IfErr result (IsGrounded S.says false) }
    ensures left { IfErr result (λ _. at.new.items ≡ []) }
{
    if !is_held_behind(rt, units, &connection) {
        return Err(BeginFault::Left);
    }
    match attach_in_turn(turn, rt, alloc, units, &port, group, at, seen) {
        Ok(()) => {}
        Err(fault) => return Err(fault),
    }
    let new = NewSession {
        port,
        group,
        kind: SessionType::Normal,
    };
    match enter_in_turn(turn, rt, sessions, new, connection, at) {
        Ok(entered) => Ok(entered),
        Err(fault) => {
            retire_all(rt, units, at, seen);
            Err(BeginFault::from(fault))
        }
    }
}

// What a session is answered to a command of a unit that is not there.
fn turn_away(alloc: Global, asked: &Asked) -> TargetAnswer
    ensures { IsAbsent asked.now result }
{
    match absent(alloc, asked) {
        Ok(reply) => TargetAnswer::Outside(reply),
        Err(NoMemory) => TargetAnswer::Busy,
    }
}

impl<'a, R: Wait, U: LogicalUnits + Drop, G: Gate + Drop, S: Sessions + Drop> SessionTarget<
    'a,
    R,
    U,
    G,
    S,
> {
    /// The target of a session that has not begun, which comes over this connection by the portals of this group.
    pub fn new(
        rt: &'a R,
        alloc: Global,
        device: &'a TargetDevice<U, G, S>,
        group: Group,
        connection: S::Connection,
    ) -> SessionTarget<'a, R, U, G, S>
        ensures { result ≡ unbegun (U.unit_count device.now.units) group }
    {
        SessionTarget {
            rt,
            alloc,
            device,
            place: device.spares.place(),
            group,
            connection: Some(connection),
            number: None,
            begun: false,
            at: Vec::new(alloc),
            seen: Vec::new(alloc),
        }
    }

    // Attaches a normal session to all units; then it begins to live.
    fn join(&mut self, port: PortName, connection: S::Connection) -> Result<u16, BeginFault>
        requires fresh { (self.old.begun ≡ false) × (self.old.at ≡ []) × (self.old.seen ≡ []) }
        requires asked { self.old.asked ≡ true }
        requires name { IsPortName port }
        ensures { HasTried U.claims S.says U.opening (record self.old { asked = false }) port SessionType.Normal result
            self.new }
    {
        let device = self.device;
        let Ok(()) = self.seen.reserve_exact(usize::from(device.units.count())) else {
            return Err(BeginFault::NoMemory);
        };
        let mut turn = device.beginning.lock(self.rt);
        match attach_and_enter(
            &mut turn,
            self.rt,
            self.alloc,
            &device.units,
            &device.sessions,
            port,
            self.group,
            connection,
            &mut self.at,
            &mut self.seen,
        ) {
            Ok((number, tsih)) => {
                self.number = Some(number);
                self.begun = true;
                Ok(tsih)
            }
            Err(fault) => Err(fault),
        }
    }

    // A discovery session, which is attached to no unit, begins to live.
    fn join_none(&mut self, port: PortName, connection: S::Connection) -> Result<u16, BeginFault>
        requires fresh { (self.old.begun ≡ false) × (self.old.at ≡ []) × (self.old.seen ≡ []) }
        requires asked { self.old.asked ≡ true }
        requires name { IsPortName port }
        ensures { HasTried U.claims S.says U.opening (record self.old { asked = false }) port SessionType.Discovery result
            self.new }
    {
        let new = NewSession {
            port,
            group: self.group,
            kind: SessionType::Discovery,
        };
        match enter(self.rt, &self.device.sessions, new, connection) {
            Ok((number, tsih)) => {
                self.number = Some(number);
                self.begun = true;
                Ok(tsih)
            }
            Err(fault) => Err(BeginFault::from(fault)),
        }
    }

    /// Begins the session, of this kind and of the initiator port with this name and ISID: its TSIH. A normal session is
    /// attached to all units in order. The one of the same port, group and kind is over from then on (RFC 7143, 6.3.5).
    pub fn try_begin(
        &mut self,
        name: &[u8],
        isid: u64,
        kind: SessionType,
    ) -> Result<u16, BeginFault>
        ensures { HasTried U.claims S.says U.opening self.old (record { name = name.now; isid = isid }) kind result self.new }
    {
        let Some(connection) = self.connection.take() else {
            return Err(BeginFault::Begun);
        };
        let port = match port_of(self.alloc, name, isid) {
            Ok(port) => port,
            Err(fault) => return Err(fault),
        };
        match kind {
            SessionType::Normal => self.join(port, connection),
            SessionType::Discovery => self.join_none(port, connection),
        }
    }

    /// What was seen of the units as the session left them, or was refused there. It is over at each.
    pub fn into_seen(self) -> Vec<U::History>
        requires { self.at ≡ [] }
        ensures { map U.seen result.items ≡ self.entry.seen }
    {
        self.at.destroy_empty();
        self.seen
    }

    /// Whether the session has begun, and no other one has taken its place.
    pub fn is_live(&self) -> bool {
        match self.number {
            Some(number) => self.device.sessions.has(self.rt, number),
            None => false,
        }
    }

    /// Whether the session has begun, and an administrator has ended it.
    pub fn was_shut(&self) -> bool {
        match self.number {
            Some(number) => self.device.sessions.was_shut(self.rt, number),
            None => false,
        }
    }

    // Serves a command of a unit that is there.
    fn serve_at(&mut self, unit: u8, asked: &Asked, bytes: &[u8]) -> TargetAnswer
        ensures { IsServedAt U.claims (late_of G.is_late G.lasts) U.opening self.old unit asked.now bytes.now result self.new }
    {
        let Some(at) = self.at.get_mut(usize::from(unit)) else {
            return TargetAnswer::Gone;
        };
        let device = self.device;
        let rooms = Rooms::at(&device.spares, self.place, self.alloc);
        at.serve(self.rt, &rooms, &device.units, &device.gate, asked, bytes)
    }

    // Resets a unit that is there.
    fn reset_at(&mut self, unit: u8) -> ResetAnswer
        ensures { IsResetIn U.claims U.opening self.old unit result self.new }
    {
        let place = usize::from(unit);
        let Some(at) = self.at.get_mut(place) else {
            return ResetAnswer::Gone;
        };
        at.reset(self.rt, &self.device.units)
    }
}

impl<'a, R: Wait, U: LogicalUnits + Drop, G: Gate + Drop, S: Sessions + Drop> Target
    for SessionTarget<'a, R, U, G, S> {
    ghost use Rattle.live_sessions.specs.Target.{LeadsOn};

    ghost leads = { LeadsOn U.claims S.says (late_of G.is_late G.lasts) U.opening };

    ghost unit_count = { λ t. t.units };

    fn units(&self) -> u16 {
        u16::from(self.device.units.count())
    }

    fn begin(&mut self, name: &[u8], isid: u64, kind: SessionType) -> BeginAnswer {
        match self.try_begin(name, isid, kind) {
            Ok(tsih) => BeginAnswer::Begun(tsih),
            Err(_) => BeginAnswer::Refused,
        }
    }

    fn lives(&mut self, tsih: u16, name: &[u8], isid: u64) -> bool {
        self.device.sessions.lives(self.rt, tsih, name, isid)
    }

    fn end(&mut self) {
        retire_all(self.rt, &self.device.units, &mut self.at, &mut self.seen);
        if let Some(number) = self.number.take() {
            self.device.sessions.leave(self.rt, number);
        }
    }

    fn wants_prefetch(&self) -> bool {
        self.device.gate.wants_prefetch()
    }

    fn prefetch(&self, unit: Option<u8>, asked: &Asked) {
        match unit {
            Some(unit) if usize::from(unit) < self.at.len() => self
                .device
                .gate
                .prefetch(unit, asked),
            _ => {}
        }
    }

    fn serve(&mut self, unit: Option<u8>, asked: Asked, bytes: &[u8]) -> TargetAnswer {
        match unit {
            Some(unit) if unit < self.device.units.count() => { self.serve_at(unit, &asked, bytes) }
            _ => turn_away(self.alloc, &asked),
        }
    }

    fn reuse(&mut self, answer: TargetAnswer) {
        if let TargetAnswer::Replied(reply) = answer {
            self.device.spares.keep(self.place, reply.into_bytes());
        }
    }

    fn reset(&mut self, unit: u8) -> ResetAnswer {
        if unit < self.device.units.count() {
            self.reset_at(unit)
        } else {
            ResetAnswer::Failed
        }
    }
}
