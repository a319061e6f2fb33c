//! The target of one session, of which the log is told what happens.
ghost use Rattle.std.specs.Prelude.{◌≡◌, [], map};

use crate::log_words::{is_trouble, operation_of, reservation_in, sense_of, states_in};
use crate::observer::Observer;
use event_log::Log;
use events::{By, Cause, Event, Initiator};
use live_sessions::{BeginFault, Connection, SessionTarget, Sessions};
use login::SessionType;
use scsi_types::{Asked, Status};
use session::{BeginAnswer, ResetAnswer, Target, TargetAnswer};
use session_units::{Gate, LogicalUnits};
use std::alloc::Global;
use std::marker::Model;
use std::sync::Wait;
use std::time::Clock;

/// Whose session it is, as far as its login told.
#[derive(Drop)]
pub struct Visitor {
    /// Its InitiatorName: empty before its login, and where there was no memory for it.
    pub name: Vec<u8>,
    /// Its ISID.
    pub isid: u64,
    /// Its TSIH, 0 before it has begun, and what it is for.
    pub tsih: u16,
    pub kind: events::SessionType,
    /// What it lacked to begin.
    pub lacks: Cause,
    /// Another one took its place.
    pub is_replaced: bool,
    /// An administrator ended it.
    pub was_shut: bool,
}

impl Visitor {
    // Nobody yet.
    fn nobody(alloc: Global) -> Visitor {
        Visitor {
            name: Vec::new(alloc),
            isid: 0,
            tsih: 0,
            kind: events::SessionType::Normal,
            lacks: Cause::Request,
            is_replaced: false,
            was_shut: false,
        }
    }

    // Keeps for a log that is on whose session is to begin.
    fn note_initiator(&mut self, alloc: Global, log: &Log, name: &[u8], isid: u64) {
        if log.is_on() {
            self.name = name.to_vec(alloc).unwrap_or(Vec::new(alloc));
            self.isid = isid;
        }
    }

    // Keeps what it is for and its TSIH, or what it lacked to begin.
    fn tried(&mut self, tried: Result<u16, BeginFault>, kind: SessionType) {
        self.kind = kind_of(kind);
        match tried {
            Ok(tsih) => self.tsih = tsih,
            Err(fault) => self.lacks = cause_of(fault),
        }
    }

    // Keeps whether another one took its place, where it has begun, and whether an administrator ended it.
    fn end(&mut self, lives: bool, was_shut: bool) {
        self.is_replaced = self.tsih != 0 && !lives;
        self.was_shut = was_shut;
    }

    /// The initiator port.
    pub fn initiator(&self) -> Initiator<'_> {
        Initiator {
            name: self.name.as_slice(),
            isid: self.isid,
        }
    }
}

// Who is a session's initiator, and who looks at the session.
#[derive(Drop)]
struct Teller<'a, 'b, R: Wait + Clock> {
    observer: &'a Observer<'b, R>,
    who: Initiator<'a>,
}

impl<R: Wait + Clock> Teller<'_, '_, R> {
    // Tells that the session has begun, where it has.
    fn tried(&self, tried: Result<u16, BeginFault>, kind: SessionType) {
        if let Ok(tsih) = tried {
            let begun = Event::LoggedIn(self.who, self.observer.path, tsih, kind_of(kind));
            self.observer.tell(&begun);
        }
    }

    // Tells that it has reset a unit.
    fn reset(&self, unit: u8) {
        let tag = self.observer.path.tag;
        self.observer.tell(&Event::Reset(unit, self.who, tag));
    }

    // Tells what a command did to a unit.
    fn done(&self, unit: u8, asked: &Asked, bytes: &[u8]) {
        if let Some(reservation) = reservation_in(asked, bytes) {
            let reserved = Event::Reserved(unit, reservation, self.who, self.observer.path.tag);
            self.observer.tell(&reserved);
        }
        if let Some(set) = states_in(asked, bytes) {
            let by = By::Session(self.who);
            let set = Event::GroupsSet(unit, set.owner, set.first, set.second, by);
            self.observer.tell(&set);
        }
    }

    // Tells of the answer to a command of a unit what of it is to be told, where the log is on.
    fn served(&self, unit: Option<u8>, asked: &Asked, bytes: &[u8], answer: &TargetAnswer) {
        if let Some(unit) = unit
            && self.observer.log.is_on()
        {
            self.answered(unit, asked, bytes, answer);
        }
    }

    // Tells of an answer what of it is to be told.
    fn answered(&self, unit: u8, asked: &Asked, bytes: &[u8], answer: &TargetAnswer) {
        let tag = self.observer.path.tag;
        match answer {
            TargetAnswer::Replied(reply) => {
                if reply.status() == Status::Good {
                    self.done(unit, asked, bytes);
                } else if is_trouble(reply) {
                    let failed = Event::CommandFailed(
                        unit,
                        operation_of(asked),
                        sense_of(reply),
                        self.who,
                        tag,
                    );
                    self.observer.tell(&failed);
                }
            }
            TargetAnswer::Busy => {
                self.observer
                    .tell(&Event::Busy(unit, operation_of(asked), self.who, tag));
            }
            TargetAnswer::Outside(_) | TargetAnswer::Gone => {}
        }
    }
}

/// The target of a session. What changes a unit for others and what fails is told to the log.
#[derive(Drop)]
pub struct LoggedTarget<
    'a,
    R: Wait + Clock,
    U: LogicalUnits + Drop,
    G: Gate + Drop,
    S: Sessions + Drop,
> {
    target: SessionTarget<'a, R, U, G, S>,
    alloc: Global,
    observer: &'a Observer<'a, R>,
    visitor: Visitor,
}

impl<'a, R: Wait + Clock, U: LogicalUnits + Drop, G: Gate + Drop, S: Sessions + Drop> Model
    for LoggedTarget<'a, R, U, G, S> {
    ghost use Rattle.live_sessions.specs.Target.{TargetValue};

    ghost Value = { TargetValue };

    ghost view = { λ w. w.target };
}

impl<'a, R: Wait + Clock, U: LogicalUnits + Drop, G: Gate + Drop, S: Sessions + Drop> LoggedTarget<
    'a,
    R,
    U,
    G,
    S,
> {
    /// The target of a session that has not begun, at which somebody looks.
    pub fn new(
        alloc: Global,
        target: SessionTarget<'a, R, U, G, S>,
        observer: &'a Observer<'a, R>,
    ) -> LoggedTarget<'a, R, U, G, S>
        ensures { result ≡ target.entry }
    {
        LoggedTarget {
            target,
            alloc,
            observer,
            visitor: Visitor::nobody(alloc),
        }
    }

    /// Whose session it was, and what was seen of the units as it left them, or was refused there.
    pub fn into_parts(self) -> (Visitor, Vec<U::History>)
        requires { self.at ≡ [] }
        ensures { map U.seen result.1.items ≡ self.entry.seen }
    {
        (self.visitor, self.target.into_seen())
    }

    // Who tells the log of the session.
    fn teller(&self) -> Teller<'_, 'a, R> {
        Teller {
            observer: self.observer,
            who: self.visitor.initiator(),
        }
    }
}

// What the array lacked where it refused a session.
fn cause_of(fault: BeginFault) -> Cause {
    match fault {
        BeginFault::Begun | BeginFault::NoPortName | BeginFault::Left => Cause::Request,
        BeginFault::NoRoom(unit) => Cause::NoRoom(unit),
        BeginFault::NoTsih => Cause::NoTsih,
        BeginFault::NoNumber => Cause::NoNumber,
        BeginFault::NoMemory => Cause::NoMemory,
    }
}

// What a session is for, as the log names it.
fn kind_of(kind: SessionType) -> events::SessionType {
    match kind {
        SessionType::Normal => events::SessionType::Normal,
        SessionType::Discovery => events::SessionType::Discovery,
    }
}

impl<'a, R: Wait + Clock, U: LogicalUnits + Drop, G: Gate + Drop, S: Sessions + Drop> Target
    for LoggedTarget<'a, R, U, G, S> {
    ghost use Rattle.session_units.specs.Late.{late_of};
    ghost use Rattle.live_sessions.specs.Target.{LeadsOn};

    ghost leads = { LeadsOn U.claims S.says (late_of G.is_late G.lasts) U.opening };

    ghost unit_count = { λ t. t.units };

    fn units(&self) -> u16 {
        self.target.units()
    }

    fn begin(&mut self, name: &[u8], isid: u64, kind: SessionType) -> BeginAnswer {
        self.visitor
            .note_initiator(self.alloc, self.observer.log, name, isid);
        let tried = self.target.try_begin(name, isid, kind);
        self.visitor.tried(tried, kind);
        self.teller().tried(tried, kind);
        let who = self.visitor.initiator();
        self.observer.enter(self.alloc, who, tried, kind_of(kind));
        match tried {
            Ok(tsih) => BeginAnswer::Begun(tsih),
            Err(_) => BeginAnswer::Refused,
        }
    }

    fn lives(&mut self, tsih: u16, name: &[u8], isid: u64) -> bool {
        self.target.lives(tsih, name, isid)
    }

    fn end(&mut self) {
        let (lives, was_shut) = (self.target.is_live(), self.target.was_shut());
        self.visitor.end(lives, was_shut);
        self.target.end();
    }

    fn wants_prefetch(&self) -> bool {
        self.target.wants_prefetch()
    }

    fn prefetch(&self, unit: Option<u8>, asked: &Asked) {
        self.target.prefetch(unit, asked);
    }

    fn serve(&mut self, unit: Option<u8>, asked: Asked, bytes: &[u8]) -> TargetAnswer {
        self.observer.begin(unit);
        let answer = self.target.serve(unit, asked, bytes);
        self.observer.count(unit, &asked, &answer);
        self.teller().served(unit, &asked, bytes, &answer);
        answer
    }

    fn reuse(&mut self, answer: TargetAnswer) {
        self.target.reuse(answer);
    }

    fn reset(&mut self, unit: u8) -> ResetAnswer {
        let answer = self.target.reset(unit);
        if answer == ResetAnswer::Done {
            self.teller().reset(unit);
        }
        answer
    }
}
