//! The sessions that live at an array, and their handles.
ghost use Rattle.std.specs.Prelude.{◌≡◌, ◌<◌, ◌++◌, ◌∷◌, [], length, nat_eq, vec_capacity, IfOk, IfErr, OnErr};
ghost use Rattle.std.specs.List.{list_any};
ghost use Rattle.registrants.specs.Nexus.{through, same_port};
ghost use Rattle.live_sessions.specs.Live.{HasEntered, IsCauseOf, is_live, is_older, others, without};

use crate::connection::Connection;
use crate::handles::{Handled, LAST_NUMBER, next_tsih};
use login::SessionType;
use scsi_types::{Group, PortName};
use std::alloc::{AllocError, Global};
use std::marker::Model;
use thiserror::Error;

/// A session that is to begin to live.
#[derive(Drop)]
pub struct NewSession {
    /// Its initiator port.
    pub port: PortName,
    /// The group of the portals by which it came.
    pub group: Group,
    /// What it is for.
    pub kind: SessionType,
}

/// A session that has begun and is not over.
#[derive(Drop)]
pub struct LiveSession<C> {
    /// How many sessions began before it.
    pub number: u64,
    /// Its Target Session Identifying Handle.
    pub tsih: u16,
    /// What it began as.
    pub begun: NewSession,
    /// What it runs over.
    pub connection: C,
}

impl<C> Handled for LiveSession<C> {
    ghost handle = { λ s. s.tsih };

    fn tsih(&self) -> u16 {
        self.tsih
    }
}

/// Why a session does not begin to live. Nothing has changed.
#[derive(Clone, Copy, Debug, Error)]
pub enum EnterFault {
    /// A session has each TSIH.
    #[error("no TSIH is free")]
    NoTsih,
    /// As many sessions have begun as are counted.
    #[error("too many sessions have begun")]
    NoNumber,
    /// There was no memory.
    #[error("no memory")]
    NoMemory,
}

impl From<AllocError> for EnterFault {
    ghost use Rattle.live_sessions.specs.declared.live.EnterFault.TheVariants.{NoMemory};

    ghost from_gives = { λ _ fault. fault ≡ NoMemory };

    fn from(_: AllocError) -> EnterFault {
        EnterFault::NoMemory
    }
}

/// The sessions that live.
#[derive(Drop)]
pub struct Table<C> {
    live: Vec<LiveSession<C>>,
    // The TSIH that was given last, 0 before the first.
    last: u16,
    // How many sessions have begun.
    begun: u64,
    // The numbers of those that live whose connection an administrator has ended, as far as there was memory for them.
    ended: Vec<u64>,
}

impl<C> Model for Table<C> {
    ghost use Rattle.live_sessions.specs.Live.{TableValue};

    ghost Value = { TableValue C };

    ghost view = { λ t. record { live = t.live.items; last = t.last; begun = t.begun } };
}

// Whether a session is of this port.
fn is_of_port<C>(session: &LiveSession<C>, name: &[u8], isid: u64) -> bool
    ensures { result ≡ same_port session.now.begun.port (record { name = name.now; isid = isid }) }
{
    session.begun.port.isid() == isid && session.begun.port.name() == name
}

// Whether a new session takes the place of this one: it is of the same port, group and kind (RFC 7143, 6.3.5).
fn is_older<C>(session: &LiveSession<C>, new: &NewSession) -> bool
    ensures { result ≡ is_older (through new.now.port new.now.group) new.now.kind session.now }
{
    let begun = &session.begun;
    begun.kind == new.kind && begun.group == new.group && begun.port.same(&new.port)
}

// Ends the connection of the session whose place a new one takes.
fn shut_older<C: Connection>(live: &[LiveSession<C>], new: &NewSession) {
    for session in live {
        if is_older(session, new) {
            session.connection.shut();
        }
    }
}

// Ends the connection of the session with this TSIH, and keeps its number where there is memory for it.
fn shut_one<C: Connection>(live: &[LiveSession<C>], tsih: u16, ended: &mut Vec<u64>) {
    for session in live {
        if session.tsih == tsih {
            let _ = ended.push(session.number);
            session.connection.shut();
        }
    }
}

// Puts a new session in the place of the one that its nexus had of its kind. Takes no memory.
fn replace<C: Drop>(live: &mut Vec<LiveSession<C>>, new: LiveSession<C>)
    requires { length live.old.items < vec_capacity live.old }
    ensures { live.new.items ≡ others (through new.begun.port new.begun.group) new.begun.kind live.old.items ++ new ∷ [] }
{
    live.retain(|session| !is_older(session, &new.begun));
    live.push_reserved(new);
}

// Takes the session with this number out.
fn remove<C: Drop>(live: &mut Vec<LiveSession<C>>, number: u64)
    ensures { live.new.items ≡ without number live.old.items }
{
    live.retain(|session| session.number != number);
}

impl<C> Table<C> {
    /// No session lives yet.
    pub fn new(alloc: Global) -> Table<C>
        ensures { result ≡ record { live = []; last = 0; begun = 0 } }
    {
        Table {
            live: Vec::new(alloc),
            last: 0,
            begun: 0,
            ended: Vec::new(alloc),
        }
    }

    /// A session begins to live: its number and its TSIH. An older one of the same port, group and kind is over, and its connection
    /// ends (RFC 7143, 6.3.5).
    pub fn enter(&mut self, new: NewSession, connection: C) -> Result<(u64, u16), EnterFault>
    where
        C: Connection + Drop,
        ensures entered { IfOk result (λ r. HasEntered self.old self.new
            (record { number = r.0; tsih = r.1; begun = new; connection = connection })) }
        ensures cause { IfErr result (IsCauseOf self.old) }
        ensures unchanged { OnErr result (self.new ≡ self.old) }
    {
        let Some(tsih) = next_tsih(&self.live, self.last) else {
            return Err(EnterFault::NoTsih);
        };
        let number = self.begun;
        if number == LAST_NUMBER {
            return Err(EnterFault::NoNumber);
        }
        self.live.reserve(1)?;
        shut_older(&self.live, &new);
        let session = LiveSession {
            number,
            tsih,
            begun: new,
            connection,
        };
        replace(&mut self.live, session);
        self.last = tsih;
        self.begun = number + 1;
        Ok((number, tsih))
    }

    /// The session with this number is over. The others live on.
    pub fn leave(&mut self, number: u64)
    where
        C: Drop,
        ensures { self.new ≡ record self.old { live = without number self.old.live } }
    {
        remove(&mut self.live, number);
        self.ended.retain(|ended| *ended != number);
    }

    /// Whether the session with this TSIH lives, and is of this port.
    pub fn lives(&self, tsih: u16, name: &[u8], isid: u64) -> bool
        ensures { result ≡ is_live self.now.live tsih (record { name = name.now; isid = isid }) }
    {
        self.live.iter().any(|session| session.tsih == tsih && is_of_port(session, name, isid))
    }

    /// Whether a session with this TSIH lives: it does until its worker has left all units.
    pub fn has_tsih(&self, tsih: u16) -> bool
        ensures { result ≡ list_any (λ s. nat_eq s.tsih tsih) self.now.live }
    {
        self.live.iter().any(|session| session.tsih == tsih)
    }

    /// Ends the connection of the session with this TSIH for an administrator, where one lives: whether one does.
    pub fn shut(&mut self, tsih: u16) -> bool
    where
        C: Connection,
        ensures lived { result ≡ list_any (λ s. nat_eq s.tsih tsih) self.old.live }
        ensures unchanged { self.new ≡ self.old }
    {
        shut_one(&self.live, tsih, &mut self.ended);
        self.has_tsih(tsih)
    }

    /// Whether an administrator has ended the connection of the session with this number, which is not over yet. No: also where there
    /// was no memory to keep that.
    pub fn was_shut(&self, number: u64) -> bool {
        self.ended.contains(&number)
    }

    /// Whether the session with this number lives.
    pub fn has(&self, number: u64) -> bool
        ensures { result ≡ list_any (λ s. nat_eq s.number number) self.now.live }
    {
        self.live.iter().any(|session| session.number == number)
    }

    /// How many sessions live.
    pub fn count(&self) -> usize
        ensures { result ≡ length self.now.live }
    {
        self.live.len()
    }
}
