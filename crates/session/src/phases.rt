//! A whole session without bytes: its login, and full feature phase behind it.
ghost use Rattle.std.specs.Prelude.{◌≡◌, ◌<◌, ◌≤◌, length, vec_capacity, IfOk, Some};
ghost use Rattle.session_rules.specs.Causes.{end_by_reject};
ghost use Rattle.session_rules.specs.Turn.{pdu as came, faulty};
ghost use Rattle.session_rules.specs.Verdict.{reason_of};
ghost use Rattle.session.specs.Stream.{OpensWith, IsFresh, MakesExchange};
ghost use Rattle.session_stream.specs.declared.outbox.TheConstants.{ENOUGH_TO_WRITE};

use iscsi_pdu::{BHS_LENGTH, Pdu, PduFault};
use login::SessionType;
use scsi_types::NoMemory;
use session_full_feature::{Session, fault_turn, feature_turn};
use session_login::{LoginPhase, login_fault_turn, login_turn};
use session_rules::{End, LONGEST_TEXT, Lengths, Opening, Start, Target, TargetRecord};
use session_stream::{Outbox, Sink};
use std::alloc::Global;
use std::marker::Model;

/// A session in one of its phases: in its login, while there is one; else in full feature phase.
#[derive(Drop)]
pub struct Phases {
    pub login: Option<LoginPhase>,
    pub session: Session,
}

impl Model for Phases {
    ghost use Rattle.session.specs.Stream.{PhasesValue};

    ghost Value = { PhasesValue };

    ghost view = { λ p. record { login = p.login; counters = p.session } };
}

impl Phases {
    /// A session that begins so, with a target of this record that has so many units. Takes all memory that it needs, but
    /// that of the data of writes.
    pub fn new(
        alloc: Global,
        opening: Opening,
        units: u16,
        me: &TargetRecord<'_>,
    ) -> Result<Phases, NoMemory>
        ensures { IfOk result (λ p. OpensWith units me.now opening p) }
    {
        match opening {
            Opening::Login(tag) => {
                // Its kind and its start come of the login.
                let start = Start {
                    exp_cmd_sn: 0,
                    stat_sn: 1,
                    lengths: Lengths::defaults(),
                };
                let login = LoginPhase::new(alloc, me.target_name, tag)?;
                Ok(Phases {
                    login: Some(login),
                    session: Session::new(alloc, SessionType::Normal, start, units, me)?,
                })
            }
            Opening::FullFeature(kind, start) => Ok(Phases {
                login: None,
                session: Session::new(alloc, kind, start, units, me)?,
            }),
        }
    }

    /// Whether its login is over.
    pub fn is_open(&self) -> bool {
        self.login.is_none()
    }

    /// Gives memory back while nothing comes.
    pub fn rest(&mut self)
        ensures { self.new ≡ self.old }
    {
        self.session.rest();
    }

    /// One turn: what a PDU calls for, with the target's answer, put into the outbox; the end that it calls for.
    pub fn turn<K: Sink, T: Target>(
        &mut self,
        target: &mut T,
        sink: &mut K,
        outbox: &mut Outbox,
        room: &mut Vec<u8>,
        bhs: &[u8; BHS_LENGTH],
        pdu: &Pdu<'_>,
    ) -> Option<End>
        requires fresh { IsFresh self.old }
        requires room { LONGEST_TEXT ≤ vec_capacity room.old }
        ensures kept { LONGEST_TEXT ≤ vec_capacity room.new }
        ensures few { length outbox.new.waiting < ENOUGH_TO_WRITE }
        ensures exchange { MakesExchange T.leads self.old self.new target.old target.new
            (K.held sink.old) (K.held sink.new)
            (K.failures sink.old) (K.failures sink.new) outbox.old outbox.new
            (came bhs.now pdu.now.header pdu.now.data.now) result }
    {
        match &mut self.login {
            None => feature_turn(&mut self.session, target, sink, outbox, room, bhs, pdu),
            Some(login) => {
                let outcome = login_turn(login, target, sink, outbox, room, bhs, pdu);
                if outcome.begins() {
                    self.session.begin(login.kind(), login.start());
                    self.login = None;
                }
                outcome.end(bhs)
            }
        }
    }

    /// The last turn: a fault stands where a PDU should.
    pub fn fault<K: Sink, T: Target>(
        &mut self,
        target: &T,
        sink: &mut K,
        outbox: &mut Outbox,
        bhs: &[u8; BHS_LENGTH],
        fault: PduFault,
    )
        ensures { MakesExchange T.leads self.old self.new target.now target.now (K.held sink.old) (K.held sink.new)
            (K.failures sink.old) (K.failures sink.new) outbox.old outbox.new (faulty fault bhs.now)
            (Some (end_by_reject (reason_of fault) bhs.now)) }
    {
        match &mut self.login {
            None => fault_turn(&mut self.session, target, sink, outbox, bhs, fault),
            Some(login) => login_fault_turn(login, target, sink, outbox, bhs, fault),
        }
    }
}
