//! A session at one unit.
ghost use Rattle.std.specs.Prelude.{◌≡◌, ◌<◌, Some, None};
ghost use Rattle.session_units.specs.Late.{late_of};
ghost use Rattle.session_units.specs.Submitted.{IsCalled, IsOnce, IsServed, IsResetAnswer, answer_of, believed};

use crate::gate::Gate;
use crate::late::answer_behind_flush;
use crate::memory::Rooms;
use crate::units::{LogicalUnits, Pass, Unserved};
use block_file::ReplyMemory;
use disk_preparer::Account;
use scsi_types::{Asked, Group, Reply};
use session::{ResetAnswer, TargetAnswer};
use std::marker::Model;
use std::mem;
use std::sync::Wait;
use unit_events::without_flush;
use unit_history::Refused;

/// A session that is attached to a unit, and the group that it believes to own the unit.
#[derive(Drop)]
pub struct UnitSession<P: Pass> {
    // The pass; out only while a call has it.
    pass: Option<P>,
    by_group: Group,
    // What it has written to the unit's disk of late.
    account: Account,
}

impl<P: Pass> Model for UnitSession<P> {
    ghost use Rattle.std.specs.Prelude.{IsSome, Some};
    ghost use Rattle.session_units.specs.Submitted.{At};
    ghost use Rattle.session_units.specs.Passes.{at_of};

    ghost Value = { At };

    ghost view = { λ a. at_of P.held a.pass a.by_group };

    ghost invariant = { λ a. IsSome a.pass };
}

/// What a session is answered where a command came to this.
fn answered(end: Result<Reply, Unserved>) -> TargetAnswer
    ensures { result ≡ answer_of end }
{
    match end {
        Ok(reply) => TargetAnswer::Replied(reply),
        Err(Unserved::ByUnit(Refused::Gone)) => TargetAnswer::Gone,
        Err(_) => TargetAnswer::Busy,
    }
}

// Puts a pass that was out back into its slot.
fn put_back<P: Pass>(slot: &mut Option<P>, pass: P)
    requires { slot.old ≡ None }
    ensures { slot.new ≡ Some pass }
{
    match mem::replace(slot, Some(pass)) {
        None => {}
        Some(_) => unreachable!(),
    }
}

// Which group is believed to own the unit behind a call by this one, which came to this.
fn believed_behind(by_group: Group, end: &Result<Reply, Unserved>) -> Group
    ensures { result ≡ believed by_group end.now }
{
    match end {
        Err(Unserved::ByUnit(Refused::Moved(owner))) => *owner,
        _ => by_group,
    }
}

// Submits a command as it was asked; or without its flush, where that is left to the gate, and comes behind it.
fn call<R: Wait, U: LogicalUnits, G: Gate>(
    rt: &R,
    room: ReplyMemory,
    units: &U,
    gate: &G,
    pass: U::Right,
    by_group: Group,
    asked: &Asked,
    bytes: &[u8],
) -> (U::Right, Result<Reply, Unserved>)
    requires { (U.Right.held pass).place < U.unit_count units.now }
    ensures place { (U.Right.held result.0).place ≡ (U.Right.held pass).place }
    ensures end { IsCalled U.claims (late_of G.is_late G.lasts) U.opening (U.Right.held pass)
        by_group asked.now bytes.now result.1 (U.Right.held result.0) }
{
    let alloc = room.alloc();
    let unflushed = without_flush(asked);
    let (served, is_late) = match &unflushed {
        Some(served) if gate.flushes_behind(pass.place()) => (served, true),
        _ => (asked, false),
    };
    let (pass, end) = units.serve(rt, room, pass, by_group, served, bytes);
    if !is_late {
        return (pass, end);
    }
    match end {
        Ok(reply) => {
            let reply = answer_behind_flush(alloc, gate, &pass, reply);
            (pass, Ok(reply))
        }
        Err(why) => (pass, Err(why)),
    }
}

impl<P: Pass> UnitSession<P> {
    /// A session that was attached to a unit through this group, which it believes to own it.
    pub fn new(pass: P, by_group: Group) -> UnitSession<P>
        ensures place { result.place ≡ (P.held pass).place }
        ensures pass { result.pass ≡ (P.held pass).pass }
        ensures by { result.by_group ≡ by_group }
    {
        UnitSession {
            pass: Some(pass),
            by_group,
            account: Account::new(),
        }
    }

    /// The pass.
    pub fn into_pass(self) -> P
        ensures place { (P.held result).place ≡ self.place }
        ensures pass { (P.held result).pass ≡ self.pass }
    {
        let Some(pass) = self.pass else {
            unreachable!()
        };
        pass
    }

    // Submits a command once, to the group that is believed to own the unit.
    fn submit<R: Wait, U: LogicalUnits<Right = P>, G: Gate>(
        &mut self,
        rt: &R,
        room: ReplyMemory,
        units: &U,
        gate: &G,
        asked: &Asked,
        bytes: &[u8],
    ) -> Result<Reply, Unserved>
        requires { self.old.place < U.unit_count units.now }
        ensures { IsOnce U.claims (late_of G.is_late G.lasts) U.opening self.old asked.now bytes.now result self.new }
    {
        let Some(pass) = self.pass.take() else {
            unreachable!()
        };
        let serial = pass.next_serial();
        gate.let_in(pass.place(), asked, &mut self.account);
        gate.fetch(pass.place(), serial, asked);
        let room = gate.read(pass.place(), serial, asked, room);
        let by_group = self.by_group;
        let (pass, end) = call(rt, room, units, gate, pass, by_group, asked, bytes);
        put_back(&mut self.pass, pass);
        self.by_group = believed_behind(by_group, &end);
        end
    }

    /// Serves a command of the session: once more where the unit has moved, with memory of its own for the reply.
    pub fn serve<R: Wait, U: LogicalUnits<Right = P>, G: Gate>(
        &mut self,
        rt: &R,
        rooms: &Rooms<'_>,
        units: &U,
        gate: &G,
        asked: &Asked,
        bytes: &[u8],
    ) -> TargetAnswer
        requires { self.old.place < U.unit_count units.now }
        ensures { IsServed U.claims (late_of G.is_late G.lasts) U.opening self.old asked.now bytes.now result self.new }
    {
        match self.submit(rt, rooms.room_for(asked), units, gate, asked, bytes) {
            Err(Unserved::ByUnit(Refused::Moved(_))) => {
                answered(self.submit(rt, rooms.room_for(asked), units, gate, asked, bytes))
            }
            end => answered(end),
        }
    }

    /// Resets the unit for the session.
    pub fn reset<R: Wait, U: LogicalUnits<Right = P>>(&mut self, rt: &R, units: &U) -> ResetAnswer
        requires { self.old.place < U.unit_count units.now }
        ensures { IsResetAnswer U.claims U.opening self.old result self.new }
    {
        let Some(pass) = self.pass.take() else {
            unreachable!()
        };
        let (pass, is_reset) = units.reset(rt, pass);
        put_back(&mut self.pass, pass);
        if is_reset {
            ResetAnswer::Done
        } else {
            ResetAnswer::Gone
        }
    }
}
