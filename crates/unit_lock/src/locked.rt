//! The unit under its lock.
ghost use Rattle.std.specs.Prelude.{◌≡◌, ◌+◌, ◌++◌, ◌∷◌, [], length, IfOk, IfErr, IfSome, MatchBool, List, Some};
ghost use Rattle.unit_lock.specs.Calls.{IsAdded, IsBeside, IsBetween, IsEnded, IsRefused, IsCause};

use crate::entries::{Attaches, Detaches, Listed, Moves, Resets, Served, Serves};
use crate::machine::{Machine, Refused};
use crate::pass::PassAt;
use crate::records::{Posted, Records};
use crate::visit::Visit;
use std::alloc::Global;
use std::marker::Model;
use std::sync::Wait;
use unit_sequence::{ArrayNaming, At, History};

/// The unit, which is what its history leaves, and all that is needed to add an entry to that. A call takes the records out
/// and puts them back. Contracts see the history.
#[derive(Drop)]
pub(crate) struct Locked<E, S, X: Machine<E, S>, N: ArrayNaming<S>, const U: usize> {
    // On the heap, so that all that stands round it has a size of its own.
    object: Box<X, Global>,
    records: Option<Records<E, S, X, At<S, N, U>>>,
}

impl<E, S, X: Machine<E, S>, N: ArrayNaming<S>, const U: usize> Model for Locked<E, S, X, N, U> {
    ghost use Rattle.std.specs.Prelude.{List, IsSome};
    ghost use Rattle.unit_lock.specs.Calls.{held};

    ghost Value = { List E };

    ghost view = { λ l. held l.records };

    ghost invariant = { λ l. IsSome l.records × X.legal (N.opening U) (held l.records)
        × X.after (N.opening U) (held l.records) l.object.value };
}

impl<E, S, X: Machine<E, S>, N: ArrayNaming<S>, const U: usize> Locked<E, S, X, N, U> {
    /// A unit of which nothing was asked yet.
    pub(crate) fn new(
        object: Box<X, Global>,
        records: Records<E, S, X, At<S, N, U>>,
    ) -> Locked<E, S, X, N, U>
        requires legal { X.legal (N.opening U) records }
        requires object { X.after (N.opening U) records object.value }
        ensures { result ≡ records }
    {
        Locked {
            object,
            records: Some(records),
        }
    }

    /// Serves a command of the session.
    pub(crate) fn serve<R: Wait>(
        &mut self,
        rt: &R,
        posted: &Posted<E, S, X, At<S, N, U>>,
        pass: PassAt<E, S, X, N, U>,
        memory: X::Memory,
        by_group: &X::Group,
        ask: &X::Ask,
        bytes: &[u8],
    ) -> (PassAt<E, S, X, N, U>, Result<X::Reply, Refused<X::Group>>)
        ensures reply { IfOk result.1 (λ reply. IsAdded X.own (X.legal (N.opening U)) pass result.0
            (λ h e. X.asks pass.session pass.serial by_group.now ask.now bytes.now e × X.told (N.opening U) h e reply)) }
        ensures next { IfOk result.1 (λ reply. (result.0.session ≡ pass.session) × (result.0.serial ≡ pass.serial + 1)) }
        ensures worked { IfOk result.1 (λ reply. IsBetween (X.after (N.opening U)) result.0.seen
            (X.worked pass.session ask.now bytes.now reply)) }
        ensures refused { IfErr result.1 (λ why. IsRefused X.own (X.legal (N.opening U)) pass result.0) }
        ensures cause { IfErr result.1 (λ why. IsCause (X.gone (N.opening U) result.0.seen pass.session)
            (X.owner (N.opening U) result.0.seen)
            (X.wants (N.opening U) result.0.seen pass.session ask.now bytes.now) by_group.now why) }
        ensures seen { self.new ≡ result.0.seen }
    {
        let session = pass.session;
        let serial = pass.serial;
        let visit = Visit::begin(rt, posted, &mut self.records, pass);
        match self
            .object
            .step(memory, session, serial, by_group, ask, bytes)
        {
            Ok(reply) => {
                let row = self.object.row();
                let done = Served {
                    session,
                    serial,
                    by_group,
                    ask,
                    bytes,
                    reply: &reply,
                    object: &*self.object,
                };
                let pass = visit.finish::<Served<X, X::Group, X::Ask, X::Reply>, Serves<S, X>, R>(
                    rt,
                    posted,
                    &mut self.records,
                    row,
                    &done,
                    serial + 1,
                );
                (pass, Ok(reply))
            }
            Err(why) => (visit.give_back(posted, &mut self.records), Err(why)),
        }
    }

    /// Attaches a session, whose number is the place of its entry.
    pub(crate) fn attach<R: Wait>(
        &mut self,
        rt: &R,
        posted: &Posted<E, S, X, At<S, N, U>>,
        name: X::Name,
    ) -> Result<PassAt<E, S, X, N, U>, History<E, At<S, N, U>>>
        ensures attached { IfOk result (λ p. (p.seen ≡ self.old ++ X.attaching name ∷ []) × (p.session ≡ length self.old)
            × (p.serial ≡ 1) × X.legal (N.opening U) p.seen) }
        ensures full { IfErr result (λ f. X.full (N.opening U) f name × X.legal (N.opening U) f) }
        ensures seen { IfOk result (λ p. self.new ≡ p.seen) }
        ensures same { IfErr result (λ f. (self.new ≡ self.old) × (f ≡ self.old)) }
    {
        let Some(session) = self.object.attach(name) else {
            return Err(Records::history_in(&self.records));
        };
        let row = self.object.row();
        let (seen, right) = Records::join_in::<X, Attaches<S, X>, R>(
            &mut self.records,
            rt,
            posted,
            row,
            &*self.object,
        );
        Ok(PassAt::new(session, 1, seen, right))
    }

    /// Resets the unit for a session.
    pub(crate) fn reset<R: Wait>(
        &mut self,
        rt: &R,
        posted: &Posted<E, S, X, At<S, N, U>>,
        pass: PassAt<E, S, X, N, U>,
    ) -> (PassAt<E, S, X, N, U>, bool)
        ensures done { MatchBool result.1
            (IsAdded X.own (X.legal (N.opening U)) pass result.0 (λ h e. e ≡ X.resetting pass.session)
            × (result.0.session ≡ pass.session) × (result.0.serial ≡ pass.serial))
            (IsRefused X.own (X.legal (N.opening U)) pass result.0 × X.gone (N.opening U) result.0.seen pass.session) }
        ensures seen { self.new ≡ result.0.seen }
    {
        let session = pass.session;
        let visit = Visit::begin(rt, posted, &mut self.records, pass);
        if self.object.reset(session) {
            let row = self.object.row();
            (
                visit.note::<Resets<S, X>, R>(rt, posted, &mut self.records, row),
                true,
            )
        } else {
            (visit.give_back(posted, &mut self.records), false)
        }
    }

    /// Ends a session, whose right goes with it.
    pub(crate) fn retire<R: Wait>(
        &mut self,
        rt: &R,
        posted: &Posted<E, S, X, At<S, N, U>>,
        pass: PassAt<E, S, X, N, U>,
    ) -> Result<History<E, At<S, N, U>>, PassAt<E, S, X, N, U>>
        ensures done { IfOk result (λ f. IsEnded X.own (X.legal (N.opening U)) pass f (X.detaching pass.session)
            × X.absent (N.opening U) f pass.session) }
        ensures gone { IfErr result (λ p. IsRefused X.own (X.legal (N.opening U)) pass p × X.gone (N.opening U) p.seen pass.session) }
        ensures ends { IfOk result (λ f. (self.new ≡ f) × (f ≡ self.old ++ X.detaching pass.session ∷ [])) }
        ensures same { IfErr result (λ p. (self.new ≡ p.seen) × (self.new ≡ self.old)) }
    {
        let session = pass.session;
        let visit = Visit::begin(rt, posted, &mut self.records, pass);
        if self.object.detach(session) {
            let row = self.object.row();
            let pass = visit.note::<Detaches<S, X>, R>(rt, posted, &mut self.records, row);
            Ok(pass.into_history())
        } else {
            Err(visit.give_back(posted, &mut self.records))
        }
    }

    /// Moves the unit as a list says.
    pub(crate) fn move_to<R: Wait>(
        &mut self,
        rt: &R,
        posted: &Posted<E, S, X, At<S, N, U>>,
        list: &[u8],
    ) -> (History<E, At<S, N, U>>, Result<X::Change, X::Stays>)
        ensures legal { X.legal (N.opening U) result.0 }
        ensures moved { IfOk result.1 (λ change. (result.0 ≡ self.old ++ X.moving list.now ∷ [])
            × X.moved (N.opening U) self.old list.now change) }
        ensures handed_over { IfOk result.1 (λ change. IsBetween (X.after (N.opening U)) result.0
            (λ old new. X.handed_over old new result.1)) }
        ensures not_handed_over { IfErr result.1 (λ why. IsBeside (X.after (N.opening U)) result.0
            (λ old new. X.handed_over old new result.1)) }
        ensures stays { IfErr result.1 (λ why. X.stays (N.opening U) result.0 list.now why × (result.0 ≡ self.old)) }
        ensures seen { self.new ≡ result.0 }
    {
        match self.object.move_to(list) {
            Ok(change) => {
                let row = self.object.row();
                let about = Listed { list };
                let (seen, _) = Records::join_in::<Listed, Moves<S, X>, R>(
                    &mut self.records,
                    rt,
                    posted,
                    row,
                    &about,
                );
                (seen, Ok(change))
            }
            Err(why) => (Records::history_in(&self.records), Err(why)),
        }
    }

    /// Another value of its registrations. It is no entry.
    pub(crate) fn registrations(&self) -> Option<X::Registrations>
        ensures { IfSome result (λ found. (h : List E) × X.legal (N.opening U) h × X.registered (N.opening U) h found) }
    {
        self.object.registrations()
    }

    /// Makes what was written last. It is no entry.
    pub(crate) fn flush(&mut self) -> Result<(), X::Fault>
        ensures same { self.new ≡ self.old }
        ensures flushed { (h : List E) × X.legal (N.opening U) h
            × IsBeside (X.after (N.opening U)) h (λ old new. X.flushed old new result) }
    {
        self.object.flush()
    }
}
