//! One call by a session's pass under the lock: `begin` takes the records and the pass, and the call ends by `finish`, with an entry, or by
//! `give_back`, with none.
ghost use Rattle.std.specs.Prelude.{◌≡◌, ◌+◌, ◌<◌, ◌^◌, ◌++◌, ◌∷◌, [], length, IsSome, Some};
ghost use Rattle.status.specs.Views.{IsOwn, counted};
ghost use Rattle.unit_lock.specs.Calls.{IsAdded, IsRefused, held};

use crate::entries::Resets;
use crate::machine::Machine;
use crate::pass::PassAt;
use crate::records::{Posted, Records};
use logbook::Plain;
use status::{Holder, Published, Row};
use std::marker::Model;
use std::sync::Wait;
use unit_sequence::{Answer, ArrayNaming, At, History, Recorder};

/// A session's pass, whose right is in hand, beside the whole history: nothing of the session's own came since what its pass
/// has seen. Contracts see the pass and the history.
#[derive(Drop)]
pub(crate) struct Visit<E, S, P: Published<E, S>, N: ArrayNaming<S>, const U: usize> {
    session: u64,
    serial: u64,
    seen: History<E, At<S, N, U>>,
    recorder: Recorder<E, At<S, N, U>>,
    holder: Holder<E, S, P, At<S, N, U>>,
}

impl<E, S, P: Published<E, S>, N: ArrayNaming<S>, const U: usize> Model for Visit<E, S, P, N, U> {
    ghost use Rattle.std.specs.Prelude.{◌≡◌, ◌≤◌, ◌+◌};
    ghost use mathlib.Core.List.{IsPrefix};
    ghost use Rattle.status.specs.Views.{counted};
    ghost use Rattle.unit_lock.specs.Calls.{Visiting};

    ghost Value = { Visiting E };

    ghost view = { λ v. record { pass = record { session = v.session; serial = v.serial; seen = v.seen }; all = v.recorder } };

    ghost invariant = { λ v. (v.holder.seen ≡ v.recorder) × (v.holder.claim.session ≡ v.session)
        × (v.serial ≡ v.holder.claim.commands + 1) × (v.holder.claim.count ≤ counted P.own v.session v.seen)
        × (counted P.own v.session v.recorder ≡ v.holder.claim.count) × IsPrefix v.seen v.recorder };
}

impl<E, S, X: Machine<E, S>, N: ArrayNaming<S>, const U: usize> Visit<E, S, X, N, U> {
    /// Takes the records out of their place, and the right of a pass in hand; and finds that what the pass has seen begins the
    /// history, that nothing of the session's own came since, and that the pass's serial is that behind the session's commands.
    pub(crate) fn begin<R: Wait>(
        rt: &R,
        posted: &Posted<E, S, X, At<S, N, U>>,
        records: &mut Option<Records<E, S, X, At<S, N, U>>>,
        pass: PassAt<E, S, X, N, U>,
    ) -> Visit<E, S, X, N, U>
        requires { IsSome records.old }
        ensures pass { result.pass ≡ pass }
        ensures all { result.all ≡ held records.old }
        ensures serial { counted X.command pass.session (held records.old) + 1 ≡ pass.serial }
    {
        let PassAt {
            session,
            serial,
            seen,
            right,
            of: _,
        } = pass;
        let Records {
            recorder,
            publisher,
        } = records.take().unwrap();
        // The look adds no entry, so it does not matter which one it is made with.
        let recorder = recorder.covers::<u64, Resets<S, X>>(&posted.word, &seen, &session);
        let holder = publisher.take::<R>(rt, &posted.board, right);
        Visit {
            session,
            serial,
            seen,
            recorder,
            holder,
        }
    }
}

impl<E, S, P: Published<E, S>, N: ArrayNaming<S>, const U: usize> Visit<E, S, P, N, U> {
    /// Adds an entry of the session's own, after which it has this serial, puts the records back in their place, and gives the
    /// pass back, which has seen the entry.
    pub(crate) fn finish<A, M: Plain<A, E, Answer>, R: Wait>(
        self,
        rt: &R,
        posted: &Posted<E, S, P, At<S, N, U>>,
        place: &mut Option<Records<E, S, P, At<S, N, U>>>,
        row: Row,
        about: &A,
        serial: u64,
    ) -> PassAt<E, S, P, N, U>
        requires room { length self.all + 1 < 2 ^ 64 }
        requires own { IsOwn P.own P.command self.pass.session (M.ask about.now) }
        requires legal { P.legal (N.opening U) (self.all ++ M.ask about.now ∷ []) }
        requires row { row ≡ P.rows (N.opening U) (self.all ++ M.ask about.now ∷ []) }
        requires serial { serial ≡ self.pass.serial + P.command self.pass.session (M.ask about.now) }
        ensures records { place.new ≡ Some result.seen }
        ensures seen { result.seen ≡ self.all ++ M.ask about.entry.now ∷ [] }
        ensures added { IsAdded P.own (P.legal (N.opening U)) self.pass result
            (λ h e. (h ≡ self.all) × (e ≡ M.ask about.entry.now)) }
        ensures next { (result.session ≡ self.pass.session) × (result.serial ≡ serial) }
    {
        let Visit {
            session,
            serial: _,
            seen: _,
            recorder,
            holder,
        } = self;
        let recorder = recorder.add::<A, M>(&posted.word, about);
        let (publisher, right) = holder.publish::<A, M, R>(rt, &posted.board, row, about);
        let seen = Records::put_in(place, recorder, publisher);
        PassAt::new(session, serial, seen, right)
    }

    /// The same with an entry that is no command, so that the serial stays.
    pub(crate) fn note<M: Plain<u64, E, Answer>, R: Wait>(
        self,
        rt: &R,
        posted: &Posted<E, S, P, At<S, N, U>>,
        place: &mut Option<Records<E, S, P, At<S, N, U>>>,
        row: Row,
    ) -> PassAt<E, S, P, N, U>
        requires room { length self.all + 1 < 2 ^ 64 }
        requires own { IsOwn P.own P.command self.pass.session (M.ask self.pass.session) }
        requires uncounted { P.command self.pass.session (M.ask self.pass.session) ≡ 0 }
        requires legal { P.legal (N.opening U) (self.all ++ M.ask self.pass.session ∷ []) }
        requires row { row ≡ P.rows (N.opening U) (self.all ++ M.ask self.pass.session ∷ []) }
        ensures records { place.new ≡ Some result.seen }
        ensures seen { result.seen ≡ self.all ++ M.ask self.pass.session ∷ [] }
        ensures added { IsAdded P.own (P.legal (N.opening U)) self.pass result
            (λ h e. (h ≡ self.all) × (e ≡ M.ask self.pass.session)) }
        ensures next { (result.session ≡ self.pass.session) × (result.serial ≡ self.pass.serial) }
    {
        let session = self.session;
        let serial = self.serial;
        self.finish::<u64, M, R>(rt, posted, place, row, &session, serial)
    }

    /// Adds no entry: puts the records back in their place, and gives the pass back, which has seen all of the history.
    pub(crate) fn give_back(
        self,
        posted: &Posted<E, S, P, At<S, N, U>>,
        place: &mut Option<Records<E, S, P, At<S, N, U>>>,
    ) -> PassAt<E, S, P, N, U>
        requires legal { P.legal (N.opening U) self.all }
        ensures records { place.new ≡ Some result.seen }
        ensures seen { result.seen ≡ self.all }
        ensures refused { IsRefused P.own (P.legal (N.opening U)) self.pass result }
    {
        let Visit {
            session,
            serial,
            seen: _,
            recorder,
            holder,
        } = self;
        let (publisher, right) = holder.give_back(&posted.board);
        let seen = Records::put_in(place, recorder, publisher);
        PassAt::new(session, serial, seen, right)
    }
}
