//! One unit, which all threads share.
ghost use Rattle.std.specs.Prelude.{◌≡◌, ◌≤◌, ◌+◌, ◌++◌, ◌∷◌, [], length, IfOk, IfErr, IfSome, MatchBool, List, All};
ghost use mathlib.Core.List.{IsPrefix};
ghost use Rattle.unit_lock.specs.Calls.{IsAdded, IsBeside, IsBetween, IsEnded, IsRefused, IsCause};

use crate::locked::Locked;
use crate::machine::{Machine, Refused};
use crate::pass::{LegalHistory, Pass, merge_seen};
use crate::records::{Posted, Records};
use crossbeam_utils::{Backoff, CachePadded};
use status::{Board, MOST_SEATS, NewBoard, Published, Seat};
use std::alloc::{AllocError, Global};
use std::sync::{Mutex, MutexGuard, Wait};
use unit_sequence::{ArrayNaming, At, NewHistory};

/// The word and the board of a unit, before they have names.
#[derive(Drop)]
pub struct NewLocked<E, S, P: Published<E, S>> {
    pub history: NewHistory<E>,
    pub board: NewBoard<E, S, P>,
}

impl<E, S, P: Published<E, S>> NewLocked<E, S, P> {
    /// A new word and a new board, of which each other one is another.
    pub fn new(alloc: Global) -> Result<NewLocked<E, S, P>, AllocError> {
        Ok(NewLocked {
            history: NewHistory::new(),
            board: NewBoard::new(alloc)?,
        })
    }
}

/// One unit of an array, at the place that its type names: under its lock the unit, outside of it the word that counts its
/// history, and its board.
pub struct LockedUnit<E, S, X: Machine<E, S>, N: ArrayNaming<S>, const U: usize> {
    posted: Posted<E, S, X, At<S, N, U>>,
    locked: CachePadded<Mutex<Locked<E, S, X, N, U>>>,
}

impl<E, S, X: Machine<E, S> + Drop, N: ArrayNaming<S>, const U: usize> Drop
    for LockedUnit<E, S, X, N, U> {
    fn drop(self) {
        let Self {
            posted: _,
            locked: _,
        } = self;
    }
}

/// How often a thread looks for the lock before it sleeps: after a longer pause each time, then each time that others could
/// run. A command is shorter than a sleep with its wake, unless its device is slow.
const LOOKS: usize = 64;

/// How often one looks for it that waits for nobody.
const TRIES: usize = 1000;

impl<E, S, X: Machine<E, S>, N: ArrayNaming<S>, const U: usize> LockedUnit<E, S, X, N, U> {
    /// A unit of which nothing was asked yet, and so many readers' seats at its board.
    pub fn new<R: Wait>(
        rt: &R,
        alloc: Global,
        new: NewLocked<E, S, X>,
        object: X,
        seats: usize,
    ) -> Result<(LockedUnit<E, S, X, N, U>, Vec<Seat<E, S, X, At<S, N, U>>>), AllocError>
        requires book { new.history.seen.book ≡ N.book U }
        requires table { new.board.cell.table.shared.table_id ≡ N.table U }
        requires legal { X.legal (N.opening U) [] }
        requires object { X.after (N.opening U) [] object }
        requires seats { seats ≤ MOST_SEATS }
        ensures { IfOk result (λ r. (length r.1.items ≡ seats) × All (λ seat. seat ≡ []) r.1.items) }
    {
        let object = Box::new(alloc, object)?;
        let row = object.row();
        let NewLocked { history, board } = new;
        let (posted, mut records) = Records::open::<R>(rt, history, board, row);
        let seats = records.seats(alloc, &posted, seats);
        let locked = CachePadded::new(Mutex::new(Locked::new(object, records)));
        let unit = LockedUnit { posted, locked };
        match seats {
            Ok(seats) => Ok((unit, seats)),
            Err(why) => Err(why),
        }
    }

    /// The unit under its lock, once no other thread has it.
    fn lock<R: Wait>(&self, rt: &R) -> MutexGuard<'_, Locked<E, S, X, N, U>> {
        let backoff = Backoff::new();
        for _ in 0..LOOKS {
            if let Some(guard) = self.locked.try_lock() {
                return guard;
            }
            backoff.snooze();
        }
        self.locked.lock(rt)
    }

    /// The board that shows the unit.
    pub fn board(&self) -> &Board<E, S, X, At<S, N, U>> {
        &self.posted.board
    }

    /// A pass of a new session. Refused, a legal history behind which no session of this name may attach.
    pub fn attach<R: Wait>(
        &self,
        rt: &R,
        name: X::Name,
    ) -> Result<Pass<E, S, X, N>, LegalHistory<E, S, X, N>>
        ensures attached { IfOk result (λ p. (h : List E) × (p.place ≡ U) × (p.pass.seen ≡ h ++ X.attaching name ∷ [])
            × (p.pass.session ≡ length h) × (p.pass.serial ≡ 1) × X.legal (N.opening U) p.pass.seen) }
        ensures full { IfErr result (λ f. (f.0 ≡ U) × X.full (N.opening U) f.1 name × X.legal (N.opening U) f.1) }
    {
        let attached = self.lock(rt).attach(rt, &self.posted, name);
        match attached {
            Ok(pass) => Ok(Pass::of::<U>(pass)),
            Err(seen) => Err(LegalHistory::of::<U>(seen)),
        }
    }

    /// Serves a command of the session, by any thread.
    pub fn serve<R: Wait>(
        &self,
        rt: &R,
        pass: Pass<E, S, X, N>,
        memory: X::Memory,
        by_group: &X::Group,
        ask: &X::Ask,
        bytes: &[u8],
    ) -> (Pass<E, S, X, N>, Result<X::Reply, Refused<X::Group>>)
        requires { pass.place ≡ U }
        ensures place { result.0.place ≡ U }
        ensures reply { IfOk result.1 (λ reply. IsAdded X.own (X.legal (N.opening U)) pass.pass result.0.pass
            (λ h e. X.asks pass.pass.session pass.pass.serial by_group.now ask.now bytes.now e
            × X.told (N.opening U) h e reply)) }
        ensures next { IfOk result.1 (λ reply. (result.0.pass.session ≡ pass.pass.session)
            × (result.0.pass.serial ≡ pass.pass.serial + 1)) }
        ensures worked { IfOk result.1 (λ reply. IsBetween (X.after (N.opening U)) result.0.pass.seen
            (X.worked pass.pass.session ask.now bytes.now reply)) }
        ensures refused { IfErr result.1 (λ why. IsRefused X.own (X.legal (N.opening U)) pass.pass result.0.pass) }
        ensures cause { IfErr result.1 (λ why. IsCause (X.gone (N.opening U) result.0.pass.seen pass.pass.session)
            (X.owner (N.opening U) result.0.pass.seen)
            (X.wants (N.opening U) result.0.pass.seen pass.pass.session ask.now bytes.now) by_group.now why) }
    {
        let pass = pass.at::<U>();
        let (pass, end) = self
            .lock(rt)
            .serve(rt, &self.posted, pass, memory, by_group, ask, bytes);
        (Pass::of::<U>(pass), end)
    }

    /// Resets the unit for a session. False: the session is gone.
    pub fn reset<R: Wait>(&self, rt: &R, pass: Pass<E, S, X, N>) -> (Pass<E, S, X, N>, bool)
        requires { pass.place ≡ U }
        ensures place { result.0.place ≡ U }
        ensures done { MatchBool result.1
            (IsAdded X.own (X.legal (N.opening U)) pass.pass result.0.pass (λ h e. e ≡ X.resetting pass.pass.session)
            × (result.0.pass.session ≡ pass.pass.session) × (result.0.pass.serial ≡ pass.pass.serial))
            (IsRefused X.own (X.legal (N.opening U)) pass.pass result.0.pass
            × X.gone (N.opening U) result.0.pass.seen pass.pass.session) }
    {
        let pass = pass.at::<U>();
        let (pass, done) = self.lock(rt).reset(rt, &self.posted, pass);
        (Pass::of::<U>(pass), done)
    }

    /// Ends a session. Refused, the session is gone.
    pub fn retire<R: Wait>(
        &self,
        rt: &R,
        pass: Pass<E, S, X, N>,
    ) -> Result<LegalHistory<E, S, X, N>, Pass<E, S, X, N>>
        requires { pass.place ≡ U }
        ensures done { IfOk result (λ f. (f.0 ≡ U)
            × IsEnded X.own (X.legal (N.opening U)) pass.pass f.1 (X.detaching pass.pass.session)
            × X.absent (N.opening U) f.1 pass.pass.session) }
        ensures gone { IfErr result (λ p. (p.place ≡ U) × IsRefused X.own (X.legal (N.opening U)) pass.pass p.pass
            × X.gone (N.opening U) p.pass.seen pass.pass.session) }
    {
        let pass = pass.at::<U>();
        let retired = self.lock(rt).retire(rt, &self.posted, pass);
        match retired {
            Ok(seen) => Ok(LegalHistory::of::<U>(seen)),
            Err(pass) => Err(Pass::of::<U>(pass)),
        }
    }

    /// Moves the unit as a list says, or tells why it stays.
    pub fn move_to<R: Wait>(
        &self,
        rt: &R,
        list: &[u8],
    ) -> (LegalHistory<E, S, X, N>, Result<X::Change, X::Stays>)
        ensures legal { (result.0.0 ≡ U) × X.legal (N.opening U) result.0.1 }
        ensures moved { IfOk result.1 (λ change. (h : List E) × (result.0.1 ≡ h ++ X.moving list.now ∷ [])
            × X.moved (N.opening U) h list.now change) }
        ensures handed_over { IfOk result.1 (λ change. IsBetween (X.after (N.opening U)) result.0.1
            (λ old new. X.handed_over old new result.1)) }
        ensures not_handed_over { IfErr result.1 (λ why. IsBeside (X.after (N.opening U)) result.0.1
            (λ old new. X.handed_over old new result.1)) }
        ensures stays { IfErr result.1 (λ why. X.stays (N.opening U) result.0.1 list.now why) }
    {
        let (seen, end) = self.lock(rt).move_to(rt, &self.posted, list);
        (LegalHistory::of::<U>(seen), end)
    }

    /// Both sessions have then seen what either had: one legal history. It waits for nobody.
    pub fn merge_seen(
        &self,
        one: Pass<E, S, X, N>,
        two: Pass<E, S, X, N>,
    ) -> (Pass<E, S, X, N>, Pass<E, S, X, N>)
        requires { (one.place ≡ U) × (two.place ≡ U) }
        ensures places { (result.0.place ≡ U) × (result.1.place ≡ U) }
        ensures same { result.0.pass.seen ≡ result.1.pass.seen }
        ensures one { IsPrefix one.pass.seen result.0.pass.seen }
        ensures two { IsPrefix two.pass.seen result.0.pass.seen }
        ensures legal { X.legal (N.opening U) result.0.pass.seen }
        ensures sessions { (result.0.pass.session ≡ one.pass.session) × (result.1.pass.session ≡ two.pass.session) }
        ensures serials { (result.0.pass.serial ≡ one.pass.serial) × (result.1.pass.serial ≡ two.pass.serial) }
    {
        let (one, two) = merge_seen(one.at::<U>(), two.at::<U>());
        (Pass::of::<U>(one), Pass::of::<U>(two))
    }

    /// Another value of the registrations that some legal history led to. It is no entry. None: another thread has the lock for
    /// long, or there was no memory. It waits for nobody.
    pub fn registrations(&self) -> Option<X::Registrations>
        ensures { IfSome result (λ found. (h : List E) × X.legal (N.opening U) h × X.registered (N.opening U) h found) }
    {
        let backoff = Backoff::new();
        for _ in 0..TRIES {
            if let Some(guard) = self.locked.try_lock() {
                return guard.registrations();
            }
            backoff.snooze();
        }
        None
    }

    /// Makes what was written last, of the unit that some legal history led to. It is no entry.
    pub fn flush<R: Wait>(&self, rt: &R) -> Result<(), X::Fault>
        ensures { (h : List E) × X.legal (N.opening U) h
            × IsBeside (X.after (N.opening U)) h (λ old new. X.flushed old new result) }
    {
        self.lock(rt).flush()
    }
}
