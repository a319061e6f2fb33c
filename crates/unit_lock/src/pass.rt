//! What a session has seen, and its right to add to it.
ghost use Rattle.std.specs.Prelude.{◌≡◌, ◌≤◌, ◌+◌, ◌⊎◌, length, MatchBool};
ghost use mathlib.Core.List.{IsPrefix};
ghost use Rattle.status.specs.Views.{counted};

use status::{AnySessionRight, Published, SessionRight};
use std::marker::{Model, PhantomData};
use unit_sequence::{AnyHistory, ArrayNaming, At, History};

/// A legal history that was seen of the unit at a place. Contracts see the place and the entries.
#[derive(Drop)]
pub struct LegalHistory<E, S, P: Published<E, S>, N: ArrayNaming<S>> {
    seen: AnyHistory<E, S, N>,
    of: PhantomData<P>,
}

impl<E, S, P: Published<E, S>, N: ArrayNaming<S>> Model for LegalHistory<E, S, P, N> {
    ghost use Rattle.std.specs.Prelude.{ℕ, List};

    ghost Value = { ℕ × List E };

    ghost view = { λ h. h.seen };

    ghost invariant = { λ h. P.legal (N.opening h.seen.0) h.seen.1 };
}

impl<E, S, P: Published<E, S>, N: ArrayNaming<S>> LegalHistory<E, S, P, N> {
    /// A history of the unit at a place that its type names.
    pub(crate) fn of<const U: usize>(seen: History<E, At<S, N, U>>) -> LegalHistory<E, S, P, N>
        requires { P.legal (N.opening U) seen }
        ensures { (result.0 ≡ U) × (result.1 ≡ seen) }
    {
        LegalHistory {
            seen: AnyHistory::of::<U>(seen),
            of: PhantomData,
        }
    }

    /// The place of its unit.
    pub fn place(&self) -> usize
        ensures place { result ≡ self.now.0 }
        ensures legal { P.legal (N.opening self.now.0) self.now.1 }
    {
        self.seen.place()
    }

    /// How many entries it has.
    pub fn len(&self) -> u64
        ensures { result ≡ length self.now.1 }
    {
        self.seen.len()
    }

    /// All that is seen of one unit stands in one history: of two such, one begins the other. It does nothing, and waits for
    /// nobody.
    pub fn in_one_history(&self, other: &LegalHistory<E, S, P, N>)
        requires { other.now.0 ≡ self.now.0 }
        ensures { IsPrefix self.now.1 other.now.1 ⊎ IsPrefix other.now.1 self.now.1 }
    {
        self.seen.in_one_history(&other.seen);
    }

    /// A copy, which takes no memory.
    pub fn again(&self) -> LegalHistory<E, S, P, N>
        ensures { result ≡ self.now }
    {
        LegalHistory {
            seen: self.seen.again(),
            of: PhantomData,
        }
    }

    /// Whether it is of the same unit and as long: then it is the same history.
    pub fn is_same(&self, other: &LegalHistory<E, S, P, N>) -> bool
        ensures { MatchBool result (self.now ≡ other.now) (Unit {0}) }
    {
        self.seen.is_same(&other.seen)
    }
}

/// A session of one unit: what it has seen, and the one right to add its entries. Contracts see the session's number, the
/// serial of its next command, and the history that it has seen.
#[derive(Drop)]
pub struct PassAt<E, S, P: Published<E, S>, N: ArrayNaming<S>, const U: usize> {
    pub(crate) session: u64,
    pub(crate) serial: u64,
    pub(crate) seen: History<E, At<S, N, U>>,
    pub(crate) right: SessionRight<E, S, At<S, N, U>>,
    pub(crate) of: PhantomData<P>,
}

impl<E, S, P: Published<E, S>, N: ArrayNaming<S>, const U: usize> Model for PassAt<E, S, P, N, U> {
    ghost use Rattle.std.specs.Prelude.{◌≡◌, ◌≤◌, ◌+◌};
    ghost use Rattle.status.specs.Views.{counted};
    ghost use Rattle.unit_lock.specs.Calls.{Known};

    ghost Value = { Known E };

    ghost view = { λ p. record { session = p.session; serial = p.serial; seen = p.seen } };

    ghost invariant = { λ p. (p.right.session ≡ p.session) × (p.serial ≡ p.right.commands + 1)
        × (p.right.count ≤ counted P.own p.session p.seen) × P.legal (N.opening U) p.seen };
}

impl<E, S, P: Published<E, S>, N: ArrayNaming<S>, const U: usize> PassAt<E, S, P, N, U> {
    /// A session with this right, which has counted none of its own entries but those that were seen, and all its commands.
    pub(crate) fn new(
        session: u64,
        serial: u64,
        seen: History<E, At<S, N, U>>,
        right: SessionRight<E, S, At<S, N, U>>,
    ) -> PassAt<E, S, P, N, U>
        requires session { right.session ≡ session }
        requires serial { serial ≡ right.commands + 1 }
        requires count { right.count ≤ counted P.own session seen }
        requires legal { P.legal (N.opening U) seen }
        ensures { result ≡ record { session = session; serial = serial; seen = seen } }
    {
        PassAt {
            session,
            serial,
            seen,
            right,
            of: PhantomData,
        }
    }

    /// What it has seen. The right is let go.
    pub(crate) fn into_history(self) -> History<E, At<S, N, U>>
        ensures { result ≡ self.seen }
    {
        self.seen
    }
}

/// A session of the unit at a place that is known when it runs. Contracts see the place beside the rest.
#[derive(Drop)]
pub struct Pass<E, S, P: Published<E, S>, N: ArrayNaming<S>> {
    session: u64,
    serial: u64,
    seen: AnyHistory<E, S, N>,
    right: AnySessionRight<E, S, N>,
    of: PhantomData<P>,
}

impl<E, S, P: Published<E, S>, N: ArrayNaming<S>> Model for Pass<E, S, P, N> {
    ghost use Rattle.std.specs.Prelude.{◌≡◌, ◌≤◌, ◌+◌};
    ghost use Rattle.status.specs.Views.{counted};
    ghost use Rattle.unit_lock.specs.Calls.{PlacedPass};

    ghost Value = { PlacedPass E };

    ghost view = { λ p. record { place = p.seen.0; pass = record { session = p.session; serial = p.serial; seen = p.seen.1 } } };

    ghost invariant = { λ p. (p.right.place ≡ p.seen.0) × (p.right.claim.session ≡ p.session)
        × (p.serial ≡ p.right.claim.commands + 1)
        × (p.right.claim.count ≤ counted P.own p.session p.seen.1) × P.legal (N.opening p.seen.0) p.seen.1 };
}

impl<E, S, P: Published<E, S>, N: ArrayNaming<S>> Pass<E, S, P, N> {
    /// The place of its unit.
    pub fn place(&self) -> usize
        ensures place { result ≡ self.now.place }
        ensures legal { P.legal (N.opening self.now.place) self.now.pass.seen }
    {
        self.seen.place()
    }

    /// The session's number.
    pub fn session(&self) -> u64
        ensures { result ≡ self.now.pass.session }
    {
        self.session
    }

    /// The serial of its next command.
    pub fn serial(&self) -> u64
        ensures { result ≡ self.now.pass.serial }
    {
        self.serial
    }

    /// How many entries it has seen.
    pub fn len(&self) -> u64
        ensures { result ≡ length self.now.pass.seen }
    {
        self.seen.len()
    }

    /// A copy of what it has seen, which takes no memory.
    pub fn history(&self) -> LegalHistory<E, S, P, N>
        ensures { (result.0 ≡ self.now.place) × (result.1 ≡ self.now.pass.seen) }
    {
        LegalHistory {
            seen: self.seen.again(),
            of: PhantomData,
        }
    }

    /// As a session of the unit at its place.
    pub(crate) fn at<const U: usize>(self) -> PassAt<E, S, P, N, U>
        requires { self.place ≡ U }
        ensures { result ≡ self.pass }
    {
        let Pass {
            session,
            serial,
            seen,
            right,
            of,
        } = self;
        PassAt {
            session,
            serial,
            seen: seen.at::<U>(),
            right: right.at::<U>(),
            of,
        }
    }

    /// A session of the unit at a place that its type names.
    pub(crate) fn of<const U: usize>(pass: PassAt<E, S, P, N, U>) -> Pass<E, S, P, N>
        ensures { (result.place ≡ U) × (result.pass ≡ pass) }
    {
        let PassAt {
            session,
            serial,
            seen,
            right,
            of,
        } = pass;
        Pass {
            session,
            serial,
            seen: AnyHistory::of::<U>(seen),
            right: AnySessionRight::of::<U>(right),
            of,
        }
    }
}

/// Each of two sessions has then seen what either had: one legal history. It waits for nobody.
#[tactic(auto, using(crate::proofs::Seen::counted_prefix))]
pub fn merge_seen<E, S, P: Published<E, S>, N: ArrayNaming<S>, const U: usize>(
    one: PassAt<E, S, P, N, U>,
    two: PassAt<E, S, P, N, U>,
) -> (PassAt<E, S, P, N, U>, PassAt<E, S, P, N, U>)
    ensures same { result.0.seen ≡ result.1.seen }
    ensures one { IsPrefix one.seen result.0.seen }
    ensures two { IsPrefix two.seen result.0.seen }
    ensures legal { P.legal (N.opening U) result.0.seen }
    ensures sessions { (result.0.session ≡ one.session) × (result.1.session ≡ two.session) }
    ensures serials { (result.0.serial ≡ one.serial) × (result.1.serial ≡ two.serial) }
{
    let seen = one.seen.longer(&two.seen);
    let PassAt {
        session: first,
        serial: first_serial,
        seen: _,
        right: first_right,
        of: _,
    } = one;
    let PassAt {
        session: second,
        serial: second_serial,
        seen: _,
        right: second_right,
        of: _,
    } = two;
    (
        PassAt::new(first, first_serial, seen.again(), first_right),
        PassAt::new(second, second_serial, seen, second_right),
    )
}
