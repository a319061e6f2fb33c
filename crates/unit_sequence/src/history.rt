//! Histories that were seen.
ghost use Rattle.std.specs.Prelude.{◌≡◌, ◌<◌, ◌⊎◌, length, MatchBool};
ghost use mathlib.Core.List.{IsPrefix};

use crate::naming::{ArrayNaming, At, Naming};
use crate::right::{Answer, Law};
use logbook::Seen;
use std::marker::{Model, PhantomData};

/// A history that was seen: the entries so far, of which memory has the number alone. Contracts see the list of them. Of one
/// word each begins the next.
#[derive(Drop)]
pub struct History<E, J: Naming> {
    pub(crate) count: u64,
    pub(crate) seen: Seen<E, Answer, Law>,
    pub(crate) of: PhantomData<J>,
}

impl<E, J: Naming> Model for History<E, J> {
    ghost use Rattle.std.specs.Prelude.{◌≡◌, List, length};

    ghost Value = { List E };

    ghost view = { λ h. h.seen.log };

    ghost invariant = { λ h. (h.count ≡ length h.seen.log) × (h.seen.book ≡ J.book) };
}

impl<E, J: Naming> History<E, J> {
    /// The history of so many entries that was seen so.
    pub(crate) fn of_seen(count: u64, seen: &Seen<E, Answer, Law>) -> History<E, J>
        requires count { count ≡ length seen.now.log }
        requires book { seen.now.book ≡ J.book }
        ensures { result ≡ seen.now.log }
    {
        History {
            count,
            seen: seen.again(),
            of: PhantomData,
        }
    }

    /// How many entries it has.
    pub fn len(&self) -> u64
        ensures { result ≡ length self.now }
    {
        self.count
    }

    /// A copy, which takes no memory.
    pub fn again(&self) -> History<E, J>
        ensures { result ≡ self.now }
    {
        History::of_seen(self.count, &self.seen)
    }

    /// The longer of two, which the other begins.
    pub fn longer(&self, other: &History<E, J>) -> History<E, J>
        ensures one { (result ≡ self.now) ⊎ (result ≡ other.now) }
        ensures this { IsPrefix self.now result }
        ensures that { IsPrefix other.now result }
    {
        let mut both = self.seen.again();
        both.learn(&other.seen);
        if self.count < other.count {
            other.again()
        } else {
            self.again()
        }
    }
}

/// A history that was seen of the unit at a place that is known when it runs. Contracts see the place and the entries.
#[derive(Drop)]
pub struct AnyHistory<E, S, N: ArrayNaming<S>> {
    place: usize,
    count: u64,
    seen: Seen<E, Answer, Law>,
    of: PhantomData<(S, N)>,
}

impl<E, S, N: ArrayNaming<S>> Model for AnyHistory<E, S, N> {
    ghost use Rattle.std.specs.Prelude.{◌≡◌, ℕ, List, length};

    ghost Value = { ℕ × List E };

    ghost view = { λ h. (h.place, h.seen.log) };

    ghost invariant = { λ h. (h.count ≡ length h.seen.log) × (h.seen.book ≡ N.book h.place) };
}

impl<E, S, N: ArrayNaming<S>> AnyHistory<E, S, N> {
    /// The place of its unit.
    pub fn place(&self) -> usize
        ensures { result ≡ self.now.0 }
    {
        self.place
    }

    /// How many entries it has.
    pub fn len(&self) -> u64
        ensures { result ≡ length self.now.1 }
    {
        self.count
    }

    /// A copy, which takes no memory.
    pub fn again(&self) -> AnyHistory<E, S, N>
        ensures { result ≡ self.now }
    {
        AnyHistory {
            place: self.place,
            count: self.count,
            seen: self.seen.again(),
            of: PhantomData,
        }
    }

    /// Whether it is of the same unit and as long: then it is the same history.
    #[tactic(auto, using(crate::proofs::Beginnings::prefix_whole))]
    pub fn is_same(&self, other: &AnyHistory<E, S, N>) -> bool
        ensures { MatchBool result (self.now ≡ other.now) (Unit {0}) }
    {
        if self.place != other.place || self.count != other.count {
            return false;
        }
        let mut both = self.seen.again();
        both.learn(&other.seen);
        true
    }

    /// All that is seen of one unit stands in one history: of two such, one begins the other.
    pub fn in_one_history(&self, other: &AnyHistory<E, S, N>)
        requires { other.now.0 ≡ self.now.0 }
        ensures { IsPrefix self.now.1 other.now.1 ⊎ IsPrefix other.now.1 self.now.1 }
    {
        let mut both = self.seen.again();
        both.learn(&other.seen);
    }

    /// As a history of the unit at its place.
    pub fn at<const U: usize>(self) -> History<E, At<S, N, U>>
        requires { self.0 ≡ U }
        ensures { result ≡ self.1 }
    {
        let AnyHistory {
            place: _,
            count,
            seen,
            of: _,
        } = self;
        History {
            count,
            seen,
            of: PhantomData,
        }
    }

    /// A history of the unit at a place that its type names.
    pub fn of<const U: usize>(history: History<E, At<S, N, U>>) -> AnyHistory<E, S, N>
        ensures { (result.0 ≡ U) × (result.1 ≡ history) }
    {
        let History { count, seen, of: _ } = history;
        AnyHistory {
            place: U,
            count,
            seen,
            of: PhantomData,
        }
    }
}
