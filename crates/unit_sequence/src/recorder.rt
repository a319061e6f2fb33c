//! The word that counts a history, and who adds to it.
ghost use Rattle.std.specs.Prelude.{◌≡◌, ◌+◌, ◌<◌, ◌^◌, ◌++◌, ◌∷◌, [], length};
ghost use mathlib.Core.List.{IsPrefix};
ghost use Rattle.unit_sequence.specs.Rights.{word_of};

use crate::history::History;
use crate::naming::Naming;
use crate::right::{Answer, Counted, Law, Right, start, take};
use logbook::{Offer, Plain, Play, Seen, Word};
use std::marker::{Model, PhantomData};

/// A look of the right's holder.
pub struct Look;

impl<E> Play<E, Answer> for Look {
    ghost use Rattle.unit_sequence.specs.Rights.{AddedNothing};

    ghost then = { AddedNothing };
}

/// A step of the right's holder that adds an entry.
pub struct Add;

impl<E> Play<E, Answer> for Add {
    ghost use Rattle.unit_sequence.specs.Rights.{Numbered};

    ghost then = { Numbered };
}

/// A history without an entry, before its word has a name.
#[derive(Drop)]
pub struct NewHistory<E> {
    word: Word<E, Answer, Law>,
    seen: Seen<E, Answer, Law>,
    right: Right,
    pub ghost empty: { seen.log ≡ [] },
    pub ghost word_is: { word ≡ word_of seen.book },
    pub ghost right_is: { (seen.names ≡ right.name ∷ []) × (right.count ≡ 0) },
}

impl<E> NewHistory<E> {
    /// A new word, of which each other one is another.
    #[tactic(auto, using(crate::proofs::Trade::calm))]
    pub fn new() -> NewHistory<E> {
        let (start, right) = start::<E>();
        let (seen, mut first, _second) = Seen::open(start, 0, 0);
        NewHistory {
            word: Word::tracked(0, &mut first),
            seen,
            right,
        }
    }

    /// The word under its name, and who adds to it.
    pub fn named<J: Naming>(self) -> (HistoryWord<E, J>, Recorder<E, J>)
        requires { self.seen.book ≡ J.book }
        ensures { result.1 ≡ [] }
    {
        let NewHistory { word, seen, right } = self;
        (
            HistoryWord {
                word,
                of: PhantomData,
            },
            Recorder {
                count: 0,
                seen,
                right,
                of: PhantomData,
            },
        )
    }
}

/// The word that counts a history, which all threads share.
#[derive(Drop)]
pub struct HistoryWord<E, J: Naming> {
    word: Word<E, Answer, Law>,
    of: PhantomData<J>,
}

impl<E, J: Naming> Model for HistoryWord<E, J> {
    ghost use Rattle.std.specs.Prelude.{◌≡◌};
    ghost use Rattle.logbook.specs.Pages.{Named};
    ghost use Rattle.unit_sequence.specs.Rights.{word_of};

    ghost Value = { Named };

    ghost view = { λ w. w.word };

    ghost invariant = { λ w. w.word ≡ word_of J.book };
}

/// The whole history, and the right to number its next entry. There is one for each word.
#[derive(Drop)]
pub struct Recorder<E, J: Naming> {
    count: u64,
    seen: Seen<E, Answer, Law>,
    right: Right,
    of: PhantomData<J>,
}

impl<E, J: Naming> Model for Recorder<E, J> {
    ghost use Rattle.std.specs.Prelude.{◌≡◌, ◌∷◌, [], List, length};

    ghost Value = { List E };

    ghost view = { λ r. r.seen.log };

    ghost invariant = { λ r. (r.count ≡ length r.seen.log) × (r.seen.book ≡ J.book)
        × (r.seen.names ≡ r.right.name ∷ []) × (r.right.count ≡ length r.seen.log) };
}

impl<E, J: Naming> Recorder<E, J> {
    /// The history that it has seen, which is all of it.
    pub fn history(&self) -> History<E, J>
        ensures { result ≡ self.now }
    {
        History::of_seen(self.count, &self.seen)
    }

    /// One load of the word, which shows that whatever was seen of the history begins it.
    pub fn covers<A, M: Plain<A, E, Answer>>(
        self,
        word: &HistoryWord<E, J>,
        other: &History<E, J>,
        any: &A,
    ) -> Recorder<E, J>
        ensures same { result ≡ self }
        ensures begins { IsPrefix other.now self }
    {
        let Recorder {
            count,
            seen,
            right,
            of,
        } = self;
        let mut both = seen.again();
        both.learn(&other.seen);
        let mut offer: Offer<E, Answer, Law, Counted> = right.offer::<E, A, M>(&seen, any);
        let _count = word.word.load::<Look, Counted>(&mut both, &mut offer);
        let right = take(offer.into_gain());
        Recorder {
            count,
            seen,
            right,
            of,
        }
    }

    /// Adds an entry, by one exchange of the word. It cannot fail.
    pub fn add<A, M: Plain<A, E, Answer>>(
        self,
        word: &HistoryWord<E, J>,
        about: &A,
    ) -> Recorder<E, J>
        requires { length self + 1 < 2 ^ 64 }
        ensures { result ≡ self ++ M.ask about.entry.now ∷ [] }
    {
        let Recorder {
            count,
            mut seen,
            right,
            of,
        } = self;
        let mut offer: Offer<E, Answer, Law, Counted> = right.offer::<E, A, M>(&seen, about);
        let mut pen = seen.no_pen();
        let _found = word
            .word
            .compare_exchange::<Add, Counted>(count, count + 1, &mut seen, &mut offer, &mut pen);
        let right = take(offer.into_gain());
        Recorder {
            count: count + 1,
            seen,
            right,
            of,
        }
    }
}
