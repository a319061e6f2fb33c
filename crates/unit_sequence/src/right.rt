//! The one right to add an entry, and the rule of the word that it changes.
ghost use Rattle.std.specs.Prelude.{◌≡◌, ◌∷◌, [], length, None, ℕ};
ghost use Rattle.unit_sequence.specs.Rights.{right_owns, count_after};

use logbook::{Gain, Gained, Offer, Plain, Rule, Seen, Start};
use std::marker::{Model, PhantomData};

/// What a step of the right's holder found, and whether it added its entry. No value of it is made.
pub struct Answer {
    pub found: u64,
    pub added: bool,
}

/// The rule of the word: it is the length of the history, and keeps what the right lacks, so that nobody changes it without
/// the right.
pub struct Law;

impl<E> Rule<E, Answer> for Law {
    ghost use Rattle.std.specs.Prelude.{[]};
    ghost use Rattle.unit_sequence.specs.Rights.{IsCounted, counts, AddsEntry};

    ghost holds = { IsCounted };

    ghost first = { [] };

    ghost hinted = { λ n log. Unit {0} };

    ghost shows = { λ log. log };

    ghost keeps = { λ names log. counts names log };

    ghost moves = { λ ask before after answer. AddsEntry ask before after answer };
}

/// The right to number an entry. It has counted all entries.
pub struct Right {
    marker: PhantomData<()>,
    pub ghost name: { ℕ },
    pub ghost count: { ℕ },
}

impl Model for Right {
    ghost also_owns = { λ r. right_owns r.name r.count };
}

/// What the holder has after its step: the right, and that the history was as long as it knew.
pub struct Counted;

impl<E> Gain<E, Answer> for Counted {
    ghost use Rattle.unit_sequence.specs.Rights.{gained};

    ghost after = { λ names about answer. gained names about answer };
}

/// What clients keep at the start of a history, and the right.
pub fn start<E>() -> (Start<E, Answer, Law>, Right)
    ensures { (result.0.names ≡ result.1.name ∷ []) × (result.0.shown ≡ []) × (result.1.count ≡ 0) }
{
    (
        Start {
            marker: PhantomData,
        },
        Right {
            marker: PhantomData,
        },
    )
}

impl Right {
    /// The right goes into a step that may add an entry.
    pub fn offer<E, X, M: Plain<X, E, Answer>>(
        self,
        seen: &Seen<E, Answer, Law>,
        about: &X,
    ) -> Offer<E, Answer, Law, Counted>
        requires { (seen.now.names ≡ self.name ∷ []) × (self.count ≡ length seen.now.log) }
        ensures { (result.names ≡ seen.now.names) × (result.ask ≡ M.ask about.now) × (result.about ≡ seen.now.log)
            × (result.state ≡ None) }
    {
        let Self { marker: _ } = self;
        Offer {
            marker: PhantomData,
        }
    }
}

/// The right comes back out of a step that has run.
pub fn take<E>(gained: Gained<E, Answer, Counted>) -> Right
    ensures { (gained.answer.found ≡ length gained.about) × (result.count ≡ count_after gained.answer)
        × ((name : ℕ) → gained.names ≡ name ∷ [] → result.name ≡ name) }
{
    let Gained { marker: _ } = gained;
    Right {
        marker: PhantomData,
    }
}

impl Drop for Right {
    fn drop(self) {
        let Self { marker: _ } = self;
    }
}

unsafe impl Send for Right {}
