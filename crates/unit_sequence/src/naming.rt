//! The names by which types know one unit from another.
use std::marker::{Brand, PhantomData};

/// Which word counts a history.
pub trait Naming {
    ghost use Rattle.logbook.specs.Pages.{Book};

    ghost book: { Book };
}

/// The names of the units of an array by their places: which word counts a unit's history, which table its board stands in, and the state
/// that it opened in.
pub trait ArrayNaming<S> {
    ghost use Rattle.std.specs.Prelude.{ℕ};
    ghost use Rattle.logbook.specs.Pages.{Book};
    ghost use Rattle.atomic_table.specs.Seated.{TableId};

    ghost book: { ℕ → Book };

    ghost table: { ℕ → TableId };

    ghost opening: { ℕ → S };
}

/// The naming of the unit at one place of an array.
pub struct At<S, N: ArrayNaming<S>, const U: usize>(PhantomData<(S, N)>);

impl<S, N: ArrayNaming<S>, const U: usize> Naming for At<S, N, U> {
    ghost book = { N.book U };
}

impl Naming for Brand {
    ghost use Rattle.unit_sequence.specs.Rights.{no_book};

    ghost book = { no_book };
}
