//! The row that a board shows.
ghost use Rattle.std.specs.Prelude.{◌≡◌};
ghost use Rattle.status.specs.Views.{words_of};

use crate::law::Words;

/// What a board shows of a unit.
#[derive(Clone, Copy)]
pub struct Row {
    /// How many entries the unit's history has.
    pub entries: u64,
    /// The target port group that owns the unit, 1 or 2.
    pub owner: u64,
    /// The asymmetric access states of the groups 1 and 2 (SPC-4, 5.15.2.2).
    pub states: (u64, u64),
    /// The generation of its persistent reservations.
    pub generation: u64,
    /// How many nexuses are registered.
    pub registrants: u64,
    /// The type of the persistent reservation (SPC-4, table 56), or 0.
    pub kind: u64,
}

impl Row {
    /// The words of a board that shows it.
    pub fn words(&self) -> Words
        ensures { result ≡ words_of self.now }
    {
        [
            self.entries,
            self.owner,
            self.states.0,
            self.states.1,
            self.generation,
            self.registrants,
            self.kind,
        ]
    }

    /// The row that a board's words show.
    pub fn of(words: Words) -> Row
        ensures { (row : Row) → words ≡ words_of row → result ≡ row }
    {
        let [entries, owner, first, second, generation, registrants, kind] = words;
        Row {
            entries,
            owner,
            states: (first, second),
            generation,
            registrants,
            kind,
        }
    }
}
