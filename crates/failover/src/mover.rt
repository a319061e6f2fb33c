//! Who moves the units of an array, and keeps each move that is asked of it, done or not.
ghost use Rattle.std.specs.Prelude.{◌≡◌, ◌<◌, ◌≤◌, ◌++◌, ◌∷◌, [], ℕ, List, length};
ghost use Rattle.failover.specs.Mover.{Move};

use crate::set_groups;
use access_states::Change;
use array_units::{MOST_UNITS, Units};
use block_file::{Blocks, Opener};
use std::marker::Model;
use std::sync::Wait;
use unit_history::{LegalHistory, Opened};
use unit_sequence::ArrayNaming;
use unit_state::MoveFault;

/// A parameter list of SET TARGET PORT GROUPS with a descriptor for each group (SPC-4, 6.45).
pub type GroupsList = [u8; 12];

/// The way to the units of one who moves them, and does nothing else with them. Each move that is asked by it is kept, with its end.
pub trait Moves {
    /// How many units there are.
    ghost unit_count: { Self → ℕ };

    /// The moves that were asked, the first first.
    ghost asked: { Self → List Move };

    /// What the history of a move shows: the move as its last entry, or why the unit stays (`IsMoveMade`).
    ghost made: { Move → Type 0 };

    /// How many units there are.
    fn count(&self) -> usize
        ensures count { result ≡ unit_count self.now }
        ensures few { result ≤ 8 };

    /// Moves the unit at a place as a list says, or tells why it stays. There is room for eight moves, one for each of `MOST_UNITS`.
    fn move_to<W: Wait>(
        &mut self,
        rt: &W,
        place: usize,
        list: &GroupsList,
    ) -> Result<Change, MoveFault>
        requires place { place < unit_count self.old }
        requires room { length (asked self.old) < 8 }
        ensures unit_count { unit_count self.new ≡ unit_count self.old }
        ensures asked { (m : Move) × (asked self.new ≡ asked self.old ++ m ∷ [])
            × (m.place ≡ place) × (m.list ≡ list.now) × (m.end ≡ result) × made m };
}

/// A move that was asked, as it is kept: also one that was not done.
#[derive(Drop)]
struct Asked<B: Blocks, F: Blocks, O: Opener<B>, N: ArrayNaming<Opened>> {
    list: GroupsList,
    seen: LegalHistory<B, F, O, N>,
    end: Result<Change, MoveFault>,
}

impl<B: Blocks, F: Blocks, O: Opener<B>, N: ArrayNaming<Opened>> Model for Asked<B, F, O, N> {
    ghost use Rattle.failover.specs.Mover.{Move};

    ghost Value = { Move };

    ghost view = { λ m. record { place = m.seen.0; list = m.list; seen = m.seen.1; end = m.end } };
}

/// Moves that were asked, the first first. It has room for eight, one for each of `MOST_UNITS`. Nothing reads them: contracts say by
/// them what was moved, and what not.
#[derive(Drop)]
struct Kept<B: Blocks, F: Blocks, O: Opener<B>, N: ArrayNaming<Opened>> {
    moves: [Option<Asked<B, F, O, N>>; MOST_UNITS],
    count: usize,
}

impl<B: Blocks, F: Blocks, O: Opener<B>, N: ArrayNaming<Opened>> Model for Kept<B, F, O, N> {
    ghost use Rattle.std.specs.Prelude.{◌≡◌, List, length};
    ghost use Rattle.failover.specs.Mover.{AreFirst, Move, kept_in};

    ghost Value = { List Move };

    ghost view = { λ k. kept_in k.moves };

    ghost invariant = { λ k. (length k.moves ≡ 8) × AreFirst k.moves × (k.count ≡ length (kept_in k.moves)) };
}

impl<B: Blocks, F: Blocks, O: Opener<B>, N: ArrayNaming<Opened>> Kept<B, F, O, N> {
    // With no move.
    fn new() -> Kept<B, F, O, N>
        ensures { result ≡ [] }
    {
        Kept {
            moves: [None, None, None, None, None, None, None, None],
            count: 0,
        }
    }

    // Keeps one more.
    fn push(&mut self, asked: Asked<B, F, O, N>)
        requires { length self.old < 8 }
        ensures { self.new ≡ self.old ++ asked ∷ [] }
    {
        self.moves[self.count] = Some(asked);
        self.count += 1;
    }
}

/// Moves the units of an array, and keeps each move that is asked. It takes no memory.
pub struct Mover<'a, B: Blocks, F: Blocks, O: Opener<B>, N: ArrayNaming<Opened>> {
    units: &'a Units<B, F, O, N>,
    kept: Kept<B, F, O, N>,
}

impl<B: Blocks, F: Blocks, O: Opener<B>, N: ArrayNaming<Opened>> Drop for Mover<'_, B, F, O, N> {
    fn drop(self) {
        let Self { units: _, kept: _ } = self;
    }
}

impl<'a, B: Blocks, F: Blocks, O: Opener<B>, N: ArrayNaming<Opened>> Model
    for Mover<'a, B, F, O, N> {
    ghost use Rattle.failover.specs.Mover.{MoverValue};

    ghost Value = { MoverValue };

    ghost view = { λ m. record { unit_count = m.units.now; asked = m.kept } };
}

impl<'a, B: Blocks, F: Blocks, O: Opener<B>, N: ArrayNaming<Opened>> Mover<'a, B, F, O, N> {
    /// One by which no move was asked yet.
    pub fn new(units: &'a Units<B, F, O, N>) -> Mover<'a, B, F, O, N>
        ensures unit_count { result.unit_count ≡ units.now }
        ensures asked { result.asked ≡ [] }
    {
        Mover {
            units,
            kept: Kept::new(),
        }
    }
}

impl<'a, B: Blocks, F: Blocks, O: Opener<B>, N: ArrayNaming<Opened>> Moves
    for Mover<'a, B, F, O, N> {
    ghost use Rattle.unit_entries.specs.Devices.{devices};
    ghost use Rattle.failover.specs.Mover.{IsMoveMade};

    ghost unit_count = { λ m. m.unit_count };

    ghost asked = { λ m. m.asked };

    ghost made = { IsMoveMade (devices B.Blocks F.Blocks O.Opener) N.opening };

    fn count(&self) -> usize {
        self.units.count()
    }

    fn move_to<W: Wait>(
        &mut self,
        rt: &W,
        place: usize,
        list: &GroupsList,
    ) -> Result<Change, MoveFault> {
        let (seen, end) = set_groups(rt, self.units, place, list);
        self.kept.push(Asked {
            list: *list,
            seen,
            end,
        });
        end
    }
}
