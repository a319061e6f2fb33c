//! A board, and the seats of its readers.
ghost use Rattle.std.specs.Prelude.{◌≡◌, ◌≤◌, [], length, IfOk, All};
ghost use mathlib.Core.List.{IsPrefix};
ghost use Rattle.crossbeam_utils.specs.Seq.{cell_view};
ghost use Rattle.status.specs.Views.{first_view};

use crate::law::{Cell, Origin, Published, Token};
use crate::moves::{look, open, split_reader};
use crate::publisher::Publisher;
use crate::row::Row;
use std::alloc::{AllocError, Global};
use std::marker::{Model, PhantomData};
use std::sync::Wait;

/// The most seats of a board.
pub const MOST_SEATS: usize = 64;

/// A board of which no row was read, before it has a name.
#[derive(Drop)]
pub struct NewBoard<E, S, P: Published<E, S>> {
    pub cell: Cell<E, S, P>,
    pub(crate) token: Token<E, S>,
    pub ghost token_is: { (token.table_id ≡ cell.table.shared.table_id) × (cell_view token ≡ first_view) },
}

impl<E, S, P: Published<E, S>> NewBoard<E, S, P> {
    /// A new board, of which each other one is another.
    pub fn new(alloc: Global) -> Result<NewBoard<E, S, P>, AllocError> {
        let (cell, token) = Cell::<E, S, P>::ruled(alloc, [0; 7])?;
        Ok(NewBoard { cell, token })
    }
}

/// The board of a unit, which all threads share.
#[derive(Drop)]
pub struct Board<E, S, P: Published<E, S>, J: Origin<S>> {
    pub(crate) cell: Cell<E, S, P>,
    pub(crate) of: PhantomData<J>,
}

impl<E, S, P: Published<E, S>, J: Origin<S>> Model for Board<E, S, P, J> {
    ghost use Rattle.std.specs.Prelude.{◌≡◌};
    ghost use Rattle.atomic_table.specs.Seated.{TableId};

    ghost Value = { TableId };

    ghost view = { λ b. b.cell.table.shared.table_id };

    ghost invariant = { λ b. b.cell.table.shared.table_id ≡ J.table };
}

/// A reader's seat at a board. Contracts see the history whose row it read last.
#[derive(Drop)]
pub struct Seat<E, S, P: Published<E, S>, J: Origin<S>> {
    token: Token<E, S>,
    of: PhantomData<(P, J)>,
}

impl<E, S, P: Published<E, S>, J: Origin<S>> Model for Seat<E, S, P, J> {
    ghost use Rattle.std.specs.Prelude.{◌≡◌, List};
    ghost use Rattle.crossbeam_utils.specs.Seq.{cell_view};
    ghost use Rattle.status.specs.Views.{reader};

    ghost Value = { List E };

    ghost view = { λ s. (cell_view s.token).seen };

    ghost invariant = { λ s. (s.token.table_id ≡ J.table) × (cell_view s.token ≡ reader J.from (cell_view s.token).seen) };
}

impl<E, S, P: Published<E, S>, J: Origin<S>> Board<E, S, P, J> {
    /// Names a new board, and publishes the row of the history without an entry.
    pub fn open<R: Wait>(
        rt: &R,
        new: NewBoard<E, S, P>,
        row: Row,
    ) -> (Board<E, S, P, J>, Publisher<E, S, P, J>)
        requires table { new.cell.table.shared.table_id ≡ J.table }
        requires legal { P.legal J.from [] }
        requires row { row ≡ P.rows J.from [] }
        ensures { result.1 ≡ [] }
    {
        let NewBoard { cell, mut token } = new;
        open::<E, S, P, J, R>(rt, &cell, &mut token, row);
        (
            Board {
                cell,
                of: PhantomData,
            },
            Publisher {
                token,
                of: PhantomData,
            },
        )
    }

    /// A new reader's seat, which has seen what was published.
    pub fn seat(&self, publisher: &mut Publisher<E, S, P, J>) -> Seat<E, S, P, J>
        ensures seat { result ≡ publisher.old }
        ensures publisher { publisher.new ≡ publisher.old }
    {
        Seat {
            token: split_reader::<E, S, P, J>(&self.cell, &mut publisher.token),
            of: PhantomData,
        }
    }

    /// So many readers' seats.
    pub fn seats(
        &self,
        alloc: Global,
        publisher: &mut Publisher<E, S, P, J>,
        count: usize,
    ) -> Result<Vec<Seat<E, S, P, J>>, AllocError>
        requires { count ≤ MOST_SEATS }
        ensures count { IfOk result (λ seats. length seats.items ≡ count) }
        ensures seats { IfOk result (λ seats. All (λ seat. seat ≡ publisher.old) seats.items) }
        ensures publisher { publisher.new ≡ publisher.old }
    {
        let mut seats = Vec::with_capacity(alloc, count)?;
        for done in 0..count {
            seats.push_reserved(self.seat(publisher));
        }
        Ok(seats)
    }

    /// The row of a legal history that begins with that of each row that this seat read before. It takes no memory, and
    /// waits for no lock.
    pub fn read<R: Wait>(&self, rt: &R, seat: &mut Seat<E, S, P, J>) -> Row
        ensures seen { IsPrefix seat.old seat.new }
        ensures row { result ≡ P.rows J.from seat.new }
        ensures legal { P.legal J.from seat.new }
    {
        Row::of(look::<E, S, P, J, R>(rt, &self.cell, &mut seat.token))
    }
}
