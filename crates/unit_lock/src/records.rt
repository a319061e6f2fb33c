//! What stands under the lock of a history: the right to number its next entry, and the right to publish it.
ghost use Rattle.std.specs.Prelude.{◌≡◌, ◌+◌, ◌<◌, ◌^◌, ◌++◌, ◌∷◌, [], length, IsSome, Some, ◌≤◌, IfOk, All};
ghost use Rattle.status.specs.Views.{IsFree};
ghost use Rattle.unit_lock.specs.Calls.{held};

use logbook::Plain;
use status::{Board, MOST_SEATS, NewBoard, Origin, Published, Publisher, Row, Seat, SessionRight};
use std::alloc::{AllocError, Global};
use std::marker::Model;
use std::sync::Wait;
use unit_sequence::{Answer, History, HistoryWord, Naming, NewHistory, Recorder};

/// What stands outside the lock: the word that counts the history, and the board that shows it.
#[derive(Drop)]
pub(crate) struct Posted<E, S, P: Published<E, S>, J: Naming + Origin<S>> {
    pub(crate) word: HistoryWord<E, J>,
    pub(crate) board: Board<E, S, P, J>,
}

/// The whole history, with the rights to number and to publish its next entry. Contracts see the history.
#[derive(Drop)]
pub(crate) struct Records<E, S, P: Published<E, S>, J: Naming + Origin<S>> {
    pub(crate) recorder: Recorder<E, J>,
    pub(crate) publisher: Publisher<E, S, P, J>,
}

impl<E, S, P: Published<E, S>, J: Naming + Origin<S>> Model for Records<E, S, P, J> {
    ghost use Rattle.std.specs.Prelude.{◌≡◌, List};

    ghost Value = { List E };

    ghost view = { λ r. r.recorder };

    ghost invariant = { λ r. r.publisher ≡ r.recorder };
}

impl<E, S, P: Published<E, S>, J: Naming + Origin<S>> Records<E, S, P, J> {
    /// A new word and a new board under their names, and the records of their history, which has no entry.
    pub(crate) fn open<R: Wait>(
        rt: &R,
        history: NewHistory<E>,
        board: NewBoard<E, S, P>,
        row: Row,
    ) -> (Posted<E, S, P, J>, Records<E, S, P, J>)
        requires book { history.seen.book ≡ J.book }
        requires table { board.cell.table.shared.table_id ≡ J.table }
        requires legal { P.legal J.from [] }
        requires row { row ≡ P.rows J.from [] }
        ensures { result.1 ≡ [] }
    {
        let (word, recorder) = history.named::<J>();
        let (board, publisher) = Board::open::<R>(rt, board, row);
        (
            Posted { word, board },
            Records {
                recorder,
                publisher,
            },
        )
    }

    /// So many readers' seats at the board.
    pub(crate) fn seats(
        &mut self,
        alloc: Global,
        posted: &Posted<E, S, P, J>,
        count: usize,
    ) -> Result<Vec<Seat<E, S, P, J>>, AllocError>
        requires { count ≤ MOST_SEATS }
        ensures same { self.new ≡ self.old }
        ensures count { IfOk result (λ seats. length seats.items ≡ count) }
        ensures seats { IfOk result (λ seats. All (λ seat. seat ≡ self.old) seats.items) }
    {
        posted.board.seats(alloc, &mut self.publisher, count)
    }

    /// Puts both rights in their place. All of the history then.
    pub(crate) fn put_in(
        place: &mut Option<Records<E, S, P, J>>,
        recorder: Recorder<E, J>,
        publisher: Publisher<E, S, P, J>,
    ) -> History<E, J>
        requires { publisher ≡ recorder }
        ensures there { place.new ≡ Some result }
        ensures seen { result ≡ recorder }
    {
        let seen = recorder.history();
        *place = Some(Records {
            recorder,
            publisher,
        });
        seen
    }

    /// All of the history of the records in a place.
    pub(crate) fn history_in(place: &Option<Records<E, S, P, J>>) -> History<E, J>
        requires { IsSome place.now }
        ensures { result ≡ held place.now }
    {
        match place {
            Some(records) => records.recorder.history(),
            None => unreachable!(),
        }
    }

    /// Adds an entry of no session's own to the records in a place, and publishes it. All of the history then, and the right of
    /// the session that begins with the entry.
    pub(crate) fn join_in<A, M: Plain<A, E, Answer>, R: Wait>(
        place: &mut Option<Records<E, S, P, J>>,
        rt: &R,
        posted: &Posted<E, S, P, J>,
        row: Row,
        about: &A,
    ) -> (History<E, J>, SessionRight<E, S, J>)
        requires there { IsSome place.old }
        requires room { length (held place.old) + 1 < 2 ^ 64 }
        requires free { IsFree P.own P.command (M.ask about.now) }
        requires legal { P.legal J.from (held place.old ++ M.ask about.now ∷ []) }
        requires row { row ≡ P.rows J.from (held place.old ++ M.ask about.now ∷ []) }
        ensures there { place.new ≡ Some result.0 }
        ensures seen { result.0 ≡ held place.old ++ M.ask about.entry.now ∷ [] }
        ensures right { result.1 ≡ record { session = length (held place.old); count = 0; commands = 0 } }
    {
        let Records {
            recorder,
            publisher,
        } = place.take().unwrap();
        let recorder = recorder.add::<A, M>(&posted.word, about);
        let (publisher, right) = publisher.begin::<A, M, R>(rt, &posted.board, row, about);
        (Records::put_in(place, recorder, publisher), right)
    }
}
