//! The steps of a board's seats.
ghost use Rattle.std.specs.Prelude.{◌≡◌, ◌+◌, ◌++◌, ◌∷◌, [], length};
ghost use mathlib.Core.List.{IsPrefix};
ghost use Rattle.crossbeam_utils.specs.Seq.{cell_view, IsSamePass};
ghost use Rattle.crossbeam_utils.specs.Register.{Forks, Merges, Turns};
ghost use Rattle.status.specs.Views.{IsBoard, IsFree, IsOwn, claim_of, counted, first_view, holder, publisher, right, worded};
ghost use Rattle.status.specs.Views.{reader as reader_of};

use crate::law::{
    Becomes, Cell, Holds, Learns, Looks, Now, Origin, Published, Reads, Token, View, Words,
};
use crate::row::Row;
use atomic_table::{Join, Split};
use crossbeam_utils::rule::Outcome;
use logbook::Plain;
use std::marker::Brand;
use std::sync::Wait;
use unit_sequence::Answer;

/// Reads the words, and learns what this says.
fn load_as<E, S, P: Published<E, S>, O: Outcome<Words, View<E, S>>, R: Wait>(
    rt: &R,
    cell: &Cell<E, S, P>,
    seat: &mut Token<E, S>,
) -> Words
    requires cell { seat.old.table_id ≡ cell.now.table.shared.table_id }
    requires rule { Turns (IsBoard P.own P.command P.legal (worded P.rows)) seat.old.id (cell_view seat.old) (λ x. x) O.then }
    ensures cell { IsSamePass seat.old seat.new }
    ensures rule { O.then (cell_view seat.old) result result (cell_view seat.new) }
{
    cell.load_as::<O, R>(rt, seat)
}

/// Reads the words of a history that begins with what the reader had seen.
pub(crate) fn look<E, S, P: Published<E, S>, J: Origin<S>, R: Wait>(
    rt: &R,
    cell: &Cell<E, S, P>,
    seat: &mut Token<E, S>,
) -> Words
    requires cell { seat.old.table_id ≡ cell.now.table.shared.table_id }
    requires reads { cell_view seat.old ≡ reader_of J.from (cell_view seat.old).seen }
    ensures cell { IsSamePass seat.old seat.new }
    ensures reads { cell_view seat.new ≡ reader_of J.from (cell_view seat.new).seen }
    ensures seen { IsPrefix (cell_view seat.old).seen (cell_view seat.new).seen }
    ensures words { result ≡ worded P.rows J.from (cell_view seat.new).seen }
    ensures legal { P.legal J.from (cell_view seat.new).seen }
{
    load_as::<E, S, P, Looks<P, J>, R>(rt, cell, seat)
}

/// Makes a seat of what is known at another.
fn split<E, S, P: Published<E, S>, M: Split<View<E, S>>>(
    cell: &Cell<E, S, P>,
    from: &mut Token<E, S>,
) -> Token<E, S>
    requires cell { from.old.table_id ≡ cell.now.table.shared.table_id }
    requires rule { Forks (IsBoard P.own P.command P.legal (worded P.rows)) from.old.id (cell_view from.old)
        (M.left (cell_view from.old)) (M.right (cell_view from.old)) }
    ensures kept { IsSamePass from.old from.new × (cell_view from.new ≡ M.left (cell_view from.old)) }
    ensures given { (result.table_id ≡ from.old.table_id) × (cell_view result ≡ M.right (cell_view from.old)) × (result.me.1 ≡ []) }
{
    cell.split_pass::<M>(from)
}

/// Takes in what is known at a seat.
fn join<E, S, P: Published<E, S>, M: Join<View<E, S>>>(
    cell: &Cell<E, S, P>,
    keeper: &mut Token<E, S>,
    token: Token<E, S>,
)
    requires cell { (keeper.old.table_id ≡ cell.now.table.shared.table_id) × (token.table_id ≡ keeper.old.table_id)
        × (token.me.1 ≡ []) }
    requires rule { Merges (IsBoard P.own P.command P.legal (worded P.rows)) keeper.old.id (cell_view keeper.old)
        token.id (cell_view token) (M.both (cell_view keeper.old) (cell_view token)) M.spent }
    ensures { IsSamePass keeper.old keeper.new × (cell_view keeper.new ≡ M.both (cell_view keeper.old) (cell_view token)) }
{
    cell.join_pass::<M>(keeper, token);
}

/// Makes a reader's seat.
pub(crate) fn split_reader<E, S, P: Published<E, S>, J: Origin<S>>(
    cell: &Cell<E, S, P>,
    from: &mut Token<E, S>,
) -> Token<E, S>
    requires cell { from.old.table_id ≡ cell.now.table.shared.table_id }
    requires publisher { cell_view from.old ≡ publisher J.from (cell_view from.old).seen }
    ensures new { (result.table_id ≡ from.old.table_id) × (cell_view result ≡ reader_of J.from (cell_view from.old).seen) }
    ensures same { IsSamePass from.old from.new × (cell_view from.new ≡ cell_view from.old) }
{
    split::<E, S, P, Reads>(cell, from)
}

/// The publisher takes a session's right in hand.
pub(crate) fn join_right<E, S, P: Published<E, S>, J: Origin<S>>(
    cell: &Cell<E, S, P>,
    keeper: &mut Token<E, S>,
    token: Token<E, S>,
)
    requires cell { (keeper.old.table_id ≡ cell.now.table.shared.table_id) × (token.table_id ≡ keeper.old.table_id)
        × (token.me.1 ≡ []) }
    requires keeper { cell_view keeper.old ≡ publisher J.from (cell_view keeper.old).seen }
    requires token { cell_view token ≡ right (claim_of (cell_view token)) }
    ensures { IsSamePass keeper.old keeper.new
        × (cell_view keeper.new ≡ holder J.from (cell_view keeper.old).seen (claim_of (cell_view token))) }
{
    join::<E, S, P, Holds>(cell, keeper, token);
}

/// The publisher gives the right back.
pub(crate) fn split_right<E, S, P: Published<E, S>, J: Origin<S>>(
    cell: &Cell<E, S, P>,
    keeper: &mut Token<E, S>,
) -> Token<E, S>
    requires cell { keeper.old.table_id ≡ cell.now.table.shared.table_id }
    requires keeper { cell_view keeper.old ≡ holder J.from (cell_view keeper.old).seen (claim_of (cell_view keeper.old)) }
    ensures kept { IsSamePass keeper.old keeper.new × (cell_view keeper.new ≡ publisher J.from (cell_view keeper.old).seen) }
    ensures token { (result.table_id ≡ keeper.old.table_id) × (result.me.1 ≡ [])
        × (cell_view result ≡ right (claim_of (cell_view keeper.old))) }
{
    split::<E, S, P, Holds>(cell, keeper)
}

/// Writes a row, whatever is known then, which may be said by what the row is about.
pub(crate) fn become_as<E, S, P: Published<E, S>, K: Now<E, S>, A, R: Wait>(
    rt: &R,
    cell: &Cell<E, S, P>,
    keeper: &mut Token<E, S>,
    words: Words,
    about: &A,
)
    requires cell { keeper.old.table_id ≡ cell.now.table.shared.table_id }
    requires rule { Turns (IsBoard P.own P.command P.legal (worded P.rows)) keeper.old.id (cell_view keeper.old) (λ _. words)
        (λ v x y w. w ≡ K.view) }
    ensures { IsSamePass keeper.old keeper.new × (cell_view keeper.new ≡ K.view) }
{
    cell.swap_as::<Becomes<K>, R>(rt, keeper, words);
}

/// Publishes the history without an entry, on a board that was just made.
pub(crate) fn open<E, S, P: Published<E, S>, J: Origin<S>, R: Wait>(
    rt: &R,
    cell: &Cell<E, S, P>,
    keeper: &mut Token<E, S>,
    row: Row,
)
    requires cell { keeper.old.table_id ≡ cell.now.table.shared.table_id }
    requires keeper { cell_view keeper.old ≡ first_view }
    requires legal { P.legal J.from [] }
    requires row { row ≡ P.rows J.from [] }
    ensures { IsSamePass keeper.old keeper.new × (cell_view keeper.new ≡ publisher J.from []) }
{
    become_as::<E, S, P, Brand, Row, R>(rt, cell, keeper, row.words(), &row);
}

/// Publishes one more entry of the session whose right is in the publisher's hand.
pub(crate) fn publish_own<
    E,
    S,
    P: Published<E, S>,
    J: Origin<S>,
    A,
    M: Plain<A, E, Answer>,
    R: Wait,
>(rt: &R, cell: &Cell<E, S, P>, keeper: &mut Token<E, S>, row: Row, about: &A)
    requires cell { keeper.old.table_id ≡ cell.now.table.shared.table_id }
    requires keeper { cell_view keeper.old ≡ holder J.from (cell_view keeper.old).seen (claim_of (cell_view keeper.old)) }
    requires own { IsOwn P.own P.command (cell_view keeper.old).session (M.ask about.now) }
    requires legal { P.legal J.from ((cell_view keeper.old).seen ++ M.ask about.now ∷ []) }
    requires row { row ≡ P.rows J.from ((cell_view keeper.old).seen ++ M.ask about.now ∷ []) }
    ensures { IsSamePass keeper.old keeper.new
        × (cell_view keeper.new ≡ holder J.from ((cell_view keeper.old).seen ++ M.ask about.entry.now ∷ [])
        (record {
          session = (cell_view keeper.old).session;
          count = (cell_view keeper.old).count + 1;
          commands = (cell_view keeper.old).commands + P.command (cell_view keeper.old).session (M.ask about.entry.now);
        })) }
{
    become_as::<E, S, P, Brand, A, R>(rt, cell, keeper, row.words(), about);
}

/// Finds that the right in the publisher's hand has counted all of the session's own entries, and all its commands.
pub(crate) fn audit<E, S, P: Published<E, S>, J: Origin<S>, R: Wait>(
    rt: &R,
    cell: &Cell<E, S, P>,
    keeper: &mut Token<E, S>,
)
    requires cell { keeper.old.table_id ≡ cell.now.table.shared.table_id }
    requires keeper { cell_view keeper.old ≡ holder J.from (cell_view keeper.old).seen (claim_of (cell_view keeper.old)) }
    ensures same { IsSamePass keeper.old keeper.new × (cell_view keeper.new ≡ cell_view keeper.old) }
    ensures count { counted P.own (cell_view keeper.old).session (cell_view keeper.old).seen ≡ (cell_view keeper.old).count }
    ensures commands { counted P.command (cell_view keeper.old).session (cell_view keeper.old).seen ≡ (cell_view keeper.old).commands }
{
    load_as::<E, S, P, Learns<P>, R>(rt, cell, keeper);
}
