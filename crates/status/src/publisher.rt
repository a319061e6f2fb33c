//! Who publishes the rows of a board.
ghost use Rattle.std.specs.Prelude.{◌≡◌, ◌+◌, ◌++◌, ◌∷◌, [], length};
ghost use Rattle.status.specs.Views.{IsFree, IsOwn, counted};

use crate::board::Board;
use crate::law::{Origin, Published, Token};
use crate::moves::{audit, become_as, join_right, publish_own, split_right};
use crate::right::SessionRight;
use crate::row::Row;
use logbook::Plain;
use std::marker::{Brand, Model, PhantomData};
use std::sync::Wait;
use unit_sequence::Answer;

/// The one right to publish at a board, which has seen all that was published. Contracts see that history.
#[derive(Drop)]
pub struct Publisher<E, S, P: Published<E, S>, J: Origin<S>> {
    pub(crate) token: Token<E, S>,
    pub(crate) of: PhantomData<(P, J)>,
}

impl<E, S, P: Published<E, S>, J: Origin<S>> Model for Publisher<E, S, P, J> {
    ghost use Rattle.std.specs.Prelude.{◌≡◌, List};
    ghost use Rattle.crossbeam_utils.specs.Seq.{cell_view};
    ghost use Rattle.status.specs.Views.{publisher};

    ghost Value = { List E };

    ghost view = { λ p. (cell_view p.token).seen };

    ghost invariant = { λ p. (p.token.table_id ≡ J.table) × (cell_view p.token ≡ publisher J.from (cell_view p.token).seen) };
}

/// The publisher with a session's right in its hand.
#[derive(Drop)]
pub struct Holder<E, S, P: Published<E, S>, J: Origin<S>> {
    token: Token<E, S>,
    of: PhantomData<(P, J)>,
}

impl<E, S, P: Published<E, S>, J: Origin<S>> Model for Holder<E, S, P, J> {
    ghost use Rattle.std.specs.Prelude.{◌≡◌};
    ghost use Rattle.crossbeam_utils.specs.Seq.{cell_view};
    ghost use Rattle.status.specs.Views.{Handed, claim_of, holder};

    ghost Value = { Handed E };

    ghost view = { λ h. record { seen = (cell_view h.token).seen; claim = claim_of (cell_view h.token) } };

    ghost invariant = { λ h. (h.token.table_id ≡ J.table)
        × (cell_view h.token ≡ holder J.from (cell_view h.token).seen (claim_of (cell_view h.token))) };
}

impl<E, S, P: Published<E, S>, J: Origin<S>> Publisher<E, S, P, J> {
    /// Takes a session's right in hand, and finds that it has counted all of the session's own entries, and its commands.
    pub fn take<R: Wait>(
        self,
        rt: &R,
        board: &Board<E, S, P, J>,
        right: SessionRight<E, S, J>,
    ) -> Holder<E, S, P, J>
        ensures seen { result.seen ≡ self }
        ensures claim { result.claim ≡ right }
        ensures count { counted P.own right.session self ≡ right.count }
        ensures commands { counted P.command right.session self ≡ right.commands }
    {
        let Publisher { mut token, of } = self;
        join_right::<E, S, P, J>(&board.cell, &mut token, right.token);
        audit::<E, S, P, J, R>(rt, &board.cell, &mut token);
        Holder { token, of }
    }

    /// Publishes an entry of no session's own, and gives out the right of the session that begins with it, whose number is the
    /// place of the entry. Where none begins, nobody needs the right.
    pub fn begin<A, M: Plain<A, E, Answer>, R: Wait>(
        self,
        rt: &R,
        board: &Board<E, S, P, J>,
        row: Row,
        about: &A,
    ) -> (Publisher<E, S, P, J>, SessionRight<E, S, J>)
        requires free { IsFree P.own P.command (M.ask about.now) }
        requires legal { P.legal J.from (self ++ M.ask about.now ∷ []) }
        requires row { row ≡ P.rows J.from (self ++ M.ask about.now ∷ []) }
        ensures publisher { result.0 ≡ self ++ M.ask about.entry.now ∷ [] }
        ensures right { result.1 ≡ record { session = length self; count = 0; commands = 0 } }
    {
        let Publisher { mut token, of } = self;
        become_as::<E, S, P, Brand, A, R>(rt, &board.cell, &mut token, row.words(), about);
        Holder { token, of }.give_back(board)
    }
}

impl<E, S, P: Published<E, S>, J: Origin<S>> Holder<E, S, P, J> {
    /// Publishes an entry of the session's own, and gives the right back.
    pub fn publish<A, M: Plain<A, E, Answer>, R: Wait>(
        self,
        rt: &R,
        board: &Board<E, S, P, J>,
        row: Row,
        about: &A,
    ) -> (Publisher<E, S, P, J>, SessionRight<E, S, J>)
        requires own { IsOwn P.own P.command self.claim.session (M.ask about.now) }
        requires legal { P.legal J.from (self.seen ++ M.ask about.now ∷ []) }
        requires row { row ≡ P.rows J.from (self.seen ++ M.ask about.now ∷ []) }
        ensures publisher { result.0 ≡ self.seen ++ M.ask about.entry.now ∷ [] }
        ensures right { result.1 ≡ record {
          session = self.claim.session;
          count = self.claim.count + 1;
          commands = self.claim.commands + P.command self.claim.session (M.ask about.entry.now);
        } }
    {
        let Holder { mut token, of } = self;
        publish_own::<E, S, P, J, A, M, R>(rt, &board.cell, &mut token, row, about);
        Holder { token, of }.give_back(board)
    }

    /// Gives the right back.
    pub fn give_back(
        self,
        board: &Board<E, S, P, J>,
    ) -> (Publisher<E, S, P, J>, SessionRight<E, S, J>)
        ensures publisher { result.0 ≡ self.seen }
        ensures right { result.1 ≡ self.claim }
    {
        let Holder { mut token, of } = self;
        let right = split_right::<E, S, P, J>(&board.cell, &mut token);
        (
            Publisher { token, of },
            SessionRight {
                token: right,
                of: PhantomData,
            },
        )
    }
}
