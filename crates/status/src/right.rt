//! The right of a session to add its entries.
ghost use Rattle.std.specs.Prelude.{◌≡◌};

use crate::law::{Origin, Token};
use std::marker::{Model, PhantomData};
use unit_sequence::{ArrayNaming, At};

/// The one right to add the entries of a session. It has counted them. It takes no memory, and stays when the session ends.
#[derive(Drop)]
pub struct SessionRight<E, S, J: Origin<S>> {
    pub(crate) token: Token<E, S>,
    pub(crate) of: PhantomData<J>,
}

impl<E, S, J: Origin<S>> Model for SessionRight<E, S, J> {
    ghost use Rattle.std.specs.Prelude.{◌≡◌, []};
    ghost use Rattle.crossbeam_utils.specs.Seq.{cell_view};
    ghost use Rattle.status.specs.Views.{Claim, claim_of, right};

    ghost Value = { Claim };

    ghost view = { λ r. claim_of (cell_view r.token) };

    ghost invariant = { λ r. (r.token.table_id ≡ J.table) × (r.token.me.1 ≡ [])
        × (cell_view r.token ≡ right (claim_of (cell_view r.token))) };
}

/// The right of a session of the unit at a place that is known when it runs.
#[derive(Drop)]
pub struct AnySessionRight<E, S, N: ArrayNaming<S>> {
    place: usize,
    token: Token<E, S>,
    of: PhantomData<N>,
}

impl<E, S, N: ArrayNaming<S>> Model for AnySessionRight<E, S, N> {
    ghost use Rattle.std.specs.Prelude.{◌≡◌, []};
    ghost use Rattle.crossbeam_utils.specs.Seq.{cell_view};
    ghost use Rattle.status.specs.Views.{PlacedClaim, claim_of, right};

    ghost Value = { PlacedClaim };

    ghost view = { λ r. record { place = r.place; claim = claim_of (cell_view r.token) } };

    ghost invariant = { λ r. (r.token.table_id ≡ N.table r.place) × (r.token.me.1 ≡ [])
        × (cell_view r.token ≡ right (claim_of (cell_view r.token))) };
}

impl<E, S, N: ArrayNaming<S>> AnySessionRight<E, S, N> {
    /// As a right at the unit of its place.
    pub fn at<const U: usize>(self) -> SessionRight<E, S, At<S, N, U>>
        requires { self.place ≡ U }
        ensures { result ≡ self.claim }
    {
        let AnySessionRight {
            place: _,
            token,
            of: _,
        } = self;
        SessionRight {
            token,
            of: PhantomData,
        }
    }

    /// A right at the unit of a place that its type names.
    pub fn of<const U: usize>(right: SessionRight<E, S, At<S, N, U>>) -> AnySessionRight<E, S, N>
        ensures { (result.place ≡ U) × (result.claim ≡ right) }
    {
        let SessionRight { token, of: _ } = right;
        AnySessionRight {
            place: U,
            token,
            of: PhantomData,
        }
    }
}
