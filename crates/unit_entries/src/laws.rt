//! What follows of a unit's entries.
ghost use Rattle.std.specs.Prelude.{◌≡◌, ◌&&◌, []};
ghost use Rattle.unit_control.specs.State.{state_of};
ghost use Rattle.unit_state.specs.Serials.{IsOpening};
ghost use Rattle.unit_entries.specs.Histories.{IsBehind, IsHistory};

use crate::entry::Opened;
use block_file::{Blocks, Opener};
use unit_sequence::ArrayNaming;
use unit_state::Unit;

/// A unit of which nothing was asked yet is what the history without an entry leaves.
pub fn a_unit_that_opened_has_the_history_without_an_entry<
    B: Blocks,
    F: Blocks,
    O: Opener<B>,
    N: ArrayNaming<Opened>,
    const U: usize,
>(unit: &Unit<B, F, O>)
    requires state { N.opening U ≡ state_of B.contents unit.now }
    requires opens { IsOpening unit.now.control }
    ensures legal { IsHistory (O.claims && B.claims) (N.opening U) [] }
    ensures behind { IsBehind (O.claims && B.claims) B.contents B.failures O.opens_failed F.failures (N.opening U) [] unit.now }
{
    let _ = unit;
}
