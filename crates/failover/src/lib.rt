//! Moves of an array's units between its controllers, without a session that asks for them.
#![tactic(auto)]

ghost use Rattle.std.specs.Prelude.{◌≡◌, ◌<◌, [], IfOk, IfErr};
ghost use Rattle.unit_history.specs.Calls.{HasMoved, HasStayed};
ghost use Rattle.unit_entries.specs.Devices.{devices};
ghost use Rattle.failover.specs.Down.{AreDown, IsStopped, down_list};

mod mover;
mod up;

use access_states::Change;
use array_units::Units;
use block_file::{Blocks, Opener};
pub use mover::{GroupsList, Mover, Moves};
use scsi_types::Group;
use std::sync::Wait;
pub use unit_control::preferred;
use unit_history::{LegalHistory, Opened};
use unit_sequence::ArrayNaming;
use unit_state::MoveFault;
pub use up::bring_up;

/// A unit did not move.
#[derive(Clone, Copy, PartialEq, Eq)]
pub struct NotMoved {
    /// The place of the first that did not. Those before it moved, and those behind it were not asked.
    pub unit: usize,
    /// Why it stays.
    pub why: MoveFault,
}

/// The parameter list by which a controller goes down (SPC-4, 6.45): the other group becomes active/optimized, and its own
/// unavailable.
fn down_list(controller: Group) -> GroupsList
    ensures { result ≡ down_list controller }
{
    match controller {
        Group::One => [0, 0, 0, 0, 0, 0, 0, 2, 3, 0, 0, 1],
        Group::Two => [0, 0, 0, 0, 0, 0, 0, 1, 3, 0, 0, 2],
    }
}

/// Moves the unit at a place as a parameter list of SET TARGET PORT GROUPS says (SPC-4, 6.45), or tells why it stays. The
/// change counts as implicit (SPC-4, 5.15.2.8): every attached session hears of it. Where the blocks cannot be opened for the
/// new owner, the unit is as it was.
pub fn set_groups<B: Blocks, F: Blocks, O: Opener<B>, N: ArrayNaming<Opened>, W: Wait>(
    rt: &W,
    units: &Units<B, F, O, N>,
    place: usize,
    list: &[u8],
) -> (LegalHistory<B, F, O, N>, Result<Change, MoveFault>)
    requires { place < units.now }
    ensures place { result.0.0 ≡ place }
    ensures moved { IfOk result.1 (λ told.
        HasMoved (devices B.Blocks F.Blocks O.Opener) (N.opening place) list.now result.0.1 told) }
    ensures stays { IfErr result.1 (λ why.
        HasStayed (devices B.Blocks F.Blocks O.Opener) (N.opening place) list.now result.0.1 why) }
{
    units.move_to(rt, place, list)
}

/// Takes a controller down, unit by unit: the other group becomes active/optimized, and its own unavailable. It stops at the
/// first unit that does not move; those before it stay moved. Nothing else is moved, as the moves that are kept show. The
/// controller's portals stay open, and SET TARGET PORT GROUPS brings it back.
pub fn take_down<W: Wait, M: Moves>(
    rt: &W,
    mover: &mut M,
    controller: Group,
) -> Result<(), NotMoved>
    requires fresh { M.asked mover.old ≡ [] }
    ensures down { IfOk result (λ done. AreDown M.made controller (M.unit_count mover.old) (M.asked mover.new)) }
    ensures stopped { IfErr result (λ end. (end.unit < M.unit_count mover.old)
        × IsStopped M.made controller end.unit end.why (M.asked mover.new)) }
{
    let list = down_list(controller);
    for place in 0..mover.count() {
        if let Err(why) = mover.move_to(rt, place, &list) {
            return Err(NotMoved { unit: place, why });
        }
    }
    Ok(())
}
