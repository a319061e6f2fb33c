//! Moves by which a controller comes up again.
ghost use Rattle.std.specs.Prelude.{◌≡◌, ◌<◌, [], IfOk, IfErr};
ghost use Rattle.failover.specs.Up.{AreUp, IsStoppedUp, up_list};

use crate::NotMoved;
use crate::mover::{GroupsList, Moves};
use array_units::MOST_UNITS;
use scsi_types::Group;
use std::sync::Wait;
use unit_control::preferred;

/// The parameter list by which a unit that prefers this group is as it opens (SPC-4, 6.45): that group becomes active/optimized,
/// and the other active/non-optimized.
fn up_list(preferred: Group) -> GroupsList
    ensures { result ≡ up_list preferred }
{
    match preferred {
        Group::One => [0, 0, 0, 0, 0, 0, 0, 1, 1, 0, 0, 2],
        Group::Two => [0, 0, 0, 0, 0, 0, 0, 2, 1, 0, 0, 1],
    }
}

/// Makes each unit that is chosen as it opens: the group that it prefers becomes active/optimized, the other active/non-optimized.
/// It stops at the first unit that does not move; those before it stay moved. Nothing else is moved, as the moves that are kept
/// show.
pub fn bring_up<W: Wait, M: Moves>(
    rt: &W,
    mover: &mut M,
    chosen: &[bool; MOST_UNITS],
) -> Result<(), NotMoved>
    requires fresh { M.asked mover.old ≡ [] }
    ensures up { IfOk result (λ done. AreUp M.made chosen.now (M.unit_count mover.old) (M.asked mover.new)) }
    ensures stopped { IfErr result (λ end. (end.unit < M.unit_count mover.old)
        × IsStoppedUp M.made chosen.now end.unit end.why (M.asked mover.new)) }
{
    for place in 0..mover.count() {
        if chosen[place] {
            let list = up_list(preferred(place));
            if let Err(why) = mover.move_to(rt, place, &list) {
                return Err(NotMoved { unit: place, why });
            }
        }
    }
    Ok(())
}
