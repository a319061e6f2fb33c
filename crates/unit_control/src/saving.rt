//! PERSISTENT RESERVE OUT with the save that it needs (SPC-4, 5.13.5): what is to outlast a loss of power is saved before
//! the registrations change.
ghost use Rattle.std.specs.Prelude.{◌≡◌, ◌++◌, ℕ, List, IsTrue};
ghost use Rattle.aptpl_file.specs.Lasts.{LastsAmong, StopLeavesOneOf};
ghost use Rattle.block_file.specs.Failures.{Tells};
ghost use Rattle.unit_control.specs.Choice.{IsFine, choice_of};
ghost use Rattle.unit_control.specs.Counts.{AreCounted, counters};
ghost use Rattle.unit_control.specs.Crash.{saved_by};
ghost use Rattle.unit_control.specs.Places.{IsPlaceOf, Stays};
ghost use Rattle.unit_control.specs.Reserve.{effect_by};
ghost use Rattle.unit_control.specs.Saving.{IsReserved};

use crate::control::Control;
use crate::sessions::Sender;
use aptpl_file::RegFile;
use block_file::Blocks;
use reservations::{PrEnd, PrOut, Registry};
use scsi_types::{Reply, Sense};
use std::alloc::Global;

/// Does a PERSISTENT RESERVE OUT of a session. Where the file may not hold just the record to last of what is there then,
/// that is saved first; if that fails, nothing else has changed. A refusal changes nothing. Takes no memory: what the
/// registry becomes is made in one that is there for that.
pub fn reserve<F: Blocks>(
    file: &mut RegFile<F>,
    control: &mut Control,
    scratch: &mut Registry,
    alloc: Global,
    sender: Sender,
    asked: PrOut,
) -> Reply
    requires { IsPlaceOf control.old.sessions sender.session sender.at }
    ensures stays { Stays control.old control.new sender.session sender.at }
    ensures reserved { IsReserved control.old (effect_by control.old sender.session asked) control.new result }
    ensures kept { IsTrue F.claims → LastsAmong F.size F.may_hold file.old control.old.lasting
        → LastsAmong F.size F.may_hold file.new control.new.lasting }
    ensures stop { IsTrue F.claims → IsTrue F.claims_moments
        → LastsAmong F.size F.may_hold file.old control.old.lasting
        → StopLeavesOneOf F.moment F.left_since (saved_by (effect_by control.old sender.session asked) ++ control.old.lasting)
        file.old.device file.new.device }
    ensures access { control.new.access ≡ control.old.access }
    ensures counted { (blocks : List (List ℕ)) (reads writes opens : ℕ) → AreCounted
        (counters reads writes opens (F.failures file.old.device))
        (counters reads writes opens (F.failures file.new.device)) (choice_of result blocks control.new.lasting) }
    ensures fine { (blocks : List (List ℕ)) → Tells (F.failures file.old.device) (F.failures file.new.device)
        (IsFine (choice_of result blocks control.new.lasting)) }
{
    match control.attempt(scratch, sender, asked) {
        PrEnd::Good(telling) => {
            if control.is_to_save(scratch) {
                if let Err(fault) = file.save(&scratch.lasting()) {
                    control.fail(fault, scratch);
                    return Reply::check(alloc, Sense::INTERNAL_TARGET_FAILURE);
                }
            }
            control.put_in_force(scratch, &telling);
            Reply::good(Vec::new(alloc))
        }
        PrEnd::Conflict => Reply::conflict(alloc),
        PrEnd::Illegal(sense) => Reply::check(alloc, sense),
    }
}
