//! SET TARGET PORT GROUPS (SPC-4, 6.45), and what it shares with a move.
ghost use Rattle.std.specs.Prelude.{◌≡◌, ◌≢◌, ◌&&◌, ℕ, false, true, Ok, OnOk, OnErr, IsTrue};
ghost use Rattle.block_file.specs.Failures.{Counts, Tells};
ghost use Rattle.unit_control.specs.Answer.{IsPerformed};
ghost use Rattle.access_states.specs.AccessMap.{owner_of};
ghost use Rattle.unit_control.specs.Choice.{IsFine, choice_of};
ghost use Rattle.unit_control.specs.Counts.{AreCounted, counters};
ghost use Rattle.unit_control.specs.Crash.{HoldsAsBefore};
ghost use Rattle.unit_control.specs.Groups.{IsTaken, is_moved, is_opening, set_by, with_access};
ghost use Rattle.unit_control.specs.Places.{IsPlaceOf, StaysAll, Stays};
ghost use Rattle.unit_control.specs.State.{unit_of};
ghost use Rattle.scsi_types.specs.declared.command.Command.TheVariants.{SetTargetPortGroups};

use crate::control::Control;
use crate::sessions::{Sender, SessionId};
use access_states::{AccessMap, AsetFault, Cause};
use block_file::{Blocks, DeviceFailed, Opener};
use scsi_types::{Reply, Sense, is_group_list};
use std::alloc::Global;

/// What the list of a SET TARGET PORT GROUPS, which is so many of the bytes that came, makes of the access states.
pub fn states_asked(
    control: &Control,
    list_length: u32,
    bytes: &[u8],
) -> Result<AccessMap, AsetFault>
    ensures { result ≡ set_by control.now list_length bytes.now }
{
    if !is_group_list(list_length) {
        return Err(AsetFault::Length);
    }
    let end = (list_length as usize).min(bytes.len());
    control.access().after(Cause::Explicit, &bytes[..end])
}

/// Puts these access states in the place of those that are there, and tells every session but the one that asked for it.
/// Where another group owns the unit then, its blocks are opened for that one first; if that fails, nothing changes.
pub fn change<B: Blocks, O: Opener<B>>(
    device: &mut B,
    opener: &mut O,
    control: &mut Control,
    by: Option<SessionId>,
    access: AccessMap,
) -> Result<(), DeviceFailed>
    ensures size { B.size device.new ≡ B.size device.old }
    ensures opened { owner_of control.new.access ≢ owner_of control.old.access → O.opened device.old device.new }
    ensures device_failures { B.failures device.new ≡ B.failures device.old }
    ensures failed_reads { B.reads_failed device.new ≡ B.reads_failed device.old }
    ensures failed_writes { B.writes_failed device.new ≡ B.writes_failed device.old }
    ensures contents { IsTrue O.claims → B.contents device.new ≡ B.contents device.old }
    ensures kept { IsTrue O.claims → HoldsAsBefore B.moment B.left_since B.may_hold device.old device.new }
    ensures changed { OnOk result (control.new ≡ with_access control.old by access) }
    ensures lasting { control.new.lasting ≡ control.old.lasting }
    ensures stays { StaysAll control.old control.new }
    ensures err { OnErr result ((control.new ≡ control.old) × (device.new ≡ device.old)
        × (is_moved control.old.access access ≡ true)) }
    ensures unopened { is_moved control.old.access access ≡ false
        → (opener.new ≡ opener.old) × (device.new ≡ device.old) }
    ensures failures { Counts (O.opens_failed opener.old) (O.opens_failed opener.new) result }
{
    if control.access().change_to(&access).owner.is_some() {
        opener.open(device)?;
    }
    control.set_access(by, access);
    Ok(())
}

/// SET TARGET PORT GROUPS of a session, with a list that the access states can follow.
pub fn set_groups<B: Blocks, O: Opener<B>>(
    device: &mut B,
    opener: &mut O,
    control: &mut Control,
    alloc: Global,
    sender: Sender,
    list_length: u32,
    bytes: &[u8],
) -> Reply
    requires place { IsPlaceOf control.old.sessions sender.session sender.at }
    requires list { IsTaken (set_by control.old list_length bytes.now) }
    ensures size { B.size device.new ≡ B.size device.old }
    ensures lasting { control.new.lasting ≡ control.old.lasting }
    ensures stays { Stays control.old control.new sender.session sender.at }
    ensures served { IsPerformed (O.claims && B.claims) (unit_of control.old (B.contents device.old))
        (unit_of control.new (B.contents device.new)) sender.session (SetTargetPortGroups list_length) bytes.now result }
    ensures unopened { is_opening control.old (Ok (SetTargetPortGroups list_length)) bytes.now ≡ false
        → opener.new ≡ opener.old }
    ensures idle { is_opening control.old (Ok (SetTargetPortGroups list_length)) bytes.now ≡ false
        → device.new ≡ device.old }
    ensures opened { owner_of control.new.access ≢ owner_of control.old.access → O.opened device.old device.new }
    ensures device_failures { B.failures device.new ≡ B.failures device.old }
    ensures failed_reads { B.reads_failed device.new ≡ B.reads_failed device.old }
    ensures failed_writes { B.writes_failed device.new ≡ B.writes_failed device.old }
    ensures kept { IsTrue O.claims → HoldsAsBefore B.moment B.left_since B.may_hold device.old device.new }
    ensures counted { (saves : ℕ) → AreCounted
        (counters (B.reads_failed device.old) (B.writes_failed device.old) (O.opens_failed opener.old) saves)
        (counters (B.reads_failed device.new) (B.writes_failed device.new) (O.opens_failed opener.new) saves)
        (choice_of result (B.contents device.new) control.new.lasting) }
    ensures fine { Tells (O.opens_failed opener.old) (O.opens_failed opener.new)
        (IsFine (choice_of result (B.contents device.new) control.new.lasting)) }
{
    let Ok(access) = states_asked(control, list_length, bytes) else {
        unreachable!()
    };
    match change(device, opener, control, Some(sender.session), access) {
        Ok(()) => Reply::good(Vec::new(alloc)),
        Err(DeviceFailed) => Reply::check(alloc, Sense::SET_TARGET_PORT_GROUPS_COMMAND_FAILED),
    }
}
