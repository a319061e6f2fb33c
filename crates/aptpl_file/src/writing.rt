//! The writes of a save.
ghost use Rattle.std.specs.Prelude.{◌≡◌, ◌≤◌, [], ◌∷◌, IsTrue, OnOk, length};
ghost use Rattle.block_file.specs.Cut.{IsRun, run_of};
ghost use Rattle.block_file.specs.Disk.{or_new, written, Adds, NoMore, Only};
ghost use Rattle.block_file.specs.Moment.{StopsAmong};
ghost use Rattle.block_file.specs.Failures.{Counts};
ghost use Rattle.aptpl_format.specs.Format.{file_blocks, root_block};
ghost use Rattle.aptpl_file.specs.Lasts.{RootLasts, SlotLasts};
ghost use Rattle.aptpl_file.specs.Writes.{beside_slot};

use aptpl_format::{FileVersion, Slot, root_block, slot_bytes};
use block_file::{Blocks, DeviceFailed};
use registrants::{Registrant, Reservation};

/// Writes a slot in version 2, as one run, and makes it last.
pub fn save_slot<B: Blocks>(
    device: &mut B,
    slot: Slot,
    aptpl: bool,
    registrants: &[Registrant],
    reservation: &Option<Reservation>,
) -> Result<(), DeviceFailed>
    requires blocks { file_blocks ≤ B.size device.old }
    requires few { length registrants.now ≤ 64 }
    ensures size { B.size device.new ≡ B.size device.old }
    ensures lasts { IsTrue B.claims → OnOk result (SlotLasts (B.may_hold device.new) FileVersion.Version2 slot
        (record { aptpl = aptpl; registrants = registrants.now; reservation = reservation.now })) }
    ensures crash { IsTrue B.claims → NoMore (beside_slot slot (B.may_hold device.old)) (B.may_hold device.new) }
    ensures stop { IsTrue B.claims → IsTrue B.claims_moments → StopsAmong B.moment B.left_since B.size
        (beside_slot slot (B.may_hold device.old)) device.old device.new }
    ensures failures { Counts (B.failures device.old) (B.failures device.new) result }
{
    let bytes = slot_bytes(FileVersion::Version2, aptpl, registrants, reservation);
    save_run(device, slot.first_block(), &bytes)
}

/// Writes the root that names a version and a slot, and makes it last.
pub fn save_root<B: Blocks>(
    device: &mut B,
    version: FileVersion,
    slot: Slot,
) -> Result<(), DeviceFailed>
    requires { file_blocks ≤ B.size device.old }
    ensures size { B.size device.new ≡ B.size device.old }
    ensures lasts { IsTrue B.claims → OnOk result (RootLasts (B.may_hold device.new) version slot) }
    ensures crash { IsTrue B.claims
        → Adds 0 (root_block version slot ∷ []) (B.may_hold device.old) (B.may_hold device.new) }
    ensures stop { IsTrue B.claims → IsTrue B.claims_moments → StopsAmong B.moment B.left_since B.size
        (or_new 0 (root_block version slot ∷ []) (B.may_hold device.old)) device.old device.new }
    ensures failures { Counts (B.failures device.old) (B.failures device.new) result }
{
    save_run(device, 0, &root_block(version, slot))
}

// Writes a run of whole blocks and makes it last.
fn save_run<B: Blocks>(device: &mut B, first: u32, bytes: &[u8]) -> Result<(), DeviceFailed>
    requires { IsRun (B.size device.old) first (length bytes.now) }
    ensures size { B.size device.new ≡ B.size device.old }
    ensures lasts { IsTrue B.claims
        → OnOk result (Only (written (B.contents device.old) first (run_of bytes.now)) (B.may_hold device.new)) }
    ensures crash { IsTrue B.claims → Adds first (run_of bytes.now) (B.may_hold device.old) (B.may_hold device.new) }
    ensures stop { IsTrue B.claims → IsTrue B.claims_moments → StopsAmong B.moment B.left_since B.size
        (or_new first (run_of bytes.now) (B.may_hold device.old)) device.old device.new }
    ensures failures { Counts (B.failures device.old) (B.failures device.new) result }
{
    let Ok(()) = device.write_run(first, bytes) else {
        return Err(DeviceFailed);
    };
    device.flush()
}
