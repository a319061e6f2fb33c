//! The reads of a file that is opened.
ghost use Rattle.std.specs.Prelude.{◌≡◌, ◌≤◌, ◌<◌, IfErr, IfOk, IsTrue};
ghost use Rattle.block_file.specs.Disk.{block_at, NoMore};
ghost use Rattle.block_file.specs.Failures.{Counts, Tells};
ghost use Rattle.registrants.specs.Registry.{RecordValue};
ghost use Rattle.aptpl_format.specs.Format.{file_blocks};
ghost use Rattle.aptpl_format.specs.Reads.{IsRefusalOf, DeviceAnswered};
ghost use Rattle.aptpl_file.specs.Holds.{HasSlot, Holds, IsRefusal};
ghost use Rattle.aptpl_file.specs.Lasts.{IsDecided};
ghost use Rattle.aptpl_file.specs.Runs.{AreSlot};

use aptpl_format::{FileVersion, OpenFault, SLOT_LENGTH, Slot, named_by, record_of};
use block_file::{Blocks, DeviceFailed};
use registrants::Record;
use std::alloc::Global;

fn read_block<B: Blocks>(device: &mut B, index: u32) -> Result<[u8; 512], DeviceFailed>
    requires { index < B.size device.old }
    ensures size { B.size device.new ≡ B.size device.old }
    ensures read { IsTrue B.claims → IfOk result (λ block. block ≡ block_at (B.contents device.old) index) }
    ensures contents { IsTrue B.claims → B.contents device.new ≡ B.contents device.old }
    ensures crash { IsTrue B.claims → NoMore (B.may_hold device.old) (B.may_hold device.new) }
    ensures failures { Counts (B.failures device.old) (B.failures device.new) result }
{
    let mut block = [0; 512];
    let Ok(()) = device.read_run(index, &mut block) else {
        return Err(DeviceFailed);
    };
    Ok(block)
}

// The bytes of a slot, in one run.
fn read_bytes<B: Blocks>(device: &mut B, slot: Slot) -> Result<[u8; SLOT_LENGTH], DeviceFailed>
    requires { file_blocks ≤ B.size device.old }
    ensures size { B.size device.new ≡ B.size device.old }
    ensures read { IsTrue B.claims → IfOk result (AreSlot (B.contents device.old) slot) }
    ensures contents { IsTrue B.claims → B.contents device.new ≡ B.contents device.old }
    ensures crash { IsTrue B.claims → NoMore (B.may_hold device.old) (B.may_hold device.new) }
    ensures failures { Counts (B.failures device.old) (B.failures device.new) result }
{
    let mut bytes = [0; SLOT_LENGTH];
    let Ok(()) = device.read_run(slot.first_block(), &mut bytes) else {
        return Err(DeviceFailed);
    };
    Ok(bytes)
}

// The record of a slot.
fn read_slot<B: Blocks>(
    device: &mut B,
    alloc: Global,
    version: FileVersion,
    slot: Slot,
) -> Result<Record, OpenFault>
    requires { file_blocks ≤ B.size device.old }
    ensures size { B.size device.new ≡ B.size device.old }
    ensures read { IsTrue B.claims → IfOk result (HasSlot (B.contents device.old) version slot) }
    ensures refused { IsTrue B.claims → IfErr result (λ fault. IsRefusalOf fault
        ((r : RecordValue) → HasSlot (B.contents device.old) version slot r → ⊥)) }
    ensures contents { IsTrue B.claims → B.contents device.new ≡ B.contents device.old }
    ensures crash { IsTrue B.claims → NoMore (B.may_hold device.old) (B.may_hold device.new) }
    ensures failures { Tells (B.failures device.old) (B.failures device.new) (DeviceAnswered result) }
{
    let Ok(bytes) = read_bytes(device, slot) else {
        return Err(OpenFault::DeviceFailed);
    };
    record_of(alloc, version, &bytes)
}

/// The version and the slot that the root names, and the slot's record, which last from then on.
pub fn read_record<B: Blocks>(
    device: &mut B,
    alloc: Global,
) -> Result<(FileVersion, Slot, Record), OpenFault>
    requires { file_blocks ≤ B.size device.old }
    ensures size { B.size device.new ≡ B.size device.old }
    ensures holds { IsTrue B.claims → IfOk result (λ found. Holds (B.contents device.old) found.2) }
    ensures lasts { IsTrue B.claims → IfOk result (λ found. IsDecided (B.may_hold device.new) found.0 found.1 found.2) }
    ensures refused { IsTrue B.claims → IfErr result (IsRefusal (B.contents device.old)) }
    ensures contents { IsTrue B.claims → B.contents device.new ≡ B.contents device.old }
    ensures failures { Tells (B.failures device.old) (B.failures device.new) (DeviceAnswered result) }
{
    let Ok(root) = read_block(device, 0) else {
        return Err(OpenFault::DeviceFailed);
    };
    let (version, slot) = match named_by(&root) {
        Ok(named) => named,
        Err(fault) => return Err(fault),
    };
    let record = match read_slot(device, alloc, version, slot) {
        Ok(record) => record,
        Err(fault) => return Err(fault),
    };
    let Ok(()) = device.flush() else {
        return Err(OpenFault::DeviceFailed);
    };
    Ok((version, slot, record))
}
