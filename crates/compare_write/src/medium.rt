//! READ, WRITE and SYNCHRONIZE CACHE.
ghost use Rattle.std.specs.Prelude.{◌≡◌, ◌+◌, ◌*◌, ◌<◌, ◌≤◌, length, IsTrue, OnOk};
ghost use Rattle.block_file.specs.Cut.{cut};
ghost use Rattle.block_file.specs.Disk.{written, range_bytes, or_new, Between, NoMore, Adds, Only};
ghost use Rattle.block_file.specs.Moment.{StopsAmong, TimePasses};
ghost use Rattle.block_file.specs.Failures.{Counts, Tells};
ghost use Rattle.compare_write.specs.Ends.{IsUnfailed, IsReadEnd, IsWriteEnd, IsSyncEnd, OnDone};

use crate::MediumEnd;
use block_file::{BLOCK_LENGTH, Blocks, DeviceFailed};
use disk_preparer::BlockMemory;

/// Reads the blocks of a range into `out`, which has as many bytes (SBC-3, READ (10) command).
///
/// One call of the device, and none for a range of no block. Done, or ReadFailed where the device failed: then nothing is
/// known of what `out` holds. No block changes.
pub fn read_range<B: Blocks>(device: &mut B, lba: u32, blocks: u16, out: &mut [u8]) -> MediumEnd
    requires range { lba + blocks ≤ B.size device.old }
    requires room { length out.old ≡ BLOCK_LENGTH * blocks }
    ensures size { B.size device.new ≡ B.size device.old }
    ensures ends { IsReadEnd result }
    ensures failures { Tells (B.failures device.old) (B.failures device.new) (IsUnfailed result) }
    ensures failed_reads { Tells (B.reads_failed device.old) (B.reads_failed device.new) (IsUnfailed result) }
    ensures failed_writes { B.writes_failed device.new ≡ B.writes_failed device.old }
    ensures idle { blocks ≡ 0 → device.new ≡ device.old }
    ensures read { IsTrue B.claims → OnDone result (out.new ≡ range_bytes (B.contents device.old) lba blocks) }
    ensures contents { IsTrue B.claims → B.contents device.new ≡ B.contents device.old }
    ensures crash { IsTrue B.claims → NoMore (B.may_hold device.old) (B.may_hold device.new) }
    ensures stop { IsTrue B.claims → IsTrue B.claims_moments
        → StopsAmong B.moment B.left_since B.size (B.may_hold device.old) device.old device.new }
{
    if blocks == 0 {
        return MediumEnd::Done;
    }
    let Ok(()) = device.read_run(lba, out) else {
        return MediumEnd::ReadFailed;
    };
    MediumEnd::Done
}

/// The same into memory of as many bytes, which goes to the device and comes back where it is Done. It may hold the blocks already.
pub fn read_range_into<B: Blocks>(
    device: &mut B,
    lba: u32,
    blocks: u16,
    memory: BlockMemory,
) -> (MediumEnd, Vec<u8>)
    requires range { lba + blocks ≤ B.size device.old }
    requires room { length memory.bytes.items ≡ BLOCK_LENGTH * blocks }
    ensures size { B.size device.new ≡ B.size device.old }
    ensures ends { IsReadEnd result.0 }
    ensures many { OnDone result.0 (length result.1.items ≡ BLOCK_LENGTH * blocks) }
    ensures short { length result.1.items ≤ BLOCK_LENGTH * blocks }
    ensures failures { Tells (B.failures device.old) (B.failures device.new) (IsUnfailed result.0) }
    ensures failed_reads { Tells (B.reads_failed device.old) (B.reads_failed device.new) (IsUnfailed result.0) }
    ensures failed_writes { B.writes_failed device.new ≡ B.writes_failed device.old }
    ensures idle { blocks ≡ 0 → device.new ≡ device.old }
    ensures read { IsTrue B.claims → OnDone result.0
        (result.1.items ≡ range_bytes (B.contents device.old) lba blocks) }
    ensures contents { IsTrue B.claims → B.contents device.new ≡ B.contents device.old }
    ensures crash { IsTrue B.claims → NoMore (B.may_hold device.old) (B.may_hold device.new) }
    ensures stop { IsTrue B.claims → IsTrue B.claims_moments
        → StopsAmong B.moment B.left_since B.size (B.may_hold device.old) device.old device.new }
{
    if blocks == 0 {
        return (MediumEnd::Done, memory.bytes);
    }
    let alloc = *memory.bytes.allocator();
    match device.read_into(lba, memory) {
        Ok(bytes) => (MediumEnd::Done, bytes),
        Err(DeviceFailed) => (MediumEnd::ReadFailed, Vec::new(alloc)),
    }
}

/// Writes the first of `bytes`, as many as the range has, to it (SBC-3, WRITE (10) command).
///
/// One call of the device, and none for a range of no block. Done, or WriteFailed where the device failed: then each
/// block of the range is the old one or the new one.
pub fn write_range<B: Blocks>(device: &mut B, lba: u32, blocks: u16, bytes: &[u8]) -> MediumEnd
    requires range { lba + blocks ≤ B.size device.old }
    requires given { BLOCK_LENGTH * blocks ≤ length bytes.now }
    ensures size { B.size device.new ≡ B.size device.old }
    ensures ends { IsWriteEnd result }
    ensures failures { Tells (B.failures device.old) (B.failures device.new) (IsUnfailed result) }
    ensures failed_reads { B.reads_failed device.new ≡ B.reads_failed device.old }
    ensures failed_writes { Tells (B.writes_failed device.old) (B.writes_failed device.new) (IsUnfailed result) }
    ensures idle { blocks ≡ 0 → device.new ≡ device.old }
    ensures written { IsTrue B.claims → OnDone result
        (B.contents device.new ≡ written (B.contents device.old) lba (cut blocks bytes.now)) }
    ensures torn { IsTrue B.claims
        → Between (B.contents device.old) lba (cut blocks bytes.now) (B.contents device.new) }
    ensures crash { IsTrue B.claims → Adds lba (cut blocks bytes.now) (B.may_hold device.old) (B.may_hold device.new) }
    ensures stop { IsTrue B.claims → IsTrue B.claims_moments
        → StopsAmong B.moment B.left_since B.size (or_new lba (cut blocks bytes.now) (B.may_hold device.old))
        device.old device.new }
{
    if blocks == 0 {
        return MediumEnd::Done;
    }
    let Ok(()) = write_front(device, lba, blocks, bytes) else {
        return MediumEnd::WriteFailed;
    };
    MediumEnd::Done
}

/// Writes the first of `bytes`, so many blocks, as one run.
fn write_front<B: Blocks>(
    device: &mut B,
    lba: u32,
    blocks: u16,
    bytes: &[u8],
) -> Result<(), DeviceFailed>
    requires range { lba + blocks ≤ B.size device.old }
    requires given { BLOCK_LENGTH * blocks ≤ length bytes.now }
    ensures size { B.size device.new ≡ B.size device.old }
    ensures failures { Counts (B.failures device.old) (B.failures device.new) result }
    ensures failed_reads { B.reads_failed device.new ≡ B.reads_failed device.old }
    ensures failed_writes { Counts (B.writes_failed device.old) (B.writes_failed device.new) result }
    ensures written { IsTrue B.claims → OnOk result
        (B.contents device.new ≡ written (B.contents device.old) lba (cut blocks bytes.now)) }
    ensures torn { IsTrue B.claims
        → Between (B.contents device.old) lba (cut blocks bytes.now) (B.contents device.new) }
    ensures crash { IsTrue B.claims → Adds lba (cut blocks bytes.now) (B.may_hold device.old) (B.may_hold device.new) }
    ensures time { IsTrue B.claims_moments → TimePasses B.moment B.left_since B.size B.may_hold device.old device.new }
{
    device.write_run(lba, &bytes[..BLOCK_LENGTH * usize::from(blocks)])
}

/// Makes what was written last (SBC-3, SYNCHRONIZE CACHE (10) command).
///
/// Done: a crash leaves the contents. FlushFailed where the device failed. No block changes.
pub fn sync<B: Blocks>(device: &mut B) -> MediumEnd
    ensures size { B.size device.new ≡ B.size device.old }
    ensures ends { IsSyncEnd result }
    ensures failures { Tells (B.failures device.old) (B.failures device.new) (IsUnfailed result) }
    ensures failed_reads { B.reads_failed device.new ≡ B.reads_failed device.old }
    ensures failed_writes { Tells (B.writes_failed device.old) (B.writes_failed device.new) (IsUnfailed result) }
    ensures contents { IsTrue B.claims → B.contents device.new ≡ B.contents device.old }
    ensures durable { IsTrue B.claims → OnDone result (Only (B.contents device.old) (B.may_hold device.new)) }
    ensures crash { IsTrue B.claims → NoMore (B.may_hold device.old) (B.may_hold device.new) }
    ensures stop { IsTrue B.claims → IsTrue B.claims_moments
        → StopsAmong B.moment B.left_since B.size (B.may_hold device.old) device.old device.new }
{
    match device.flush() {
        Ok(()) => MediumEnd::Done,
        Err(DeviceFailed) => MediumEnd::FlushFailed,
    }
}
