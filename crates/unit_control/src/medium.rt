//! The commands on the medium, with their flushes, and how their ends are answered.
ghost use Rattle.std.specs.Prelude.{◌≡◌, ◌+◌, ◌*◌, ◌≤◌, ℕ, [], true, length, IsTrue};
ghost use Rattle.block_file.specs.Cut.{cut};
ghost use Rattle.block_file.specs.Disk.{Only, or_new};
ghost use Rattle.block_file.specs.Failures.{Tells};
ghost use Rattle.compare_write.specs.Ends.{IsRead, IsUnfailed, IsWritten, OnDone};
ghost use Rattle.unit_control.specs.Crash.{LeavesAmong, holds_after};
ghost use Rattle.unit_control.specs.Medium.{Reads, Writes, Compares, Flushes, reply_by};
ghost use Rattle.unit_control.specs.Worked.{IsWorked, OnReading, choice_at, finding_at};

use block_file::{BLOCK_LENGTH, Blocks};
use compare_write::{
    MOST_COMPARED, MediumEnd, compare_and_write, read_range_into, sync, write_range,
};
use disk_preparer::BlockMemory;
use scsi_types::{Reply, Sense};
use std::alloc::Global;

/// READ into memory as long as the range, whose bytes come back where the end is Done. Without FUA the device may take what the memory
/// holds, where that was read beside it. With FUA the device is flushed first and what the memory holds is forgotten, so the blocks are
/// read behind the flush.
pub fn read<B: Blocks>(
    device: &mut B,
    lba: u32,
    blocks: u16,
    fua: bool,
    memory: BlockMemory,
) -> (MediumEnd, Vec<u8>)
    requires range { lba + blocks ≤ B.size device.old }
    requires room { length memory.bytes.items ≡ BLOCK_LENGTH * blocks }
    ensures size { B.size device.new ≡ B.size device.old }
    ensures worked { IsWorked B.claims (B.contents device.old) (B.contents device.new)
        (Reads (record { lba = lba; blocks = blocks }) fua) result.0 result.1.items }
    ensures short { length result.1.items ≤ BLOCK_LENGTH * blocks }
    ensures failures { Tells (B.failures device.old) (B.failures device.new) (IsUnfailed result.0) }
    ensures failed_reads { Tells (B.reads_failed device.old) (B.reads_failed device.new) (IsRead result.0) }
    ensures failed_writes { Tells (B.writes_failed device.old) (B.writes_failed device.new) (IsWritten result.0) }
    ensures durable { IsTrue B.claims → fua ≡ true → OnReading result.0
        (Only (B.contents device.new) (B.may_hold device.new)) }
    ensures left { IsTrue B.claims → LeavesAmong B.claims_moments B.moment B.left_since B.size B.may_hold
        (B.may_hold device.old) device.old device.new }
{
    if !fua {
        return read_range_into(device, lba, blocks, memory);
    }
    let fresh = BlockMemory::fresh(memory.bytes);
    match sync(device) {
        MediumEnd::Done => read_range_into(device, lba, blocks, fresh),
        end => (end, fresh.bytes),
    }
}

/// WRITE: with FUA it is made to last before it is answered.
pub fn write<B: Blocks>(device: &mut B, lba: u32, blocks: u16, fua: bool, bytes: &[u8]) -> MediumEnd
    requires range { lba + blocks ≤ B.size device.old }
    requires given { BLOCK_LENGTH * blocks ≤ length bytes.now }
    ensures size { B.size device.new ≡ B.size device.old }
    ensures worked { IsWorked B.claims (B.contents device.old) (B.contents device.new)
        (Writes (record { lba = lba; blocks = blocks }) bytes.now fua) result [] }
    ensures failures { Tells (B.failures device.old) (B.failures device.new) (IsUnfailed result) }
    ensures failed_reads { Tells (B.reads_failed device.old) (B.reads_failed device.new) (IsRead result) }
    ensures failed_writes { Tells (B.writes_failed device.old) (B.writes_failed device.new) (IsWritten result) }
    ensures durable { IsTrue B.claims → fua ≡ true → OnDone result
        (Only (B.contents device.new) (B.may_hold device.new)) }
    ensures left { IsTrue B.claims → LeavesAmong B.claims_moments B.moment B.left_since B.size B.may_hold
        (or_new lba (cut blocks bytes.now) (B.may_hold device.old)) device.old device.new }
{
    match write_range(device, lba, blocks, bytes) {
        MediumEnd::Done if fua => sync(device),
        end => end,
    }
}

/// COMPARE AND WRITE: with FUA what it writes is made to last before it is answered.
pub fn compare<B: Blocks>(
    device: &mut B,
    lba: u32,
    blocks: u16,
    fua: bool,
    bytes: &[u8],
) -> MediumEnd
    requires few { blocks ≤ MOST_COMPARED }
    requires range { lba + blocks ≤ B.size device.old }
    requires given { 2 * BLOCK_LENGTH * blocks ≤ length bytes.now }
    ensures size { B.size device.new ≡ B.size device.old }
    ensures worked { IsWorked B.claims (B.contents device.old) (B.contents device.new)
        (Compares (record { lba = lba; blocks = blocks }) bytes.now fua) result [] }
    ensures failures { Tells (B.failures device.old) (B.failures device.new) (IsUnfailed result) }
    ensures failed_reads { Tells (B.reads_failed device.old) (B.reads_failed device.new) (IsRead result) }
    ensures failed_writes { Tells (B.writes_failed device.old) (B.writes_failed device.new) (IsWritten result) }
    ensures durable { IsTrue B.claims → fua ≡ true → OnDone result
        (Only (B.contents device.new) (B.may_hold device.new)) }
    ensures left { IsTrue B.claims → LeavesAmong B.claims_moments B.moment B.left_since B.size B.may_hold
        (holds_after (B.contents device.old) (Compares (record { lba = lba; blocks = blocks }) bytes.now fua)
        (choice_at result (B.contents device.new)) (B.may_hold device.old)) device.old device.new }
{
    match compare_and_write(device, lba, blocks, bytes) {
        MediumEnd::Done if fua => sync(device),
        end => end,
    }
}

/// SYNCHRONIZE CACHE: all that was written is made to last, whatever its range.
pub fn flush<B: Blocks>(device: &mut B) -> MediumEnd
    ensures size { B.size device.new ≡ B.size device.old }
    ensures worked { (lba blocks : ℕ) → IsWorked B.claims (B.contents device.old) (B.contents device.new)
        (Flushes (record { lba = lba; blocks = blocks })) result [] }
    ensures failures { Tells (B.failures device.old) (B.failures device.new) (IsUnfailed result) }
    ensures failed_reads { Tells (B.reads_failed device.old) (B.reads_failed device.new) (IsRead result) }
    ensures failed_writes { Tells (B.writes_failed device.old) (B.writes_failed device.new) (IsWritten result) }
    ensures durable { IsTrue B.claims → OnDone result (Only (B.contents device.new) (B.may_hold device.new)) }
    ensures left { IsTrue B.claims → LeavesAmong B.claims_moments B.moment B.left_since B.size B.may_hold
        (B.may_hold device.old) device.old device.new }
{
    sync(device)
}

/// The reply to a command on the medium that ended so: with the bytes that were read where it is done. A flush that failed is WRITE ERROR,
/// also that of a READ with FUA.
pub fn medium_reply(alloc: Global, end: MediumEnd, read: Vec<u8>) -> Reply
    ensures { result ≡ reply_by (finding_at end read.items) }
{
    match end {
        MediumEnd::Done => Reply::good(read),
        MediumEnd::Miscompare(offset) => Reply::check(alloc, Sense::miscompare(offset)),
        MediumEnd::ReadFailed => Reply::check(alloc, Sense::UNRECOVERED_READ_ERROR),
        MediumEnd::WriteFailed | MediumEnd::FlushFailed => Reply::check(alloc, Sense::WRITE_ERROR),
    }
}
