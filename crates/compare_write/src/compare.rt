//! COMPARE AND WRITE.
ghost use Rattle.std.specs.Prelude.{◌≡◌, ◌+◌, ◌*◌, ◌<◌, ◌≤◌, Option, Some, IsTrue, IfOk, IfSome, MatchOption, length};
ghost use Rattle.block_file.specs.Disk.{written, range_bytes, or_new, Between, NoMore, Adds};
ghost use Rattle.block_file.specs.Moment.{StopsAmong};
ghost use Rattle.block_file.specs.Failures.{Counts, Tells};
ghost use Rattle.compare_write.specs.Difference.{first_difference};
ghost use Rattle.compare_write.specs.Ends.{IsUnfailed, IsRead, IsWritten, IsCompareEnd, OnDone, OnMiscompare, OnUnwritten, OnWriting};
ghost use Rattle.compare_write.specs.Instances.{compare_instance, write_instance};

use crate::{MediumEnd, read_range, write_range};
use block_file::{BLOCK_LENGTH, Blocks, DeviceFailed};

/// The most blocks of one COMPARE AND WRITE (SBC-3, Block Limits page: MAXIMUM COMPARE AND WRITE LENGTH).
pub const MOST_COMPARED: u16 = 32;

/// Compares a range with the first half of `bytes`, and where the whole range is equal writes the second half to it
/// (SBC-3, COMPARE AND WRITE command). Each half has as many bytes as the range; what stands behind is not looked at.
/// One read of the device, and one write where it is equal; none for a range of no block.
///
/// Done, or Miscompare with the offset of the first byte that differs, or ReadFailed: after these two no block has
/// changed. After WriteFailed the range was equal, and each of its blocks is the old one or the new one.
pub fn compare_and_write<B: Blocks>(
    device: &mut B,
    lba: u32,
    blocks: u16,
    bytes: &[u8],
) -> MediumEnd
    requires few { blocks ≤ MOST_COMPARED }
    requires range { lba + blocks ≤ B.size device.old }
    requires given { 2 * BLOCK_LENGTH * blocks ≤ length bytes.now }
    ensures size { B.size device.new ≡ B.size device.old }
    ensures ends { IsCompareEnd result }
    ensures failures { Tells (B.failures device.old) (B.failures device.new) (IsUnfailed result) }
    ensures failed_reads { Tells (B.reads_failed device.old) (B.reads_failed device.new) (IsRead result) }
    ensures failed_writes { Tells (B.writes_failed device.old) (B.writes_failed device.new) (IsWritten result) }
    ensures idle { blocks ≡ 0 → device.new ≡ device.old }
    ensures offset { OnMiscompare result (λ at. at < BLOCK_LENGTH * blocks) }
    ensures equal { IsTrue B.claims → OnWriting result
        (range_bytes (B.contents device.old) lba blocks ≡ compare_instance blocks bytes.now) }
    ensures differs { IsTrue B.claims → OnMiscompare result (λ at.
        first_difference (range_bytes (B.contents device.old) lba blocks) (compare_instance blocks bytes.now)
        ≡ Some at) }
    ensures unwritten { IsTrue B.claims → OnUnwritten result (B.contents device.new ≡ B.contents device.old) }
    ensures untouched { IsTrue B.claims → OnUnwritten result (NoMore (B.may_hold device.old) (B.may_hold device.new)) }
    ensures written { IsTrue B.claims → OnDone result
        (B.contents device.new ≡ written (B.contents device.old) lba (write_instance blocks bytes.now)) }
    ensures torn { IsTrue B.claims
        → Between (B.contents device.old) lba (write_instance blocks bytes.now) (B.contents device.new) }
    ensures crash { IsTrue B.claims
        → Adds lba (write_instance blocks bytes.now) (B.may_hold device.old) (B.may_hold device.new) }
    ensures stop { IsTrue B.claims → IsTrue B.claims_moments → StopsAmong B.moment B.left_since B.size
        (or_new lba (write_instance blocks bytes.now) (B.may_hold device.old)) device.old device.new }
    ensures stop_unwritten { IsTrue B.claims → IsTrue B.claims_moments → OnUnwritten result
        (StopsAmong B.moment B.left_since B.size (B.may_hold device.old) device.old device.new) }
{
    let half = BLOCK_LENGTH * usize::from(blocks);
    let given = &bytes[..half];
    // Most compare one block: room for 32 need not be cleared for it.
    let found = if blocks <= 1 {
        let mut room = [0; BLOCK_LENGTH];
        find_difference(device, lba, blocks, &mut room[..half], given)
    } else {
        let mut room = [0; BLOCK_LENGTH * MOST_COMPARED as usize];
        find_difference(device, lba, blocks, &mut room[..half], given)
    };
    let Ok(found) = found else {
        return MediumEnd::ReadFailed;
    };
    match found {
        Some(at) => MediumEnd::Miscompare(at),
        None => write_range(device, lba, blocks, &bytes[half..]),
    }
}

/// Reads a range into `room` and compares it with as many bytes: the offset of the first one that differs.
fn find_difference<B: Blocks>(
    device: &mut B,
    lba: u32,
    blocks: u16,
    room: &mut [u8],
    given: &[u8],
) -> Result<Option<u32>, DeviceFailed>
    requires few { blocks ≤ MOST_COMPARED }
    requires range { lba + blocks ≤ B.size device.old }
    requires given { length given.now ≡ BLOCK_LENGTH * blocks }
    requires room { length room.old ≡ length given.now }
    ensures size { B.size device.new ≡ B.size device.old }
    ensures failures { Counts (B.failures device.old) (B.failures device.new) result }
    ensures failed_reads { Counts (B.reads_failed device.old) (B.reads_failed device.new) result }
    ensures failed_writes { B.writes_failed device.new ≡ B.writes_failed device.old }
    ensures idle { blocks ≡ 0 → device.new ≡ device.old }
    ensures offset { IfOk result (λ found. IfSome found (λ at. at < BLOCK_LENGTH * blocks)) }
    ensures compared { IsTrue B.claims → IfOk result (λ found. MatchOption found
        (range_bytes (B.contents device.old) lba blocks ≡ given.now)
        (λ at. first_difference (range_bytes (B.contents device.old) lba blocks) given.now ≡ Some at)) }
    ensures contents { IsTrue B.claims → B.contents device.new ≡ B.contents device.old }
    ensures crash { IsTrue B.claims → NoMore (B.may_hold device.old) (B.may_hold device.new) }
    ensures stop { IsTrue B.claims → IsTrue B.claims_moments
        → StopsAmong B.moment B.left_since B.size (B.may_hold device.old) device.old device.new }
{
    let MediumEnd::Done = read_range(device, lba, blocks, room) else {
        return Err(DeviceFailed);
    };
    Ok(difference(room, given))
}

/// The offset of the first byte that differs, where there are as many on both sides.
fn difference(held: &[u8], given: &[u8]) -> Option<u32>
    requires long { length held.now ≡ length given.now }
    requires few { length given.now ≤ BLOCK_LENGTH * MOST_COMPARED }
    ensures compared { MatchOption result (held.now ≡ given.now)
        (λ at. first_difference held.now given.now ≡ Some at) }
    ensures offset { IfSome result (λ at. at < length given.now) }
{
    match first_differing(held, given) {
        Some(at) => Some(at as u32),
        None => None,
    }
}

fn first_differing(held: &[u8], given: &[u8]) -> Option<usize>
    ensures is { result ≡ first_difference held.now given.now }
    ensures offset { IfSome result (λ at. at < length given.now) }
{
    held.iter()
        .zip(given)
        .position(|(held, wanted)| held != wanted)
}
