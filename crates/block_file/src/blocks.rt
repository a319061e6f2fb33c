//! What every device of blocks keeps, and where it says more of what it holds.
ghost use Rattle.std.specs.Prelude.{◌≡◌, ◌<◌, ◌≤◌, ◌+◌, ◌/◌, ◌^◌, List, ℕ, Bool, length, min, IsTrue, IfOk, OnOk};
ghost use Rattle.block_file.specs.declared.blocks.TheConstants.{BLOCK_LENGTH};
ghost use Rattle.block_file.specs.Cut.{run_of, IsRun};
ghost use Rattle.block_file.specs.Disk.{block_at, written, range_bytes, Between, NoMore, Adds, Only, MayLeave};
ghost use Rattle.block_file.specs.Moment.{TimePasses};
ghost use Rattle.block_file.specs.Failures.{Counts, last_count};

use disk_preparer::BlockMemory;
use thiserror::Error;

/// The length of a block in bytes (SBC-3, READ CAPACITY (10): LOGICAL BLOCK LENGTH IN BYTES).
pub const BLOCK_LENGTH: usize = 512;

/// The device refused a call, and counted it.
#[derive(Clone, Copy, Debug, PartialEq, Eq, Error)]
#[error("the device failed")]
pub struct DeviceFailed;

/// A device of blocks of 512 bytes, numbered from 0.
///
/// What is said of contents and of crashes holds where the type claims it. That a call fails exactly where
/// the count of failures rises, and that the number of blocks stays, holds of every device.
pub trait Blocks: Drop {
    /// Whether the type keeps what is said of contents and of a crash now.
    ghost claims: { Bool };

    /// Whether it also keeps what is said of a crash at some moment since an earlier one.
    ghost claims_moments: { Bool };

    /// How many blocks there are.
    ghost size: { Self → ℕ };

    /// The blocks, as reads return them.
    ghost contents: { Self → List (List ℕ) };

    /// What the block at a place may hold after a crash now.
    ghost may_hold: { Self → ℕ → List ℕ → Type 0 };

    /// The moment, as a number that does not fall.
    ghost moment: { Self → ℕ };

    /// What a crash at some moment from this one on may have left.
    ghost left_since: { Self → ℕ → List (List ℕ) → Type 0 };

    /// How often a read has failed.
    ghost reads_failed: { Self → ℕ };

    /// How often a write or a flush has failed.
    ghost writes_failed: { Self → ℕ };

    /// How often the device has failed.
    ghost failures: { Self → ℕ };

    /// The number of blocks.
    fn count(&self) -> u32
        ensures { result ≡ size self.now };

    /// Reads a run of whole blocks, which lies in the device. After a failure nothing is known of what `bytes` holds.
    fn read_run(&mut self, first: u32, bytes: &mut [u8]) -> Result<(), DeviceFailed>
        requires { IsRun (size self.old) first (length bytes.old) }
        ensures size { size self.new ≡ size self.old }
        ensures read { IsTrue claims → OnOk result
            (bytes.new ≡ range_bytes (contents self.old) first (length bytes.old / BLOCK_LENGTH)) }
        ensures contents { IsTrue claims → contents self.new ≡ contents self.old }
        ensures crash { IsTrue claims → NoMore (may_hold self.old) (may_hold self.new) }
        ensures time { IsTrue claims_moments → TimePasses moment left_since size may_hold self.old self.new }
        ensures failures { Counts (failures self.old) (failures self.new) result }
        ensures failed_reads { Counts (reads_failed self.old) (reads_failed self.new) result }
        ensures failed_writes { writes_failed self.new ≡ writes_failed self.old };

    /// Reads a run of whole blocks, which lies in the device, into memory of as many bytes, which goes to the device and comes back.
    /// Where the memory holds these blocks as they were read beside the device, a device may give them as they are, if no write of its
    /// own has ended since. After a failure the memory is gone.
    fn read_into(&mut self, first: u32, memory: BlockMemory) -> Result<Vec<u8>, DeviceFailed>
        requires { IsRun (size self.old) first (length memory.bytes.items) }
        ensures size { size self.new ≡ size self.old }
        ensures many { IfOk result (λ blocks. length blocks.items ≡ length memory.bytes.items) }
        ensures read { IsTrue claims → IfOk result (λ blocks.
            blocks.items ≡ range_bytes (contents self.old) first (length memory.bytes.items / BLOCK_LENGTH)) }
        ensures contents { IsTrue claims → contents self.new ≡ contents self.old }
        ensures crash { IsTrue claims → NoMore (may_hold self.old) (may_hold self.new) }
        ensures time { IsTrue claims_moments → TimePasses moment left_since size may_hold self.old self.new }
        ensures failures { Counts (failures self.old) (failures self.new) result }
        ensures failed_reads { Counts (reads_failed self.old) (reads_failed self.new) result }
        ensures failed_writes { writes_failed self.new ≡ writes_failed self.old }
    {
        let mut bytes = memory.bytes;
        self.read_run(first, bytes.as_mut_slice())?;
        Ok(bytes)
    }

    /// Writes a run of whole blocks, which lies in the device. After a failure each of them is the old one or the new
    /// one.
    fn write_run(&mut self, first: u32, bytes: &[u8]) -> Result<(), DeviceFailed>
        requires { IsRun (size self.old) first (length bytes.now) }
        ensures size { size self.new ≡ size self.old }
        ensures written { IsTrue claims
            → OnOk result (contents self.new ≡ written (contents self.old) first (run_of bytes.now)) }
        ensures torn { IsTrue claims → Between (contents self.old) first (run_of bytes.now) (contents self.new) }
        ensures crash { IsTrue claims → Adds first (run_of bytes.now) (may_hold self.old) (may_hold self.new) }
        ensures time { IsTrue claims_moments → TimePasses moment left_since size may_hold self.old self.new }
        ensures failures { Counts (failures self.old) (failures self.new) result }
        ensures failed_reads { reads_failed self.new ≡ reads_failed self.old }
        ensures failed_writes { Counts (writes_failed self.old) (writes_failed self.new) result };

    /// Makes what was written last: after a success a crash leaves the contents.
    fn flush(&mut self) -> Result<(), DeviceFailed>
        ensures size { size self.new ≡ size self.old }
        ensures contents { IsTrue claims → contents self.new ≡ contents self.old }
        ensures durable { IsTrue claims → OnOk result (Only (contents self.old) (may_hold self.new)) }
        ensures crash { IsTrue claims → NoMore (may_hold self.old) (may_hold self.new) }
        ensures time { IsTrue claims_moments → TimePasses moment left_since size may_hold self.old self.new }
        ensures failures { Counts (failures self.old) (failures self.new) result }
        ensures failed_reads { reads_failed self.new ≡ reads_failed self.old }
        ensures failed_writes { Counts (writes_failed self.old) (writes_failed self.new) result };

    /// The number of blocks fits 32 bits.
    ghost fits: { (d : Self) → size d < 2 ^ 32 };

    /// The failures are those of reads and those of writes.
    ghost summed: { (d : Self) → failures d ≡ min (reads_failed d + writes_failed d) last_count };

    /// The count of failures has an end.
    ghost bounded: { (d : Self) → failures d ≤ last_count };

    /// The contents are as many blocks.
    ghost sized: { (d : Self) → IsTrue claims → length (contents d) ≡ size d };

    /// Each block has its length.
    ghost wide: { (d : Self) (k : ℕ) → IsTrue claims → k < size d → length (block_at (contents d) k) ≡ BLOCK_LENGTH };

    /// What reads return is one of the outcomes of a crash now.
    ghost is_outcome: { (d : Self) (k : ℕ) → IsTrue claims → k < size d → may_hold d k (block_at (contents d) k) };

    /// This moment is one of those since an earlier one.
    ghost counts_now: { (d : Self) (t : ℕ) (disk : List (List ℕ)) → IsTrue claims_moments → t ≤ moment d
        → MayLeave (size d) (may_hold d) disk → left_since d t disk };

    /// Since this moment there is no other.
    ghost only_now: { (d : Self) (disk : List (List ℕ)) → IsTrue claims_moments → left_since d (moment d) disk
        → MayLeave (size d) (may_hold d) disk };
}
