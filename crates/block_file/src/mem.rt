//! A device in memory, whose calls never fail.
ghost use Rattle.std.specs.Prelude.{◌≡◌, ◌<◌, ◌≤◌, ◌+◌, ◌*◌, ◌/◌, ◌^◌, ◌++◌, length, take, drop, replicate};
ghost use Rattle.std.specs.Prelude.{true, false, refl, IfOk, IsOk};
ghost use Rattle.std.proofs.Common.{arith};
ghost use Rattle.block_file.specs.declared.blocks.TheConstants.{BLOCK_LENGTH};
ghost use Rattle.block_file.specs.Cut.{cut, run_of, IsRun};
ghost use Rattle.block_file.specs.CutLaws.{length-cut_at, length-cut};
ghost use Rattle.block_file.specs.Disk.{block_at, written, range_bytes, Between, Adds};

use crate::{BLOCK_LENGTH, Blocks, DeviceFailed};
use std::alloc::{AllocError, Global};

/// Blocks in memory. Each write is done at once, so a crash leaves what is there, and no call fails.
#[derive(Drop)]
pub struct MemBlocks {
    bytes: Vec<u8>,
    count: u32,
    ghost whole: { length bytes.items ≡ BLOCK_LENGTH * count },
    ghost fits: { count < 2 ^ 32 },
}

impl MemBlocks {
    /// So many blocks of zeros.
    pub fn new(alloc: Global, count: u32) -> Result<MemBlocks, AllocError>
        ensures size { IfOk result (λ d. ⟦<MemBlocks as Blocks>⟧.size d ≡ count) }
        ensures zeros { IfOk result (λ d.
            ⟦<MemBlocks as Blocks>⟧.contents d ≡ replicate count (replicate BLOCK_LENGTH 0)) }
    {
        let bytes = vec![in alloc; 0u8; BLOCK_LENGTH * count as usize]?;
        Ok(MemBlocks { bytes, count })
    }
}

impl Blocks for MemBlocks {
    ghost claims = { true };

    ghost claims_moments = { false };

    ghost size = { λ d. d.count };

    ghost contents = { λ d. cut d.count d.bytes.items };

    ghost may_hold = { λ d k value. value ≡ block_at (cut d.count d.bytes.items) k };

    ghost moment = { λ d. 0 };

    ghost left_since = { λ d t disk. Unit {0} };

    ghost reads_failed = { λ d. 0 };

    ghost writes_failed = { λ d. 0 };

    ghost failures = { λ d. 0 };

    ghost fits = { λ d. d.fits };

    ghost summed = { λ d. refl };

    ghost bounded = { λ d. Prim.omega arith };

    ghost sized = { λ d h. length-cut d.count d.bytes.items };

    ghost wide = { λ d k h. length-cut_at d.count d.bytes.items k d.whole };

    ghost is_outcome = { λ d k h lt. refl };

    ghost counts_now = { λ d t disk h. Prim.search };

    ghost only_now = { λ d disk h. Prim.cc };

    fn count(&self) -> u32 {
        self.count
    }

    fn read_run(&mut self, first: u32, bytes: &mut [u8]) -> Result<(), DeviceFailed>
        requires { IsRun (⟦<MemBlocks as Blocks>⟧.size self.old) first (length bytes.old) }
        ensures ok { IsOk result }
        ensures unchanged { self.new ≡ self.old }
        ensures read { bytes.new
            ≡ range_bytes (⟦<MemBlocks as Blocks>⟧.contents self.old) first (length bytes.old / BLOCK_LENGTH) }
    {
        let from = BLOCK_LENGTH * first as usize;
        bytes.copy_from_slice(&self.bytes[from..from + bytes.len()]);
        Ok(())
    }

    fn write_run(&mut self, first: u32, bytes: &[u8]) -> Result<(), DeviceFailed>
        requires { IsRun (⟦<MemBlocks as Blocks>⟧.size self.old) first (length bytes.now) }
        ensures ok { IsOk result }
        ensures size { ⟦<MemBlocks as Blocks>⟧.size self.new ≡ ⟦<MemBlocks as Blocks>⟧.size self.old }
        ensures written { ⟦<MemBlocks as Blocks>⟧.contents self.new
            ≡ written (⟦<MemBlocks as Blocks>⟧.contents self.old) first (run_of bytes.now) }
        ensures torn { Between (⟦<MemBlocks as Blocks>⟧.contents self.old) first (run_of bytes.now)
            (⟦<MemBlocks as Blocks>⟧.contents self.new) }
        ensures crash { Adds first (run_of bytes.now) (⟦<MemBlocks as Blocks>⟧.may_hold self.old)
            (⟦<MemBlocks as Blocks>⟧.may_hold self.new) }
    {
        put(&mut self.bytes, BLOCK_LENGTH * first as usize, bytes);
        Ok(())
    }

    fn flush(&mut self) -> Result<(), DeviceFailed>
        ensures ok { IsOk result }
        ensures unchanged { self.new ≡ self.old }
    {
        // Each write is done when it answers.
        Ok(())
    }
}

// Writes bytes over those from a place on.
fn put(bytes: &mut Vec<u8>, from: usize, part: &[u8])
    requires { from + length part.now ≤ length bytes.old.items }
    ensures { bytes.new.items
        ≡ take from bytes.old.items ++ (part.now ++ drop (from + length part.now) bytes.old.items) }
{
    bytes[from..from + part.len()].copy_from_slice(part);
}
