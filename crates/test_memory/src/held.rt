//! A device that may hang.
ghost use Rattle.std.specs.Prelude.{[], false};
ghost use Rattle.block_file.specs.Failures.{last_count};

use crate::latch::Latch;
use block_file::{Blocks, DeviceFailed};
use disk_files::FileDevice;
use disk_preparer::{Node, OnDisk};
use std::alloc::Global;
use std::sync::{Arc, Wait};

/// It lies in no file.
const NO_FILE: Node = Node {
    device: 0,
    number: 0,
};

/// The device of a unit, whose writes wait at a latch. Of its contents it claims nothing.
#[derive(Drop)]
pub struct HeldBlocks<B: Blocks, R: Wait + Drop> {
    pub inner: B,
    pub unit: usize,
    pub latch: Arc<Latch<R>, Global>,
}

impl<B: Blocks, R: Wait + Drop> OnDisk for HeldBlocks<B, R> {
    ghost disk = { λ d. record { device = 0; number = 0 } };
}

impl<B: Blocks, R: Wait + Drop> Blocks for HeldBlocks<B, R> {
    ghost claims = { false };

    ghost claims_moments = { false };

    ghost size = { λ d. B.size d.inner };

    ghost contents = { λ d. [] };

    ghost may_hold = { λ d k value. Unit {0} };

    ghost moment = { λ d. 0 };

    ghost left_since = { λ d t disk. Unit {0} };

    ghost reads_failed = { λ d. B.reads_failed d.inner };

    ghost writes_failed = { λ d. B.writes_failed d.inner };

    ghost failures = { λ d. B.failures d.inner };

    ghost fits = { λ d. B.fits d.inner };

    ghost summed = { λ d. B.summed d.inner };

    ghost bounded = { λ d. B.bounded d.inner };

    ghost sized = { λ d h. Prim.cc };

    ghost wide = { λ d k h. Prim.cc };

    ghost is_outcome = { λ d k h lt. tt };

    ghost counts_now = { λ d t disk h. Prim.cc };

    ghost only_now = { λ d disk h. Prim.cc };

    fn count(&self) -> u32 {
        self.inner.count()
    }

    fn read_run(&mut self, first: u32, bytes: &mut [u8]) -> Result<(), DeviceFailed> {
        self.inner.read_run(first, bytes)
    }

    fn write_run(&mut self, first: u32, bytes: &[u8]) -> Result<(), DeviceFailed> {
        self.latch.wait_at(self.unit);
        self.inner.write_run(first, bytes)
    }

    fn flush(&mut self) -> Result<(), DeviceFailed> {
        self.inner.flush()
    }
}

// It lies in no file, and says nothing of one: a count at its end.
impl<B: Blocks, R: Wait + Drop> FileDevice for HeldBlocks<B, R> {
    ghost has_read = { λ disk offset bytes. Unit {0} };

    ghost has_written = { λ disk offset bytes. Unit {0} };

    ghost lasts = { λ disk writes. Unit {0} };

    ghost writes = { λ d. last_count };

    ghost is_lost = { λ d. false };

    fn disk(&self) -> Node {
        NO_FILE
    }

    fn ended_writes(&self) -> u64 {
        u64::MAX
    }

    fn read_of(&mut self, first: u32, bytes: &mut [u8]) -> Result<(), DeviceFailed> {
        self.read_run(first, bytes)
    }

    fn write_of(&mut self, first: u32, bytes: &[u8]) -> Result<(), DeviceFailed> {
        self.write_run(first, bytes)
    }

    fn flush_of(&mut self) -> Result<(), DeviceFailed> {
        self.flush()
    }
}
