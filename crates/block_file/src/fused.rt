//! A device that fails from a call on, for tests.
ghost use Rattle.std.specs.Prelude.{◌≡◌, ◌+◌, ◌/◌, ◌<◌, ◌≤◌, min, length, IsTrue, IsErr, OnOk, true, false};
ghost use Rattle.std.proofs.Common.{arith};
ghost use Rattle.block_file.specs.declared.blocks.TheConstants.{BLOCK_LENGTH};
ghost use Rattle.block_file.specs.Cut.{run_of, IsRun};
ghost use Rattle.block_file.specs.Disk.{written, range_bytes, Between, NoMore, Adds, Only};
ghost use Rattle.block_file.specs.Moment.{TimePasses};
ghost use Rattle.block_file.specs.Failures.{Counts, last_count};
ghost use Rattle.block_file.specs.Fuse.{intact, windowed, passes, one_fewer};
ghost use Rattle.block_file.specs.Fuse.{all_failures, all_reads_failed, all_writes_failed};
ghost use Rattle.block_file.specs.Fuse.{Passes, FailsRead, FailsWrite, Lands};

use crate::{BLOCK_LENGTH, Blocks, DeviceFailed};
use std::marker::Model;

/// A device that passes on some calls of read, write and flush, and fails each one after them, or only some of these.
#[derive(Drop)]
pub struct FusedBlocks<B: Blocks> {
    inner: B,
    left: u64,
    // How many calls are to fail then: each one where there is no number.
    fails: Option<u64>,
    lands: u32,
    failed_reads: u64,
    failed_writes: u64,
}

impl<B: Blocks> Model for FusedBlocks<B> {
    ghost use Rattle.block_file.specs.Fuse.{Fuse};

    ghost Value = { Fuse B };

    ghost view = { λ d. record {
      inner = d.inner;
      left = d.left;
      fails = d.fails;
      lands = d.lands;
      failed_reads = d.failed_reads;
      failed_writes = d.failed_writes;
    } };
}

impl<B: Blocks> FusedBlocks<B> {
    /// Passes on `calls` calls, then fails each without reaching the device.
    pub fn new(inner: B, calls: u64) -> Self
        ensures { result ≡ intact inner calls 0 }
    {
        FusedBlocks::inside(inner, calls, 0)
    }

    /// As `new`, but where the first call that fails is a write, the first `blocks` blocks of its run are written.
    pub fn inside(inner: B, calls: u64, blocks: u32) -> Self
        ensures { result ≡ intact inner calls blocks }
    {
        FusedBlocks {
            inner,
            left: calls,
            fails: None,
            lands: blocks,
            failed_reads: 0,
            failed_writes: 0,
        }
    }

    /// Passes on `calls` calls, then fails so many, as `new` does, and passes on each one behind them.
    pub fn window(inner: B, calls: u64, fails: u64) -> Self
        ensures { result ≡ windowed inner calls fails }
    {
        FusedBlocks {
            inner,
            left: calls,
            fails: Some(fails),
            lands: 0,
            failed_reads: 0,
            failed_writes: 0,
        }
    }

    // Whether the next call is passed on.
    fn passes(&self) -> bool
        ensures { result ≡ passes self.now }
    {
        self.left > 0 || self.fails == Some(0)
    }

    /// The device, without the fuse.
    pub fn into_inner(self) -> B
        ensures { result ≡ self.inner }
    {
        let FusedBlocks { inner, .. } = self;
        inner
    }
}

impl<B: Blocks> Blocks for FusedBlocks<B> {
    ghost claims = { B.claims };

    ghost claims_moments = { B.claims_moments };

    ghost size = { λ d. B.size d.inner };

    ghost contents = { λ d. B.contents d.inner };

    ghost may_hold = { λ d. B.may_hold d.inner };

    ghost moment = { λ d. B.moment d.inner };

    ghost left_since = { λ d. B.left_since d.inner };

    ghost reads_failed = { λ d. all_reads_failed B.reads_failed d };

    ghost writes_failed = { λ d. all_writes_failed B.writes_failed d };

    ghost failures = { λ d. all_failures B.failures d };

    ghost fits = { λ d. B.fits d.inner };

    ghost summed = { λ d. Prim.omega (arith, B.summed d.inner) };

    ghost bounded = { λ d. Prim.omega arith };

    ghost sized = { λ d. B.sized d.inner };

    ghost wide = { λ d. B.wide d.inner };

    ghost is_outcome = { λ d. B.is_outcome d.inner };

    ghost counts_now = { λ d. B.counts_now d.inner };

    ghost only_now = { λ d. B.only_now d.inner };

    fn count(&self) -> u32 {
        self.inner.count()
    }

    fn read_run(&mut self, first: u32, bytes: &mut [u8]) -> Result<(), DeviceFailed>
        requires { IsRun (B.size self.old.inner) first (length bytes.old) }
        ensures size { B.size self.new.inner ≡ B.size self.old.inner }
        ensures read { IsTrue B.claims → OnOk result
            (bytes.new ≡ range_bytes (B.contents self.old.inner) first (length bytes.old / BLOCK_LENGTH)) }
        ensures contents { IsTrue B.claims → B.contents self.new.inner ≡ B.contents self.old.inner }
        ensures crash { IsTrue B.claims → NoMore (B.may_hold self.old.inner) (B.may_hold self.new.inner) }
        ensures time { IsTrue B.claims_moments
            → TimePasses B.moment B.left_since B.size B.may_hold self.old.inner self.new.inner }
        ensures failures { Counts (all_failures B.failures self.old) (all_failures B.failures self.new) result }
        ensures failed_reads { Counts
            (all_reads_failed B.reads_failed self.old) (all_reads_failed B.reads_failed self.new) result }
        ensures failed_writes { all_writes_failed B.writes_failed self.new ≡ all_writes_failed B.writes_failed self.old }
        ensures passed { passes self.old ≡ true → Passes B.failures self.old self.new result }
        ensures failed { passes self.old ≡ false → FailsRead self.old self.new result }
        ensures unreached { passes self.old ≡ false → self.new.inner ≡ self.old.inner }
    {
        if self.passes() {
            self.left = self.left.saturating_sub(1);
            return self.inner.read_run(first, bytes);
        }
        self.lands = 0;
        spend(&mut self.fails);
        refused(&mut self.failed_reads)
    }

    fn write_run(&mut self, first: u32, bytes: &[u8]) -> Result<(), DeviceFailed>
        requires { IsRun (B.size self.old.inner) first (length bytes.now) }
        ensures size { B.size self.new.inner ≡ B.size self.old.inner }
        ensures written { IsTrue B.claims → OnOk result
            (B.contents self.new.inner ≡ written (B.contents self.old.inner) first (run_of bytes.now)) }
        ensures torn { IsTrue B.claims
            → Between (B.contents self.old.inner) first (run_of bytes.now) (B.contents self.new.inner) }
        ensures crash { IsTrue B.claims
            → Adds first (run_of bytes.now) (B.may_hold self.old.inner) (B.may_hold self.new.inner) }
        ensures time { IsTrue B.claims_moments
            → TimePasses B.moment B.left_since B.size B.may_hold self.old.inner self.new.inner }
        ensures failures { Counts (all_failures B.failures self.old) (all_failures B.failures self.new) result }
        ensures failed_reads { all_reads_failed B.reads_failed self.new ≡ all_reads_failed B.reads_failed self.old }
        ensures failed_writes { Counts
            (all_writes_failed B.writes_failed self.old) (all_writes_failed B.writes_failed self.new) result }
        ensures passed { passes self.old ≡ true → Passes B.failures self.old self.new result }
        ensures failed { passes self.old ≡ false → FailsWrite self.old self.new result }
        ensures unreached { passes self.old ≡ false → self.old.lands ≡ 0 → self.new.inner ≡ self.old.inner }
        ensures landed { passes self.old ≡ false → IsTrue B.claims
            → Lands B.failures B.contents self.old.inner self.new.inner self.old.lands first bytes.now }
    {
        if self.passes() {
            self.left = self.left.saturating_sub(1);
            return self.inner.write_run(first, bytes);
        }
        land(&mut self.inner, first, bytes, self.lands);
        self.lands = 0;
        spend(&mut self.fails);
        refused(&mut self.failed_writes)
    }

    fn flush(&mut self) -> Result<(), DeviceFailed>
        ensures size { B.size self.new.inner ≡ B.size self.old.inner }
        ensures contents { IsTrue B.claims → B.contents self.new.inner ≡ B.contents self.old.inner }
        ensures durable { IsTrue B.claims → OnOk result (Only (B.contents self.old.inner) (B.may_hold self.new.inner)) }
        ensures crash { IsTrue B.claims → NoMore (B.may_hold self.old.inner) (B.may_hold self.new.inner) }
        ensures time { IsTrue B.claims_moments
            → TimePasses B.moment B.left_since B.size B.may_hold self.old.inner self.new.inner }
        ensures failures { Counts (all_failures B.failures self.old) (all_failures B.failures self.new) result }
        ensures failed_reads { all_reads_failed B.reads_failed self.new ≡ all_reads_failed B.reads_failed self.old }
        ensures failed_writes { Counts
            (all_writes_failed B.writes_failed self.old) (all_writes_failed B.writes_failed self.new) result }
        ensures passed { passes self.old ≡ true → Passes B.failures self.old self.new result }
        ensures failed { passes self.old ≡ false → FailsWrite self.old self.new result }
        ensures unreached { passes self.old ≡ false → self.new.inner ≡ self.old.inner }
    {
        if self.passes() {
            self.left = self.left.saturating_sub(1);
            return self.inner.flush();
        }
        self.lands = 0;
        spend(&mut self.fails);
        refused(&mut self.failed_writes)
    }
}

// One call fewer is to fail.
fn spend(fails: &mut Option<u64>)
    ensures { fails.new ≡ one_fewer fails.old }
{
    *fails = match *fails {
        None => None,
        Some(fails) => Some(fails.saturating_sub(1)),
    };
}

// Counts a call that the fuse fails.
fn refused(failed: &mut u64) -> Result<(), DeviceFailed>
    ensures err { IsErr result }
    ensures count { failed.new ≡ min (failed.old + 1) last_count }
{
    *failed = failed.saturating_add(1);
    Err(DeviceFailed)
}

// Writes the first blocks of a run, so many or all.
fn land<B: Blocks>(device: &mut B, first: u32, bytes: &[u8], lands: u32)
    requires { IsRun (B.size device.old) first (length bytes.now) }
    ensures size { B.size device.new ≡ B.size device.old }
    ensures none { lands ≡ 0 → device.new ≡ device.old }
    ensures landed { IsTrue B.claims
        → Lands B.failures B.contents device.old device.new lands first bytes.now }
    ensures torn { IsTrue B.claims
        → Between (B.contents device.old) first (run_of bytes.now) (B.contents device.new) }
    ensures crash { IsTrue B.claims → Adds first (run_of bytes.now) (B.may_hold device.old) (B.may_hold device.new) }
    ensures time { IsTrue B.claims_moments → TimePasses B.moment B.left_since B.size B.may_hold device.old device.new }
    ensures failures { B.failures device.old ≤ B.failures device.new }
    ensures failed_reads { B.reads_failed device.new ≡ B.reads_failed device.old }
    ensures failed_writes { B.writes_failed device.old ≤ B.writes_failed device.new }
{
    let blocks = (lands as usize).min(bytes.len() / BLOCK_LENGTH);
    if blocks > 0 {
        let _ = device.write_run(first, &bytes[..BLOCK_LENGTH * blocks]);
    }
}
