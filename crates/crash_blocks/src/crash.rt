//! A device whose loss of power can be tried.
ghost use Rattle.std.specs.Prelude.{◌≡◌, ◌<◌, ◌*◌, length, true, ℕ, reverse, min, IfOk, IsTrue};
ghost use Rattle.std.proofs.Common.{arith};
ghost use Rattle.block_file.specs.declared.blocks.TheConstants.{BLOCK_LENGTH};
ghost use Rattle.block_file.specs.Cut.{cut};
ghost use Rattle.block_file.specs.CutLaws.{length-cut, length-cut_at};
ghost use Rattle.block_file.specs.Disk.{block_at, MayLeave, Only};
ghost use Rattle.block_file.specs.Failures.{last_count};
ghost use Rattle.crash_blocks.specs.Events.{Held, LeftSince, IsWrite, contents_of, runs_fit};
ghost use Rattle.crash_blocks.specs.Moments.{now_counts, now_only, held_now};
ghost use Rattle.crash_blocks.specs.Values.{IsPicked};

use crate::Pick;
use crate::event::Event;
use crate::pick::left_of;
use block_file::{BLOCK_LENGTH, Blocks, DeviceFailed, MemBlocks};
use std::alloc::{AllocError, Global};

/// Blocks in memory of which a crash takes back what was not flushed: each block then holds one of the values that it
/// had since the last flush that was done, that one included (SBC-3, caches).
///
/// It keeps a list of its writes and flushes. A write or a flush for which there is no memory in the list fails.
#[derive(Drop)]
pub struct CrashBlocks {
    alloc: Global,
    inner: MemBlocks,
    start: Vec<u8>,
    events: Vec<Event>,
    failed: u64,
    ghost is: { ⟦<MemBlocks as Blocks>⟧.contents inner
        ≡ contents_of (cut (⟦<MemBlocks as Blocks>⟧.size inner) start.items) (reverse events.items) },
    ghost long: { length start.items ≡ BLOCK_LENGTH * ⟦<MemBlocks as Blocks>⟧.size inner },
    ghost runs: { IsTrue (runs_fit (⟦<MemBlocks as Blocks>⟧.size inner) (reverse events.items)) },
}

impl CrashBlocks {
    /// A device of the blocks of this one, as after a flush.
    pub fn new(alloc: Global, mut inner: MemBlocks) -> Result<CrashBlocks, AllocError>
        ensures size { IfOk result (λ d. ⟦<CrashBlocks as Blocks>⟧.size d ≡ ⟦<MemBlocks as Blocks>⟧.size inner) }
        ensures contents { IfOk result (λ d.
            ⟦<CrashBlocks as Blocks>⟧.contents d ≡ ⟦<MemBlocks as Blocks>⟧.contents inner) }
        ensures lasts { IfOk result (λ d. Only (⟦<MemBlocks as Blocks>⟧.contents inner)
            (⟦<CrashBlocks as Blocks>⟧.may_hold d)) }
    {
        let start = bytes_of(alloc, &mut inner)?;
        Ok(CrashBlocks {
            alloc,
            inner,
            start,
            events: Vec::new(alloc),
            failed: 0,
        })
    }

    /// What a crash leaves of it: of each block the value that is picked among those that it had since the last flush that
    /// was done, that one included.
    pub fn crash(self, pick: Pick) -> MemBlocks
        ensures size { ⟦<MemBlocks as Blocks>⟧.size result ≡ ⟦<CrashBlocks as Blocks>⟧.size self }
        ensures outcome { MayLeave (⟦<CrashBlocks as Blocks>⟧.size self) (⟦<CrashBlocks as Blocks>⟧.may_hold self)
            (⟦<MemBlocks as Blocks>⟧.contents result) }
        ensures newest { pick ≡ Pick.Newest → (k : ℕ) → k < ⟦<CrashBlocks as Blocks>⟧.size self
            → block_at (⟦<MemBlocks as Blocks>⟧.contents result) k ≡ block_at (⟦<CrashBlocks as Blocks>⟧.contents self) k }
        ensures picked { IsPicked pick (⟦<CrashBlocks as Blocks>⟧.size self)
            (cut (⟦<CrashBlocks as Blocks>⟧.size self) self.start.items) (reverse self.events.items)
            (⟦<MemBlocks as Blocks>⟧.contents result) }
    {
        let CrashBlocks {
            mut inner,
            start,
            events,
            ..
        } = self;
        for k in 0..inner.count() {
            let left = left_of(&start, &events, k, pick);
            let _ = inner.write_run(k, &left);
        }
        inner
    }
}

// The bytes of all blocks.
fn bytes_of(alloc: Global, device: &mut MemBlocks) -> Result<Vec<u8>, AllocError>
    ensures device { device.new ≡ device.old }
    ensures long { IfOk result (λ bytes. length bytes.items ≡ BLOCK_LENGTH * ⟦<MemBlocks as Blocks>⟧.size device.old) }
    ensures contents { IfOk result (λ bytes. ⟦<MemBlocks as Blocks>⟧.contents device.old
        ≡ cut (⟦<MemBlocks as Blocks>⟧.size device.old) bytes.items) }
{
    let mut bytes = vec![in alloc; 0u8; BLOCK_LENGTH * device.count() as usize]?;
    let _ = device.read_run(0, &mut bytes);
    Ok(bytes)
}

// The event of a write.
fn write_event(alloc: Global, first: u32, bytes: &[u8]) -> Result<Event, AllocError>
    ensures { IfOk result (λ event. IsWrite event first bytes.now) }
{
    Ok(Event::Write {
        first,
        bytes: bytes.to_vec(alloc)?,
    })
}

impl Blocks for CrashBlocks {
    ghost claims = { true };

    ghost claims_moments = { true };

    ghost size = { λ d. ⟦<MemBlocks as Blocks>⟧.size d.inner };

    ghost contents = { λ d. ⟦<MemBlocks as Blocks>⟧.contents d.inner };

    ghost may_hold = { λ d. Held (cut d.inner.count d.start.items) (reverse d.events.items) };

    ghost moment = { λ d. length d.events.items };

    ghost left_since = { λ d. LeftSince d.inner.count (cut d.inner.count d.start.items) d.events.items };

    ghost reads_failed = { λ d. 0 };

    ghost writes_failed = { λ d. min d.failed last_count };

    ghost failures = { λ d. min d.failed last_count };

    ghost fits = { λ d. d.inner.fits };

    ghost summed = { λ d. Prim.omega arith };

    ghost bounded = { λ d. Prim.omega arith };

    ghost sized = { λ d h. length-cut d.inner.count d.inner.bytes.items };

    ghost wide = { λ d k h. length-cut_at d.inner.count d.inner.bytes.items k d.inner.whole };

    ghost is_outcome = { λ d k h lt. held_now d.inner.count (cut d.inner.count d.start.items) (reverse d.events.items)
        (length-cut d.inner.count d.start.items) d.runs (cut d.inner.count d.inner.bytes.items) d.is k };

    ghost counts_now = { λ d t disk h.
        now_counts d.inner.count (cut d.inner.count d.start.items) d.events.items t disk };

    ghost only_now = { λ d disk h. now_only d.inner.count (cut d.inner.count d.start.items) d.events.items disk };

    fn count(&self) -> u32 {
        self.inner.count()
    }

    fn read_run(&mut self, first: u32, bytes: &mut [u8]) -> Result<(), DeviceFailed> {
        self.inner.read_run(first, bytes)
    }

    fn write_run(&mut self, first: u32, bytes: &[u8]) -> Result<(), DeviceFailed> {
        let Ok(event) = write_event(self.alloc, first, bytes) else {
            self.failed = self.failed.saturating_add(1);
            return Err(DeviceFailed);
        };
        let Ok(()) = self.events.push(event) else {
            self.failed = self.failed.saturating_add(1);
            return Err(DeviceFailed);
        };
        self.inner.write_run(first, bytes)
    }

    fn flush(&mut self) -> Result<(), DeviceFailed> {
        let Ok(()) = self.events.push(Event::Flush) else {
            self.failed = self.failed.saturating_add(1);
            return Err(DeviceFailed);
        };
        self.inner.flush()
    }
}
