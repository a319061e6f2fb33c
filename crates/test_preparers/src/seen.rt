//! A disk in no file, which counts what it is asked and stands still when it is told to: what is seen of it, and its preparer.
ghost use Rattle.std.specs.Prelude.{true};

use disk_preparer::{BlockMemory, Preparer};
use std::alloc::Global;
use std::process::Abort;
use std::sync::Arc;
use std::sync::atomic::{AtomicU64, Ordering};
use std::thread;
use std::time::{Clock, Duration};

/// So often one looks for what another thread does, a millisecond each.
pub const TRIES: u64 = 10_000;

/// The serial of a command for which the preparer wants blocks.
const WANTED: u64 = 7;

/// For how many milliseconds a call of a disk stands still, and how often it was asked for each; and how often it was to look how long a
/// read takes, and the block of the last one of these.
pub struct Seen {
    stands: AtomicU64,
    wants: AtomicU64,
    fetches: AtomicU64,
    pub reads: AtomicU64,
    pub writes: AtomicU64,
    pub flushes: AtomicU64,
    looks: AtomicU64,
    looked_at: AtomicU64,
}

impl Drop for Seen {
    fn drop(self) {
        let Self {
            stands: _,
            wants: _,
            fetches: _,
            reads: _,
            writes: _,
            flushes: _,
            looks: _,
            looked_at: _,
        } = self;
    }
}

impl Seen {
    /// Nothing yet.
    pub fn nothing(rt: &impl Abort, alloc: Global) -> Arc<Seen, Global> {
        let seen = Seen {
            stands: AtomicU64::new(0),
            wants: AtomicU64::new(0),
            fetches: AtomicU64::new(0),
            reads: AtomicU64::new(0),
            writes: AtomicU64::new(0),
            flushes: AtomicU64::new(0),
            looks: AtomicU64::new(0),
            looked_at: AtomicU64::new(0),
        };
        Arc::new(alloc, seen).expect(rt, "memory")
    }

    /// Counts a call, which comes back when the disk does not stand still.
    pub fn call<R: Clock>(&self, rt: &R, count: &AtomicU64) {
        count.fetch_add(1, Ordering::AcqRel);
        for tried in 0..TRIES {
            if tried >= self.stands.load(Ordering::Acquire) {
                break;
            }
            thread::sleep(rt, Duration::from_millis(1));
        }
    }

    /// From now on the disk stands still for so many milliseconds a call.
    pub fn stand(&self, time: u64) {
        self.stands.store(time, Ordering::Release);
    }

    /// Reads, writes and flushes so far.
    pub fn counts(&self) -> (u64, u64, u64) {
        (
            self.reads.load(Ordering::Acquire),
            self.writes.load(Ordering::Acquire),
            self.flushes.load(Ordering::Acquire),
        )
    }

    /// How often the preparer was asked what it wants, and to fetch, and to flush.
    pub fn prepared(&self) -> (u64, u64, u64) {
        (
            self.wants.load(Ordering::Acquire),
            self.fetches.load(Ordering::Acquire),
            self.flushes.load(Ordering::Acquire),
        )
    }

    /// How often a read was to be looked at, and the block of the last one of these, where there were so many reads.
    pub fn looks_of(&self, reads: u64) -> Option<(u64, u64)> {
        if self.reads.load(Ordering::Acquire) != reads {
            return None;
        }
        Some((
            self.looks.load(Ordering::Relaxed),
            self.looked_at.load(Ordering::Relaxed),
        ))
    }
}

/// The preparer of such a disk, which reads nothing. It flushes or does not, and its flushes are done or fail.
#[derive(Drop)]
pub struct SeeingPreparer {
    pub rt: HostRuntime,
    pub seen: Arc<Seen, Global>,
    pub flushes: bool,
    pub is_done: bool,
}

impl Preparer for SeeingPreparer {
    ghost may_flush = { true };

    ghost disk = { λ p. record { device = 0; number = 0 } };

    ghost has_flushed = { λ disk. Unit {0} };

    fn wants_hints(&self) -> bool {
        false
    }

    fn advise(&self, _first: u64, _blocks: u16) {}

    fn advise_edges(&self, _first: u64, _blocks: u16) {}

    fn wants(&self, serial: u64) -> bool {
        self.seen.call(&self.rt, &self.seen.wants);
        serial == WANTED
    }

    fn fetch(&self, _first: u64, _blocks: u16) {
        self.seen.call(&self.rt, &self.seen.fetches);
    }

    fn fetch_edges(&self, _first: u64, _blocks: u16) {}

    fn read(&self, first: u64, bytes: Vec<u8>, is_looked_at: bool) -> Option<BlockMemory> {
        if is_looked_at {
            self.seen.looks.fetch_add(1, Ordering::Relaxed);
            self.seen.looked_at.store(first, Ordering::Relaxed);
        }
        self.seen.call(&self.rt, &self.seen.reads);
        Some(BlockMemory::fresh(bytes))
    }

    fn flushes(&self) -> bool {
        self.flushes
    }

    fn flush(&self) -> bool {
        self.seen.call(&self.rt, &self.seen.flushes);
        self.is_done
    }
}

/// Once more what is seen of a disk.
pub fn share(rt: &impl Abort, seen: &Arc<Seen, Global>) -> Arc<Seen, Global> {
    Arc::try_clone(seen).expect(rt, "memory")
}
