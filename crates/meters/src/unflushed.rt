//! What is counted of what was written to a disk and is not flushed.

use std::sync::atomic::{AtomicU64, Ordering};

/// What was seen of it.
#[derive(Clone, Copy)]
pub struct Unflushed {
    /// Bytes that were written and are not known to be flushed, and how many there may be.
    pub bytes: u64,
    pub bound: u64,
    /// Commands that waited before they wrote, and for how many microseconds together.
    pub waits: u64,
    pub waited_micros: u64,
    /// Flushes that no command asked for.
    pub own_flushes: u64,
}

/// The same, where many threads count and none waits for another.
#[derive(Drop)]
pub struct UnflushedTally {
    bytes: AtomicU64,
    bound: AtomicU64,
    waits: AtomicU64,
    waited_micros: AtomicU64,
    own_flushes: AtomicU64,
}

impl UnflushedTally {
    /// Of a disk to which nothing was written.
    pub(crate) fn none() -> UnflushedTally {
        UnflushedTally {
            bytes: AtomicU64::new(0),
            bound: AtomicU64::new(0),
            waits: AtomicU64::new(0),
            waited_micros: AtomicU64::new(0),
            own_flushes: AtomicU64::new(0),
        }
    }

    /// So many bytes are not flushed now, and so many may be.
    pub fn stand(&self, bytes: u64, bound: u64) {
        self.bytes.store(bytes, Ordering::Relaxed);
        self.bound.store(bound, Ordering::Relaxed);
    }

    /// A command has waited for so many microseconds.
    pub fn wait(&self, micros: u64) {
        self.waits.fetch_add(1, Ordering::Relaxed);
        self.waited_micros.fetch_add(micros, Ordering::Relaxed);
    }

    /// A flush begins that no command asked for.
    pub fn flush(&self) {
        self.own_flushes.fetch_add(1, Ordering::Relaxed);
    }

    /// What is seen of it.
    pub(crate) fn seen(&self) -> Unflushed {
        Unflushed {
            bytes: self.bytes.load(Ordering::Relaxed),
            bound: self.bound.load(Ordering::Relaxed),
            waits: self.waits.load(Ordering::Relaxed),
            waited_micros: self.waited_micros.load(Ordering::Relaxed),
            own_flushes: self.own_flushes.load(Ordering::Relaxed),
        }
    }
}
