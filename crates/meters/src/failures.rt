//! Calls that failed: how many, since when, by which error, and whether what they told is over.

use events::Place;
use std::sync::atomic::{AtomicU64, Ordering};

/// How often is tried to say that failures are over, where others say so at the same time.
const TRIES: u32 = 16;

/// So many runs of blocks that could not be read are known apart: a disk that dies has bad blocks at many places.
const RUNS: usize = 64;

/// What the first block of a run is multiplied by where their count stands beside it.
const COUNTS: u64 = 1 << 32;

/// What was seen of calls of one kind that failed. Times are microseconds of the clock that never goes back.
#[derive(Clone, Copy)]
pub struct Failures {
    /// How many failed, and how many of them are not over.
    pub count: u64,
    pub lasting: u64,
    /// Nothing has gone well since the last of them.
    pub is_now: bool,
    /// When the first one failed since all was well, and when the last one did.
    pub began: u64,
    pub last: u64,
    /// When it went well again, where it did.
    pub ended: u64,
    /// The system's error of the last one, 0 where it told none.
    pub error: u32,
}

/// Calls of one kind on one file that failed. Many threads count here, and none waits for another.
#[derive(Drop)]
pub(crate) struct Tally {
    // How many failed, and how many of them are over.
    count: AtomicU64,
    over: AtomicU64,
    began: AtomicU64,
    last: AtomicU64,
    ended: AtomicU64,
    error: AtomicU64,
    // The blocks of those that are not over, a run at a place: the first one times 2^32, and how many; 0: none.
    runs: [AtomicU64; RUNS],
    // Of those for which there is no place, the first block, and the one behind them all; 0: there are none.
    first: AtomicU64,
    behind: AtomicU64,
}

// What is left of the blocks from one on to another, those from `from` on to `to` being read.
fn left_of(first: u64, behind: u64, from: u64, to: u64) -> (u64, u64) {
    if from <= first {
        (first.max(to).min(behind), behind)
    } else if to >= behind {
        (first, behind.min(from))
    } else {
        (first, behind)
    }
}

// What is left of a run, as it stands at its place.
fn run_left(run: u64, from: u64, to: u64) -> u64 {
    let (first, count) = (run / COUNTS, run % COUNTS);
    let (first, behind) = left_of(first, first.saturating_add(count), from, to);
    match behind.saturating_sub(first) {
        0 => 0,
        count => first.wrapping_mul(COUNTS) | count,
    }
}

impl Tally {
    /// Of no call.
    pub(crate) fn none() -> Tally {
        Tally {
            count: AtomicU64::new(0),
            over: AtomicU64::new(0),
            began: AtomicU64::new(0),
            last: AtomicU64::new(0),
            ended: AtomicU64::new(0),
            error: AtomicU64::new(0),
            runs: [0; RUNS].map(AtomicU64::new),
            first: AtomicU64::new(u64::MAX),
            behind: AtomicU64::new(0),
        }
    }

    // Knows of no block.
    fn forget(&self) {
        for run in &self.runs {
            run.store(0, Ordering::Relaxed);
        }
        self.first.store(u64::MAX, Ordering::Relaxed);
        self.behind.store(0, Ordering::Relaxed);
    }

    // Notes the blocks of a call: at a place where they stand already, or where nothing does; else among those that have none.
    fn note(&self, place: Place) {
        let first = u64::from(place.first);
        let count = u64::from(place.count.max(1));
        let noted = first.wrapping_mul(COUNTS) | count;
        for run in &self.runs {
            match run.compare_exchange(0, noted, Ordering::AcqRel, Ordering::Acquire) {
                Ok(_) => return,
                Err(there) if there == noted => return,
                Err(_) => {}
            }
        }
        let _ = self.first.fetch_min(first, Ordering::Relaxed);
        let _ = self
            .behind
            .fetch_max(first.saturating_add(count), Ordering::Relaxed);
    }

    /// A call failed at this time, at these blocks, with this error.
    pub(crate) fn fail(&self, now: u64, place: Place, error: u32) {
        if !self.is_now() {
            self.began.store(now, Ordering::Relaxed);
            self.forget();
        }
        self.note(place);
        self.last.store(now, Ordering::Relaxed);
        self.error.store(u64::from(error), Ordering::Relaxed);
        let _ = self.count.fetch_add(1, Ordering::Release);
    }

    /// How many failed.
    pub(crate) fn count(&self) -> u64 {
        self.count.load(Ordering::Acquire)
    }

    /// Whether nothing has gone well since the last of them.
    pub(crate) fn is_now(&self) -> bool {
        self.over.load(Ordering::Acquire) < self.count()
    }

    // What of the blocks at each place is left, these being read: whether nothing is.
    fn runs_are_read(&self, from: u64, to: u64) -> bool {
        let mut are_read = true;
        for run in &self.runs {
            let now = run.load(Ordering::Acquire);
            let left = run_left(now, from, to);
            // most places hold none of these blocks, and are left to who else reads
            let is_left = left == now
                || run
                    .compare_exchange(now, left, Ordering::AcqRel, Ordering::Acquire)
                    .is_ok();
            are_read = are_read && left == 0 && is_left;
        }
        are_read
    }

    // What is left from the first to the last of the blocks for which there was no place, these being read: whether nothing is.
    fn others_are_read(&self, from: u64, to: u64) -> bool {
        let first = self.first.load(Ordering::Acquire);
        let behind = self.behind.load(Ordering::Acquire);
        if behind == 0 {
            return true;
        }
        let (left, end) = match left_of(first, behind, from, to) {
            (left, end) if left < end => (left, end),
            _ => (u64::MAX, 0),
        };
        let begins = self
            .first
            .compare_exchange(first, left, Ordering::AcqRel, Ordering::Acquire);
        let ends = self
            .behind
            .compare_exchange(behind, end, Ordering::AcqRel, Ordering::Acquire);
        end == 0 && begins.is_ok() && ends.is_ok()
    }

    /// These blocks were read: whether all blocks of those that are not over were by now.
    pub(crate) fn are_read(&self, place: Place) -> bool {
        let from = u64::from(place.first);
        let to = from.saturating_add(u64::from(place.count));
        let are_read = self.runs_are_read(from, to);
        self.others_are_read(from, to) && are_read
    }

    /// At this time the first so many of them are over.
    pub(crate) fn end(&self, now: u64, count: u64) {
        for _ in 0..TRIES {
            let over = self.over.load(Ordering::Acquire);
            if over >= count {
                return;
            }
            let swapped = self
                .over
                .compare_exchange(over, count, Ordering::AcqRel, Ordering::Acquire);
            if swapped.is_ok() {
                self.ended.store(now, Ordering::Relaxed);
                return;
            }
        }
    }

    /// What is seen of them.
    pub(crate) fn seen(&self) -> Failures {
        let error = self.error.load(Ordering::Relaxed);
        let over = self.over.load(Ordering::Acquire);
        let count = self.count();
        Failures {
            count,
            lasting: count.saturating_sub(over),
            is_now: over < count,
            began: self.began.load(Ordering::Relaxed),
            last: self.last.load(Ordering::Relaxed),
            ended: self.ended.load(Ordering::Relaxed),
            error: u32::try_from(error).unwrap_or(0),
        }
    }
}
