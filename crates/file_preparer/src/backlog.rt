//! What was written to a disk and is not flushed yet: how much that may be, when the disk is to be flushed, and for how long a session
//! waits that writes more than the disk does.

use disk_preparer::Account;
use std::sync::Wait;
use std::sync::atomic::{AtomicBool, AtomicU64, Ordering};
use std::time::Duration;

/// So many bytes a disk may have, however slow it is; and so many seconds of what it flushes.
const LEAST: u64 = 64 << 20;

const SECONDS: u64 = 10;

/// What a disk counts as before its first flush: so many bytes a second.
const FIRST_PACE: u64 = LEAST / 5;

/// A disk has a bound of so many bytes, whatever the kernel says.
const SMALLEST: u64 = 1 << 20;

/// Of the bound: so many parts written since a flush began call for the next one; where there are so many the disk is kept, of which
/// flushes are short; and a session that has written one of so many lately does not wait.
const TO_FLUSH: u64 = 16;

const KEPT: u64 = 8;

const SHARES: u64 = 64;

/// Of what the kernel lets all programs write without a wait a part of 4 is for units, so many.
const OF_KERNEL: u64 = 3;

/// A session tells so many bytes at a time.
const TOLD: u64 = 65536;

/// A flush of so many bytes shows how fast the disk is, where they were written within so many microseconds: older ones the system has
/// likely written by itself. While one flush runs into the other it is looked at so many apart at least.
const SHOWS: u64 = 1 << 20;

const RECENT: u64 = 5_000_000;

const APART: u64 = 50_000;

/// A disk counts for so many times as fast as before at most, and for no slower than so many bytes a second.
const FASTER: u64 = 4;

const SLOWEST: u64 = 65536;

/// What nobody waits less for, in microseconds, and what nobody waits longer for at once.
const SHORT: u64 = 1000;

const LONG: u64 = 1_000_000;

/// What stands for a part of one.
const WHOLE: u64 = 1024;

/// The bell: nothing is to be flushed, something is, or nobody flushes any more.
const QUIET: u64 = 0;

const DUE: u64 = 1;

const OVER: u64 = 2;

/// A flush that has begun: how many bytes of writes had ended, and whether those behind the flush before it were written of late, or
/// while that one ran.
#[derive(Clone, Copy)]
pub struct Begun {
    ended: u64,
    is_recent: bool,
}

/// How a flush has ended.
#[derive(Clone, Copy, PartialEq, Eq)]
pub enum FlushEnd {
    /// The disk has made it.
    Made,
    /// There was nothing to make.
    Needless,
    /// It failed.
    Failed,
}

/// What was written to a disk and not flushed, in bytes.
pub struct Backlog {
    // Of writes that have ended; of those that had ended when the last flush began that is done, and when the last one began at all.
    ended: AtomicU64,
    flushed: AtomicU64,
    begun: AtomicU64,
    // How many flushes run; and when one began or ended last.
    running: AtomicU64,
    last: AtomicU64,
    // Since when the disk has flushed without a break, and 0 where none runs; and up to which byte its pace was looked at.
    since: AtomicU64,
    shown: AtomicU64,
    // How often a part of the bound was written, or a flush began alone; and up to which byte that was.
    round: AtomicU64,
    rounded: AtomicU64,
    // What the disk flushes in a second, and what may be unflushed.
    pace: AtomicU64,
    bound: AtomicU64,
    // Whether sessions that write much wait.
    is_full: AtomicBool,
    // How many of them there are since the last flush began, and how many there were before.
    writers: AtomicU64,
    writers_before: AtomicU64,
    bell: AtomicU64,
}

impl Drop for Backlog {
    fn drop(self) {
        let Self {
            ended: _,
            flushed: _,
            begun: _,
            running: _,
            last: _,
            since: _,
            shown: _,
            round: _,
            rounded: _,
            pace: _,
            bound: _,
            is_full: _,
            writers: _,
            writers_before: _,
            bell: _,
        } = self;
    }
}

// Makes a number as great as this one.
fn raise(word: &AtomicU64, number: u64) {
    if word.load(Ordering::Relaxed) < number {
        word.store(number, Ordering::Relaxed);
    }
}

// What is that part of a number which so many of the whole are.
fn part(number: u64, of_whole: u64) -> u64 {
    (number / WHOLE).saturating_mul(of_whole)
}

// Which part of the disk's pace writers have together, where so much of a bound is not flushed: all of it where the disk has what
// it is kept, more below, and none where three quarters are reached.
fn allowed(unflushed: u64, bound: u64) -> u64 {
    let kept = bound / KEPT;
    if unflushed <= kept {
        let free = (kept - unflushed).saturating_mul(3 * WHOLE);
        return WHOLE + free.checked_div(kept).unwrap_or(0);
    }
    let most = bound / 4 * 3;
    let free = most.saturating_sub(unflushed).saturating_mul(WHOLE);
    free.checked_div(most.saturating_sub(kept))
        .unwrap_or(0)
        .max(WHOLE / 16)
}

impl Backlog {
    /// Of a disk to which nothing was written, where the kernel lets programs write so much.
    pub fn new(free: u64) -> Backlog {
        let backlog = Backlog {
            ended: AtomicU64::new(0),
            flushed: AtomicU64::new(0),
            begun: AtomicU64::new(0),
            running: AtomicU64::new(0),
            last: AtomicU64::new(0),
            since: AtomicU64::new(0),
            shown: AtomicU64::new(0),
            round: AtomicU64::new(0),
            rounded: AtomicU64::new(0),
            pace: AtomicU64::new(FIRST_PACE),
            bound: AtomicU64::new(LEAST),
            is_full: AtomicBool::new(false),
            writers: AtomicU64::new(0),
            writers_before: AtomicU64::new(0),
            bell: AtomicU64::new(QUIET),
        };
        backlog.bind(free, 1);
        backlog
    }

    /// Sets the bound of a disk that is one among so many, where the kernel lets programs write so much.
    pub fn bind(&self, free: u64, among: u64) {
        let of_disk = self.pace.load(Ordering::Relaxed).saturating_mul(SECONDS);
        let of_kernel = (free / 4).saturating_mul(OF_KERNEL) / among.max(1);
        let bound = of_disk.max(LEAST).min(of_kernel).max(SMALLEST);
        self.bound.store(bound, Ordering::Relaxed);
        self.settle();
    }

    /// How much of what was written is flushed.
    pub fn flushed(&self) -> u64 {
        self.flushed.load(Ordering::Relaxed)
    }

    /// What has been written and is not known to be flushed.
    pub fn unflushed(&self) -> u64 {
        let flushed = self.flushed();
        self.ended.load(Ordering::Relaxed).saturating_sub(flushed)
    }

    // The same, less what the flush that runs has likely written.
    fn likely_unflushed(&self, now: u64) -> u64 {
        let unflushed = self.unflushed();
        let since = self.since.load(Ordering::Relaxed);
        if since == 0 {
            return unflushed;
        }
        let pace = self.pace.load(Ordering::Relaxed);
        let likely = (pace / 1000).saturating_mul(now.saturating_sub(since)) / 1000;
        let behind = self
            .ended
            .load(Ordering::Relaxed)
            .saturating_sub(self.begun.load(Ordering::Relaxed));
        unflushed.saturating_sub(likely).max(behind)
    }

    // Writes of so many bytes have ended.
    fn tell(&self, bytes: u64) {
        let ended = self
            .ended
            .fetch_add(bytes, Ordering::Relaxed)
            .wrapping_add(bytes);
        let bound = self.bound.load(Ordering::Relaxed);
        if self.is_due() && self.bell.load(Ordering::Relaxed) == QUIET {
            self.ring();
        }
        let flushed = self.flushed.load(Ordering::Relaxed);
        if ended.saturating_sub(flushed) >= bound / 2 && !self.is_full.load(Ordering::Relaxed) {
            self.is_full.store(true, Ordering::Relaxed);
        }
    }

    // Sessions do not wait any more where little is unflushed.
    fn settle(&self) {
        if self.unflushed() < self.bound.load(Ordering::Relaxed) / TO_FLUSH {
            self.is_full.store(false, Ordering::Relaxed);
        }
    }

    /// A session writes so many bytes next. Whether it has to look if it waits.
    pub fn enter(&self, bytes: u64, account: &mut Account) -> bool {
        let told = account.told(TOLD);
        if told > 0 {
            self.tell(told);
        }
        account.writes(self.round.load(Ordering::Relaxed), bytes);
        self.is_full.load(Ordering::Relaxed)
    }

    /// Whether a session has its share of what is not flushed.
    pub fn is_heavy(&self, account: &mut Account) -> bool {
        if account.recent() < self.bound.load(Ordering::Relaxed) / SHARES {
            return false;
        }
        if account.is_new() {
            self.writers.fetch_add(1, Ordering::Relaxed);
        }
        true
    }

    /// For how many microseconds such a session waits before a write of so many bytes.
    pub fn turn(&self, bytes: u64, account: &mut Account, now: u64) -> u64 {
        let (writers, before) = (&self.writers, &self.writers_before);
        let writers = writers
            .load(Ordering::Relaxed)
            .max(before.load(Ordering::Relaxed));
        let bound = self.bound.load(Ordering::Relaxed);
        let of_pace = allowed(self.likely_unflushed(now), bound);
        let pace = part(self.pace.load(Ordering::Relaxed), of_pace);
        let bytes = bytes.saturating_mul(writers.max(1));
        let cost = bytes
            .saturating_mul(1_000_000)
            .checked_div(pace)
            .unwrap_or(LONG);
        let ahead = account.ahead(now, cost.min(LONG));
        if ahead < SHORT { 0 } else { ahead.min(LONG) }
    }

    /// Whether there is room for what a session writes that has its share, or for one that has not.
    pub fn has_room(&self, is_heavy: bool) -> bool {
        let bound = self.bound.load(Ordering::Relaxed);
        let most = if is_heavy {
            bound
        } else {
            bound.saturating_add(bound / 4)
        };
        self.unflushed() < most
    }

    /// A flush begins: what it flushes has ended by now.
    pub fn begin(&self, now: u64) -> Begun {
        let ended = self.ended.load(Ordering::Relaxed);
        raise(&self.begun, ended);
        let before = self.last.swap(now, Ordering::Relaxed);
        let is_alone = self.running.fetch_add(1, Ordering::Relaxed) == 0;
        if is_alone {
            self.shown.store(self.flushed(), Ordering::Relaxed);
            self.since.store(now.max(1), Ordering::Relaxed);
        }
        self.go_round(ended, is_alone);
        Begun {
            ended,
            is_recent: before == 0 || now.saturating_sub(before) < RECENT,
        }
    }

    // A flush begins when so much was written. Where hosts flush too, hardly one begins alone.
    fn go_round(&self, ended: u64, is_alone: bool) {
        let written = ended.saturating_sub(self.rounded.load(Ordering::Relaxed));
        if is_alone || written >= self.bound() / TO_FLUSH {
            self.rounded.store(ended, Ordering::Relaxed);
            let writers = self.writers.swap(0, Ordering::Relaxed);
            self.writers_before.store(writers, Ordering::Relaxed);
            self.round.fetch_add(1, Ordering::Relaxed);
        }
    }

    /// That flush has ended.
    pub fn end(&self, begun: Begun, now: u64, end: FlushEnd) {
        self.last.store(now, Ordering::Relaxed);
        let is_last = self.running.fetch_sub(1, Ordering::Relaxed) <= 1;
        if end == FlushEnd::Made {
            self.show_pace(begun, now, is_last);
        }
        if is_last {
            self.since.store(0, Ordering::Relaxed);
        }
        if end != FlushEnd::Failed {
            raise(&self.flushed, begun.ended);
            self.settle();
        }
    }

    // The disk has made a flush: how fast it was since it was looked at last.
    fn show_pace(&self, begun: Begun, now: u64, is_last: bool) {
        let since = self.since.load(Ordering::Relaxed);
        let bytes = begun
            .ended
            .saturating_sub(self.shown.load(Ordering::Relaxed));
        let micros = now.saturating_sub(since);
        if since == 0 || bytes < SHOWS || !is_last && micros < APART {
            return;
        }
        if begun.is_recent {
            self.learn(bytes, micros);
        }
        self.shown.store(begun.ended, Ordering::Relaxed);
        self.since.store(now.max(1), Ordering::Relaxed);
    }

    // The disk flushed so many bytes in so many microseconds. That some of them were flushed before is never known for sure, so one look
    // does not make it much faster.
    fn learn(&self, bytes: u64, micros: u64) {
        let before = self.pace.load(Ordering::Relaxed);
        let pace = bytes.saturating_mul(1000) / micros.max(1000);
        let pace = pace
            .saturating_mul(1000)
            .min(before.saturating_mul(FASTER))
            .max(SLOWEST);
        self.pace.store(before / 2 + pace / 2, Ordering::Relaxed);
    }

    // Whether a part of the bound was written since a flush began.
    fn is_due(&self) -> bool {
        let begun = self.begun.load(Ordering::Relaxed);
        let written = self.ended.load(Ordering::Relaxed).saturating_sub(begun);
        written >= self.bound.load(Ordering::Relaxed) / TO_FLUSH
    }

    // Says so to who waits for that.
    fn ring(&self) {
        let _ = self
            .bell
            .compare_exchange(QUIET, DUE, Ordering::AcqRel, Ordering::Acquire);
        self.bell.wake_all();
    }

    /// Nobody is to flush any more.
    pub fn close(&self) {
        self.bell.store(OVER, Ordering::Release);
        self.bell.wake_all();
    }

    /// Whether nobody is.
    pub fn is_closed(&self) -> bool {
        self.bell.load(Ordering::Acquire) == OVER
    }

    /// Waits so long until a flush is due; whether one is.
    pub fn await_due<R: Wait>(&self, rt: &R, time: Duration) -> bool {
        self.bell.park_timeout(rt, QUIET as u32, time);
        let _ = self
            .bell
            .compare_exchange(DUE, QUIET, Ordering::AcqRel, Ordering::Acquire);
        self.is_due()
    }

    /// How much may be unflushed.
    pub fn bound(&self) -> u64 {
        self.bound.load(Ordering::Relaxed)
    }
}
