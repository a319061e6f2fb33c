//! How much of its time a call has taken.

use crate::watch::Watch;
use events::Call;
use std::time::{Clock, Duration};

/// Who waits for a call sleeps for such a part of the deadline at a time, and for no longer than so many milliseconds.
const PART: u32 = 16;

const LONGEST: u64 = 250;

/// What a call has taken of its time. Only time counts in which its thread was at it, and in which the process ran: whoever waits sleeps
/// for a short while at a time, and one that was much longer than asked for does not count, since then the process stood still.
#[derive(Drop)]
pub struct Spent {
    time: Duration,
    // When it was looked at last.
    seen: Duration,
    // How many flushes were done by then.
    flushes: u64,
    // For how long one sleeps.
    nap: Duration,
}

// Whether such a call flushes.
fn flushes(call: Call) -> bool {
    matches!(call, Call::Flush | Call::Open)
}

impl Spent {
    /// None so far. None: the clock cannot be read.
    pub fn none<R: Clock>(rt: &R, watch: &Watch) -> Option<Spent> {
        Some(Spent {
            time: Duration::ZERO,
            seen: rt.monotonic().ok()?,
            flushes: watch.flushes(),
            nap: (watch.patience() / PART).min(Duration::from_millis(LONGEST)),
        })
    }

    /// For how long one sleeps until it is looked at again.
    pub fn nap(&self) -> Duration {
        self.nap
    }

    /// Whether that is all that this call has. Where another flush was done meanwhile, it is not: see below.
    pub fn is_all(&self, watch: &Watch, call: Call) -> bool {
        let patience = watch.patience_for(call);
        let has_anew = flushes(call) && watch.flushes() != self.flushes;
        self.time >= patience && !has_anew
    }

    /// One has slept; the thread was at the call, or was not. Where another flush was done meanwhile, one that flushes has its time anew:
    /// it may have waited for that one. False: the clock cannot be read.
    pub fn go_on<R: Clock>(&mut self, rt: &R, watch: &Watch, call: Call, is_at_it: bool) -> bool {
        let Ok(now) = rt.monotonic() else {
            return false;
        };
        let nap = now.saturating_sub(self.seen);
        self.seen = now;
        if is_at_it && nap <= self.nap.saturating_mul(2) {
            self.time = self.time.saturating_add(nap);
        }
        let done = watch.flushes();
        if flushes(call) && done != self.flushes {
            self.time = Duration::ZERO;
        }
        self.flushes = done;
        true
    }
}
