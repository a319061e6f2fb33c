//! What all that ask calls of one file share.
ghost use Rattle.std.specs.Prelude.{◌≡◌};
ghost use Rattle.timed_calls.specs.Back.{had_come_back};

use disk_preparer::Node;
use event_log::Log;
use events::{Call, Event, Part, Place};
use std::sync::atomic::{AtomicBool, AtomicU64, Ordering};
use std::sync::{Mutex, Wait};
use std::time::{Clock, Duration};

/// For so many bytes that were written and not flushed a flush may take a millisecond more: 1 MiB a second, as a disk has that turns,
/// where they lie here and there ..
const BYTES_A_MILLISECOND: u64 = 1049;

/// .. but for no more bytes than these.
const MOST_BYTES: u64 = 1 << 27;

/// How many calls of a file hang, and since when.
#[derive(Drop)]
struct Hangs {
    count: u64,
    since: Option<Duration>,
}

/// How long a call of a file may take, and whether one has taken longer that has not come back.
pub struct Watch {
    patience: Duration,
    // Which file it is.
    node: Node,
    is_hung: AtomicBool,
    hangs: Mutex<Hangs>,
    // Whether a call of late took so long that whoever asked slept, and whether a read took so long that it came from a slow disk.
    has_slept: AtomicBool,
    has_lagged: AtomicBool,
    // How many writes have come back.
    writes: AtomicU64,
    // How many bytes the file was asked to write, how many of them a flush has made last, and how many flushes were done.
    written: AtomicU64,
    flushed: AtomicU64,
    flushes: AtomicU64,
    log: Log,
    unit: u8,
    part: Part,
}

impl Drop for Watch {
    fn drop(self) {
        let Self {
            patience: _,
            node: _,
            is_hung: _,
            hangs: _,
            has_slept: _,
            has_lagged: _,
            writes: _,
            written: _,
            flushed: _,
            flushes: _,
            log: _,
            unit: _,
            part: _,
        } = self;
    }
}

impl Watch {
    /// Over this file of the unit with this number. That a call takes longer than this is told to this log, and that it came back.
    pub fn new(patience: Duration, log: Log, unit: u8, part: Part, node: Node) -> Watch
        ensures { result.node ≡ node }
    {
        Watch {
            patience,
            node,
            is_hung: AtomicBool::new(false),
            hangs: Mutex::new(Hangs {
                count: 0,
                since: None,
            }),
            has_slept: AtomicBool::new(false),
            has_lagged: AtomicBool::new(false),
            writes: AtomicU64::new(0),
            written: AtomicU64::new(0),
            flushed: AtomicU64::new(0),
            flushes: AtomicU64::new(0),
            log,
            unit,
            part,
        }
    }

    /// How long a call may take.
    pub fn patience(&self) -> Duration {
        self.patience
    }

    /// How long this one may take. A flush has what its bytes need, too, and so has an open, which flushes by the handle that goes.
    pub fn patience_for(&self, call: Call) -> Duration {
        match call {
            Call::Flush | Call::Open => {
                let written = self.written.load(Ordering::Acquire);
                let left = written.saturating_sub(self.flushed.load(Ordering::Acquire));
                let time = Duration::from_millis(left.min(MOST_BYTES) / BYTES_A_MILLISECOND);
                self.patience.saturating_add(time)
            }
            Call::Seek | Call::Read | Call::Write => self.patience,
        }
    }

    /// Whether a call hangs now.
    pub fn is_hung(&self) -> bool {
        self.is_hung.load(Ordering::Acquire)
    }

    /// How many writes of the device of this disk have come back.
    #[tactic(auto, using(crate::specs::Back::a_look_says))]
    pub fn writes(&self) -> u64
        ensures { had_come_back self.now.node result }
    {
        self.writes.load(Ordering::Acquire)
    }

    /// So many have.
    pub fn wrote(&self, writes: u64) {
        self.writes.store(writes, Ordering::Release);
    }

    /// So many blocks were read from the first on, by whatever handle.
    pub fn was_read(&self, first: u32, blocks: usize) {
        let count = u32::try_from(blocks).unwrap_or(u32::MAX);
        self.log.read(self.unit, self.part, Place { first, count });
    }

    /// The device is asked to write so many bytes. Nobody else writes.
    pub fn writes_bytes(&self, count: usize) {
        let written = self.written.load(Ordering::Relaxed);
        self.written
            .store(written.wrapping_add(count as u64), Ordering::Release);
    }

    /// How many bytes it was asked to write.
    pub fn written(&self) -> u64 {
        self.written.load(Ordering::Acquire)
    }

    /// A flush is done, and has made so many of these bytes last. Who sees that there are fewer left sees that it has come back, too.
    pub fn has_flushed(&self, written: u64) {
        self.flushes.fetch_add(1, Ordering::AcqRel);
        self.flushed.fetch_max(written, Ordering::AcqRel);
    }

    /// How many flushes were done.
    pub fn flushes(&self) -> u64 {
        self.flushes.load(Ordering::Acquire)
    }

    /// A call takes so long that whoever asked sleeps.
    pub fn sleep(&self) {
        self.has_slept.store(true, Ordering::Relaxed);
    }

    /// Whether a call did since this was asked last.
    pub fn has_slept(&self) -> bool {
        self.has_slept.swap(false, Ordering::Relaxed)
    }

    /// A read took so long that it came from a slow disk.
    pub fn lag(&self) {
        self.has_lagged.store(true, Ordering::Relaxed);
    }

    /// Whether one did since this was asked last. Each READ asks, so that mostly nothing is written.
    pub fn has_lagged(&self) -> bool {
        self.has_lagged.load(Ordering::Relaxed) && self.has_lagged.swap(false, Ordering::Relaxed)
    }

    /// This call has taken longer. Until it comes back, no other one is made.
    pub fn hang<R: Wait + Clock>(&self, rt: &R, call: Call) {
        let mut hangs = self.hangs.lock(rt);
        hangs.count = hangs.count.saturating_add(1);
        self.is_hung.store(true, Ordering::Release);
        if hangs.count == 1 {
            hangs.since = rt.monotonic().ok();
            self.log.note(&Event::Hung(self.unit, self.part, call));
        }
    }

    /// This one, which had taken longer, has come back. Where it was the last one, calls are made again.
    pub fn come_back<R: Wait + Clock>(&self, rt: &R, call: Call) {
        let mut hangs = self.hangs.lock(rt);
        hangs.count = hangs.count.saturating_sub(1);
        if hangs.count > 0 {
            return;
        }
        let time = match (hangs.since, rt.monotonic()) {
            (Some(since), Ok(now)) => now.saturating_sub(since),
            _ => Duration::ZERO,
        };
        let time = time
            .as_secs()
            .saturating_mul(1000)
            .saturating_add(u64::from(time.subsec_millis()));
        self.log
            .note(&Event::Back(self.unit, self.part, call, time));
        self.is_hung.store(false, Ordering::Release);
    }
}
