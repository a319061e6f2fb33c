//! What tellers and the writer of a log share.
ghost use Rattle.std.specs.Prelude.{◌≡◌, ◌++◌, codes, if◌then◌else◌};
ghost use Rattle.std.specs.String.{string_bytes};
ghost use Rattle.events.specs.Text.{text_of};

use crate::strangers::Strangers;
use events::{By, Call, Event, Part, Place, SessionType, Stamp, spell};
use meters::{Meters, UnflushedTally};
use std::alloc::{AllocError, Global};
use std::hint::spin_loop;
use std::sync::atomic::{AtomicU64, Ordering};
use std::sync::{Arc, Mutex, MutexGuard};
use std::thread;
use std::thread::Parker;
use std::time::{Clock, Duration};

/// How many bytes of lines are kept until they are written.
pub const ROOM: usize = 256 * 1024;

/// How many bytes of lines are kept that have no time yet.
const UNTIMED: usize = 16 * 1024;

/// The log cannot be written where a write of lines takes so many microseconds.
const LATE: u64 = 10_000_000;

/// How often a teller tries to reach the lines, at first without letting another thread run.
const TRIES: u32 = 10000;

const SPINS: u32 = 100;

/// Lines that wait to be written. Nothing but what is told allocates, and no line is kept for which there is no room.
#[derive(Drop)]
pub(crate) struct Waiting {
    // The lines of events that were told where no clock is, each with its end.
    untimed: String,
    // Lines with their time.
    pub(crate) lines: String,
    // The line that is spelled.
    line: String,
    // Connections that end without a login, logins that are refused, and discovery sessions that begin or end.
    pub(crate) strangers: Strangers,
    pub(crate) refused: Strangers,
    pub(crate) discoveries: Strangers,
    // What hosts do that are in.
    pub(crate) hosts: Strangers,
    // Reservations and resets, so that nothing else that hosts do keeps these from being told; and calls on files that failed.
    pub(crate) fences: Strangers,
    pub(crate) failures: Strangers,
    // What the clock said when somebody who has one came last.
    now: Duration,
}

/// What all hands that hold a log share.
#[derive(Drop)]
pub(crate) struct Shared {
    pub(crate) waiting: Mutex<Waiting>,
    /// How many lines were dropped and not told so yet.
    pub(crate) dropped: AtomicU64,
    /// 1: the last lines could not be written, or not where the name of the log leads now.
    pub(crate) failing: AtomicU64,
    /// When the writer began to write those that it writes now, in microseconds of the clock that never goes back; 0: it writes none.
    pub(crate) since: AtomicU64,
    /// 1: the writer is to end. 2: it has.
    pub(crate) end: AtomicU64,
    /// Wakes the writer.
    pub(crate) bell: Parker,
}

impl Waiting {
    fn new(alloc: Global) -> Result<Waiting, AllocError> {
        Ok(Waiting {
            untimed: String::with_capacity(alloc, UNTIMED)?,
            lines: String::with_capacity(alloc, ROOM)?,
            line: String::with_capacity(alloc, UNTIMED)?,
            strangers: Strangers::none(),
            refused: Strangers::none(),
            discoveries: Strangers::none(),
            hosts: Strangers::of_hosts(),
            fences: Strangers::of_hosts(),
            failures: Strangers::of_hosts(),
            now: Duration::ZERO,
        })
    }

    // Keeps the line of an event, or counts it among those of which one line tells how many they are. False: there was no room for it.
    fn take(&mut self, event: &Event<'_>) -> bool {
        let now = self.now.as_secs();
        let spell = match event {
            Event::ConnectionEnded(..) => &mut self.strangers,
            Event::LoginRefused(..) => &mut self.refused,
            Event::LoggedIn(_, _, _, SessionType::Discovery)
            | Event::SessionEnded(_, _, _, SessionType::Discovery, _) => &mut self.discoveries,
            Event::LoggedIn(..)
            | Event::SessionEnded(..)
            | Event::GroupsSet(_, _, _, _, By::Session(_))
            | Event::NotMoved(_, _, _, By::Session(_))
            | Event::CommandFailed(..)
            | Event::Busy(..) => &mut self.hosts,
            Event::Reserved(..) | Event::Reset(..) => &mut self.fences,
            Event::DeviceFailed(..) => &mut self.failures,
            _ => return self.keep(event),
        };
        !spell.is_told(now) || self.keep(event)
    }

    /// How many lines were not kept of what hosts do that are in, and of what came of it, where the spell is over, or the log ends.
    pub(crate) fn sum_of_hosts(&mut self, is_last: bool) -> u64 {
        let now = self.now.as_secs();
        let deeds = self.hosts.sum(now, is_last);
        let fences = self.fences.sum(now, is_last);
        let failures = self.failures.sum(now, is_last);
        deeds.saturating_add(fences).saturating_add(failures)
    }

    // Keeps the line of an event without its time. False: there was no room for it.
    fn keep(&mut self, event: &Event<'_>) -> bool
        ensures { string_bytes self.new.untimed ≡ (if result then string_bytes self.old.untimed ++ text_of event.now ++ codes "\n"
            else string_bytes self.old.untimed) }
    {
        self.line.clear();
        if spell(&mut self.line, event).is_err() || self.line.push('\n').is_err() {
            return false;
        }
        has_room(&self.untimed, self.line.len(), UNTIMED)
            && self.untimed.push_str(self.line.as_str()).is_ok()
    }

    // Gives each line that has none the time of now: how many lines found no room.
    fn give_time(&mut self) -> u64 {
        let now = Stamp::of(self.now);
        let mut dropped = 0u64;
        for text in self.untimed.lines() {
            self.line.clear();
            if writeln!(self.line, "{now} {text}").is_err()
                || !has_room(&self.lines, self.line.len(), ROOM)
                || self.lines.push_str(self.line.as_str()).is_err()
            {
                dropped = dropped.saturating_add(1);
            }
        }
        self.untimed.clear();
        dropped
    }

    /// It is so late now, also for the lines that wait for a time: how many of them found no room.
    pub(crate) fn is_at(&mut self, now: Duration) -> u64 {
        self.now = now;
        self.give_time()
    }
}

// Whether so many bytes more are no more than this.
fn has_room(kept: &String, more: usize, room: usize) -> bool {
    kept.len() <= room && more <= room - kept.len()
}

impl Shared {
    // The lines, where they are reached soon.
    fn reach(&self) -> Option<MutexGuard<'_, Waiting>> {
        for turn in 0..TRIES {
            if let Some(waiting) = self.waiting.try_lock() {
                return Some(waiting);
            }
            if turn < SPINS {
                spin_loop();
            } else {
                thread::yield_now();
            }
        }
        None
    }

    pub(crate) fn drop_lines(&self, count: u64) {
        let _ = self.dropped.fetch_add(count, Ordering::SeqCst);
    }
}

/// A hand that holds a log: one that is off keeps nothing.
pub struct Log {
    pub(crate) shared: Option<Arc<Shared, Global>>,
    // What is counted of what is told, where it is counted.
    meters: Option<Arc<Meters, Global>>,
}

impl Drop for Log {
    fn drop(self) {
        let Self {
            shared: _,
            meters: _,
        } = self;
    }
}

impl Log {
    /// A log that is off.
    pub const fn off() -> Log {
        Log {
            shared: None,
            meters: None,
        }
    }

    /// A log that is on. Nothing writes its lines yet.
    pub fn new(alloc: Global) -> Result<Log, AllocError> {
        let shared = Shared {
            waiting: Mutex::new(Waiting::new(alloc)?),
            dropped: AtomicU64::new(0),
            failing: AtomicU64::new(0),
            since: AtomicU64::new(0),
            end: AtomicU64::new(0),
            bell: Parker::new(),
        };
        Ok(Log {
            shared: Some(Arc::new(alloc, shared)?),
            meters: None,
        })
    }

    /// The same log, of which is counted what it is told, be it on or off.
    pub fn counting(self, meters: Arc<Meters, Global>) -> Log {
        let mut log = self;
        log.meters = Some(meters);
        log
    }

    /// What is counted, where it is.
    pub fn meters(&self) -> Option<&Meters> {
        match &self.meters {
            Some(meters) => Some(meters),
            None => None,
        }
    }

    /// A hand more on what is counted, where it is.
    pub(crate) fn shared_meters(&self) -> Result<Option<Arc<Meters, Global>>, AllocError> {
        match &self.meters {
            Some(meters) => Ok(Some(Arc::try_clone(meters)?)),
            None => Ok(None),
        }
    }

    // Counts an event, where it is counted.
    fn count(&self, event: &Event<'_>) {
        if let Some(meters) = &self.meters {
            meters.happened(event);
        }
    }

    /// Whether an administrator has ended the array, where that is counted.
    pub fn has_quit(&self) -> bool {
        match &self.meters {
            Some(meters) => meters.has_quit(),
            None => false,
        }
    }

    /// Whether the array ends, where that is counted.
    pub fn is_stopping(&self) -> bool {
        match &self.meters {
            Some(meters) => meters.is_stopping(),
            None => false,
        }
    }

    /// How many calls of a kind failed on a file of a unit, where that is counted.
    pub fn failed(&self, unit: u8, part: Part, call: Call) -> u64 {
        match &self.meters {
            Some(meters) => meters.failed(unit, part, call),
            None => 0,
        }
    }

    /// What is counted of what was written to the disk of a unit and is not flushed, where that is counted.
    pub fn unflushed(&self, unit: u8) -> Option<&UnflushedTally> {
        self.meters()?.unflushed(unit)
    }

    /// The first so many of them are over, by what went well behind them.
    pub fn end(&self, unit: u8, part: Part, call: Call, count: u64) {
        if let Some(meters) = &self.meters {
            meters.end(unit, part, call, count);
        }
    }

    /// These blocks of a file of a unit were read.
    pub fn read(&self, unit: u8, part: Part, place: Place) {
        if let Some(meters) = &self.meters {
            meters.read(unit, part, place);
        }
    }

    /// Another hand that holds it.
    pub fn share(&self) -> Result<Log, AllocError> {
        let shared = match &self.shared {
            None => None,
            Some(shared) => Some(Arc::try_clone(shared)?),
        };
        let meters = self.shared_meters()?;
        Ok(Log { shared, meters })
    }

    /// Whether it is on, or what it is told is counted.
    pub fn is_on(&self) -> bool {
        self.shared.is_some() || self.meters.is_some()
    }

    // Whether the writer has written these lines for long by now, as when the disk of the file hangs.
    fn is_late(&self, since: u64) -> bool {
        match &self.meters {
            Some(meters) => since != 0 && meters.now().saturating_sub(since) > LATE,
            None => false,
        }
    }

    /// Whether the last lines could not be written, or those before them are not, and how long they take is counted.
    pub fn is_failing(&self) -> bool {
        match &self.shared {
            Some(shared) => {
                let since = shared.since.load(Ordering::SeqCst);
                shared.failing.load(Ordering::SeqCst) != 0 || self.is_late(since)
            }
            None => false,
        }
    }

    /// Tells an event where no clock is: it has the time at which the writer wakes, or the next one is told.
    pub fn note(&self, event: &Event<'_>) {
        self.count(event);
        self.keep(event);
    }

    // Keeps an event where no clock is.
    fn keep(&self, event: &Event<'_>) {
        let Some(shared) = &self.shared else {
            return;
        };
        let is_kept = match shared.reach() {
            Some(mut waiting) => waiting.take(event),
            None => false,
        };
        if !is_kept {
            shared.drop_lines(1);
        }
        shared.bell.unpark();
    }

    /// Tells an event.
    pub fn tell<R: Clock>(&self, rt: &R, event: &Event<'_>) {
        self.count(event);
        let Some(shared) = &self.shared else {
            return;
        };
        let Ok(now) = rt.since_1970() else {
            return self.keep(event);
        };
        let dropped = match shared.reach() {
            Some(mut waiting) => {
                waiting.now = now;
                let is_kept = waiting.take(event);
                let untold = waiting.give_time();
                if is_kept {
                    untold
                } else {
                    untold.saturating_add(1)
                }
            }
            None => 1,
        };
        if dropped != 0 {
            shared.drop_lines(dropped);
        }
        shared.bell.unpark();
    }
}
