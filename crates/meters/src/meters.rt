//! What a window shows of sessions: who they are, and what is counted of their commands. A session's worker alone counts, and
//! nobody waits for a reader.

use crate::counts::{Counts, Leaving, Served};
use crate::happenings::{Happenings, Ledger};
use crate::recent::{Point, Ring};
use crate::unflushed::UnflushedTally;
use crate::visit::Visit;
use events::{Call, Event, Operation, Part, Place};
use std::alloc::{AllocError, Global};
use std::hint::spin_loop;
use std::sync::atomic::{AtomicU64, Ordering};
use std::sync::{Arc, Mutex, MutexGuard, Wait};
use std::time::{Clock, Duration};

/// How often is tried to reach what readers may hold.
const TRIES: u32 = 1000;

/// What a number of microseconds is multiplied by where a unit stands beside it.
const UNITS: u64 = 256;

// What readers see of a session's commands: what is counted of them at each unit, and which was the last one and when it ended, in
// microseconds of the clock that never goes back.
#[derive(Drop)]
struct Shown {
    units: Vec<Counts>,
    last: Option<Operation>,
    ended: u64,
}

// What a session's worker and readers share.
struct Meter {
    number: u64,
    who: Visit,
    // The command that is served now: when it began, in microseconds of the clock that never goes back, times 256, and its unit; 0
    // between commands.
    serving: AtomicU64,
    // When its last command was answered, and at which unit, likewise; 0 before the first one.
    answered: AtomicU64,
    shown: Mutex<Shown>,
}

impl Drop for Meter {
    fn drop(self) {
        let Self {
            number: _,
            who: _,
            serving: _,
            answered: _,
            shown: _,
        } = self;
    }
}

// What a session's worker has counted at a unit.
#[derive(Drop)]
struct Sheet {
    counts: Counts,
    // So many commands have answers that have not left yet.
    waiting: Leaving,
    // Readers do not see all of it.
    is_ahead: bool,
}

/// What a session's worker counts by. Commands that came together and answers that leave together share a look at the clock.
pub struct Hand {
    meter: Arc<Meter, Global>,
    ticks: Arc<AtomicU64, Global>,
    units: Vec<Sheet>,
    last: Option<Operation>,
    is_waiting: bool,
    // When bytes came last, in microseconds of the clock that never goes back.
    came: u64,
}

impl Drop for Hand {
    fn drop(self) {
        let Self {
            meter: _,
            ticks: _,
            units: _,
            last: _,
            is_waiting: _,
            came: _,
        } = self;
    }
}

// All that live, and what was counted of those that have ended, at each unit by each controller.
#[derive(Drop)]
struct Book {
    live: Vec<Arc<Meter, Global>>,
    ended: Vec<Counts>,
    begun: u64,
    // What was counted until moments of the last ten minutes.
    recent: Ring,
}

/// What is counted of an array.
pub struct Meters {
    units: usize,
    book: Mutex<Book>,
    happened: Ledger,
    // How often an administrator has ended the array by the control socket, and was told how that went.
    quits: AtomicU64,
    // How often the array was told to end.
    stops: AtomicU64,
    // What the clock said when it was looked at last, in microseconds of the one that never goes back: several times a second, so that
    // a command that begins, or a call that fails, has a time and no look of its own.
    ticks: Arc<AtomicU64, Global>,
}

impl Drop for Meters {
    fn drop(self) {
        let Self {
            units: _,
            book: _,
            happened: _,
            quits: _,
            stops: _,
            ticks: _,
        } = self;
    }
}

/// What was seen of a session.
#[derive(Drop)]
pub struct SessionSeen {
    pub who: Visit,
    /// The operation of its last command, and for how many microseconds that has ended; none: it had no command yet.
    pub last: Option<(Operation, u64)>,
    pub commands: u64,
}

/// What was seen at one look.
#[derive(Drop)]
pub struct Seen {
    pub sessions: Vec<SessionSeen>,
    /// What was counted at unit u by controller c, at 2 * u + c - 1.
    pub counts: Vec<Counts>,
    /// For how many microseconds the oldest command is served at each unit.
    pub oldest: Vec<u64>,
    /// For how many microseconds no command was answered at each unit, as far as the sessions that live tell; `u64::MAX`, where none was.
    pub silent: Vec<u64>,
    pub happened: Happenings,
}

// What a lock has, where it is reached soon.
fn reach<T>(lock: &Mutex<T>) -> Option<MutexGuard<'_, T>> {
    for _ in 0..TRIES {
        if let Some(held) = lock.try_lock() {
            return Some(held);
        }
        spin_loop();
    }
    None
}

// A time in microseconds.
fn micros(time: Duration) -> u64 {
    u64::try_from(time.as_micros()).unwrap_or(u64::MAX)
}

// What is counted of no command, so many times.
fn blank(alloc: Global, count: usize) -> Result<Vec<Counts>, AllocError> {
    let mut counts = Vec::with_capacity(alloc, count)?;
    for _ in 0..count {
        counts.push(Counts::none())?;
    }
    Ok(counts)
}

// Sheets of no command, so many.
fn blank_sheets(alloc: Global, count: usize) -> Result<Vec<Sheet>, AllocError> {
    let mut sheets = Vec::with_capacity(alloc, count)?;
    for _ in 0..count {
        sheets.push(Sheet {
            counts: Counts::none(),
            waiting: Leaving::none(),
            is_ahead: false,
        })?;
    }
    Ok(sheets)
}

// What is seen of each session.
fn seen_of<R: Wait>(
    rt: &R,
    alloc: Global,
    live: &[Arc<Meter, Global>],
    now: u64,
) -> Result<Vec<SessionSeen>, AllocError> {
    let mut sessions = Vec::with_capacity(alloc, live.len())?;
    for meter in live {
        sessions.push(meter.seen(rt, now)?)?;
    }
    Ok(sessions)
}

// Notes for how long the oldest command is served at each unit, and for how long none was answered.
fn note_ages(live: &[Arc<Meter, Global>], now: u64, oldest: &mut [u64], silent: &mut [u64]) {
    for meter in live {
        note_longest(oldest, &meter.serving, now);
        note_shortest(silent, &meter.answered, now);
    }
}

// How long ago this moment was, and the place of its unit; nothing where there is none.
fn ago(moment: &AtomicU64, now: u64) -> Option<(u64, usize)> {
    let moment = moment.load(Ordering::Relaxed);
    if moment == 0 {
        return None;
    }
    Some((
        now.saturating_sub(moment / UNITS),
        (moment % UNITS) as usize,
    ))
}

// Notes how long ago this moment was, where that is the longest of its unit.
fn note_longest(times: &mut [u64], moment: &AtomicU64, now: u64) {
    if let Some((time, unit)) = ago(moment, now)
        && let Some(longest) = times.get_mut(unit)
    {
        *longest = (*longest).max(time);
    }
}

// The same, where it is the shortest.
fn note_shortest(times: &mut [u64], moment: &AtomicU64, now: u64) {
    if let Some((time, unit)) = ago(moment, now)
        && let Some(shortest) = times.get_mut(unit)
    {
        *shortest = (*shortest).min(time);
    }
}

// Adds what a session that came by a group with this tag counted at each unit to the counts of all.
fn add_all(sums: &mut [Counts], tag: u16, units: &[Counts]) {
    for (unit, counts) in units.iter().enumerate() {
        add_at(sums, tag, unit, counts);
    }
}

// Adds what a session that came by a group with this tag counted at a unit.
fn add_at(sums: &mut [Counts], tag: u16, unit: usize, counts: &Counts) {
    let place = unit
        .saturating_mul(2)
        .saturating_add(usize::from(tag).saturating_sub(1));
    if let Some(sum) = sums.get_mut(place) {
        sum.add(counts);
    }
}

/// The time of the clock that never goes back, in microseconds; 1, where it cannot be read.
pub fn clock(rt: &impl Clock) -> u64 {
    micros(rt.monotonic().unwrap_or(Duration::ZERO)).max(1)
}

// A moment of the clock that never goes back, and a unit, in one number.
fn moment(now: u64, unit: u8) -> u64 {
    now.wrapping_mul(UNITS) | u64::from(unit)
}

impl Sheet {
    // The answers that wait leave, so long after the last byte of their commands.
    fn settle(&mut self, took: u64) {
        if self.waiting.all != 0 {
            self.counts.take(took, self.waiting);
            self.waiting = Leaving::none();
            self.is_ahead = true;
        }
    }
}

impl Hand {
    /// Bytes have come.
    pub fn came(&mut self, rt: &impl Clock) {
        self.came = clock(rt);
    }

    /// A command of a unit begins. It may have waited for others that came with it.
    pub fn begin(&mut self, unit: u8) {
        let now = self.ticks.load(Ordering::Relaxed).max(self.came);
        self.meter
            .serving
            .store(moment(now, unit), Ordering::Relaxed);
    }

    /// The command has ended: it was answered, or none was.
    pub fn end(&mut self, unit: u8, served: Option<Served>) {
        self.meter.serving.store(0, Ordering::Relaxed);
        if let Some(served) = served
            && let Some(sheet) = self.units.get_mut(usize::from(unit))
        {
            sheet.counts.count(&served);
            sheet.waiting.add(served.operation);
            self.last = Some(served.operation);
            self.is_waiting = true;
            let now = self.ticks.load(Ordering::Relaxed).max(self.came);
            self.meter
                .answered
                .store(moment(now, unit), Ordering::Relaxed);
        }
    }

    /// The answers leave that were given since others left.
    pub fn leave(&mut self, rt: &impl Clock) {
        if !self.is_waiting {
            return;
        }
        self.is_waiting = false;
        let now = clock(rt);
        let took = now.saturating_sub(self.came);
        for sheet in &mut self.units {
            sheet.settle(took);
        }
        self.show(now);
    }

    // Shows readers what was counted. Where one of them holds it for long, the answers that leave next show it too.
    fn show(&mut self, now: u64) {
        let Some(mut shown) = reach(&self.meter.shown) else {
            return;
        };
        shown.last = self.last;
        shown.ended = now;
        show_each(&mut shown.units, &mut self.units);
    }
}

// Shows what was counted on each sheet that is ahead.
fn show_each(shown: &mut [Counts], sheets: &mut [Sheet]) {
    for (there, sheet) in shown.iter_mut().zip(sheets) {
        if sheet.is_ahead {
            *there = sheet.counts;
            sheet.is_ahead = false;
        }
    }
}

impl Meter {
    // What is seen of it.
    fn seen<R: Wait>(&self, rt: &R, now: u64) -> Result<SessionSeen, AllocError> {
        let mut commands = 0u64;
        let (last, ended) = {
            let shown = self.shown.lock(rt);
            for counts in &shown.units {
                commands = commands.wrapping_add(counts.all());
            }
            (shown.last, shown.ended)
        };
        Ok(SessionSeen {
            who: self.who.clone()?,
            last: last.map(|operation| (operation, now.saturating_sub(ended))),
            commands,
        })
    }
}

impl Book {
    // A session begins.
    fn enter(
        &mut self,
        alloc: Global,
        who: Visit,
        shown: Shown,
    ) -> Result<Arc<Meter, Global>, AllocError> {
        let meter = Meter {
            number: self.begun,
            who,
            serving: AtomicU64::new(0),
            answered: AtomicU64::new(0),
            shown: Mutex::new(shown),
        };
        let meter = Arc::new(alloc, meter)?;
        self.live.push(Arc::try_clone(&meter)?)?;
        self.begun = self.begun.wrapping_add(1);
        Ok(meter)
    }

    // A session has ended, of which this was counted at each unit.
    fn leave(&mut self, meter: &Meter, units: &[Sheet]) {
        for (unit, sheet) in units.iter().enumerate() {
            add_at(&mut self.ended, meter.who.path.tag, unit, &sheet.counts);
        }
        self.live.retain(|other| other.number != meter.number);
    }

    // Keeps what is counted until this second.
    fn keep<R: Wait>(&mut self, rt: &R, second: u64) {
        self.recent.begin(second);
        self.recent.add_pairs(&self.ended);
        for meter in &self.live {
            self.recent.add(&meter.shown.lock(rt).units);
        }
    }

    // The sessions that live.
    fn live(&self, alloc: Global) -> Result<Vec<Arc<Meter, Global>>, AllocError> {
        let mut live = Vec::with_capacity(alloc, self.live.len())?;
        for meter in &self.live {
            live.push(Arc::try_clone(meter)?)?;
        }
        Ok(live)
    }

    // Adds what is counted of them.
    fn add_to<R: Wait>(&self, rt: &R, counts: &mut [Counts]) {
        for meter in &self.live {
            add_all(counts, meter.who.path.tag, &meter.shown.lock(rt).units);
        }
    }

    // They, and what is counted of all of them together with those that have ended.
    fn sum<R: Wait>(
        &self,
        rt: &R,
        alloc: Global,
    ) -> Result<(Vec<Arc<Meter, Global>>, Vec<Counts>), AllocError> {
        let mut counts = Vec::from_slice(alloc, &self.ended)?;
        self.add_to(rt, &mut counts);
        Ok((self.live(alloc)?, counts))
    }
}

impl Meters {
    /// What is counted of an array with so many units.
    pub fn new(alloc: Global, units: usize) -> Result<Meters, AllocError> {
        let book = Book {
            live: Vec::new(alloc),
            ended: blank(alloc, units.saturating_mul(2))?,
            begun: 0,
            recent: Ring::new(alloc, units)?,
        };
        Ok(Meters {
            units,
            book: Mutex::new(book),
            happened: Ledger::new(alloc, units)?,
            quits: AtomicU64::new(0),
            stops: AtomicU64::new(0),
            ticks: Arc::new(alloc, AtomicU64::new(0))?,
        })
    }

    /// The time of the last look at the clock.
    pub fn now(&self) -> u64 {
        self.ticks.load(Ordering::Relaxed)
    }

    /// Looks at the clock: what it says, in microseconds.
    pub fn tick(&self, rt: &impl Clock) -> u64 {
        let now = clock(rt);
        self.ticks.store(now, Ordering::Relaxed);
        now
    }

    /// The disk of a unit has so many blocks.
    pub fn measured(&self, unit: u8, blocks: u64) {
        self.happened.measured(unit, blocks);
    }

    /// What is counted of what was written to the disk of a unit and is not flushed.
    pub fn unflushed(&self, unit: u8) -> Option<&UnflushedTally> {
        self.happened.unflushed(unit)
    }

    /// Counts an event.
    pub fn happened(&self, event: &Event<'_>) {
        if let Event::Stopping = event {
            let _ = self.stops.fetch_add(1, Ordering::SeqCst);
        }
        self.happened.count(self.now(), event);
    }

    /// Whether the array ends: it takes no command in any more.
    pub fn is_stopping(&self) -> bool {
        self.stops.load(Ordering::SeqCst) != 0
    }

    /// How many calls of a kind failed on a file of a unit.
    pub fn failed(&self, unit: u8, part: Part, call: Call) -> u64 {
        self.happened.failed(unit, part, call)
    }

    /// The first so many of them are over, by what went well.
    pub fn end(&self, unit: u8, part: Part, call: Call, count: u64) {
        self.happened.end(self.now(), unit, part, call, count);
    }

    /// These blocks of a file of a unit were read.
    pub fn read(&self, unit: u8, part: Part, place: Place) {
        self.happened.read(self.now(), unit, part, place);
    }

    /// Ends what of the calls that failed an administrator has seen, but for flushes: nothing but a restart makes these well.
    pub fn acknowledge(&self) {
        self.happened.acknowledge(self.now());
    }

    /// An administrator has ended the array, and was told how that went.
    pub fn quit(&self) {
        let _ = self.quits.fetch_add(1, Ordering::SeqCst);
    }

    /// Whether one has.
    pub fn has_quit(&self) -> bool {
        self.quits.load(Ordering::SeqCst) != 0
    }

    /// A session begins: what its worker counts by.
    pub fn enter<R: Wait>(&self, rt: &R, alloc: Global, who: Visit) -> Result<Hand, AllocError> {
        let shown = Shown {
            units: blank(alloc, self.units)?,
            last: None,
            ended: 0,
        };
        let units = blank_sheets(alloc, self.units)?;
        let ticks = Arc::try_clone(&self.ticks)?;
        Ok(Hand {
            meter: self.book.lock(rt).enter(alloc, who, shown)?,
            ticks,
            units,
            last: None,
            is_waiting: false,
            // what comes next may have been received before
            came: self.now(),
        })
    }

    /// A session has ended.
    pub fn leave<R: Wait + Clock>(&self, rt: &R, mut hand: Hand) {
        hand.leave(rt);
        self.book.lock(rt).leave(&hand.meter, &hand.units);
    }

    /// Keeps what is counted until now, so long after the beginning of 1970.
    pub fn keep<R: Wait>(&self, rt: &R, now: Duration) {
        self.book.lock(rt).keep(rt, now.as_secs());
    }

    /// What was kept of late, the oldest first.
    pub fn recent<R: Wait>(&self, rt: &R, alloc: Global) -> Result<Vec<Point>, AllocError> {
        self.book.lock(rt).recent.seen(alloc)
    }

    /// What there is to see, at this time of the clock that never goes back.
    pub fn look<R: Wait>(&self, rt: &R, alloc: Global, now: Duration) -> Result<Seen, AllocError> {
        let now = micros(now);
        let (live, counts) = self.book.lock(rt).sum(rt, alloc)?;
        let mut oldest = vec![in alloc; 0; self.units]?;
        let mut silent = vec![in alloc; u64::MAX; self.units]?;
        note_ages(&live, now, &mut oldest, &mut silent);
        Ok(Seen {
            sessions: seen_of(rt, alloc, &live, now)?,
            counts,
            oldest,
            silent,
            happened: self.happened.seen(alloc)?,
        })
    }
}
