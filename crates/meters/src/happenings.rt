//! What is counted of events. Whoever tells one counts it at once, and no reader keeps it from that.

use crate::failures::{Failures, Tally};
use crate::unflushed::{Unflushed, UnflushedTally};
use events::{Call, Cause, Event, Part, Place};
use std::alloc::{AllocError, Global};
use std::sync::atomic::{AtomicU64, Ordering};

/// How many causes of a refused login are told apart.
pub const CAUSES: usize = 5;

/// How many calls of the system are told apart.
pub const CALLS: usize = 5;

/// The causes, in the order in which they are counted.
pub const CAUSES_IN_ORDER: [&str; CAUSES] = ["request", "room", "tsih", "number", "memory"];

/// The calls, in the order in which they are counted.
pub const CALLS_IN_ORDER: [Call; CALLS] = [
    Call::Open,
    Call::Seek,
    Call::Read,
    Call::Write,
    Call::Flush,
];

/// No block.
const NOWHERE: Place = Place { first: 0, count: 0 };

// Calls on a file that took longer than the deadline, and how many of them have come back.
#[derive(Drop)]
struct Hangs {
    tally: Tally,
    back: AtomicU64,
}

// What is counted of a file of a unit: calls that failed, by their kinds, and those that took longer than the deadline.
#[derive(Drop)]
struct OfFile {
    failed: Vec<Tally>,
    hung: Hangs,
}

// What is counted of a unit: of its disk and of its registration file; and how often one of them became longer.
#[derive(Drop)]
struct OfUnit {
    disk: OfFile,
    registrations: OfFile,
    grew: AtomicU64,
    blocks: AtomicU64,
    unflushed: UnflushedTally,
}

/// What is counted of events, by whoever tells them.
#[derive(Drop)]
pub(crate) struct Ledger {
    logins: AtomicU64,
    refused: Vec<AtomicU64>,
    units: Vec<OfUnit>,
}

/// What was seen of a unit.
#[derive(Drop)]
pub struct UnitHappenings {
    /// Calls on its disk and on its registration file that failed, in the order of their kinds.
    pub disk: Vec<Failures>,
    pub registrations: Vec<Failures>,
    /// Those that took longer than the deadline.
    pub disk_hung: Failures,
    pub registrations_hung: Failures,
    /// How often a file of it became longer.
    pub grew: u64,
    /// How many blocks its disk has.
    pub blocks: u64,
    /// What was written to its disk and is not flushed.
    pub unflushed: Unflushed,
}

/// What was seen of events.
#[derive(Drop)]
pub struct Happenings {
    /// Logins that were done, and those that were refused, by their causes.
    pub logins: u64,
    pub refused: Vec<u64>,
    pub units: Vec<UnitHappenings>,
}

// The place of a cause among all.
fn place_of_cause(cause: Cause) -> usize {
    match cause {
        Cause::Request => 0,
        Cause::NoRoom(_) => 1,
        Cause::NoTsih => 2,
        Cause::NoNumber => 3,
        Cause::NoMemory => 4,
    }
}

// The place of a call among all.
fn place_of_call(call: Call) -> usize {
    match call {
        Call::Open => 0,
        Call::Seek => 1,
        Call::Read => 2,
        Call::Write => 3,
        Call::Flush => 4,
    }
}

// Counts one more.
fn raise(count: &AtomicU64) {
    let _ = count.fetch_add(1, Ordering::Relaxed);
}

// So many numbers.
fn zeros(alloc: Global, count: usize) -> Result<Vec<AtomicU64>, AllocError> {
    let mut zeros = Vec::with_capacity(alloc, count)?;
    for _ in 0..count {
        zeros.push(AtomicU64::new(0))?;
    }
    Ok(zeros)
}

// No failure of any kind.
fn unfailed(alloc: Global) -> Result<Vec<Tally>, AllocError> {
    let mut tallies = Vec::with_capacity(alloc, CALLS)?;
    for _ in 0..CALLS {
        tallies.push(Tally::none())?;
    }
    Ok(tallies)
}

// What is seen of calls that failed.
fn seen_of(alloc: Global, tallies: &[Tally]) -> Result<Vec<Failures>, AllocError> {
    let mut seen = Vec::with_capacity(alloc, tallies.len())?;
    for tally in tallies {
        seen.push(tally.seen())?;
    }
    Ok(seen)
}

impl Hangs {
    fn none() -> Hangs {
        Hangs {
            tally: Tally::none(),
            back: AtomicU64::new(0),
        }
    }

    // A call on the file hangs.
    fn begin(&self, now: u64) {
        self.tally.fail(now, NOWHERE, 0);
    }

    // The file is served again, on which a call had hung: each file tells that once for each time that it told of a hang.
    fn end(&self, now: u64) {
        let back = self.back.fetch_add(1, Ordering::Relaxed).wrapping_add(1);
        self.tally.end(now, back);
    }
}

impl OfFile {
    fn new(alloc: Global) -> Result<OfFile, AllocError> {
        Ok(OfFile {
            failed: unfailed(alloc)?,
            hung: Hangs::none(),
        })
    }
}

impl OfUnit {
    fn new(alloc: Global) -> Result<OfUnit, AllocError> {
        Ok(OfUnit {
            disk: OfFile::new(alloc)?,
            registrations: OfFile::new(alloc)?,
            grew: AtomicU64::new(0),
            blocks: AtomicU64::new(0),
            unflushed: UnflushedTally::none(),
        })
    }

    // A file of it.
    fn of(&self, part: Part) -> &OfFile {
        match part {
            Part::Disk => &self.disk,
            Part::Registrations => &self.registrations,
        }
    }

    // A call on a file of it hangs, or has come back, or a file became longer.
    fn happens(&self, now: u64, part: Part, event: &Event<'_>) {
        match event {
            Event::Hung(..) => self.of(part).hung.begin(now),
            Event::Back(..) => self.of(part).hung.end(now),
            _ => raise(&self.grew),
        }
    }

    // A call that had hung has come back. Of a registration file that was a save that was told as failed, also where it went well.
    fn saves_late(&self, now: u64, part: Part, call: Call) {
        if let (Part::Registrations, Call::Write | Call::Flush) = (part, call)
            && let Some(tally) = self.registrations.failed.get(place_of_call(Call::Write))
        {
            tally.fail(now, NOWHERE, 0);
        }
    }

    fn seen(&self, alloc: Global) -> Result<UnitHappenings, AllocError> {
        Ok(UnitHappenings {
            disk: seen_of(alloc, &self.disk.failed)?,
            registrations: seen_of(alloc, &self.registrations.failed)?,
            disk_hung: self.disk.hung.tally.seen(),
            registrations_hung: self.registrations.hung.tally.seen(),
            grew: self.grew.load(Ordering::Relaxed),
            blocks: self.blocks.load(Ordering::Relaxed),
            unflushed: self.unflushed.seen(),
        })
    }
}

// Ends what an administrator has seen: of each kind but the flushes, the last one, which nothing but a restart makes well.
fn acknowledge(tallies: &[Tally], now: u64) {
    for (place, tally) in tallies.iter().enumerate() {
        if place != place_of_call(Call::Flush) {
            tally.end(now, tally.count());
        }
    }
}

impl Ledger {
    /// Of no event, of so many units.
    pub(crate) fn new(alloc: Global, units: usize) -> Result<Ledger, AllocError> {
        let mut all = Vec::with_capacity(alloc, units)?;
        for _ in 0..units {
            all.push(OfUnit::new(alloc)?)?;
        }
        Ok(Ledger {
            logins: AtomicU64::new(0),
            refused: zeros(alloc, CAUSES)?,
            units: all,
        })
    }

    // Calls of a kind on a file of a unit that failed.
    fn tally(&self, unit: u8, part: Part, call: Call) -> Option<&Tally> {
        self.units
            .get(usize::from(unit))?
            .of(part)
            .failed
            .get(place_of_call(call))
    }

    // A login was refused.
    fn refuse(&self, cause: Cause) {
        if let Some(count) = self.refused.get(place_of_cause(cause)) {
            raise(count);
        }
    }

    /// Counts an event, at this time.
    pub(crate) fn count(&self, now: u64, event: &Event<'_>) {
        match event {
            Event::LoggedIn(..) => raise(&self.logins),
            Event::LoginRefused(_, _, _, cause) => self.refuse(*cause),
            Event::DeviceFailed(unit, part, call, place, error) => {
                if let Some(tally) = self.tally(*unit, *part, *call) {
                    tally.fail(now, *place, *error);
                }
            }
            Event::Back(unit, part, call, _) => {
                if let Some(of_unit) = self.units.get(usize::from(*unit)) {
                    of_unit.happens(now, *part, event);
                    of_unit.saves_late(now, *part, *call);
                }
            }
            Event::Hung(unit, part, _) | Event::Grew(unit, part) => {
                if let Some(of_unit) = self.units.get(usize::from(*unit)) {
                    of_unit.happens(now, *part, event);
                }
            }
            _ => {}
        }
    }

    /// The disk of a unit has so many blocks.
    pub(crate) fn measured(&self, unit: u8, blocks: u64) {
        if let Some(of_unit) = self.units.get(usize::from(unit)) {
            of_unit.blocks.store(blocks, Ordering::Relaxed);
        }
    }

    /// What is counted of what was written to the disk of a unit and is not flushed.
    pub(crate) fn unflushed(&self, unit: u8) -> Option<&UnflushedTally> {
        Some(&self.units.get(usize::from(unit))?.unflushed)
    }

    /// How many calls of a kind failed.
    pub(crate) fn failed(&self, unit: u8, part: Part, call: Call) -> u64 {
        match self.tally(unit, part, call) {
            Some(tally) => tally.count(),
            None => 0,
        }
    }

    /// The first so many of them are over.
    pub(crate) fn end(&self, now: u64, unit: u8, part: Part, call: Call, count: u64) {
        if count != 0
            && let Some(tally) = self.tally(unit, part, call)
        {
            tally.end(now, count);
        }
    }

    /// These blocks were read: where all blocks of the reads that failed were by now, that is over.
    pub(crate) fn read(&self, now: u64, unit: u8, part: Part, place: Place) {
        if let Some(tally) = self.tally(unit, part, Call::Read)
            && tally.is_now()
        {
            let count = tally.count();
            if tally.are_read(place) {
                tally.end(now, count);
            }
        }
    }

    /// Ends what an administrator has seen, but for flushes, and calls that hang.
    pub(crate) fn acknowledge(&self, now: u64) {
        for of_unit in &self.units {
            acknowledge(&of_unit.disk.failed, now);
            acknowledge(&of_unit.registrations.failed, now);
        }
    }

    // What is seen of refused logins, and of units.
    fn refused(&self, alloc: Global) -> Result<Vec<u64>, AllocError> {
        let mut refused = Vec::with_capacity(alloc, self.refused.len())?;
        for count in &self.refused {
            refused.push(count.load(Ordering::Relaxed))?;
        }
        Ok(refused)
    }

    fn units(&self, alloc: Global) -> Result<Vec<UnitHappenings>, AllocError> {
        let mut units = Vec::with_capacity(alloc, self.units.len())?;
        for of_unit in &self.units {
            units.push(of_unit.seen(alloc)?)?;
        }
        Ok(units)
    }

    /// What is seen.
    pub(crate) fn seen(&self, alloc: Global) -> Result<Happenings, AllocError> {
        Ok(Happenings {
            logins: self.logins.load(Ordering::Relaxed),
            refused: self.refused(alloc)?,
            units: self.units(alloc)?,
        })
    }
}
