//! What was counted of an array in the last ten minutes, by points, in memory that is taken once.

use crate::counts::Counts;
use events::Operation;
use std::alloc::{AllocError, Global};

/// So many seconds lie between two points.
pub const STEP: u64 = 10;

/// So many points are kept: ten minutes.
pub const POINTS: usize = 61;

/// What was counted at a unit until a moment. A number that is past 2^64 begins anew.
#[derive(Clone, Copy)]
pub struct UnitPoint {
    /// Commands that were answered: those that read blocks, and those that wrote some.
    pub reads: u64,
    pub writes: u64,
    /// Bytes that were read and written by commands that were GOOD.
    pub read_bytes: u64,
    pub written_bytes: u64,
    /// The times that these commands took together.
    pub read_micros: u64,
    pub write_micros: u64,
}

/// A moment, in seconds after the beginning of 1970, and what was counted at each unit until then.
#[derive(Drop)]
pub struct Point {
    pub at: u64,
    pub units: Vec<UnitPoint>,
}

/// The points that are kept.
#[derive(Drop)]
pub(crate) struct Ring {
    // How many units there are.
    units: usize,
    // The moments, and behind each other what was counted at all units until each.
    moments: [u64; POINTS],
    counts: Vec<UnitPoint>,
    // The place of the last point, and how many there are.
    last: usize,
    count: usize,
}

impl UnitPoint {
    /// Of no command.
    pub const fn none() -> UnitPoint {
        UnitPoint {
            reads: 0,
            writes: 0,
            read_bytes: 0,
            written_bytes: 0,
            read_micros: 0,
            write_micros: 0,
        }
    }

    // Adds what was counted of commands.
    fn add(&mut self, counts: &Counts) {
        let writes = counts
            .of(Operation::Write)
            .wrapping_add(counts.of(Operation::CompareAndWrite));
        self.reads = self.reads.wrapping_add(counts.of(Operation::Read));
        self.writes = self.writes.wrapping_add(writes);
        self.read_bytes = self.read_bytes.wrapping_add(counts.read);
        self.written_bytes = self.written_bytes.wrapping_add(counts.written);
        self.read_micros = self.read_micros.wrapping_add(counts.read_micros);
        self.write_micros = self.write_micros.wrapping_add(counts.write_micros);
    }
}

impl Ring {
    /// Of no point, of so many units.
    pub(crate) fn new(alloc: Global, units: usize) -> Result<Ring, AllocError> {
        let room = units.saturating_mul(POINTS);
        let mut counts = Vec::with_capacity(alloc, room)?;
        for _ in 0..room {
            counts.push(UnitPoint::none())?;
        }
        Ok(Ring {
            units,
            moments: [0; POINTS],
            counts,
            last: 0,
            count: 0,
        })
    }

    // What is counted at each unit until the moment at a place.
    fn at(&self, place: usize) -> &[UnitPoint] {
        let first = place.saturating_mul(self.units);
        self.counts
            .get(first..first.saturating_add(self.units))
            .unwrap_or(&[])
    }

    // The same of the last moment.
    fn last(&mut self) -> &mut [UnitPoint] {
        let first = self.last.saturating_mul(self.units);
        let behind = first.saturating_add(self.units);
        if behind > self.counts.len() {
            return &mut [];
        }
        &mut self.counts[first..behind]
    }

    /// The next point begins, in the place of the oldest one where all are taken: it has this moment, and no command.
    pub(crate) fn begin(&mut self, moment: u64) {
        if self.count != 0 {
            self.last = self.last.saturating_add(1) % POINTS;
        }
        self.count = self.count.saturating_add(1).min(POINTS);
        if let Some(kept) = self.moments.get_mut(self.last) {
            *kept = moment;
        }
        for unit in self.last() {
            *unit = UnitPoint::none();
        }
    }

    /// Adds to the last point what was counted at each unit.
    pub(crate) fn add(&mut self, units: &[Counts]) {
        for (point, counts) in self.last().iter_mut().zip(units) {
            point.add(counts);
        }
    }

    /// Adds what was counted at each unit by both controllers, which stand beside each other.
    pub(crate) fn add_pairs(&mut self, units: &[Counts]) {
        for (point, pair) in self.last().iter_mut().zip(units.chunks(2)) {
            for counts in pair {
                point.add(counts);
            }
        }
    }

    // The place of the point that so many others are older than.
    fn place_of(&self, older: usize) -> usize {
        let oldest = self
            .last
            .saturating_add(1)
            .saturating_add(POINTS)
            .saturating_sub(self.count);
        oldest.saturating_add(older) % POINTS
    }

    /// The points, the oldest first.
    pub(crate) fn seen(&self, alloc: Global) -> Result<Vec<Point>, AllocError> {
        let mut seen = Vec::with_capacity(alloc, self.count)?;
        for older in 0..self.count {
            let place = self.place_of(older);
            seen.push(Point {
                at: self.moments.get(place).copied().unwrap_or(0),
                units: Vec::from_slice(alloc, self.at(place))?,
            })?;
        }
        Ok(seen)
    }
}
