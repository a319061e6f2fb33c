//! What tells the log of a file of a unit: of its calls that failed, of what goes well behind these, and once that it became longer.

use event_log::Log;
use events::{Call, Event, Part, Place};
use meters::UnflushedTally;
use std::sync::atomic::{AtomicBool, Ordering};

/// Tells the log of calls that failed on a file of a unit, of what goes well behind these, and once that the file became longer.
pub struct FileLog {
    log: Log,
    unit: u8,
    part: Part,
    has_told_longer: AtomicBool,
}

impl Drop for FileLog {
    fn drop(self) {
        let Self {
            log: _,
            unit: _,
            part: _,
            has_told_longer: _,
        } = self;
    }
}

impl FileLog {
    /// One that tells this log of one file of the unit with this number: its disk or its registration file.
    pub fn new(log: Log, unit: u8, part: Part) -> FileLog {
        FileLog {
            log,
            unit,
            part,
            has_told_longer: AtomicBool::new(false),
        }
    }

    /// Tells that a call failed at so many blocks from the first on, both 0 for a call of no blocks, with this error of the system, 0
    /// where it told none.
    pub fn tell(&self, call: Call, first: u32, blocks: usize, error: u32) {
        let count = u32::try_from(blocks).unwrap_or(u32::MAX);
        let place = Place { first, count };
        self.log.note(&Event::DeviceFailed(self.unit, self.part, call, place, error));
    }

    /// A call of this kind has gone well: what of it had failed is over.
    pub fn works(&self, call: Call) {
        let failed = self.log.failed(self.unit, self.part, call);
        self.log.end(self.unit, self.part, call, failed);
    }

    /// How many writes have failed.
    pub fn failed_writes(&self) -> u64 {
        self.log.failed(self.unit, self.part, Call::Write)
    }

    /// A flush that began when so many writes had failed has gone well: they are over.
    pub fn flushed(&self, failed_writes: u64) {
        self.log
            .end(self.unit, self.part, Call::Write, failed_writes);
    }

    /// So many blocks were read from the first on.
    pub fn has_read(&self, first: u32, blocks: usize) {
        let count = u32::try_from(blocks).unwrap_or(u32::MAX);
        self.log.read(self.unit, self.part, Place { first, count });
    }

    /// What is counted of what was written to its unit's disk and is not flushed, where that is counted.
    pub fn unflushed(&self) -> Option<&UnflushedTally> {
        self.log.unflushed(self.unit)
    }

    /// Tells that the file has become longer, the first time.
    pub fn tell_longer(&self) {
        if !self.has_told_longer.swap(true, Ordering::Relaxed) {
            self.log.note(&Event::Grew(self.unit, self.part));
        }
    }
}
