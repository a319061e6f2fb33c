//! A file in which nothing lies, for a device to write and flush.
ghost use Rattle.std.specs.Prelude.{[], false, true, refl};

use disk_files::{BackingFile, Counted, LastingFile};
use disk_preparer::Node;
use std::alloc::Global;
use std::cell::Cell;
use std::fmt::Write;
use std::thread;
use std::time::Duration;

/// The error of a call that fails, as a system numbers EIO.
pub const FAILED: u32 = 5;

/// What the file is by.
pub const NODE: Node = Node {
    device: 0,
    number: 0,
};

/// So many milliseconds are a while.
const A_WHILE: u64 = 400;

/// A file, of which one flush fails, counted from 0, or none; and one write, counted from 0, or none. Where it has a clock, that flush
/// takes a while, and each other one twice as long. If it is to, it keeps a line for each write and flush of its device: of how many
/// bytes, at which offset, and behind how many writes that had ended.
#[derive(Drop)]
pub struct FakeFile {
    length: u64,
    flushes: Cell<u32>,
    flush_fails: Option<u32>,
    write_fails: Option<u64>,
    clock: Option<HostRuntime>,
    pub calls: Option<String>,
}

impl FakeFile {
    /// One of four blocks.
    pub fn new(flush_fails: Option<u32>) -> FakeFile {
        FakeFile {
            length: 2048,
            flushes: Cell::new(0),
            flush_fails,
            write_fails: None,
            clock: None,
            calls: None,
        }
    }

    /// One whose flushes take their time.
    pub fn slow(clock: HostRuntime, flush_fails: Option<u32>) -> FakeFile {
        FakeFile {
            clock: Some(clock),
            ..FakeFile::new(flush_fails)
        }
    }

    /// One of so many bytes, which keeps its calls.
    pub fn keeping(alloc: Global, length: u64, write_fails: u64) -> FakeFile {
        FakeFile {
            length,
            write_fails: Some(write_fails),
            calls: Some(String::new(alloc)),
            ..FakeFile::new(None)
        }
    }

    // Takes a while, so many times.
    fn wait(&self, times: u64) {
        if let Some(clock) = &self.clock {
            thread::sleep(clock, Duration::from_millis(A_WHILE.saturating_mul(times)));
        }
    }
}

impl Counted for FakeFile {
    ghost ended = { λ writes. true };
}

impl BackingFile for FakeFile {
    ghost claims = { false };

    ghost bytes = { λ f. [] };

    ghost may_hold = { λ f k value. Unit {0} };

    ghost node = { λ f. record { device = 0; number = 0 } };

    ghost has_read = { λ node offset bytes. Unit {0} };

    ghost has_written = { λ node offset bytes. Unit {0} };

    ghost lasts = { λ node writes. Unit {0} };

    ghost is_outcome = { λ f k h lt. tt };

    ghost none_has_ended = { refl };

    fn node(&self) -> Node {
        NODE
    }

    fn end(&self) -> Result<u64, u32> {
        Ok(self.length)
    }

    fn read_at(&self, _room: &mut [u8], _offset: u64) -> Result<(), u32> {
        Ok(())
    }

    fn write_at(&mut self, part: &[u8], offset: u64, writes: u64) -> Result<(), u32> {
        if let Some(calls) = &mut self.calls {
            let line = write!(calls, "\nwrite {} at {offset} behind {writes}", part.len());
            if line.is_err() {
                return Err(0);
            }
        }
        if self.write_fails == Some(writes) {
            return Err(FAILED);
        }
        Ok(())
    }

    fn flush(&mut self, writes: u64) -> Result<(), u32> {
        if let Some(calls) = &mut self.calls {
            if write!(calls, "\nflush behind {writes}").is_err() {
                return Err(0);
            }
        }
        self.make_last(writes)
    }
}

impl LastingFile for FakeFile {
    ghost unclaimed = { refl };

    fn make_last(&self, _writes: u64) -> Result<(), u32> {
        let before = self.flushes.get();
        self.flushes.set(before.wrapping_add(1));
        if self.flush_fails == Some(before) {
            self.wait(1);
            Err(FAILED)
        } else {
            self.wait(2);
            Ok(())
        }
    }
}
