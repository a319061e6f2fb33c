//! What is counted of the commands at a unit.
ghost use Rattle.std.specs.Prelude.{◌≤◌, ◌<◌};

use events::Operation;

/// How many operations are told apart.
pub const OPERATIONS: usize = 7;

/// How many sense keys there are (SPC-4, 4.5.6).
pub const KEYS: usize = 16;

/// The sense key of a medium that failed (SPC-4, table 43).
const MEDIUM_ERROR: u8 = 3;

/// The longest times of the buckets of times, in microseconds. What took longer is in one more bucket.
pub const BOUNDS: [u64; 14] = [
    10, 20, 50, 100, 250, 500, 1000, 2500, 10000, 50000, 250000, 1000000, 2500000, 10000000,
];

/// How many buckets of times there are.
pub const BUCKETS: usize = 15;

/// How a command ended (SAM-5, 5.3.1).
#[derive(Clone, Copy)]
pub enum Ended {
    Good,
    /// CHECK CONDITION with this sense key.
    Check(u8),
    Conflict,
    Busy,
}

/// A command that was answered, and the bytes that it read and wrote.
#[derive(Clone, Copy)]
pub struct Served {
    pub operation: Operation,
    pub ended: Ended,
    pub read: u64,
    pub written: u64,
    /// It asked that its blocks are flushed before it is answered.
    pub flushes: bool,
}

/// What is counted of commands that were answered. A number that is past 2^64 begins anew.
#[derive(Clone, Copy)]
pub struct Counts {
    /// By their operations.
    pub commands: [u64; OPERATIONS],
    /// Bytes that were read and written by commands that were GOOD.
    pub read: u64,
    pub written: u64,
    /// Those that ended with GOOD, RESERVATION CONFLICT and BUSY, and with CHECK CONDITION by their sense keys.
    pub good: u64,
    pub conflicts: u64,
    pub busy: u64,
    pub checks: [u64; KEYS],
    /// Those that asked for a flush before their answer, and those of them that ended with MEDIUM ERROR.
    pub flushes: u64,
    pub failed_flushes: u64,
    /// By the buckets of the times that they took, and these times together: of all, of those that read blocks, and of those that wrote
    /// some.
    pub times: [u64; BUCKETS],
    pub micros: u64,
    pub read_micros: u64,
    pub write_micros: u64,
}

/// So many commands have answers that leave together: all of them, those that read blocks, and those that wrote some.
#[derive(Clone, Copy)]
pub struct Leaving {
    pub all: u64,
    pub reads: u64,
    pub writes: u64,
}

impl Leaving {
    /// Of no command.
    pub const fn none() -> Leaving {
        Leaving {
            all: 0,
            reads: 0,
            writes: 0,
        }
    }

    /// One more, with this operation.
    pub fn add(&mut self, operation: Operation) {
        self.all = self.all.wrapping_add(1);
        match operation {
            Operation::Read => self.reads = self.reads.wrapping_add(1),
            Operation::Write | Operation::CompareAndWrite => {
                self.writes = self.writes.wrapping_add(1);
            }
            Operation::SynchronizeCache
            | Operation::ReserveOut
            | Operation::SetGroups
            | Operation::Other => {}
        }
    }
}

// The place of an operation among all.
fn place_of(operation: Operation) -> usize
    ensures { result < 7 }
{
    match operation {
        Operation::Read => 0,
        Operation::Write => 1,
        Operation::CompareAndWrite => 2,
        Operation::SynchronizeCache => 3,
        Operation::ReserveOut => 4,
        Operation::SetGroups => 5,
        Operation::Other => 6,
    }
}

/// The operations, in the order in which they are counted.
pub const IN_ORDER: [Operation; OPERATIONS] = [
    Operation::Read,
    Operation::Write,
    Operation::CompareAndWrite,
    Operation::SynchronizeCache,
    Operation::ReserveOut,
    Operation::SetGroups,
    Operation::Other,
];

// The bucket of a time.
fn bucket_of(micros: u64) -> usize
    ensures { result ≤ 14 }
{
    BOUNDS.partition_point(|bound| *bound < micros)
}

// Counts one more at a place.
pub(crate) fn raise(counts: &mut [u64], place: usize) {
    if let Some(count) = counts.get_mut(place) {
        *count = count.wrapping_add(1);
    }
}

// Adds to each the other that has its place.
fn add_each(sums: &mut [u64], others: &[u64]) {
    for (sum, other) in sums.iter_mut().zip(others) {
        *sum = sum.wrapping_add(*other);
    }
}

// Adds the time of so many commands, each of which took so long.
fn add_times(sum: &mut u64, micros: u64, commands: u64) {
    *sum = sum.wrapping_add(micros.wrapping_mul(commands));
}

impl Counts {
    /// Of no command.
    pub const fn none() -> Counts {
        Counts {
            commands: [0; OPERATIONS],
            read: 0,
            written: 0,
            good: 0,
            conflicts: 0,
            busy: 0,
            checks: [0; KEYS],
            flushes: 0,
            failed_flushes: 0,
            times: [0; BUCKETS],
            micros: 0,
            read_micros: 0,
            write_micros: 0,
        }
    }

    /// Counts a command, but for its time.
    pub fn count(&mut self, served: &Served) {
        raise(&mut self.commands, place_of(served.operation));
        self.read = self.read.wrapping_add(served.read);
        self.written = self.written.wrapping_add(served.written);
        match served.ended {
            Ended::Good => self.good = self.good.wrapping_add(1),
            Ended::Check(key) => raise(&mut self.checks, usize::from(key)),
            Ended::Conflict => self.conflicts = self.conflicts.wrapping_add(1),
            Ended::Busy => self.busy = self.busy.wrapping_add(1),
        }
        if served.flushes {
            self.count_flush(served.ended);
        }
    }

    /// Counts the times of so many commands, each of which took so long from its last byte to its answer.
    pub fn take(&mut self, micros: u64, commands: Leaving) {
        if let Some(count) = self.times.get_mut(bucket_of(micros)) {
            *count = count.wrapping_add(commands.all);
        }
        add_times(&mut self.micros, micros, commands.all);
        add_times(&mut self.read_micros, micros, commands.reads);
        add_times(&mut self.write_micros, micros, commands.writes);
    }

    // Counts the flush of a command that ended so.
    fn count_flush(&mut self, ended: Ended) {
        self.flushes = self.flushes.wrapping_add(1);
        if let Ended::Check(MEDIUM_ERROR) = ended {
            self.failed_flushes = self.failed_flushes.wrapping_add(1);
        }
    }

    /// Adds what was counted of other commands.
    pub fn add(&mut self, other: &Counts) {
        add_each(&mut self.commands, &other.commands);
        add_each(&mut self.checks, &other.checks);
        add_each(&mut self.times, &other.times);
        self.read = self.read.wrapping_add(other.read);
        self.written = self.written.wrapping_add(other.written);
        self.good = self.good.wrapping_add(other.good);
        self.conflicts = self.conflicts.wrapping_add(other.conflicts);
        self.busy = self.busy.wrapping_add(other.busy);
        self.flushes = self.flushes.wrapping_add(other.flushes);
        self.failed_flushes = self.failed_flushes.wrapping_add(other.failed_flushes);
        self.micros = self.micros.wrapping_add(other.micros);
        self.read_micros = self.read_micros.wrapping_add(other.read_micros);
        self.write_micros = self.write_micros.wrapping_add(other.write_micros);
    }

    /// How many commands had this operation.
    pub fn of(&self, operation: Operation) -> u64 {
        match self.commands.get(place_of(operation)) {
            Some(count) => *count,
            None => 0,
        }
    }

    /// How many commands they are.
    pub fn all(&self) -> u64 {
        let mut all = 0u64;
        for count in &self.commands {
            all = all.wrapping_add(*count);
        }
        all
    }
}
