//! What is counted of an array, and when what failed is over.
use crate::ends::{must, must_read};
use event_log::{Log, start_ticks};
use events::{Call, Event, Operation, Part, Place};
use meters::{CALLS_IN_ORDER, Counts, Ended, Failures, Happenings, Meters, Served, UnitHappenings};
use std::alloc::Global;
use std::process::Abort;
use std::sync::{Arc, Wait};
use std::test::*;
use std::time::Duration;

/// What happens to files of a unit.
#[derive(Clone, Copy)]
enum Step {
    Hangs(u8),
    /// A call on a registration file does.
    SaveHangs(u8),
    Grows(u8),
    /// A call on a disk fails, on a registration file, with this error.
    Fails(u8, Call),
    FailsToSave(u8, Call),
    /// A read of the blocks 8 to 11 of a disk fails.
    FailsToRead(u8),
    /// A read of this block fails.
    FailsToReadOne(u8, u32),
    /// A call on a registration file that had hung has come back.
    IsBack(u8, Call),
    /// So many blocks from one on are read.
    Reads(u8, u32, u32),
    /// A flush goes well that began when so many writes had failed.
    Flushes(u8, u64),
    /// An open of a disk goes well; one of a registration file.
    Opens(u8),
    Saves(u8),
    Acknowledged,
}

use Step::{
    Acknowledged, Fails, FailsToRead, FailsToReadOne, FailsToSave, Flushes, Grows, Hangs, IsBack,
    Opens, Reads, SaveHangs, Saves,
};

const NOWHERE: Place = Place { first: 0, count: 0 };

const THERE: Place = Place { first: 8, count: 4 };

fn tell_failure(log: &Log, unit: u8, part: Part, call: Call, place: Place) {
    log.note(&Event::DeviceFailed(unit, part, call, place, 5));
}

// What is well since it was counted is over.
fn end_all(log: &Log, unit: u8, part: Part, call: Call) {
    log.end(unit, part, call, log.failed(unit, part, call));
}

fn make(log: &Log, step: Step) {
    match step {
        Hangs(unit) => log.note(&Event::Hung(unit, Part::Disk, Call::Write)),
        SaveHangs(unit) => log.note(&Event::Hung(unit, Part::Registrations, Call::Read)),
        Grows(unit) => log.note(&Event::Grew(unit, Part::Disk)),
        Fails(unit, call) => tell_failure(log, unit, Part::Disk, call, NOWHERE),
        FailsToSave(unit, call) => tell_failure(log, unit, Part::Registrations, call, NOWHERE),
        FailsToRead(unit) => tell_failure(log, unit, Part::Disk, Call::Read, THERE),
        FailsToReadOne(unit, first) => {
            let place = Place { first, count: 1 };
            tell_failure(log, unit, Part::Disk, Call::Read, place);
        }
        IsBack(unit, call) => {
            log.note(&Event::Back(unit, Part::Registrations, call, 0));
        }
        Reads(unit, first, count) => log.read(unit, Part::Disk, Place { first, count }),
        Flushes(unit, count) => log.end(unit, Part::Disk, Call::Write, count),
        Opens(unit) => end_all(log, unit, Part::Disk, Call::Open),
        Saves(unit) => end_all(log, unit, Part::Registrations, Call::Open),
        Acknowledged => {
            if let Some(meters) = log.meters() {
                meters.acknowledge();
            }
        }
    }
}

// Puts what failed of a kind behind a text, where something did.
fn put(
    rt: &impl Abort,
    text: &mut String,
    unit: usize,
    what: &str,
    call: &str,
    failures: &Failures,
) {
    if failures.count != 0 {
        let (count, when) = (failures.count, if failures.is_now { "now" } else { "over" });
        write!(text, "{unit} {what} {call} {count} {when};").expect(rt, "memory");
    }
}

// The same of all calls on a file.
fn put_file(rt: &impl Abort, text: &mut String, unit: usize, what: &str, calls: &[Failures]) {
    for (call, failures) in CALLS_IN_ORDER.iter().zip(calls) {
        put(rt, text, unit, what, call.text(), failures);
    }
}

fn put_unit(rt: &impl Abort, text: &mut String, unit: usize, seen: &UnitHappenings) {
    put_file(rt, text, unit, "disk", &seen.disk);
    put_file(rt, text, unit, "file", &seen.registrations);
    put(rt, text, unit, "disk", "hung", &seen.disk_hung);
    put(rt, text, unit, "file", "hung", &seen.registrations_hung);
    let grew = seen.grew;
    if grew != 0 {
        write!(text, "{unit} grew {grew};").expect(rt, "memory");
    }
}

fn text_of(rt: &impl Abort, alloc: Global, seen: &Happenings) -> String {
    let mut text = String::new(alloc);
    for (unit, seen) in seen.units.iter().enumerate() {
        put_unit(rt, &mut text, unit, seen);
    }
    text
}

// A log of so many units that is not written, and counts.
fn counting(rt: &impl Abort, alloc: Global, units: usize) -> Log {
    let meters = Meters::new(alloc, units).expect(rt, "memory");
    Log::off().counting(Arc::new(alloc, meters).expect(rt, "memory"))
}

// What it has counted.
fn happened<R: Wait + Abort>(rt: &R, alloc: Global, log: &Log) -> Happenings {
    let meters = log.meters().expect(rt, "a log that counts");
    meters
        .look(rt, alloc, Duration::ZERO)
        .expect(rt, "memory")
        .happened
}

// What happens to files of two units, and what is told of them then.
const HAPPENINGS: [(&[Step], &str); 25] = [
    (&[], ""),
    // Of its own unit, and no growth.
    (&[Hangs(1)], "1 disk hung 1 now;"),
    // A file that is back is none that hangs, and says nothing of the other.
    (&[SaveHangs(0)], "0 file hung 1 now;"),
    (
        &[Hangs(0), SaveHangs(0), IsBack(0, Call::Read)],
        "0 disk hung 1 now;0 file hung 1 over;",
    ),
    (&[Grows(1), Grows(1)], "1 grew 2;"),
    (&[Fails(1, Call::Write)], "1 disk write 1 now;"),
    (&[FailsToSave(0, Call::Write)], "0 file write 1 now;"),
    (
        &[Fails(0, Call::Write), Flushes(0, 1)],
        "0 disk write 1 over;",
    ),
    (
        &[Fails(0, Call::Write), Flushes(1, 1)],
        "0 disk write 1 now;",
    ),
    // A flush that began before says nothing of it.
    (
        &[Fails(0, Call::Write), Fails(0, Call::Write), Flushes(0, 1)],
        "0 disk write 2 now;",
    ),
    (
        &[Fails(0, Call::Write), Flushes(0, 1), Fails(0, Call::Write)],
        "0 disk write 2 now;",
    ),
    (
        &[Fails(0, Call::Flush), Flushes(0, 1), Acknowledged],
        "0 disk flush 1 now;",
    ),
    // All of its blocks.
    (&[FailsToRead(0), Reads(0, 8, 3)], "0 disk read 1 now;"),
    (&[FailsToRead(0), Reads(0, 9, 8)], "0 disk read 1 now;"),
    (&[FailsToRead(0), Reads(1, 8, 4)], "0 disk read 1 now;"),
    (&[FailsToRead(0), Reads(0, 0, 12)], "0 disk read 1 over;"),
    // All that failed meanwhile.
    (
        &[FailsToRead(0), FailsToReadOne(0, 40), Reads(0, 40, 1)],
        "0 disk read 2 now;",
    ),
    (
        &[FailsToRead(0), FailsToReadOne(0, 40), Reads(0, 8, 33)],
        "0 disk read 2 over;",
    ),
    // However far they lie from each other, and however small the reads are.
    (
        &[
            FailsToRead(0),
            FailsToReadOne(0, 900000),
            Reads(0, 900000, 1),
            Reads(0, 10, 2),
        ],
        "0 disk read 2 now;",
    ),
    (
        &[
            FailsToRead(0),
            FailsToReadOne(0, 900000),
            Reads(0, 900000, 1),
            Reads(0, 10, 2),
            Reads(0, 8, 2),
        ],
        "0 disk read 2 over;",
    ),
    // A save that came too late was told as failed, however it ended.
    (&[IsBack(0, Call::Flush)], "0 file write 1 now;"),
    (&[IsBack(0, Call::Read)], ""),
    (&[Fails(0, Call::Open), Saves(0)], "0 disk open 1 now;"),
    (&[Fails(0, Call::Open), Opens(0)], "0 disk open 1 over;"),
    (
        &[
            Fails(0, Call::Read),
            FailsToSave(1, Call::Open),
            Hangs(0),
            Acknowledged,
        ],
        "0 disk read 1 over;0 disk hung 1 now;1 file open 1 over;",
    ),
];

#[test]
fn what_failed_is_over_by_what_went_well(rt: HostRuntime) {
    let alloc = rt.alloc();
    for (steps, wanted) in &HAPPENINGS {
        let log = counting(&rt, alloc, 2);
        for step in *steps {
            make(&log, *step);
        }
        let told = text_of(&rt, alloc, &happened(&rt, alloc, &log));
        must_read(&rt, told.as_str(), wanted);
    }
}

/// So many places are known apart at which reads failed.
const PLACES: u32 = 64;

// Tells that a read failed at each of so many blocks, which lie apart.
fn fail_apart(log: &Log, blocks: u32) {
    for number in 0..blocks {
        make(log, FailsToReadOne(0, number.saturating_mul(100)));
    }
}

// Reads each of so many of them alone, in no order: the steps of so many go round.
fn read_apart(log: &Log, blocks: u32, step: u32) {
    let mut number = 0u32;
    for _ in 0..blocks {
        make(log, Reads(0, number.saturating_mul(100), 1));
        number = match number.saturating_add(step).checked_rem(blocks) {
            Some(next) => next,
            None => 0,
        };
    }
}

// Ends the test unless this is told: how many reads of a unit failed, and how many of them are not over.
fn must_tell<R: Wait + Abort>(rt: &R, alloc: Global, log: &Log, wanted: &str) {
    let mut text = String::new(alloc);
    for unit in &happened(rt, alloc, log).units {
        for failures in &unit.disk {
            let (count, lasting) = (failures.count, failures.lasting);
            if count != 0 {
                write!(text, "{count} {lasting};").expect(rt, "memory");
            }
        }
    }
    must_read(rt, text.as_str(), wanted);
}

// The same behind each of these steps.
fn must_tell_each<R: Wait + Abort>(rt: &R, alloc: Global, log: &Log, rows: &[(Step, &str)]) {
    for (step, wanted) in rows {
        make(log, *step);
        must_tell(rt, alloc, log, wanted);
    }
}

#[test]
fn reads_that_failed_at_many_places_are_over_in_any_order(rt: HostRuntime) {
    // How many places, the step by which they are read, and what is told when each was read.
    let rows = [
        (40, 17, "40 0;"),
        (PLACES, 27, "64 0;"),
        // Of those behind, what lies between them wants to be read too.
        (70, 69, "70 70;"),
    ];
    for (blocks, step, wanted) in &rows {
        let log = counting(&rt, rt.alloc(), 1);
        fail_apart(&log, *blocks);
        read_apart(&log, *blocks, *step);
        must_tell(&rt, rt.alloc(), &log, wanted);
    }
}

#[test]
fn reads_that_failed_at_too_many_places_are_over_in_order(rt: HostRuntime) {
    let log = counting(&rt, rt.alloc(), 1);
    fail_apart(&log, 70);
    let rows = [
        (Reads(0, 0, 6650), "70 70;"),
        (Reads(0, 6650, 251), "70 0;"),
    ];
    must_tell_each(&rt, rt.alloc(), &log, &rows);
}

#[test]
fn what_is_over_is_counted_apart(rt: HostRuntime) {
    let log = counting(&rt, rt.alloc(), 1);
    let rows = [
        (Fails(0, Call::Write), "1 1;"),
        (Fails(0, Call::Write), "2 2;"),
        (Flushes(0, 2), "2 0;"),
        (Fails(0, Call::Write), "3 1;"),
    ];
    must_tell_each(&rt, rt.alloc(), &log, &rows);
}

#[test]
fn the_clock_is_looked_at_before_its_thread_runs(rt: HostRuntime) {
    // Of many, since a thread may have had its turn by chance.
    for _ in 0..50 {
        let log = counting(&rt, rt.alloc(), 1);
        start_ticks(&rt, &log).expect(&rt, "a thread");
        let now = log.meters().expect(&rt, "a log that counts").now();
        must(&rt, now != 0, "the clock", &now);
    }
}

// What is counted of a WRITE with FUA that ended so: good, conflicts, busy, medium errors, flushes that failed.
fn counted(rt: &impl Abort, alloc: Global, ended: Ended) -> String {
    let mut counts = Counts::none();
    counts.count(&Served {
        operation: Operation::Write,
        ended,
        read: 0,
        written: 512,
        flushes: true,
    });
    let (good, conflicts, busy) = (counts.good, counts.conflicts, counts.busy);
    let (checks, lost) = (counts.checks[3], counts.failed_flushes);
    format!(in alloc; "{good} {conflicts} {busy} {checks} {lost}").expect(rt, "memory")
}

// How a command ended, and what is counted of it.
const COMMANDS: [(Ended, &str); 5] = [
    (Ended::Good, "1 0 0 0 0"),
    (Ended::Conflict, "0 1 0 0 0"),
    (Ended::Busy, "0 0 1 0 0"),
    (Ended::Check(3), "0 0 0 1 1"),
    (Ended::Check(5), "0 0 0 0 0"),
];

#[test]
fn commands_are_counted_as_they_ended(rt: HostRuntime) {
    for (ended, wanted) in &COMMANDS {
        let told = counted(&rt, rt.alloc(), *ended);
        must_read(&rt, told.as_str(), wanted);
    }
}
