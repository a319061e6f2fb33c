//! What was written to a disk and is not flushed: what counts as flushed, who waits for that, and for how long.
use crate::ends::{fail, must};
use crate::files::disk_in;
use disk_files::{FileBlocks, FileLog};
use disk_preparer::{Account, Preparer};
use event_log::Log;
use events::Part;
use file_preparer::{Backlog, FilePreparer, FlushEnd};
use meters::{Meters, Unflushed};
use std::alloc::Global;
use std::process;
use std::process::Abort;
use std::sync::{Arc, Wait};
use std::time::{Clock, Duration};
use test_disks::{clean, folder};

/// What the kernel lets programs write.
const FREE: u64 = 256 << 20;

/// A part of that which shows.
const PART: u64 = 1 << 20;

/// So much that the bound is what the disk flushes; and so many bytes a disk flushes in half a second.
const MUCH: u64 = 1 << 40;

const HALF: u64 = 25 << 20;

/// In microseconds.
const SECOND: u64 = 1_000_000;

/// So many milliseconds a session waits at most, and no call of a test takes so many.
const PATIENCE: u64 = 400;

const LONG: u64 = 5000;

// A session writes so much, and then something that it has not told yet.
fn write(backlog: &Backlog, account: &mut Account, bytes: u64) {
    backlog.enter(bytes, account);
    backlog.enter(0, account);
}

// Else a bound would be kept that the disk does not keep.
#[test]
fn a_flush_counts_what_had_ended_when_it_began(rt: HostRuntime) {
    let (backlog, mut account) = (Backlog::new(FREE), Account::new());
    write(&backlog, &mut account, 3 * PART);
    let begun = backlog.begin(1);
    write(&backlog, &mut account, PART);
    let before = backlog.unflushed();
    backlog.end(begun, 2, FlushEnd::Made);
    let behind = backlog.unflushed();
    must(
        &rt,
        (before, behind) == (4 * PART, PART),
        "unflushed",
        &(before, behind),
    );
}

#[test]
fn a_flush_that_fails_counts_nothing(rt: HostRuntime) {
    let (backlog, mut account) = (Backlog::new(FREE), Account::new());
    write(&backlog, &mut account, PART);
    let begun = backlog.begin(1);
    backlog.end(begun, 2, FlushEnd::Failed);
    let unflushed = backlog.unflushed();
    must(&rt, unflushed == PART, "unflushed", &unflushed);
}

#[test]
fn who_writes_little_does_not_wait_for_who_writes_much(rt: HostRuntime) {
    let (backlog, mut much, mut little) = (Backlog::new(FREE), Account::new(), Account::new());
    write(&backlog, &mut much, backlog.bound());
    let looks = backlog.enter(4096, &mut little);
    let heavy = (backlog.is_heavy(&mut much), backlog.is_heavy(&mut little));
    let room = (backlog.has_room(true), backlog.has_room(false));
    let seen = (looks, heavy, room);
    must(
        &rt,
        seen == (true, (true, false), (false, true)),
        "who waits",
        &seen,
    );
}

// Writes, and flushes that so many microseconds later, within a millisecond; what may be unflushed before and behind it.
fn bounds(later: u64, end: FlushEnd) -> (u64, u64) {
    let (backlog, mut account) = (Backlog::new(MUCH), Account::new());
    let begun = backlog.begin(SECOND);
    backlog.end(begun, SECOND, end);
    let before = backlog.bound();
    write(&backlog, &mut account, 8 * PART);
    let then = later.saturating_add(SECOND);
    let begun = backlog.begin(then);
    backlog.end(begun, then.saturating_add(1000), end);
    backlog.bind(MUCH, 1);
    (before, backlog.bound())
}

// Else a disk would count as faster than any, to which little is written: what it has then is unflushed for minutes.
#[test]
fn what_the_system_has_written_by_itself_shows_no_pace(rt: HostRuntime) {
    let (before, behind) = bounds(13 * SECOND, FlushEnd::Made);
    must(&rt, before == behind, "a flush late", &(before, behind));
    let (before, behind) = bounds(SECOND, FlushEnd::Needless);
    must(&rt, before == behind, "no flush", &(before, behind));
    let (before, behind) = bounds(SECOND, FlushEnd::Made);
    let is_faster = before < behind && behind < before.saturating_mul(3);
    must(&rt, is_faster, "a flush at once", &(before, behind));
}

// Each flush begins while the one before it runs, as where the array and a host flush. The disk takes twice a half each second.
#[test]
fn flushes_that_run_one_into_the_other_show_the_pace(rt: HostRuntime) {
    let (backlog, mut much, mut little) = (Backlog::new(MUCH), Account::new(), Account::new());
    let mut running = backlog.begin(SECOND);
    let mut now = SECOND;
    for _ in 0..64 {
        write(&backlog, &mut much, HALF);
        write(&backlog, &mut little, 65536);
        let next = backlog.begin(now.saturating_add(SECOND / 4));
        now = now.saturating_add(SECOND / 2);
        backlog.end(running, now, FlushEnd::Made);
        running = next;
    }
    backlog.bind(MUCH, 1);
    let bound = backlog.bound();
    let is_so = bound > 18 * HALF && bound < 22 * HALF;
    must(&rt, is_so, "ten seconds of the disk", &bound);
    let heavy = (backlog.is_heavy(&mut much), backlog.is_heavy(&mut little));
    must(&rt, heavy == (true, false), "who writes much", &heavy);
}

// For how many milliseconds a session waits that writes so much next.
fn waits<P: Preparer>(rt: &impl Clock, preparer: &P, account: &mut Account, bytes: u64) -> u64 {
    let begun = rt.monotonic().unwrap_or(Duration::ZERO);
    preparer.let_in(bytes, account, Duration::from_millis(PATIENCE));
    let ended = rt.monotonic().unwrap_or(Duration::ZERO);
    u64::try_from(ended.saturating_sub(begun).as_millis()).unwrap_or(u64::MAX)
}

// It waits where more than the kernel ever lets be is not flushed, for less where it has waited in vain, and not behind a flush.
fn waits_until_a_flush<P: Preparer>(rt: &(impl Clock + Abort), preparer: &P) {
    let mut account = Account::new();
    let first = waits(rt, preparer, &mut account, u64::MAX / 4);
    let full = waits(rt, preparer, &mut account, PART);
    let again = waits(rt, preparer, &mut account, PART);
    must(rt, again < PATIENCE, "behind one in vain", &again);
    must(rt, preparer.await_flush(1), "a flush is due", &());
    must(rt, preparer.flush(), "a flush", &());
    let behind = waits(rt, preparer, &mut account, PART);
    let waited = (first, full, behind);
    let are_so = first < PATIENCE && full >= PATIENCE && full < LONG && behind < PATIENCE;
    must(rt, are_so, "milliseconds", &waited);
    preparer.close();
    must(rt, !preparer.await_flush(1), "no flush is due", &());
}

// A log of which is counted what it is told of two units.
fn counting(rt: &impl Abort, alloc: Global) -> Log {
    let meters = Meters::new(alloc, 2).expect(rt, "memory");
    Log::off().counting(Arc::new(alloc, meters).expect(rt, "memory"))
}

// What is counted of both.
fn counted<R: Wait + Abort>(rt: &R, alloc: Global, log: &Log) -> (Unflushed, Unflushed) {
    let meters = log.meters().expect(rt, "meters");
    let seen = meters.look(rt, alloc, Duration::ZERO).expect(rt, "memory");
    let units = &seen.happened.units;
    match (units.get(0), units.get(1)) {
        (Some(first), Some(second)) => (first.unflushed, second.unflushed),
        _ => fail(rt, "units", &units.len()),
    }
}

// Two writes waited, one of them for its time; one flush of its own was due; and what was written behind it is all that is not flushed.
// Of the other unit there is nothing.
fn are_counted<R: Wait + Abort>(rt: &R, alloc: Global, log: &Log) {
    let (other, own) = counted(rt, alloc, log);
    let nothing = (
        other.bytes,
        other.bound,
        other.waits,
        other.waited_micros,
        other.own_flushes,
    );
    must(
        rt,
        nothing == (0, 0, 0, 0, 0),
        "of the other unit",
        &nothing,
    );
    let (waits, micros, flushes) = (own.waits, own.waited_micros, own.own_flushes);
    let are_so = waits == 2 && micros >= 1000 * PATIENCE && micros < 1000 * LONG && flushes == 1;
    must(rt, are_so, "waits", &(waits, micros, flushes));
    let stands = own.bytes == PART && own.bound >= PART;
    must(rt, stands, "not flushed", &(own.bytes, own.bound));
}

#[test]
fn a_wait_ends_with_a_flush_or_with_its_time(rt: HostRuntime) {
    let alloc = rt.alloc();
    let folder = folder(&rt, process::id(rt.process()), "backlog").expect(&rt, "a folder");
    let path = disk_in(&rt, alloc, folder.as_str());
    let path = path.as_str();
    let mut blocks = FileBlocks::open(&rt, path).expect(&rt, path);
    let log = counting(&rt, alloc);
    let file_log = FileLog::new(log.share().expect(&rt, "memory"), 1, Part::Disk);
    let preparer = FilePreparer::open(rt, alloc, path, &mut blocks, Some(file_log));
    waits_until_a_flush(&rt, &preparer);
    are_counted(&rt, alloc, &log);
    clean(&rt, folder.as_str()).expect(&rt, "a folder");
}
