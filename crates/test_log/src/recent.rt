//! What the array keeps of its last ten minutes.
use crate::ends::{must, must_read};
use events::{Initiator, Operation, Path, SessionType};
use meters::{Counts, Ended, Hand, Leaving, Meters, POINTS, Point, STEP, Served, Visit};
use std::alloc::Global;
use std::net::{Ipv4Addr, SocketAddrV4};
use std::process::Abort;
use std::sync::Wait;
use std::test::*;
use std::time::{Clock, Duration};

// A session by this controller begins.
fn enter<R: Wait + Abort>(rt: &R, alloc: Global, meters: &Meters, tag: u16) -> Hand {
    let who = Initiator {
        name: b"iqn.a",
        isid: 1,
    };
    let portal = SocketAddrV4::new(Ipv4Addr::LOCALHOST, 3260);
    let path = Path {
        from: portal,
        portal,
        tag,
    };
    let visit = Visit::new(alloc, who, path, 1, SessionType::Normal, Duration::ZERO);
    let visit = visit.expect(rt, "memory");
    meters.enter(rt, alloc, visit).expect(rt, "memory")
}

// A session's command at a unit reads or writes so many bytes, and its answer leaves.
fn serve(
    rt: &impl Clock,
    hand: &mut Hand,
    unit: u8,
    operation: Operation,
    read: u64,
    written: u64,
) {
    hand.came(rt);
    hand.begin(unit);
    let served = Served {
        operation,
        ended: Ended::Good,
        read,
        written,
        flushes: false,
    };
    hand.end(unit, Some(served));
    hand.leave(rt);
}

// Of each point its moment, and of each unit the commands and bytes that were read, and those that were written.
fn text_of(rt: &impl Abort, alloc: Global, points: &[Point]) -> String {
    let mut text = String::new(alloc);
    for point in points {
        let at = point.at;
        write!(text, "{at}:").expect(rt, "memory");
        for unit in &point.units {
            let (reads, writes) = (unit.reads, unit.writes);
            let (read, written) = (unit.read_bytes, unit.written_bytes);
            write!(text, " {reads} {read} {writes} {written},").expect(rt, "memory");
        }
        text.push('\n').expect(rt, "memory");
    }
    text
}

// Two sessions, by both controllers, at two units; one of them ends.
fn kept<R: Wait + Clock + Abort>(rt: &R, alloc: Global) -> Vec<Point> {
    let meters = Meters::new(alloc, 2).expect(rt, "memory");
    meters.keep(rt, Duration::from_secs(5));
    let mut first = enter(rt, alloc, &meters, 1);
    let mut second = enter(rt, alloc, &meters, 2);
    serve(rt, &mut first, 1, Operation::Read, 512, 0);
    serve(rt, &mut second, 1, Operation::Read, 1024, 0);
    meters.keep(rt, Duration::from_secs(15));
    serve(rt, &mut first, 0, Operation::Write, 0, 4096);
    meters.leave(rt, first);
    serve(rt, &mut second, 0, Operation::CompareAndWrite, 0, 512);
    serve(rt, &mut second, 0, Operation::SynchronizeCache, 0, 0);
    meters.keep(rt, Duration::from_secs(25));
    meters.recent(rt, alloc).expect(rt, "memory")
}

const KEPT: &str = "5: 0 0 0 0, 0 0 0 0,
15: 0 0 0 0, 2 1536 0 0,
25: 0 0 2 4608, 2 1536 0 0,
";

#[test]
fn a_point_has_what_was_counted_until_its_moment(rt: HostRuntime) {
    let text = text_of(&rt, rt.alloc(), &kept(&rt, rt.alloc()));
    must_read(&rt, text.as_str(), KEPT);
}

// How many points there are behind so many, the moment of the first, and whether each other one is a step behind that before it.
fn shape<R: Wait + Abort>(rt: &R, alloc: Global, count: u64) -> (usize, u64, bool) {
    let meters = Meters::new(alloc, 1).expect(rt, "memory");
    for place in 0..count {
        meters.keep(rt, Duration::from_secs(STEP.saturating_mul(place)));
    }
    let points = meters.recent(rt, alloc).expect(rt, "memory");
    let first = points.first().map_or(0, |point| point.at);
    let mut is_whole = true;
    for (place, point) in points.iter().enumerate() {
        let wanted = first.saturating_add(STEP.saturating_mul(place as u64));
        is_whole = is_whole && point.at == wanted;
    }
    (points.len(), first, is_whole)
}

// How often was kept what was counted, how many points there are then, and the moment of the first.
const POINTS_KEPT: [(u64, usize, u64); 6] = [
    (0, 0, 0),
    (1, 1, 0),
    (60, 60, 0),
    (61, 61, 0),
    (62, 61, 10),
    (183, 61, 1220),
];

#[test]
fn ten_minutes_are_kept_the_oldest_first(rt: HostRuntime) {
    must(&rt, POINTS == 61 && STEP == 10, "ten minutes", &POINTS);
    for (count, points, first) in &POINTS_KEPT {
        let seen = shape(&rt, rt.alloc(), *count);
        must(
            &rt,
            seen == (*points, *first, true),
            "points",
            &(count, seen),
        );
    }
}

#[test]
fn times_are_counted_by_what_was_asked_for(rt: HostRuntime) {
    let (mut counts, mut leaving) = (Counts::none(), Leaving::none());
    for operation in [
        Operation::Read,
        Operation::Read,
        Operation::Write,
        Operation::CompareAndWrite,
        Operation::Write,
        Operation::SynchronizeCache,
    ] {
        leaving.add(operation);
    }
    counts.take(7, leaving);
    let seen = (counts.micros, counts.read_micros, counts.write_micros);
    must(&rt, seen == (42, 14, 21), "microseconds", &seen);
}
