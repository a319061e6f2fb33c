//! The lines of the log, as they are to be read.
use crate::ends::must_read;
use events::{
    Access, Action, By, Call, Cause, Event, Initiator, Part, Path, Place, Reservation, SessionType,
    Stamp, Stayed, Why, spell,
};
use std::alloc::Global;
use std::net::{Ipv4Addr, SocketAddrV4};
use std::process::Abort;
use std::test::*;
use std::time::Duration;

// An initiator port whose name would begin a line, and move a terminal.
const WHO: Initiator<'static> = Initiator {
    name: b"iqn.a\n\"b\\\x1b[2J\xff",
    isid: 0x4000_0137_0000,
};

// An initiator port for which nothing was left.
const LATE: Initiator<'static> = Initiator {
    name: b"iqn.late",
    isid: 1,
};

// How it came.
fn path() -> Path {
    Path {
        from: SocketAddrV4::new(Ipv4Addr::new(10, 0, 5, 7), 41022),
        portal: SocketAddrV4::new(Ipv4Addr::new(10, 0, 5, 1), 3264),
        tag: 2,
    }
}

const RESERVATION: Reservation = Reservation {
    action: Action::Preempt,
    key: 0xA,
    service_action_key: 0xFFFF_FFFF_FFFF_FFFF,
    kind: 5,
};

const PLACE: Place = Place {
    first: 200,
    count: 8,
};

// Events that name no connection, and their lines.
const LINES: [(Event<'static>, &str); 12] = [
    (Event::Ready, "event=ready"),
    (
        Event::WrongWords(b"--p\x1b[2J"),
        "event=wrong_words what=\"--p\\x1b[2J\"",
    ),
    (
        Event::CannotControl(13),
        "event=cannot_control errno=13 error=EACCES",
    ),
    (
        Event::ConnectionsEnded(8),
        "event=connections_ended count=8",
    ),
    (Event::LoginsRefused(8), "event=logins_refused count=8"),
    (Event::Discoveries(8), "event=discoveries count=8"),
    (
        Event::Ordered(b"end 3\r"),
        "event=order by=control line=\"end 3\\x0d\"",
    ),
    (
        Event::GroupsSet(1, 2, Access::Unavailable, Access::Optimized, By::Console),
        "event=groups_set unit=1 owner=2 states=3,0 by=console",
    ),
    (
        Event::Reserved(0, RESERVATION, WHO, 2),
        "event=reservation unit=0 action=preempt key=0xa service_action_key=0xffffffffffffffff \
         type=5 group=2 initiator=\"iqn.a\\x0a\\\"b\\\\\\x1b[2J\\xff\" isid=0x400001370000",
    ),
    (
        Event::DeviceFailed(0, Part::Disk, Call::Write, PLACE, 28),
        "event=device_failed unit=0 file=disk call=write block=200 blocks=8 errno=28 error=ENOSPC",
    ),
    // No array comes to these while somebody looks on.
    (
        Event::NotMoved(3, 2, Stayed::BadList, By::Console),
        "event=not_moved unit=3 to=2 why=bad_list by=console",
    ),
    (
        Event::NotMoved(7, 1, Stayed::Gone, By::Console),
        "event=not_moved unit=7 to=1 why=gone by=console",
    ),
];

// Ends the test unless each event is spelled so.
fn must_spell(rt: &impl Abort, alloc: Global, rows: &[(Event<'_>, &str)]) {
    for (event, wanted) in rows {
        let mut line = String::new(alloc);
        spell(&mut line, event).expect(rt, "memory");
        must_read(rt, line.as_str(), wanted);
    }
}

#[test]
fn events_are_spelled(rt: HostRuntime) {
    must_spell(&rt, rt.alloc(), &LINES);
    let path = path();
    let rows = [
        (
            Event::LoggedIn(WHO, path, 3, SessionType::Normal),
            "event=login initiator=\"iqn.a\\x0a\\\"b\\\\\\x1b[2J\\xff\" isid=0x400001370000 \
             from=10.0.5.7:41022 portal=10.0.5.1:3264 tag=2 tsih=3 type=normal",
        ),
        (
            Event::LoginRefused(WHO, path, 0x0302, Cause::NoRoom(7)),
            "event=login_refused initiator=\"iqn.a\\x0a\\\"b\\\\\\x1b[2J\\xff\" isid=0x400001370000 \
             from=10.0.5.7:41022 portal=10.0.5.1:3264 tag=2 status=0x302 words=\"Out of resources\" \
             lacks=room unit=7",
        ),
        (
            Event::ConnectionEnded(path, Why::Rejected(9, 1, 0x77)),
            "event=connection_ended from=10.0.5.7:41022 portal=10.0.5.1:3264 tag=2 \
             why=protocol_error reason=0x9 words=\"Invalid PDU field\" opcode=0x1 task=0x77",
        ),
        (
            Event::SessionEnded(WHO, path, 3, SessionType::Discovery, Why::ByConsole),
            "event=session_ended initiator=\"iqn.a\\x0a\\\"b\\\\\\x1b[2J\\xff\" isid=0x400001370000 \
             from=10.0.5.7:41022 portal=10.0.5.1:3264 tag=2 tsih=3 type=discovery why=by_console",
        ),
        (
            Event::ConnectionEnded(path, Why::PushedOut),
            "event=connection_ended from=10.0.5.7:41022 portal=10.0.5.1:3264 tag=2 why=too_many_wait",
        ),
        // Nor to these.
        (
            Event::LoginRefused(LATE, path, 0x0302, Cause::NoTsih),
            "event=login_refused initiator=\"iqn.late\" isid=0x1 from=10.0.5.7:41022 \
             portal=10.0.5.1:3264 tag=2 status=0x302 words=\"Out of resources\" lacks=tsih",
        ),
        (
            Event::LoginRefused(LATE, path, 0x0302, Cause::NoNumber),
            "event=login_refused initiator=\"iqn.late\" isid=0x1 from=10.0.5.7:41022 \
             portal=10.0.5.1:3264 tag=2 status=0x302 words=\"Out of resources\" lacks=number",
        ),
    ];
    must_spell(&rt, rt.alloc(), &rows);
}

// Seconds and microseconds since the beginning of 1970, and how that moment is spelled.
const MOMENTS: [(u64, u32, &str); 5] = [
    (0, 0, "time=1970-01-01T00:00:00.000000Z"),
    (951_827_696, 7, "time=2000-02-29T12:34:56.000007Z"),
    (1_767_225_599, 999_999, "time=2025-12-31T23:59:59.999999Z"),
    (4_107_542_399, 1000, "time=2100-02-28T23:59:59.001000Z"),
    (4_107_542_400, 0, "time=2100-03-01T00:00:00.000000Z"),
];

#[test]
fn moments_are_spelled(rt: HostRuntime) {
    for (seconds, micros, wanted) in &MOMENTS {
        let stamp = Stamp::of(Duration::new(*seconds, *micros * 1000));
        let text = stamp.to_string(rt.alloc()).expect(&rt, "memory");
        must_read(&rt, text.as_str(), wanted);
    }
}
