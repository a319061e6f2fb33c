//! The thread that writes the lines of a log: how many lines were lost is told behind the next that are written.
use crate::ends::must;
use event_log::{Log, Page, close, start};
use events::{Call, Cause, Event, Initiator, Operation, Part, Path, Place, SessionType, Why};
use std::alloc::Global;
use std::fs::{self, File, OpenFile};
use std::io;
use std::net::{Ipv4Addr, SocketAddrV4};
use std::process::Abort;
use std::rt::Files;
use std::sync::atomic::{AtomicBool, AtomicU64, Ordering};
use std::sync::{Arc, Wait};
use std::thread::Parker;
use std::time::Clock;

const PATH: &str = "lines";

/// Where the lines of another test are.
const OTHER: &str = "others";

const FAILURES: &str = "failures";

/// What a page and its test share.
#[derive(Drop)]
struct Seen {
    // Whether the page can be opened.
    is_there: AtomicBool,
    // How often it was asked for.
    count: AtomicU64,
    bell: Parker,
}

/// A page of this name.
#[derive(Drop)]
struct LinesPage<R: Files<File = File> + Drop> {
    rt: R,
    name: &'static str,
    seen: Arc<Seen, Global>,
}

impl<R: Files<File = File> + Drop> Page for LinesPage<R> {
    fn open(&self) -> Option<File> {
        let file = if self.seen.is_there.load(Ordering::SeqCst) {
            File::options()
                .append(true)
                .create(true)
                .open(&self.rt, self.name)
                .ok()
        } else {
            None
        };
        self.seen.count.fetch_add(1, Ordering::SeqCst);
        self.seen.bell.unpark();
        file
    }
}

// A page of this name, which shares this with its test. What another run has left there goes.
fn page<R: Files<File = File> + Clone + Drop + Abort>(
    rt: &R,
    name: &'static str,
    seen: &Arc<Seen, Global>,
) -> LinesPage<R> {
    let _ = fs::remove_file(rt, name);
    LinesPage {
        rt: rt.clone().expect(rt, "memory"),
        name,
        seen: Arc::try_clone(seen).expect(rt, "memory"),
    }
}

// Waits until the page was asked for so often.
fn wait<R: Wait>(rt: &R, seen: &Seen, count: u64) {
    for _ in rt.forever() {
        if seen.count.load(Ordering::SeqCst) >= count {
            break;
        }
        seen.bell.park(rt);
    }
}

// What a page and its test share at first.
fn unseen(rt: &impl Abort, alloc: Global, is_there: bool) -> Arc<Seen, Global> {
    let seen = Seen {
        is_there: AtomicBool::new(is_there),
        count: AtomicU64::new(0),
        bell: Parker::new(),
    };
    Arc::new(alloc, seen).expect(rt, "memory")
}

// Tells a line that cannot be written, and one that can: what is written.
fn written<R: Files<File = File> + Wait + Clock + Abort>(
    rt: &R,
    alloc: Global,
    log: &Log,
    seen: &Seen,
) -> String {
    log.tell(rt, &Event::Ready);
    wait(rt, seen, 2);
    seen.is_there.store(true, Ordering::SeqCst);
    text_at_its_end(rt, alloc, log, PATH)
}

// What a line tells of.
fn event_of(line: Option<&str>) -> &str {
    let (_moment, event) = line
        .unwrap_or("")
        .rsplit_once(" event=")
        .unwrap_or(("", ""));
    event
}

#[test]
fn lines_that_were_lost_are_told(rt: HostRuntime) {
    let seen = unseen(&rt, rt.alloc(), false);
    let page = page(&rt, PATH, &seen);
    let log = Log::new(rt.alloc()).expect(&rt, "memory");
    // What threads may do is known here alone.
    start::<HostRuntime, LinesPage<HostRuntime>>(&rt, rt.alloc(), &log, page).expect(
        &rt, "a thread",
    );
    let text = written(&rt, rt.alloc(), &log, &seen);
    let mut lines = text.lines();
    must(&rt, event_of(lines.next()) == "stopping", "first", &text);
    must(
        &rt,
        event_of(lines.next()) == "dropped lines=1",
        "second",
        &text,
    );
    must(&rt, lines.next().is_none(), "more", &text);
}

// Ends the test unless a text has each of these words so often.
fn must_count(rt: &impl Abort, text: &str, rows: &[(&str, usize)]) {
    for (words, wanted) in rows {
        let count = text.split(*words).count().saturating_sub(1);
        must(rt, count == *wanted, words, &count);
    }
}

// How a connection comes.
fn path() -> Path {
    Path {
        from: SocketAddrV4::new(Ipv4Addr::LOCALHOST, 41022),
        portal: SocketAddrV4::new(Ipv4Addr::LOCALHOST, 3260),
        tag: 1,
    }
}

// Tells of so many connections that end without a login, of as many logins that are refused, and of a hundred resets more, in less than a
// minute: what is written once the log ends.
fn written_of<R: Files<File = File> + Wait + Clock + Abort>(
    rt: &R,
    alloc: Global,
    log: &Log,
    ends: u32,
) -> String {
    let (path, who) = (path(), Initiator { name: b"", isid: 0 });
    for _ in 0..ends {
        log.tell(rt, &Event::ConnectionEnded(path, Why::Closed));
        log.tell(rt, &Event::LoginRefused(who, path, 0x0203, Cause::Request));
        let discovery = SessionType::Discovery;
        log.tell(rt, &Event::LoggedIn(who, path, 1, discovery));
        let ended = Event::SessionEnded(who, path, 1, discovery, Why::Logout);
        log.tell(rt, &ended);
    }
    for _ in 0..ends.saturating_add(100) {
        log.tell(rt, &Event::Reset(0, who, 1));
    }
    text_at_its_end(rt, alloc, log, OTHER)
}

// Ends a log: what is written then.
fn text_at_its_end<R: Files<File = File> + Wait + Clock + Abort>(
    rt: &R,
    alloc: Global,
    log: &Log,
    name: &str,
) -> String {
    log.tell(rt, &Event::Stopping);
    close(rt, log);
    let file = File::open(rt, name).expect(rt, "lines");
    let text = io::read_to_string(alloc, file).expect(rt, "lines");
    fs::remove_file(rt, name).expect(rt, "lines");
    text
}

// Tells of so many commands that were answered BUSY, and of as many calls that failed, and of five resets behind these: what is written
// once the log ends.
fn written_of_failures<R: Files<File = File> + Wait + Clock + Abort>(
    rt: &R,
    alloc: Global,
    log: &Log,
    count: u32,
) -> String {
    let who = Initiator { name: b"", isid: 0 };
    let place = Place { first: 0, count: 1 };
    for _ in 0..count {
        log.tell(rt, &Event::Busy(0, Operation::Read, who, 1));
        // as a file tells it, which has no clock
        log.note(&Event::DeviceFailed(0, Part::Disk, Call::Write, place, 28));
    }
    for _ in 0..5 {
        log.tell(rt, &Event::Reset(0, who, 1));
    }
    text_at_its_end(rt, alloc, log, FAILURES)
}

// What is then written, and how often.
const OF_STRANGERS: [(&str, usize); 9] = [
    (" tag=1 why=connection_closed\n", 32),
    (" event=connections_ended count=968\n", 1),
    (" words=\"Not found\"\n", 32),
    (" event=logins_refused count=968\n", 1),
    (" tsih=1 type=discovery\n", 16),
    (" type=discovery why=logout\n", 16),
    (" event=discoveries count=1968\n", 1),
    (" event=dropped lines=100\n", 1),
    ("\n", 1101),
];

// What strangers do fills no disk, nor what hosts do that are in.
#[test]
fn what_strangers_do_takes_few_lines(rt: HostRuntime) {
    let page = page(&rt, OTHER, &unseen(&rt, rt.alloc(), true));
    let log = Log::new(rt.alloc()).expect(&rt, "memory");
    start::<HostRuntime, LinesPage<HostRuntime>>(&rt, rt.alloc(), &log, page).expect(
        &rt, "a thread",
    );
    let text = written_of(&rt, rt.alloc(), &log, 1000);
    must_count(&rt, text.as_str(), &OF_STRANGERS);
}

// What is then written, and how often.
const OF_FAILURES: [(&str, usize); 4] = [
    (" event=busy ", 1000),
    (" event=device_failed ", 1000),
    (" event=unit_reset ", 5),
    (" event=dropped lines=200\n", 1),
];

// What fails, or is refused, takes a thousand lines a minute, and keeps no reset or reservation from being told.
#[test]
fn what_fails_takes_few_lines_and_hides_no_fence(rt: HostRuntime) {
    let page = page(&rt, FAILURES, &unseen(&rt, rt.alloc(), true));
    let log = Log::new(rt.alloc()).expect(&rt, "memory");
    start::<HostRuntime, LinesPage<HostRuntime>>(&rt, rt.alloc(), &log, page).expect(
        &rt, "a thread",
    );
    let text = written_of_failures(&rt, rt.alloc(), &log, 1100);
    must_count(&rt, text.as_str(), &OF_FAILURES);
}
