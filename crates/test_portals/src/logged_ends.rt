//! Why sessions end, as the log tells it.
use crate::ends::{done, must};
use event_log::{Log, Page, close, start};
use std::alloc::Global;
use std::fs::{self, File, OpenFile};
use std::process::Abort;
use std::rt::Files;
use std::time::{Clock, Duration};
use std::{io, thread};
use test_connections::lines_of;
use test_scenes::{Machine, Script};

/// Where the lines are written.
const PATH: &str = "told";

/// So often it is looked whether all lines are there, ten milliseconds apart.
const LOOKS: u32 = 3000;

/// The file of the lines.
#[derive(Drop)]
struct LogFile<R: Files<File = File> + Drop> {
    rt: R,
}

impl<R: Files<File = File> + Drop> Page for LogFile<R> {
    fn open(&self) -> Option<File> {
        File::options()
            .append(true)
            .create(true)
            .open(&self.rt, PATH)
            .ok()
    }
}

// J leaves before it has logged in. A logs out. B names a session that is not there. C sends a command in a session of discovery. D
// leaves a gap in its CmdSN. F takes the place of E; G takes that of F, whose command waits before the unit meanwhile. G leaves. H
// leaves before it has read an answer, and I while the array still writes answers to it. An administrator ends the session of K.
fn script() -> &'static str {
    r#"
why sessions end
J at 1
J leaves
A comes 1 / HOST_A / WELCOME
A > LOGOUT
A < LOGGED_OUT
A over
B refused 1 / 7:5A 8:0000000000000007 OTHER_HOST / 8:0000000000000007 36:020A
C at 1
C >> LOGIN 7:37 FINDS
C << LOGGED_IN 7:1F 15:02 "MaxRecvDataSegmentLength=65536\0"
C >> TEST_UNIT_READY 31:02
C << REJECT 2:04 27:02 rejected TEST_UNIT_READY 31:02
C over
D comes 1 / HOST_B / 15:03 WELCOME
D >> TEST_UNIT_READY 24:00000007
D over
E comes 1 / HOST_B / 15:04 WELCOME
F comes 1 / HOST_B / 15:05 WELCOME
E over
F power
gate hold 0
F > TEST_UNIT_READY
gate held 1
G comes 1 / HOST_B / 15:06 WELCOME
gate open
F over
G leaves
H comes 2 / HOST_A / 15:07 WELCOME_2
H > TEST_UNIT_READY
H hears
H leaves
I comes 2 / HOST_B / 15:08 WELCOME_2
I power
20 times I > COMMAND 1:C1 20:00100000 32:28000000000000080000
I hears
clock 1
I leaves
K comes 2 / HOST_A / 15:09 WELCOME_2
end 9
K over
"#
}

// What is told of these ends, in any order. A word that ends so is one of an address.
fn wanted() -> &'static str {
    r#"
session_ended initiator="iqn.2000-01.test:a" isid=0x400001370000 from= portal= tag=1 tsih=1 type=normal why=logout
login_refused initiator="iqn.2000-01.test:other" isid=0x0 from= portal= tag=1 status=0x20a words="Session does not exist"
session_ended initiator="iqn.2000-01.test:a" isid=0x400001370000 from= portal= tag=1 tsih=2 type=discovery
  why=protocol_error reason=0x4 words="Protocol Error" opcode=0x1 task=0x1
session_ended initiator="iqn.2000-01.test:b" isid=0x400001370000 from= portal= tag=1 tsih=3 type=normal why=protocol_error words="CmdSN leaves a gap"
session_ended initiator="iqn.2000-01.test:b" isid=0x400001370000 from= portal= tag=1 tsih=4 type=normal why=replaced_by_same_initiator
session_ended initiator="iqn.2000-01.test:b" isid=0x400001370000 from= portal= tag=1 tsih=5 type=normal why=replaced_by_same_initiator
session_ended initiator="iqn.2000-01.test:b" isid=0x400001370000 from= portal= tag=1 tsih=6 type=normal why=connection_closed
session_ended initiator="iqn.2000-01.test:a" isid=0x400001370000 from= portal= tag=2 tsih=7 type=normal why=connection_lost in=read
session_ended initiator="iqn.2000-01.test:b" isid=0x400001370000 from= portal= tag=2 tsih=8 type=normal why=connection_lost in=write
session_ended initiator="iqn.2000-01.test:a" isid=0x400001370000 from= portal= tag=2 tsih=9 type=normal why=by_console
connection_ended from= portal= tag=1 why=connection_closed
"#
}

// Whether a line tells of this end.
fn is_end(line: &str, end: &str) -> bool {
    let (_, told) = line.split_once(" event=").unwrap_or(("", ""));
    let mut words = told.split(' ');
    for wanted in end.split_ascii_whitespace() {
        let word = words.next().unwrap_or("");
        if word != wanted && !(wanted.ends_with('=') && word.starts_with(wanted)) {
            return false;
        }
    }
    words.next().is_none()
}

// How many lines tell of this end, or of any.
fn told_of(text: &str, end: &str) -> usize {
    text.lines().filter(|line| is_end(line, end)).count()
}

fn ends_in(text: &str) -> usize {
    text.lines()
        .filter(|line| line.contains("ended ") || line.contains("=login_refused "))
        .count()
}

// The lines, once as many ends are told.
fn lines<R: Files<File = File> + Clock + Abort>(rt: &R, alloc: Global, count: usize) -> String {
    let mut text = String::new(alloc);
    for _ in 0..LOOKS {
        let file = File::open(rt, PATH).expect(rt, "lines");
        text = io::read_to_string(alloc, file).expect(rt, "lines");
        if ends_in(text.as_str()) >= count {
            break;
        }
        thread::sleep(rt, Duration::from_millis(10));
    }
    text
}

// Each of these ends is told once, and no other.
fn are_told<R: Files<File = File> + Clock + Abort>(rt: &R, alloc: Global, ends: &str) {
    let ends = lines_of(alloc, ends).expect(rt, "memory");
    must(rt, !ends.is_empty(), "ends", &"a table has rows");
    let text = lines(rt, alloc, ends.len());
    must(rt, ends_in(text.as_str()) == ends.len(), "ends", &text);
    for end in &ends {
        must(rt, told_of(text.as_str(), end) == 1, end, &text);
    }
}

#[test]
fn why_sessions_end_is_told(rt: HostRuntime) {
    let alloc = rt.alloc();
    let log = Log::new(alloc).expect(&rt, "memory");
    let page = LogFile {
        rt: rt.clone().expect(&rt, "memory"),
    };
    start::<HostRuntime, LogFile<HostRuntime>>(&rt, alloc, &log, page).expect(&rt, "a thread");
    done(&rt, Machine::told(&rt, &log).run(&Script::of(script())));
    are_told(&rt, alloc, wanted());
    close(&rt, &log);
    fs::remove_file(&rt, PATH).expect(&rt, "lines");
}
