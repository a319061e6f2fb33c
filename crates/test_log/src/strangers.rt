//! Connections that end without a login: of how many a line tells alone, and of how many one tells together.
use crate::ends::must_read;
use event_log::Strangers;
use std::alloc::Global;
use std::process::Abort;
use std::test::*;

/// What comes at a second.
#[derive(Clone, Copy)]
enum Step {
    /// So many connections end.
    End(u64, u32),
    /// The log is written, and written for the last time.
    Write(u64),
    Close(u64),
}

use Step::{Close, End, Write};

// How many of so many connections that end at a second are told alone.
fn told(strangers: &mut Strangers, now: u64, count: u32) -> u64 {
    let mut told = 0u64;
    for _ in 0..count {
        if strangers.is_told(now) {
            told = told.saturating_add(1);
        }
    }
    told
}

// What each step comes to.
fn text_of(rt: &impl Abort, alloc: Global, steps: &[Step]) -> String {
    let mut strangers = Strangers::none();
    let mut text = String::new(alloc);
    for step in steps {
        let count = match step {
            End(now, count) => told(&mut strangers, *now, *count),
            Write(now) => strangers.sum(*now, false),
            Close(now) => strangers.sum(*now, true),
        };
        write!(text, "{count} ").expect(rt, "memory");
    }
    text
}

// What happens, and what each step comes to.
const SPELLS: [(&[Step], &str); 8] = [
    (&[End(100, 32), Write(160), End(160, 32)], "32 0 32 "),
    (
        &[End(100, 40), Write(159), Write(160), Write(161)],
        "32 0 8 0 ",
    ),
    // What a spell has too many is no part of the next one.
    (
        &[End(100, 40), End(159, 1), Write(160), End(161, 40)],
        "32 0 9 32 ",
    ),
    // As long as nobody has told the sum, no line tells one alone.
    (&[End(100, 33), End(500, 5), Write(501)], "32 0 6 "),
    (
        &[End(100, 20), End(159, 12), End(159, 1), End(160, 1)],
        "20 12 0 0 ",
    ),
    (&[End(100, 20), End(160, 32)], "20 32 "),
    (&[End(100, 40), Close(101), Close(102)], "32 8 0 "),
    // The clock is set back.
    (&[End(100, 40), Write(99)], "32 8 "),
];

#[test]
fn ends_without_a_login_are_summed_up(rt: HostRuntime) {
    for (steps, wanted) in &SPELLS {
        let text = text_of(&rt, rt.alloc(), steps);
        must_read(&rt, text.as_str(), wanted);
    }
}
