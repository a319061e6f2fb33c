//! The runner of the tables, which are text:
//!
//! ```text
//! the holder releases, and B is told
//! A Register 0 0 11; Good;; 1; 11; 0 0
//! B Register 0 0 22; Good;; 2; 11 22; 0 0
//! A Reserve 5 11 0; Good;; 2; 11 22; 11 5
//! allows B r-o
//! A Release 5 11 0; Good; B:ReservationsReleased; 2; 11 22; 0 0
//! reservation 24 00000002 00000000
//! ```
//!
//! A row begins with its name, and an empty line stands between two rows. One begins with a registry as it is at first;
//! each of its other lines is one of these.
//!
//! - A request, in six parts: who asks, the action, its type, key and service action key (the keys in hexadecimal, here
//!   and below), with `SPEC_I_PT`, `ALL_TG_PT` or `APTPL` behind them where it has that flag; how it ends, `Good`,
//!   `Conflict` or `Illegal` with its additional sense code and qualifier; who is told what, of all nexuses in their order;
//!   the generation behind it; the keys, in the order of the nexuses; the holder's key and the type, both 0 without a
//!   reservation, and the key 0 where all registrants hold.
//! - `allows A r-o` or `allows A rwo, B r-o`: what each of these nexuses may do: read, write, and what no reservation keeps out.
//! - `reservation 24 BYTES`, `full-status 24 BYTES` or `capabilities 8 BYTES`: the data, where there is room for so many
//!   bytes.
//! - `copied`, `lasted`: it goes on with a copy of the registry, or with what is left behind a loss of power.
//!
//! Each line behind one that says `each` is run on a registry of its own, behind the lines before that one.

use crate::ends::must;
use crate::registrations::row::{NAMES, Who, request_of, who_named, word};
use crate::registrations::{actions, data_bytes, steps};
use reservations::{Access, PrEnd, Registry};
use scsi_types::{PortName, Sense};
use std::alloc::Global;
use std::process::Abort;
use std::test::*;
use test_connections::{bytes_of, lines_of};

// The port of a nexus.
fn port_of(rt: &impl Abort, alloc: Global, who: Who) -> PortName {
    let mut name = Vec::from_slice(alloc, b"iqn.2000-01.test:").expect(rt, "memory");
    name.push(who.0).expect(rt, "memory");
    PortName::new(name, u64::from(who.1) * 0x1_0000).expect(rt, "a name of a port")
}

// Runs each row of a table.
fn run(rt: &impl Abort, alloc: Global, table: &str) {
    for text in table.split("\n\n") {
        let (row, each) = text.split_once("\neach\n").unwrap_or((text, ""));
        let each = lines_of(alloc, each).expect(rt, "memory");
        for line in &each {
            run_row(rt, alloc, row, &[*line]);
        }
        if each.is_empty() {
            run_row(rt, alloc, row, &[]);
        }
    }
}

// Runs each line of a row, and these behind them, on a registry of its own.
fn run_row(rt: &impl Abort, alloc: Global, text: &str, more: &[&str]) {
    let lines = lines_of(alloc, text).expect(rt, "memory");
    let (name, lines) = lines.split_first().expect(rt, "a table has a row");
    let is_row = !lines.is_empty() && !name.contains(';');
    must(rt, is_row, name, &"a row has a name, and lines");
    let mut registry = Registry::new(alloc).expect(rt, "memory");
    run_lines(rt, alloc, &mut registry, name, lines);
    run_lines(rt, alloc, &mut registry, name, more);
}

// Runs lines from where the registry stands.
fn run_lines(rt: &impl Abort, alloc: Global, registry: &mut Registry, name: &str, lines: &[&str]) {
    for line in lines {
        let is_met = is_met(rt, alloc, registry, line);
        must(rt, is_met, name, line);
    }
}

// Runs a line: whether it is as it says.
fn is_met(rt: &impl Abort, alloc: Global, registry: &mut Registry, line: &str) -> bool {
    let (first, rest) = line.split_once(' ').unwrap_or((line, ""));
    match first {
        "allows" => allow(rt, alloc, registry, rest),
        "reservation" | "full-status" | "capabilities" => {
            shows(rt, alloc, registry, first, rest)
        }
        "copied" | "lasted" => {
            go_on(rt, alloc, registry, first);
            true
        }
        _ => ends_so(rt, alloc, registry, line),
    }
}

// Does the request of a line, which ends so. Where it does not, it tells what came of it.
fn ends_so(rt: &impl Abort, alloc: Global, registry: &mut Registry, line: &str) -> bool {
    let (asked, want) = line.split_once("; ").expect(rt, line);
    let found = registry.copy().expect(rt, "memory");
    let end = out(rt, alloc, registry, asked);
    let mut text = String::new(alloc);
    put_end(rt, &mut text, &end);
    put_told(rt, alloc, &mut text, &found, &end);
    put_keys(rt, &mut text, registry);
    put_held(rt, &mut text, registry);
    must(rt, text.as_str() == want, line, &text);
    true
}

/// Does the request of these words.
pub fn out(rt: &impl Abort, alloc: Global, registry: &mut Registry, asked: &str) -> PrEnd {
    let who = who_named(rt, word(asked, 0));
    registry.out(&port_of(rt, alloc, who), who.2, request_of(rt, asked))
}

fn put_end(rt: &impl Abort, text: &mut String, end: &PrEnd) {
    let put = match end {
        PrEnd::Good(_) => write!(text, "Good;"),
        PrEnd::Conflict => write!(text, "Conflict;"),
        PrEnd::Illegal(sense) => {
            let Sense { asc, ascq, .. } = *sense;
            write!(text, "Illegal {asc:02X} {ascq:02X};")
        }
    };
    put.expect(rt, "memory");
}

// Whom a request that found this registry tells what.
fn put_told(rt: &impl Abort, alloc: Global, text: &mut String, found: &Registry, end: &PrEnd) {
    let PrEnd::Good(telling) = end else {
        return;
    };
    for name in NAMES.split_ascii_whitespace() {
        let who = who_named(rt, name);
        if let Some(code) = found.told(telling, &port_of(rt, alloc, who), who.2) {
            write!(text, " {name}:{code:?}").expect(rt, "memory");
        }
    }
}

// The generation and the keys, as READ KEYS has them (SPC-4, 6.15.2).
fn put_keys(rt: &impl Abort, text: &mut String, registry: &Registry) {
    let data = registry.keys(4096).expect(rt, "memory");
    let keys = data.get(8..).unwrap_or(&[]);
    let is_length = number(&data, 4, 8) == keys.len() as u64;
    must(rt, is_length, "the length of", &data);
    write!(text, "; {};", number(&data, 0, 4)).expect(rt, "memory");
    for key in keys.chunks(8) {
        write!(text, " {:x}", number(key, 0, 8)).expect(rt, "memory");
    }
}

// The holder's key and the type, as READ RESERVATION has them (SPC-4, 6.15.3); 0 where it has none.
fn put_held(rt: &impl Abort, text: &mut String, registry: &Registry) {
    let data = registry.reservation(4096).expect(rt, "memory");
    let (key, kind) = (number(&data, 8, 16), number(&data, 21, 22));
    write!(text, "; {key:x} {kind}").expect(rt, "memory");
}

// The number of the bytes from a place to another, 0 where there are none.
fn number(data: &[u8], from: usize, to: usize) -> u64 {
    let mut number = 0u64;
    for byte in data.get(from..to).unwrap_or(&[]) {
        number = number.wrapping_mul(256).wrapping_add(u64::from(*byte));
    }
    number
}

// Compares the letters of the accesses that each of some nexuses has.
fn allow(rt: &impl Abort, alloc: Global, registry: &Registry, words: &str) -> bool {
    let mut are_met = true;
    for words in words.split(", ") {
        are_met = are_met && allows(rt, alloc, registry, words);
    }
    are_met
}

// Compares the letters of the accesses that a nexus has.
fn allows(rt: &impl Abort, alloc: Global, registry: &Registry, words: &str) -> bool {
    let (who, want) = words.split_once(' ').expect(rt, words);
    let who = who_named(rt, who);
    let port = port_of(rt, alloc, who);
    let letters = [
        letter(b'r', registry.allows(&port, who.2, Access::Read)),
        letter(b'w', registry.allows(&port, who.2, Access::Write)),
        letter(b'o', registry.allows(&port, who.2, Access::Other)),
    ];
    letters.as_slice() == want.as_bytes()
}

fn letter(letter: u8, is_allowed: bool) -> u8 {
    if is_allowed { letter } else { b'-' }
}

// Compares the data of PERSISTENT RESERVE IN.
fn shows(rt: &impl Abort, alloc: Global, registry: &Registry, of: &str, words: &str) -> bool {
    let (room, bytes) = words.split_once(' ').unwrap_or((words, ""));
    let want = bytes_of(alloc, &[], bytes).expect(rt, words);
    let room = room.parse().expect(rt, words);
    let data = match of {
        "reservation" => registry.reservation(room),
        "full-status" => registry.full_status(room),
        _ => registry.capabilities(room),
    };
    data.expect(rt, "memory") == want
}

// Goes on with a copy of the registry, or with what is left behind a loss of power.
fn go_on(rt: &impl Abort, alloc: Global, registry: &mut Registry, word: &str) {
    let next = if word == "copied" {
        registry.copy()
    } else {
        Registry::from_record(alloc, registry.record().expect(rt, "memory"))
    };
    *registry = next.expect(rt, "memory");
}

#[test]
fn each_table(rt: HostRuntime) {
    run(&rt, rt.alloc(), actions::rows());
    run(&rt, rt.alloc(), steps::rows());
    run(&rt, rt.alloc(), data_bytes::rows());
}
