//! Units 0 and 1 of an array in memory as a world, and the events of a row.
ghost use Rattle.std.specs.Prelude.{All, IfOk, OnOk};
ghost use Rattle.unit_state.specs.Serials.{IsOpening};

use block_file::{FusedOpener, KeepOpener, MemBlocks};
use scsi_types::{Asked, Group, PortName, decode};
use std::alloc::Global;
use std::process::Abort;
use std::test::Fail;
use test_memory::{Opens, opened};
use unit_events::Bytes;
use unit_state::Unit;
use world::{Event, World};

type MemUnit = Unit<MemBlocks, MemBlocks, Opens>;

/// A world of units in memory, whose openers pass so many opens and then fail.
pub type MemWorld = World<MemBlocks, MemBlocks, Opens>;

/// The blocks of a unit.
const BLOCKS: u32 = 16;

// TEST UNIT READY
const TEST: [u8; 16] = [0; 16];

// SET TARGET PORT GROUPS with a list of 8 bytes (SPC-4, 6.45)
const SET: [u8; 16] = [0xA4, 0x0A, 0, 0, 0, 0, 0, 0, 0, 8, 0, 0, 0, 0, 0, 0];

// WRITE (10) of block 0, and the same with FUA (SBC-4, 5.44)
const WRITE: [u8; 16] = [0x2A, 0, 0, 0, 0, 0, 0, 0, 1, 0, 0, 0, 0, 0, 0, 0];

const WRITE_FUA: [u8; 16] = [0x2A, 0x08, 0, 0, 0, 0, 0, 0, 1, 0, 0, 0, 0, 0, 0, 0];

// WRITE (10) with FUA of block 16
const WRITE_BEYOND: [u8; 16] = [0x2A, 0x08, 0, 0, 0, 16, 0, 0, 1, 0, 0, 0, 0, 0, 0, 0];

// SYNCHRONIZE CACHE (10) to the end of the unit (SBC-4, 5.33)
const SYNCHRONIZE: [u8; 16] = [0x35, 0, 0, 0, 0, 0, 0, 0, 0, 0, 0, 0, 0, 0, 0, 0];

fn in_memory(alloc: Global, unit: u8, opens: u64) -> Result<MemUnit, Fail>
    ensures { IfOk result (λ u. IsOpening u.control) }
{
    let blocks = MemBlocks::new(alloc, BLOCKS)?;
    opened(alloc, blocks, FusedOpener::new(KeepOpener, opens), unit, 2)
}

// Adds the unit with this number.
fn add(alloc: Global, units: &mut Vec<MemUnit>, unit: u8, opens: u64) -> Result<(), Fail>
    requires { All (λ u. IsOpening u.control) units.old.items }
    ensures { OnOk result (All (λ u. IsOpening u.control) units.new.items) }
{
    units.push(in_memory(alloc, unit, opens)?)?;
    Ok(())
}

/// Units 0 and 1, whose openers pass so many opens each.
pub fn two_units(alloc: Global, opens: [u64; 2]) -> Result<MemWorld, Fail> {
    let mut units = Vec::new(alloc);
    add(alloc, &mut units, 0, opens[0])?;
    add(alloc, &mut units, 1, opens[1])?;
    Ok(World::new(alloc, units)?)
}

// A word, and what stands behind it.
fn words_of(text: &str) -> (&str, &str) {
    text.split_once(' ').unwrap_or((text, ""))
}

fn group_of(number: usize) -> Group {
    if number == 1 { Group::One } else { Group::Two }
}

// So many zeros, and behind them so many of this byte.
fn data_of(rt: &impl Abort, alloc: Global, zeros: usize, count: usize, byte: u8) -> Bytes {
    let mut data = Vec::new(alloc);
    data.resize(zeros, 0).expect(rt, "memory");
    data.resize(zeros.wrapping_add(count), byte)
        .expect(rt, "memory");
    Bytes::new(data)
}

// The list of SET TARGET PORT GROUPS by which a group is active/optimized.
fn list_of(rt: &impl Abort, alloc: Global, group: &str) -> Bytes {
    data_of(rt, alloc, 7, 1, group.parse().expect(rt, group))
}

// What a command asks, and behind how many zeros how many bytes of one value are its data.
fn cdb_of(word: &str) -> Option<(&'static [u8; 16], usize, usize)> {
    match word {
        "test" => Some((&TEST, 0, 0)),
        "set" => Some((&SET, 7, 1)),
        "write" => Some((&WRITE, 0, 512)),
        "fua" => Some((&WRITE_FUA, 0, 512)),
        "beyond" => Some((&WRITE_BEYOND, 0, 512)),
        "synchronize" => Some((&SYNCHRONIZE, 0, 0)),
        _ => None,
    }
}

// A session's command, which is handed in, or which its worker begins at once.
fn command(
    rt: &impl Abort,
    alloc: Global,
    begins: bool,
    session: usize,
    words: &str,
    is_late: bool,
) -> Event {
    let (number, asks) = words_of(words);
    let by_group = group_of(number.parse().expect(rt, words));
    let (word, byte) = words_of(asks);
    let (cdb, zeros, count) = cdb_of(word).expect(rt, words);
    let (asked, byte) = (decode(cdb), byte.parse().unwrap_or(0));
    let bytes = data_of(rt, alloc, zeros, count, byte);
    if begins {
        Event::Begin {
            session,
            by_group,
            asked,
            bytes,
            is_late,
        }
    } else {
        Event::Submit {
            session,
            by_group,
            asked,
            bytes,
            is_late,
        }
    }
}

// The port of an ISID attaches to a unit through a group.
fn attach(rt: &impl Abort, alloc: Global, place: usize, words: &str) -> Event {
    let (isid, number) = words_of(words);
    let name = Vec::from_slice(alloc, b"iqn.2000-01.test:a").expect(rt, "memory");
    let port = PortName::new(name, isid.parse().expect(rt, words)).expect(rt, words);
    let group = group_of(number.parse().expect(rt, words));
    Event::Attach { place, port, group }
}

// An event of a unit, of a desk, or of a command that begins.
fn other_event(
    rt: &impl Abort,
    alloc: Global,
    verb: &str,
    place: usize,
    words: &str,
    is_late: bool,
) -> Option<Event> {
    match verb {
        "attach" => Some(attach(rt, alloc, place, words)),
        "move" => Some(Event::Move {
            place,
            list: list_of(rt, alloc, words),
        }),
        "close" => Some(Event::Close {
            group: group_of(place),
        }),
        "take" => Some(Event::Take {
            group: group_of(place),
        }),
        "submit" => Some(command(rt, alloc, false, place, words, is_late)),
        "begin" => Some(command(rt, alloc, true, place, words, is_late)),
        _ => None,
    }
}

fn event_of(rt: &impl Abort, alloc: Global, act: &str) -> Event {
    let (verb, words) = words_of(act);
    let (number, words) = words_of(words);
    let session = number.parse().expect(rt, act);
    let (verb, is_late) = match verb.strip_suffix("-late") {
        Some(verb) => (verb, true),
        None => (verb, false),
    };
    match verb {
        "detach" => Event::Detach { session },
        "reset" => Event::Reset { session },
        "again" => Event::SubmitAgain { session, is_late },
        "begin-again" => Event::BeginAgain { session, is_late },
        "back" => Event::TakeBack { session },
        "serve" => Event::Serve { session },
        "post" => Event::Post { session },
        "collect" => Event::Collect { session },
        "done" | "failed" => Event::EndFlush {
            session,
            is_done: verb == "done",
        },
        _ => other_event(rt, alloc, verb, session, words, is_late).expect(rt, act),
    }
}

/// The events of a row, with commas between.
pub fn events_of(rt: &impl Abort, alloc: Global, acts: &str) -> Vec<Event> {
    let mut events = Vec::new(alloc);
    for act in acts.split(',') {
        let event = event_of(rt, alloc, act.trim());
        events.push(event).expect(rt, "memory");
    }
    events
}
