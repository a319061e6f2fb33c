//! Tables of what happens in a world of units 0 and 1, which are opened so often before an open fails (`opens 9 9`). A row goes on in
//! lines that begin with blanks:
//!
//! - its name, a colon, and what happens: the port of ISID 2 attaches to unit 0 through group 1 (`attach 0 2 1`); a session ends or
//!   resets its unit (`detach 0`, `reset 0`); unit 0 moves to group 2 (`move 0 2`); session 0 hands in a command at the desk of group 1
//!   (`submit 0 1 test`), or its worker serves it at once (`begin`), or once more what came to Moved (`again 0`, `begin-again 0`), each
//!   with `-late` where its flush is left to come behind it; its worker takes its job back (`back 0`); a desk closes (`close 1`), or a
//!   lane takes its first job (`take 1`); the job of session 0 is served, answered and collected (`serve 0`, `post 0`, `collect 0`); its
//!   flush is done or has failed (`done 0`, `failed 0`);
//! - what is noted: the place of the unit, the session's id, the serial, how many entries the unit had, and what the session did, or
//!   heard at the desk of a group, of the entry at a place: GOOD without data (`good 1 2`), CHECK CONDITION with its sense
//!   (`check 1 2 062900`), and with `-behind` of a command whose flush was left to come behind it: GOOD where a flush was done, CHECK
//!   CONDITION where none was. All else is `other`;
//! - how many entries both units then have; and how the sessions stand: the place of the unit, the id, the serial of the next command,
//!   and where the command is.
//!
//! Sessions go by the order in which they attached, units by their places. Commands are TEST UNIT READY, SET TARGET PORT GROUPS (`set 2`),
//! WRITE (10) of block 0 with a byte (`write 5`), with FUA (`fua 5`) and beyond the last block (`beyond`), and SYNCHRONIZE CACHE (10).
use crate::ends::must;
use crate::worlds::{MemWorld, events_of, two_units};
use crate::{late, moves, sessions};
use scsi_types::{Group, Reply, Status};
use std::alloc::{AllocError, Global};
use std::process::Abort;
use std::test::*;
use test_connections::lines_of;
use unit_events::Job;
use unit_state::UnitRow;
use world::{Note, Stage, What};

/// What is seen of a world behind a row: what the units show, and as text what was noted, how many entries they have, and how the
/// sessions stand.
#[derive(Drop)]
struct Seen {
    boards: [Option<UnitRow>; 2],
    text: String,
}

// A reply to a session.
fn put_reply(
    text: &mut String,
    job: &Job,
    reply: &Reply,
    at: u64,
    behind: &str,
) -> Result<(), AllocError> {
    let by = match job.by_group {
        Group::One => 1,
        Group::Two => 2,
    };
    match reply.sense() {
        Some(sense) => write!(
            text,
            "check{behind} {by} {at} {:02X}{:02X}{:02X}",
            sense.key, sense.asc, sense.ascq
        ),
        None if reply.status() == Status::Good && reply.bytes().is_empty() => {
            write!(text, "good{behind} {by} {at}")
        }
        None => text.push_str("other"),
    }
}

// What a session did, or heard.
fn put_said(text: &mut String, what: &What) -> Result<(), AllocError> {
    match what {
        What::Submitted => text.push_str("submitted"),
        What::FlushBegan => text.push_str("flushes"),
        What::Replied(job, reply, at) => put_reply(text, job, reply, *at, ""),
        What::Settled(job, reply, at, is_flushed) if *is_flushed == reply.sense().is_none() => {
            put_reply(text, job, reply, *at, "-behind")
        }
        What::Settled(..) => text.push_str("other"),
        What::Busy => text.push_str("busy"),
        What::Gone => text.push_str("gone"),
    }
}

fn at(stage: &Stage) -> &'static str {
    match stage {
        Stage::Idle => "idle",
        Stage::Waits(_) => "waits",
        Stage::InLane(_) => "lane",
        Stage::Ended(_, _) => "ended",
        Stage::Answered(_, _) => "answered",
        Stage::Flushes(_) => "flushes",
        Stage::Returned(_) => "returned",
    }
}

/// The notes behind so many, as a row tells of them, without commas.
pub fn notes_behind(rt: &impl Abort, alloc: Global, notes: &[Note], before: usize) -> String {
    let mut text = String::new(alloc);
    for note in notes.get(before..).unwrap_or(&[]) {
        let Note {
            place,
            session,
            serial,
            count,
            what,
        } = note;
        write!(text, "{place} {session} {serial} {count} ").expect(rt, "memory");
        put_said(&mut text, what).expect(rt, "memory");
        text.push(' ').expect(rt, "memory");
    }
    text
}

fn put_sessions(rt: &impl Abort, text: &mut String, world: &MemWorld) {
    for session in world.sessions() {
        let stands = at(&session.stage);
        write!(
            text,
            " {} {} {} {stands}",
            session.place, session.id, session.next
        )
        .expect(rt, "memory");
    }
}

fn board(world: &MemWorld, place: usize) -> Option<UnitRow> {
    match world.unit(place) {
        Some(unit) => Some(unit.row()),
        None => None,
    }
}

// How many entries a unit has, where it is there.
fn entries(board: &Option<UnitRow>) -> u64 {
    match board {
        Some(row) => row.entries,
        None => u64::MAX,
    }
}

fn look(rt: &impl Abort, alloc: Global, world: &MemWorld, before: usize) -> Seen {
    let boards = [board(world, 0), board(world, 1)];
    let mut text = notes_behind(rt, alloc, world.notes(), before);
    write!(
        text,
        "=> {} {} =>",
        entries(&boards[0]),
        entries(&boards[1])
    )
    .expect(rt, "memory");
    put_sessions(rt, &mut text, world);
    Seen { boards, text }
}

// Where a unit has as many entries as before, it shows what it showed.
fn is_kept(before: &Option<UnitRow>, after: &Option<UnitRow>) -> bool {
    entries(before) != entries(after) || before == after
}

// Whether a text has the words of another, but for the commas of that.
fn has_words(text: &str, wanted: &str) -> bool {
    let mut words = text.split_ascii_whitespace();
    for word in wanted.split_ascii_whitespace() {
        if words.next() != Some(word.trim_end_matches(',')) {
            return false;
        }
    }
    words.next().is_none()
}

fn is_met(before: &Seen, after: &Seen, wanted: &str) -> bool {
    has_words(after.text.as_str(), wanted)
        && is_kept(&before.boards[0], &after.boards[0])
        && is_kept(&before.boards[1], &after.boards[1])
}

// Runs the events of a row, behind which so much was seen: what is seen then.
fn run_row(rt: &impl Abort, alloc: Global, world: &mut MemWorld, before: &Seen, row: &str) -> Seen {
    let (happens, wanted) = row.split_once("=>").expect(rt, row);
    let (_name, acts) = happens.split_once(':').expect(rt, row);
    let noted = world.notes().len();
    let events = events_of(rt, alloc, acts);
    world.run(&events).expect(rt, "memory");
    let after = look(rt, alloc, world, noted);
    must(rt, is_met(before, &after, wanted), row, &after.text);
    after
}

// How many opens the opener of each unit passes, as the first line of a table says.
fn opens_of(rt: &impl Abort, head: &str) -> [u64; 2] {
    let (_word, opens) = head.split_once(' ').expect(rt, head);
    let (first, second) = opens.split_once(' ').expect(rt, head);
    [
        first.parse().expect(rt, head),
        second.parse().expect(rt, head),
    ]
}

// Runs the events of each row in turn.
fn run_rows(rt: &impl Abort, alloc: Global, world: &mut MemWorld, rows: &[&str]) {
    let mut seen = look(rt, alloc, world, 0);
    for row in rows {
        seen = run_row(rt, alloc, world, &seen, row);
    }
}

// Runs the rows of a table over units whose openers pass so many opens each.
fn run(rt: &impl Abort, alloc: Global, table: &str) -> Result<(), Fail> {
    let lines = lines_of(alloc, table).expect(rt, "memory");
    let (head, rows) = lines
        .as_slice()
        .split_first()
        .expect(rt, "a table has rows");
    must(rt, !rows.is_empty(), head, &"a table has rows");
    let mut world = two_units(alloc, opens_of(rt, head))?;
    run_rows(rt, alloc, &mut world, rows);
    Ok(())
}

#[test]
fn commands_flushes_and_moves(rt: HostRuntime) -> Result<(), Fail> {
    for tables in &[sessions::tables(), late::tables(), moves::tables()] {
        for table in tables.split("\n\n") {
            run(&rt, rt.alloc(), table)?;
        }
    }
    Ok(())
}
