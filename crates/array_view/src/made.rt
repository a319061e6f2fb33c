//! What is counted, made into what is seen.

use crate::view::{Commands, NamedCount, PathView, SessionView, state_words};
use events::{Call, Operation, SessionType, escape};
use meters::{CALLS_IN_ORDER, CAUSES_IN_ORDER, Counts, Failures, IN_ORDER, SessionSeen, Visit};
use std::alloc::{AllocError, Global};
use std::str;

/// A name as the log spells it.
pub fn spelled(alloc: Global, name: &[u8]) -> Result<String, AllocError> {
    let mut text = String::new(alloc);
    escape(&mut text, name)?;
    Ok(text)
}

/// A name as it is; as the log spells it, where it is no UTF-8.
pub fn named(alloc: Global, name: &[u8]) -> Result<String, AllocError> {
    match str::from_utf8(name) {
        Ok(text) => String::from_str(alloc, text),
        Err(_) => spelled(alloc, name),
    }
}

/// Names, and how often what has each was counted.
pub(crate) fn tallies(
    alloc: Global,
    names: &[&'static str],
    counts: &[u64],
) -> Result<Vec<NamedCount>, AllocError> {
    let mut tallies = Vec::new(alloc);
    for (what, count) in names.iter().zip(counts) {
        tallies.push(NamedCount {
            what: *what,
            count: *count,
        })?;
    }
    Ok(tallies)
}

// Operations, and how often each was counted.
fn operations(alloc: Global, counts: &[u64]) -> Result<Vec<NamedCount>, AllocError> {
    tallies(alloc, &IN_ORDER.map(Operation::text), counts)
}

/// Calls of the system that failed, and how often each did.
pub fn failures(alloc: Global, calls: &[Failures]) -> Result<Vec<NamedCount>, AllocError> {
    let mut tallies = Vec::new(alloc);
    for (call, failures) in CALLS_IN_ORDER.iter().zip(calls) {
        tallies.push(NamedCount {
            what: call.text(),
            count: failures.count,
        })?;
    }
    Ok(tallies)
}

/// What was lacking where logins were refused, and how often each was.
pub fn refusals(alloc: Global, counts: &[u64]) -> Result<Vec<NamedCount>, AllocError> {
    tallies(alloc, &CAUSES_IN_ORDER, counts)
}

// What is counted of commands.
fn commands(alloc: Global, counts: &Counts) -> Result<Commands, AllocError> {
    Ok(Commands {
        operations: operations(alloc, &counts.commands)?,
        read_bytes: counts.read,
        written_bytes: counts.written,
        good: counts.good,
        reservation_conflicts: counts.conflicts,
        busy: counts.busy,
        sense_keys: Vec::from_slice(alloc, &counts.checks)?,
        flushes: counts.flushes,
        failed_flushes: counts.failed_flushes,
        buckets: Vec::from_slice(alloc, &counts.times)?,
        micros: counts.micros,
    })
}

/// A unit by a controller, in this access state.
pub fn path(
    alloc: Global,
    controller: u64,
    state: u64,
    counts: Option<&Counts>,
) -> Result<PathView, AllocError> {
    let commands = commands(alloc, counts.unwrap_or(&Counts::none()))?;
    Ok(PathView {
        controller,
        state,
        state_words: state_words(state),
        commands,
    })
}

// Puts the names of a session into what is seen of it.
fn put_names(view: &mut SessionView, who: &Visit) -> Result<(), AllocError> {
    let (isid, portal, peer) = (who.isid, who.path.portal, who.path.from);
    escape(&mut view.spelled, &who.name)?;
    write!(view.isid, "0x{isid:x}")?;
    write!(view.portal, "{portal}")?;
    write!(view.peer, "{peer}")
}

/// A session.
pub fn session(alloc: Global, seen: &SessionSeen) -> Result<SessionView, AllocError> {
    let who = &seen.who;
    let mut view = SessionView {
        initiator: named(alloc, &who.name)?,
        spelled: String::new(alloc),
        isid: String::new(alloc),
        tsih: u64::from(who.tsih),
        kind: who.kind.text(),
        is_discovery: matches!(who.kind, SessionType::Discovery),
        controller: u64::from(who.path.tag),
        portal: String::new(alloc),
        peer: String::new(alloc),
        since: who.since.as_secs(),
        last_command: seen.last.map(|(operation, _)| operation.text()),
        idle_micros: seen.last.map(|(_, idle)| idle),
        commands: seen.commands,
    };
    put_names(&mut view, who)?;
    Ok(view)
}
