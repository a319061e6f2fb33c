//! The rows of scripts are played.
use crate::bench::{Bench, Setup};
use crate::ended::Ended;
use crate::rows::{Row, is_row, part, spelled};
use scsi_types::Sense;
use std::alloc::Global;
use std::test::Fail;
use test_connections::{lines_of, want_at};

/// Plays rows for a number, or those behind a line of numbers for these.
pub fn played(
    alloc: Global,
    bench: Bench,
    setup: &Setup,
    rows: &str,
    n: u64,
) -> Result<Bench, Fail> {
    let mut bench = bench;
    for (place, part) in rows.split("\nnumbers ").enumerate() {
        let rows = lines_of(alloc, part)?;
        let numbers = if place == 0 { "N" } else { part };
        let (first, end) = numbers_of(numbers, n)?;
        for n in first..end {
            bench = behind(alloc, bench, setup, &rows, n)?;
        }
    }
    Ok(bench)
}

// The numbers that the first line says: the first, and the one behind the last; or `N` for this one.
fn numbers_of(part: &str, n: u64) -> Result<(u64, u64), Fail> {
    let line = part.lines().next().unwrap_or("");
    if line == "N" {
        return Ok((n, n.saturating_add(1)));
    }
    let (first, end) = line.split_once(' ').ok_or(line)?;
    Ok((
        first.parse().ok().ok_or(line)?,
        end.parse().ok().ok_or(line)?,
    ))
}

// Makes the calls of these rows.
fn behind(
    alloc: Global,
    bench: Bench,
    setup: &Setup,
    rows: &[&str],
    n: u64,
) -> Result<Bench, Fail> {
    let mut bench = bench;
    for text in rows {
        let row = Row { text: *text, n };
        if row.call().0 == "restart" {
            want_at(row.end() == ("DONE", ""), text, &"a restart is done")?;
            bench = bench.restart(alloc, setup)?;
        } else if is_row(text) {
            make(alloc, &mut bench, setup, &row)?;
        }
    }
    Ok(bench)
}

/// Makes the call of a row, which ends as it says.
pub fn make(alloc: Global, bench: &mut Bench, setup: &Setup, row: &Row) -> Result<(), Fail> {
    let ended = bench.call(alloc, row)?;
    if is_met(alloc, &ended, row)? {
        Ok(())
    } else {
        Err(differs(setup, row, &ended))
    }
}

// The call of a row ended otherwise. A failure has room for 512 bytes, so that of a row its name is told.
fn differs(setup: &Setup, row: &Row, ended: &Ended) -> Fail {
    Fail::new(format_args!(
        "{}, {} ({}), {}+{}, {}+{}, {:?}: {ended:?}",
        setup.script,
        part(row.text, 0),
        row.n,
        setup.faults.disk.behind,
        setup.faults.disk.lands,
        setup.faults.file.behind,
        setup.faults.file.lands,
        setup.pick
    ))
}

// Whether a call ended as its row says.
fn is_met(alloc: Global, ended: &Ended, row: &Row) -> Result<bool, Fail> {
    let (word, rest) = row.end();
    if word != ended.word {
        return Ok(false);
    }
    Ok(match word {
        "ATTACHED" | "MOVED" | "BOTH-CHANGE" => row.number(rest)? == ended.number,
        "CHECK" => is_sense(&ended.bytes, &spelled(alloc, rest)?),
        _ => ended.bytes == spelled(alloc, rest)?,
    })
}

// Whether a sense is of this key, code and qualifier, or of these 18 bytes.
fn is_sense(sense: &[u8], bytes: &[u8]) -> bool {
    match bytes {
        [key, asc, ascq] => sense == Sense::new(*key, *asc, *ascq).to_bytes().as_slice(),
        _ => sense == bytes,
    }
}
