//! The scripts, as text:
//!
//! ```text
//! # Each save is four calls of the registration file's device.
//! a name
//! saves 8
//! the first writes; send 0 2A 00 00000001 00 0001; 512*5A; GOOD
//! written 1 5A
//! ```
//!
//! A table is one text, with an empty line between two scripts. A line that begins with `#` is a comment, and one that begins with
//! a blank goes on with the line before. The first line of a script is its name. A line with semicolons is a row: its name,
//! a call, its data, as `bytes_of` spells them, and how it is to end. A row that is played for several numbers has N in their place,
//! or 3N for three times as much, and where its data or its end differ it has a bar between those for 0, 1, 2 and so on.
//! `each 5`: the script is played five times, for the numbers from 0 to 4. The rows behind `numbers 1 64` are played for the numbers
//! from 1 to 63, one after the other; those behind `numbers N`, and in front of all such lines, for the script's own.
//!
//! - `attach 1 2` attaches the port of ISID 1 through group 2. Sessions go by the order in which they were attached, from 0 on.
//!   `detach 0` and `reset 0` are calls of the first; `move` moves the unit as a list says, and `flush` flushes it.
//! - `send 0 25` is the next command of the first session, by the session's own group; `forward 0 25` the same, and where the unit
//!   belongs to the other group, once more by that one. `serial 7 2 25` is a command of the session of id 7 with serial
//!   2, by the first group.
//! - `restart` is not a call: the power is lost, and the unit opens again.
//! - It ends `GOOD` with these bytes; `CHECK` with this sense key, additional sense code and qualifier, or with these 18 bytes of sense;
//!   `CONFLICT`, `MOVED 2` to that group, `GONE`, `ATTACHED 5` with this id, `TOO-MANY`; `DONE`, where a session was ended, its
//!   reset done, or the unit flushed, or `FAILED`. A move ends with what became of the states and, where another group owns
//!   the unit, which: `NEITHER-CHANGES`, `BOTH-CHANGE 2`; or with why there is none: `BAD-LENGTH`, `BAD-LIST`, `NOT-OPENED`.
//!
//! The other lines say what the unit has (`Setup`): `unit 1`, `blocks 2048`, `calls 1`, `lands 2`, `opens 0`, `saves N`, `alone 3`.
//! Where they say nothing it is unit 0, of 16 blocks, of which no call and no open fails, and whose registration file makes no
//! call. What was written last is there behind a restart.
//! `written 1 5A`: afterwards this block is of this byte; all others are of zeros.
use crate::bench::{Faults, NO_FAULTS, Setup};
use crate::device::Failing;
use crash_blocks::Pick;
use scsi_types::Place;
use std::alloc::Global;
use std::test::Fail;
use test_connections::{RowError, Texts, bytes_of, want_at};

/// The TransportIDs of two ports, behind their first four bytes (SPC-4, 7.6.4.6).
const TEXTS: Texts = &[
    ("PORT_1", r"iqn.2026-01.example:host,i,0x000000000001\0\0\0"),
    ("PORT_2", r"iqn.2026-01.example:host,i,0x000000000002\0\0\0"),
];

/// A row of a script, and the number for which it is played.
#[derive(Clone, Copy)]
pub struct Row<'a> {
    pub text: &'a str,
    pub n: u64,
}

impl<'a> Row<'a> {
    /// The call: its first word, and what comes behind.
    pub fn call(&self) -> (&'a str, &'a str) {
        let call = part(self.text, 1);
        words_of(call)
    }

    /// The data of the call.
    pub fn data(&self, alloc: Global) -> Result<Vec<u8>, RowError> {
        spelled(alloc, self.own(part(self.text, 2)))
    }

    /// How it is to end: a word, and what comes behind.
    pub fn end(&self) -> (&'a str, &'a str) {
        words_of(self.own(part(self.text, 3)))
    }

    // What stands for its number between bars, or all where there are none.
    fn own(&self, words: &'a str) -> &'a str {
        words.split('|').nth(self.n as usize).unwrap_or(words)
    }

    /// The number that a word says.
    pub fn number(&self, word: &str) -> Result<u64, Fail> {
        Ok(match word {
            "N" => self.n,
            "3N" => self.n.wrapping_mul(3),
            "always" => u64::MAX,
            _ => word.parse().ok().ok_or(self.text)?,
        })
    }
}

/// A part of a line, counted from 0.
pub fn part(line: &str, at: usize) -> &str {
    line.split(';').nth(at).unwrap_or("")
}

// The first word, and what comes behind.
fn words_of(part: &str) -> (&str, &str) {
    let words = part.trim();
    words.split_once(' ').unwrap_or((words, ""))
}

/// The bytes of these parts.
pub fn spelled(alloc: Global, words: &str) -> Result<Vec<u8>, RowError> {
    bytes_of(alloc, TEXTS, words)
}

/// The CDB of these digits, with this byte at each place behind.
pub fn cdb_of(alloc: Global, digits: &str, behind: u8) -> Result<[u8; 16], RowError> {
    let bytes = spelled(alloc, digits)?;
    let mut cdb = [behind; 16];
    let len = bytes.len().min(16);
    cdb[..len].copy_from_slice(&bytes[..len]);
    Ok(cdb)
}

/// The unit that the lines of a script say, where it is played for this number.
pub fn setup_of<'a>(lines: &[&'a str], n: u64) -> Result<Setup<'a>, Fail> {
    let mut setup = Setup {
        script: lines.first().copied().unwrap_or(""),
        times: 1,
        place: Place {
            unit: 0,
            units: 2,
            array: 1,
        },
        blocks: 16,
        faults: Faults {
            file: Failing {
                behind: 0,
                ..NO_FAULTS.file
            },
            ..NO_FAULTS
        },
        pick: Pick::Newest,
    };
    for line in lines.get(1..).unwrap_or(&[]) {
        if !is_row(line) {
            take(&mut setup, &Row { text: *line, n })?;
        }
    }
    Ok(setup)
}

/// Whether a line is a row.
pub fn is_row(line: &str) -> bool {
    line.contains(';')
}

// Takes what a line says of the unit.
fn take(setup: &mut Setup, line: &Row) -> Result<(), Fail> {
    let (word, rest) = words_of(line.text);
    match word {
        "unit" => setup.place.unit = rest.parse().ok().ok_or(line.text)?,
        "blocks" => setup.blocks = rest.parse().ok().ok_or(line.text)?,
        "calls" => setup.faults.disk.behind = line.number(rest)?,
        "lands" => setup.faults.disk.lands = rest.parse().ok().ok_or(line.text)?,
        "opens" => setup.faults.opens = line.number(rest)?,
        "saves" => setup.faults.file.behind = line.number(rest)?,
        "alone" => setup.faults.file.alone = line.number(rest)?,
        "each" => setup.times = line.number(rest)?,
        "written" | "numbers" => {}
        _ => return Err(line.text.into()),
    }
    Ok(())
}

// The block that a line says is written, and the byte of which it is afterwards; none where it is no such line.
fn written_by(line: &str) -> Result<Option<(u32, u8)>, Fail> {
    let Some(words) = line.strip_prefix("written ") else {
        return Ok(None);
    };
    let (index, byte) = words.split_once(' ').ok_or(line)?;
    let byte = u8::from_str_radix(byte, 16).ok().ok_or(line)?;
    Ok(Some((index.parse().ok().ok_or(line)?, byte)))
}

/// The byte of which a block is afterwards.
pub fn written_at(lines: &[&str], block: u32) -> Result<u8, Fail> {
    for line in lines {
        match written_by(line)? {
            Some((index, byte)) if index == block => return Ok(byte),
            _ => {}
        }
    }
    Ok(0)
}

/// What is written lies in a device of so many blocks.
pub fn are_within(lines: &[&str], count: u32) -> Result<(), Fail> {
    for line in lines {
        if let Some((index, _)) = written_by(line)? {
            want_at(index < count, line, &count)?;
        }
    }
    Ok(())
}
