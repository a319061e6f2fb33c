//! The lines of the console, over units that count.
use crate::ends::must;
use array_administration::{Operations, console};
use command_line::Fault;
use scsi_types::Group;
use status::Row;
use std::alloc::Global;
use std::io::{self, BufReader, Read, Write};
use std::process::Abort;
use std::test::*;

// Two units, which count how often they were asked, and flushed behind the close. Of controller 2 unit 1 does not move.
#[derive(Drop)]
struct Two {
    asked: u32,
    closed: u32,
    flushed: u32,
}

impl Operations for Two {
    fn status(&mut self, unit: u8) -> Option<Row> {
        self.asked = self.asked.saturating_add(1);
        match unit {
            0 => Some(Row {
                owner: 1,
                states: (0, 1),
                generation: 4294967295,
                registrants: 64,
                kind: 5,
                entries: 18446744073709551615,
            }),
            1 => Some(Row {
                owner: 2,
                states: (3, 0),
                generation: 0,
                registrants: 0,
                kind: 0,
                entries: 0,
            }),
            _ => None,
        }
    }

    fn down(&mut self, controller: Group) -> Result<(), usize> {
        match controller {
            Group::One => Ok(()),
            Group::Two => Err(1),
        }
    }

    fn close(&mut self) {
        self.closed = self.closed.saturating_add(1);
    }

    fn flush(&mut self) -> Result<(), u8> {
        self.flushed = self.flushed.saturating_add(self.closed);
        Err(1)
    }
}

const STATUS: &str =
    "unit 0 owner 1 states 0 1 generation 4294967295 keys 64 type 5 entries 18446744073709551615
unit 1 owner 2 states 3 0 generation 0 keys 0 type 0 entries 0
";

// Compares what the lines are answered. Behind them the units were flushed once, and it is told that one was not.
fn compare(rt: &impl Abort, alloc: Global, lines: &[u8], answers: &str) -> Result<(), Fail> {
    let mut array = Two {
        asked: 0,
        closed: 0,
        flushed: 0,
    };
    let mut written = Vec::new(alloc);
    let end = console(alloc, lines, &mut written, &mut array);
    let text = String::from_utf8(written)?;
    let is_told = end == Err(Fault::NotFlushed(1));
    let said = text.as_str().strip_suffix("not flushed 1\n");
    let is_right = is_told && said == Some(answers) && array.flushed == 1;
    must(rt, is_right, "these lines", &(lines, text));
    Ok(())
}

#[test]
fn lines_and_what_they_are_answered(rt: HostRuntime) -> Result<(), Fail> {
    for (lines, answers) in &[
        ("", ""),
        ("quit", ""),
        ("quit\n", ""),
        ("quit\nx\n", ""),
        ("\n", "?\n"),
        ("x", "?\n"),
        ("x\ny\nquit\n", "?\n?\n"),
        ("down 1\ndown 2\n", "down\nnot moved 1\n"),
        ("down\ndown 0\ndown 3\ndown 1 \nDOWN 1\n", "?\n?\n?\n?\n?\n"),
        ("Status\nstatus \n status\nquit \n", "?\n?\n?\n?\n"),
        ("quit\r\n", ""),
        ("status\nquit\n", STATUS),
    ] {
        compare(&rt, rt.alloc(), lines.as_bytes(), answers)?;
    }
    // no UTF-8
    compare(
        &rt,
        rt.alloc(),
        b"\xFF\nstatus\xC3\ndown 1\n",
        "?\n?\ndown\n",
    )
}
