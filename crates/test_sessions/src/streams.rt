//! Sessions over streams that end and are cut anywhere, that fail at each call in turn, that take nothing, over which nothing
//! comes for a while, and whose calls are interrupted.
use crate::row::Row;
use crate::run::{Wanted, calls_of, of_a_target, run_part, run_row};
use std::alloc::Global;
use std::io::ErrorKind;
use std::process::Abort;
use std::test::*;
use test_connections::{Calls, ONE_BYTE, WHOLE};

// In each row, what a PDU comes to stands behind it. The last one ends its session by itself.
fn rows() -> &'static str {
    r#"
two commands
> TEST_UNIT_READY
< GOOD
asked 0 Ok(TestUnitReady)
> TEST_UNIT_READY 24:00000002
< GOOD 24:000000020000000300000022
asked 0 Ok(TestUnitReady)

a write and its data
each-place
> WRITE
< R2T
> DATA_OUT pattern 512
< GOOD
asked 0 Ok(Write { lba: 5, blocks: 1, fua: false })
given pattern 512

a login of two requests, and a command
login 1
each-place
> LOGIN 1:81 7:43 NAMES
< LOGGED_IN 1:81 7:17 14:0000 "TargetPortalGroupTag=1\0"
> LOGIN
< LOGGED_IN 7:1F 24:00000002 "MaxRecvDataSegmentLength=65536\0"
asked begin iqn.2000-01.test:a 400001370000 Normal
> TEST_UNIT_READY
< GOOD 24:00000003
asked 0 Ok(TestUnitReady)

a login of one request
login 1
each-place
> LOGIN 7:56 HOST_A
< LOGGED_IN 7:36 WELCOME
asked begin iqn.2000-01.test:a 400001370000 Normal

# It is rejected once its header is there.
an opcode that there is not, in place of a Login Request
login 1
> LOGIN 0:07
< REJECT 2:05 24:00000001000000000000001F rejected LOGIN 0:07
end Rejected 05 07 00000001
"#
}

fn ends_anywhere(rt: &impl Abort, alloc: Global, row: &Row<'_>) {
    for came in 0..row.input.len() {
        let wanted = answered(row, came, "EndOfInput");
        run_part(rt, alloc, row, came, (WHOLE, WHOLE), wanted);
    }
}

// What so many bytes of a row come to, where its session ends so.
fn answered<'a>(row: &Row<'_>, came: usize, end: &'a str) -> Wanted<'a> {
    let mark = row.at(came);
    Wanted {
        end,
        written: mark.written,
        asked: mark.asked,
    }
}

// Four bytes come a call, so PDUs end where calls do. The call behind the last bytes, which finds the end, fails too.
fn any_read_fails(rt: &impl Abort, alloc: Global, row: &Row<'_>) {
    for done in 0..=row.input.len() / 4 {
        let wanted = answered(row, done.saturating_mul(4), "InputFailed");
        let reads = calls_of(4, (done as u64).saturating_add(1));
        run_part(rt, alloc, row, row.input.len(), (reads, WHOLE), wanted);
    }
}

// Nothing comes for a while before any call: that ends a login, and changes nothing behind it.
fn any_read_finds_nothing(rt: &impl Abort, alloc: Global, row: &Row<'_>) {
    for done in 0..=row.input.len() / 4 {
        let came = done.saturating_mul(4);
        let reads = Calls {
            kind: ErrorKind::WouldBlock,
            ..calls_of(4, (done as u64).saturating_add(1))
        };
        let wanted = if row.is_open(came) {
            row.whole()
        } else {
            answered(row, came, "InputFailed")
        };
        run_part(rt, alloc, row, row.input.len(), (reads, WHOLE), wanted);
    }
}

fn any_write_fails(rt: &impl Abort, alloc: Global, row: &Row<'_>) {
    for written in 0..row.output.len() {
        let call = (written as u64).saturating_add(1);
        a_write_fails(rt, alloc, row, written, calls_of(1, call));
    }
}

// A write fails so behind so many bytes: each answer leaves before more is read, so nothing is asked by a PDU behind it.
fn a_write_fails(rt: &impl Abort, alloc: Global, row: &Row<'_>, written: usize, writes: Calls) {
    let wanted = Wanted {
        written,
        ..answered(row, needed(row, written), "OutputFailed")
    };
    let how = (calls_of(4, 0), writes);
    run_part(rt, alloc, row, row.input.len(), how, wanted);
}

// How many bytes have come when there is more to write than so many.
fn needed(row: &Row<'_>, written: usize) -> usize {
    for mark in &row.marks {
        if mark.written > written {
            return mark.came;
        }
    }
    row.input.len()
}

// An interrupted call is made again.
fn calls_are_interrupted(rt: &impl Abort, alloc: Global, row: &Row<'_>) {
    for call in 1..=16u64 {
        let how = Calls {
            kind: ErrorKind::Interrupted,
            ..calls_of(7, call)
        };
        run_part(rt, alloc, row, row.input.len(), (how, how), row.whole());
    }
}

fn each_stream(rt: &impl Abort, alloc: Global, row: &Row<'_>) {
    run_row(rt, alloc, row);
    ends_anywhere(rt, alloc, row);
    if row.end() == "EndOfInput" {
        run_part(
            rt,
            alloc,
            row,
            row.input.len(),
            (WHOLE, ONE_BYTE),
            row.whole(),
        );
        any_read_fails(rt, alloc, row);
        any_read_finds_nothing(rt, alloc, row);
        any_write_fails(rt, alloc, row);
        a_write_fails(rt, alloc, row, 0, calls_of(0, 0));
        calls_are_interrupted(rt, alloc, row);
    }
}

#[test]
fn streams(rt: HostRuntime) {
    let alloc = rt.alloc();
    for text in rows().split("\n\n") {
        let row = Row::read(&rt, alloc, of_a_target(), "streams", text);
        each_stream(&rt, alloc, &row);
    }
}
