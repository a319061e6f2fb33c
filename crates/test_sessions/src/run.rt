//! The runner of the tables.
use crate::ends::must;
use crate::fixed::{Fixed, Heard, answers_of};
use crate::row::{Row, Words, read};
use session::{End, TargetRecord, Watched, serve_stream};
use std::alloc::Global;
use std::fmt::Debug;
use std::io::ErrorKind;
use std::net::{Ipv4Addr, SocketAddrV4};
use std::process::Abort;
use std::test::*;
use test_connections::{Calls, FakeReader, FakeWriter, ONE_BYTE, WHOLE, filled, lines_of};

/// How a session ended, what it wrote and by how many bytes a call, and what its target was asked and given.
#[derive(Drop)]
pub struct Ran {
    pub end: End,
    pub output: Vec<u8>,
    pub sizes: Vec<usize>,
    pub heard: Heard,
}

/// A portal at this port of the host itself.
pub fn portal(port: u16) -> SocketAddrV4 {
    SocketAddrV4::new(Ipv4Addr::new(127, 0, 0, 1), port)
}

/// Appends these bytes.
pub fn put(rt: &impl Abort, out: &mut Vec<u8>, bytes: &[u8]) {
    out.extend_from_slice(bytes).expect(rt, "memory");
}

/// So many bytes a call, of which the one of this number fails.
pub fn calls_of(bytes: usize, fail_at: u64) -> Calls {
    Calls {
        first: bytes,
        later: bytes,
        fail_at,
        kind: ErrorKind::BrokenPipe,
    }
}

/// How calls are answered that read, and that write.
type How = (Calls, Calls);

/// Serves this input, read and written so, in the session of this row: its target has one portal of the first controller.
/// Fails where the target does not hear once, and last, that the session is over.
pub fn serve(rt: &impl Abort, alloc: Global, input: &[u8], how: How, row: &Row<'_>) -> Ran {
    let (reads, writes) = how;
    let mut target = Fixed::new(alloc, answers_of(rt, row));
    let mut source = source_of(input, reads);
    let mut sink = Watched::new(FakeWriter::new(alloc, writes));
    let end = serve_by(rt, alloc, &mut source, &mut sink, &mut target, row);
    must(
        rt,
        target.ended_once(),
        row.name,
        &"the session is over once, and nothing is asked then",
    );
    let (output, sizes) = sink.into_inner().into_parts();
    Ran {
        end,
        output,
        sizes,
        heard: target.into_heard(),
    }
}

// A source of these bytes, read so. Where a call is to find nothing, its reads wait for a time alone.
fn source_of(input: &[u8], reads: Calls) -> Watched<FakeReader<'_>> {
    let source = FakeReader::new(input, reads);
    if reads.kind == ErrorKind::WouldBlock {
        Watched::timed(source)
    } else {
        Watched::new(source)
    }
}

// Serves the session of this row by this target: how it ended.
fn serve_by(
    rt: &impl Abort,
    alloc: Global,
    source: &mut Watched<FakeReader<'_>>,
    sink: &mut Watched<FakeWriter>,
    target: &mut Fixed<'_>,
    row: &Row<'_>,
) -> End {
    let second = [portal(3264), portal(3265), portal(3266)];
    let portals = read(rt, row.said("portals", "1"));
    let me = TargetRecord {
        target_name: b"iqn.2000-01.test:array",
        first: &[portal(3260)],
        second: second.get(..portals).expect(rt, "three portals at most"),
    };
    serve_stream(alloc, source, sink, target, row.opening(rt), &me).expect(rt, "memory")
}

/// The lines of a row that is served by a target of its own, but for its name.
pub fn of_a_target() -> Words {
    (
        &[
            ">",
            "<",
            "asked",
            "given",
            "end",
            "answer",
            "begin",
            "pieces",
            "login",
            "portals",
            "ExpCmdSN",
            "StatSN",
            "MaxRecvDataSegmentLength",
            "MaxBurstLength",
            "FirstBurstLength",
        ],
        &[
            "lives",
            "reset failed",
            "reset gone",
            "each-place",
            "discovery",
            "ImmediateData No",
        ],
    )
}

/// Serves each row of a table, and compares.
pub fn run(rt: &impl Abort, alloc: Global, table: &str, rows: &str) {
    for text in rows.split("\n\n") {
        run_text(rt, alloc, table, text);
    }
}

/// Serves the row of these lines, and compares.
pub fn run_text(rt: &impl Abort, alloc: Global, table: &str, text: &str) {
    run_row(rt, alloc, &Row::read(rt, alloc, of_a_target(), table, text));
}

/// Serves each row of a table of a form, and compares.
pub fn run_form(rt: &impl Abort, alloc: Global, table: &str, form: &str, rows: &str) {
    let rows = lines_of(alloc, rows).expect(rt, "memory");
    must(rt, !rows.is_empty(), table, &"a table has a row");
    for parts in &rows {
        let text = filled(alloc, form, parts).expect(rt, parts);
        run_text(rt, alloc, table, &text);
    }
}

/// The most bytes of an input that is cut at each of its places.
const FEW_BYTES: usize = 96;

/// Serves a row: whole, one byte after the other, in pieces where it says so, and, where they are few or it says so, in two at
/// each place.
pub fn run_row(rt: &impl Abort, alloc: Global, row: &Row<'_>) {
    run_reads(rt, alloc, row, WHOLE);
    run_reads(rt, alloc, row, ONE_BYTE);
    let pieces = read(rt, row.said("pieces", "0"));
    if pieces > 0 {
        run_reads(rt, alloc, row, calls_of(pieces, 0));
    }
    if row.has("each-place") || row.input.len() <= FEW_BYTES {
        for first in 1..row.input.len() {
            run_reads(rt, alloc, row, Calls { first, ..WHOLE });
        }
    }
}

// Serves a row, read so, and compares.
fn run_reads(rt: &impl Abort, alloc: Global, row: &Row<'_>, reads: Calls) {
    let how = (reads, WHOLE);
    run_part(rt, alloc, row, row.input.len(), how, row.whole());
}

/// How a session ends, and how much of a row's output it writes and of its questions it asks.
#[derive(Clone, Copy)]
pub struct Wanted<'a> {
    pub end: &'a str,
    pub written: usize,
    pub asked: usize,
}

/// Serves the first bytes of a row's input, read and written so, and compares.
pub fn run_part(
    rt: &impl Abort,
    alloc: Global,
    row: &Row<'_>,
    came: usize,
    how: How,
    wanted: Wanted<'_>,
) {
    let front = row.input.get(..came).expect(rt, "so many bytes come");
    let ran = serve(rt, alloc, front, how, row);
    let what = if ends_as(rt, alloc, ran.end, wanted.end) {
        differs(&ran, row, wanted)
    } else {
        Some("how it ended")
    };
    let came = (row.table, came, how, what, ran.end, &ran.output);
    must(rt, what.is_none(), row.name, &came);
}

// What a session did otherwise than it is wanted, but for its end.
fn differs(ran: &Ran, row: &Row<'_>, wanted: Wanted<'_>) -> Option<&'static str> {
    if row.asked.get(..wanted.asked) != Some(ran.heard.asked.as_str()) {
        return Some("what it asked");
    }
    if wanted.asked == row.asked.len() && ran.heard.given != row.given {
        return Some("what it gave");
    }
    if row.output.get(..wanted.written) != Some(ran.output.as_slice()) {
        return Some("what it wrote");
    }
    None
}

/// Whether a row tells this end so: the numbers of a cause stand behind its name, in hexadecimal as the standard has them.
pub fn ends_as(rt: &impl Abort, alloc: Global, end: End, text: &str) -> bool {
    let told = match end {
        End::Rejected {
            reason,
            opcode,
            tag,
        } => format!(in alloc; "Rejected {reason:02X} {opcode:02X} {tag:08X}"),
        End::LoginRefused(status) => format!(in alloc; "LoginRefused {status:04X}"),
        _ => format!(in alloc; "{end:?}"),
    };
    told.expect(rt, "memory").as_str() == text
}

/// Whether `Debug` spells it so.
pub fn spells(rt: &impl Abort, alloc: Global, value: &impl Debug, text: &str) -> bool {
    let spelled = format!(in alloc; "{value:?}").expect(rt, "memory");
    spelled.as_str() == text
}

/// A part of a line between semicolons, counted from 0.
pub fn part(line: &str, at: usize) -> &str {
    line.split(';').nth(at).unwrap_or("").trim()
}
