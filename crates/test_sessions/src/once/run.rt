//! The runner of the tables of one session over one unit.
use crate::ends::must;
use crate::row::{Row, Words, read};
use crate::run::portal;
use block_file::{Blocks, DeviceFailed, FusedBlocks, MemBlocks};
use once_target::once::once;
use session::{End, TargetRecord, Watched};
use std::alloc::Global;
use std::process::Abort;
use std::test::*;
use test_connections::{Calls, FakeReader, FakeWriter, ONE_BYTE, WHOLE};

/// How many blocks the unit has.
const BLOCKS: u32 = 2048;

/// How many it has where an input is cut or ends at each place: more than these rows write, in less time.
const FEW_BLOCKS: u32 = 16;

// What a device holds at a place, where it can be read.
fn block_at<B: Blocks>(device: &mut B, index: u32) -> Option<[u8; 512]> {
    if index >= device.count() {
        return None;
    }
    let mut block = [0xEE; 512];
    match device.read_run(index, &mut block) {
        Ok(()) => Some(block),
        Err(DeviceFailed) => None,
    }
}

// What all bytes of a block are: where it was not written, 0.
fn byte_of(written: &[(u32, u8)], index: u32) -> u8 {
    for (block, byte) in written {
        if *block == index {
            return *byte;
        }
    }
    0
}

// Whether the device has so many blocks, these of them of this byte, and all others of zeros.
fn keeps<B: Blocks>(device: &mut B, count: u32, written: &[(u32, u8)]) -> bool {
    for index in 0..count {
        let byte = byte_of(written, index);
        if block_at(device, index) != Some([byte; 512]) {
            return false;
        }
    }
    for (block, _) in written {
        if *block >= count {
            return false;
        }
    }
    device.count() == count
}

// Serves the first bytes of a row's input, read so, over so many blocks of zeros that fail as it says, and compares.
fn serve(rt: &impl Abort, alloc: Global, row: &Row<'_>, came: usize, reads: Calls, blocks: u32) {
    let mut sink = Watched::new(FakeWriter::new(alloc, WHOLE));
    let front = row.input.get(..came).expect(rt, row.name);
    let mut source = Watched::new(FakeReader::new(front, reads));
    let (end, mut device) = serve_to(rt, alloc, &mut source, &mut sink, row, blocks);
    let written = row.written.get(..row.at(came).blocks);
    let kept = keeps(&mut device, blocks, written.expect(rt, row.name));
    let sent = sink.into_inner().into_bytes();
    let what = differs(row, came, end, &sent, kept);
    must(rt, what.is_none(), row.name, &(came, reads, what));
}

// Serves a row to this sink: how the session ended, and the blocks then.
fn serve_to(
    rt: &impl Abort,
    alloc: Global,
    source: &mut Watched<FakeReader<'_>>,
    sink: &mut Watched<FakeWriter>,
    row: &Row<'_>,
    count: u32,
) -> (End, MemBlocks) {
    assert!(rt; count > 0, "a unit of one block at least");
    let blocks = MemBlocks::new(alloc, count).expect(rt, "memory");
    let (calls, lands) = fuse_of(rt, row);
    let fused = FusedBlocks::inside(blocks, calls, lands);
    let me = TargetRecord {
        target_name: b"iqn.2000-01.test:array",
        first: &[portal(3260)],
        second: &[portal(3264)],
    };
    let ended = once(alloc, source, sink, fused, &me);
    let (end, device, _registrations) = ended.expect(rt, row.name);
    (end, device.into_inner())
}

// How the device fails: after so many calls, more than any session makes unless a row says so; and of how many blocks the run of the
// first one that fails is written.
fn fuse_of(rt: &impl Abort, row: &Row<'_>) -> (u64, u32) {
    match row.said("lands", "") {
        "" => (read(rt, row.said("fails", "1000000")), 0),
        lands => (0, read(rt, lands)),
    }
}

// What is otherwise than a row says where so many of its bytes came, and the input ended.
fn differs(row: &Row<'_>, came: usize, end: End, sent: &[u8], kept: bool) -> Option<&'static str> {
    if end != End::EndOfInput {
        return Some("how it ended");
    }
    if !kept {
        return Some("the blocks");
    }
    if row.output.get(..row.at(came).written) != Some(sent) {
        return Some("what it wrote");
    }
    None
}

// Serves a row with its input whole, in single bytes, and, as it says, cut in two after each byte, and ended there.
fn run_row(rt: &impl Abort, alloc: Global, row: &Row<'_>) {
    let all = row.input.len();
    serve(rt, alloc, row, all, WHOLE, BLOCKS);
    serve(rt, alloc, row, all, ONE_BYTE, BLOCKS);
    for place in 0..all {
        if !row.has("all-blocks") && place > 0 {
            let reads = Calls {
                first: place,
                ..WHOLE
            };
            serve(rt, alloc, row, all, reads, FEW_BLOCKS);
        }
        if row.has("ends") {
            serve(rt, alloc, row, place, WHOLE, FEW_BLOCKS);
        }
    }
}

// The lines of a row that is served over a unit.
fn of_a_unit() -> Words {
    (
        &[">", "<", "written", "fails", "lands"],
        &["all-blocks", "ends"],
    )
}

/// Serves each row of a table over a unit, and compares.
pub fn run(rt: &impl Abort, alloc: Global, table: &str, rows: &str) {
    for text in rows.split("\n\n") {
        run_row(rt, alloc, &Row::read(rt, alloc, of_a_unit(), table, text));
    }
}
