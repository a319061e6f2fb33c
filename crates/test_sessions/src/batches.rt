//! How the answers leave: those of commands that came together in one write, many and long ones in parts.
use crate::ends::must;
use crate::row::Row;
use crate::run::{Ran, ends_as, of_a_target, serve};
use std::alloc::Global;
use std::io::ErrorKind;
use std::process::Abort;
use std::test::*;
use test_connections::{Calls, WHOLE};

/// A session, and how its answers leave.
#[derive(Clone, Copy)]
struct Batch {
    /// What comes, what the target answers, and how the session ends.
    row: &'static str,
    /// The most bytes of the first read; 120 are two whole commands and a half.
    first: usize,
    /// The write that fails, counted from 1, or 0 for none.
    fail_at: u64,
    /// How many bytes each write brings, and how many commands are called.
    writes: &'static [usize],
    calls: usize,
}

/// All comes in the first read.
const ALL: usize = 1_000_000;

// The outbox has room for 299008 bytes: four Data-In of 65536 and their headers, but no fifth. A READ (10) of 32 blocks is
// answered by two Data-In of 8192 bytes and a response, so 16528 bytes; one of 63 blocks by 32496, which may wait. One of
// 1024 blocks reads 524288 bytes.
fn all_batches() -> &'static [Batch] {
    &[
        Batch {
            row: r"three commands in one read
> TEST_UNIT_READY
> TEST_UNIT_READY 24:00000002
> TEST_UNIT_READY 24:00000003",
            first: ALL,
            fail_at: 0,
            writes: &[144],
            calls: 3,
        },
        Batch {
            row: r"two commands and a half in the first read
> TEST_UNIT_READY
> TEST_UNIT_READY 24:00000002
> TEST_UNIT_READY 24:00000003",
            first: 120,
            fail_at: 0,
            writes: &[96, 48],
            calls: 3,
        },
        Batch {
            row: r"the sink fails
> TEST_UNIT_READY
> TEST_UNIT_READY 24:00000002
> TEST_UNIT_READY 24:00000003
end OutputFailed",
            first: ALL,
            fail_at: 1,
            writes: &[144],
            calls: 3,
        },
        Batch {
            row: r"the sink fails at the second batch
> TEST_UNIT_READY
> TEST_UNIT_READY 24:00000002
> TEST_UNIT_READY 24:00000003
end OutputFailed",
            first: 120,
            fail_at: 2,
            writes: &[96, 48],
            calls: 3,
        },
        Batch {
            row: r"256 KiB in segments of 8192
answer good pattern 262144
> COMMAND 1:C1 20:00040000 32:280000000000000200",
            first: ALL,
            fail_at: 0,
            writes: &[263728],
            calls: 1,
        },
        Batch {
            row: r"256 KiB behind the most that may wait
answer in-turn pattern 32256 | pattern 262144
> COMMAND 1:C1 20:00007E00 32:28000000000000003F
> COMMAND 1:C1 20:0004000000000002 32:280000000000000200",
            first: ALL,
            fail_at: 0,
            writes: &[296224],
            calls: 2,
        },
        Batch {
            row: r"32768 bytes wait behind the second of three reads
answer good pattern 16384
> COMMAND 1:C1 20:00004000 32:280000000000000020
> COMMAND 1:C1 20:0000400000000002 32:280000000000000020
> COMMAND 1:C1 20:0000400000000003 32:280000000000000020",
            first: ALL,
            fail_at: 0,
            writes: &[33056, 16528],
            calls: 3,
        },
        Batch {
            row: r"the sink fails behind the second of three reads: the third is not called
answer good pattern 16384
> COMMAND 1:C1 20:00004000 32:280000000000000020
> COMMAND 1:C1 20:0000400000000002 32:280000000000000020
> COMMAND 1:C1 20:0000400000000003 32:280000000000000020
end OutputFailed",
            first: ALL,
            fail_at: 1,
            writes: &[33056],
            calls: 2,
        },
        Batch {
            row: r"a reply that is longer than the outbox
MaxRecvDataSegmentLength 65536
answer good pattern 524288
> COMMAND 1:C1 20:00080000 32:280000000000000400",
            first: ALL,
            fail_at: 0,
            writes: &[262336, 262384],
            calls: 1,
        },
        Batch {
            row: r"the sink fails in the middle of a reply: no command behind it is called
MaxRecvDataSegmentLength 65536
answer good pattern 524288
> COMMAND 1:C1 20:00080000 32:280000000000000400
> TEST_UNIT_READY 24:00000002
end OutputFailed",
            first: ALL,
            fail_at: 1,
            writes: &[262336],
            calls: 1,
        },
    ]
}

fn check(rt: &impl Abort, alloc: Global, batch: &Batch) {
    let row = Row::read(rt, alloc, of_a_target(), "batches", batch.row);
    let ran = served(rt, alloc, &row, batch);
    let is_end = ends_as(rt, alloc, ran.end, row.end());
    let commands = ran.heard.commands;
    let is_right = is_end && ran.sizes.as_slice() == batch.writes && commands == batch.calls;
    must(rt, is_right, row.name, &(ran.end, &ran.sizes, commands));
}

fn served(rt: &impl Abort, alloc: Global, row: &Row<'_>, batch: &Batch) -> Ran {
    let reads = Calls {
        first: batch.first,
        ..WHOLE
    };
    let writes = Calls {
        fail_at: batch.fail_at,
        kind: ErrorKind::BrokenPipe,
        ..WHOLE
    };
    serve(rt, alloc, &row.input, (reads, writes), row)
}

#[test]
fn batches(rt: HostRuntime) {
    for batch in all_batches() {
        check(&rt, rt.alloc(), batch);
    }
}
