//! Flushes after one that failed.
use crate::beside::slow_handles;
use crate::ends::must;
use crate::fake::{FAILED, FakeFile, NODE};
use block_file::Blocks;
use disk_files::{FileBlocks, FlushFault, Flushes};
use std::alloc::Global;
use std::process::Abort;
use std::sync::{Arc, Mutex, Wait};
use std::thread::{Threads, join};
use test_disks::writes;

/// Scripts. Each begins with its name, which flush of the device fails, counted from 0, and of each of two handles beside it, if
/// there are handles. Then come flushes of the device and beside it, and how they end. The flushes of a handle that is opened anew
/// would all be done.
const SCRIPTS: &str = "no flush makes good one that failed; 1; no handle
flush done
flush failed
flush failed
flush failed

opens, and no flush fails; never; no handle
flush done
open
flush done
open
flush done

nor does one behind an open; 0; no handle
flush failed
open
flush failed
open
flush failed

an open flushes by the handle that goes, and where that fails a flush has failed; 0; no handle
write
open
flush failed
open
flush failed

so it has for those beside the device; 0; never
write
open
beside lost
flush failed

a flush beside the device that failed is told, by the first handle and by the second; never; 1
flush done
beside done
write
beside done
write
beside failed
beside lost
flush failed
flush failed

a flush of the device that failed is told beside it; 0; never
flush failed
beside lost
beside lost

without a handle no flush is done; never; no handle
beside lost

a flush beside the device is enough until a write ends; 0; never
beside done
flush done
flush done
write
flush failed";

fn ends_so(
    rt: &impl Wait,
    device: &mut FileBlocks<FakeFile>,
    beside: &Flushes<FakeFile>,
    row: &str,
) -> bool {
    match row {
        "flush done" => device.flush().is_ok(),
        "flush failed" => device.flush().is_err(),
        "write" => writes(device, 1, &[0x11]),
        "open" => device.renew(FakeFile::new(None)).is_ok(),
        _ => row.strip_prefix("beside ") == Some(ended(beside.flush(rt, NODE))),
    }
}

// How a flush beside the device ended.
fn ended(flush: Result<(), FlushFault>) -> &'static str {
    match flush {
        Ok(()) => "done",
        Err(FlushFault::Failed(FAILED)) => "failed",
        Err(FlushFault::Failed(_)) => "failed otherwise",
        Err(FlushFault::Lost) => "lost",
    }
}

// Runs a script over a device of that file, and the flushes beside it.
fn run_script(rt: &(impl Wait + Abort), alloc: Global, script: &str) {
    let (head, rows) = script.split_once('\n').unwrap_or((script, ""));
    let mut device = FileBlocks::of(FakeFile::new(fails_at(head))).expect(rt, head);
    let beside = beside(rt, alloc, &mut device, head);
    run(rt, &mut device, &beside, rows);
}

fn run(
    rt: &(impl Wait + Abort),
    device: &mut FileBlocks<FakeFile>,
    beside: &Flushes<FakeFile>,
    rows: &str,
) {
    for row in rows.split('\n') {
        must(rt, ends_so(rt, device, beside, row), rows, &row);
    }
}

// Which flush of the device fails, by the first line of a script.
fn fails_at(head: &str) -> Option<u32> {
    head.split("; ").nth(1)?.parse().ok()
}

// The flushes beside a device.
fn beside(
    rt: &impl Abort,
    alloc: Global,
    device: &mut FileBlocks<FakeFile>,
    head: &str,
) -> Arc<Flushes<FakeFile>, Global> {
    let handles = head.split("; ").nth(2).unwrap_or("");
    let mut by = Vec::new(alloc);
    if handles == "no handle" {
        return Arc::new(alloc, Flushes::new(by)).expect(rt, "memory");
    }
    put_two(rt, &mut by, handles.parse().ok());
    device.share(alloc, by).expect(rt, "memory")
}

// Puts two handles.
fn put_two(rt: &impl Abort, handles: &mut Vec<Mutex<FakeFile>>, fails_at: Option<u32>) {
    for _ in 0..2 {
        handles
            .push(Mutex::new(FakeFile::new(fails_at)))
            .expect(rt, "memory");
    }
}

#[test]
fn each_flush_ends_so(rt: HostRuntime) {
    for script in SCRIPTS.split("\n\n") {
        run_script(&rt, rt.alloc(), script);
    }
}

// One of two waits for the handle by which the other fails. The system would tell it nothing of that.
#[test]
fn who_waits_behind_a_flush_that_fails_is_told(rt: HostRuntime) {
    let by_one = Flushes::new(slow_handles(&rt, rt, rt.alloc(), &[Some(0)]));
    both_end_so(&rt, &by_one, false);
}

// Where no flush fails, who waits for a handle is not told that one did.
#[test]
fn who_waits_behind_a_flush_that_is_done_is_done(rt: HostRuntime) {
    let by_one = Flushes::new(slow_handles(&rt, rt, rt.alloc(), &[None]));
    both_end_so(&rt, &by_one, true);
}

/// Two flushes at a time are done, or neither is.
pub fn both_end_so(
    rt: &(impl Threads + Wait + Abort + Sync),
    flushes: &Flushes<FakeFile>,
    are_done: bool,
) {
    let (one, other) = join(rt, || flushes.flush(rt, NODE), || flushes.flush(rt, NODE));
    let ends = [one.is_ok(), other.is_ok()];
    must(rt, ends == [are_done, are_done], "two flushes", &ends);
}
